// The byte classes for checking ref names.

ghost use Rattle.std.specs.Prelude.{◌≡◌};
ghost use Rattle.gix_refspec_text.specs.Private.Scan.{class_at};

use self::Class::*;

/// Where a ref name may contain a byte.
#[derive(Clone, Copy)]
pub(super) enum Class {
    /// It is allowed anywhere.
    Plain,
    /// It ends a component.
    Slash,
    /// It is allowed neither first in a component, nor last in a text, nor beside another.
    Dot,
    /// It isn't allowed after an `@`.
    Brace,
    /// It is allowed only in a pattern.
    Star,
    /// It is allowed nowhere.
    Refused,
}

// The class of each byte, by index, sixteen to a row.
#[rattlefmt::skip]
static CLASSES: [Class; 256] = [
    Refused, Refused, Refused, Refused, Refused, Refused, Refused, Refused, Refused, Refused, Refused, Refused, Refused, Refused, Refused, Refused,
    Refused, Refused, Refused, Refused, Refused, Refused, Refused, Refused, Refused, Refused, Refused, Refused, Refused, Refused, Refused, Refused,
    Refused, Plain, Plain, Plain, Plain, Plain, Plain, Plain, Plain, Plain, Star, Plain, Plain, Plain, Dot, Slash,
    Plain, Plain, Plain, Plain, Plain, Plain, Plain, Plain, Plain, Plain, Refused, Plain, Plain, Plain, Plain, Refused,
    Plain, Plain, Plain, Plain, Plain, Plain, Plain, Plain, Plain, Plain, Plain, Plain, Plain, Plain, Plain, Plain,
    Plain, Plain, Plain, Plain, Plain, Plain, Plain, Plain, Plain, Plain, Plain, Refused, Refused, Plain, Refused, Plain,
    Plain, Plain, Plain, Plain, Plain, Plain, Plain, Plain, Plain, Plain, Plain, Plain, Plain, Plain, Plain, Plain,
    Plain, Plain, Plain, Plain, Plain, Plain, Plain, Plain, Plain, Plain, Plain, Brace, Plain, Plain, Refused, Refused,
    Plain, Plain, Plain, Plain, Plain, Plain, Plain, Plain, Plain, Plain, Plain, Plain, Plain, Plain, Plain, Plain,
    Plain, Plain, Plain, Plain, Plain, Plain, Plain, Plain, Plain, Plain, Plain, Plain, Plain, Plain, Plain, Plain,
    Plain, Plain, Plain, Plain, Plain, Plain, Plain, Plain, Plain, Plain, Plain, Plain, Plain, Plain, Plain, Plain,
    Plain, Plain, Plain, Plain, Plain, Plain, Plain, Plain, Plain, Plain, Plain, Plain, Plain, Plain, Plain, Plain,
    Plain, Plain, Plain, Plain, Plain, Plain, Plain, Plain, Plain, Plain, Plain, Plain, Plain, Plain, Plain, Plain,
    Plain, Plain, Plain, Plain, Plain, Plain, Plain, Plain, Plain, Plain, Plain, Plain, Plain, Plain, Plain, Plain,
    Plain, Plain, Plain, Plain, Plain, Plain, Plain, Plain, Plain, Plain, Plain, Plain, Plain, Plain, Plain, Plain,
    Plain, Plain, Plain, Plain, Plain, Plain, Plain, Plain, Plain, Plain, Plain, Plain, Plain, Plain, Plain, Plain,
];

pub(super) fn class_of(byte: u8) -> Class
    ensures { result ≡ class_at byte }
{
    CLASSES[byte as usize]
}
