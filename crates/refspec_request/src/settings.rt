//! The settings of Git's configuration.

ghost use Rattle.std.specs.Prelude.{◌≡◌, ◌≢◌, ◌++◌, ◌∷◌, ℕ, List, IfOk, MatchOption, option_map};
ghost use Rattle.std.specs.Str.{bytes_eq};
ghost use Rattle.gix_refspec_text.specs.Texts.Words.{Lacks};
ghost use Rattle.refspec_request.specs.Settings.{IsKey, joined_key, settings_with, value_of_last};

pub use crate::booleans::is_true;
use bstr::ByteSlice;
use refspec_io::settings::Setting;
use std::alloc::{AllocError, Global};

/// The name and the variable of a key `SECTION.NAME.VARIABLE`. The name may contain dots, the variable none. `None` for
/// any other key.
pub fn name_and_variable<'a>(section: &[u8], key: &'a [u8]) -> Option<(&'a [u8], &'a [u8])>
    ensures { MatchOption result
        ((name variable : List ℕ) → ¬ (IsKey section.now name variable key.now))
        (λ parts. IsKey section.now parts.0.now parts.1.now key.now) }
{
    let rest = strip_part(key, section)?;
    split_at_last(rest, b'.')
}

/// The text before and after the first occurrence of a byte. `None` if there is none.
pub fn split_at_first(text: &[u8], byte: u8) -> Option<(&[u8], &[u8])>
    ensures { MatchOption result
        (Lacks byte text.now)
        (λ parts. (text.now ≡ parts.0.now ++ (byte ∷ parts.1.now)) × Lacks byte parts.0.now) }
{
    let at = text.find_byte(byte)?;
    let (front, back) = text.split_at(at);
    Some((front, &back[1..]))
}

// The text before and after the last occurrence of a byte.
fn split_at_last(text: &[u8], byte: u8) -> Option<(&[u8], &[u8])>
    ensures { MatchOption result
        (Lacks byte text.now)
        (λ parts. (text.now ≡ parts.0.now ++ (byte ∷ parts.1.now)) × Lacks byte parts.1.now) }
{
    let at = text.rfind_byte(byte)?;
    let (front, back) = text.split_at(at);
    Some((front, &back[1..]))
}

/// The value of the last setting `SECTION.NAME.VARIABLE`, which overrides the others. `None` if there is no such
/// setting, or the last has no value.
pub fn last_value<'a>(
    settings: &[Setting<'a>],
    section: &[u8],
    name: &[u8],
    variable: &[u8],
) -> Option<&'a [u8]>
    ensures { option_map (λ value. value.now) result
        ≡ value_of_last (settings_with (joined_key section.now name.now variable.now) settings.now) }
{
    let mut last = None;
    for setting in settings {
        if is_joined(setting.key, section, name, variable) {
            last = setting.value;
        }
    }
    last
}

/// The settings `SECTION.NAME.VARIABLE`, in order. Fails if memory runs out.
pub fn settings_named<'a>(
    alloc: Global,
    settings: &[Setting<'a>],
    section: &[u8],
    name: &[u8],
    variable: &[u8],
) -> Result<Vec<Setting<'a>>, AllocError>
    ensures { IfOk result (λ found.
        found.items ≡ settings_with (joined_key section.now name.now variable.now) settings.now) }
{
    let mut found = Vec::new(alloc);
    for setting in settings {
        if is_joined(setting.key, section, name, variable) {
            found.push(*setting)?;
        }
    }
    Ok(found)
}

// Whether a key is SECTION.NAME.VARIABLE.
fn is_joined(key: &[u8], section: &[u8], name: &[u8], variable: &[u8]) -> bool
    ensures { result ≡ bytes_eq key.now (joined_key section.now name.now variable.now) }
{
    let Some(rest) = strip_part(key, section) else {
        return false;
    };
    match strip_part(rest, name) {
        None => false,
        Some(last) => last == variable,
    }
}

// The text behind a part and a dot, if it begins with these.
fn strip_part<'a>(text: &'a [u8], part: &[u8]) -> Option<&'a [u8]>
    ensures { MatchOption result
        ((rest : List ℕ) → text.now ≢ part.now ++ (46 ∷ rest))
        (λ rest. text.now ≡ part.now ++ (46 ∷ rest.now)) }
{
    let rest = text.strip_prefix(part)?;
    rest.strip_prefix(b".")
}
