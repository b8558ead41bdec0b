//! Specs of the arguments and of settings, as texts with their locations.

ghost use Rattle.std.specs.Prelude.{◌≡◌, MatchResult};
ghost use Rattle.std.specs.Str.{IsUtf8};
ghost use Rattle.refspec_io.specs.Texts.{argument_at, at_setting, given_of, spot_of};
ghost use Rattle.refspec_request.specs.declared.refusal.Refusal.TheVariants as refusal;
ghost use Rattle.refspec_git.specs.Texts.{value_at};

use gix_refspec::parsing::Operation;
use refspec_io::settings::Setting;
use refspec_io::texts::{Location, Text};
use refspec_request::refusal::Refusal;

/// An argument as UTF-8. Refuses one that isn't.
pub fn utf8(argument: &[u8]) -> Result<&str, Refusal<'_>>
    ensures { MatchResult result (λ text. text.now ≡ argument.entry.now)
        (λ e. (e ≡ refusal.NotUtf8 argument.entry) × ¬ (IsUtf8 argument.entry.now)) }
{
    match str::from_utf8(argument) {
        Ok(text) => Ok(text),
        Err(_) => Err(Refusal::NotUtf8(argument)),
    }
}

/// A spec as the argument with this number.
pub fn argument(number: usize, operation: Operation, spec: &[u8]) -> Text<'_>
    ensures { given_of result ≡ argument_at operation number spec.now }
{
    Text {
        location: Location::Argument(number),
        operation,
        bytes: spec,
    }
}

/// A spec as the value of a setting.
pub fn value<'a>(setting: &Setting<'a>, operation: Operation, spec: &'a [u8]) -> Text<'a>
    ensures { given_of result ≡ value_at setting.now operation spec.now }
{
    Text {
        location: location_of(setting),
        operation,
        bytes: spec,
    }
}

/// Where a setting was set.
pub fn location_of<'a>(setting: &Setting<'a>) -> Location<'a>
    ensures { spot_of result ≡ at_setting setting.now.origin.now setting.now.key.now }
{
    Location::Setting {
        origin: setting.origin,
        key: setting.key,
    }
}
