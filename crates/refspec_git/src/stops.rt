//! The settings that Git stops at.

ghost use Rattle.std.specs.Prelude.{◌↔◌, IsTrue, MatchBool, MatchOption};
ghost use Rattle.std.specs.List.{All};
ghost use Rattle.refspec_request.specs.Booleans.{Means};
ghost use Rattle.refspec_request.specs.declared.booleans.Boolean.TheVariants as boolean;
ghost use Rattle.refspec_git.specs.Stops.{Fetches, IsReadAsBoolean, Passes, StopsAt, StopsFirst};

use refspec_io::settings::Setting;
use refspec_request::arguments::Subcommand;
use refspec_request::booleans::{
    Boolean, boolean_of, is_boolean_of_fetches, is_boolean_of_remotes,
};
use refspec_request::needed::needs_value;
use refspec_request::refusal::Refusal;

/// Why Git stops at one of these settings: the first that lacks a value, or isn't a boolean. Only commands that
/// fetch read those of a fetch.
pub fn bad_setting<'a>(command: Subcommand, settings: &[Setting<'a>]) -> Option<Refusal<'a>>
    ensures { MatchOption result (All (Passes command) settings.now) (StopsFirst command settings.now) }
{
    for setting in settings {
        if let Some(refusal) = refusal_of(command, setting) {
            return Some(refusal);
        }
    }
    None
}

// Why Git stops at a setting, if it does.
fn refusal_of<'a>(command: Subcommand, setting: &Setting<'a>) -> Option<Refusal<'a>>
    ensures { MatchOption result (Passes command setting.now) (StopsAt command setting.now) }
{
    let (origin, key) = (setting.origin, setting.key);
    match setting.value {
        None if needs_value(setting) => Some(Refusal::NoValue { origin, key }),
        Some(value) if is_boolean(command, setting) && is_bad(value) => {
            Some(Refusal::BadBoolean { origin, key, value })
        }
        _ => None,
    }
}

// Whether Git reads a setting as a boolean.
fn is_boolean(command: Subcommand, setting: &Setting<'_>) -> bool
    ensures { IsTrue result ↔ IsReadAsBoolean command setting.now }
{
    is_boolean_of_remotes(setting) || fetches(command) && is_boolean_of_fetches(setting)
}

// Whether a command reads the settings of a fetch.
fn fetches(command: Subcommand) -> bool
    ensures { IsTrue result ↔ Fetches command }
{
    match command {
        Subcommand::Track => false,
        Subcommand::Upstream => false,
        Subcommand::Check => true,
        Subcommand::Plan => true,
        Subcommand::Prefixes => true,
        Subcommand::Stale => true,
        Subcommand::Why => true,
    }
}

// Whether a value is no boolean.
fn is_bad(value: &[u8]) -> bool
    ensures { MatchBool result (Means value.now boolean.Bad) (¬ (Means value.now boolean.Bad)) }
{
    match boolean_of(Some(value)) {
        Boolean::Bad => true,
        Boolean::True | Boolean::False => false,
    }
}
