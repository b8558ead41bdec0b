//! Why a run ended early.

ghost use Rattle.std.specs.Prelude.{◌≡◌};
ghost use Rattle.refspec_io.specs.Fault.{status_of as fault_status};

use std::alloc::{AllocError, AllocFailed};
use std::{error, fmt};

/// Why a run ended early.
#[derive(Clone, Copy, Debug, PartialEq, Eq)]
pub enum Fault {
    /// The input could not be read to its end.
    Read,
    /// The results or the messages could not be written. A part of them may have been.
    Write,
    /// Memory ran out. Nothing was written.
    Memory,
    /// The input is not in the format in which Git prints settings. Nothing was written.
    Settings(NotSettings),
}

/// Why an input is not what `git config --show-origin -z` prints.
#[derive(Clone, Copy, Debug, PartialEq, Eq)]
pub enum NotSettings {
    /// It is a configuration file itself.
    ConfigurationFile,
    /// It has lines, as without `-z`.
    Lines,
    /// Its records begin with a scope, as with `--show-scope`.
    Scopes,
    /// Its records begin with a key, as without `--show-origin`.
    NoOrigins,
    /// Its records aren't pairs of an origin and a setting up to the end.
    Unpaired,
}

impl Fault {
    /// The exit status after this fault: 2 for an input in another format, else 3.
    pub fn status(self) -> u8
        ensures { result ≡ fault_status self }
    {
        match self {
            Fault::Settings(_) => 2,
            Fault::Read | Fault::Write | Fault::Memory => 3,
        }
    }
}

impl fmt::Display for Fault {
    fn fmt<W: fmt::Write>(&self, f: &mut fmt::Formatter<W>) -> fmt::Result {
        f.write_str(match self {
            Fault::Read => "the input could not be read to its end",
            Fault::Write => "the output could not be written",
            Fault::Memory => "out of memory",
            Fault::Settings(why) => why.explanation(),
        })
    }
}

impl error::Error for Fault {}

impl NotSettings {
    // What the input is, and the Git command that prints the right format.
    fn explanation(self) -> &'static str {
        match self {
            NotSettings::ConfigurationFile => {
                "this is a configuration file: give what Git prints of it, as in `git config --file FILE --show-origin -z --list`"
            }
            NotSettings::Lines => {
                "these settings are lines: add `-z`, as in `git config --show-origin -z --get-regexp '^remote\\.'`"
            }
            NotSettings::Scopes => {
                "these settings have scopes: leave out `--show-scope`, as in `git config --show-origin -z --get-regexp '^remote\\.'`"
            }
            NotSettings::NoOrigins => {
                "these settings have no origins: add `--show-origin`, as in `git config --show-origin -z --get-regexp '^remote\\.'`"
            }
            NotSettings::Unpaired => {
                "these settings are cut off, or mixed with other records: give all that `git config --show-origin -z --get-regexp '^remote\\.'` prints"
            }
        }
    }
}

impl From<AllocError> for Fault {
    ghost use Rattle.refspec_io.specs.Fault.{IsMemory};

    ghost from_gives = { λ _ fault. IsMemory fault };

    fn from(_: AllocError) -> Fault {
        Fault::Memory
    }
}

impl<T: Drop> From<AllocFailed<T>> for Fault {
    ghost use Rattle.refspec_io.specs.Fault.{IsMemory};

    ghost from_gives = { λ _ fault. IsMemory fault };

    fn from(_: AllocFailed<T>) -> Fault {
        Fault::Memory
    }
}
