//! Why a run ended early.

ghost use Rattle.std.specs.Prelude.{◌≡◌};
ghost use Rattle.gix_refspec.specs.Specs.Refusal.{Refusal};
ghost use Rattle.gix_refspec.specs.Views.Instruction.{IsShownAs};
ghost use Rattle.refspec_map.specs.Fault.{name_of, status_of};

use gix_refspec::match_group::NoRoom;
use gix_refspec::parsing::Error;
use std::{error, fmt};

/// Why a run ended early. Nothing was written, unless the writer failed.
#[derive(Debug, Drop)]
pub enum Fault {
    /// The input has more than 1,048,576 bytes.
    TooLong,
    /// The input could not be read to its end.
    Read,
    /// The line with this number, counted from 1, is malformed. Canon commands answer every line, and
    /// never return it.
    Line(usize),
    /// The spec in the line with this number, counted from 1, is refused. Canon commands write the
    /// refusal as the answer to the line, and never return it.
    Spec { line: usize, error: Error },
    /// Memory ran out, for the input, a spec, the mappings or the output.
    Memory,
    /// The output could not be written or flushed. A part of it may have been written.
    Write,
}

impl Fault {
    /// The exit status: 1 if a line is at fault, otherwise 3.
    pub fn status(&self) -> u8
        ensures { result ≡ status_of self.now }
    {
        match self {
            Fault::Line(_) | Fault::Spec { .. } => 1,
            Fault::TooLong | Fault::Read | Fault::Memory | Fault::Write => 3,
        }
    }
}

impl fmt::Display for Fault {
    fn fmt<W: fmt::Write>(&self, f: &mut fmt::Formatter<W>) -> fmt::Result {
        match self {
            Fault::TooLong => write!(f, "input too long"),
            Fault::Read => write!(f, "read failed"),
            Fault::Line(number) => write!(f, "line {number} is malformed"),
            Fault::Spec { line, error } => {
                let name = error.reason();
                write!(f, "line {line}: {name}")
            }
            Fault::Memory => write!(f, "out of memory"),
            Fault::Write => write!(f, "write failed"),
        }
    }
}

impl error::Error for Fault {}

impl<'a> From<NoRoom<'a>> for Fault {
    ghost use Rattle.refspec_map.specs.Fault.{IsMemory};

    ghost from_gives = { λ _ fault. IsMemory fault };

    fn from(_: NoRoom<'a>) -> Fault {
        Fault::Memory
    }
}
