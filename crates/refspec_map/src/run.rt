//! A command, from its reader to its writer.

ghost use Rattle.std.specs.Prelude.{◌⊎◌, IfOk, IfErr, OnOk};
ghost use Rattle.std.specs.Io.KnownBytes.{Appends};
ghost use Rattle.refspec_map.specs.Fault.{IsMemory, IsWrite};
ghost use Rattle.refspec_map.specs.Run.{Answers, Explains, IsBad, IsGood, IsOutput, Leaves, PlanOnce, SpecIsRefused};

use crate::canon::canon;
use crate::command::Command;
use crate::fault::Fault;
use crate::input::read_input;
use crate::matching::{lhs_lines, planned, rhs_lines};
use gix_refspec::{Operation, laws};
use std::alloc::Global;
use std::io::{Read, Write};

/// Reads the input to its end, and writes the output of the command for it, with one `write_all` and
/// one `flush`. Returns the exit status: 1 if a canon command refuses some line or a plan has conflicts,
/// otherwise 0.
///
/// - `Fault::TooLong` as soon as more than 1,048,576 bytes were read.
/// - `Fault::Read` at the first read that fails. An interrupted read isn't retried.
/// - In a matching command, `Fault::Line` for a malformed line and `Fault::Spec` for a refused spec,
///   whichever is first. The whole input was read.
/// - `Fault::Memory` if memory runs out.
/// - `Fault::Write` if the writer fails. It may then have taken a part of the output.
///
/// After any fault but `Write` nothing was written; what was read is gone from the reader. Time
/// and memory of a canon command are linear in the length of the input. Those of a matching command are
/// in docs/SPEED.md, under "Orders of growth".
pub fn run<R: Read, W: Write>(
    alloc: Global,
    command: Command,
    reader: &mut R,
    writer: &mut W,
) -> Result<u8, Fault>
    ensures ok { IfOk result (Answers command
        (R.remaining reader.old) (R.remaining reader.new) (W.contents writer.old)
        (W.contents writer.new)) }
    ensures good { IfOk result (λ _.
        IsGood command (R.remaining reader.old) (R.remaining reader.new)) }
    ensures err { IfErr result (Explains command
        (R.remaining reader.old) (R.remaining reader.new)) }

    // Nothing was written before a fault, unless the writer failed.
    ensures unwritten { IfErr result (Leaves (W.contents writer.old) (W.contents writer.new)) }
{
    let input = read_input(alloc, reader)?;
    let (output, refusal) = output_of(alloc, command, input.as_slice())?;
    write_output(writer, output.as_slice())?;
    Ok(u8::from(refusal))
}

/// A law on what [`run`] wrote: a plan with exit status 0 writes no destination from two sources, and no
/// duplicate line.
pub fn plan_once()
    ensures { PlanOnce }
{
    laws::plans_apart();
    laws::no_control_character();
}

/// A law on the faults of [`run`]: the error in `Fault::Spec` is the first reason that applies to some text,
/// and never `Error::Memory`.
pub fn spec_is_refused()
    ensures { SpecIsRefused }
{}

// The output of a command for an input, and whether some line is refused or a plan has conflicts.
fn output_of(alloc: Global, command: Command, input: &[u8]) -> Result<(Vec<u8>, bool), Fault>
    ensures ok { IfOk result (λ made. IsOutput command input.now made.0.items made.1) }
    ensures err { IfErr result (λ f. IsMemory f ⊎ IsBad command input.now f) }
{
    match command {
        Command::CanonFetch => canon(alloc, Operation::Fetch, input),
        Command::CanonPush => canon(alloc, Operation::Push, input),
        Command::Lhs => lhs_lines(alloc, input),
        Command::Rhs => rhs_lines(alloc, input),
        Command::Plan => planned(alloc, input),
    }
}

// Writes the output in one call, and flushes the writer.
fn write_output<W: Write>(writer: &mut W, output: &[u8]) -> Result<(), Fault>
    ensures ok { OnOk result (Appends (W.contents writer.old) (W.contents writer.new) output.now) }
    ensures err { IfErr result IsWrite }
{
    if writer.write_all(output).is_err() || writer.flush().is_err() {
        return Err(Fault::Write);
    }
    Ok(())
}
