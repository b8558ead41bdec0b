//! The canonical text of each line, or the reason why it is refused.

ghost use Rattle.std.specs.Prelude.{IfOk, IfErr};
ghost use Rattle.refspec_map.specs.Fault.{IsMemory};
ghost use Rattle.refspec_map.specs.Output.{IsAnsweredBy, IsCanon};

use crate::fault::Fault;
use crate::input::first_line;
use crate::output::Answer;
use bstr::BStr;
use gix_refspec::parse;
use gix_refspec::parsing::{Error, Operation};
use std::alloc::Global;

/// The answers to the lines of an input, and whether some line is refused.
pub(crate) fn canon(
    alloc: Global,
    operation: Operation,
    input: &[u8],
) -> Result<(Vec<u8>, bool), Fault>
    ensures ok { IfOk result (λ made. IsCanon operation input.now made.0.items made.1) }
    ensures err { IfErr result IsMemory }
{
    let mut output = Vec::new(alloc);
    let mut refusal = false;
    let mut rest = input;
    while !rest.is_empty() {
        let (line, after) = first_line(rest);
        let answer = answer_to(alloc, operation, line)?;
        answer.append(&mut output)?;
        refusal |= answer.is_refused();
        rest = after;
    }
    Ok((output, refusal))
}

// Parses a line for the operation. A refusal is an answer; only running out of memory is an error.
fn answer_to(alloc: Global, operation: Operation, line: &[u8]) -> Result<Answer<'_>, Fault>
    ensures ok { IfOk result (IsAnsweredBy operation line.now) }
    ensures err { IfErr result IsMemory }
{
    match parse(alloc, BStr::new(line), operation) {
        Ok(spec) => Ok(Answer::Accepted(spec)),
        Err(error) => {
            if matches!(error, Error::Memory) {
                return Err(Fault::Memory);
            }
            Ok(Answer::Refused(error.reason()))
        }
    }
}
