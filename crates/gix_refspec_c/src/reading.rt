//! Texts that are read for an operation.

ghost use Rattle.std.specs.Prelude.{◌≡◌, ◌++◌, ◌∷◌, [], map, IfOk, IfErr, OnOk, MatchOption};
ghost use Rattle.std.specs.List.{AllZip};
ghost use Rattle.gix_refspec.specs.Specs.Grammar.{Reads};
ghost use Rattle.gix_refspec.specs.Views.Spec.{reading_of};
ghost use Rattle.gix_refspec.specs.Views.Group.{readings_of};
ghost use Rattle.gix_refspec_c.specs.Group.{AreUnread, bytes_of};
ghost use Rattle.gix_refspec_c.specs.Reading.{IsUnread, code_of};

use crate::explanation::Text;
use crate::failure::{Failure, failure_of};
use bstr::BStr;
use gix_refspec::parsing::Operation;
use gix_refspec::{MatchGroup, RefSpecRef, parse};
use std::alloc::Global;

/// The operation with this number in C.
pub(crate) fn operation_of(number: u32) -> Option<Operation>
    ensures { MatchOption result
        ((op : Operation) → ¬ (number ≡ code_of op)) (λ op. number ≡ code_of op) }
{
    match number {
        1 => Some(Operation::Fetch),
        2 => Some(Operation::Push),
        _ => None,
    }
}

/// Reads a text for an operation.
pub(crate) fn read<'a>(
    alloc: Global,
    text: &'a [u8],
    operation: Operation,
) -> Result<RefSpecRef<'a>, Failure>
    ensures ok { IfOk result (λ spec. Reads operation text.now (reading_of spec)) }
    ensures err { IfErr result (IsUnread operation text.now) }
{
    match parse(alloc, BStr::new(text), operation) {
        Ok(spec) => Ok(spec),
        Err(error) => Err(failure_of(&error)),
    }
}

/// Reads texts for an operation, in order. Fails at the first text that is refused, or if memory runs
/// out.
pub(crate) fn read_all<'a>(
    alloc: Global,
    texts: &[Text<'a>],
    operation: Operation,
) -> Result<MatchGroup<'a>, Failure>
    ensures ok { IfOk result (λ group.
        AllZip (Reads operation) (map bytes_of texts.now) (readings_of group)) }
    ensures err { IfErr result (AreUnread operation (map bytes_of texts.now)) }
{
    let mut group = MatchGroup::new(alloc);
    for text in texts {
        let spec = match read(alloc, text.bytes, operation) {
            Ok(spec) => spec,
            Err(failure) => return Err(failure),
        };
        add(&mut group, spec)?;
    }
    Ok(group)
}

/// Adds a spec at the end of a group.
pub(crate) fn add<'a>(group: &mut MatchGroup<'a>, spec: RefSpecRef<'a>) -> Result<(), Failure>
    ensures ok { OnOk result (group.new.specs.items ≡ group.old.specs.items ++ spec.entry ∷ []) }
    ensures err { IfErr result (λ f. f ≡ Failure.NoMemory) }
{
    match group.specs.push(spec) {
        Ok(()) => Ok(()),
        Err(_) => Err(Failure::NoMemory),
    }
}
