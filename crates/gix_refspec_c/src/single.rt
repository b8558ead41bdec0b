//! Calls on one text, and on two.

ghost use Rattle.std.specs.Prelude.{◌≡◌, ℕ, List, OnOk, IfErr};
ghost use Rattle.std.specs.Ordering.{nat_cmp};
ghost use Rattle.std.specs.Cmp.Lexicographic.{slice_cmp};
ghost use Rattle.gix_refspec.specs.Specs.Order.{keys};
ghost use Rattle.gix_refspec_c.specs.Buffer.{IsWrittenTo, WritesNothing};
ghost use Rattle.gix_refspec_c.specs.Outcome.{Answers};
ghost use Rattle.gix_refspec_c.specs.Reading.{IsRefspec, IsUnread, code_of};
ghost use Rattle.gix_refspec_c.specs.Single.{AreCompared, AreUncompared, IsCanonical, HasParts, IsUnprinted, sign, parts_in};

use crate::failure::{Failure, outcome_of};
use crate::parts::{Parts, parts_of};
use crate::reading::{operation_of, read};
use crate::write::write;
use gix_refspec::laws;
use gix_refspec::parsing::Operation;
use std::alloc::Global;
use std::cmp::Ordering;

/// Whether a text is a refspec, or why not.
#[unsafe(no_mangle)]
pub extern "C" fn gix_refspec_check(alloc: Global, text: &[u8], operation: u32) -> u32
    ensures { Answers code_of operation
        (λ op. IsRefspec op text.now) (λ op. IsUnread op text.now) (Unit {0}) result }
{
    match operation_of(operation) {
        Some(operation) => outcome_of(check(alloc, text, operation)),
        None => Failure::NoOperation.number(),
    }
}

/// The instruction of a refspec, and its sides. After a failure `parts` is unchanged.
#[unsafe(no_mangle)]
pub extern "C" fn gix_refspec_parts<'a>(
    alloc: Global,
    text: &'a [u8],
    operation: u32,
    parts: &mut Parts<'a>,
) -> u32
    ensures { Answers code_of operation
        (λ op. HasParts op text.now (parts_in parts.new))
        (λ op f. IsUnread op text.now f × (parts.new ≡ parts.old))
        (parts.new ≡ parts.old) result }
{
    match operation_of(operation) {
        Some(operation) => outcome_of(take_apart(alloc, text, operation, parts)),
        None => Failure::NoOperation.number(),
    }
}

/// The canonical text of a refspec. Sets `len` to the required size even if `buffer` is too small, and
/// leaves `buffer` unchanged then; after any other failure nothing has changed.
#[unsafe(no_mangle)]
pub extern "C" fn gix_refspec_canonical(
    alloc: Global,
    text: &[u8],
    operation: u32,
    buffer: &mut [u8],
    len: &mut usize,
) -> u32
    ensures { Answers code_of operation
        (λ op. (answer : List ℕ) × IsCanonical op text.now answer ×
        IsWrittenTo answer buffer.old buffer.new len.new)
        (λ op. WritesNothing (IsCanonical op text.now) (IsUnprinted op text.now)
        buffer.old buffer.new len.old len.new)
        ((buffer.new ≡ buffer.old) × (len.new ≡ len.old)) result }
{
    match operation_of(operation) {
        Some(operation) => outcome_of(print(alloc, text, operation, buffer, len)),
        None => Failure::NoOperation.number(),
    }
}

/// How two refspecs compare: -1, 0 or 1. It is 0 exactly if their canonical texts are equal. If both
/// texts are refused, the failure is that of the first. After a failure `order` is unchanged.
#[unsafe(no_mangle)]
pub extern "C" fn gix_refspec_compare(
    alloc: Global,
    a: &[u8],
    b: &[u8],
    operation: u32,
    order: &mut i32,
) -> u32
    ensures { Answers code_of operation
        (λ op. AreCompared op a.now b.now order.new)
        (λ op f. AreUncompared op a.now b.now f × (order.new ≡ order.old))
        (order.new ≡ order.old) result }
{
    match operation_of(operation) {
        Some(operation) => outcome_of(compare(alloc, a, b, operation, order)),
        None => Failure::NoOperation.number(),
    }
}

// Whether a text is a refspec for the operation.
fn check(alloc: Global, text: &[u8], operation: Operation) -> Result<(), Failure>
    ensures ok { OnOk result (IsRefspec operation text.now) }
    ensures err { IfErr result (IsUnread operation text.now) }
{
    read(alloc, text, operation)?;
    Ok(())
}

// Sets the parts to those of a refspec for the operation.
fn take_apart<'a>(
    alloc: Global,
    text: &'a [u8],
    operation: Operation,
    parts: &mut Parts<'a>,
) -> Result<(), Failure>
    ensures ok { OnOk result (HasParts operation text.now (parts_in parts.new)) }
    ensures err { IfErr result (λ f. IsUnread operation text.now f × (parts.new ≡ parts.old)) }
{
    let spec = read(alloc, text, operation)?;
    *parts = parts_of(spec.instruction());
    Ok(())
}

// Writes the canonical text of a refspec for the operation to a buffer.
fn print(
    alloc: Global,
    text: &[u8],
    operation: Operation,
    buffer: &mut [u8],
    len: &mut usize,
) -> Result<(), Failure>
    ensures ok { OnOk result ((answer : List ℕ) × IsCanonical operation text.now answer ×
        IsWrittenTo answer buffer.old buffer.new len.new) }
    ensures err { IfErr result (WritesNothing
        (IsCanonical operation text.now) (IsUnprinted operation text.now)
        buffer.old buffer.new len.old len.new) }
{
    let spec = read(alloc, text, operation)?;
    let Ok(canonical) = spec.to_bstring(alloc) else {
        return Err(Failure::NoMemory);
    };
    write(canonical.as_bytes(), buffer, len)
}

// Sets the order to that of two refspecs for the operation.
fn compare(
    alloc: Global,
    a: &[u8],
    b: &[u8],
    operation: Operation,
    order: &mut i32,
) -> Result<(), Failure>
    ensures ok { OnOk result (AreCompared operation a.now b.now order.new) }
    ensures err { IfErr result (λ f.
        AreUncompared operation a.now b.now f × (order.new ≡ order.old)) }
{
    let first = read(alloc, a, operation)?;
    let second = match read(alloc, b, operation) {
        Ok(second) => second,
        Err(failure) => return Err(failure),
    };
    laws::equal_texts(operation, a, b);
    laws::equal_specs(&first, &second);
    *order = sign_of(first.cmp(&second));
    Ok(())
}

// -1, 0 or 1.
fn sign_of(order: Ordering) -> i32
    ensures { result ≡ sign order }
{
    match order {
        Ordering::Less => -1,
        Ordering::Equal => 0,
        Ordering::Greater => 1,
    }
}
