//! The input, read whole, and split into records.

ghost use Rattle.std.specs.Prelude.{◌≡◌, IfOk, IfErr, map};
ghost use Rattle.refspec_io.specs.Fault.{IsReadOrMemory};
ghost use Rattle.refspec_io.specs.Input.{AreRecords, IsFirstRecord, end_byte, ReadsToEnd};

use crate::call::Terminator;
use crate::fault::Fault;
use bstr::ByteSlice;
use std::alloc::{AllocError, Global};
use std::io::{ErrorKind, Read};

/// Reads everything that the reader has left. An interrupted read is retried.
pub fn read_input<R: Read>(alloc: Global, reader: &mut R) -> Result<Vec<u8>, Fault>
    ensures ok { IfOk result (λ input.
        ReadsToEnd (R.remaining reader.old) (R.remaining reader.new) input.items) }
    ensures err { IfErr result IsReadOrMemory }
{
    let mut input = Vec::new(alloc);
    match reader.read_to_end(&mut input) {
        Ok(_) => Ok(input),
        Err(error) => Err(match error.kind() {
            ErrorKind::OutOfMemory => Fault::Memory,
            _ => Fault::Read,
        }),
    }
}

/// The records of an input, in order, without the `end` byte that ends each. The last one may lack it.
pub fn records(alloc: Global, input: &[u8], end: u8) -> Result<Vec<&[u8]>, AllocError>
    ensures { IfOk result (λ split. AreRecords end (map (λ r. r.now) split.items) input.now) }
{
    let mut records = Vec::new(alloc);
    let mut rest = input;
    while !rest.is_empty() {
        let (record, after) = first_record(rest, end);
        records.push(record)?;
        rest = after;
    }
    Ok(records)
}

/// The first record of a text, and the bytes after its `end` byte.
pub fn first_record(text: &[u8], end: u8) -> (&[u8], &[u8])
    ensures { IsFirstRecord end text.now result.0.now result.1.now }
{
    match text.find_byte(end) {
        None => (text, b""),
        Some(index) => {
            let (record, back) = text.split_at(index);
            (record, &back[1..])
        }
    }
}

/// The byte that ends a record.
pub fn end_of(ends: Terminator) -> u8
    ensures { result ≡ end_byte ends }
{
    match ends {
        Terminator::Newline => b'\n',
        Terminator::Zero | Terminator::Settings => 0,
    }
}
