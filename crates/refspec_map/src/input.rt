//! The input, read whole, and split into lines.

ghost use Rattle.std.specs.Prelude.{◌<◌, IfOk, IfErr, length};
ghost use Rattle.refspec_map.specs.Fault.{IsReadOrMemory};
ghost use Rattle.refspec_map.specs.Input.{IsReadFault, ReadsToEnd, ReadsSome, IsFirstLine};

use crate::fault::Fault;
use bstr::ByteSlice;
use std::alloc::Global;
use std::io::Read;

/// The maximum length of an input, in bytes.
pub const INPUT_LIMIT: usize = 1_048_576;

/// The length of the buffer for one read, in bytes.
const CHUNK: usize = 65_536;

/// Reads the rest of the reader, in chunks, until a read returns 0 or the limit is exceeded.
pub(crate) fn read_input<R: Read>(alloc: Global, reader: &mut R) -> Result<Vec<u8>, Fault>
    ensures ok { IfOk result (λ input.
        ReadsToEnd (R.remaining reader.old) (R.remaining reader.new) input.items) }
    ensures err { IfErr result (IsReadFault (R.remaining reader.old) (R.remaining reader.new)) }
{
    let Ok(mut buffer) = vec![in alloc; 0; CHUNK] else {
        return Err(Fault::Memory);
    };
    // There is room for the longest input and one more chunk, so that the input is never reallocated.
    let Ok(mut input) = Vec::with_capacity(alloc, INPUT_LIMIT + CHUNK) else {
        return Err(Fault::Memory);
    };
    while read_some(reader, buffer.as_mut_slice(), &mut input)? {
        if input.len() > INPUT_LIMIT {
            return Err(Fault::TooLong);
        }
    }
    Ok(input)
}

// Reads once, and appends the bytes to the input. Returns false at the end of the reader.
fn read_some<R: Read>(reader: &mut R, buffer: &mut [u8], input: &mut Vec<u8>) -> Result<bool, Fault>
    requires { 0 < length buffer.old }
    ensures ok { IfOk result (λ more. ReadsSome more
        (R.remaining reader.old) (R.remaining reader.new) input.old.items input.new.items) }
    ensures err { IfErr result IsReadOrMemory }
{
    let Ok(count) = reader.read(buffer) else {
        return Err(Fault::Read);
    };
    match input.extend_from_slice(&buffer[..count]) {
        Ok(()) => Ok(count > 0),
        Err(_) => Err(Fault::Memory),
    }
}

/// The first line of a text, without its newline, and the text after that.
pub(crate) fn first_line(text: &[u8]) -> (&[u8], &[u8])
    ensures { IsFirstLine text.now result.0.now result.1.now }
{
    match text.find_byte(b'\n') {
        None => (text, b""),
        Some(end) => {
            let (line, back) = text.split_at(end);
            (line, &back[1..])
        }
    }
}
