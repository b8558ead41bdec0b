//! The files that a run reads and writes.

use refspec_io::fault::Fault;
use std::fs::File;
use std::io::{Error, ErrorKind};

/// Opens a file for reading. Fails with `Fault::Memory` if memory runs out, else with `Fault::Read`.
pub fn open(rt: &HostRuntime, name: &str) -> Result<File, Fault> {
    match File::open(rt, name) {
        Ok(file) => Ok(file),
        Err(error) => Err(fault_of(&error, Fault::Read)),
    }
}

/// The fault after an error: `Fault::Memory` if memory ran out, else the other one.
pub fn fault_of(error: &Error, other: Fault) -> Fault {
    match error.kind() {
        ErrorKind::OutOfMemory => Fault::Memory,
        _ => other,
    }
}
