//! What a spec prints, whether values are equal and hash alike, and a writer with little room.

mod errors;
mod locating;
mod name;
mod oid;
mod order;
mod parsing;
mod prefixes;
mod printing;
mod spec;
mod writing;

use gix_refspec_text::RefSpecRef;
use std::alloc::{AllocError, Global};
use std::fmt::Debug;
use std::hash::{DefaultHasher, Hash, Hasher};
use std::io;
use std::io::Write;
use std::process::Abort;

// What a spec prints.
fn canonical(alloc: Global, spec: RefSpecRef<'_>) -> Result<String, AllocError> {
    let printed = spec.to_bstring(alloc)?;
    format!(in alloc; "{printed}")
}

// What a value hashes to.
fn hash_of<T: Hash>(value: &T) -> u64 {
    let mut state = DefaultHasher::new();
    value.hash(&mut state);
    state.finish()
}

// Whether two values are equal, and hash alike, or neither.
fn check_equal<T: Hash + Debug>(rt: &impl Abort, a: &T, b: &T, wanted: bool) {
    let alike = (*a == *b, hash_of(a) == hash_of(b));
    assert_eq!(rt; alike, (wanted, wanted), "at {a:?} and {b:?}");
}

// Takes one byte a call, and refuses the next where its room is used up.
#[derive(Drop)]
struct TightWriter {
    room: usize,
}

impl Write for TightWriter {
    fn write(&mut self, buf: &[u8]) -> io::Result<usize> {
        if buf.is_empty() {
            return Ok(0);
        }
        let Some(room) = self.room.checked_sub(1) else {
            return Err(io::ErrorKind::PermissionDenied.into());
        };
        self.room = room;
        Ok(1)
    }

    fn flush(&mut self) -> io::Result<()> {
        Ok(())
    }
}
