//! The streams that a run writes to.

use std::io::{ErrorKind, Result, Write};

/// The exit status that a shell reports for a program that wrote to a closed pipe: 128 and the number of SIGPIPE.
pub const CLOSED_STATUS: u8 = 141;

/// A stream that remembers whether its reader has closed it.
#[derive(Drop)]
pub struct Stream<W: Write + Drop> {
    writer: W,
    is_closed: bool,
}

impl<W: Write + Drop> Stream<W> {
    /// A stream over a writer.
    pub fn new(writer: W) -> Stream<W> {
        Stream {
            writer,
            is_closed: false,
        }
    }

    /// Whether a write found that the reader has closed the stream.
    pub fn is_closed(&self) -> bool {
        self.is_closed
    }
}

impl<W: Write + Drop> Write for Stream<W> {
    fn write(&mut self, buf: &[u8]) -> Result<usize> {
        let written = self.writer.write(buf);
        if let Err(error) = &written {
            self.is_closed |= error.kind() == ErrorKind::BrokenPipe;
        }
        written
    }

    fn flush(&mut self) -> Result<()> {
        self.writer.flush()
    }
}
