//! What a call writes.

ghost use Rattle.std.specs.Prelude.{◌≡◌, [], max};
ghost use Rattle.refspec_request.specs.Refusals.{refusal_status};

use crate::refusal::Refusal;
use std::alloc::{AllocError, Global};

/// What a call writes, and its exit status.
#[derive(Debug, Drop)]
pub struct Output {
    /// What goes to the standard output.
    pub results: Vec<u8>,
    /// What goes to the standard error.
    pub messages: Vec<u8>,
    pub status: u8,
}

impl Output {
    /// An empty output, with exit status 0.
    pub fn new(alloc: Global) -> Output
        ensures results { result.results.items ≡ [] }
        ensures messages { result.messages.items ≡ [] }
        ensures status { result.status ≡ 0 }
    {
        Output {
            results: Vec::new(alloc),
            messages: Vec::new(alloc),
            status: 0,
        }
    }

    /// Adds the message of a refusal, and raises the exit status to that of the refusal. Fails if memory runs out.
    pub fn refuse(&mut self, refusal: &Refusal<'_>) -> Result<(), AllocError>
        // Also if memory runs out.
        ensures status { self.new.status ≡ max self.old.status (refusal_status refusal.now) }
        ensures results { self.new.results ≡ self.old.results }
    {
        self.status = self.status.max(refusal.status());
        refusal.write(&mut self.messages)
    }
}
