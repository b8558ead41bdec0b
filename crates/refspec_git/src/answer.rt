//! The result of a call, or why it stops early.

ghost use Rattle.std.specs.Prelude.{◌≡◌, IfOk, map, option_map};
ghost use Rattle.std.specs.String.{string_bytes};
ghost use Rattle.refspec_io.specs.declared.fault.Fault.TheVariants as fault;
ghost use Rattle.refspec_git.specs.Answers.{IsReport, Requests};
ghost use Rattle.refspec_git.specs.World.{World};
ghost use Rattle.refspec_git.specs.declared.answer.Stop.TheVariants as stop;

use refspec_io::fault::Fault;
use refspec_io::report::Report;
use refspec_request::ask::GitCall;
use refspec_request::output::Output;
use refspec_request::refusal::Refusal;
use std::alloc::{AllocError, AllocFailed, Global};

/// The files of a call, and its terminal.
pub trait Machine {
    /// What its methods may return.
    ghost world: { Self → World };

    /// The arguments of the call, or the output of a Git command. `None` before the command ran.
    fn output(&self, file: &str) -> Result<Option<Vec<u8>>, Fault>
        ensures { IfOk result (λ output. (world self.now).printed file.now (option_map (λ o. o.items) output)) };

    /// The names of the files of a folder, sorted. Empty if there is no such folder.
    fn names(&self, folder: &str) -> Result<Vec<String>, Fault>
        ensures { IfOk result (λ names. (world self.now).listed folder.now (map string_bytes names.items)) };

    /// Whether a file or folder has this path.
    fn has(&self, path: &str) -> bool
        ensures { (world self.now).found path.now result };

    /// Whether messages go to a terminal.
    fn is_watched(&self) -> bool
        ensures { (world self.now).watched result };
}

/// The result of a call.
#[derive(Debug, Drop)]
pub enum Answer {
    /// It needs the outputs of these commands first, as `GitCall::write` writes them.
    Asks(Vec<u8>),
    /// It ends with this output and exit status.
    Reports(Output),
}

/// An answer that ends with a report and this exit status.
pub fn reports(report: Report, status: u8) -> Answer
    ensures { IsReport report status result }
{
    Answer::Reports(Output {
        results: report.results,
        messages: report.messages,
        status,
    })
}

/// Why a call stops early.
#[derive(Debug)]
pub enum Stop<'a> {
    /// Arguments or settings are refused.
    Refused(Refusal<'a>),
    /// A file fails, or memory runs out.
    Failed(Fault),
}

impl<'a> From<Refusal<'a>> for Stop<'a> {
    ghost from_gives = { λ refusal s. s ≡ stop.Refused refusal };

    fn from(refusal: Refusal<'a>) -> Stop<'a> {
        Stop::Refused(refusal)
    }
}

impl<'a> From<Fault> for Stop<'a> {
    ghost from_gives = { λ fault s. s ≡ stop.Failed fault };

    fn from(fault: Fault) -> Stop<'a> {
        Stop::Failed(fault)
    }
}

impl<'a> From<AllocError> for Stop<'a> {
    ghost from_gives = { λ _ s. s ≡ stop.Failed fault.Memory };

    fn from(_: AllocError) -> Stop<'a> {
        Stop::Failed(Fault::Memory)
    }
}

impl<'a, T: Drop> From<AllocFailed<T>> for Stop<'a> {
    ghost from_gives = { λ _ s. s ≡ stop.Failed fault.Memory };

    fn from(_: AllocFailed<T>) -> Stop<'a> {
        Stop::Failed(Fault::Memory)
    }
}

/// An answer that asks for commands. Fails if memory runs out.
pub fn asks(alloc: Global, calls: &[GitCall<'_>]) -> Result<Answer, Fault>
    ensures { IfOk result (Requests calls.now) }
{
    let mut lines = Vec::new(alloc);
    for call in calls {
        call.write(alloc, &mut lines)?;
    }
    Ok(Answer::Asks(lines))
}
