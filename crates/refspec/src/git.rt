//! The program's side of `git refspec`: the files of its folder, and what it writes.

use crate::files::fault_of;
use crate::streams::{CLOSED_STATUS, Stream};
use refspec_git::answer::{Answer, Machine};
use refspec_git::call::answer_call;
use refspec_io::fault::Fault;
use refspec_io::input::read_input;
use refspec_request::output::Output;
use std::alloc::AllocError;
use std::fs::{self, File};
use std::io::{ErrorKind, IsTerminal, Write};

// The file for the commands to run.
const ASKED: &str = "asked";

// A folder with the arguments of a call, and with the outputs of Git commands.
#[derive(Drop)]
struct Folder<'a> {
    rt: &'a HostRuntime,
    path: &'a str,
}

impl Machine for Folder<'_> {
    ghost use Rattle.refspec_git.specs.World.{anything};

    ghost world = { λ _. anything };

    fn output(&self, file: &str) -> Result<Option<Vec<u8>>, Fault> {
        let path = self.path;
        let path = format!(in self.rt.alloc(); "{path}/{file}")?;
        match File::open(self.rt, path.as_str()) {
            Ok(mut file) => Ok(Some(read_input(self.rt.alloc(), &mut file)?)),
            Err(error) if error.kind() == ErrorKind::NotFound => Ok(None),
            Err(error) => Err(fault_of(&error, Fault::Read)),
        }
    }

    fn names(&self, folder: &str) -> Result<Vec<String>, Fault> {
        let mut names = Vec::new(self.rt.alloc());
        let entries = match fs::read_dir(self.rt, folder) {
            Ok(entries) => entries,
            Err(error) if error.kind() == ErrorKind::OutOfMemory => return Err(Fault::Memory),
            Err(_) => return Ok(names),
        };
        for entry in entries {
            let entry = match entry {
                Ok(entry) => entry,
                Err(error) => return Err(fault_of(&error, Fault::Read)),
            };
            names.push(String::from_str(self.rt.alloc(), entry.file_name())?)?;
        }
        names.sort()?;
        Ok(names)
    }

    fn has(&self, path: &str) -> bool {
        fs::exists(self.rt, path).unwrap_or(false)
    }

    fn is_watched(&self) -> bool {
        self.rt.stderr().is_terminal()
    }
}

/// Answers the call of `git refspec` whose arguments are in a folder, and returns the exit status; or writes there
/// which Git commands must run first, and returns 0.
pub fn run_git(rt: &HostRuntime, path: &str) -> u8 {
    let folder = Folder { rt, path };
    match answer_call(rt.alloc(), &folder) {
        Ok(Answer::Asks(lines)) => ask(rt, path, lines.as_slice()),
        Ok(Answer::Reports(reported)) => report(rt, &reported),
        Err(fault) => fail(rt, fault),
    }
}

// Writes the commands to run.
fn ask(rt: &HostRuntime, path: &str, lines: &[u8]) -> u8 {
    let Ok(path) = format!(in rt.alloc(); "{path}/{ASKED}") else {
        return fail(rt, Fault::Memory);
    };
    match fs::write(rt, path.as_str(), lines) {
        Ok(()) => 0,
        Err(error) => fail(rt, fault_of(&error, Fault::Write)),
    }
}

// Writes a report, and returns its exit status.
fn report(rt: &HostRuntime, reported: &Output) -> u8 {
    let mut output = Stream::new(rt.stdout());
    let mut errors = Stream::new(rt.stderr());
    if output.write_all(reported.results.as_slice()).is_ok()
        && errors.write_all(reported.messages.as_slice()).is_ok()
    {
        return reported.status;
    }
    if output.is_closed() || errors.is_closed() {
        return CLOSED_STATUS;
    }
    fail(rt, Fault::Write)
}

// Reports a fault, and returns its exit status.
fn fail(rt: &HostRuntime, fault: Fault) -> u8 {
    let _ = eprintln!(rt; "git refspec: {fault}");
    fault.status()
}
