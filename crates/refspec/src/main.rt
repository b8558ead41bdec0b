//! Reports whether refspecs are valid, what they mean, and what a fetch with them writes.
#![tactic(auto)]

mod arguments;
mod files;
mod git;
mod streams;

use crate::arguments::{
    call_of, command_line, has_refs, invalid_merge, is_remote_name, names_no_file, names_two_inputs,
};
use crate::files::{fault_of, open};
use crate::git::run_git;
use crate::streams::{CLOSED_STATUS, Stream};
use refspec_commands::run::run;
use refspec_io::call::{Call, Command, Files, Job};
use refspec_io::fault::Fault;
use refspec_io::input::read_input;
use std::io::{IsTerminal, Write};
use std::process::ExitCode;
use std::{env, io};

// The exit status of a usage error.
const USAGE_STATUS: u8 = 2;

fn main(rt: HostRuntime) -> ExitCode {
    ExitCode::from(match arguments_of(&rt) {
        Ok(arguments) => run_arguments(&rt, arguments.as_slice()),
        Err(error) if error.kind() == io::ErrorKind::InvalidData => {
            let _ = eprintln!(rt;
                "refspec: an argument is not UTF-8; specs that aren't can be given by the standard input"
            );
            USAGE_STATUS
        }
        Err(_) => fail(&rt, Fault::Memory),
    })
}

// The arguments of the call, behind the name of the program.
fn arguments_of<R: env::Env + AllocGlobal>(rt: &R) -> io::Result<Vec<String>> {
    let mut arguments = Vec::new(rt.alloc());
    for argument in env::args(rt)? {
        arguments.push(argument)?;
    }
    Ok(arguments)
}

// Runs what the arguments ask for, and returns the exit status. A call of `git refspec` isn't parsed, as that takes
// half of a small stack.
fn run_arguments(rt: &HostRuntime, arguments: &[String]) -> u8 {
    match folder_of(arguments) {
        Some(folder) => run_git(rt, folder),
        None => run_parsed(rt, arguments),
    }
}

// The folder of a call of `git refspec`, as bin/git-refspec names it.
fn folder_of(arguments: &[String]) -> Option<&str> {
    match arguments {
        [_, word, folder] if word.as_str() == "git" && is_path(folder.as_str()) => Some(
            folder.as_str(),
        ),
        _ => None,
    }
}

// Whether an argument is the name of a file that looks like no option.
fn is_path(argument: &str) -> bool {
    !argument.is_empty() && !argument.starts_with('-')
}

// Runs what the arguments ask for, once they are parsed, and returns the exit status.
fn run_parsed(rt: &HostRuntime, arguments: &[String]) -> u8 {
    let Ok(command) = command_line(rt.alloc()) else {
        return fail(rt, Fault::Memory);
    };
    let matches = match command.try_get_matches_from(arguments) {
        Ok(matches) => matches,
        Err(error) => return show(rt, &error),
    };
    match matches.subcommand() {
        Some((_, matches)) if names_no_file(matches) => {
            let _ = eprintln!(rt; "refspec: the name of a file must not be empty");
            USAGE_STATUS
        }
        Some(("git", matches)) => run_git(rt, matches.get_str("folder").unwrap_or("")),
        Some((name, matches)) if names_two_inputs(name, matches) => {
            let _ = eprintln!(rt; "refspec: give the specs in one file, by - or by --specs");
            USAGE_STATUS
        }
        Some((name, matches)) if invalid_merge(name, matches).is_some() => {
            let _ = eprintln!(rt;
                "refspec: {:?} is not a valid ref name",
                invalid_merge(name, matches).unwrap_or("")
            );
            USAGE_STATUS
        }
        Some((name, matches)) => {
            let Ok(mut call) = call_of(rt.alloc(), name, matches) else {
                return fail(rt, Fault::Memory);
            };
            call.is_watched = rt.stderr().is_terminal();
            run_call(rt, &call)
        }
        None => USAGE_STATUS,
    }
}

// Shows the help or a usage error, and returns the exit status.
fn show(rt: &HostRuntime, error: &clap::Error) -> u8 {
    if error.kind() == clap::error::ErrorKind::OutOfMemory {
        return fail(rt, Fault::Memory);
    }
    match error.print(rt) {
        Ok(()) if error.use_stderr() => USAGE_STATUS,
        Ok(()) => 0,
        Err(fault) if fault.kind() == io::ErrorKind::BrokenPipe => CLOSED_STATUS,
        Err(fault) => fail(rt, fault_of(&fault, Fault::Write)),
    }
}

// Runs a call, unless it lacks specs or reads the standard input twice. Returns the exit status.
fn run_call(rt: &HostRuntime, call: &Call<'_>) -> u8 {
    if has_refs(call.command) && has_no_specs(call) {
        let _ = eprintln!(rt;
            "refspec: plan, stale and why need specs; give them as arguments, in a file by --specs, or for plan by --configured"
        );
        return USAGE_STATUS;
    }
    if call.command == Command::Rename {
        match is_remote_name(rt.alloc(), call.new_remote) {
            Ok(true) => {}
            Ok(false) => {
                let _ = eprintln!(rt;
                    "refspec: {:?} is not a valid name of a remote",
                    call.new_remote
                );
                return USAGE_STATUS;
            }
            Err(_) => return fail(rt, Fault::Memory),
        }
    }
    if counts_inputs(call) > 1 {
        let _ = eprintln!(rt;
            "refspec: only one of the refs, the specs and the other files can be the standard input; give the others in files, the refs by --refs"
        );
        return USAGE_STATUS;
    }
    match run_with_files(rt, call) {
        Ok(status) => status,
        Err((fault, name)) => fail_at(rt, fault, name),
    }
}

// Reads the files of a call beside its input, and runs it. Fails with the name of a file that fails.
fn run_with_files<'a>(rt: &HostRuntime, call: &Call<'a>) -> Result<u8, (Fault, &'a str)> {
    let specs = bytes_of(rt, call.beside)?;
    let configured = bytes_of(rt, call.configured)?;
    let local = bytes_of(rt, local_file(call))?;
    let files = Files {
        specs: specs.as_slice(),
        configured: configured.as_slice(),
        local: local.as_slice(),
    };
    let mut output = Stream::new(rt.stdout());
    let mut errors = Stream::new(rt.stderr());
    let job = Job {
        call: &*call,
        files: &files,
    };
    match run_on_input(rt, &job, &mut output, &mut errors) {
        Ok(status) => Ok(status),
        Err(_) if output.is_closed() || errors.is_closed() => Ok(CLOSED_STATUS),
        Err(fault) => Err((fault, call.input)),
    }
}

// Runs a call on its input and its files, writes its results to `output` and its messages to `errors`, and returns the
// exit status.
fn run_on_input<W: Write, E: Write>(
    rt: &HostRuntime,
    job: &Job<'_>,
    output: &mut W,
    errors: &mut E,
) -> Result<u8, Fault> {
    let call = job.call;
    if call.input == "-" || !call.reads_input {
        return run(rt.alloc(), job, &mut rt.stdin(), output, errors);
    }
    let mut file = open(rt, call.input)?;
    run(rt.alloc(), job, &mut file, output, errors)
}

// Whether a call that reads refs has no specs at all.
fn has_no_specs(call: &Call<'_>) -> bool {
    let is_given = !call.specs.is_empty() || !call.beside.is_empty();
    let is_configured = !call.configured.is_empty() || !call.merges.is_empty() || call.tags;
    !is_given && (call.command != Command::Plan || !is_configured)
}

// How many of the files of a call are the standard input.
fn counts_inputs(call: &Call<'_>) -> usize {
    let input = if call.reads_input { call.input } else { "" };
    [input, call.beside, call.configured, local_file(call)]
        .iter()
        .filter(|name| **name == "-")
        .count()
}

// The name of the file of local refs that a call reads; empty if it reads none.
fn local_file<'a>(call: &Call<'a>) -> &'a str {
    match call.command {
        Command::Why => "",
        _ => call.local,
    }
}

// The bytes of a file, or of the standard input for `-`; nothing for an empty name. Fails with the name.
fn bytes_of<'a>(rt: &HostRuntime, name: &'a str) -> Result<Vec<u8>, (Fault, &'a str)> {
    if name.is_empty() {
        return Ok(Vec::new(rt.alloc()));
    }
    let read = if name == "-" {
        read_input(rt.alloc(), &mut rt.stdin())
    } else {
        match open(rt, name) {
            Ok(mut file) => read_input(rt.alloc(), &mut file),
            Err(fault) => Err(fault),
        }
    };
    match read {
        Ok(bytes) => Ok(bytes),
        Err(fault) => Err((fault, name)),
    }
}

// Reports a fault, with the file if it can't be read or has another format, and returns its exit status.
fn fail_at(rt: &HostRuntime, fault: Fault, file: &str) -> u8 {
    match fault {
        Fault::Read if file != "-" => {
            let _ = eprintln!(rt; "refspec: cannot read {file:?}");
        }
        Fault::Settings(_) if file != "-" => {
            let _ = eprintln!(rt; "refspec: {file:?}: {fault}");
        }
        _ => return fail(rt, fault),
    }
    fault.status()
}

// Reports a fault, and returns its exit status.
fn fail(rt: &HostRuntime, fault: Fault) -> u8 {
    let _ = eprintln!(rt; "refspec: {fault}");
    fault.status()
}
