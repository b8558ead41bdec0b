//! Reads refspecs, one per line, and prints their canonical texts; or reads refspecs and refs, and
//! prints the mappings, or those that a fetch can write.
#![tactic(auto)]

ghost use Rattle.std.specs.Prelude.{map, string_bytes};
ghost use Rattle.refspec_map.specs.Words.{AreArgumentsOf};

mod canon;
mod command;
mod fault;
mod input;
mod line;
mod matching;
mod output;
mod plan;
mod run;

use crate::command::Command;
use crate::fault::Fault;
use crate::run::run;
use std::process::ExitCode;
use std::{env, io};

const USAGE: &str = "usage: refspec_map canon fetch | canon push | lhs | rhs | plan";

// The exit status of a usage error.
const USAGE_STATUS: u8 = 2;

fn main(rt: HostRuntime) -> ExitCode {
    let status = match named_command(&rt) {
        Ok(Some(command)) => run_command(&rt, command),
        Ok(None) => report_usage(&rt),
        // An argument that isn't UTF-8 names no command.
        Err(error) if error.kind() == io::ErrorKind::InvalidData => report_usage(&rt),
        Err(_) => report(&rt, &Fault::Memory),
    };
    ExitCode::from(status)
}

// Prints the usage line. If that fails, only the exit status shows it.
fn report_usage(rt: &HostRuntime) -> u8 {
    let _ = println!(rt; "{USAGE}");
    USAGE_STATUS
}

// Parses the arguments.
fn named_command<R: env::Env + AllocGlobal>(rt: &R) -> io::Result<Option<Command>> {
    let mut words = Vec::new(rt.alloc());
    for word in env::args(rt)?.skip(1) {
        words.push(word)?;
    }
    Ok(command_of(words.as_slice()))
}

// The command that the arguments name; `None` for a usage error.
fn command_of(words: &[String]) -> Option<Command>
    ensures { AreArgumentsOf (map string_bytes words.now) result }
{
    match words {
        [first, second] => match (first.as_str(), second.as_str()) {
            ("canon", "fetch") => Some(Command::CanonFetch),
            ("canon", "push") => Some(Command::CanonPush),
            _ => None,
        },
        [only] => match only.as_str() {
            "lhs" => Some(Command::Lhs),
            "rhs" => Some(Command::Rhs),
            "plan" => Some(Command::Plan),
            _ => None,
        },
        _ => None,
    }
}

// Runs a command from the standard input to the standard output.
fn run_command(rt: &HostRuntime, command: Command) -> u8 {
    match run(rt.alloc(), command, &mut rt.stdin(), &mut rt.stdout()) {
        Ok(status) => status,
        Err(fault) => report(rt, &fault),
    }
}

// Prints the line of a fault. If that fails, only the exit status shows it.
fn report(rt: &HostRuntime, fault: &Fault) -> u8 {
    let _ = println!(rt; "{fault}");
    fault.status()
}
