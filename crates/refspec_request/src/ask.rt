//! The Git commands whose output `git refspec` needs.

ghost use Rattle.std.specs.Prelude.{◌≡◌, ◌++◌, ◌∷◌, [], IfOk, OnOk, map};
ghost use Rattle.std.specs.String.{string_bytes};
ghost use Rattle.refspec_request.specs.Calls.{asked_of_git, full_name_arguments, in_lines, name_file as file_of_name};
ghost use Rattle.refspec_request.specs.Calls.{refs_arguments, requested};

use std::alloc::{AllocError, Global};

/// The file of the arguments of the call, each ended by a zero byte. The constants after it name the files of the
/// outputs of Git commands.
pub const ARGUMENTS: &str = "words";

pub const FOLDER: &str = "folder";

pub const CONFIG: &str = "config";

pub const HEAD: &str = "head";

pub const LINES: &str = "lines";

pub const REFS: &str = "refs";

pub const LOCAL: &str = "local";

// The format of refs: the name, a space, and the target of a symbolic ref.
const NAMES: &[u8] = b"--format=%(refname) %(symref)";

// The name that means the standard output, and not a file.
const SHOWN: &[u8] = b"-";

/// A Git command.
#[derive(Clone, Copy, Debug)]
pub enum GitCall<'a> {
    /// Shows the manual page of `git refspec`.
    Manual,
    /// Prints the folder of the repository that its worktrees share.
    Folder,
    /// Prints the configuration.
    Config,
    /// Prints the ref that `HEAD` points to, or nothing and ends with status 1 if `HEAD` is detached.
    Head,
    /// Prints the refs of a remote.
    Lines(&'a [u8]),
    /// Prints the refs with these names, and those below them, one per line: the name, a space, and the target of a
    /// symbolic ref.
    Refs(&'a [Vec<u8>]),
    /// Prints all refs here, as the refs with names.
    Local,
    /// Prints the full name of the ref that the argument with this index, counted from 0, means.
    FullName(usize, &'a [u8]),
}

/// The file of the full name for the argument with an index. Fails if memory runs out.
pub fn name_file(alloc: Global, number: usize) -> Result<String, AllocError>
    ensures { IfOk result (λ name. string_bytes name ≡ file_of_name number) }
{
    format!(in alloc; "name.{number}")
}

impl GitCall<'_> {
    /// Appends the command, one line each: the file of its output, or `-` for the standard output, the arguments of
    /// `git`, and an empty line. An argument must not be empty or contain a newline. Fails if memory runs out.
    pub fn write(&self, alloc: Global, out: &mut Vec<u8>) -> Result<(), AllocError>
        ensures { OnOk result (out.new.items ≡ out.old.items ++ requested self.now) }
    {
        self.write_arguments(alloc, out)?;
        Ok(out.push(b'\n')?)
    }

    // Appends the file and the arguments.
    fn write_arguments(&self, alloc: Global, out: &mut Vec<u8>) -> Result<(), AllocError>
        ensures { OnOk result (out.new.items ≡ out.old.items ++ in_lines (asked_of_git self.now)) }
    {
        match self {
            GitCall::Manual => write_lines(out, &[SHOWN, b"help", b"refspec"]),
            GitCall::Folder => write_lines(
                out,
                &[FOLDER.as_bytes(), b"rev-parse", b"--git-common-dir"],
            ),
            GitCall::Config => write_lines(
                out,
                &[
                    CONFIG.as_bytes(),
                    b"config",
                    b"--show-origin",
                    b"-z",
                    b"--list",
                ],
            ),
            GitCall::Head => write_lines(out, &[HEAD.as_bytes(), b"symbolic-ref", b"-q", b"HEAD"]),
            GitCall::Lines(remote) => {
                write_lines(out, &[LINES.as_bytes(), b"ls-remote", b"--", remote])
            }
            GitCall::Local => write_lines(out, &[LOCAL.as_bytes(), b"for-each-ref", NAMES]),
            GitCall::Refs(names) => write_refs(out, names),
            GitCall::FullName(number, argument) => write_full_name(alloc, out, *number, argument),
        }
    }
}

// Appends the arguments that ask for the refs with names.
fn write_refs(out: &mut Vec<u8>, names: &[Vec<u8>]) -> Result<(), AllocError>
    ensures { OnOk result (out.new.items
        ≡ out.old.items ++ in_lines (refs_arguments (map (λ name. name.items) names.now))) }
{
    write_format(out)?;
    Ok(write_names(out, names)?)
}

// Appends the arguments that ask for refs.
fn write_format(out: &mut Vec<u8>) -> Result<(), AllocError>
    ensures { OnOk result (out.new.items ≡ out.old.items ++ in_lines (refs_arguments [])) }
{
    write_lines(out, &[REFS.as_bytes(), b"for-each-ref", NAMES])
}

// Appends names, one per line.
fn write_names(out: &mut Vec<u8>, names: &[Vec<u8>]) -> Result<(), AllocError>
    ensures { OnOk result (out.new.items ≡ out.old.items ++ in_lines (map (λ name. name.items) names.now)) }
{
    for name in names {
        write_argument(out, name.as_slice())?;
    }
    Ok(())
}

// Appends the arguments that ask for the full name of a ref.
fn write_full_name(
    alloc: Global,
    out: &mut Vec<u8>,
    number: usize,
    argument: &[u8],
) -> Result<(), AllocError>
    ensures { OnOk result (out.new.items ≡ out.old.items ++ in_lines (full_name_arguments number argument.now)) }
{
    let file = name_file(alloc, number)?;
    write_argument(out, file.as_bytes())?;
    write_lines(out, &[b"rev-parse", b"--symbolic-full-name", argument])
}

// Appends arguments, one per line.
fn write_lines(out: &mut Vec<u8>, arguments: &[&[u8]]) -> Result<(), AllocError>
    ensures { OnOk result (out.new.items
        ≡ out.old.items ++ in_lines (map (λ argument. argument.now) arguments.now)) }
{
    for argument in arguments {
        write_argument(out, argument)?;
    }
    Ok(())
}

// Appends an argument in a line of its own.
fn write_argument(out: &mut Vec<u8>, argument: &[u8]) -> Result<(), AllocError>
    ensures { OnOk result (out.new.items ≡ out.old.items ++ (argument.now ++ (10 ∷ []))) }
{
    out.extend_from_slice(argument)?;
    Ok(out.push(b'\n')?)
}
