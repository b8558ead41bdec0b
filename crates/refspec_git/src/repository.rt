//! What Git printed of a repository, and what its folders tell of the remotes and the first argument.

ghost use Rattle.std.specs.Prelude.{◌≡◌, ◌++◌, ◌∷◌, [], IfOk, IsTrue, List, MatchBool, MatchOption, OnOk, codes, map};
ghost use Rattle.std.specs.Str.{IsUtf8};
ghost use Rattle.std.specs.String.{string_bytes};
ghost use Rattle.refspec_io.specs.declared.settings.Setting.{Setting};
ghost use Rattle.refspec_io.specs.Settings.{AreSettings};
ghost use Rattle.refspec_request.specs.Remotes.{IsIgnored};
ghost use Rattle.refspec_request.specs.declared.remotes.OldRemote.{OldRemote};
ghost use Rattle.refspec_git.specs.Repository.{AreCounted, AreFiles, AreFilesIn, AreOldRemotes, IsBranch, IsLine};
ghost use Rattle.refspec_git.specs.Repository.{IsPath, IsPrinted, LacksOutput};

use crate::answer::Machine;
use refspec_io::fault::Fault;
use refspec_io::settings::{Setting, settings_of};
use refspec_request::ask::{CONFIG, FOLDER, HEAD};
use refspec_request::remotes::{OldRemote, is_ignored};
use std::alloc::{AllocError, Global};

/// What Git printed of a repository.
#[derive(Drop)]
pub struct Printed {
    pub folder: Vec<u8>,
    pub config: Vec<u8>,
    pub head: Vec<u8>,
}

/// What Git printed of the repository. `None` if one of the three commands hasn't run. Fails if a file can't be read.
pub fn printed_by<M: Machine>(machine: &M) -> Result<Option<Printed>, Fault>
    ensures { IfOk result (λ printed. MatchOption printed (LacksOutput (M.world machine.now))
        (λ p. IsPrinted (M.world machine.now) p.folder.items p.config.items p.head.items)) }
{
    let folder = machine.output(FOLDER)?;
    let config = machine.output(CONFIG)?;
    let head = machine.output(HEAD)?;
    match (folder, config, head) {
        (Some(folder), Some(config), Some(head)) => Ok(Some(Printed {
            folder,
            config,
            head,
        })),
        _ => Ok(None),
    }
}

/// The settings of a configuration that count. Refused if it isn't in the format of settings.
pub fn counted_settings(alloc: Global, config: &[u8]) -> Result<Vec<Setting<'_>>, Fault>
    ensures { IfOk result (λ counted. (all : List Setting) × AreSettings config.now all
        × AreCounted all counted.items) }
{
    let all = settings_of(alloc, config)?;
    let counted = counted_in(alloc, all.as_slice())?;
    Ok(counted)
}

// Those of settings that Git doesn't ignore.
fn counted_in<'a>(alloc: Global, all: &[Setting<'a>]) -> Result<Vec<Setting<'a>>, AllocError>
    ensures { IfOk result (λ counted. AreCounted all.now counted.items) }
{
    let mut counted = Vec::with_capacity(alloc, all.len())?;
    for setting in all {
        add_counted(setting, &mut counted)?;
    }
    Ok(counted)
}

// Adds a setting, unless Git ignores it.
fn add_counted<'a>(setting: &Setting<'a>, counted: &mut Vec<Setting<'a>>) -> Result<(), AllocError>
    ensures { OnOk result ((all : List Setting) → AreCounted all counted.old.items
        → AreCounted (all ++ setting.now ∷ []) counted.new.items) }
{
    if counts(setting) {
        return Ok(counted.push(*setting)?);
    }
    Ok(())
}

// Whether Git doesn't ignore a setting.
fn counts(setting: &Setting<'_>) -> bool
    ensures { MatchBool result (¬ (IsIgnored setting.now)) (IsIgnored setting.now) }
{
    !is_ignored(setting)
}

/// An output of one line, without its newline.
pub fn line_of(output: &[u8]) -> &[u8]
    ensures { IsLine output.now result.now }
{
    match output.strip_suffix(b"\n") {
        Some(line) => line,
        None => output,
    }
}

/// The branch that `HEAD` points to; empty if it points elsewhere.
pub fn branch_of(target: &[u8]) -> &[u8]
    ensures { IsBranch target.now result.now }
{
    match target.strip_prefix(b"refs/heads/") {
        Some(branch) => branch,
        None => b"",
    }
}

/// Whether the first of some arguments is an existing path.
pub fn is_path<M: Machine>(machine: &M, arguments: &[&[u8]]) -> bool
    ensures { IsPath (M.world machine.now) (map (λ a. a.now) arguments.now) result }
{
    match arguments {
        [] => false,
        [first, ..] => has_path(machine, first),
    }
}

// Whether a file or folder has this path. An empty path is none.
fn has_path<M: Machine>(machine: &M, path: &[u8]) -> bool
    ensures { IsPath (M.world machine.now) (path.now ∷ []) result }
{
    if path.is_empty() {
        return false;
    }
    match str::from_utf8(path) {
        Ok(path) => machine.has(path),
        Err(_) => false,
    }
}

/// The remotes that have files of their own in the folder of a repository.
pub fn old_remotes<M: Machine>(
    alloc: Global,
    machine: &M,
    folder: &[u8],
) -> Result<Vec<OldRemote>, Fault>
    ensures { IfOk result (λ old. AreOldRemotes (M.world machine.now) folder.now old.items) }
{
    let mut old = Vec::new(alloc);
    let Ok(folder) = str::from_utf8(folder) else {
        return Ok(old);
    };
    let remotes = format!(in alloc; "{folder}/remotes")?;
    add_files_in(alloc, machine, remotes.as_str(), &mut old)?;
    let branches = format!(in alloc; "{folder}/branches")?;
    add_files_in(alloc, machine, branches.as_str(), &mut old)?;
    Ok(old)
}

// Adds the remotes that have files in a folder.
fn add_files_in<M: Machine>(
    alloc: Global,
    machine: &M,
    folder: &str,
    old: &mut Vec<OldRemote>,
) -> Result<(), Fault>
    ensures { OnOk result ((more : List OldRemote) × AreFilesIn (M.world machine.now) folder.now more
        × (old.new.items ≡ old.old.items ++ more)) }
{
    let names = machine.names(folder)?;
    add_files(alloc, folder, names.as_slice(), old)?;
    Ok(())
}

// Adds the remotes that files with these names in a folder have.
fn add_files(
    alloc: Global,
    folder: &str,
    names: &[String],
    old: &mut Vec<OldRemote>,
) -> Result<(), AllocError>
    ensures { OnOk result ((more : List OldRemote) × AreFiles folder.now (map string_bytes names.now) more
        × (old.new.items ≡ old.old.items ++ more)) }
{
    for name in names {
        let file = OldRemote {
            name: Vec::from_slice(alloc, name.as_bytes())?,
            folder: String::from_str(alloc, folder)?,
        };
        old.push(file)?;
    }
    Ok(())
}
