//! The remotes of a configuration.

ghost use Rattle.std.specs.Prelude.{◌≡◌, ◌⊎◌, ◌↔◌, ◌++◌, ◌∷◌, [], ℕ, IfOk, IsTrue, List, MatchOption, OnOk, codes};
ghost use Rattle.std.specs.Prelude.{cond, length, option_map};
ghost use Rattle.std.specs.List.{Any};
ghost use Rattle.std.specs.Str.{bytes_eq};
ghost use Rattle.gix_refspec_text.specs.Texts.Words.{BeginsWith, Lacks};
ghost use Rattle.refspec_request.specs.Remotes.{AreFetchValues, AreValuesBy, IsConfigured, IsDefault, IsGroup};
ghost use Rattle.refspec_request.specs.Remotes.{IsIgnored, IsInFile};
ghost use Rattle.refspec_request.specs.Remotes.{IsInsteadOf, IsLocated, IsOfOther, IsOfRemote, IsOnly, IsOnlyOrOrigin};
ghost use Rattle.refspec_request.specs.Remotes.{Rewrites, SaysWhere, is_between, listed_in, members_text};

use crate::choice::begins_with;
use crate::settings::{last_value, name_and_variable};
use refspec_io::settings::Setting;
use std::alloc::{AllocError, Global};
use std::collections::BTreeMap;

/// A remote that has a file in `.git/remotes` or `.git/branches`.
#[derive(Debug, Drop)]
pub struct OldRemote {
    pub name: Vec<u8>,
    pub folder: String,
}

/// The names in settings `remote.NAME.VARIABLE`, sorted, each with its fetch values in order. Fails if memory runs out.
pub fn fetch_values<'a>(
    alloc: Global,
    settings: &[Setting<'a>],
) -> Result<BTreeMap<&'a [u8], Vec<Setting<'a>>>, AllocError>
    ensures { IfOk result (AreFetchValues settings.now) }
{
    values_by_name(alloc, settings, b"remote", b"fetch")
}

/// The names in settings `SECTION.NAME.OTHER`, sorted, each with its settings `SECTION.NAME.VARIABLE` in order.
/// Fails if memory runs out.
pub fn values_by_name<'a>(
    alloc: Global,
    settings: &[Setting<'a>],
    section: &[u8],
    variable: &[u8],
) -> Result<BTreeMap<&'a [u8], Vec<Setting<'a>>>, AllocError>
    requires { Lacks 46 variable.now }
    ensures { IfOk result (AreValuesBy section.now variable.now settings.now) }
{
    let mut values = BTreeMap::new(alloc);
    for setting in settings {
        add_setting(alloc, section, variable, setting, &mut values)?;
    }
    Ok(values)
}

// Adds a setting to those of its name, if it is one of the section.
fn add_setting<'a>(
    alloc: Global,
    section: &[u8],
    variable: &[u8],
    setting: &Setting<'a>,
    values: &mut BTreeMap<&'a [u8], Vec<Setting<'a>>>,
) -> Result<(), AllocError>
    requires { Lacks 46 variable.now }
    ensures { (seen : List Setting) → AreValuesBy section.now variable.now seen values.old → OnOk result
        (AreValuesBy section.now variable.now (seen ++ setting.now ∷ []) values.new) }
{
    let Some(parts) = name_and_variable(section, setting.key) else {
        return Ok(());
    };
    let (name, own) = parts;
    let mut named = values.remove(name).unwrap_or(Vec::new(alloc));
    add_value(&mut named, variable, own, setting)?;
    values.insert(name, named)?;
    Ok(())
}

// Adds a setting to the values of its name, if its own variable is the one asked for.
fn add_value<'a>(
    values: &mut Vec<Setting<'a>>,
    variable: &[u8],
    own: &[u8],
    setting: &Setting<'a>,
) -> Result<(), AllocError>
    ensures { OnOk result (values.new.items
        ≡ values.old.items ++ cond (bytes_eq own.now variable.now) (setting.now ∷ []) []) }
{
    if own == variable {
        values.push(*setting)?;
    }
    Ok(())
}

/// Whether there is a setting `remote.NAME.VARIABLE` with this name.
pub fn is_configured(settings: &[Setting<'_>], name: &[u8]) -> bool
    ensures { IsTrue result ↔ IsConfigured settings.now name.now }
{
    settings.iter().any(|setting| is_of_remote(setting, name))
}

// Whether a setting is `remote.NAME.VARIABLE` with this name.
fn is_of_remote(setting: &Setting<'_>, name: &[u8]) -> bool
    ensures { IsTrue result ↔ IsOfRemote name.now setting.now }
{
    match name_and_variable(b"remote", setting.key) {
        None => false,
        Some((other, _)) => other == name,
    }
}

/// Whether Git rewrites a URL: it begins with a value of `url.BASE.insteadOf`, as each URL does with an empty one.
pub fn is_rewritten(settings: &[Setting<'_>], url: &[u8]) -> bool
    ensures { IsTrue result ↔ Any (Rewrites url.now) settings.now }
{
    settings.iter().any(|setting| rewrites(setting, url))
}

// Whether the value of a setting `url.BASE.insteadOf` is a prefix of a URL.
fn rewrites(setting: &Setting<'_>, url: &[u8]) -> bool
    ensures { IsTrue result ↔ Rewrites url.now setting.now }
{
    match setting.value {
        None => false,
        Some(start) => is_instead_of(setting.key) && begins_with(url, start),
    }
}

// Whether a key is `url.BASE.insteadOf`.
fn is_instead_of(key: &[u8]) -> bool
    ensures { IsTrue result ↔ IsInsteadOf key.now }
{
    match name_and_variable(b"url", key) {
        None => false,
        Some((_, variable)) => variable == b"insteadof".as_slice(),
    }
}

/// Whether Git ignores a setting, with a warning: one of a remote whose name begins with a slash.
pub fn is_ignored(setting: &Setting<'_>) -> bool
    ensures { IsTrue result ↔ IsIgnored setting.now }
{
    match name_and_variable(b"remote", setting.key) {
        None => false,
        Some((name, _)) => begins_with_slash(name),
    }
}

// Whether a name begins with a slash.
fn begins_with_slash(name: &[u8]) -> bool
    ensures { IsTrue result ↔ BeginsWith (codes "/") name.now }
{
    matches!(name, [b'/', ..])
}

/// Whether Git knows from the configuration where a remote is. Otherwise it looks for a file of `.git/remotes` or
/// `.git/branches`.
pub fn has_location(settings: &[Setting<'_>], name: &[u8]) -> bool
    ensures { IsTrue result ↔ Any (SaysWhere name.now) settings.now }
{
    settings.iter().any(|setting| says_where(setting, name))
}

// Whether a setting says where a remote is.
fn says_where(setting: &Setting<'_>, name: &[u8]) -> bool
    ensures { IsTrue result ↔ SaysWhere name.now setting.now }
{
    match name_and_variable(b"remote", setting.key) {
        None => false,
        Some((other, variable)) => other == name && is_location(variable),
    }
}

// Whether a variable of a remote says where it is.
fn is_location(variable: &[u8]) -> bool
    ensures { IsTrue result ↔ ((variable.now ≡ codes "url") ⊎ (variable.now ≡ codes "vcs")) }
{
    matches!(variable, b"url" | b"vcs")
}

/// Whether a name is that of a group of several remotes, which `git fetch NAME` then fetches from, even if a remote has
/// this name too.
pub fn is_group(settings: &[Setting<'_>], name: &[u8]) -> bool
    ensures { IsTrue result ↔ IsGroup settings.now name.now }
{
    let mut count: usize = 0;
    for setting in settings {
        count = count.saturating_add(count_listed(members_in(setting, name)));
    }
    count > 1
}

// How many remotes a text lists.
fn count_listed(text: &[u8]) -> usize
    ensures { result ≡ length (listed_in text.now) }
{
    text.split(is_between_members)
        .filter(|member| !member.is_empty())
        .count()
}

/// The text with which a setting lists remotes of a group; empty if it lists none.
pub fn members_in<'a>(setting: &Setting<'a>, group: &[u8]) -> &'a [u8]
    ensures { result.now ≡ members_text group.now setting.now }
{
    match setting.key.strip_prefix(b"remotes.") {
        Some(name) if name == group => setting.value.unwrap_or(b""),
        _ => b"",
    }
}

/// Whether a byte separates the remotes of a group.
pub fn is_between_members(byte: &u8) -> bool
    ensures { result ≡ is_between byte.now }
{
    matches!(*byte, b' ' | b'\t' | b'\n')
}

/// The remote that `git fetch` without arguments takes: that of the current branch, else the only one, else `origin`.
/// The branch is empty if there is none. One that the branch doesn't name needs a location, in the configuration or
/// among those in files. `None` if `git fetch` does nothing.
pub fn default_remote<'a>(
    settings: &[Setting<'a>],
    branch: &[u8],
    files: &[OldRemote],
) -> Option<&'a [u8]>
    ensures { IsDefault settings.now branch.now files.now (option_map (λ name. name.now) result) }
{
    match last_value(settings, b"branch", branch, b"remote") {
        Some(name) => Some(name),
        None => located_remote(settings, files),
    }
}

// The only remote or `origin`, if Git knows where that is.
fn located_remote<'a>(settings: &[Setting<'a>], files: &[OldRemote]) -> Option<&'a [u8]>
    ensures { MatchOption result
        ((name : List ℕ) → IsOnlyOrOrigin settings.now name → ¬ (IsLocated settings.now files.now name))
        (λ name. IsOnlyOrOrigin settings.now name.now × IsLocated settings.now files.now name.now) }
{
    let name = only_or_origin(settings);
    if is_located(settings, files, name) {
        return Some(name);
    }
    None
}

// Whether Git knows where a remote is, from the configuration or a file.
fn is_located(settings: &[Setting<'_>], files: &[OldRemote], name: &[u8]) -> bool
    ensures { IsTrue result ↔ IsLocated settings.now files.now name.now }
{
    is_in_file(files, name) || has_location(settings, name)
}

/// Whether a remote has a file in `.git/remotes` or `.git/branches`.
pub fn is_in_file(files: &[OldRemote], name: &[u8]) -> bool
    ensures { IsTrue result ↔ IsInFile files.now name.now }
{
    for file in files {
        if has_name(file, name) {
            return true;
        }
    }
    false
}

// Whether a file is that of a remote.
fn has_name(file: &OldRemote, name: &[u8]) -> bool
    ensures { IsTrue result ↔ (file.now.name.items ≡ name.now) }
{
    file.name.as_slice() == name
}

// The remote if exactly one is configured, else `origin`.
fn only_or_origin<'a>(settings: &[Setting<'a>]) -> &'a [u8]
    ensures { IsOnlyOrOrigin settings.now result.now }
{
    match only_remote(settings) {
        Some(name) => name,
        None => b"origin",
    }
}

// The remote, if exactly one is configured.
fn only_remote<'a>(settings: &[Setting<'a>]) -> Option<&'a [u8]>
    ensures { MatchOption result
        ((name : List ℕ) → ¬ (IsOnly settings.now name))
        (λ name. IsOnly settings.now name.now) }
{
    let name = first_remote(settings)?;
    if has_other(settings, name) {
        return None;
    }
    Some(name)
}

// Whether a remote of another name is configured.
fn has_other(settings: &[Setting<'_>], name: &[u8]) -> bool
    ensures { IsTrue result ↔ Any (IsOfOther name.now) settings.now }
{
    settings.iter().any(|setting| is_of_other(setting, name))
}

// Whether a setting is one of a remote of another name.
fn is_of_other(setting: &Setting<'_>, name: &[u8]) -> bool
    ensures { IsTrue result ↔ IsOfOther name.now setting.now }
{
    match name_and_variable(b"remote", setting.key) {
        None => false,
        Some((other, _)) => other != name,
    }
}

// The name in the first setting of a remote.
fn first_remote<'a>(settings: &[Setting<'a>]) -> Option<&'a [u8]>
    ensures { MatchOption result
        ((name : List ℕ) → ¬ (IsConfigured settings.now name))
        (λ name. IsConfigured settings.now name.now) }
{
    for setting in settings {
        match name_and_variable(b"remote", setting.key) {
            None => {}
            Some((name, _)) => return Some(name),
        }
    }
    None
}
