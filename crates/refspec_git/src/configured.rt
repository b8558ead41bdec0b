//! What the configuration says of a fetch of a remote.

ghost use Rattle.std.specs.Prelude.{◌≡◌, [], Some, codes, map, option_map, unwrap_or, IfOk, MatchBool};
ghost use Rattle.refspec_io.specs.Texts.{given_of};
ghost use Rattle.refspec_request.specs.Settings.{settings_with, value_in};
ghost use Rattle.refspec_git.specs.Configured.{AreMerges, IsIfOn, MergesFrom, configured_tags, fetch_text};
ghost use Rattle.refspec_git.specs.Configured.{fetch_texts, last_of, pruning_setting, tags_said};

use crate::texts::value;
use gix_refspec::parsing::Operation;
use refspec_fetch::question::Tags;
use refspec_io::settings::Setting;
use refspec_io::texts::Text;
use refspec_request::choice::Repository;
use refspec_request::settings::{is_true, last_value, settings_named};
use std::alloc::{AllocError, Global};

/// The fetch values of a remote, in order. Fails if memory runs out.
pub fn fetch_texts<'a>(
    alloc: Global,
    settings: &[Setting<'a>],
    remote: &[u8],
) -> Result<Vec<Text<'a>>, AllocError>
    ensures { IfOk result (λ values. map given_of values.items ≡ fetch_texts settings.now remote.now) }
{
    let named = settings_named(alloc, settings, b"remote", remote, b"fetch")?;
    let mut values = Vec::new(alloc);
    for setting in &named {
        if let Some(text) = fetch_text(setting) {
            values.push(text)?;
        }
    }
    Ok(values)
}

// A setting as a spec of a fetch. `None` without a value.
fn fetch_text<'a>(setting: &Setting<'a>) -> Option<Text<'a>>
    ensures { option_map given_of result ≡ fetch_text setting.now }
{
    let spec = setting.value?;
    Some(value(setting, Operation::Fetch, spec))
}

/// The setting by which a fetch of a remote prunes tags, if it is true: the last `pruneTags` of the remote, or
/// else that of `fetch`. Without given specs Git then adds a fetch value for all tags, or to the given specs if
/// the remote is a URL. Fails if memory runs out.
pub fn pruning_setting<'a>(
    alloc: Global,
    settings: &[Setting<'a>],
    remote: &[u8],
) -> Result<Option<Setting<'a>>, AllocError>
    ensures { IfOk result (λ found. IsIfOn (pruning_setting settings.now remote.now) found) }
{
    let own = settings_named(alloc, settings, b"remote", remote, b"prunetags")?;
    Ok(match own.last() {
        Some(setting) => if_on(*setting),
        None => match last_of_fetches(settings) {
            Some(setting) => if_on(setting),
            None => None,
        },
    })
}

// The last `pruneTags` of all fetches.
fn last_of_fetches<'a>(settings: &[Setting<'a>]) -> Option<Setting<'a>>
    ensures { result ≡ last_of (settings_with (codes "fetch.prunetags") settings.now) }
{
    let mut last = None;
    for setting in settings {
        if setting.key == b"fetch.prunetags".as_slice() {
            last = Some(*setting);
        }
    }
    last
}

// A setting, if it is true.
fn if_on<'a>(setting: Setting<'a>) -> Option<Setting<'a>>
    ensures { IsIfOn (Some setting.entry) result }
{
    if is_true(setting.value) {
        Some(setting)
    } else {
        None
    }
}

/// What the last `tagOpt` of a remote says that is `--tags` or `--no-tags`. Git ignores other values, and
/// follows tags without one. Fails if memory runs out.
pub fn tags_of(alloc: Global, settings: &[Setting<'_>], remote: &[u8]) -> Result<Tags, AllocError>
    ensures { IfOk result (λ tags. tags ≡ configured_tags settings.now remote.now) }
{
    let options = settings_named(alloc, settings, b"remote", remote, b"tagopt")?;
    let mut tags = Tags::Followed;
    for option in &options {
        if let Some(said) = tags_said(option.value) {
            tags = said;
        }
    }
    Ok(tags)
}

// What a value of `tagOpt` says.
fn tags_said(value: Option<&[u8]>) -> Option<Tags>
    ensures { result ≡ tags_said (option_map (λ text. text.now) value.entry) }
{
    let text = value?;
    if text == b"--tags".as_slice() {
        Some(Tags::All)
    } else if text == b"--no-tags".as_slice() {
        Some(Tags::Left)
    } else {
        None
    }
}

/// What the current branch merges, if it merges from this remote: each value as it is written, and empty where
/// there is none. Fails if memory runs out.
pub fn merges_of<'a>(
    alloc: Global,
    repository: &Repository<'a, 'a>,
    remote: &[u8],
) -> Result<Vec<&'a [u8]>, AllocError>
    ensures { IfOk result (λ merges. AreMerges repository.now remote.now (map (λ m. m.now) merges.items)) }
{
    let mut merges = Vec::new(alloc);
    if !merges_from(repository, remote) {
        return Ok(merges);
    }
    let (settings, branch) = (repository.settings, repository.branch);
    let named = settings_named(alloc, settings, b"branch", branch, b"merge")?;
    for setting in &named {
        merges.push(merged_value(setting))?;
    }
    Ok(merges)
}

// The value of a setting as it is written, and empty without one.
fn merged_value<'a>(setting: &Setting<'a>) -> &'a [u8]
    ensures { result.now ≡ unwrap_or (value_in setting.now) [] }
{
    match setting.value {
        Some(value) => value,
        None => b"",
    }
}

// Whether the current branch merges from a remote.
fn merges_from(repository: &Repository<'_, '_>, remote: &[u8]) -> bool
    ensures { MatchBool result (MergesFrom repository.now remote.now) (¬ (MergesFrom repository.now remote.now)) }
{
    match last_value(repository.settings, b"branch", repository.branch, b"remote") {
        None => false,
        Some(name) => name == remote,
    }
}
