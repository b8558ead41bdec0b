//! The remote and the specs that the arguments of a call name.

ghost use Rattle.std.specs.Prelude.{◌≡◌, ◌↔◌, ◌⊎◌, [], IfErr, IfOk, IsTrue, MatchBool, MatchOption, MatchResult, codes};
ghost use Rattle.std.specs.Prelude.{map, option_map};
ghost use Rattle.gix_refspec_text.specs.Texts.Words.{BeginsWith, ContainsText, EndsWith};
ghost use Rattle.refspec_request.specs.Choices.{AreInDoubt, AreNamed, Chooses, HasNoOldForm, IsCertainlyRemote};
ghost use Rattle.refspec_request.specs.Choices.{IsChosen, IsFetchedFrom, IsGivenPath, IsInDoubt, IsOldForm};
ghost use Rattle.refspec_request.specs.Choices.{IsTakenForRemote, IsTakenForSpec, MayBeFetched, NamesRemote};
ghost use Rattle.refspec_request.specs.Choices.{RefusesChoice, RefusesRemote};
ghost use Rattle.refspec_request.specs.declared.choice.Looks.TheVariants as looks;
ghost use Rattle.refspec_request.specs.Words.{BeginsAsPath, EndsAsSpec, HasHost, IsCertainlySpec, IsUrl, LooksLike};

use crate::arguments::Request;
use crate::refusal::Refusal;
use crate::remotes::{
    OldRemote, default_remote, has_location, is_configured, is_group, is_in_file, is_rewritten,
};
use crate::settings::split_at_first;
use bstr::ByteSlice;
use refspec_io::settings::Setting;
use std::alloc::Global;

/// What an argument looks like, regardless of the configuration.
#[derive(Clone, Copy, Debug, PartialEq, Eq)]
pub enum Looks {
    /// A spec: it is empty, begins with `+`, `^` or `refs/`, contains a star or `:refs/`, or ends with a colon.
    Spec,
    /// A URL or a path.
    Url,
    /// A URL or a spec, as `host:path` and `main:other`.
    Either,
    /// A plain word, as `origin` and `main`.
    Plain,
}

/// Classifies an argument by its text alone.
pub fn looks_of(argument: &[u8]) -> Looks
    ensures { LooksLike argument.now result }
{
    if is_certainly_spec(argument) {
        return Looks::Spec;
    }
    if is_url(argument) {
        return Looks::Url;
    }
    if ends_as_spec(argument) {
        return Looks::Spec;
    }
    if has_word(argument, b":") {
        return Looks::Either;
    }
    Looks::Plain
}

// Whether an argument begins as only specs do, or contains a star.
fn is_certainly_spec(argument: &[u8]) -> bool
    ensures { IsTrue result ↔ IsCertainlySpec argument.now }
{
    argument.is_empty()
        || begins_with(argument, b"+")
        || begins_with(argument, b"^")
        || begins_with(argument, b"refs/")
        || has_word(argument, b"*")
}

// Whether an argument is a path or a URL.
fn is_url(argument: &[u8]) -> bool
    ensures { IsTrue result ↔ IsUrl argument.now }
{
    begins_as_path(argument) || has_host(argument)
}

// Whether an argument begins as only paths do.
fn begins_as_path(argument: &[u8]) -> bool
    ensures { IsTrue result ↔ BeginsAsPath argument.now }
{
    argument == b".".as_slice()
        || argument == b"..".as_slice()
        || begins_with(argument, b"/")
        || begins_with(argument, b"./")
        || begins_with(argument, b"../")
}

// Whether an argument has a scheme, a helper or a user before its first colon: `https://host`, `ext::command`,
// `me@host:path`.
fn has_host(argument: &[u8]) -> bool
    ensures { IsTrue result ↔ HasHost argument.now }
{
    match split_at_first(argument, b':') {
        None => false,
        Some((before, after)) => tells_host(before, after),
    }
}

// Whether the texts before and after a colon are a user and a path, a scheme and a host, or a helper and a command.
fn tells_host(before: &[u8], after: &[u8]) -> bool
    ensures { IsTrue result ↔ (BeginsWith (codes "//") after.now ⊎ BeginsWith (codes ":") after.now
        ⊎ ContainsText (codes "@") before.now) }
{
    begins_with(after, b"//") || begins_with(after, b":") || has_word(before, b"@")
}

// Whether an argument ends with a destination of a spec.
fn ends_as_spec(argument: &[u8]) -> bool
    ensures { IsTrue result ↔ EndsAsSpec argument.now }
{
    has_word(argument, b":refs/") || ends_with_colon(argument)
}

/// Whether a text begins with another.
pub fn begins_with(text: &[u8], start: &[u8]) -> bool
    ensures { IsTrue result ↔ BeginsWith start.now text.now }
{
    text.starts_with(start)
}

fn ends_with_colon(text: &[u8]) -> bool
    ensures { IsTrue result ↔ EndsWith (codes ":") text.now }
{
    text.ends_with(b":")
}

/// Whether a text contains another.
pub fn has_word(text: &[u8], word: &[u8]) -> bool
    ensures { IsTrue result ↔ ContainsText word.now text.now }
{
    text.contains_str(word)
}

/// What decides whether a first argument is a remote, besides its looks.
#[derive(Clone, Copy, Debug)]
pub struct Repository<'a, 'b> {
    /// The configuration.
    pub settings: &'b [Setting<'a>],
    /// The current branch below `refs/heads/`; empty if there is none.
    pub branch: &'b [u8],
    /// The remotes that have files of their own, outside the configuration.
    pub old: &'b [OldRemote],
    /// Whether the first argument is an existing path.
    pub is_path: bool,
}

impl<'b> Repository<'_, 'b> {
    /// Whether an argument is the name of a remote.
    pub fn has_remote(&self, argument: &[u8]) -> bool
        ensures { IsTrue result ↔ NamesRemote self.now argument.now }
    {
        is_configured(self.settings, argument) || is_in_file(self.old, argument)
    }

    /// The refusal of a remote that Git reads from a file of its own, as the configuration has no URL for it. `None`
    /// for any other.
    pub fn old_remote(&self, name: &'b [u8]) -> Option<Refusal<'b>>
        ensures { MatchOption result (HasNoOldForm self.now name.entry.now) (IsOldForm self.now name.entry.now) }
    {
        if has_location(self.settings, name) {
            return None;
        }
        let files = self.old;
        for old in files {
            if old.name.as_slice() == name {
                return Some(Refusal::OldForm {
                    name,
                    folder: old.folder.as_str(),
                });
            }
        }
        None
    }

    /// Whether a chosen remote may be one: it is known, or doesn't look like a plain word, which Git takes for a path.
    pub fn may_fetch(&self, remote: &[u8]) -> bool
        ensures { IsTrue result ↔ MayBeFetched self.now remote.now }
    {
        self.knows(remote) || !is_plain_word(remote)
    }

    // Whether a first argument is certainly a remote.
    fn knows(&self, argument: &[u8]) -> bool
        ensures { IsTrue result ↔ IsCertainlyRemote self.now argument.now }
    {
        self.has_remote(argument)
            || is_rewritten(self.settings, argument)
            || self.is_given_path(argument)
    }

    // Whether an argument is the existing path of the call, and doesn't look like a spec.
    fn is_given_path(&self, argument: &[u8]) -> bool
        ensures { IsTrue result ↔ IsGivenPath self.now argument.now }
    {
        self.is_path && !looks_like_spec(argument)
    }
}

fn looks_like_spec(argument: &[u8]) -> bool
    ensures { IsTrue result ↔ LooksLike argument.now looks.Spec }
{
    match looks_of(argument) {
        Looks::Spec => true,
        Looks::Url => false,
        Looks::Either => false,
        Looks::Plain => false,
    }
}

fn is_plain_word(argument: &[u8]) -> bool
    ensures { IsTrue result ↔ LooksLike argument.now looks.Plain }
{
    match looks_of(argument) {
        Looks::Plain => true,
        Looks::Spec => false,
        Looks::Url => false,
        Looks::Either => false,
    }
}

/// The remote and the specs of a call.
#[derive(Debug, Drop)]
pub struct Choice<'a> {
    pub remote: &'a [u8],
    pub specs: Vec<&'a [u8]>,
}

/// The remote and the specs that the arguments of a request name, and from which they borrow. The remote is that of
/// `--remote`, else the first argument if it precedes `--`, or is or looks like a remote, else the default.
/// Refuses an argument that may be a URL or a spec, a call without a remote, a group of remotes, and a remote with a
/// newline. Fails with `Refusal::Memory` if memory runs out.
pub fn choice_of<'a>(
    alloc: Global,
    request: &Request<'a>,
    repository: &Repository<'a, 'a>,
) -> Result<Choice<'a>, Refusal<'a>>
    ensures ok { IfOk result (λ choice. Chooses repository.now request.now choice) }
    ensures refused { IfErr result (λ refusal. RefusesChoice repository.now request.now refusal) }
{
    let (named, specs) = named_in(request, repository)?;
    let remote = remote_to_fetch(named, repository)?;
    let specs = Vec::from_slice(alloc, specs)?;
    Ok(Choice { remote, specs })
}

// The remote that the arguments name, if they name one, and the specs.
fn named_in<'a, 'r>(
    request: &'r Request<'a>,
    repository: &Repository<'_, '_>,
) -> Result<(Option<&'a [u8]>, &'r [&'a [u8]]), Refusal<'a>>
    ensures ok { IfOk result (λ named. AreNamed request.now.dashes repository.now
        (option_map (λ text. text.now) request.now.remote) (map (λ text. text.now) request.now.arguments.items)
        (option_map (λ text. text.now) named.0, map (λ text. text.now) named.1.now)) }
    ensures refused { IfErr result (AreInDoubt request.now.dashes repository.now
        (option_map (λ text. text.now) request.now.remote) (map (λ text. text.now) request.now.arguments.items)) }
{
    let arguments = request.arguments.as_slice();
    match request.remote {
        Some(remote) => Ok((Some(remote), arguments)),
        None => match arguments {
            [] => Ok((None, arguments)),
            [first, rest @ ..] => {
                if is_remote(request.dashes, first, repository)? {
                    Ok((Some(*first), rest))
                } else {
                    Ok((None, arguments))
                }
            }
        },
    }
}

/// The remote to fetch from: the named one, or the default. Refuses a call without a remote, a group of remotes, and a
/// remote with a newline.
pub fn remote_to_fetch<'a>(
    named: Option<&'a [u8]>,
    repository: &Repository<'a, 'a>,
) -> Result<&'a [u8], Refusal<'a>>
    ensures ok { IfOk result (λ remote.
        IsFetchedFrom repository.now (option_map (λ text. text.now) named.entry) remote.now) }
    ensures refused { IfErr result (RefusesRemote repository.now (option_map (λ text. text.now) named.entry)) }
{
    let remote = chosen_remote(named, repository)?;
    // A branch may name an empty remote.
    if is_nothing(remote) {
        return Err(Refusal::NoDefault);
    }
    if has_word(remote, b"\n") {
        return Err(Refusal::Newline(remote));
    }
    Ok(remote)
}

fn is_nothing(text: &[u8]) -> bool
    ensures { IsTrue result ↔ (text.now ≡ []) }
{
    text.is_empty()
}

// The named remote, unless it is a group, or the default.
fn chosen_remote<'a>(
    named: Option<&'a [u8]>,
    repository: &Repository<'a, 'a>,
) -> Result<&'a [u8], Refusal<'a>>
    ensures ok { IfOk result (λ remote.
        IsChosen repository.now (option_map (λ text. text.now) named.entry) remote.now) }
    ensures refused { IfErr result (RefusesRemote repository.now (option_map (λ text. text.now) named.entry)) }
{
    let settings = repository.settings;
    match named {
        Some(name) if is_group(settings, name) => Err(Refusal::Group { name, settings }),
        Some(name) => Ok(name),
        None => match default_remote(settings, repository.branch, repository.old) {
            Some(remote) => Ok(remote),
            None => Err(Refusal::NoDefault),
        },
    }
}

// Whether a first argument is a remote, and not a spec for the default one.
fn is_remote<'a>(
    dashes: Option<usize>,
    argument: &'a [u8],
    repository: &Repository<'_, '_>,
) -> Result<bool, Refusal<'a>>
    ensures { MatchResult result
        (λ is. MatchBool is (IsTakenForRemote dashes repository.now argument.entry.now)
        (IsTakenForSpec dashes repository.now argument.entry.now))
        (IsInDoubt dashes repository.now argument.entry.now) }
{
    if repository.knows(argument) {
        return Ok(true);
    }
    let looks = looks_of(argument);
    match dashes {
        None => match looks {
            Looks::Spec => Ok(false),
            Looks::Url => Ok(true),
            Looks::Plain => Ok(true),
            Looks::Either => Err(Refusal::UrlOrSpec(argument)),
        },
        Some(0) => match looks {
            Looks::Url => Ok(true),
            Looks::Spec => Ok(false),
            Looks::Plain => Ok(false),
            Looks::Either => Ok(false),
        },
        Some(_) => Ok(true),
    }
}
