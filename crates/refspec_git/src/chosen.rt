//! The remotes and the specs that the arguments of `git refspec check` choose.

ghost use Rattle.std.specs.Prelude.{◌≡◌, ◌≢◌, ◌⊎◌, ◌↔◌, ◌<◌, ◌≤◌, ◌++◌, ◌∷◌, [], IfErr, IfOk, IsTrue, List, MatchBool};
ghost use Rattle.std.specs.Prelude.{MatchResult, None, OnOk, length, map, ℕ};
ghost use Rattle.std.specs.List.{All, Any};
ghost use Rattle.refspec_io.specs.declared.settings.Setting.{Setting};
ghost use Rattle.refspec_io.specs.Texts.{AddsValues, AreValues, given_of};
ghost use Rattle.refspec_request.specs.declared.choice.Looks.TheVariants as looks;
ghost use Rattle.refspec_request.specs.Words.{LooksLike};
ghost use Rattle.refspec_request.specs.Choices.{HasNoOldForm, IsOldForm};
ghost use Rattle.refspec_git.specs.Chosen.{AreChosen, AreValuesOf, HasNamed, HasRemotes, HoldsSpecs, IsAmong};
ghost use Rattle.refspec_git.specs.Chosen.{IsNoSpecAt, IsRemote, IsSpec, IsSpecAt, IsValueOf, NamesNothing};
ghost use Rattle.refspec_git.specs.Chosen.{NamesRemotes, RefusesArgument, RefusesChosen, RefusesNamed, StopsAt};
ghost use Rattle.refspec_git.specs.Chosen.{operation_for, spec_texts};

use crate::answer::Stop;
use crate::texts::{argument, utf8, value};
use gix_refspec::parsing::Operation;
use refspec_io::settings::{Setting, operation_of};
use refspec_io::texts::Text;
use refspec_request::arguments::Request;
use refspec_request::choice::{Looks, Repository, looks_of};
use refspec_request::refusal::Refusal;
use refspec_request::settings::name_and_variable;
use std::alloc::{AllocError, Global};
use std::collections::BTreeSet;

/// The remotes and specs to check.
#[derive(Drop)]
pub struct Chosen<'a> {
    /// The names of remotes, or all remotes.
    pub remotes: Option<BTreeSet<&'a [u8]>>,
    pub specs: Vec<&'a str>,
}

impl Chosen<'_> {
    /// Whether remotes are checked, and not specs alone.
    pub fn has_remotes(&self) -> bool
        ensures { MatchBool result (HasRemotes self.now) (¬ (HasRemotes self.now)) }
    {
        self.remotes.is_none() || self.names_remotes()
    }

    /// Whether the arguments name remotes.
    pub fn names_remotes(&self) -> bool
        ensures { MatchBool result (NamesRemotes self.now) (¬ (NamesRemotes self.now)) }
    {
        match &self.remotes {
            None => false,
            Some(names) => !names.is_empty(),
        }
    }
}

/// The remotes and specs that the arguments choose: all remotes if there are neither `--remote` nor arguments. Refuses a
/// remote of `--remote` that there isn't, then the first argument that is neither a remote nor a spec, or is a spec and
/// not UTF-8, and then a remote whose configuration is a file of its own.
pub fn chosen_of<'a>(
    alloc: Global,
    request: &Request<'a>,
    repository: &Repository<'a, 'a>,
) -> Result<Chosen<'a>, Stop<'a>>
    ensures ok { IfOk result (AreChosen request.now repository.now) }
    ensures refused { IfErr result (RefusesChosen request.now repository.now) }
{
    if names_nothing(request) {
        return Ok(Chosen {
            remotes: None,
            specs: Vec::new(alloc),
        });
    }
    let named = named_in(alloc, request, repository)?;
    refuse_old(&named.remotes, repository)?;
    Ok(Chosen {
        remotes: Some(named.remotes),
        specs: named.specs,
    })
}

/// Whether a call names neither a remote nor a spec.
pub fn names_nothing(request: &Request<'_>) -> bool
    ensures { MatchBool result (NamesNothing request.now) (¬ (NamesNothing request.now)) }
{
    if names_remote(request) {
        return false;
    }
    let arguments = request.arguments.as_slice();
    arguments.is_empty()
}

// The remotes and the specs that a call names.
#[derive(Drop)]
struct Named<'a> {
    remotes: BTreeSet<&'a [u8]>,
    specs: Vec<&'a str>,
}

impl<'a> Named<'a> {
    // Adds an argument with this number.
    fn add(
        &mut self,
        request: &Request<'a>,
        number: usize,
        argument: &'a [u8],
        repository: &Repository<'a, 'a>,
    ) -> Result<(), Stop<'a>>
        ensures ok { OnOk result ((front : List (List ℕ)) → length front ≡ number
            → HasNamed request.now repository.now front self.old
            → HasNamed request.now repository.now (front ++ argument.entry.now ∷ []) self.new) }
        ensures refused { IfErr result (StopsAt request.now repository.now number argument.entry.now) }
    {
        if is_remote(request, number, argument, repository)? {
            self.remotes.insert(argument)?;
            return Ok(());
        }
        Ok(self.specs.push(utf8(argument)?)?)
    }
}

// The remotes and the specs that `--remote` and the arguments name.
fn named_in<'a>(
    alloc: Global,
    request: &Request<'a>,
    repository: &Repository<'a, 'a>,
) -> Result<Named<'a>, Stop<'a>>
    ensures ok { IfOk result (HasNamed request.now repository.now (map (λ a. a.now) request.now.arguments.items)) }
    ensures refused { IfErr result (RefusesNamed request.now repository.now) }
{
    let mut named = named_first(alloc, request, repository)?;
    let arguments = request.arguments.as_slice();
    for (number, argument) in arguments.iter().enumerate() {
        named.add(request, number, argument, repository)?;
    }
    Ok(named)
}

// The remote that `--remote` names, before the arguments.
fn named_first<'a>(
    alloc: Global,
    request: &Request<'a>,
    repository: &Repository<'a, 'a>,
) -> Result<Named<'a>, Stop<'a>>
    ensures ok { IfOk result (HasNamed request.now repository.now []) }
    ensures refused { IfErr result (RefusesNamed request.now repository.now) }
{
    let mut remotes = BTreeSet::new(alloc);
    match request.remote {
        None => Ok(Named {
            remotes,
            specs: Vec::new(alloc),
        }),
        Some(name) => {
            if !repository.has_remote(name) {
                return Err(Stop::Refused(Refusal::NoRemoteNoSpec(name)));
            }
            remotes.insert(name)?;
            Ok(Named {
                remotes,
                specs: Vec::new(alloc),
            })
        }
    }
}

// Refuses a remote whose configuration is a file of its own.
fn refuse_old<'a>(
    names: &BTreeSet<&'a [u8]>,
    repository: &Repository<'a, 'a>,
) -> Result<(), Refusal<'a>>
    ensures { MatchResult result (λ _. All (λ n. HasNoOldForm repository.now n.now) names.now.keys)
        (λ e. Any (λ n. IsOldForm repository.now n.now e) names.now.keys) }
{
    for name in names {
        if let Some(refusal) = repository.old_remote(name) {
            return Err(refusal);
        }
    }
    Ok(())
}

// Whether an argument is a remote, and not a spec. With `--remote` all are specs; otherwise the name of a remote is
// one, and any other is refused if it isn't a spec where it is.
fn is_remote<'a>(
    request: &Request<'a>,
    number: usize,
    argument: &'a [u8],
    repository: &Repository<'a, 'a>,
) -> Result<bool, Refusal<'a>>
    ensures { MatchResult result
        (λ is. MatchBool is (IsRemote request.now repository.now argument.entry.now)
        (IsSpec request.now repository.now number argument.entry.now))
        (RefusesArgument request.now repository.now number argument.entry.now) }
{
    if names_remote(request) {
        return Ok(false);
    }
    if repository.has_remote(argument) {
        return Ok(true);
    }
    if is_spec_at(request.dashes, number, argument) {
        return Ok(false);
    }
    Err(Refusal::NoRemoteNoSpec(argument))
}

// Whether an option names the remote.
fn names_remote(request: &Request<'_>) -> bool
    ensures { MatchBool result (request.now.remote ≢ None) (request.now.remote ≡ None) }
{
    match request.remote {
        Some(_) => true,
        None => false,
    }
}

// Whether an argument that names no remote is a spec: after `--`, and without `--` by its looks.
fn is_spec_at(dashes: Option<usize>, number: usize, argument: &[u8]) -> bool
    ensures { MatchBool result (IsSpecAt dashes number argument.now) (IsNoSpecAt dashes number argument.now) }
{
    match dashes {
        Some(before) => is_behind(before, number),
        None => may_be_spec(argument),
    }
}

// Whether an argument with this number is behind so many others.
fn is_behind(before: usize, number: usize) -> bool
    ensures { MatchBool result (before ≤ number) (number < before) }
{
    before <= number
}

// Whether an argument looks like a spec, or like a URL or a spec.
fn may_be_spec(argument: &[u8]) -> bool
    ensures { MatchBool result (LooksLike argument.now looks.Spec ⊎ LooksLike argument.now looks.Either)
        (LooksLike argument.now looks.Url ⊎ LooksLike argument.now looks.Plain) }
{
    match looks_of(argument) {
        Looks::Spec => true,
        Looks::Either => true,
        Looks::Url => false,
        Looks::Plain => false,
    }
}

/// The chosen specs, as texts.
pub fn specs_in<'a>(
    alloc: Global,
    request: &Request<'_>,
    chosen: &Chosen<'a>,
) -> Result<Vec<Text<'a>>, AllocError>
    ensures { IfOk result (λ texts. map given_of texts.items
        ≡ spec_texts (operation_for request.now.push) (map (λ s. s.now) chosen.now.specs.items)) }
{
    texts_for(alloc, operation_for(request), chosen.specs.as_slice())
}

// Specs for an operation, as texts.
fn texts_for<'a>(
    alloc: Global,
    operation: Operation,
    specs: &[&'a str],
) -> Result<Vec<Text<'a>>, AllocError>
    ensures { IfOk result (λ texts. map given_of texts.items
        ≡ spec_texts operation (map (λ s. s.now) specs.now)) }
{
    let mut texts = Vec::with_capacity(alloc, specs.len())?;
    for (index, spec) in specs.iter().enumerate() {
        texts.push(argument(index.saturating_add(1), operation, spec.as_bytes()))?;
    }
    Ok(texts)
}

// The operation of the specs among the arguments.
fn operation_for(request: &Request<'_>) -> Operation
    ensures { result ≡ operation_for request.now.push }
{
    if request.push {
        Operation::Push
    } else {
        Operation::Fetch
    }
}

/// The fetch and push values of these remotes, or of all, in order.
pub fn values_of<'a>(
    alloc: Global,
    settings: &[Setting<'a>],
    remotes: &Option<BTreeSet<&'a [u8]>>,
) -> Result<Vec<Setting<'a>>, AllocError>
    ensures { IfOk result (λ values. AreValuesOf remotes.now settings.now values.items) }
{
    let mut values = Vec::new(alloc);
    for setting in settings {
        add_value(remotes, setting, &mut values)?;
    }
    Ok(values)
}

// Adds a setting, if it is a value of one of these remotes.
fn add_value<'a>(
    remotes: &Option<BTreeSet<&'a [u8]>>,
    setting: &Setting<'a>,
    values: &mut Vec<Setting<'a>>,
) -> Result<(), AllocError>
    ensures { OnOk result ((settings : List Setting) → AreValuesOf remotes.now settings values.old.items
        → AreValuesOf remotes.now (settings ++ setting.now ∷ []) values.new.items) }
{
    if is_value_of(remotes, setting) {
        return Ok(values.push(*setting)?);
    }
    Ok(())
}

// Whether a setting is a fetch or push value of one of these remotes.
fn is_value_of<'a>(remotes: &Option<BTreeSet<&'a [u8]>>, setting: &Setting<'a>) -> bool
    ensures { IsTrue result ↔ IsValueOf remotes.now setting.now }
{
    match name_and_variable(b"remote", setting.key) {
        None => false,
        Some((name, variable)) => is_among(remotes, name) && holds_specs(variable),
    }
}

// Whether a remote is one of these.
fn is_among<'a>(remotes: &Option<BTreeSet<&'a [u8]>>, name: &'a [u8]) -> bool
    ensures { IsTrue result ↔ IsAmong remotes.now name.now }
{
    match remotes {
        None => true,
        Some(names) => names.contains(name),
    }
}

// Whether a variable of a remote holds specs.
fn holds_specs(variable: &[u8]) -> bool
    ensures { IsTrue result ↔ HoldsSpecs variable.now }
{
    variable == b"fetch".as_slice() || variable == b"push".as_slice()
}

/// The specs in settings, as texts, in order.
pub fn texts_of<'a>(alloc: Global, values: &[Setting<'a>]) -> Result<Vec<Text<'a>>, AllocError>
    ensures { IfOk result (λ texts. AreValues values.now (map given_of texts.items)) }
{
    let mut texts = Vec::with_capacity(alloc, values.len())?;
    for setting in values {
        add_text(setting, &mut texts)?;
    }
    Ok(texts)
}

// Adds the spec in a setting, if it has one.
fn add_text<'a>(setting: &Setting<'a>, texts: &mut Vec<Text<'a>>) -> Result<(), AllocError>
    ensures { OnOk result (AddsValues (setting.now ∷ []) (map given_of texts.old.items)
        (map given_of texts.new.items)) }
{
    let Some(operation) = operation_of(setting.key) else {
        return Ok(());
    };
    let Some(bytes) = setting.value else {
        return Ok(());
    };
    texts.push(value(setting, operation, bytes))?;
    Ok(())
}
