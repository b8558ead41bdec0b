//! What each spec of a fetch has to do with one local ref: whether it maps a ref of the remote to it, and what becomes of
//! that.

ghost use Rattle.std.specs.Prelude.{◌≡◌, ◌≢◌, IfOk, IsTrue, MatchBool, MatchOption, None, Some, map, ⊤};
ghost use Rattle.std.specs.List.{All};
ghost use Rattle.gix_refspec.specs.Views.Spec.{reading_of};
ghost use Rattle.gix_refspec_why.specs.Views.Why.{effect_of};
ghost use Rattle.refspec_commands.specs.Locals.{AreRoles, HasRole, IsLacked, IsLocalAnswer, IsMissed, IsObject, IsRoleOf, IsSource, IsUnwritten, IsWritten, Takes, Writes, WritesAny};

use crate::fates::question::{Known, Question};
use crate::fates::stops::{Stop, stop_of};
use bstr::{BStr, BString};
use gix_refspec::RefSpecRef;
use gix_refspec::match_group::SourceRef;
use gix_refspec::match_group::ref_names::is_ref_name;
use gix_refspec::oid::ObjectId;
use gix_refspec_match::needle::word_between;
use gix_refspec_match::single::MapName;
use gix_refspec_plan::mapped::{completed_names, completed_specs};
use gix_refspec_text::side::{candidates, joined, split_at_first_star, strip_refs};
use gix_refspec_why::sources::pattern_mismatch;
use gix_refspec_why::{Effect, Effects, Fate, Mismatch, why};
use refspec_io::canonical::canonical_texts;
use std::alloc::{AllocError, Global};
use std::collections::{BTreeMap, BTreeSet};

/// The answer to a question about a local ref.
#[derive(Debug, Drop)]
pub struct LocalAnswer {
    /// What each spec has to do with it, in order.
    pub roles: Vec<Role>,
    /// The refs of the remote that specs map to it.
    pub sources: Vec<Source>,
    /// The canonical texts of the specs, in order.
    pub texts: Vec<BString>,
    /// What stops the whole fetch. `None` if nothing does, as far as is known.
    pub stop: Option<Stop>,
}

/// What a spec has to do with a local ref.
#[derive(Clone, Copy, Debug, PartialEq, Eq)]
pub enum Role {
    /// It has no destination.
    NoDestination,
    /// Its destination doesn't match the name, for this reason.
    Unmatched(Mismatch),
    /// It maps an object to it.
    Object,
    /// It maps the source at this index to it, which the remote lacks.
    Missing(usize),
    /// It maps a source to it.
    Mapped(Mapped),
}

/// That a spec maps a source to a local ref.
#[derive(Clone, Copy, Debug, PartialEq, Eq)]
pub struct Mapped {
    /// The index of the source.
    pub source: usize,
    /// What becomes of it by this spec.
    pub fate: Fate,
}

/// A ref of the remote, and what each spec does with it.
#[derive(Debug, Drop)]
pub struct Source {
    pub name: BString,
    pub effects: Effects,
}

impl LocalAnswer {
    /// Whether a fetch writes the local ref: some spec does so, and nothing stops the fetch.
    pub fn is_written(&self, name: &[u8]) -> bool
        ensures { MatchBool result (IsWritten name.now self.now) (IsUnwritten name.now self.now) }
    {
        if !is_ref_name(name) {
            return false;
        }
        if !has_writer(self.roles.as_slice()) {
            return false;
        }
        !self.is_halted()
    }

    // Whether something stops the fetch.
    fn is_halted(&self) -> bool
        ensures { MatchBool result (self.now.stop ≢ None) (self.now.stop ≡ None) }
    {
        match &self.stop {
            None => false,
            Some(_) => true,
        }
    }
}

// Whether some spec writes the local ref, unless something stops the fetch.
pub(crate) fn has_writer(roles: &[Role]) -> bool
    ensures { MatchBool result (WritesAny roles.now) (All (λ role. ¬ (Writes role)) roles.now) }
{
    for role in roles {
        if writes(*role) {
            return true;
        }
    }
    false
}

// Whether a spec with this role writes the local ref.
fn writes(role: Role) -> bool
    ensures { MatchBool result (Writes role) (¬ (Writes role)) }
{
    match role {
        Role::NoDestination | Role::Unmatched(_) | Role::Missing(_) => false,
        Role::Object => true,
        Role::Mapped(mapped) => mapped.fate == Fate::Written,
    }
}

/// The answer to a question about the local ref of this name. What becomes of a source is looked up once, however many
/// specs map it. Fails if memory runs out.
pub fn local_answer_to(
    alloc: Global,
    question: &Question<'_, '_, '_>,
) -> Result<LocalAnswer, AllocError>
    ensures { IfOk result (IsLocalAnswer question.now) }
{
    let names = completed_names(alloc, question.specs)?;
    let specs = completed_specs(alloc, question.specs, names.as_slice())?;
    let asked = source_names(alloc, question, specs.as_slice())?;
    let found = sources_of(alloc, question, asked.as_slice())?;
    let lookup = Lookup {
        question,
        sources: found.sources.as_slice(),
        at: found.at.as_slice(),
    };
    let roles = roles_of(alloc, &lookup, specs.as_slice())?;
    let texts = canonical_texts(alloc, question.specs)?;
    let stop = stop_of(alloc, question.known, question.specs, question.refs)?;
    Ok(LocalAnswer {
        roles,
        sources: found.sources,
        texts,
        stop,
    })
}

// The ref of the remote that each of these specs, whose destinations are completed, maps to the local ref. `None` if it
// maps none to it.
fn source_names(
    alloc: Global,
    question: &Question<'_, '_, '_>,
    specs: &[RefSpecRef<'_>],
) -> Result<Vec<Option<BString>>, AllocError> {
    let mut listed = BTreeSet::new(alloc);
    for item in question.refs {
        listed.insert(item.full_ref_name.as_bytes())?;
    }
    let mut names = Vec::with_capacity(alloc, specs.len())?;
    for spec in specs {
        names.push(source_name(alloc, question.name, spec, &listed)?)?;
    }
    Ok(names)
}

// The ref that a spec maps to the local ref of this name, of a remote that has refs of these names.
fn source_name(
    alloc: Global,
    name: &[u8],
    spec: &RefSpecRef<'_>,
    listed: &BTreeSet<&[u8]>,
) -> Result<Option<BString>, AllocError> {
    let Some(mapping) = spec.map_back(alloc, BStr::new(name))? else {
        return Ok(None);
    };
    let SourceRef::FullName(usual) = &mapping.lhs else {
        return Ok(None);
    };
    match spec.source() {
        Some(source) if is_partial(source.as_bytes()) => {
            taken_name(alloc, source.as_bytes(), usual.as_bstr().as_bytes(), listed)
        }
        _ => Ok(Some(BString::from_slice(alloc, usual.as_bstr())?)),
    }
}

// Whether a source is a partial name.
fn is_partial(source: &[u8]) -> bool {
    split_at_first_star(source).is_none()
        && strip_refs(source).is_none()
        && ObjectId::from_hex(source).is_err()
}

// The ref that a partial name takes: the first of its candidates that is listed; if none is, `HEAD` is itself, and others
// become their usual name.
fn taken_name(
    alloc: Global,
    partial: &[u8],
    usual: &[u8],
    listed: &BTreeSet<&[u8]>,
) -> Result<Option<BString>, AllocError> {
    for candidate in &candidates(alloc, partial)? {
        if listed.contains(candidate.as_bytes()) {
            return Ok(Some(BString::from_slice(alloc, candidate.as_bstr())?));
        }
    }
    let name = if partial == b"HEAD".as_slice() {
        partial
    } else {
        usual
    };
    Ok(Some(joined(alloc, name, b"", b"")?))
}

// Sources, each once, and the index of that of each spec.
#[derive(Drop)]
struct Found {
    sources: Vec<Source>,
    at: Vec<Option<usize>>,
}

// What each spec does with the sources of these names.
fn sources_of(
    alloc: Global,
    question: &Question<'_, '_, '_>,
    names: &[Option<BString>],
) -> Result<Found, AllocError>
    ensures { IfOk result (λ found. All (IsSource question.now) found.sources.items) }
{
    let indexes = indexes_of(alloc, names)?;
    let mut sources = Vec::with_capacity(alloc, indexes.distinct.len())?;
    for name in indexes.distinct.as_slice() {
        sources.push(source_of(alloc, question, *name)?)?;
    }
    Ok(Found {
        sources,
        at: indexes.at,
    })
}

// The different ones of some names, and the index there of each name.
#[derive(Drop)]
struct Indexes<'n> {
    distinct: Vec<&'n [u8]>,
    at: Vec<Option<usize>>,
}

fn indexes_of<'n>(alloc: Global, names: &'n [Option<BString>]) -> Result<Indexes<'n>, AllocError> {
    let mut known = BTreeMap::new(alloc);
    let mut distinct = Vec::new(alloc);
    let mut at = Vec::with_capacity(alloc, names.len())?;
    for text in names {
        let Some(text) = text else {
            at.push(None)?;
            continue;
        };
        let name = text.as_bytes();
        if let Some(index) = known.get(name) {
            at.push(Some(*index))?;
            continue;
        }
        at.push(Some(distinct.len()))?;
        known.insert(name, distinct.len())?;
        distinct.push(name)?;
    }
    Ok(Indexes { distinct, at })
}

// What each spec does with the source of this name.
fn source_of(
    alloc: Global,
    question: &Question<'_, '_, '_>,
    name: &[u8],
) -> Result<Source, AllocError>
    ensures { IfOk result (IsSource question.now) }
{
    let name = BString::from_slice(alloc, BStr::new(name))?;
    let effects = why(alloc, question.specs, question.refs, name.as_bstr())?;
    Ok(Source { name, effects })
}

// A question, the sources that may be mapped, and the index of that of each spec.
#[derive(Clone, Copy, Debug)]
struct Lookup<'r, 'q, 'spec, 'item> {
    question: &'r Question<'q, 'spec, 'item>,
    sources: &'r [Source],
    at: &'r [Option<usize>],
}

// The role of each of these specs, whose destinations are completed.
fn roles_of(
    alloc: Global,
    lookup: &Lookup<'_, '_, '_, '_>,
    specs: &[RefSpecRef<'_>],
) -> Result<Vec<Role>, AllocError>
    ensures { IfOk result (λ roles. AreRoles lookup.now.question.now lookup.now.sources.now
        (map reading_of specs.now) roles.items) }
{
    let mut roles = Vec::with_capacity(alloc, specs.len())?;
    for (index, spec) in specs.iter().enumerate() {
        roles.push(role_of(lookup, index, spec)?)?;
    }
    Ok(roles)
}

// The role of the spec at an index.
fn role_of(
    lookup: &Lookup<'_, '_, '_, '_>,
    index: usize,
    spec: &RefSpecRef<'_>,
) -> Result<Role, AllocError>
    ensures { IfOk result (HasRole lookup.now.question.now lookup.now.sources.now index (reading_of spec.now)) }
{
    let Some(destination) = spec.destination() else {
        return Ok(Role::NoDestination);
    };
    let destination = destination.as_bytes();
    if let Some(mismatch) = mismatch_with(destination, lookup.question.name) {
        return Ok(Role::Unmatched(mismatch));
    }
    if has_object(spec) {
        return Ok(Role::Object);
    }
    role_at(lookup, index)
}

// Why a destination doesn't match a name. `None` if it does.
fn mismatch_with(destination: &[u8], name: &[u8]) -> Option<Mismatch>
    ensures { MatchOption result (Takes destination.now name.now) (IsMissed destination.now name.now) }
{
    let Some((before, after)) = split_at_first_star(destination) else {
        if destination == name {
            return None;
        }
        return Some(Mismatch::OtherName);
    };
    match word_between(before, after, name) {
        None => Some(pattern_mismatch(before, after, name)),
        Some(_) => None,
    }
}

// Whether the source of a spec is an object id.
fn has_object(spec: &RefSpecRef<'_>) -> bool
    ensures { MatchBool result (IsObject (reading_of spec.now)) ⊤ }
{
    match spec.source() {
        None => false,
        Some(source) => ObjectId::from_hex(source.as_bytes()).is_ok(),
    }
}

// The role of the spec at an index, which maps its source to the local ref: so this doesn't fail.
fn role_at(lookup: &Lookup<'_, '_, '_, '_>, index: usize) -> Result<Role, AllocError>
    ensures { IfOk result (IsRoleOf lookup.now.question.now lookup.now.sources.now index) }
{
    let Some(Some(at)) = lookup.at.get(index) else {
        return Err(AllocError);
    };
    let Some(source) = lookup.sources.get(*at) else {
        return Err(AllocError);
    };
    let Some(effect) = source.effects.of_specs.get(index) else {
        return Err(AllocError);
    };
    if !is_stored_in(effect, lookup.question.name) {
        return Err(AllocError);
    }
    if lacks(lookup.question.known, &source.effects) {
        return Ok(Role::Missing(*at));
    }
    Ok(Role::Mapped(Mapped {
        source: *at,
        fate: effect.fate,
    }))
}

// Whether a spec maps the ref to the destination of this name.
fn is_stored_in(effect: &Effect, name: &[u8]) -> bool
    ensures { IsTrue result → (effect_of effect.now).destination ≡ Some name.now }
{
    match &effect.destination {
        None => false,
        Some(destination) => destination.as_bytes() == name,
    }
}

// Whether the remote is known to lack a ref.
fn lacks(known: Known, effects: &Effects) -> bool
    ensures { MatchBool result (IsLacked known effects.now.item_index) (¬ (IsLacked known effects.now.item_index)) }
{
    match known {
        Known::Assumed => false,
        Known::Listed => match effects.item_index {
            None => true,
            Some(_) => false,
        },
    }
}
