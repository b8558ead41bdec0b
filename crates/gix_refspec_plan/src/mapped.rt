//! The mappings of specs, with the destinations that Git completes.

ghost use Rattle.std.specs.Prelude.{◌≡◌, ◌↔◌, map, option_map, IfOk, IsTrue, MatchOption, Some};
ghost use Rattle.std.specs.List.{AllZip};
ghost use Rattle.bstr.specs.BStr.{bstr_bytes};
ghost use Rattle.bstr.specs.Owned.{bstring_bytes};
ghost use Rattle.gix_refspec_text.specs.Views.Spec.{reading_of};
ghost use Rattle.gix_refspec_match.specs.Views.Mapping.{mapped_of, name_bytes, ref_of, start_of};
ghost use Rattle.gix_refspec.specs.Matching.RefNames.{IsValidSource};
ghost use Rattle.gix_refspec_plan.specs.Matching.Plan.{AreMapped, CanBeWritten, IsCompleted, IsSound, IsUnwritableAt};
ghost use Rattle.gix_refspec_plan.specs.Private.Plans.{AreMappedBy, AreNewDestinations, IsNewDestination};
ghost use Rattle.gix_refspec_plan.specs.Views.Plan.{asked_of};

use super::Asked;
use bstr::{BStr, BString};
use gix_refspec::match_group::ref_names::{InvalidSide, is_ref_name};
use gix_refspec::match_group::{Item, Mapping, NameRef, SourceRef};
use gix_refspec_match::match_forward;
use gix_refspec_text::RefSpecRef;
use gix_refspec_text::name::name_partial;
use gix_refspec_text::side::{split_at_first_star, strip_refs, written_name};
use std::alloc::{AllocError, Global};

// The mappings from left to right that are kept, with completed destinations. These are borrowed from the specs, and from
// their completed names.
pub(crate) fn mapped<'n, 's: 'n, 'item>(
    alloc: Global,
    asked: &[Asked<'s>],
    names: &'n [Option<BString>],
    items: &[Item<'item>],
) -> Result<Vec<Mapping<'item, 'n>>, AllocError>
    requires { AreNewDestinations
        (map (λ a. a.reading) (map asked_of asked.now)) (map (option_map bstring_bytes) names.now) }
    ensures { IfOk result (λ all. AreMapped
        (map asked_of asked.now) (map ref_of items.now) (map mapped_of all.items)) }
{
    let specs = specs_in(alloc, asked)?;
    mapped_by_specs(alloc, specs.as_slice(), names, items)
}

// `completed_names` of specs with where they come from.
pub(crate) fn names_in(
    alloc: Global,
    asked: &[Asked<'_>],
) -> Result<Vec<Option<BString>>, AllocError>
    ensures { IfOk result (λ names. AreNewDestinations
        (map (λ a. a.reading) (map asked_of asked.now)) (map (option_map bstring_bytes) names.items)) }
{
    let specs = specs_in(alloc, asked)?;
    completed_names(alloc, specs.as_slice())
}

// The specs, without where they come from.
pub(crate) fn specs_in<'spec>(
    alloc: Global,
    asked: &[Asked<'spec>],
) -> Result<Vec<RefSpecRef<'spec>>, AllocError>
    ensures { IfOk result (λ specs. map reading_of specs.items ≡
        map (λ a. a.reading) (map asked_of asked.now)) }
{
    let mut specs = Vec::with_capacity(alloc, asked.len())?;
    for one in asked {
        specs.push(one.spec)?;
    }
    Ok(specs)
}

// `mapped` of plain specs.
pub(crate) fn mapped_by_specs<'n, 's: 'n, 'item>(
    alloc: Global,
    specs: &[RefSpecRef<'s>],
    names: &'n [Option<BString>],
    items: &[Item<'item>],
) -> Result<Vec<Mapping<'item, 'n>>, AllocError>
    requires { AreNewDestinations (map reading_of specs.now) (map (option_map bstring_bytes) names.now) }
    ensures { IfOk result (λ all. AreMappedBy
        (map reading_of specs.now) (map ref_of items.now) (map mapped_of all.items)) }
{
    let completed = completed_specs(alloc, specs, names)?;
    match_forward(alloc, completed.as_slice(), items)
}

/// The destination that each spec gets. `None` where it keeps its own, or has none. Fails if memory runs out.
pub fn completed_names(
    alloc: Global,
    specs: &[RefSpecRef<'_>],
) -> Result<Vec<Option<BString>>, AllocError>
    ensures { IfOk result (λ names. AreNewDestinations
        (map reading_of specs.now) (map (option_map bstring_bytes) names.items)) }
{
    let mut names = Vec::with_capacity(alloc, specs.len())?;
    for spec in specs {
        names.push(completed_name(alloc, spec)?)?;
    }
    Ok(names)
}

// The destination that a spec gets. A pattern, and what begins `refs/`, stays.
fn completed_name(alloc: Global, spec: &RefSpecRef<'_>) -> Result<Option<BString>, AllocError>
    ensures { IfOk result (λ name. IsNewDestination
        (reading_of spec.now).destination (option_map bstring_bytes name)) }
{
    let Some(destination) = spec.destination() else {
        return Ok(None);
    };
    let destination = destination.as_bytes();
    if split_at_first_star(destination).is_some() {
        return Ok(None);
    }
    if strip_refs(destination).is_some() {
        return Ok(None);
    }
    Ok(Some(written_name(alloc, destination)?))
}

/// The specs with these destinations. Fails if memory runs out.
pub fn completed_specs<'n, 's: 'n>(
    alloc: Global,
    specs: &[RefSpecRef<'s>],
    names: &'n [Option<BString>],
) -> Result<Vec<RefSpecRef<'n>>, AllocError>
    requires { AreNewDestinations (map reading_of specs.now) (map (option_map bstring_bytes) names.now) }
    ensures { IfOk result (λ completed. AllZip IsCompleted
        (map reading_of specs.now) (map reading_of completed.items)) }
{
    let mut completed = Vec::with_capacity(alloc, specs.len())?;
    for (index, spec) in specs.iter().enumerate() {
        completed.push(completed_spec(*spec, &names[index])?)?;
    }
    Ok(completed)
}

// What is put before a valid name leaves it valid, so this doesn't fail.
fn completed_spec<'n>(
    spec: RefSpecRef<'n>,
    name: &'n Option<BString>,
) -> Result<RefSpecRef<'n>, AllocError>
    requires { IsNewDestination (reading_of spec).destination (option_map bstring_bytes name.now) }
    ensures { IfOk result (λ completed. IsCompleted (reading_of spec.entry) (reading_of completed)) }
{
    let Some(name) = name else {
        return Ok(spec);
    };
    if name_partial(name.as_bstr()).is_err() {
        return Err(AllocError);
    }
    Ok(spec.with_destination(name.as_bstr()))
}

// The same mappings, with destinations of their own.
pub(crate) fn owned<'item, 'n>(
    alloc: Global,
    mappings: Vec<Mapping<'item, '_>>,
) -> Result<Vec<Mapping<'item, 'n>>, AllocError>
    ensures { IfOk result (λ all. map mapped_of all.items ≡ map mapped_of mappings.entry.items) }
{
    let mut all = Vec::with_capacity(alloc, mappings.len())?;
    for mapping in mappings {
        all.push(owned_mapping(alloc, mapping)?)?;
    }
    Ok(all)
}

fn owned_mapping<'item, 'n>(
    alloc: Global,
    mapping: Mapping<'item, '_>,
) -> Result<Mapping<'item, 'n>, AllocError>
    ensures { IfOk result (λ owned. mapped_of owned ≡ mapped_of mapping.entry) }
{
    let Mapping {
        item_index,
        lhs,
        rhs,
        spec_index,
    } = mapping;
    let rhs = owned_name(alloc, rhs)?;
    Ok(Mapping {
        item_index,
        lhs,
        rhs,
        spec_index,
    })
}

fn owned_name<'n>(
    alloc: Global,
    name: Option<NameRef<'_>>,
) -> Result<Option<NameRef<'n>>, AllocError>
    ensures { IfOk result (λ owned. option_map name_bytes owned ≡ option_map name_bytes name.entry) }
{
    let Some(name) = name else {
        return Ok(None);
    };
    Ok(Some(NameRef::Owned(name.into_owned(alloc)?)))
}

// The side of a mapping that isn't a valid ref name, where there is one. A destination has to begin `refs/`.
pub(crate) fn unwritable_side(mapping: &Mapping<'_, '_>) -> Option<InvalidSide>
    ensures { MatchOption result
        (IsSound (mapped_of mapping.now))
        (λ side. IsUnwritableAt side (mapped_of mapping.now)) }
{
    match (is_valid_source(&mapping.lhs), can_be_written(&mapping.rhs)) {
        (true, true) => None,
        (false, true) => Some(InvalidSide::Source),
        (true, false) => Some(InvalidSide::Destination),
        (false, false) => Some(InvalidSide::Both),
    }
}

/// Whether both sides of a mapping are valid.
pub fn is_sound(mapping: &Mapping<'_, '_>) -> bool
    ensures { IsTrue result ↔ IsSound (mapped_of mapping.now) }
{
    is_valid_source(&mapping.lhs) && can_be_written(&mapping.rhs)
}

/// Whether a source is a valid ref name, or an object id.
pub fn is_valid_source(source: &SourceRef<'_>) -> bool
    ensures { IsTrue result ↔ IsValidSource (start_of source.now) }
{
    match source {
        SourceRef::FullName(name) => is_ref_name(name.as_bstr().as_bytes()),
        SourceRef::ObjectId(_) => true,
    }
}

fn can_be_written(destination: &Option<NameRef<'_>>) -> bool
    ensures { IsTrue result ↔ CanBeWritten (option_map name_bytes destination.now) }
{
    match destination {
        None => true,
        Some(name) => is_below_refs(name.as_bstr()),
    }
}

/// Whether a name begins `refs/` and is valid.
pub fn is_below_refs(name: BStr<'_>) -> bool
    ensures { IsTrue result ↔ CanBeWritten (Some (bstr_bytes name.entry)) }
{
    strip_refs(name.as_bytes()).is_some() && name_partial(name).is_ok()
}
