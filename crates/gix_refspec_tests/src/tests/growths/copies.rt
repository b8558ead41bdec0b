//! Copies of specs, names, sources, mappings, groups and fixes.

use super::super::mapping::group_of;
use super::{answer_of, mark, marked};
use bstr::{BStr, BString};
use gix_refspec::match_group::validate::Fix;
use gix_refspec::match_group::{Mapping, NameRef, SourceRef};
use gix_refspec::parsing::Operation;
use gix_refspec::{MatchGroup, RefSpecRef, parse};
use std::alloc::Global;
use std::fmt::Debug;
use std::process::Abort;
use std::test::Fail;

// A spec of two sides.
fn two_sides(alloc: Global) -> Result<RefSpecRef<'static>, Fail> {
    Ok(parse(
        alloc,
        BStr::new(b"+refs/heads/*:refs/x/*"),
        Operation::Fetch,
    )?)
}

// A name that is owned.
fn owned_name(alloc: Global) -> Result<NameRef<'static>, Fail> {
    Ok(NameRef::Owned(BString::from_slice(alloc, b"refs/heads/a")?))
}

// Says whether a copy was made, which equals what it was made of.
fn check_copy<T: PartialEq + Debug + Drop, E: Drop>(
    rt: &(impl Abort + Print),
    copied: Result<T, E>,
    wanted: &T,
) -> Result<(), Fail> {
    if let Some(copy) = answer_of(rt, copied)? {
        assert!(rt; copy == *wanted, "{copy:?}");
    }
    Ok(())
}

// Says whether a group was made, which has these specs.
fn check_group<E: Drop>(
    rt: &(impl Abort + Print),
    made: Result<MatchGroup<'_>, E>,
    wanted: &[RefSpecRef<'_>],
) -> Result<(), Fail> {
    if let Some(group) = answer_of(rt, made)? {
        assert!(rt; group.specs.as_slice() == wanted);
    }
    Ok(())
}

#[test]
fn owns_specs(rt: HostRuntime) -> Result<(), Fail> {
    let alloc = rt.alloc();
    let spec = two_sides(alloc)?;
    if let Some(owned) = answer_of(&rt, marked!(alloc, spec.to_owned(alloc)))? {
        assert!(&rt; owned.to_ref() == spec, "{owned:?}");
    }
    Ok(())
}

#[test]
fn clones_specs(rt: HostRuntime) -> Result<(), Fail> {
    let alloc = rt.alloc();
    let spec = two_sides(alloc)?.to_owned(alloc)?;
    check_copy(&rt, marked!(alloc, spec.clone(alloc)), &spec)
}

#[test]
fn owns_names(rt: HostRuntime) -> Result<(), Fail> {
    let alloc = rt.alloc();
    let name = NameRef::Borrowed(BStr::new(b"refs/heads/a"));
    if let Some(owned) = answer_of(&rt, marked!(alloc, name.into_owned(alloc)))? {
        assert_eq!(&rt; owned.as_bytes(), b"refs/heads/a".as_slice());
    }
    Ok(())
}

#[test]
fn clones_names(rt: HostRuntime) -> Result<(), Fail> {
    let alloc = rt.alloc();
    let name = owned_name(alloc)?;
    check_copy(&rt, marked!(alloc, name.clone(alloc)), &name)
}

#[test]
fn owns_sources(rt: HostRuntime) -> Result<(), Fail> {
    let alloc = rt.alloc();
    let source = SourceRef::FullName(NameRef::Borrowed(BStr::new(b"refs/heads/a")));
    if let Some(owned) = answer_of(&rt, marked!(alloc, source.into_owned(alloc)))? {
        assert_eq!(&rt; format!(in alloc; "{owned}")?.as_str(), "refs/heads/a");
    }
    Ok(())
}

#[test]
fn clones_sources(rt: HostRuntime) -> Result<(), Fail> {
    let alloc = rt.alloc();
    let source = SourceRef::FullName(owned_name(alloc)?);
    check_copy(&rt, marked!(alloc, source.clone(alloc)), &source)
}

#[test]
fn clones_mappings(rt: HostRuntime) -> Result<(), Fail> {
    let alloc = rt.alloc();
    let mapping = Mapping {
        item_index: Some(3),
        lhs: SourceRef::FullName(owned_name(alloc)?),
        rhs: Some(owned_name(alloc)?),
        spec_index: 5,
    };
    if let Some(copy) = answer_of(&rt, marked!(alloc, mapping.clone(alloc)))? {
        assert!(&rt; copy == mapping, "{copy:?}");
        assert!(&rt; copy.item_index == Some(3) && copy.spec_index == 5);
    }
    Ok(())
}

#[test]
fn clones_fixes(rt: HostRuntime) -> Result<(), Fail> {
    let alloc = rt.alloc();
    let fix = Fix::MappingWithPartialDestinationRemoved {
        name: BString::from_slice(alloc, b"foo")?,
        spec: two_sides(alloc)?.to_owned(alloc)?,
    };
    check_copy(&rt, marked!(alloc, fix.clone(alloc)), &fix)
}

#[test]
fn gathers_fetches(rt: HostRuntime) -> Result<(), Fail> {
    let alloc = rt.alloc();
    let specs = [two_sides(alloc)?, two_sides(alloc)?];
    check_group(
        &rt,
        marked!(alloc, MatchGroup::from_fetch_specs(alloc, specs)),
        &specs,
    )
}

#[test]
fn gathers_pushes(rt: HostRuntime) -> Result<(), Fail> {
    let alloc = rt.alloc();
    let specs = [parse(alloc, BStr::new(b"main"), Operation::Push)?];
    check_group(
        &rt,
        marked!(alloc, MatchGroup::from_push_specs(alloc, specs)),
        &specs,
    )
}

#[test]
fn clones_groups(rt: HostRuntime) -> Result<(), Fail> {
    let alloc = rt.alloc();
    let group = group_of(alloc, Operation::Fetch, "a:b ^c")?;
    check_group(
        &rt,
        marked!(alloc, group.clone(alloc)),
        group.specs.as_slice(),
    )
}
