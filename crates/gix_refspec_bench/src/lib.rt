//! The entry point of a benchmark that times parsing, printing, matching and validation within its own
//! process.
#![tactic(auto)]

use bstr::BStr;
use gix_refspec::match_group::Item;
use gix_refspec::match_group::match_lhs::Outcome;
use gix_refspec::match_group::validate::Refusal;
use gix_refspec::oid::{Kind, ObjectId};
use gix_refspec::parsing::Operation;
use gix_refspec::{MatchGroup, parse};
use std::alloc::{AllocError, Global};

/// Does the work named by `work`, `times` times. Specs and names are one per line, without a newline at
/// the end of either text. All refs point to one object.
///
/// `match` reads fetch specs and ref names, and matches them from left to right; `reverse` matches
/// names of local refs from right to left; and `validate` validates each outcome of `match` too.
/// `parse` and `print` parse specs, for a push if `names` is `push`, else for a fetch, and `print`
/// prints each accepted one too.
///
/// Returns 0, and sets `count` to the total number of results: mappings; mappings left or removed by a
/// validation, or conflicts; accepted specs; or printed bytes. Returns 1 if the work is unknown, memory
/// runs out, or a spec to be matched is refused, and then `count` is unchanged.
#[unsafe(no_mangle)]
pub extern "C" fn gix_refspec_bench(
    alloc: Global,
    work: &[u8],
    specs: &[u8],
    names: &[u8],
    times: usize,
    count: &mut usize,
) -> u8 {
    match result_count(alloc, work, specs, names, times) {
        None => 1,
        Some(results) => {
            *count = results;
            0
        }
    }
}

// The total number of results of the work with this name. `None` if there is no such work, or it fails.
fn result_count(
    alloc: Global,
    work: &[u8],
    specs: &[u8],
    names: &[u8],
    times: usize,
) -> Option<usize> {
    match work {
        b"match" => match_often(alloc, Work::Match, specs, names, times),
        b"reverse" => match_often(alloc, Work::Reverse, specs, names, times),
        b"validate" => match_often(alloc, Work::Validate, specs, names, times),
        b"parse" => parse_often(alloc, specs, named(names), times, false),
        b"print" => parse_often(alloc, specs, named(names), times, true),
        _ => None,
    }
}

// What is done with a group and items.
#[derive(Clone, Copy)]
enum Work {
    // Matching from left to right.
    Match,
    // Matching from right to left.
    Reverse,
    // Matching from left to right, and validating the outcome.
    Validate,
}

// The total number of results of work on a group and items.
fn match_often(
    alloc: Global,
    work: Work,
    specs: &[u8],
    names: &[u8],
    times: usize,
) -> Option<usize> {
    let target = ObjectId::null(Kind::Sha1);
    let mut group = group_of(alloc, specs)?;
    let items = items_of(alloc, names, &target).ok()?;
    let mut results: usize = 0;
    for _ in 0..times {
        let (back, found) = match_once(alloc, work, group, items.as_slice())?;
        group = back;
        results = results.saturating_add(found);
    }
    Some(results)
}

// Does the work once. Returns the group, and the number of results.
fn match_once<'a>(
    alloc: Global,
    work: Work,
    group: MatchGroup<'a>,
    items: &[Item<'_>],
) -> Option<(MatchGroup<'a>, usize)> {
    match work {
        Work::Match => {
            let outcome = group.match_lhs(alloc, items).ok()?;
            let mappings = outcome.mappings.len();
            Some((outcome.group, mappings))
        }
        Work::Reverse => {
            let outcome = group.match_rhs(alloc, items).ok()?;
            let mappings = outcome.mappings.len();
            Some((outcome.group, mappings))
        }
        Work::Validate => {
            let copy = group.clone(alloc).ok()?;
            let outcome = copy.match_lhs(alloc, items).ok()?;
            Some((group, validated_count(alloc, outcome)?))
        }
    }
}

// How many mappings a validation left or removed, or how many conflicts it found.
fn validated_count(alloc: Global, outcome: Outcome<'_, '_>) -> Option<usize> {
    if !outcome.indexes_fit() {
        return None;
    }
    match outcome.validated(alloc) {
        Ok((rest, fixes)) => Some(rest.mappings.len().saturating_add(fixes.len())),
        Err(Refusal::Conflicts(error)) => Some(error.issues.len()),
        Err(Refusal::Memory(_)) => None,
    }
}

// `push` names a push, and anything else a fetch.
fn named(operation: &[u8]) -> Operation {
    match operation {
        b"push" => Operation::Push,
        _ => Operation::Fetch,
    }
}

// The total number of accepted specs, or of the bytes that they are printed as.
fn parse_often(
    alloc: Global,
    specs: &[u8],
    operation: Operation,
    times: usize,
    prints: bool,
) -> Option<usize> {
    let lines = lines_of(alloc, specs).ok()?;
    let mut results: usize = 0;
    for _ in 0..times {
        for line in lines.iter() {
            if let Ok(spec) = parse(alloc, *line, operation) {
                let found = if prints {
                    spec.to_bstring(alloc).ok()?.len()
                } else {
                    1
                };
                results = results.saturating_add(found);
            }
        }
    }
    Some(results)
}

// The lines of a text. They are counted first, so that the vector never grows.
fn lines_of(alloc: Global, text: &[u8]) -> Result<Vec<BStr<'_>>, AllocError> {
    let mut lines = Vec::with_capacity(alloc, line_count(text))?;
    for line in text.split(|b| *b == b'\n') {
        lines.push(BStr::new(line))?;
    }
    Ok(lines)
}

fn line_count(text: &[u8]) -> usize {
    let mut count: usize = 0;
    for _ in text.split(|b| *b == b'\n') {
        count = count.saturating_add(1);
    }
    count
}

// The fetch specs of the lines. `None` if one is refused or memory runs out.
fn group_of(alloc: Global, lines: &[u8]) -> Option<MatchGroup<'_>> {
    let mut group = MatchGroup::new(alloc);
    for line in lines.split(|b| *b == b'\n') {
        let spec = parse(alloc, BStr::new(line), Operation::Fetch).ok()?;
        group.specs.push(spec).ok()?;
    }
    Some(group)
}

// A ref for each line, with the line as its name.
fn items_of<'a>(
    alloc: Global,
    lines: &'a [u8],
    target: &'a ObjectId,
) -> Result<Vec<Item<'a>>, AllocError> {
    let mut items = Vec::with_capacity(alloc, line_count(lines))?;
    for line in lines.split(|b| *b == b'\n') {
        items.push(Item {
            full_ref_name: BStr::new(line),
            target,
            object: None,
        })?;
    }
    Ok(items)
}
