//! The report of the conflicts of a plan.

ghost use Rattle.std.specs.Prelude.{◌≡◌, ◌∷◌, ◌++◌, ◌<◌, ◌≤◌, [], length, map, option_map, take, drop, IfOk, OnOk};
ghost use Rattle.std.specs.List.{slice_get};
ghost use Rattle.std.specs.List.Sorted.{IsStrictlySortedBy};
ghost use Rattle.refspec_json.specs.Views.{claim_texts};
ghost use Rattle.refspec_io.specs.Json.{AddsObjects};
ghost use Rattle.refspec_fetch.specs.Conflicts.{AddsConflicts, AddsEachConflict, AreContests, AreOrdered};
ghost use Rattle.refspec_fetch.specs.Conflicts.{IsConflict, IsContestOf, IsRun, WritesClaim, WritesClaims};
ghost use Rattle.refspec_fetch.specs.Conflicts.{WritesConflict, claim_cmp, claim_with, claims_of, conflict_line};
ghost use Rattle.refspec_fetch.specs.Conflicts.{contest_of, those_at};
ghost use Rattle.gix_refspec_plan.specs.Views.Plan.{planned_of};
ghost use Rattle.refspec_fetch.specs.Origins.{note_of};
ghost use Rattle.refspec_fetch.specs.Verdicts.{in_conflict_of};

use crate::origins::{SpecTexts, note_of, origin_name};
use crate::updates::destination_or;
use bstr::{BStr, BString};
use gix_refspec_plan::{Origin, Update, Verdict};
use refspec_io::call::{Form, Limit};
use refspec_io::counts::{reported_count, write_more};
use refspec_io::fields::source_of;
use refspec_io::json;
use refspec_io::quote::write_in_message;
use refspec_io::report::{Report, write_advice};
use refspec_json::Claim;
use std::alloc::{AllocError, Global};

const ADVICE: &str =
    "Give one of these specs another destination, or leave a source out by a spec such as `^refs/heads/x`.";

const TRACKED_ADVICE: &str =
    "Give `git fetch` only one of these refs, or the option `--refmap=`, with which the configuration doesn't count.";

// A destination that several sources are mapped to, and the indexes of the updates that do so, in order.
#[derive(Debug, Drop)]
struct Contest {
    destination: BString,
    indexes: Vec<usize>,
}

// A destination, and the index of an update to it.
#[derive(Clone, Copy, PartialEq, Eq, PartialOrd, Ord)]
struct Claimed<'u> {
    destination: &'u [u8],
    index: usize,
}

/// Reports the conflicts of updates, by their destinations: all in JSON, else those within a limit, and how many more
/// there are.
pub fn report_conflicts(
    alloc: Global,
    updates: &[Update<'_>],
    texts: &SpecTexts,
    limit: Limit,
    report: &mut Report,
) -> Result<(), AllocError>
    ensures form { OnOk result (report.new.form ≡ report.old.form) }
    ensures reported { OnOk result (AddsConflicts limit report.old.form texts.now
        (in_conflict_of (map planned_of updates.now))
        report.old.messages.items report.new.messages.items report.old.results.items report.new.results.items) }
{
    let contests = contests_of(alloc, updates)?;
    let all = contests.as_slice();
    let (reported, more) = all.split_at(reported_count(report.form, limit, all.len()));
    report_all_conflicts(alloc, reported, updates, texts, report)?;
    write_more("conflict: ", more.len(), &mut report.messages)
}

// Reports conflicts, in order.
fn report_all_conflicts(
    alloc: Global,
    contests: &[Contest],
    updates: &[Update<'_>],
    texts: &SpecTexts,
    report: &mut Report,
) -> Result<(), AllocError>
    ensures form { OnOk result (report.new.form ≡ report.old.form) }
    ensures objects { OnOk result (AddsObjects report.old.form (IsConflict texts.now) (map (contest_of (map planned_of updates.now)) contests.now)
        report.old.results.items report.new.results.items) }
    ensures reported { OnOk result (AddsEachConflict report.old.form texts.now (map (contest_of (map planned_of updates.now)) contests.now)
        report.old.messages.items report.new.messages.items) }
{
    for contest in contests {
        report_conflict(alloc, contest, updates, texts, report)?;
    }
    Ok(())
}

// The conflicts of updates, by their destinations.
fn contests_of(alloc: Global, updates: &[Update<'_>]) -> Result<Vec<Contest>, AllocError>
    ensures { IfOk result (λ contests. AreContests (in_conflict_of (map planned_of updates.now))
        (map (contest_of (map planned_of updates.now)) contests.items)) }
{
    let claims = claims_in_order(alloc, updates)?;
    let claims = claims.as_slice();
    let mut contests = Vec::new(alloc);
    let mut at = 0;
    while at < claims.len() {
        let rest = &claims[at..];
        let len = len_of_run(rest);
        contests.push(contest_of(alloc, &rest[..len])?)?;
        at += len;
    }
    Ok(contests)
}

// The destinations of updates, sorted, each with the index of its update.
fn claims_in_order<'u>(
    alloc: Global,
    updates: &'u [Update<'_>],
) -> Result<Vec<Claimed<'u>>, AllocError>
    ensures { IfOk result (λ claims. AreOrdered (map planned_of updates.now) claims.items) }
{
    let mut claims = Vec::new(alloc);
    for (index, update) in updates.iter().enumerate() {
        if let Verdict::InConflict = update.verdict {
            let destination = destination_or(update, b"");
            claims.push(Claimed { destination, index })?;
        }
    }
    claims.sort_unstable();
    Ok(claims)
}

// How many of the sorted claims, from the first on, have the first one's destination.
fn len_of_run(claims: &[Claimed<'_>]) -> usize
    requires some { 0 < length claims.now }
    requires order { IsStrictlySortedBy claim_cmp claims.now }
    ensures some { 0 < result }
    ensures fits { result ≤ length claims.now }
    ensures split { IsRun (take result claims.now) (drop result claims.now) }
{
    for (len, claim) in claims.iter().enumerate() {
        if claim.destination != claims[0].destination {
            return len;
        }
    }
    claims.len()
}

// The conflict of the claims to one destination.
fn contest_of(alloc: Global, claims: &[Claimed<'_>]) -> Result<Contest, AllocError>
    requires { 0 < length claims.now }
    ensures { IfOk result (IsContestOf claims.now) }
{
    let mut indexes = Vec::with_capacity(alloc, claims.len())?;
    for claim in claims {
        indexes.push(claim.index)?;
    }
    Ok(Contest {
        destination: BString::from_slice(alloc, BStr::new(claims[0].destination))?,
        indexes,
    })
}

// Reports a destination that several sources are mapped to.
fn report_conflict(
    alloc: Global,
    contest: &Contest,
    updates: &[Update<'_>],
    texts: &SpecTexts,
    report: &mut Report,
) -> Result<(), AllocError>
    ensures form { OnOk result (report.new.form ≡ report.old.form) }
    ensures objects { OnOk result (AddsObjects report.old.form (IsConflict texts.now) (contest_of (map planned_of updates.now) contest.now ∷ [])
        report.old.results.items report.new.results.items) }
    ensures reported { OnOk result (AddsEachConflict report.old.form texts.now (contest_of (map planned_of updates.now) contest.now ∷ [])
        report.old.messages.items report.new.messages.items) }
{
    match report.form {
        Form::Json => write_conflict_object(alloc, contest, updates, texts, &mut report.results),
        Form::Lines | Form::Zeros => write_conflict(
            alloc,
            contest,
            updates,
            texts,
            &mut report.messages,
        ),
    }
}

// Appends the object of a conflict, as a line.
fn write_conflict_object(
    alloc: Global,
    contest: &Contest,
    updates: &[Update<'_>],
    texts: &SpecTexts,
    out: &mut Vec<u8>,
) -> Result<(), AllocError>
    ensures { OnOk result (out.new.items ≡ out.old.items ++ conflict_line texts.now (contest_of (map planned_of updates.now) contest.now)) }
{
    let claims = claims_of(alloc, updates, contest.indexes.as_slice(), texts)?;
    let destination = json::text_of(alloc, contest.destination.as_bytes())?;
    let object = refspec_json::Conflict {
        destination: destination.as_str(),
        sources: claims.as_slice(),
    };
    object.write_line(alloc, out)
}

// The source of each update at an index, with the text of its spec.
fn claims_of(
    alloc: Global,
    updates: &[Update<'_>],
    indexes: &[usize],
    texts: &SpecTexts,
) -> Result<Vec<Claim>, AllocError>
    ensures { IfOk result (λ claims. map claim_texts claims.items
        ≡ claims_of texts.now (those_at (map planned_of updates.now) indexes.now)) }
{
    let mut claims = Vec::with_capacity(alloc, indexes.len())?;
    for index in indexes {
        add_claim(alloc, updates, *index, texts, &mut claims)?;
    }
    Ok(claims)
}

// Adds the source of the update at an index, with the text of its spec.
fn add_claim(
    alloc: Global,
    updates: &[Update<'_>],
    index: usize,
    texts: &SpecTexts,
    claims: &mut Vec<Claim>,
) -> Result<(), AllocError>
    ensures { OnOk result (map claim_texts claims.new.items ≡ map claim_texts claims.old.items
        ++ claims_of texts.now (those_at (map planned_of updates.now) (index ∷ []))) }
{
    let Some(update) = update_at(updates, index) else {
        return Ok(());
    };
    let mut buffer = Vec::new(alloc);
    let source = source_of(&update.source, &mut buffer)?;
    let text = texts.text_of(update.origin);
    claims.push(claim_of(alloc, source, text, update.origin)?)?;
    Ok(())
}

// The update at an index.
fn update_at<'u, 'item>(updates: &'u [Update<'item>], index: usize) -> Option<&'u Update<'item>>
    ensures { option_map (λ u. planned_of u.now) result ≡ slice_get (map planned_of updates.now) index }
{
    updates.get(index)
}

// A source, and the text of its spec.
fn claim_of(alloc: Global, source: &[u8], text: &[u8], origin: Origin) -> Result<Claim, AllocError>
    ensures { IfOk result (λ claim. claim_texts claim ≡ claim_with source.now text.now origin) }
{
    Ok(Claim {
        source: json::text_of(alloc, source)?,
        spec: json::text_of(alloc, text)?,
        origin: String::from_str(alloc, origin_name(origin))?,
    })
}

// Appends the lines on a conflict.
fn write_conflict(
    alloc: Global,
    contest: &Contest,
    updates: &[Update<'_>],
    texts: &SpecTexts,
    out: &mut Vec<u8>,
) -> Result<(), AllocError>
    ensures { OnOk result (WritesConflict texts.now (contest_of (map planned_of updates.now) contest.now) out.old.items out.new.items) }
{
    out.extend_from_slice(b"conflict: ")?;
    write_in_message(out, contest.destination.as_bytes())?;
    out.extend_from_slice(b" would be written from several refs, so nothing is fetched:\n")?;
    write_claims(alloc, updates, contest.indexes.as_slice(), texts, out)?;
    let advice = if is_tracked(updates, contest.indexes.as_slice(), texts) {
        TRACKED_ADVICE
    } else {
        ADVICE
    };
    write_advice(out, advice)
}

// Whether a configured spec maps what given specs fetch. The negative configured ones leave none of that out.
fn is_tracked(updates: &[Update<'_>], indexes: &[usize], texts: &SpecTexts) -> bool {
    if texts.given.is_empty() {
        return false;
    }
    for index in indexes {
        if let Some(update) = update_at(updates, *index) {
            if let Origin::Configured(_) = update.origin {
                return true;
            }
        }
    }
    false
}

// Appends a line for each update at an index.
fn write_claims(
    alloc: Global,
    updates: &[Update<'_>],
    indexes: &[usize],
    texts: &SpecTexts,
    out: &mut Vec<u8>,
) -> Result<(), AllocError>
    ensures { OnOk result (WritesClaims texts.now (those_at (map planned_of updates.now) indexes.now)
        out.old.items out.new.items) }
{
    for index in indexes {
        write_claim_at(alloc, updates, *index, texts, out)?;
    }
    Ok(())
}

// Appends the line of the update at an index.
fn write_claim_at(
    alloc: Global,
    updates: &[Update<'_>],
    index: usize,
    texts: &SpecTexts,
    out: &mut Vec<u8>,
) -> Result<(), AllocError>
    ensures { OnOk result (WritesClaims texts.now (those_at (map planned_of updates.now) (index ∷ []))
        out.old.items out.new.items) }
{
    let Some(update) = update_at(updates, index) else {
        return Ok(());
    };
    let mut buffer = Vec::new(alloc);
    let source = source_of(&update.source, &mut buffer)?;
    let text = texts.text_of(update.origin);
    write_claim(source, text, update.origin, out)
}

// Appends the line of a source and the text of its spec, with what is said behind that.
fn write_claim(
    source: &[u8],
    text: &[u8],
    origin: Origin,
    out: &mut Vec<u8>,
) -> Result<(), AllocError>
    ensures { OnOk result (WritesClaim source.now text.now (note_of origin) out.old.items out.new.items) }
{
    out.extend_from_slice(b"    ")?;
    write_in_message(out, source)?;
    out.extend_from_slice(b" by ")?;
    write_in_message(out, text)?;
    out.extend_from_slice(note_of(origin).as_bytes())?;
    Ok(out.push(b'\n')?)
}
