//! Specs that add nothing to a fetch, whatever refs a remote has, and what they do all the same.

ghost use Rattle.std.specs.Prelude.{length, map, IfOk, MatchBool, OnOk};
ghost use Rattle.std.specs.List.{All, AllZip};
ghost use Rattle.gix_refspec_text.specs.Views.Spec.{reading_of};
ghost use Rattle.gix_refspec_match.specs.Matching.Lists.{IsMadeFrom};
ghost use Rattle.gix_refspec_lint.specs.Views.Lint.{unused_of};
ghost use Rattle.refspec_io.specs.Texts.{given_of};
ghost use Rattle.refspec_commands.specs.Warned.{AreExclusionsSaid, AreIdleSaid, IsExclusionSaid, IsIdleSaid, IsInside, MayBeFull, MayExclude, MayNameRefs};
ghost use Rattle.refspec_commands.specs.WarnedViews.{KeepsTopic, SpecsMatchTexts, asked_of, said_of};

use super::beside::Beside;
use super::effects::{Weight, effects_of, effects_of_exclusion, negative_counts};
use super::group::Group;
use super::{Topic, Warning, or_nothing, say};
use gix_refspec::RefSpecRef;
use gix_refspec_lint::{IdleSpec, Reason, idle_exclusions, idle_specs};
use gix_refspec_text::side::{split_at_first_star, written_name};
use refspec_io::sentence::{may_be_below_refs, may_be_ref};
use refspec_io::texts::Text;
use std::alloc::{AllocError, Global};
use std::collections::BTreeMap;

/// A warning for each positive spec that adds nothing.
pub(super) fn idle_in<'a>(
    alloc: Global,
    group: &Group<'a>,
    beside: &Beside<'a>,
) -> Result<Vec<Warning<'a>>, AllocError>
    requires { SpecsMatchTexts group.now }
    ensures { IfOk result (λ warnings. AreIdleSaid (map reading_of group.now.specs.items)
        (map given_of group.now.texts.items) (map said_of warnings.items)) }
{
    let idle = or_nothing(alloc, idle_specs(alloc, &beside.configured(group)))?;
    warnings_on(alloc, group, beside, idle.as_slice())
}

// The warnings on idle specs.
fn warnings_on<'a>(
    alloc: Global,
    group: &Group<'a>,
    beside: &Beside<'a>,
    idle: &[IdleSpec],
) -> Result<Vec<Warning<'a>>, AllocError>
    requires matching { SpecsMatchTexts group.now }
    requires inside { All (IsInside (length group.now.texts.items)) (map unused_of idle.now) }
    ensures { IfOk result (λ warnings. AllZip (IsIdleSaid (map given_of group.now.texts.items))
        (map unused_of idle.now) (map said_of warnings.items)) }
{
    let mut warnings = Vec::with_capacity(alloc, idle.len())?;
    for spec in idle {
        warnings.push(warning_on(alloc, group, beside, spec)?)?;
    }
    Ok(warnings)
}

// The warning on an idle spec.
fn warning_on<'a>(
    alloc: Global,
    group: &Group<'a>,
    beside: &Beside<'a>,
    idle: &IdleSpec,
) -> Result<Warning<'a>, AllocError>
    requires matching { SpecsMatchTexts group.now }
    requires inside { IsInside (length group.now.texts.items) (unused_of idle.now) }
    ensures { IfOk result (λ w. IsIdleSaid (map given_of group.now.texts.items) (unused_of idle.now) (said_of w)) }
{
    let text = group.texts[idle.spec_index];
    let spec = group.specs[idle.spec_index];
    let mut warning = named_warning(alloc, group.texts.as_slice(), idle)?;
    let effects = effects_of(alloc, group, beside, &spec, idle)?;
    explain(alloc, group, &spec, idle.reason, &mut warning)?;
    let advice = advice_on(idle.reason, effects.weight());
    warning.advice.extend_from_slice(advice.as_bytes())?;
    effects.write(alloc, &text, &spec, &mut warning.message)?;
    Ok(warning)
}

// A warning with the text of an idle spec, and that of the one that its reason names.
fn named_warning<'a>(
    alloc: Global,
    texts: &[Text<'a>],
    idle: &IdleSpec,
) -> Result<Warning<'a>, AllocError>
    requires { IsInside (length texts.now) (unused_of idle.now) }
    ensures { IfOk result (λ w. IsIdleSaid (map given_of texts.now) (unused_of idle.now) (said_of w)) }
{
    let text = texts[idle.spec_index];
    match idle.reason {
        Reason::Invalid => Warning::on(alloc, Topic::IdleInvalid, text, None),
        Reason::Duplicates => Warning::on(alloc, Topic::IdleDuplicate, text, None),
        Reason::Excluded(index) => {
            Warning::on(alloc, Topic::IdleExcluded, text, Some(texts[index]))
        }
        Reason::Duplicate(index) => {
            Warning::on(alloc, Topic::IdleDuplicate, text, Some(texts[index]))
        }
    }
}

// Says why a spec adds nothing; of an invalid one also what to do.
fn explain(
    alloc: Global,
    group: &Group<'_>,
    spec: &RefSpecRef<'_>,
    reason: Reason,
    warning: &mut Warning<'_>,
) -> Result<(), AllocError>
    ensures { OnOk result (KeepsTopic warning.old warning.new) }
{
    let message: &[u8] = match reason {
        Reason::Invalid => return explain_invalid(alloc, spec, warning),
        Reason::Excluded(_) => b"Negative specs exclude all that it takes.",
        Reason::Duplicate(_) =>
            b"The earlier spec maps all that it takes to the same destinations.",
        Reason::Duplicates =>
            b"Earlier specs together map all that it takes to the same destinations.",
    };
    warning.message.extend_from_slice(message)?;
    if has_idle_sign(group, spec, reason) {
        warning.message.extend_from_slice(
            b" Its `+` does nothing, as the first spec that maps a ref decides.",
        )?;
    }
    Ok(())
}

// What to do about a spec that adds nothing, by the weight of what it does all the same. Nothing for an invalid one.
fn advice_on(reason: Reason, weight: Weight) -> &'static str {
    match (reason, weight) {
        (Reason::Invalid, _) => "",
        (Reason::Excluded(_), Weight::None) => "Remove it, or exclude less.",
        (Reason::Excluded(_), Weight::Some) => {
            "Exclude less, or remove it if you want none of that."
        }
        (Reason::Excluded(_), Weight::OnTags) => "Exclude less.",
        (Reason::Duplicate(_) | Reason::Duplicates, Weight::None) => "Remove it.",
        (Reason::Duplicate(_) | Reason::Duplicates, Weight::Some) => {
            "Remove it only if you want none of that."
        }
        (Reason::Duplicate(_) | Reason::Duplicates, Weight::OnTags) => "Leave it if you prune.",
    }
}

// Whether a spec is forced, and the earlier one that maps the same isn't.
fn has_idle_sign(group: &Group<'_>, spec: &RefSpecRef<'_>, reason: Reason) -> bool {
    let Reason::Duplicate(index) = reason else {
        return false;
    };
    match group.specs.get(index) {
        None => false,
        Some(earlier) => spec.allow_non_fast_forward() && !earlier.allow_non_fast_forward(),
    }
}

// Says which side is never a valid ref name.
fn explain_invalid(
    alloc: Global,
    spec: &RefSpecRef<'_>,
    warning: &mut Warning<'_>,
) -> Result<(), AllocError>
    ensures { OnOk result (KeepsTopic warning.old warning.new) }
{
    if let Some(source) = spec.source() {
        let source = source.as_bytes();
        if !may_be_ref(source) {
            say(
                &mut warning.message,
                "Full names begin with refs/, so none matches ",
                source,
            )?;
            warning.message.push(b'.')?;
            return advise_full_name(alloc, b"", source, warning);
        }
    }
    if let Some(destination) = spec.destination() {
        let destination = destination.as_bytes();
        if !may_be_below_refs(destination) {
            say(&mut warning.message, "Git ignores ", destination)?;
            warning
                .message
                .extend_from_slice(b", which is not below refs/, as a funny ref.")?;
            return warning
                .advice
                .extend_from_slice(b"Give it a destination that begins with refs/.");
        }
    }
    warning
        .message
        .extend_from_slice(b"One of its sides is never a valid ref name.")
}

/// Advises to write the full name that Git makes of a side, after some text.
pub(super) fn advise_full_name(
    alloc: Global,
    before: &[u8],
    side: &[u8],
    warning: &mut Warning<'_>,
) -> Result<(), AllocError>
    ensures { OnOk result (KeepsTopic warning.old warning.new) }
{
    let mut full = Vec::from_slice(alloc, before)?;
    full.extend_from_slice(written_name(alloc, side)?.as_bstr().as_bytes())?;
    say(&mut warning.advice, "Write ", full.as_slice())
}

/// A warning for each negative spec that excludes nothing. One that isn't a full name has another warning.
pub(super) fn exclusions_in<'a>(
    alloc: Global,
    group: &Group<'a>,
    beside: &Beside<'a>,
) -> Result<Vec<Warning<'a>>, AllocError>
    requires { SpecsMatchTexts group.now }
    ensures { IfOk result (λ warnings. AreExclusionsSaid (asked_of beside.now) (map reading_of group.now.specs.items)
        (map given_of group.now.texts.items) (map said_of warnings.items)) }
{
    let idle = or_nothing(alloc, idle_exclusions(alloc, &beside.excludable(group)))?;
    exclusion_warnings(alloc, group, beside, idle.as_slice())
}

// The warnings on idle negative specs.
fn exclusion_warnings<'a>(
    alloc: Global,
    group: &Group<'a>,
    beside: &Beside<'a>,
    idle: &[usize],
) -> Result<Vec<Warning<'a>>, AllocError>
    requires { SpecsMatchTexts group.now }
    ensures { IfOk result (λ warnings. IsMadeFrom
        (λ i k s. IsExclusionSaid (map reading_of group.now.specs.items) (map given_of group.now.texts.items) k s)
        0 idle.now (map said_of warnings.items)) }
{
    let counts = negative_counts(alloc, group)?;
    let mut warnings = Vec::new(alloc);
    for exclusion in idle {
        if may_exclude_at(group, *exclusion) {
            warnings.push(exclusion_warning(alloc, group, beside, &counts, *exclusion)?)?;
        }
    }
    Ok(warnings)
}

// The warning on an idle negative spec.
fn exclusion_warning<'a>(
    alloc: Global,
    group: &Group<'a>,
    beside: &Beside<'a>,
    counts: &BTreeMap<&'a [u8], usize>,
    index: usize,
) -> Result<Warning<'a>, AllocError>
    requires matching { SpecsMatchTexts group.now }
    requires full { MayExclude (map reading_of group.now.specs.items) index }
    ensures { IfOk result (λ w. IsExclusionSaid (map reading_of group.now.specs.items)
        (map given_of group.now.texts.items) index (said_of w)) }
{
    let text = group.texts[index];
    let mut warning = Warning::on(alloc, Topic::IdleExclusion, text, None)?;
    let effects = effects_of_exclusion(alloc, group, beside, counts, index)?;
    let advice: &[u8] = match effects.weight() {
        Weight::None => b"Correct its name, or remove it.",
        Weight::Some => b"Correct its name, or remove it if you don't want that.",
        Weight::OnTags => b"Correct its name.",
    };
    let message = &mut warning.message;
    message.extend_from_slice(b"No other spec takes a ref that it excludes.")?;
    effects.write(alloc, &text, &group.specs[index], message)?;
    warning.advice.extend_from_slice(advice)?;
    Ok(warning)
}

// Whether the source of the spec at an index may be a full name.
fn may_exclude_at(group: &Group<'_>, index: usize) -> bool
    ensures { MatchBool result (MayExclude (map reading_of group.now.specs.items) index)
        (¬ (MayExclude (map reading_of group.now.specs.items) index)) }
{
    match group.specs.get(index) {
        None => false,
        Some(spec) => may_exclude(spec),
    }
}

/// Whether a source of a spec may be a full name.
pub(super) fn may_exclude(spec: &RefSpecRef<'_>) -> bool
    ensures { MatchBool result (MayNameRefs (reading_of spec.now)) (¬ (MayNameRefs (reading_of spec.now))) }
{
    match spec.source() {
        None => false,
        Some(source) => may_be_full(source.as_bytes()),
    }
}

// Whether a side is a full name, or a pattern that may match one.
fn may_be_full(side: &[u8]) -> bool
    ensures { MatchBool result (MayBeFull side.now) (¬ (MayBeFull side.now)) }
{
    if side == b"HEAD".as_slice() || side.starts_with(b"refs/") {
        return true;
    }
    match split_at_first_star(side) {
        None => false,
        Some((before, _)) => b"refs/".starts_with(before) || b"HEAD".starts_with(before),
    }
}
