//! Specs of which one can write a directory of what the other writes, with an example and what prevents it.

ghost use Rattle.std.specs.Prelude.{◌≡◌, [], length, map, IfOk, OnOk};
ghost use Rattle.std.specs.List.{All, AllZip};
ghost use Rattle.gix_refspec_text.specs.Views.Spec.{reading_of};
ghost use Rattle.gix_refspec_lint.specs.Views.Lint.{nesting_of};
ghost use Rattle.refspec_io.specs.declared.call.Form.TheVariants.{Json};
ghost use Rattle.refspec_io.specs.Texts.{given_of};
ghost use Rattle.refspec_commands.specs.Warned.{AreNestingsSaid, AreSources, AreWithin, IsNestingMessage, IsNestingSaid};
ghost use Rattle.refspec_commands.specs.WarnedViews.{SpecsMatchTexts, asked_of, said_of};

use super::beside::{Beside, values_alone};
use super::conflicts::{
    add_more, beside_negatives, leaves_all, negative_spec, tried_specs, usual_words, with_exclusion,
};
use super::group::Group;
use super::required::{Part, Required, say_if_stopped};
use super::{Topic, Warning, or_nothing, say};
use gix_refspec::RefSpecRef;
use gix_refspec::match_group::{Source, SourceRef};
use gix_refspec_lint::{PossibleDirectoryConflict, possible_directory_conflicts};
use gix_refspec_text::side::split_at_first_star;
use refspec_io::call::{Form, Limit};
use refspec_io::counts::reported_count;
use refspec_io::fields::source_of;
use refspec_io::texts::Text;
use std::alloc::{AllocError, Global};

/// A warning for each two specs that can be in a directory conflict, in lines for the first 20 of them.
pub(super) fn directory_conflicts_in<'a>(
    alloc: Global,
    form: Form,
    group: &Group<'a>,
    beside: &Beside<'a>,
) -> Result<Vec<Warning<'a>>, AllocError>
    requires { SpecsMatchTexts group.now }
    ensures { form ≡ Json → IfOk result (λ warnings. AreNestingsSaid (asked_of beside.now)
        (map reading_of group.now.specs.items) (map given_of group.now.texts.items)
        (map said_of warnings.items)) }
{
    let words = usual_words(alloc, group.specs.as_slice())?;
    let fetch = beside.configured(group);
    let conflicts = or_nothing(
        alloc,
        possible_directory_conflicts(alloc, &fetch, words.as_slice()),
    )?;
    let texts = beside.texts_of(alloc, group)?;
    let count = reported_count(form, Limit::Twenty, conflicts.len());
    let (shown, more) = conflicts.as_slice().split_at(count);
    let mut warnings = warnings_on(alloc, group, texts.as_slice(), shown)?;
    add_more(
        alloc,
        Topic::DirectoryConflict,
        group,
        more.len(),
        &mut warnings,
    )?;
    Ok(warnings)
}

// The warnings on directory conflicts of these texts.
fn warnings_on<'a>(
    alloc: Global,
    group: &Group<'a>,
    texts: &[Text<'a>],
    conflicts: &[PossibleDirectoryConflict],
) -> Result<Vec<Warning<'a>>, AllocError>
    requires { All (AreWithin (length texts.now)) (map nesting_of conflicts.now) }
    ensures { IfOk result (λ warnings. AllZip (IsNestingSaid (map given_of texts.now))
        (map nesting_of conflicts.now) (map said_of warnings.items)) }
{
    let required = Required::of(alloc, group)?;
    let mut warnings = Vec::with_capacity(alloc, conflicts.len())?;
    for conflict in conflicts {
        warnings.push(warning_on(alloc, group, texts, &required, conflict)?)?;
    }
    Ok(warnings)
}

// The warning on two of these texts, the one that writes the directory first.
fn warning_on<'a>(
    alloc: Global,
    group: &Group<'a>,
    texts: &[Text<'a>],
    required: &Required<'a>,
    conflict: &PossibleDirectoryConflict,
) -> Result<Warning<'a>, AllocError>
    requires { AreWithin (length texts.now) (nesting_of conflict.now) }
    ensures { IfOk result (λ w. IsNestingSaid (map given_of texts.now) (nesting_of conflict.now) (said_of w)) }
{
    let upper = texts[conflict.upper_spec];
    let lower = texts[conflict.lower_spec];
    let mut warning = Warning::on(alloc, Topic::DirectoryConflict, upper, Some(lower))?;
    write_example(alloc, conflict, &mut warning.message)?;
    write_advice(alloc, group, required, conflict, &mut warning.advice)?;
    Ok(warning)
}

// Appends the example.
fn write_example(
    alloc: Global,
    conflict: &PossibleDirectoryConflict,
    out: &mut Vec<u8>,
) -> Result<(), AllocError>
    ensures { out.old.items ≡ [] → OnOk result (IsNestingMessage (nesting_of conflict.now) out.new.items) }
{
    write_sources(alloc, conflict, out)?;
    let directory = conflict.directory.as_bstr().as_bytes();
    say(out, " would write ", directory)?;
    let nested = conflict.nested.as_bstr().as_bytes();
    say(out, " and ", nested)?;
    out.extend_from_slice(
        b": one is a directory of the other, so git fetch would write one of them, and end with status 1.",
    )
}

// Appends the sources, or the one that both are.
fn write_sources(
    alloc: Global,
    conflict: &PossibleDirectoryConflict,
    out: &mut Vec<u8>,
) -> Result<(), AllocError>
    ensures { out.old.items ≡ [] → OnOk result (AreSources (nesting_of conflict.now) out.new.items) }
{
    let mut first = Vec::new(alloc);
    let mut second = Vec::new(alloc);
    let upper = source_of(&conflict.upper_source, &mut first)?;
    let lower = source_of(&conflict.lower_source, &mut second)?;
    say(out, "A remote with ", upper)?;
    if upper == lower {
        return Ok(());
    }
    say(out, " and ", lower)
}

// Advises what prevents a directory conflict.
fn write_advice(
    alloc: Global,
    group: &Group<'_>,
    required: &Required<'_>,
    conflict: &PossibleDirectoryConflict,
    out: &mut Vec<u8>,
) -> Result<(), AllocError> {
    write_way_out(alloc, group, conflict, out)?;
    let upper = Part {
        spec: conflict.upper_spec,
        source: &conflict.upper_source,
    };
    let lower = Part {
        spec: conflict.lower_spec,
        source: &conflict.lower_source,
    };
    say_if_stopped(alloc, group, required, [upper, lower], out)
}

// Advises to exclude the source that is in the way, if it is the only one.
fn write_way_out(
    alloc: Global,
    group: &Group<'_>,
    conflict: &PossibleDirectoryConflict,
    out: &mut Vec<u8>,
) -> Result<(), AllocError> {
    let (Some(upper), Some(lower)) = (
        group.specs.get(conflict.upper_spec),
        group.specs.get(conflict.lower_spec),
    ) else {
        return out.extend_from_slice(
            b"Write to another folder than refs/tags/, or don't ask for all tags.",
        );
    };
    match exclusion_for(alloc, group, upper, lower, &conflict.upper_source)? {
        None => out.extend_from_slice(b"Write one of them to another folder."),
        Some(text) => say(out, "Exclude the first source by ", text.as_slice()),
    }
}

// A negative spec for one source of a pattern, if without that two specs of a group can't be in a directory conflict.
fn exclusion_for(
    alloc: Global,
    group: &Group<'_>,
    upper: &RefSpecRef<'_>,
    lower: &RefSpecRef<'_>,
    source: &Source,
) -> Result<Option<Vec<u8>>, AllocError> {
    let SourceRef::FullName(name) = source else {
        return Ok(None);
    };
    let is_pattern = match upper.source() {
        None => false,
        Some(side) => split_at_first_star(side.as_bytes()).is_some(),
    };
    if !is_pattern {
        return Ok(None);
    }
    let mut text = Vec::from_slice(alloc, b"^")?;
    text.extend_from_slice(name.as_bstr().as_bytes())?;
    if prevents(alloc, group, text.as_slice(), upper, lower)? {
        Ok(Some(text))
    } else {
        Ok(None)
    }
}

// Whether two specs of a group can't be in a directory conflict beside one more negative spec, which makes no spec idle.
fn prevents(
    alloc: Global,
    group: &Group<'_>,
    text: &[u8],
    upper: &RefSpecRef<'_>,
    lower: &RefSpecRef<'_>,
) -> Result<bool, AllocError> {
    let Some(exclusion) = negative_spec(alloc, text)? else {
        return Ok(false);
    };
    let pair = beside_negatives(alloc, group, *upper, *lower)?;
    let narrowed = with_exclusion(alloc, pair.as_slice(), exclusion)?;
    let fetch = values_alone(narrowed.as_slice());
    let left = possible_directory_conflicts(alloc, &fetch, &[]);
    if !or_nothing(alloc, left)?.is_empty() {
        return Ok(false);
    }
    let tried = tried_specs(alloc, group, upper, lower)?;
    leaves_all(alloc, tried.as_slice(), exclusion)
}
