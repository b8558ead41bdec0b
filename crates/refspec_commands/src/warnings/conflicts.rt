//! Specs that can conflict, with an example and a negative spec that prevents it.

ghost use Rattle.std.specs.Prelude.{◌≡◌, ◌++◌, [], length, map, IfOk, OnOk};
ghost use Rattle.std.specs.List.{All, AllZip};
ghost use Rattle.gix_refspec_text.specs.Views.Spec.{reading_of};
ghost use Rattle.gix_refspec_match.specs.Views.Mapping.{start_of};
ghost use Rattle.gix_refspec_lint.specs.Views.Lint.{example_of};
ghost use Rattle.refspec_io.specs.declared.call.Form.TheVariants.{Json};
ghost use Rattle.refspec_io.specs.Rows.{source_text};
ghost use Rattle.refspec_io.specs.Shown.{WritesQuoted};
ghost use Rattle.refspec_io.specs.Texts.{given_of};
ghost use Rattle.refspec_commands.specs.Warned.{AreConflictsSaid, IsAmong, IsConflictSaid, IsExampleMessage};
ghost use Rattle.refspec_commands.specs.WarnedViews.{SpecsMatchTexts, asked_of, said_of};

use super::beside::{Beside, values_alone};
use super::group::Group;
use super::required::{Part, Required, required_name, say_if_stopped};
use super::{Topic, Warning, or_nothing, say};
use bstr::BStr;
use gix_refspec::match_group::{MapName, Source};
use gix_refspec::parsing::{Error, Operation};
use gix_refspec::{RefSpecRef, parse};
use gix_refspec_lint::{PossibleConflict, idle_specs, possible_conflicts};
use gix_refspec_match::exclusions::Exclusions;
use gix_refspec_text::side::{joined, split_at_first_star};
use refspec_io::call::{Form, Limit};
use refspec_io::counts::reported_count;
use refspec_io::fields::source_of;
use refspec_io::texts::{Text, write_number};
use std::alloc::{AllocError, Global};

/// A warning for each two specs that can conflict, in lines for the first 20 of them.
pub(super) fn conflicts_in<'a>(
    alloc: Global,
    form: Form,
    group: &Group<'a>,
    beside: &Beside<'a>,
) -> Result<Vec<Warning<'a>>, AllocError>
    requires { SpecsMatchTexts group.now }
    ensures { form ≡ Json → IfOk result (λ warnings. AreConflictsSaid (asked_of beside.now)
        (map reading_of group.now.specs.items) (map given_of group.now.texts.items)
        (map said_of warnings.items)) }
{
    let words = usual_words(alloc, group.specs.as_slice())?;
    let fetch = beside.configured(group);
    let conflicts = or_nothing(alloc, possible_conflicts(alloc, &fetch, words.as_slice()))?;
    let texts = beside.texts_of(alloc, group)?;
    let count = reported_count(form, Limit::Twenty, conflicts.len());
    let (shown, more) = conflicts.as_slice().split_at(count);
    let mut warnings = warnings_on(alloc, group, texts.as_slice(), shown)?;
    add_more(
        alloc,
        Topic::PossibleConflict,
        group,
        more.len(),
        &mut warnings,
    )?;
    Ok(warnings)
}

// The warnings on conflicts of these texts.
fn warnings_on<'a>(
    alloc: Global,
    group: &Group<'a>,
    texts: &[Text<'a>],
    conflicts: &[PossibleConflict],
) -> Result<Vec<Warning<'a>>, AllocError>
    requires { All (IsAmong (length texts.now)) (map example_of conflicts.now) }
    ensures { IfOk result (λ warnings. AllZip (IsConflictSaid (map given_of texts.now))
        (map example_of conflicts.now) (map said_of warnings.items)) }
{
    let required = Required::of(alloc, group)?;
    let mut warnings = Vec::with_capacity(alloc, conflicts.len())?;
    for conflict in conflicts {
        warnings.push(warning_on(alloc, group, texts, &required, conflict)?)?;
    }
    Ok(warnings)
}

// The warning on two of these texts.
fn warning_on<'a>(
    alloc: Global,
    group: &Group<'a>,
    texts: &[Text<'a>],
    required: &Required<'a>,
    conflict: &PossibleConflict,
) -> Result<Warning<'a>, AllocError>
    requires { IsAmong (length texts.now) (example_of conflict.now) }
    ensures { IfOk result (λ w. IsConflictSaid (map given_of texts.now) (example_of conflict.now) (said_of w)) }
{
    let text = texts[conflict.first_spec];
    let other = texts[conflict.second_spec];
    let mut warning = Warning::on(alloc, Topic::PossibleConflict, text, Some(other))?;
    write_example(alloc, conflict, &mut warning.message)?;
    write_advice(alloc, group, required, conflict, &mut warning.advice)?;
    Ok(warning)
}

/// Says how many more pairs there are.
pub(super) fn add_more<'a>(
    alloc: Global,
    topic: Topic,
    group: &Group<'a>,
    count: usize,
    warnings: &mut Vec<Warning<'a>>,
) -> Result<(), AllocError>
    ensures { count ≡ 0 → OnOk result (warnings.new.items ≡ warnings.old.items) }
{
    if count == 0 {
        return Ok(());
    }
    if let Some(text) = group.texts.first() {
        let mut warning = Warning::at(alloc, topic, text.location);
        write_number(&mut warning.message, count)?;
        warning.message.extend_from_slice(b" more pairs")?;
        warnings.push(warning)?;
    }
    Ok(())
}

// Appends the example.
fn write_example(
    alloc: Global,
    conflict: &PossibleConflict,
    out: &mut Vec<u8>,
) -> Result<(), AllocError>
    ensures { out.old.items ≡ [] → OnOk result (IsExampleMessage (example_of conflict.now) out.new.items) }
{
    say_source(alloc, out, "A remote with ", &conflict.first_source)?;
    say_source(alloc, out, " and ", &conflict.second_source)?;
    let destination = conflict.destination.as_bstr().as_bytes();
    say(out, " would write both to ", destination)?;
    out.extend_from_slice(b", and git fetch would write nothing.")
}

fn say_source(
    alloc: Global,
    out: &mut Vec<u8>,
    words: &str,
    source: &Source,
) -> Result<(), AllocError>
    ensures { OnOk result (WritesQuoted (source_text (start_of source.now)) (out.old.items ++ words.now)
        out.new.items) }
{
    let mut buffer = Vec::new(alloc);
    say(out, words, source_of(source, &mut buffer)?)
}

// In a group of more specs an exclusion is only tried beside the two that conflict.
const MANY: usize = 50;

// Sources, each with a word that hosts have in the place of its star.
const USUAL: [(&[u8], &[u8]); 5] = [
    (b"refs/pull/*", b"7/head"),
    (b"refs/merge-requests/*", b"7/head"),
    (b"refs/pull-requests/*", b"7/from"),
    (b"refs/changes/*", b"34/1234/1"),
    (b"refs/tags/*", b"v1"),
];

// Words for the stars of examples: those of the sources, a number if a star is in the middle of one, and others.
pub(super) fn usual_words(
    alloc: Global,
    specs: &[RefSpecRef<'_>],
) -> Result<Vec<BStr<'static>>, AllocError> {
    let mut words = Vec::new(alloc);
    for (source, word) in USUAL {
        if specs.iter().any(|spec| is_source(spec, source)) {
            add_word(specs, word, &mut words)?;
        }
    }
    if specs.iter().any(|spec| has_suffix(spec)) {
        add_word(specs, b"7", &mut words)?;
    }
    for word in [
        b"topic".as_slice(),
        b"dev",
        b"v1",
        b"7",
        b"7/head",
        b"34/1234/1",
    ] {
        add_word(specs, word, &mut words)?;
    }
    Ok(words)
}

// Adds a word, unless a ref that a spec requires ends with it: an example with that word may need a remote without the ref.
fn add_word(
    specs: &[RefSpecRef<'_>],
    word: &'static [u8],
    words: &mut Vec<BStr<'static>>,
) -> Result<(), AllocError> {
    if specs.iter().any(|spec| requires_word(spec, word)) {
        return Ok(());
    }
    Ok(words.push(BStr::new(word))?)
}

// Whether a spec requires a ref whose last words are these.
fn requires_word(spec: &RefSpecRef<'_>, word: &[u8]) -> bool {
    match required_name(spec) {
        None => false,
        Some(name) => match name.as_bytes().strip_suffix(word) {
            None => false,
            Some(folder) => folder.ends_with(b"/"),
        },
    }
}

fn is_source(spec: &RefSpecRef<'_>, source: &[u8]) -> bool {
    match spec.source() {
        Some(own) => !spec.is_negative() && own.as_bytes() == source,
        None => false,
    }
}

// Whether the source has text after its star.
fn has_suffix(spec: &RefSpecRef<'_>) -> bool {
    let Some(source) = spec.source() else {
        return false;
    };
    match split_at_first_star(source.as_bytes()) {
        Some((_, after)) => !spec.is_negative() && !after.is_empty(),
        None => false,
    }
}

// Advises what prevents a conflict.
fn write_advice(
    alloc: Global,
    group: &Group<'_>,
    required: &Required<'_>,
    conflict: &PossibleConflict,
    out: &mut Vec<u8>,
) -> Result<(), AllocError> {
    write_way_out(alloc, group, conflict, out)?;
    let first = Part {
        spec: conflict.first_spec,
        source: &conflict.first_source,
    };
    let second = Part {
        spec: conflict.second_spec,
        source: &conflict.second_source,
    };
    say_if_stopped(alloc, group, required, [first, second], out)
}

// Advises to exclude what conflicts, if that is all that it takes.
fn write_way_out(
    alloc: Global,
    group: &Group<'_>,
    conflict: &PossibleConflict,
    out: &mut Vec<u8>,
) -> Result<(), AllocError> {
    let Some(spec) = group.specs.get(conflict.first_spec) else {
        return Ok(());
    };
    let Some(other) = group.specs.get(conflict.second_spec) else {
        return out.extend_from_slice(
            b"Write to another folder than refs/tags/, or don't ask for all tags.",
        );
    };
    match exclusion_for(alloc, group, spec, other, conflict)? {
        None => out.extend_from_slice(b"Give one of them another destination."),
        Some(exclusion) => {
            let words = "Exclude one of them, for example by ";
            say(out, words, exclusion.text.as_slice())?;
            for directory in &exclusion.directories {
                say(out, " and ", directory.as_slice())?;
            }
            Ok(())
        }
    }
}

// A negative spec, and those for refs that would then be written to a directory of what it leaves to the other spec.
#[derive(Drop)]
struct Exclusion {
    text: Vec<u8>,
    directories: Vec<Vec<u8>>,
}

// A negative spec that prevents the conflict of two specs of a group, and leaves something to each spec.
fn exclusion_for<'s>(
    alloc: Global,
    group: &Group<'s>,
    spec: &RefSpecRef<'s>,
    other: &RefSpecRef<'s>,
    conflict: &PossibleConflict,
) -> Result<Option<Exclusion>, AllocError> {
    let destination = conflict.destination.as_bstr().as_bytes();
    match exclusion_of(alloc, group, spec, other, destination)? {
        Some(exclusion) => Ok(Some(exclusion)),
        None => exclusion_of(alloc, group, other, spec, destination),
    }
}

// The same by sources of the first spec.
fn exclusion_of<'s>(
    alloc: Global,
    group: &Group<'s>,
    spec: &RefSpecRef<'s>,
    other: &RefSpecRef<'s>,
    destination: &[u8],
) -> Result<Option<Exclusion>, AllocError> {
    match narrowing(alloc, spec, other, destination)? {
        Some(text) if prevents(alloc, group, text.as_slice(), spec, other)? => Ok(Some(
            Exclusion {
                text,
                directories: directory_exclusions(alloc, group, spec, other)?,
            },
        )),
        _ => Ok(None),
    }
}

// The texts of negative specs for the sources that a pattern maps to directories of all that another pattern writes.
fn directory_exclusions<'s>(
    alloc: Global,
    group: &Group<'s>,
    spec: &RefSpecRef<'s>,
    other: &RefSpecRef<'s>,
) -> Result<Vec<Vec<u8>>, AllocError> {
    let mut texts = Vec::new(alloc);
    let Some((folder, _)) = destination_parts(other) else {
        return Ok(texts);
    };
    let exclusions = Exclusions::of(alloc, group.specs.as_slice())?;
    let specs = tried_specs(alloc, group, spec, other)?;
    for at in 0..folder.len() {
        let (directory, rest) = folder.split_at(at);
        if !rest.starts_with(b"/") {
            continue;
        }
        if let Some(text) = negative_of(alloc, spec, directory)? {
            if is_of_use(alloc, &exclusions, specs.as_slice(), text.as_slice())? {
                texts.push(text)?;
            }
        }
    }
    Ok(texts)
}

// The specs beside which an exclusion for two of them is tried: all of a group, or in one of many specs the two and the
// negative ones.
pub(super) fn tried_specs<'s>(
    alloc: Global,
    group: &Group<'s>,
    spec: &RefSpecRef<'s>,
    other: &RefSpecRef<'s>,
) -> Result<Vec<RefSpecRef<'s>>, AllocError> {
    if group.specs.len() > MANY {
        return beside_negatives(alloc, group, *spec, *other);
    }
    Vec::from_slice(alloc, group.specs.as_slice())
}

// The text of a negative spec for the source that a spec maps to a name, which may have a star. `None` if it maps none to it.
fn negative_of(
    alloc: Global,
    spec: &RefSpecRef<'_>,
    name: &[u8],
) -> Result<Option<Vec<u8>>, AllocError> {
    let Some(mapping) = spec.map_back(alloc, BStr::new(name))? else {
        return Ok(None);
    };
    let mut buffer = Vec::new(alloc);
    let source = source_of(&mapping.lhs, &mut buffer)?;
    Ok(Some(joined(alloc, b"^", source, b"")?.into_vec()))
}

// Whether a negative spec excludes a name that isn't excluded yet, and makes none of these specs idle.
fn is_of_use(
    alloc: Global,
    exclusions: &Exclusions<'_>,
    specs: &[RefSpecRef<'_>],
    text: &[u8],
) -> Result<bool, AllocError> {
    let Some(exclusion) = negative_spec(alloc, text)? else {
        return Ok(false);
    };
    match exclusion.source() {
        Some(source) if exclusions.spec_of(source.as_bytes()).is_none() => {
            leaves_all(alloc, specs, exclusion)
        }
        _ => Ok(false),
    }
}

// The text of a negative spec for those sources of a pattern that another spec's destinations meet.
fn narrowing(
    alloc: Global,
    spec: &RefSpecRef<'_>,
    other: &RefSpecRef<'_>,
    destination: &[u8],
) -> Result<Option<Vec<u8>>, AllocError> {
    let Some((before, after)) = destination_parts(spec) else {
        return Ok(None);
    };
    let Some((other_before, other_after)) = destination_parts(other) else {
        return negative_of(alloc, spec, destination);
    };
    let start = if other_before.starts_with(before) {
        other_before
    } else {
        before
    };
    let end = if other_after.ends_with(after) {
        other_after
    } else {
        after
    };
    let both = joined(alloc, start, b"*", end)?;
    negative_of(alloc, spec, both.as_bstr().as_bytes())
}

// The texts before and after the star of a destination, if that is a pattern.
fn destination_parts<'s>(spec: &RefSpecRef<'s>) -> Option<(&'s [u8], &'s [u8])> {
    split_at_first_star(spec.destination()?.as_bytes())
}

// A text as a negative spec, if it is a spec.
pub(super) fn negative_spec<'s>(
    alloc: Global,
    text: &'s [u8],
) -> Result<Option<RefSpecRef<'s>>, AllocError> {
    match parse(alloc, BStr::new(text), Operation::Fetch) {
        Ok(exclusion) => Ok(Some(exclusion)),
        Err(Error::Memory) => Err(AllocError),
        Err(_) => Ok(None),
    }
}

// Whether two specs of a group can't conflict beside one more negative spec, and no spec is idle because of it.
fn prevents(
    alloc: Global,
    group: &Group<'_>,
    text: &[u8],
    spec: &RefSpecRef<'_>,
    other: &RefSpecRef<'_>,
) -> Result<bool, AllocError> {
    let Some(exclusion) = negative_spec(alloc, text)? else {
        return Ok(false);
    };
    let pair = beside_negatives(alloc, group, *spec, *other)?;
    let narrowed = with_exclusion(alloc, pair.as_slice(), exclusion)?;
    let fetch = values_alone(narrowed.as_slice());
    if !or_nothing(alloc, possible_conflicts(alloc, &fetch, &[]))?.is_empty() {
        return Ok(false);
    }
    let tried = tried_specs(alloc, group, spec, other)?;
    leaves_all(alloc, tried.as_slice(), exclusion)
}

// Two specs, and the negative ones of a group.
pub(super) fn beside_negatives<'s>(
    alloc: Global,
    group: &Group<'s>,
    spec: RefSpecRef<'s>,
    other: RefSpecRef<'s>,
) -> Result<Vec<RefSpecRef<'s>>, AllocError> {
    let mut specs = Vec::new(alloc);
    specs.push(spec)?;
    specs.push(other)?;
    for one in &group.specs {
        if one.is_negative() {
            specs.push(*one)?;
        }
    }
    Ok(specs)
}

pub(super) fn with_exclusion<'s>(
    alloc: Global,
    specs: &[RefSpecRef<'s>],
    exclusion: RefSpecRef<'s>,
) -> Result<Vec<RefSpecRef<'s>>, AllocError> {
    let mut specs = Vec::from_slice(alloc, specs)?;
    specs.push(exclusion)?;
    Ok(specs)
}

// Whether a negative spec makes no spec idle.
pub(super) fn leaves_all(
    alloc: Global,
    specs: &[RefSpecRef<'_>],
    exclusion: RefSpecRef<'_>,
) -> Result<bool, AllocError> {
    let narrowed = with_exclusion(alloc, specs, exclusion)?;
    Ok(idle_count(alloc, narrowed.as_slice())? == idle_count(alloc, specs)?)
}

// How many specs are idle.
fn idle_count(alloc: Global, specs: &[RefSpecRef<'_>]) -> Result<usize, AllocError> {
    Ok(or_nothing(alloc, idle_specs(alloc, &values_alone(specs)))?.len())
}
