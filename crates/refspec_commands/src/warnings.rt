//! The warnings of `check`: what valid specs do, but hardly anybody wants.

ghost use Rattle.std.specs.Prelude.{◌≡◌, ◌⊎◌, ◌++◌, ◌∷◌, [], Err, List, Ok, map, option_to_list, IfOk, OnOk, ℕ};
ghost use Rattle.std.specs.List.{AllZip};
ghost use Rattle.gix_refspec_text.specs.Views.Spec.{reading_of};
ghost use Rattle.gix_refspec_lint.specs.declared.Error.TheVariants as lint_error;
ghost use Rattle.refspec_json.specs.Views.{warned_texts};
ghost use Rattle.refspec_io.specs.declared.call.Form.TheVariants.{Json};
ghost use Rattle.refspec_io.specs.Shown.{WritesQuoted};
ghost use Rattle.refspec_io.specs.Texts.{given_of};
ghost use Rattle.refspec_commands.specs.Seen.{Seen};
ghost use Rattle.refspec_commands.specs.Warned.{AddsSaid, AreSaidOf, AreSaidOn, AreWarnings, IsSaidLine, IsSaidText, IsWarned};
ghost use Rattle.refspec_commands.specs.WarnedViews.{IsGroup, SpecsMatchTexts, asked_at, asked_of, said_of, seen_of, topic_name};

pub mod beside;
mod conflicts;
mod directories;
mod effects;
mod group;
mod idle;
mod near;
mod required;
mod rules;

use beside::Beside;
use gix_refspec::parsing::Operation;
use group::{Group, groups_of};
use refspec_io::call::Form;
use refspec_io::checked::Checked;
use refspec_io::json;
use refspec_io::quote::write_in_message;
use refspec_io::report::Report;
use refspec_io::texts::{Location, Text};
use refspec_json::WarnedSpec;
use std::alloc::{AllocError, Global};
use std::collections::BTreeMap;

/// What a warning is about.
#[derive(Clone, Copy, Debug, PartialEq, Eq)]
pub enum Topic {
    /// Two specs can write one ref from two sources.
    PossibleConflict,
    /// One spec can write a directory of what another writes.
    DirectoryConflict,
    /// A side of a spec is never a valid ref name.
    IdleInvalid,
    /// Negative specs exclude all that a spec takes.
    IdleExcluded,
    /// Earlier specs map all that a spec takes to the same destinations.
    IdleDuplicate,
    /// A negative spec excludes nothing that a fetch takes.
    IdleExclusion,
    /// A negative spec isn't a full name.
    ExcludesNoBranch,
    /// Git completes a destination.
    DestinationOutsideRefs,
    /// A source that isn't a full name has a destination.
    PartialSource,
    /// Pruning deletes tags that were made here.
    PrunesTags,
    /// Pruning deletes branches that were made here.
    PrunesBranches,
    /// Two remotes write one ref.
    SharedDestination,
    /// A remote has no fetch values.
    NoFetchValues,
}

impl Topic {
    /// The name, for the member `name`.
    pub fn name(self) -> &'static str
        ensures { result.now ≡ topic_name self }
    {
        match self {
            Topic::PossibleConflict => "possible_conflict",
            Topic::DirectoryConflict => "directory_conflict",
            Topic::IdleInvalid => "idle_invalid",
            Topic::IdleExcluded => "idle_excluded",
            Topic::IdleDuplicate => "idle_duplicate",
            Topic::IdleExclusion => "idle_exclusion",
            Topic::ExcludesNoBranch => "excludes_no_branch",
            Topic::DestinationOutsideRefs => "destination_outside_refs",
            Topic::PartialSource => "partial_source",
            Topic::PrunesTags => "prunes_tags",
            Topic::PrunesBranches => "prunes_branches",
            Topic::SharedDestination => "shared_destination",
            Topic::NoFetchValues => "no_fetch_values",
        }
    }

    // What a warning says of so many specs, in its first line.
    fn title(self, count: usize) -> &'static str {
        match self {
            Topic::PossibleConflict => "these can conflict",
            Topic::DirectoryConflict => "the first of these can be in the way of the second",
            Topic::IdleInvalid => "this fetches nothing",
            Topic::IdleExcluded | Topic::IdleDuplicate if count > 1 => {
                "the first of these adds nothing to a fetch"
            }
            Topic::IdleExcluded | Topic::IdleDuplicate => "this adds nothing to a fetch",
            Topic::IdleExclusion => "this excludes nothing",
            Topic::ExcludesNoBranch => "this excludes no branch",
            Topic::DestinationOutsideRefs => "this destination is not below refs/",
            Topic::PartialSource => "this source is not a full name",
            Topic::PrunesTags => "pruning deletes local tags",
            Topic::PrunesBranches => "pruning deletes local branches",
            Topic::SharedDestination => "two remotes write the same refs",
            Topic::NoFetchValues => "this remote has no fetch values",
        }
    }
}

/// A warning.
#[derive(Debug, Drop)]
pub struct Warning<'a> {
    pub topic: Topic,
    pub location: Location<'a>,
    /// The specs that it is about.
    pub specs: Vec<Text<'a>>,
    /// What happens, with an example.
    pub message: Vec<u8>,
    /// What to do; empty if there is nothing more to say.
    pub advice: Vec<u8>,
}

impl<'a> Warning<'a> {
    /// A warning without specs, whose texts are still empty.
    pub fn at(alloc: Global, topic: Topic, location: Location<'a>) -> Warning<'a>
        ensures topic { result.topic ≡ topic }
        ensures location { result.location ≡ location.entry }
        ensures empty { (result.specs.items ≡ []) × (result.message.items ≡ []) }
    {
        Warning {
            topic,
            location,
            specs: Vec::new(alloc),
            message: Vec::new(alloc),
            advice: Vec::new(alloc),
        }
    }

    /// A warning on specs, of which the first is the one to change, with still empty texts.
    pub fn on(
        alloc: Global,
        topic: Topic,
        first: Text<'a>,
        second: Option<Text<'a>>,
    ) -> Result<Warning<'a>, AllocError>
        ensures topic { IfOk result (λ w. w.topic ≡ topic) }
        ensures location { IfOk result (λ w. w.location ≡ first.entry.location) }
        ensures texts { IfOk result (λ w. map given_of w.specs.items
            ≡ given_of first.entry ∷ map given_of (option_to_list second.entry)) }
        ensures message { IfOk result (λ w. w.message.items ≡ []) }
    {
        let mut warning = Warning::at(alloc, topic, first.location);
        warning.specs.push(first)?;
        if let Some(second) = second {
            warning.specs.push(second)?;
        }
        Ok(warning)
    }

    // Reports it.
    fn report(&self, alloc: Global, report: &mut Report) -> Result<(), AllocError>
        ensures form { OnOk result (report.new.form ≡ report.old.form) }
        ensures said { OnOk result (AddsSaid report.old.form (said_of self.now ∷ []) report.old report.new) }
    {
        match report.form {
            Form::Json => self.write_object(alloc, &mut report.results),
            Form::Lines | Form::Zeros => self.write_lines(alloc, &mut report.messages),
        }
    }

    // Appends its lines.
    fn write_lines(&self, alloc: Global, out: &mut Vec<u8>) -> Result<(), AllocError>
        ensures { OnOk result ((lines : List ℕ) × IsSaidText (said_of self.now) lines × (out.new.items ≡ out.old.items ++ lines)) }
    {
        let mut lines = self.lines(alloc)?;
        out.extend_from_slice(b"warning: ")?;
        out.append(&mut lines)?;
        Ok(())
    }

    // What its lines say: the location, the texts that it is about, each with its location if that is another, what
    // happens, and what to do.
    fn lines(&self, alloc: Global) -> Result<Vec<u8>, AllocError> {
        let location = shown(alloc, &self.location)?;
        let mut lines = Vec::from_slice(alloc, location.as_slice())?;
        lines.extend_from_slice(b": ")?;
        let title = self.topic.title(self.specs.len());
        lines.extend_from_slice(title.as_bytes())?;
        lines.extend_from_slice(b":\n")?;
        for text in &self.specs {
            lines.extend_from_slice(b"    ")?;
            write_in_message(&mut lines, text.bytes)?;
            let other = shown(alloc, &text.location)?;
            if other != location {
                lines.extend_from_slice(b" (")?;
                lines.extend_from_slice(other.as_slice())?;
                lines.push(b')')?;
            }
            lines.push(b'\n')?;
        }
        write_line(self.message.as_slice(), &mut lines)?;
        write_line(self.advice.as_slice(), &mut lines)?;
        Ok(lines)
    }

    // Appends its object, as a line.
    fn write_object(&self, alloc: Global, out: &mut Vec<u8>) -> Result<(), AllocError>
        ensures { OnOk result ((line : List ℕ) × IsSaidLine (said_of self.now) line × (out.new.items ≡ out.old.items ++ line)) }
    {
        let specs = warned_specs(alloc, self.specs.as_slice())?;
        let location = json::shown_location(alloc, &self.location)?;
        let message = json::text_of(alloc, self.message.as_slice())?;
        let advice = json::text_of(alloc, self.advice.as_slice())?;
        let object = refspec_json::Warning {
            name: self.topic.name(),
            location: location.as_str(),
            specs: specs.as_slice(),
            message: message.as_str(),
            advice: advice.as_str(),
        };
        object.write_line(alloc, out)
    }
}

// The texts of a warning, as its object has them.
fn warned_specs(alloc: Global, texts: &[Text<'_>]) -> Result<Vec<WarnedSpec>, AllocError>
    ensures { IfOk result (λ specs. AllZip IsWarned (map given_of texts.now) (map warned_texts specs.items)) }
{
    let mut specs = Vec::with_capacity(alloc, texts.len())?;
    for text in texts {
        specs.push(WarnedSpec {
            location: json::shown_location(alloc, &text.location)?,
            text: json::text_of(alloc, text.bytes)?,
        })?;
    }
    Ok(specs)
}

// A location as lines show it.
fn shown(alloc: Global, location: &Location<'_>) -> Result<Vec<u8>, AllocError> {
    let mut shown = Vec::new(alloc);
    location.write(&mut shown, Form::Lines)?;
    Ok(shown)
}

// Appends an indented line, unless it is empty.
fn write_line(line: &[u8], out: &mut Vec<u8>) -> Result<(), AllocError> {
    if line.is_empty() {
        return Ok(());
    }
    out.extend_from_slice(b"    ")?;
    out.extend_from_slice(line)?;
    Ok(out.push(b'\n')?)
}

/// Appends words and a name, as messages show it.
pub fn say(out: &mut Vec<u8>, words: &str, name: &[u8]) -> Result<(), AllocError>
    ensures { OnOk result (WritesQuoted name.now (out.old.items ++ words.now) out.new.items) }
{
    out.extend_from_slice(words.as_bytes())?;
    write_in_message(out, name)
}

/// Reports warnings, in order: behind the messages, or in JSON as results. Fails if memory runs out.
pub fn report_warnings(
    alloc: Global,
    warnings: &[Warning<'_>],
    report: &mut Report,
) -> Result<(), AllocError>
    ensures { OnOk result (AddsSaid report.old.form (map said_of warnings.now) report.old report.new) }
{
    for warning in warnings {
        warning.report(alloc, report)?;
    }
    Ok(())
}

/// The warnings on checked texts, by their keys. A fetch also takes what `beside` has at the key of its values. In lines only
/// the first 20 conflicts of a key are shown. Fails if memory runs out.
pub fn warnings_of<'a>(
    alloc: Global,
    form: Form,
    all: &[Checked<'a>],
    beside: &BTreeMap<&'a [u8], Beside<'a>>,
) -> Result<Vec<Warning<'a>>, AllocError>
    ensures { form ≡ Json → IfOk result (λ found. AreWarnings (asked_at beside.now) (map seen_of all.now)
        (map said_of found.items)) }
{
    let nothing = Beside::nothing(alloc);
    let mut found = Vec::new(alloc);
    for (key, group) in groups_of(alloc, all)? {
        let beside = beside.get(key).unwrap_or(&nothing);
        let mut more = warnings_in(alloc, form, &group, beside)?;
        found.append(&mut more)?;
    }
    Ok(found)
}

// The warnings on a group. There are none if a text is refused, which may change all.
fn warnings_in<'a>(
    alloc: Global,
    form: Form,
    group: &Group<'a>,
    beside: &Beside<'a>,
) -> Result<Vec<Warning<'a>>, AllocError>
    requires { SpecsMatchTexts group.now }
    ensures { (seen : List Seen) → form ≡ Json → IsGroup seen group.now → IfOk result (λ found.
        AreSaidOf (asked_of beside.now) seen (map said_of found.items)) }
{
    if group.has_bad {
        return Ok(Vec::new(alloc));
    }
    warnings_on(alloc, form, group, beside)
}

// The warnings on a group without refused texts.
fn warnings_on<'a>(
    alloc: Global,
    form: Form,
    group: &Group<'a>,
    beside: &Beside<'a>,
) -> Result<Vec<Warning<'a>>, AllocError>
    requires { SpecsMatchTexts group.now }
    ensures { form ≡ Json → IfOk result (λ found. AreSaidOn (asked_of beside.now)
        (map reading_of group.now.specs.items) (map given_of group.now.texts.items)
        (map said_of found.items)) }
{
    if !group.is_fetch() {
        return rules::faults_in(alloc, group);
    }
    let mut found = conflicts::conflicts_in(alloc, form, group, beside)?;
    let mut directories = directories::directory_conflicts_in(alloc, form, group, beside)?;
    let mut idle = idle::idle_in(alloc, group, beside)?;
    let mut exclusions = idle::exclusions_in(alloc, group, beside)?;
    let mut others = rules::faults_in(alloc, group)?;
    found.append(&mut directories)?;
    found.append(&mut idle)?;
    found.append(&mut exclusions)?;
    found.append(&mut others)?;
    Ok(found)
}

// What the linter found. Without a free byte it can say nothing.
fn or_nothing<T: Drop>(
    alloc: Global,
    found: Result<Vec<T>, gix_refspec_lint::Error>,
) -> Result<Vec<T>, AllocError>
    ensures { IfOk result (λ all. (found ≡ Ok all) ⊎ ((found ≡ Err lint_error.NoFreeByte) × (all.items ≡ []))) }
{
    match found {
        Ok(found) => Ok(found),
        Err(gix_refspec_lint::Error::NoFreeByte) => Ok(Vec::new(alloc)),
        Err(gix_refspec_lint::Error::Memory) => Err(AllocError),
    }
}
