//! The specs of a fetch of a remote, from the arguments and the configuration.

ghost use Rattle.std.specs.Prelude.{◌≡◌, ◌++◌, ◌∷◌, [], List, codes, cond, map, ℕ, IfErr, IfOk, MatchOption, OnOk};
ghost use Rattle.bstr.specs.BStr.{bstr_bytes};
ghost use Rattle.gix_refspec.specs.Views.Spec.{reading_of};
ghost use Rattle.refspec_io.specs.Read.{AreRead};
ghost use Rattle.refspec_io.specs.Texts.{given_of, said};
ghost use Rattle.refspec_fetch.specs.Answer.{takes_all};
ghost use Rattle.refspec_fetch.specs.Report.{report_of};
ghost use Rattle.refspec_git.specs.Asked.{AreAskedTexts, AreConfiguredTexts, AreMergedOrHead, AreMergedTexts};
ghost use Rattle.refspec_git.specs.Asked.{AreNamedTexts, asks_tags, unwritten};
ghost use Rattle.refspec_git.specs.Fetch.{AreAmong, RefusesTexts, given_texts, merged_name, texts_in};
ghost use Rattle.refspec_git.specs.Wanted.{AreSpecsOf, MapsBy, RefusesGiven, RefusesMapping, all_tags, is_stale};
ghost use Rattle.refspec_git.specs.Wanted.{refmap_text};

use crate::answer::Stop;
use crate::configured::{fetch_texts, merges_of, pruning_setting, tags_of};
use crate::given::given_specs;
use crate::sources::{Names, takes_longer};
use crate::texts::{argument, value};
use bstr::BStr;
use gix_refspec::RefSpecRef;
use gix_refspec::match_group::ref_names::is_ref_name;
use gix_refspec::parsing::Operation;
use refspec_commands::specs::report_texts;
use refspec_fetch::question::Tags;
use refspec_io::checked::{all_good, check_all};
use refspec_io::report::Report;
use refspec_io::settings::Setting;
use refspec_io::texts::Text;
use refspec_request::arguments::{Request, Subcommand};
use refspec_request::choice::{Choice, Repository};
use refspec_request::refusal::Refusal;
use refspec_request::remotes::is_configured;
use std::alloc::{AllocError, Global};

// The spec of all tags.
const ALL_TAGS: &str = "refs/tags/*:refs/tags/*";

/// The specs of a fetch.
#[derive(Drop)]
pub struct Specs<'a> {
    /// Those among the arguments, in order.
    pub given: Vec<String>,
    /// The fetch values of the remote, in order, and that of tags that are pruned; or those of `--refmap`.
    pub configured: Vec<Text<'a>>,
    /// The values of `branch.NAME.merge`, as written.
    pub merges: Vec<&'a [u8]>,
    pub tags: Tags,
}

/// The texts of the specs of a fetch: the given ones, and then the configured ones.
pub fn texts_of<'a>(alloc: Global, specs: &'a Specs<'a>) -> Result<Vec<Text<'a>>, AllocError>
    ensures { IfOk result (λ texts. map given_of texts.items ≡ texts_in specs.now) }
{
    let mut texts = given_texts(alloc, specs.given.as_slice())?;
    texts.extend_from_slice(specs.configured.as_slice())?;
    Ok(texts)
}

/// The texts of the specs by which a client asks for refs: the given ones, or without any the configured ones and what
/// the branch merges, or without these `HEAD`; and all tags, unless tags are left.
pub fn asked_texts<'a>(alloc: Global, specs: &'a Specs<'a>) -> Result<Vec<Text<'a>>, AllocError>
    ensures { IfOk result (λ texts. AreAskedTexts specs.now (map given_of texts.items)) }
{
    let mut texts = named_texts(alloc, specs)?;
    add_tags(&mut texts, specs.tags)?;
    Ok(texts)
}

// Adds the text of all tags, unless tags are left: Git asks for all also to follow those of what it fetches.
fn add_tags(texts: &mut Vec<Text<'_>>, tags: Tags) -> Result<(), AllocError>
    ensures { OnOk result (map given_of texts.new.items
        ≡ map given_of texts.old.items ++ cond (asks_tags tags) (unwritten all_tags ∷ []) []) }
{
    if asks_tags(tags) {
        return Ok(texts.push(argument(1, Operation::Fetch, ALL_TAGS.as_bytes()))?);
    }
    Ok(())
}

// Whether a client asks for tags.
fn asks_tags(tags: Tags) -> bool
    ensures { result ≡ asks_tags tags }
{
    match tags {
        Tags::Followed => true,
        Tags::All => true,
        Tags::Left => false,
    }
}

/// Whether a fetch takes all tags.
pub fn takes_all(tags: Tags) -> bool
    ensures { result ≡ takes_all tags }
{
    matches!(tags, Tags::All)
}

// The texts of the given specs, or without any those of the configured ones and of what the branch merges.
fn named_texts<'a>(alloc: Global, specs: &'a Specs<'a>) -> Result<Vec<Text<'a>>, AllocError>
    ensures { IfOk result (λ texts. AreNamedTexts specs.now (map given_of texts.items)) }
{
    let given = specs.given.as_slice();
    if given.is_empty() {
        return configured_texts(alloc, specs);
    }
    given_texts(alloc, given)
}

// The texts of the configured specs and of what the branch merges.
fn configured_texts<'a>(alloc: Global, specs: &'a Specs<'a>) -> Result<Vec<Text<'a>>, AllocError>
    ensures { IfOk result (λ texts. AreConfiguredTexts (map given_of specs.now.configured.items)
        (map (λ m. m.now) specs.now.merges.items) (map given_of texts.items)) }
{
    let configured = specs.configured.as_slice();
    let merges = specs.merges.as_slice();
    if configured.is_empty() {
        return merged_or_head(alloc, merges);
    }
    let mut texts = merged_texts(alloc, merges)?;
    let mut all = Vec::from_slice(alloc, configured)?;
    all.append(&mut texts)?;
    Ok(all)
}

// The texts of what the branch merges, or without anything that of `HEAD`.
fn merged_or_head<'a>(alloc: Global, merges: &[&'a [u8]]) -> Result<Vec<Text<'a>>, AllocError>
    ensures { IfOk result (λ texts. AreMergedOrHead (map (λ m. m.now) merges.now) (map given_of texts.items)) }
{
    if merges.is_empty() {
        return head_text(alloc);
    }
    merged_texts(alloc, merges)
}

// The text of `HEAD`.
fn head_text<'a>(alloc: Global) -> Result<Vec<Text<'a>>, AllocError>
    ensures { IfOk result (λ texts. map given_of texts.items ≡ unwritten (codes "HEAD") ∷ []) }
{
    let mut texts = Vec::new(alloc);
    texts.push(argument(1, Operation::Fetch, b"HEAD"))?;
    Ok(texts)
}

// The texts of what a branch merges, but for names that a server isn't asked for.
fn merged_texts<'a>(alloc: Global, merges: &[&'a [u8]]) -> Result<Vec<Text<'a>>, AllocError>
    ensures { IfOk result (λ texts.
        AreMergedTexts (map (λ m. m.now) merges.now) (map given_of texts.items)) }
{
    let mut texts = Vec::with_capacity(alloc, merges.len())?;
    for merge in merges {
        add_merged(&mut texts, merge)?;
    }
    Ok(texts)
}

// Adds the text of what a branch merges, if a server is asked for that name.
fn add_merged<'a>(texts: &mut Vec<Text<'a>>, merge: &'a [u8]) -> Result<(), AllocError>
    ensures { OnOk result ((merges : List (List ℕ)) → AreMergedTexts merges (map given_of texts.old.items)
        → AreMergedTexts (merges ++ merge.entry.now ∷ []) (map given_of texts.new.items)) }
{
    let name = merged_name(merge);
    if is_ref_name(name) {
        return Ok(texts.push(argument(1, Operation::Fetch, name))?);
    }
    Ok(())
}

/// The specs of texts. If some are refused, these are reported, and there are no specs.
pub fn specs_in<'a>(
    alloc: Global,
    texts: &[Text<'a>],
    report: &mut Report,
) -> Result<Option<Vec<RefSpecRef<'a>>>, AllocError>
    ensures { IfOk result (λ specs. MatchOption specs
        (RefusesTexts (map given_of texts.now) (report_of report.old) (report_of report.new))
        (λ all. AreRead (map said (map given_of texts.now)) (map reading_of all.items)
        × (report.new ≡ report.old))) }
{
    let all = check_all(alloc, texts)?;
    match all_good(alloc, all.as_slice())? {
        Some(specs) => Ok(Some(specs)),
        None => {
            report_texts(alloc, None, all.as_slice(), report)?;
            Ok(None)
        }
    }
}

// The texts of specs among the arguments.
fn given_texts(alloc: Global, given: &[String]) -> Result<Vec<Text<'_>>, AllocError>
    ensures { IfOk result (λ texts. map given_of texts.items ≡ given_texts (map (λ t. t.bytes.items) given.now)) }
{
    let mut texts = Vec::with_capacity(alloc, given.len())?;
    for (index, spec) in given.iter().enumerate() {
        texts.push(argument(index.saturating_add(1), Operation::Fetch, spec.as_bytes()))?;
    }
    Ok(texts)
}

/// The specs that a fetch maps refs with. Those of `--refmap` take the place of the configured ones. By given specs, the
/// configured ones prune nothing. Refuses `--refmap` without given specs, and arguments as `given_specs` does.
pub fn mapping_specs<'a>(
    alloc: Global,
    request: &Request<'a>,
    repository: &Repository<'a, 'a>,
    choice: &Choice<'a>,
) -> Result<Specs<'a>, Stop<'a>>
    ensures ok { IfOk result (λ specs. MapsBy repository.now request.now choice.now specs) }
    ensures refused { IfErr result (RefusesMapping request.now choice.now) }
{
    let mut specs = specs_of(alloc, repository, choice)?;
    if specs.given.is_empty() && !request.refmap.is_empty() {
        return Err(Stop::Refused(Refusal::IdleRefmap));
    }
    if is_stale(request.command) && !specs.given.is_empty() {
        specs.configured.clear();
    } else if !request.refmap.is_empty() {
        specs.configured = refmap_texts(alloc, request.refmap.as_slice())?;
    }
    Ok(specs)
}

fn is_stale(command: Subcommand) -> bool
    ensures { result ≡ is_stale command }
{
    matches!(command, Subcommand::Stale)
}

// The specs of `--refmap`, as values of one setting.
fn refmap_texts<'a>(alloc: Global, refmap: &[&'a [u8]]) -> Result<Vec<Text<'a>>, AllocError>
    ensures { IfOk result (λ texts. map given_of texts.items ≡ map refmap_text (map (λ r. r.now) refmap.now)) }
{
    let mut texts = Vec::with_capacity(alloc, refmap.len())?;
    for spec in refmap {
        let setting = Setting {
            origin: b"command line:",
            key: b"remote.--refmap.fetch",
            value: Some(*spec),
        };
        texts.push(value(&setting, Operation::Fetch, spec))?;
    }
    Ok(texts)
}

/// The specs of a fetch: the given ones, and what the configuration adds. Refuses arguments as `given_specs` does.
pub fn specs_of<'a>(
    alloc: Global,
    repository: &Repository<'a, 'a>,
    choice: &Choice<'a>,
) -> Result<Specs<'a>, Stop<'a>>
    ensures ok { IfOk result (λ specs. AreSpecsOf repository.now choice.now specs) }
    ensures refused { IfErr result (RefusesGiven (map (λ text. text.now) choice.now.specs.items)) }
{
    let settings = repository.settings;
    let mut given = given_specs(alloc, choice.specs.as_slice())?;
    let mut configured = fetch_texts(alloc, settings, choice.remote)?;
    if given.is_empty() {
        if let Some(setting) = pruning_setting(alloc, settings, choice.remote)? {
            if is_configured(settings, choice.remote) {
                configured.push(value(&setting, Operation::Fetch, ALL_TAGS.as_bytes()))?;
            } else {
                given.push(String::from_str(alloc, ALL_TAGS)?)?;
            }
        }
    }
    Ok(Specs {
        given,
        configured,
        merges: merges_of(alloc, repository, choice.remote)?,
        tags: tags_of(alloc, settings, choice.remote)?,
    })
}

// What a branch merges. An empty value is `HEAD`, as an empty source is.
fn merged_name(name: &[u8]) -> &[u8]
    ensures { result.now ≡ merged_name name.now }
{
    if name.is_empty() { b"HEAD" } else { name }
}

/// What a branch merges, but for names that are partial names of a ref that a configured spec takes, as `refs/heads/dev` is of
/// `refs/heads/refs/heads/dev`. Git takes that ref for the merged one.
pub fn kept_merges<'a>(
    alloc: Global,
    merges: &[&'a [u8]],
    configured: &[RefSpecRef<'_>],
    names: &Names<'_>,
) -> Result<Vec<BStr<'a>>, AllocError>
    ensures { IfOk result (λ kept. AreAmong (map (λ m. m.now) merges.now) (map bstr_bytes kept.items)) }
{
    let mut kept = Vec::new(alloc);
    for merge in merges {
        if !takes_longer(alloc, configured, merge, names)? {
            kept.push(BStr::new(merged_name(merge)))?;
        }
    }
    Ok(kept)
}
