//! What `git refspec upstream` reports: the upstreams of branches, by their settings and those of their remotes.

ghost use Rattle.std.specs.Prelude.{◌≡◌, ◌≢◌, ◌↔◌, ◌++◌, ◌∷◌, [], ℕ, List, IfErr, IfOk, IsTrue, MatchBool, MatchOption};
ghost use Rattle.std.specs.Prelude.{OnOk, codes, map, option_map, unwrap_or};
ghost use Rattle.std.specs.List.{AllZip};
ghost use Rattle.gix_refspec.specs.Views.Spec.{reading_of};
ghost use Rattle.refspec_io.specs.declared.settings.Setting.{Setting};
ghost use Rattle.refspec_git.specs.Branches.{RefusesBranches};
ghost use Rattle.refspec_git.specs.Tracking.{AreSpecsIn, values_of};
ghost use Rattle.refspec_git.specs.Upstreams.{AnswersUpstream, AreSpecsBy, HaveSpecs, IsFetchValue, IsMergedBy};
ghost use Rattle.refspec_git.specs.Upstreams.{IsSetup, values_for};

use crate::answer::{Answer, reports};
use crate::branches::{Branch, branches_of};
use crate::remotes::add_spec;
use gix_refspec::RefSpecRef;
use refspec_commands::upstreams::answer::answer_to;
use refspec_commands::upstreams::question::{Merged, Question, Setup};
use refspec_commands::upstreams::report::report_answer;
use refspec_io::report::Report;
use refspec_io::settings::Setting;
use refspec_request::arguments::Request;
use refspec_request::choice::Repository;
use refspec_request::refusal::Refusal;
use refspec_request::settings::name_and_variable;
use std::alloc::{AllocError, Global};
use std::collections::BTreeMap;

/// Reports the upstreams of the branches in the arguments, or of all that merge a ref.
pub fn report_upstreams<'a>(
    alloc: Global,
    request: &Request<'a>,
    repository: &Repository<'a, 'a>,
) -> Result<Answer, Refusal<'a>>
    ensures ok { IfOk result (AnswersUpstream repository.now request.now) }
    ensures refused { IfErr result (RefusesBranches repository.now request.now) }
{
    let branches = branches_of(alloc, request, repository)?;
    let specs = Specs::of(alloc, repository.settings)?;
    let question = question_of(alloc, branches.as_slice(), &specs)?;
    let answer = answer_to(alloc, &question)?;
    let mut report = Report::new(alloc, request.form);
    report_answer(alloc, &answer, &mut report)?;
    Ok(reports(report, answer.status()))
}

// The specs of each remote by its name.
type ByRemote<'a> = BTreeMap<&'a [u8], Vec<RefSpecRef<'a>>>;

// The specs of remotes.
#[derive(Drop)]
struct Specs<'a> {
    by_remote: ByRemote<'a>,
    // Those of any other name.
    none: Vec<RefSpecRef<'a>>,
}

impl<'a> Specs<'a> {
    fn of(alloc: Global, settings: &[Setting<'a>]) -> Result<Specs<'a>, AllocError>
        ensures { IfOk result (HaveSpecs settings.now) }
    {
        Ok(Specs {
            by_remote: specs_by_remote(alloc, settings)?,
            none: Vec::new(alloc),
        })
    }
}

// The specs of the fetch values of each remote, but for refused ones.
fn specs_by_remote<'a>(alloc: Global, settings: &[Setting<'a>]) -> Result<ByRemote<'a>, AllocError>
    ensures { IfOk result (AreSpecsBy settings.now) }
{
    let mut specs = BTreeMap::new(alloc);
    for setting in settings {
        add_value(alloc, setting, &mut specs)?;
    }
    Ok(specs)
}

// Adds the spec of a setting to those of its remote, if it is a fetch value.
fn add_value<'a>(
    alloc: Global,
    setting: &Setting<'a>,
    specs: &mut ByRemote<'a>,
) -> Result<(), AllocError>
    ensures { (seen : List Setting) → AreSpecsBy seen specs.old → OnOk result
        (AreSpecsBy (seen ++ setting.now ∷ []) specs.new) }
{
    let Some(name) = fetched_by(setting) else {
        return Ok(());
    };
    let mut own = specs.remove(name).unwrap_or(Vec::new(alloc));
    add_spec(alloc, setting, &mut own)?;
    specs.insert(name, own)?;
    Ok(())
}

// The remote whose fetch value a setting is.
fn fetched_by<'a>(setting: &Setting<'a>) -> Option<&'a [u8]>
    ensures { MatchOption result ((name : List ℕ) → ¬ (IsFetchValue name setting.now))
        (λ name. IsFetchValue name.now setting.now) }
{
    match name_and_variable(b"remote", setting.key) {
        None => None,
        Some((name, variable)) => { if is_fetch(variable) { Some(name) } else { None } }
    }
}

fn is_fetch(variable: &[u8]) -> bool
    ensures { IsTrue result ↔ (variable.now ≡ codes "fetch") }
{
    variable == b"fetch".as_slice()
}

// What these branches merge, and the specs of their remotes.
fn question_of<'q, 'a>(
    alloc: Global,
    branches: &[Branch<'a>],
    specs: &'q Specs<'a>,
) -> Result<Question<'q, 'a>, AllocError>
    ensures { IfOk result (λ question. (settings : List Setting) → HaveSpecs settings specs.now
        → AllZip (IsMergedBy settings) branches.now question.merged.items) }
{
    let mut merged = Vec::with_capacity(alloc, branches.len())?;
    for one in branches {
        merged.push(merged_by(one, specs))?;
    }
    Ok(Question { merged })
}

// What a branch merges, and the specs of its remote.
fn merged_by<'q, 'a>(branch: &Branch<'a>, specs: &'q Specs<'a>) -> Merged<'q, 'a>
    ensures { (settings : List Setting) → HaveSpecs settings specs.now → IsMergedBy settings branch.now result }
{
    Merged {
        branch: Some(branch.name),
        remote: branch.remote,
        specs: specs_for(branch.remote, specs),
        name: name_or_empty(branch.merge),
        setup: setup_of(branch),
    }
}

fn name_or_empty<'a>(name: Option<&'a [u8]>) -> &'a [u8]
    ensures { result.now ≡ unwrap_or (option_map (λ n. n.now) name.entry) [] }
{
    match name {
        None => b"",
        Some(name) => name,
    }
}

// The specs of a remote; none without one.
fn specs_for<'q, 'a>(remote: Option<&[u8]>, specs: &'q Specs<'a>) -> &'q [RefSpecRef<'a>]
    ensures { (settings : List Setting) → HaveSpecs settings specs.now
        → AreSpecsIn (values_for settings (option_map (λ n. n.now) remote.entry)) (map reading_of result.now) }
{
    let Some(name) = remote else {
        return specs.none.as_slice();
    };
    specs_named(name, specs)
}

// The specs of the remote with a name.
fn specs_named<'q, 'a>(name: &[u8], specs: &'q Specs<'a>) -> &'q [RefSpecRef<'a>]
    ensures { (settings : List Setting) → HaveSpecs settings specs.now
        → AreSpecsIn (values_of settings name.now) (map reading_of result.now) }
{
    let Some(own) = specs.by_remote.get(name) else {
        return specs.none.as_slice();
    };
    own.as_slice()
}

// From where a branch merges.
fn setup_of<'a>(branch: &Branch<'a>) -> Setup<'a>
    ensures { IsSetup branch.now result }
{
    match branch.merge {
        None => Setup::NoMerge,
        Some(name) => match branch.remote {
            None => Setup::NoRemote,
            Some(remote) => {
                if is_here(remote) {
                    Setup::Here(name)
                } else {
                    Setup::Remote
                }
            }
        },
    }
}

// Whether the name of a remote is that of this repository.
fn is_here(remote: &[u8]) -> bool
    ensures { MatchBool result (remote.now ≡ codes ".") (remote.now ≢ codes ".") }
{
    remote == b".".as_slice()
}
