//! The remote refs that tracking refs are fetched from.

ghost use Rattle.std.specs.Prelude.{◌≡◌, map, replicate, IfOk};
ghost use Rattle.gix_refspec.specs.Views.Group.{ref_of};
ghost use Rattle.gix_refspec.specs.Texts.ObjectId.{id_bytes};
ghost use Rattle.gix_refspec.specs.Views.Spec.{reading_of};
ghost use Rattle.refspec_commands.specs.Track.{AddsTracked, named};

use crate::tracking::answer::answer_to;
use crate::tracking::question::{Order, Question, Remote};
use crate::tracking::report::report_answer;
use bstr::BStr;
use gix_refspec::RefSpecRef;
use gix_refspec::match_group::Item;
use gix_refspec::oid::{Kind, ObjectId};
use refspec_io::call::Call;
use refspec_io::report::Report;
use std::alloc::{AllocError, Global};
use std::collections::BTreeMap;

/// Reports the remote refs from which the tracking refs of a call are fetched, and the tracking refs that no spec
/// writes. Returns whether there are such refs, or a spec whose destination is an object id.
pub fn report_tracking(
    alloc: Global,
    call: &Call<'_>,
    specs: Vec<RefSpecRef<'_>>,
    report: &mut Report,
) -> Result<bool, AllocError>
    ensures { IfOk result (λ refused. AddsTracked report.old.form
        (map (λ w. w.now) call.now.refs.items) refused (map reading_of specs.entry.items)
        report.old.results.items report.new.results.items) }
{
    let none = ObjectId::null(Kind::shortest());
    let refs = items_named(alloc, call.refs.as_slice(), &none)?;
    let mut remotes = Vec::with_capacity(alloc, 1)?;
    remotes.push(Remote { name: None, specs })?;
    let question = Question {
        refs,
        remotes,
        order: Order::Specs,
    };
    let answer = answer_to(alloc, &question)?;
    let advice = BTreeMap::new(alloc);
    report_answer(alloc, question.order, &answer, &advice, report)?;
    Ok(answer.status() > 0)
}

// Refs with these names, in order. All have the target `target`, since only their names are known.
fn items_named<'a>(
    alloc: Global,
    names: &[&'a str],
    target: &'a ObjectId,
) -> Result<Vec<Item<'a>>, AllocError>
    requires { id_bytes target.now ≡ replicate 20 0 }
    ensures { IfOk result (λ items. map ref_of items.items ≡ map named (map (λ n. n.now) names.now)) }
{
    let mut items = Vec::with_capacity(alloc, names.len())?;
    for name in names {
        items.push(Item {
            full_ref_name: BStr::new(name.as_bytes()),
            target,
            object: None,
        })?;
    }
    Ok(items)
}
