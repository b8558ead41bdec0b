//! Why a ref isn't fetched, and what to do.

use crate::fates::answer::Answer;
use crate::fates::question::{Holder, Known, Question};
use crate::fates::stops::{Contest, Stop};
use crate::fates::ways::{
    write_addition, write_exchange, write_followed, write_list, write_removal,
};
use crate::full_names::{full_name, write_argument};
use bstr::BString;
use gix_refspec::match_group::ref_names::is_ref_name;
use gix_refspec_text::side::{joined, strip_refs};
use gix_refspec_why::{Effect, Fate};
use refspec_io::canonical::text_at;
use refspec_io::quote::write_in_message;
use std::alloc::{AllocError, Global};

// That a ref isn't fetched.
#[derive(Debug, Drop)]
pub(crate) struct Lack {
    // Why.
    pub(crate) message: &'static str,
    // What to do, in a line.
    pub(crate) advice: Vec<u8>,
}

// Why the ref of a question isn't fetched, and what to do.
pub(crate) fn advice_on(
    alloc: Global,
    question: &Question<'_, '_, '_>,
    holder: Holder<'_>,
    answer: &Answer,
) -> Result<Lack, AllocError> {
    if question.known == Known::Listed && answer.effects.item_index.is_none() {
        return absence_of(alloc, question, holder, answer);
    }
    if let Some(stop) = &answer.stop {
        return Ok(Lack {
            message: stop_message(stop),
            advice: stop_advice(alloc, holder, answer.texts.as_slice(), stop)?,
        });
    }
    obstacle_of(alloc, question, holder, answer)
}

// That the remote lacks a ref: if a spec takes it, the fetch fails without it.
fn absence_of(
    alloc: Global,
    question: &Question<'_, '_, '_>,
    holder: Holder<'_>,
    answer: &Answer,
) -> Result<Lack, AllocError> {
    let Some(index) = missing_spec(answer) else {
        return Ok(Lack {
            message: "The remote has no such ref.",
            advice: nearest_advice(alloc, question, holder)?,
        });
    };
    let mut advice = Vec::new(alloc);
    write_removal(holder, text_at(answer.texts.as_slice(), index), &mut advice)?;
    advice.push(b'.')?;
    if let Some(name) = nearest_name(question) {
        write_existing(b" The remote has ", name, &mut advice)?;
    }
    Ok(Lack {
        message: "The remote has no such ref, so Git fetches nothing.",
        advice,
    })
}

// The spec that stops the fetch, if it takes the ref.
fn missing_spec(answer: &Answer) -> Option<usize> {
    let Some(Stop::Missing(index)) = &answer.stop else {
        return None;
    };
    let effect = answer.effects.of_specs.get(*index)?;
    match effect.fate {
        Fate::Unmatched(_) | Fate::Excludes(_) => None,
        _ => Some(*index),
    }
}

// What is in the way of a ref that the remote has, if nothing stops the fetch.
fn obstacle_of(
    alloc: Global,
    question: &Question<'_, '_, '_>,
    holder: Holder<'_>,
    answer: &Answer,
) -> Result<Lack, AllocError> {
    match first_obstacle(answer) {
        None => Ok(Lack {
            message: "No spec fetches this ref.",
            advice: fetching_advice(alloc, question, holder, answer)?,
        }),
        Some(Obstacle::Excluded(index)) => Ok(Lack {
            message: "A negative spec excludes this ref.",
            advice: exclusion_advice(
                alloc,
                question,
                holder,
                text_at(answer.texts.as_slice(), index),
            )?,
        }),
        Some(Obstacle::Name) => Ok(Lack {
            message: "Git leaves this ref out, as its name isn't a valid one.",
            advice: Vec::from_slice(alloc, b"Give the ref another name on the remote.")?,
        }),
        Some(Obstacle::Destination(fault)) => Ok(Lack {
            message: "Git leaves this ref out, as no spec stores it in a ref with a valid name.",
            advice: destination_advice(alloc, question, holder, fault)?,
        }),
        Some(Obstacle::Conflict) => Ok(Lack {
            message: "This ref is in conflict with another one, so it isn't fetched.",
            advice: Vec::from_slice(alloc, APART)?,
        }),
        Some(Obstacle::Directory) => Ok(Lack {
            message: "Git writes this ref or the one that it is in conflict with, and then fails.",
            advice: Vec::from_slice(alloc, APART)?,
        }),
    }
}

// That something stops a fetch.
pub(crate) fn stop_message(stop: &Stop) -> &'static str {
    match stop {
        Stop::Missing(_) => "Git fetches nothing, as the remote lacks the source of a spec.",
        Stop::Conflict(_) => "Git fetches nothing, as two refs have one destination.",
        Stop::Other => "Git fetches nothing.",
    }
}

// What to do about what stops a fetch.
pub(crate) fn stop_advice(
    alloc: Global,
    holder: Holder<'_>,
    texts: &[BString],
    stop: &Stop,
) -> Result<Vec<u8>, AllocError> {
    let mut advice = Vec::new(alloc);
    match stop {
        Stop::Missing(index) => {
            write_removal(holder, text_at(texts, *index), &mut advice)?;
            advice.push(b'.')?;
        }
        Stop::Conflict(contest) => write_contest(contest, &mut advice)?,
        Stop::Other => advice.extend_from_slice(b"`git fetch` says why.")?,
    }
    Ok(advice)
}

// Appends which two refs have one destination, and what to do.
fn write_contest(contest: &Contest, out: &mut Vec<u8>) -> Result<(), AllocError> {
    write_in_message(out, contest.destination.as_bytes())?;
    out.extend_from_slice(b" is written from ")?;
    write_in_message(out, contest.first.as_bytes())?;
    out.extend_from_slice(b" and ")?;
    write_in_message(out, contest.other.as_bytes())?;
    out.extend_from_slice(b": exclude one of these, or give one of the specs another destination.")
}

// What to do about two refs of which one is in the way of the other.
const APART: &[u8] = b"Exclude the other source, or give one of the specs another destination.";

// What is in the way of a ref that some spec maps.
#[derive(Clone, Copy, Debug)]
enum Obstacle {
    // The negative spec at this index.
    Excluded(usize),
    Name,
    Destination(Fault),
    Conflict,
    // The destinations of two refs can't both exist.
    Directory,
}

// What is wrong with a destination.
#[derive(Clone, Copy, Debug)]
enum Fault {
    // It isn't below `refs/`.
    Outside,
    // It is, and has no valid name.
    Name,
}

// What is in the way by the first spec that maps the ref. `None` if no spec does.
fn first_obstacle(answer: &Answer) -> Option<Obstacle> {
    for effect in &answer.effects.of_specs {
        match effect.fate {
            Fate::Excluded(by) => return Some(Obstacle::Excluded(by.spec_index)),
            Fate::InvalidName => return Some(Obstacle::Name),
            Fate::InvalidDestination => return Some(Obstacle::Destination(fault_of(effect))),
            Fate::InConflict(_) => return Some(Obstacle::Conflict),
            Fate::DirectoryConflict(_) => return Some(Obstacle::Directory),
            Fate::Unmatched(_) | Fate::Excludes(_) | Fate::Duplicate(_) | Fate::Written => {}
        }
    }
    None
}

// What is wrong with the invalid destination of an effect.
fn fault_of(effect: &Effect) -> Fault {
    match &effect.destination {
        None => Fault::Outside,
        Some(name) => match strip_refs(name.as_bytes()) {
            None => Fault::Outside,
            Some(_) => Fault::Name,
        },
    }
}

// That a negative spec is to be left out.
pub(crate) fn removal(
    alloc: Global,
    holder: Holder<'_>,
    text: &[u8],
) -> Result<Vec<u8>, AllocError> {
    let mut advice = Vec::new(alloc);
    write_narrowing(holder, text, &mut advice)?;
    Ok(advice)
}

// That a negative spec is to be left out, which excludes the ref of a question.
fn exclusion_advice(
    alloc: Global,
    question: &Question<'_, '_, '_>,
    holder: Holder<'_>,
    text: &[u8],
) -> Result<Vec<u8>, AllocError> {
    let mut advice = Vec::new(alloc);
    write_followed(question, holder, &mut advice)?;
    write_narrowing(holder, text, &mut advice)?;
    Ok(advice)
}

// Appends that a negative spec is to be left out.
fn write_narrowing(holder: Holder<'_>, text: &[u8], out: &mut Vec<u8>) -> Result<(), AllocError> {
    write_removal(holder, text, out)?;
    out.extend_from_slice(b", or let it exclude less.")
}

// What to do about an invalid destination. Another ref may have a valid one by the same pattern, so that stays.
fn destination_advice(
    alloc: Global,
    question: &Question<'_, '_, '_>,
    holder: Holder<'_>,
    fault: Fault,
) -> Result<Vec<u8>, AllocError> {
    match fault {
        Fault::Outside => Vec::from_slice(alloc, b"Write a destination below refs/."),
        Fault::Name => {
            let mut advice = Vec::new(alloc);
            write_addition(alloc, question, holder, &mut advice)?;
            Ok(advice)
        }
    }
}

// How to fetch a ref that no positive spec maps: which spec fetches it, and which negative one is to be left
// out first, or which name is to be given.
fn fetching_advice(
    alloc: Global,
    question: &Question<'_, '_, '_>,
    holder: Holder<'_>,
    answer: &Answer,
) -> Result<Vec<u8>, AllocError> {
    if !is_ref_name(question.name) {
        return name_advice(alloc, question);
    }
    let mut advice = Vec::new(alloc);
    write_followed(question, holder, &mut advice)?;
    match first_exclusion(answer) {
        None => write_addition(alloc, question, holder, &mut advice)?,
        Some(index) => {
            let text = text_at(answer.texts.as_slice(), index);
            write_exchange(alloc, question, holder, text, &mut advice)?;
        }
    }
    Ok(advice)
}

// The index of the first negative spec that excludes the ref. `None` if none does.
fn first_exclusion(answer: &Answer) -> Option<usize> {
    for (index, effect) in answer.effects.of_specs.iter().enumerate() {
        match effect.fate {
            Fate::Excludes(_) => return Some(index),
            _ => {}
        }
    }
    None
}

// That a full name is to be given, or that the ref needs another one.
fn name_advice(alloc: Global, question: &Question<'_, '_, '_>) -> Result<Vec<u8>, AllocError> {
    let full = match question.known {
        Known::Listed => None,
        Known::Assumed => full_name(alloc, question.name)?,
    };
    let Some(full) = full else {
        return Vec::from_slice(alloc, b"Give the ref another name on the remote.");
    };
    let mut advice = Vec::from_slice(alloc, b"Give the full name of the ref, such as ")?;
    write_in_message(&mut advice, full.as_bytes())?;
    advice.push(b'.')?;
    Ok(advice)
}

// Which ref of the remote may be meant, or which command says more.
fn nearest_advice(
    alloc: Global,
    question: &Question<'_, '_, '_>,
    holder: Holder<'_>,
) -> Result<Vec<u8>, AllocError> {
    if let Some(path) = tracking_path(question.name, holder) {
        return track_advice(alloc, path);
    }
    let mut advice = Vec::new(alloc);
    match nearest_name(question) {
        None => write_list(holder, &mut advice)?,
        Some(name) => write_existing(b"It has ", name, &mut advice)?,
    }
    Ok(advice)
}

// The first ref of the remote that may be meant, if there is one.
fn nearest_name<'q>(question: &Question<'q, '_, '_>) -> Option<&'q [u8]> {
    for item in question.refs {
        let name = item.full_ref_name.as_bytes();
        if are_near(name, question.name) || ends_with_part(name, question.name) {
            return Some(name);
        }
    }
    None
}

// Appends that the remote has a ref, after these words, as a sentence.
fn write_existing(words: &[u8], name: &[u8], out: &mut Vec<u8>) -> Result<(), AllocError> {
    out.extend_from_slice(words)?;
    write_in_message(out, name)?;
    Ok(out.push(b'.')?)
}

// The path of a tracking ref of the remote, as `origin/main`, if the ref is named so.
fn tracking_path<'q>(name: &'q [u8], holder: Holder<'_>) -> Option<&'q [u8]> {
    let Holder::Remote(remote) = holder else {
        return None;
    };
    let path = match name.strip_prefix(b"refs/remotes/") {
        Some(path) => path,
        None => name.strip_prefix(b"refs/heads/")?,
    };
    let rest = path.strip_prefix(remote.name)?;
    if rest.starts_with(b"/") {
        Some(path)
    } else {
        None
    }
}

// That a tracking ref is named, and which command says which spec writes it.
fn track_advice(alloc: Global, path: &[u8]) -> Result<Vec<u8>, AllocError> {
    let name = joined(alloc, b"refs/remotes/", path, b"")?;
    let mut advice = Vec::from_slice(alloc, b"If that is a ref here, `git refspec why ")?;
    write_argument(name.as_bytes(), &mut advice)?;
    advice.extend_from_slice(b"` says which spec writes it.")?;
    Ok(advice)
}

// Whether a name is another one behind a slash, as `refs/heads/main` is `main`.
fn ends_with_part(name: &[u8], part: &[u8]) -> bool {
    match name.strip_suffix(part) {
        None => false,
        Some(front) => !part.is_empty() && front.ends_with(b"/"),
    }
}

// Whether two names differ in one byte, in one that only one of them has, or in the order of two neighbours.
fn are_near(x: &[u8], y: &[u8]) -> bool {
    let count = shared(x, y);
    let (Some(x), Some(y)) = (x.get(count..), y.get(count..)) else {
        return false;
    };
    match (x, y) {
        ([_, x @ ..], [_, y @ ..]) if x == y => true,
        ([a, b, x @ ..], [c, d, y @ ..]) if a == d && b == c && x == y => true,
        ([_, after @ ..], y) if after == y => true,
        (x, [_, after @ ..]) => x == after,
        _ => false,
    }
}

// With how many equal bytes two names begin.
fn shared(x: &[u8], y: &[u8]) -> usize {
    let mut count: usize = 0;
    for (a, b) in x.iter().zip(y.iter()) {
        if a != b {
            return count;
        }
        count = count.saturating_add(1);
    }
    count
}
