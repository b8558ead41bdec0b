//! What depends on one spec of many, found beside those alone that can write the same refs.

use bstr::BStr;
use gix_refspec::RefSpecRef;
use gix_refspec_lint::Error;
use gix_refspec_lint::removal::{Removal, removal_of};
use gix_refspec_match::needle::word_between;
use gix_refspec_text::side::split_at_first_star;
use std::alloc::{AllocError, Global};

// Among more specs than these it isn't looked for.
const MANY: usize = 64;

/// What depends on the spec at an index of a list. `None` if that is left open, as there is no free byte, or many specs can write
/// the same refs.
pub(super) fn removal_among(
    alloc: Global,
    specs: &[RefSpecRef<'_>],
    index: usize,
) -> Result<Option<Removal>, AllocError> {
    let Some(spec) = specs.get(index) else {
        return Ok(None);
    };
    if index == 0 || spec.is_negative() {
        return removal_in(alloc, specs, index);
    }
    let Some(near) = Near::of(alloc, specs, index)? else {
        return Ok(None);
    };
    let Some(removal) = removal_in(alloc, near.specs.as_slice(), near.index)? else {
        return Ok(None);
    };
    Ok(Some(Removal {
        follows_tags: removal.follows_tags && !has_other_destination(specs, index),
        is_first: false,
        ..removal
    }))
}

// The same in a list as it is.
fn removal_in(
    alloc: Global,
    specs: &[RefSpecRef<'_>],
    index: usize,
) -> Result<Option<Removal>, AllocError> {
    match removal_of(alloc, specs, index) {
        Ok(removal) => Ok(Some(removal)),
        Err(Error::Memory) => Err(AllocError),
        Err(Error::NoFreeByte) => Ok(None),
    }
}

// Whether a spec at another index has a destination.
fn has_other_destination(specs: &[RefSpecRef<'_>], index: usize) -> bool {
    let mut others = specs.iter().enumerate().filter(|(at, _)| *at != index);
    others.any(|(_, other)| !other.is_negative() && other.destination().is_some())
}

// The positive specs of a list that can write a ref which one of them can write too, in order, with the index of that one, and
// behind them the negative ones that can exclude their sources.
#[derive(Drop)]
struct Near<'s> {
    specs: Vec<RefSpecRef<'s>>,
    index: usize,
}

impl<'s> Near<'s> {
    // `None` if there are many.
    fn of(
        alloc: Global,
        specs: &[RefSpecRef<'s>],
        index: usize,
    ) -> Result<Option<Near<'s>>, AllocError> {
        let own = specs.get(index).and_then(|spec| spec.destination());
        let mut near = Near {
            specs: Vec::new(alloc),
            index: 0,
        };
        for (at, spec) in specs.iter().enumerate() {
            if at == index {
                near.index = near.specs.len();
                near.specs.push(*spec)?;
            } else if !spec.is_negative() && may_meet(own, spec.destination()) {
                near.specs.push(*spec)?;
            }
            if near.specs.len() > MANY {
                return Ok(None);
            }
        }
        let positives = near.specs.len();
        for spec in specs {
            if spec.is_negative() && near.may_exclude(positives, spec) {
                near.specs.push(*spec)?;
            }
            if near.specs.len() > MANY {
                return Ok(None);
            }
        }
        Ok(Some(near))
    }

    // Whether a negative spec can exclude a source of the first specs, which are positive.
    fn may_exclude(&self, positives: usize, negative: &RefSpecRef<'_>) -> bool {
        let mut positives = self.specs.iter().take(positives);
        positives.any(|spec| may_meet(spec.source(), negative.source()))
    }
}

// Whether two sides, if both are there, can stand for one name. A name that isn't full may become any.
fn may_meet(one: Option<BStr<'_>>, other: Option<BStr<'_>>) -> bool {
    let (Some(one), Some(other)) = (one, other) else {
        return false;
    };
    let (one, other) = (one.as_bytes(), other.as_bytes());
    match (split_at_first_star(one), split_at_first_star(other)) {
        (None, None) => one == other || !is_full(one) || !is_full(other),
        (None, Some((before, after))) => !is_full(one)
            || word_between(before, after, one).is_some(),
        (Some((before, after)), None) => {
            !is_full(other) || word_between(before, after, other).is_some()
        }
        (Some((before, after)), Some((front, back))) => {
            (before.starts_with(front) || front.starts_with(before))
                && (after.ends_with(back) || back.ends_with(after))
        }
    }
}

fn is_full(name: &[u8]) -> bool {
    name.starts_with(b"refs/")
}
