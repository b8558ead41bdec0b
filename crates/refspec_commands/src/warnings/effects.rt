//! What a spec that adds nothing to a fetch does all the same.

use super::beside::{Beside, Tags};
use super::group::Group;
use super::near::removal_among;
use super::say;
use bstr::BStr;
use gix_refspec::RefSpecRef;
use gix_refspec_lint::removal::Removal;
use gix_refspec_lint::{IdleSpec, Reason};
use gix_refspec_match::exclusions::Exclusions;
use gix_refspec_match::needle::word_between;
use gix_refspec_text::side::split_at_first_star;
use refspec_io::texts::{Location, Text};
use std::alloc::{AllocError, Global};
use std::collections::BTreeMap;

// What depends on a spec without effects.
const NOTHING: Removal = Removal {
    prunes: false,
    tracks: false,
    follows_tags: false,
    is_first: false,
};

/// What Git would do otherwise without a spec.
#[derive(Clone, Copy, Debug)]
pub(super) struct Effects {
    /// A fetch from a remote without its source fails.
    pub stops: bool,
    /// There is no other spec, so without it `HEAD` is fetched.
    pub is_only: bool,
    /// Tags that point to what it takes are followed, also if that is excluded.
    pub follows_taken: bool,
    /// Without it a pruning fetch may delete a tag, and write it again as it follows tags.
    pub keeps_tags: bool,
    /// What else depends on it; nothing if that is left open.
    pub removal: Removal,
    /// Whether it is left open.
    pub is_open: bool,
}

/// The effects of an idle positive spec.
pub(super) fn effects_of(
    alloc: Global,
    group: &Group<'_>,
    beside: &Beside<'_>,
    spec: &RefSpecRef<'_>,
    idle: &IdleSpec,
) -> Result<Effects, AllocError> {
    let found = removed_of_idle(alloc, group, beside, spec, idle)?;
    let removal = found.unwrap_or(NOTHING);
    let is_open = found.is_none();
    let follows = matches!(beside.tags, Tags::Followed);
    let is_excluded = matches!(idle.reason, Reason::Excluded(_));
    Ok(Effects {
        stops: idle.is_required,
        is_only: group.specs.len() == 1,
        follows_taken: follows && is_excluded && is_taken_alone(group, idle.spec_index, spec),
        keeps_tags: follows && (removal.prunes || is_open) && may_write_tags(spec),
        removal,
        is_open,
    })
}

// What depends on an idle positive spec: nothing if the earlier one that maps all that it takes has the same sides.
fn removed_of_idle(
    alloc: Global,
    group: &Group<'_>,
    beside: &Beside<'_>,
    spec: &RefSpecRef<'_>,
    idle: &IdleSpec,
) -> Result<Option<Removal>, AllocError> {
    if repeats(group, spec, idle.reason) {
        return Ok(Some(NOTHING));
    }
    let Some(removal) = removed(alloc, group, beside, idle.spec_index)? else {
        return Ok(None);
    };
    let prunes = removal.prunes || is_pruned_as_written(alloc, group, spec)?;
    Ok(Some(Removal { prunes, ..removal }))
}

// Whether the earlier spec that makes a spec idle has the same sides.
fn repeats(group: &Group<'_>, spec: &RefSpecRef<'_>, reason: Reason) -> bool {
    let Reason::Duplicate(earlier) = reason else {
        return false;
    };
    match group.specs.get(earlier) {
        None => false,
        Some(earlier) => {
            earlier.source() == spec.source() && earlier.destination() == spec.destination()
        }
    }
}

/// How many negative specs of a group have each source.
pub(super) fn negative_counts<'a>(
    alloc: Global,
    group: &Group<'a>,
) -> Result<BTreeMap<&'a [u8], usize>, AllocError> {
    let mut counts = BTreeMap::new(alloc);
    for spec in &group.specs {
        if spec.is_negative() {
            let source = side_of(spec.source());
            let count: usize = counts.get(source).copied().unwrap_or(0);
            counts.insert(source, count.saturating_add(1))?;
        }
    }
    Ok(counts)
}

/// The effects of a negative spec that excludes nothing.
pub(super) fn effects_of_exclusion(
    alloc: Global,
    group: &Group<'_>,
    beside: &Beside<'_>,
    counts: &BTreeMap<&[u8], usize>,
    index: usize,
) -> Result<Effects, AllocError> {
    let found = removed_of_exclusion(alloc, group, beside, counts, index)?;
    let removal = found.unwrap_or(NOTHING);
    let is_open = found.is_none();
    let follows = matches!(beside.tags, Tags::Followed);
    Ok(Effects {
        stops: false,
        is_only: group.specs.len() == 1,
        follows_taken: false,
        keeps_tags: follows
            && (removal.prunes || is_open)
            && group.specs.iter().any(|spec| may_write_tags(spec)),
        removal,
        is_open,
    })
}

// What depends on a negative spec: nothing if another one has its source, unless it is the first of all.
fn removed_of_exclusion(
    alloc: Global,
    group: &Group<'_>,
    beside: &Beside<'_>,
    counts: &BTreeMap<&[u8], usize>,
    index: usize,
) -> Result<Option<Removal>, AllocError> {
    let Some(spec) = group.specs.get(index) else {
        return Ok(None);
    };
    let count: usize = counts.get(side_of(spec.source())).copied().unwrap_or(0);
    if index > 0 && count > 1 {
        return Ok(Some(NOTHING));
    }
    removed(alloc, group, beside, index)
}

// Whether no other positive spec takes all that the one at an index takes, as far as their texts tell, but one has a
// destination. Git looks for tags to follow before it leaves out what is excluded.
fn is_taken_alone(group: &Group<'_>, index: usize, spec: &RefSpecRef<'_>) -> bool {
    let own = side_of(spec.source());
    let mut follows = false;
    for (at, other) in group.specs.iter().enumerate() {
        if at != index && !other.is_negative() {
            if covers(side_of(other.source()), own) {
                return false;
            }
            follows |= other.destination().is_some();
        }
    }
    follows
}

// Whether a destination is below `refs/tags/`, or a pattern that may match a name there.
fn may_write_tags(spec: &RefSpecRef<'_>) -> bool {
    let folder = b"refs/tags/".as_slice();
    let destination = side_of(spec.destination());
    destination.starts_with(folder)
        || match split_at_first_star(destination) {
            None => destination.starts_with(b"tags/"),
            Some((before, _)) => folder.starts_with(before),
        }
}

// Whether Git may prune otherwise without a spec, as it compares the source of a spec without a star as it is written,
// and for such a spec keeps no ref of which the source is excluded: whether the spec, or one that writes the same ref,
// is so.
fn is_pruned_as_written(
    alloc: Global,
    group: &Group<'_>,
    spec: &RefSpecRef<'_>,
) -> Result<bool, AllocError> {
    let exclusions = Exclusions::of(alloc, group.specs.as_slice())?;
    let own = side_of(spec.destination());
    for other in &group.specs {
        let destination = side_of(other.destination());
        if covers(own, destination) && is_compared_as_written(other, &exclusions) {
            return Ok(true);
        }
    }
    Ok(false)
}

// Whether a side is a name, or matches it.
fn covers(side: &[u8], name: &[u8]) -> bool {
    match split_at_first_star(side) {
        None => side == name,
        Some((before, after)) => word_between(before, after, name).is_some(),
    }
}

// Whether a spec has a source without a star that isn't a full name, or is excluded, and a destination.
fn is_compared_as_written(spec: &RefSpecRef<'_>, exclusions: &Exclusions<'_>) -> bool {
    let (Some(source), Some(_)) = (spec.source(), spec.destination()) else {
        return false;
    };
    let source = source.as_bytes();
    let is_full = source == b"HEAD".as_slice() || source.starts_with(b"refs/");
    let is_name = split_at_first_star(source).is_none();
    is_name && (!is_full || exclusions.spec_of(source).is_some())
}

// What depends on a spec, or `None` if that is left open. Where tags are pruned, they are one more value, but not in a fetch
// with arguments.
fn removed(
    alloc: Global,
    group: &Group<'_>,
    beside: &Beside<'_>,
    index: usize,
) -> Result<Option<Removal>, AllocError> {
    let Some(own) = removal_among(alloc, group.specs.as_slice(), index)? else {
        return Ok(None);
    };
    match beside.tags {
        Tags::Followed => Ok(Some(own)),
        Tags::All(_) | Tags::Ignored => Ok(Some(Removal {
            follows_tags: false,
            ..own
        })),
        Tags::Pruned(_) => {
            let mut specs = Vec::from_slice(alloc, group.specs.as_slice())?;
            specs.push(RefSpecRef::fetch_of_all_tags())?;
            let Some(beside_tags) = removal_among(alloc, specs.as_slice(), index)? else {
                return Ok(None);
            };
            Ok(Some(Removal {
                prunes: own.prunes || beside_tags.prunes,
                follows_tags: false,
                ..own
            }))
        }
    }
}

/// How much depends on a spec.
#[derive(Clone, Copy, Debug, PartialEq, Eq)]
pub(super) enum Weight {
    None,
    Some,
    /// Without it tags may become other ones.
    OnTags,
}

impl Effects {
    /// How much they are together.
    pub fn weight(&self) -> Weight {
        let Removal {
            prunes,
            tracks,
            follows_tags,
            is_first,
        } = self.removal;
        if self.keeps_tags {
            return Weight::OnTags;
        }
        let own = self.stops || self.is_only || self.follows_taken || self.is_open;
        if own || prunes || tracks || follows_tags || is_first {
            Weight::Some
        } else {
            Weight::None
        }
    }

    /// Appends a sentence on each.
    pub fn write(
        &self,
        alloc: Global,
        text: &Text<'_>,
        spec: &RefSpecRef<'_>,
        out: &mut Vec<u8>,
    ) -> Result<(), AllocError> {
        if self.stops {
            let source = side_of(spec.source());
            say(
                out,
                " It still stops each fetch from a remote without ",
                source,
            )?;
            out.push(b'.')?;
        }
        if self.is_open {
            out.extend_from_slice(b" What else depends on it is left open.")?;
        }
        if self.removal.tracks {
            write_tracked(alloc, text, spec, out)?;
        }
        if self.removal.prunes {
            out.extend_from_slice(b" `git fetch --prune` would delete other refs without it.")?;
        }
        self.write_on_tags(out)?;
        if self.is_only {
            out.extend_from_slice(b" It is the only one: without it `git fetch` fetches HEAD.")?;
        }
        if self.removal.is_first {
            out.extend_from_slice(
                b" `git pull` of a branch without an upstream would merge something else without it.",
            )?;
        }
        Ok(())
    }

    fn write_on_tags(&self, out: &mut Vec<u8>) -> Result<(), AllocError> {
        if self.keeps_tags && self.removal.prunes {
            out.extend_from_slice(
                b" Tags among them would be written again if they are followed.",
            )?;
        }
        if self.removal.follows_tags {
            return out.extend_from_slice(b" Tags are followed because of it.");
        }
        if self.follows_taken {
            return out.extend_from_slice(
                b" Tags that point to what it takes may be followed only because of it.",
            );
        }
        Ok(())
    }
}

// Says that a fetch of single refs writes by a spec.
fn write_tracked(
    alloc: Global,
    text: &Text<'_>,
    spec: &RefSpecRef<'_>,
    out: &mut Vec<u8>,
) -> Result<(), AllocError> {
    let mut arguments = Vec::from_slice(alloc, remote_of(text))?;
    arguments.push(b' ')?;
    arguments.extend_from_slice(argument_of(side_of(spec.source())))?;
    out.extend_from_slice(b" `git fetch ")?;
    out.extend_from_slice(arguments.as_slice())?;
    say(out, "` still writes ", side_of(spec.destination()))?;
    out.extend_from_slice(b" by it.")
}

fn side_of<'a>(side: Option<BStr<'a>>) -> &'a [u8] {
    match side {
        None => b"",
        Some(side) => side.as_bytes(),
    }
}

// A ref to name in a fetch: a source, or one word for those of a pattern.
fn argument_of(source: &[u8]) -> &[u8] {
    match split_at_first_star(source) {
        None => source,
        Some(_) => b"REF",
    }
}

// The remote of a value of `remote.NAME.fetch`.
fn remote_of<'a>(text: &Text<'a>) -> &'a [u8] {
    let Location::Setting { key, .. } = text.location else {
        return b"REMOTE";
    };
    match key.strip_prefix(b"remote.") {
        None => b"REMOTE",
        Some(name) => name.strip_suffix(b".fetch").unwrap_or(b"REMOTE"),
    }
}
