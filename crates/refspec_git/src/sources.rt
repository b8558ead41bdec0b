//! Whether the sources of specs match refs of a remote.

use bstr::{BStr, ByteSlice};
use gix_refspec::match_group::{Item, MapName};
use gix_refspec::oid::ObjectId;
use gix_refspec::parsing::{Error, Operation};
use gix_refspec::{RefSpecRef, name, parse};
use gix_refspec_match::needle::word_between;
use gix_refspec_text::side::candidates;
use std::alloc::{AllocError, Global};

/// The ref names of a remote.
#[derive(Drop)]
pub struct Names<'a> {
    // In byte order.
    sorted: Vec<&'a [u8]>,
}

impl<'a> Names<'a> {
    /// The names of refs. Fails if memory runs out.
    pub fn of(alloc: Global, refs: &[Item<'a>]) -> Result<Names<'a>, AllocError> {
        let mut sorted = Vec::with_capacity(alloc, refs.len())?;
        for item in refs {
            sorted.push(item.full_ref_name.as_bytes())?;
        }
        sorted.sort()?;
        Ok(Names { sorted })
    }

    /// Whether this is one of the names.
    pub fn has(&self, name: &[u8]) -> bool {
        self.sorted.binary_search(&name).is_ok()
    }

    // Whether a name begins with one text and ends with another, without overlap.
    fn has_between(&self, before: &[u8], after: &[u8]) -> bool {
        let first = self.sorted.partition_point(|name| *name < before);
        self.sorted[first..]
            .iter()
            .take_while(|name| name.starts_with(before))
            .any(|name| word_between(before, after, name).is_some())
    }
}

/// Whether a source matches one of the names. True for an object id, which needs none, and without a source. Fails if
/// memory runs out.
pub fn takes_some(
    alloc: Global,
    spec: &RefSpecRef<'_>,
    names: &Names<'_>,
) -> Result<bool, AllocError> {
    let Some(source) = spec.source() else {
        return Ok(true);
    };
    let source = source.as_bytes();
    if let Some((before, after)) = source.split_once_str(b"*") {
        return Ok(names.has_between(before, after));
    }
    if names.has(source) || ObjectId::from_hex(source).is_ok() {
        return Ok(true);
    }
    if source.starts_with(b"refs/") || spec.is_negative() {
        return Ok(false);
    }
    let candidates = candidates(alloc, source)?;
    Ok(candidates.iter().any(|name| names.has(name.as_bytes())))
}

/// What a branch merges, as a spec, if a fetch finds it on a remote. Git asks the server for exactly this name, so the
/// ref of a partial name is found only if the server lists it for another reason.
pub fn merged_spec<'a>(
    alloc: Global,
    name: BStr<'a>,
) -> Result<Option<RefSpecRef<'a>>, AllocError> {
    if !may_be_merged(name.as_bytes()) {
        return Ok(None);
    }
    match parse(alloc, name, Operation::Fetch) {
        Ok(spec) => Ok(Some(spec)),
        Err(Error::Memory) => Err(AllocError),
        Err(_) => Ok(None),
    }
}

// Whether a name is `HEAD` or a valid full name.
fn may_be_merged(name: &[u8]) -> bool {
    let is_whole = name.starts_with(b"refs/") || name == b"HEAD".as_slice();
    is_whole && name::name_partial(BStr::new(name)).is_ok()
}

/// Whether Git fetches nothing at all if the source of a spec matches no ref.
pub fn is_needed(spec: &RefSpecRef<'_>) -> bool {
    let has_star = spec
        .source()
        .is_some_and(|source| source.as_bytes().find_byte(b'*').is_some());
    !has_star && !spec.is_negative()
}

/// Whether a positive spec maps a ref of which this is a partial name, and not the whole one. Fails if memory runs out.
pub fn takes_longer(
    alloc: Global,
    specs: &[RefSpecRef<'_>],
    partial: &[u8],
    names: &Names<'_>,
) -> Result<bool, AllocError> {
    for candidate in candidates(alloc, partial)? {
        let name = candidate.as_bytes();
        if name != partial && names.has(name) {
            for spec in specs {
                if !spec.is_negative() && takes(alloc, spec, name, names)? {
                    return Ok(true);
                }
            }
        }
    }
    Ok(false)
}

// Whether a source matches this name, as one of several. A name without a star matches its first candidate alone.
fn takes(
    alloc: Global,
    spec: &RefSpecRef<'_>,
    name: &[u8],
    names: &Names<'_>,
) -> Result<bool, AllocError> {
    let Some(source) = spec.source() else {
        return Ok(false);
    };
    if source.as_bytes().find_byte(b'*').is_some() {
        return Ok(spec.map(alloc, BStr::new(name))?.is_some());
    }
    for candidate in candidates(alloc, source.as_bytes())? {
        if names.has(candidate.as_bytes()) {
            return Ok(candidate.as_bytes() == name);
        }
    }
    Ok(false)
}
