//! Sentences on what a spec does with a ref.

use crate::fates::question::Question;
use crate::fates::roles::{Role, Source};
use bstr::BString;
use gix_refspec_why::{Effect, ExcludedBy, Fate, Mismatch, Rival, StarWord};
use refspec_io::canonical::text_at;
use refspec_io::fields::NO_DESTINATION;
use refspec_io::quote::write_in_message;
use refspec_io::texts::write_number;
use std::alloc::{AllocError, Global};

// What sentences name: the ref of a question, the refs of the remote, and the texts of the specs.
#[derive(Clone, Copy, Debug)]
pub(crate) struct Names<'r, 'q, 'spec, 'item> {
    pub(crate) question: &'r Question<'q, 'spec, 'item>,
    pub(crate) texts: &'r [BString],
}

impl Names<'_, '_, '_, '_> {
    // The name of the ref at an index. One after the last is that of the question.
    fn ref_at(&self, index: usize) -> &[u8] {
        match self.question.refs.get(index) {
            Some(item) => item.full_ref_name.as_bytes(),
            None => self.question.name,
        }
    }
}

// What a spec does with the ref, as a sentence without a capital and a full stop.
pub(crate) fn sentence_on(
    alloc: Global,
    names: &Names<'_, '_, '_, '_>,
    effect: &Effect,
) -> Result<Vec<u8>, AllocError> {
    let mut out = Vec::new(alloc);
    let destination = match &effect.destination {
        Some(name) => name.as_bytes(),
        None => NO_DESTINATION,
    };
    match effect.fate {
        Fate::Unmatched(mismatch) => write_mismatch(names, mismatch, &mut out)?,
        Fate::Excludes(word) => write_with_word(names, b"excludes it", word, &mut out)?,
        Fate::Excluded(by) => write_excluded(names, by, &mut out)?,
        Fate::InvalidName => {
            out.extend_from_slice(b"left out, as the name of the ref isn't a valid one")?;
        }
        Fate::InvalidDestination => {
            write_two(b"left out, as ", destination, &mut out)?;
            out.extend_from_slice(b" isn't a valid name below refs/")?;
        }
        Fate::Duplicate(index) => {
            write_two(b"stored in ", destination, &mut out)?;
            write_two(b", as already by ", text_at(names.texts, index), &mut out)?;
        }
        Fate::InConflict(rival) => {
            write_two(b"in conflict, as ", destination, &mut out)?;
            out.extend_from_slice(b" is written from ")?;
            write_rival(names, rival, &mut out)?;
        }
        Fate::DirectoryConflict(rival) => {
            write_two(b"in conflict, as ", destination, &mut out)?;
            out.extend_from_slice(b" is a directory of what is written from ")?;
            write_rival(names, rival, &mut out)?;
            out.extend_from_slice(b", or in it")?;
        }
        Fate::Written => write_two(b"stored in ", destination, &mut out)?,
    }
    Ok(out)
}

// What a spec with this role has to do with a local ref, in the same way.
pub(crate) fn role_sentence(
    alloc: Global,
    names: &Names<'_, '_, '_, '_>,
    sources: &[Source],
    index: usize,
    role: Role,
) -> Result<Vec<u8>, AllocError> {
    let mut out = Vec::new(alloc);
    match role {
        Role::NoDestination => out.extend_from_slice(b"has no destination")?,
        Role::Unmatched(mismatch) => write_mismatch(names, mismatch, &mut out)?,
        Role::Object => out.extend_from_slice(b"from an object")?,
        Role::Missing(at) => {
            if let Some(source) = sources.get(at) {
                write_two(b"from ", source.name.as_bytes(), &mut out)?;
                out.extend_from_slice(b", which the remote lacks")?;
            }
        }
        Role::Mapped(mapped) => {
            if let Some(source) = sources.get(mapped.source) {
                write_source(alloc, names, source, index, &mut out)?;
            }
        }
    }
    Ok(out)
}

// Appends from which source the spec at an index maps to the ref, and what becomes of that.
fn write_source(
    alloc: Global,
    names: &Names<'_, '_, '_, '_>,
    source: &Source,
    index: usize,
    out: &mut Vec<u8>,
) -> Result<(), AllocError> {
    write_two(b"from ", source.name.as_bytes(), out)?;
    let Some(effect) = source.effects.of_specs.get(index) else {
        return Ok(());
    };
    let question = Question {
        name: source.name.as_bytes(),
        specs: names.question.specs,
        refs: names.question.refs,
        known: names.question.known,
    };
    let of_source = Names {
        question: &question,
        texts: names.texts,
    };
    let sentence = sentence_on(alloc, &of_source, effect)?;
    out.extend_from_slice(b": ")?;
    out.extend_from_slice(sentence.as_slice())
}

// Appends words, and a name.
fn write_two(words: &[u8], name: &[u8], out: &mut Vec<u8>) -> Result<(), AllocError> {
    out.extend_from_slice(words)?;
    write_in_message(out, name)
}

// Appends why a source doesn't match the name.
fn write_mismatch(
    names: &Names<'_, '_, '_, '_>,
    mismatch: Mismatch,
    out: &mut Vec<u8>,
) -> Result<(), AllocError> {
    let len = names.question.name.len();
    match mismatch {
        Mismatch::NoSource => out.extend_from_slice(b"has no source"),
        Mismatch::Prefix(count) => {
            if count >= len {
                return out.extend_from_slice(b"another name, which ends before the prefix does");
            }
            out.extend_from_slice(b"another name, whose byte ")?;
            write_number(out, count.saturating_add(1))?;
            out.extend_from_slice(b" isn't that of the prefix")
        }
        Mismatch::Suffix(count) => {
            if count >= len {
                return out.extend_from_slice(b"another name, which is shorter than the suffix");
            }
            out.extend_from_slice(b"another name, whose byte ")?;
            write_number(out, len - count)?;
            out.extend_from_slice(b" isn't that of the suffix")
        }
        Mismatch::Overlap => {
            out.extend_from_slice(b"another name, in which prefix and suffix would overlap")
        }
        Mismatch::OtherName => out.extend_from_slice(b"another name"),
        Mismatch::Object => out.extend_from_slice(b"an object id, and no name"),
        Mismatch::NoCandidate => out.extend_from_slice(b"another name, also after completion"),
        Mismatch::EarlierCandidate(index) => {
            write_two(b"takes ", names.ref_at(index), out)?;
            out.extend_from_slice(b" before it")
        }
    }
}

// Appends words, and the word for the star of a pattern, if there is one.
fn write_with_word(
    names: &Names<'_, '_, '_, '_>,
    words: &[u8],
    word: Option<StarWord>,
    out: &mut Vec<u8>,
) -> Result<(), AllocError> {
    out.extend_from_slice(words)?;
    let Some(word) = word else {
        return Ok(());
    };
    let end = word.start.saturating_add(word.len);
    match names.question.name.get(word.start..end) {
        None => Ok(()),
        Some(part) => {
            write_two(b", with ", part, out)?;
            out.extend_from_slice(b" for its star")
        }
    }
}

// Appends that a negative spec excludes the ref.
fn write_excluded(
    names: &Names<'_, '_, '_, '_>,
    by: ExcludedBy,
    out: &mut Vec<u8>,
) -> Result<(), AllocError> {
    write_two(b"excluded by ", text_at(names.texts, by.spec_index), out)?;
    write_with_word(names, b"", by.word, out)
}

// Appends the source and the spec of another mapping.
fn write_rival(
    names: &Names<'_, '_, '_, '_>,
    rival: Rival,
    out: &mut Vec<u8>,
) -> Result<(), AllocError> {
    match rival.item_index {
        Some(index) => write_in_message(out, names.ref_at(index))?,
        None => out.extend_from_slice(b"an object")?,
    }
    write_two(b" too by ", text_at(names.texts, rival.spec_index), out)
}
