//! Refs that values require, for want of which Git stops before it fetches what an example shows.

use super::group::Group;
use super::say;
use bstr::BStr;
use gix_refspec::RefSpecRef;
use gix_refspec::match_group::{Source, SourceRef};
use gix_refspec_text::side::{candidates, split_at_first_star};
use std::alloc::{AllocError, Global};
use std::collections::BTreeMap;

/// The index of a spec in an example, and its source.
#[derive(Clone, Copy)]
pub(super) struct Part<'p> {
    pub(super) spec: usize,
    pub(super) source: &'p Source,
}

/// The full names that the values of a group require, by the texts between their slashes, so that neither many names
/// nor long ones make a search slow.
#[derive(Drop)]
pub(super) struct Required<'a> {
    // All names are below the node at index 0.
    nodes: Vec<Node<'a>>,
}

// What stands between two slashes of names, with what is before it.
#[derive(Drop)]
struct Node<'a> {
    // The index of the node of each text behind it.
    below: BTreeMap<&'a [u8], usize>,
    // The first value that requires the name up to here, and the first that requires a name in its directory.
    own: Option<usize>,
    inside: Option<usize>,
}

impl<'a> Node<'a> {
    fn new(alloc: Global) -> Node<'a> {
        Node {
            below: BTreeMap::new(alloc),
            own: None,
            inside: None,
        }
    }
}

impl<'a> Required<'a> {
    pub(super) fn of(alloc: Global, group: &Group<'a>) -> Result<Required<'a>, AllocError> {
        let mut required = Required {
            nodes: Vec::new(alloc),
        };
        required.nodes.push(Node::new(alloc))?;
        for (index, spec) in group.specs.iter().enumerate() {
            if let Some(name) = required_name(spec) {
                required.add(alloc, name.as_bytes(), index)?;
            }
        }
        Ok(required)
    }

    fn add(&mut self, alloc: Global, name: &'a [u8], index: usize) -> Result<(), AllocError> {
        let mut at = 0;
        for text in name.split(|byte| *byte == b'/') {
            if let Some(node) = self.nodes.get_mut(at) {
                node.inside = smaller(node.inside, Some(index));
            }
            at = self.node_below(alloc, at, text)?;
        }
        if let Some(node) = self.nodes.get_mut(at) {
            node.own = smaller(node.own, Some(index));
        }
        Ok(())
    }

    // The index of the node of a text behind another node, which is a new one if there is none.
    fn node_below(
        &mut self,
        alloc: Global,
        at: usize,
        text: &'a [u8],
    ) -> Result<usize, AllocError> {
        let next = self.nodes.len();
        if let Some(node) = self.nodes.get_mut(at) {
            if let Some(known) = node.below.get(text) {
                return Ok(*known);
            }
            node.below.insert(text, next)?;
        }
        self.nodes.push(Node::new(alloc))?;
        Ok(next)
    }

    // The first value that requires a name with which a remote doesn't show this part of an example.
    fn before(
        &self,
        alloc: Global,
        group: &Group<'_>,
        part: &Part<'_>,
    ) -> Result<Option<usize>, AllocError> {
        let SourceRef::FullName(source) = part.source else {
            return Ok(None);
        };
        let source = source.as_bstr().as_bytes();
        let first = self.beside(source);
        match group.specs.get(part.spec) {
            None => Ok(first),
            Some(spec) => Ok(smaller(first, self.taken_first(alloc, spec, source)?)),
        }
    }

    // The first value that requires a directory of a name, or a name in its directory.
    fn beside(&self, name: &[u8]) -> Option<usize> {
        let mut node = self.nodes.first()?;
        let mut first = None;
        for text in name.split(|byte| *byte == b'/') {
            first = smaller(first, node.own);
            let Some(next) = self.node_behind(node, text) else {
                return first;
            };
            node = next;
        }
        smaller(first, node.inside)
    }

    // The first value that requires a name.
    fn named(&self, name: &[u8]) -> Option<usize> {
        let mut node = self.nodes.first()?;
        for text in name.split(|byte| *byte == b'/') {
            node = self.node_behind(node, text)?;
        }
        node.own
    }

    // The node of a text behind another one.
    fn node_behind(&self, node: &Node<'a>, text: &[u8]) -> Option<&Node<'a>> {
        self.nodes.get(*node.below.get(text)?)
    }

    // The first value that requires a name which a spec, whose source is another text, takes rather than this one.
    fn taken_first(
        &self,
        alloc: Global,
        spec: &RefSpecRef<'_>,
        taken: &[u8],
    ) -> Result<Option<usize>, AllocError> {
        let Some(text) = spec.source() else {
            return Ok(None);
        };
        let mut first = None;
        for candidate in &candidates(alloc, text.as_bytes())? {
            let candidate = candidate.as_bstr().as_bytes();
            if candidate == taken {
                return Ok(first);
            }
            if candidate != text.as_bytes() {
                first = smaller(first, self.named(candidate));
            }
        }
        Ok(first)
    }
}

// The smaller of two indexes, or the one that is there.
fn smaller(one: Option<usize>, other: Option<usize>) -> Option<usize> {
    match (one, other) {
        (Some(one), Some(other)) => Some(one.min(other)),
        (None, other) => other,
        (one, None) => one,
    }
}

/// Appends that Git stops first, if a value requires a ref that no remote has beside these sources, or that one of the specs would
/// take in the place of its source.
pub(super) fn say_if_stopped(
    alloc: Global,
    group: &Group<'_>,
    required: &Required<'_>,
    example: [Part<'_>; 2],
    out: &mut Vec<u8>,
) -> Result<(), AllocError> {
    let mut first = None;
    for part in example {
        first = smaller(first, required.before(alloc, group, &part)?);
    }
    let Some(spec) = first.and_then(|index| group.specs.get(index)) else {
        return Ok(());
    };
    let Some(name) = required_name(spec) else {
        return Ok(());
    };
    let words = " (git fetch from such a remote stops first, for want of ";
    say(out, words, name.as_bytes())?;
    out.extend_from_slice(b")")
}

/// The full name without which a fetch by the spec fails.
pub(super) fn required_name<'s>(spec: &RefSpecRef<'s>) -> Option<BStr<'s>> {
    let source = spec.source()?;
    let is_required = !spec.is_negative()
        && source.as_bytes().starts_with(b"refs/")
        && split_at_first_star(source.as_bytes()).is_none();
    if is_required { Some(source) } else { None }
}
