//! The meaning of a spec, in one sentence.

use crate::call::Form;
use crate::quote::write_shown;
use bstr::ByteSlice;
use gix_refspec::instruction::{Fetch, Push};
use gix_refspec::oid::is_id;
use gix_refspec::{Instruction, RefSpecRef};
use std::alloc::{AllocError, Global};

/// Appends a sentence that says what a spec does, without a newline. In records its names are raw.
pub fn write_sentence(
    alloc: Global,
    out: &mut Vec<u8>,
    spec: &RefSpecRef<'_>,
    form: Form,
) -> Result<(), AllocError> {
    let mut sentence = Sentence {
        alloc,
        out,
        form,
        is_forced: spec.allow_non_fast_forward(),
        is_one_sided: spec.destination().is_none(),
    };
    match spec.instruction() {
        Instruction::Fetch(fetch) => sentence.fetch(fetch),
        Instruction::Push(push) => sentence.push(push),
    }
}

// When a ref that exists already is updated.
#[derive(Clone, Copy)]
enum Update {
    // Only by a fast-forward, unless forced.
    Branch,
    // Never, unless forced: Git keeps tags as they are.
    Tag,
    // As a branch or as a tag: a pattern may match both, and a partial name may be either.
    Either,
}

impl Update {
    // How a ref with this full name, or the refs that match this full pattern, are updated.
    fn of(full: &[u8]) -> Update {
        let tags = b"refs/tags/".as_slice();
        if full.starts_with(tags) {
            return Update::Tag;
        }
        match full.find_byte(b'*') {
            Some(star) if tags.starts_with(full.split_at(star).0) => Update::Either,
            _ => Update::Branch,
        }
    }

    // The end of a sentence on such an update that isn't forced.
    fn unforced_end(self) -> &'static str {
        match self {
            Update::Branch => ", if that is a fast-forward.",
            Update::Tag => ", only if it isn't there yet.",
            Update::Either => ", if that is a fast-forward, and a tag only if it isn't there yet.",
        }
    }

    // The end of a sentence on such an update that is forced.
    fn forced_end(self) -> &'static str {
        match self {
            Update::Branch | Update::Either => ", even if that isn't a fast-forward.",
            Update::Tag => ", and replaces one that is there.",
        }
    }
}

// Appends the parts of the sentence on one spec to `out`.
#[derive(Drop)]
struct Sentence<'a> {
    alloc: Global,
    out: &'a mut Vec<u8>,
    form: Form,
    // The spec is forced.
    is_forced: bool,
    // The spec has no destination.
    is_one_sided: bool,
}

impl Sentence<'_> {
    // Appends the sentence on a spec for a fetch.
    fn fetch(&mut self, fetch: Fetch<'_>) -> Result<(), AllocError> {
        match fetch {
            Fetch::Only { src } => {
                self.write("Fetches ")?;
                self.refs(src.as_bytes(), "of the remote")?;
                self.write(" into FETCH_HEAD, and by itself updates no ref.")
            }
            Fetch::Exclude { src } => self.exclusion(src.as_bytes(), "fetch"),
            Fetch::AndUpdate { src, dst, .. } => self.update(src.as_bytes(), dst.as_bytes()),
        }
    }

    // Appends the sentence on a fetch that updates refs.
    fn update(&mut self, src: &[u8], dst: &[u8]) -> Result<(), AllocError> {
        if !is_pattern(dst) {
            return self.update_one(src, dst);
        }
        if !may_be_ref(src) {
            return self.nothing("Fetches", src);
        }
        if !may_be_below_refs(dst) {
            self.write("Fetches nothing: Git ignores ")?;
            self.name(dst)?;
            return self.write(", which is not below refs/.");
        }
        self.write("Fetches ")?;
        self.refs(src, "of the remote")?;
        self.write(" and writes each to ")?;
        self.name(dst)?;
        self.only_below_refs(dst)?;
        self.end(Update::of(dst))
    }

    // Appends the restriction to names below `refs/`, if the pattern may match others too.
    fn only_below_refs(&mut self, dst: &[u8]) -> Result<(), AllocError> {
        if is_pattern(dst) && !dst.starts_with(b"refs/") {
            return self.write(" where that is below refs/");
        }
        Ok(())
    }

    // Appends the sentence on a fetch of one ref. Git completes a partial destination to a full name.
    fn update_one(&mut self, src: &[u8], dst: &[u8]) -> Result<(), AllocError> {
        if dst == b"@".as_slice() {
            return self.write("Fetches nothing: Git refuses @ as a destination.");
        }
        let folder = folder_of(dst);
        self.write("Fetches ")?;
        self.refs(src, "of the remote")?;
        self.write(" and writes it to ")?;
        self.name_in(folder, dst)?;
        let update = if dst.starts_with(b"tags/") {
            Update::Tag
        } else {
            Update::of(dst)
        };
        self.end(update)?;
        if dst.starts_with(b"heads/") {
            self.write(" Git does so, and refspec plan; refspec_map maps it to ")?;
            self.name_in("refs/heads/", dst)?;
            self.write(".")?;
        }
        Ok(())
    }

    // Appends the sentence on a spec for a push.
    fn push(&mut self, push: Push<'_>) -> Result<(), AllocError> {
        match push {
            Push::AllMatchingBranches { .. } => {
                self.write("Pushes each local branch that the remote has too")?;
                self.end(Update::Branch)
            }
            Push::Delete { ref_or_pattern } if ref_or_pattern.as_bytes() == b"@".as_slice() => {
                self.write("Deletes nothing: Git refuses @ as a destination.")
            }
            Push::Delete { ref_or_pattern } => {
                self.write("Deletes ")?;
                self.name(ref_or_pattern.as_bytes())?;
                self.write(" on the remote.")
            }
            Push::Matching { src, dst, .. } => self.push_to(src.as_bytes(), dst.as_bytes()),
            Push::Exclude { src } => self.exclusion(src.as_bytes(), "push"),
        }
    }

    // Appends the sentence on a push to a destination, which is the source if the spec has none.
    fn push_to(&mut self, src: &[u8], dst: &[u8]) -> Result<(), AllocError> {
        if is_pattern(src) && !may_be_below_refs(src) {
            return self.nothing("Pushes", src);
        }
        if dst == b"@".as_slice() {
            return self.write("Pushes nothing: Git refuses @ as a destination.");
        }
        if self.is_one_sided && is_id(src) {
            return self.write(
                "Pushes nothing: an object id needs a destination, as in ID:refs/heads/x.",
            );
        }
        if is_pattern(dst) && !may_be_below_refs(dst) {
            self.write("Pushes nothing: the remote refuses ")?;
            self.name(dst)?;
            return self.write(", which is not below refs/.");
        }
        self.pushed(src, dst)?;
        let update = if self.is_current_branch(src) {
            Update::Branch
        } else if may_be_below_refs(dst) {
            Update::of(dst)
        } else {
            Update::Either
        };
        self.end(update)
    }

    // Whether the spec pushes the current branch to that of its name: its only side is `HEAD`.
    fn is_current_branch(&self, src: &[u8]) -> bool {
        self.is_one_sided && src == b"HEAD".as_slice()
    }

    // Appends the sentence on a pattern that can match no ref.
    fn nothing(&mut self, verb: &str, src: &[u8]) -> Result<(), AllocError> {
        self.write(verb)?;
        self.write(" nothing: full names begin with refs/, so none matches ")?;
        self.name(src)?;
        self.write(".")
    }

    // Appends what is pushed, and where to.
    fn pushed(&mut self, src: &[u8], dst: &[u8]) -> Result<(), AllocError> {
        if self.is_current_branch(src) {
            return self.write("Pushes the current branch to the branch of its name on the remote");
        }
        self.write("Pushes ")?;
        self.refs(src, "of this repository")?;
        if self.is_one_sided && !may_be_below_refs(src) {
            return self.write(" to the ref of its full name on the remote");
        }
        if !may_be_below_refs(dst) {
            self.write(" to the ref that the remote knows as ")?;
            self.name(dst)?;
            return self.write(", or else to a new branch or tag of that name");
        }
        self.write(" to ")?;
        self.name(dst)?;
        self.write(" on the remote")?;
        self.only_below_refs(dst)
    }

    // Appends the sentence on a negative spec. It is matched against full ref names, so a side that can't be or
    // match one excludes no branch.
    fn exclusion(&mut self, src: &[u8], operation: &str) -> Result<(), AllocError> {
        if !may_be_ref(src) {
            self.write(if is_pattern(src) {
                "Leaves out only refs of the remote whose whole names match "
            } else {
                "Leaves out only a ref of the remote whose whole name is "
            })?;
            self.name(src)?;
            self.write(", so no branch; ^")?;
            self.name_in(folder_of(src), src)?;
            return self.write(" is meant.");
        }
        self.write("Leaves out ")?;
        self.refs(src, "of the remote")?;
        self.write(", whatever the other specs ")?;
        self.write(operation)?;
        self.write(".")
    }

    // Appends the end of the sentence on an update.
    fn end(&mut self, update: Update) -> Result<(), AllocError> {
        self.write(if self.is_forced {
            update.forced_end()
        } else {
            update.unforced_end()
        })
    }

    // Appends the refs that a side selects, and where they are.
    fn refs(&mut self, side: &[u8], owner: &str) -> Result<(), AllocError> {
        if is_pattern(side) {
            self.write("each ref ")?;
            self.write(owner)?;
            self.write(" that matches ")?;
            return self.name(side);
        }
        self.name(side)?;
        self.write(" ")?;
        self.write(owner)
    }

    // Appends a name as the form shows it.
    fn name(&mut self, name: &[u8]) -> Result<(), AllocError> {
        write_shown(self.out, name, self.form)
    }

    // Appends a name with the folder that Git puts before it.
    fn name_in(&mut self, folder: &str, name: &[u8]) -> Result<(), AllocError> {
        let mut full = Vec::from_slice(self.alloc, folder.as_bytes())?;
        full.extend_from_slice(name)?;
        self.name(full.as_slice())
    }

    // Appends text of the sentence itself, unquoted.
    fn write(&mut self, text: &str) -> Result<(), AllocError> {
        self.out.extend_from_slice(text.as_bytes())
    }
}

// The prefix with which Git completes the destination of a fetch to a full name.
fn folder_of(name: &[u8]) -> &'static str {
    if name.starts_with(b"refs/") {
        ""
    } else if name.starts_with(b"heads/")
        || name.starts_with(b"tags/")
        || name.starts_with(b"remotes/")
    {
        "refs/"
    } else {
        "refs/heads/"
    }
}

/// Whether a side is a pattern.
pub fn is_pattern(side: &[u8]) -> bool {
    side.contains(&b'*')
}

/// Whether a side is a name below `refs/`, or a pattern that may match one.
pub fn may_be_below_refs(side: &[u8]) -> bool {
    may_begin(side, b"refs/")
}

/// Whether a side is a full name, or a pattern that may match one.
pub fn may_be_ref(side: &[u8]) -> bool {
    side == b"HEAD".as_slice()
        || may_be_below_refs(side)
        || is_pattern(side) && may_begin(side, b"HEAD")
}

// Whether a side begins with `start`, or is a pattern that may match a name that does.
fn may_begin(side: &[u8], start: &[u8]) -> bool {
    if side.starts_with(start) {
        return true;
    }
    match side.find_byte(b'*') {
        Some(star) => start.starts_with(side.split_at(star).0),
        None => false,
    }
}
