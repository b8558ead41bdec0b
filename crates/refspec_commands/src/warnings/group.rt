//! The groups of texts: those whose specs a fetch or a push applies together.

ghost use Rattle.std.specs.Prelude.{◌≡◌, ◌↔◌, ◌++◌, ◌∷◌, [], List, map, IfOk, IsTrue, OnOk};
ghost use Rattle.refspec_io.specs.Texts.{given_of};
ghost use Rattle.refspec_commands.specs.Seen.{Seen, key_of as key_in};
ghost use Rattle.refspec_commands.specs.Warned.{IsForFetch};
ghost use Rattle.refspec_commands.specs.WarnedViews.{AreGroups, IsGroup, seen_of};

use gix_refspec::RefSpecRef;
use gix_refspec::parsing::Operation;
use refspec_io::checked::Checked;
use refspec_io::texts::{Location, Text};
use std::alloc::{AllocError, Global};
use std::collections::BTreeMap;

/// The values of one key, or all texts that aren't values.
#[derive(Drop)]
pub(super) struct Group<'a> {
    /// The texts that are specs.
    pub texts: Vec<Text<'a>>,
    /// Their specs.
    pub specs: Vec<RefSpecRef<'a>>,
    /// Whether some other text is refused.
    pub has_bad: bool,
}

impl<'a> Group<'a> {
    fn new(alloc: Global) -> Group<'a>
        ensures { IsGroup [] result }
    {
        Group {
            texts: Vec::new(alloc),
            specs: Vec::new(alloc),
            has_bad: false,
        }
    }

    // Adds a checked text.
    fn add(&mut self, checked: &Checked<'a>) -> Result<(), AllocError>
        ensures { (seen : List Seen) → IsGroup seen self.old → OnOk result
            (IsGroup (seen ++ seen_of checked.now ∷ []) self.new) }
    {
        match checked {
            Checked::Good { text, spec } => {
                self.texts.push(*text)?;
                self.specs.push(*spec)?;
            }
            Checked::Bad { .. } => self.has_bad = true,
        }
        Ok(())
    }

    /// Whether its specs are for a fetch.
    pub fn is_fetch(&self) -> bool
        ensures { IsTrue result ↔ IsForFetch (map given_of self.now.texts.items) }
    {
        match self.texts.first() {
            None => false,
            Some(text) => text.operation == Operation::Fetch,
        }
    }
}

/// The groups of checked texts, by their keys.
pub(super) fn groups_of<'a>(
    alloc: Global,
    all: &[Checked<'a>],
) -> Result<BTreeMap<&'a [u8], Group<'a>>, AllocError>
    ensures { IfOk result (λ groups. AreGroups (map seen_of all.now) groups) }
{
    let mut groups = BTreeMap::new(alloc);
    for checked in all {
        let key = key_of(checked);
        let mut group = groups.remove(key).unwrap_or(Group::new(alloc));
        group.add(checked)?;
        groups.insert(key, group)?;
    }
    Ok(groups)
}

// The key of a text, if it is a value of a setting. Other texts have the empty one.
fn key_of<'a>(checked: &Checked<'a>) -> &'a [u8]
    ensures { result.now ≡ key_in (seen_of checked.now) }
{
    let (Checked::Good { text, .. } | Checked::Bad { text, .. }) = checked;
    match text.location {
        Location::Setting { key, .. } => key,
        Location::Argument(_) | Location::Record { .. } => b"",
    }
}
