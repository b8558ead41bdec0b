//! The warnings of `git refspec check`: those of `refspec check`, and those on remotes and their other settings.

use crate::texts::{location_of, value};
use bstr::BStr;
use gix_refspec::match_group::{MapName, SourceRef};
use gix_refspec::parsing::{Error, Operation};
use gix_refspec::{RefSpecRef, parse};
use gix_refspec_match::exclusions::Exclusions;
use gix_refspec_text::side::{joined, split_at_first_star};
use refspec_commands::warnings::beside::{Beside, Tags};
use refspec_commands::warnings::{Topic, Warning, say};
use refspec_io::settings::Setting;
use refspec_io::texts::Text;
use refspec_request::settings::{is_true, name_and_variable};
use std::alloc::{AllocError, Global};
use std::collections::{BTreeMap, BTreeSet};

/// The remotes of a configuration.
#[derive(Drop)]
pub struct Remotes<'a> {
    // Sorted by their names.
    list: Vec<Remote<'a>>,
    pruning: Pruning<'a>,
}

impl<'a> Remotes<'a> {
    /// The remotes of these settings.
    pub fn of(alloc: Global, settings: &[Setting<'a>]) -> Result<Remotes<'a>, AllocError> {
        Ok(Remotes {
            list: remotes_in(alloc, settings)?,
            pruning: Pruning::of(settings),
        })
    }

    /// What fetches take besides the values of the remotes, by the keys of these.
    pub fn beside(
        &self,
        alloc: Global,
        settings: &[Setting<'a>],
    ) -> Result<BTreeMap<&'a [u8], Beside<'a>>, AllocError> {
        beside_values(alloc, settings, self.list.as_slice(), &self.pruning)
    }

    /// The warnings on the settings of these remotes, or of all.
    pub fn warnings(
        &self,
        alloc: Global,
        chosen: &Option<BTreeSet<&'a [u8]>>,
    ) -> Result<Vec<Warning<'a>>, AllocError> {
        let mut pruning = self.pruning;
        let mut found = Vec::new(alloc);
        for remote in &self.list {
            if is_chosen(chosen, remote) {
                add_pruned(alloc, &mut pruning, remote, &mut found)?;
                add_without_values(alloc, remote, &mut found)?;
            }
        }
        add_shared(alloc, self.list.as_slice(), chosen, &mut found)?;
        Ok(found)
    }
}

fn is_chosen<'a>(chosen: &Option<BTreeSet<&'a [u8]>>, remote: &Remote<'a>) -> bool {
    match chosen {
        None => true,
        Some(names) => names.contains(&remote.name),
    }
}

// A fetch value that is a spec.
#[derive(Clone, Copy)]
struct Value<'a> {
    text: Text<'a>,
    spec: RefSpecRef<'a>,
}

impl<'a> Value<'a> {
    // The source that is written to a name. `None` if none is. Sides without a star are compared as they are written, as Git does
    // when it prunes.
    fn source_of(&self, alloc: Global, name: &[u8]) -> Result<Option<Vec<u8>>, AllocError> {
        let (Some(source), Some(destination)) = (self.spec.source(), self.spec.destination()) else {
            return Ok(None);
        };
        if self.destination_parts().is_none() {
            if destination.as_bytes() != name {
                return Ok(None);
            }
            return Ok(Some(Vec::from_slice(alloc, source.as_bytes())?));
        }
        let Some(mapping) = self.spec.map_back(alloc, BStr::new(name))? else {
            return Ok(None);
        };
        match &mapping.lhs {
            SourceRef::FullName(full) => {
                Ok(Some(Vec::from_slice(alloc, full.as_bstr().as_bytes())?))
            }
            SourceRef::ObjectId(_) => Ok(None),
        }
    }

    // The texts before and after the star of its destination, if that is a pattern.
    fn destination_parts(&self) -> Option<(&'a [u8], &'a [u8])> {
        split_at_first_star(self.spec.destination()?.as_bytes())
    }

    // Whether its destination is below `refs/tags/`.
    fn writes_tags(&self) -> bool {
        match self.spec.destination() {
            None => false,
            Some(destination) => destination.as_bytes().starts_with(b"refs/tags/"),
        }
    }

    // Whether it maps each ref to itself.
    fn maps_to_itself(&self) -> bool {
        let all = b"refs/*".as_slice();
        match (self.spec.source(), self.spec.destination()) {
            (Some(source), Some(destination)) => {
                source.as_bytes() == all && destination.as_bytes() == all
            }
            _ => false,
        }
    }
}

// A remote, and what its settings say.
#[derive(Drop)]
struct Remote<'a> {
    name: &'a [u8],
    url: Option<Setting<'a>>,
    values: Vec<Value<'a>>,
    // What its negative values exclude. Nothing until all are read.
    exclusions: Exclusions<'a>,
    // The key of its fetch values, also if they are refused.
    key: Option<&'a [u8]>,
    // Whether it has values for a push, or a setting that says whether it is a mirror.
    is_other: bool,
    is_mirror: bool,
    prune: Option<bool>,
    prune_tags: Option<Setting<'a>>,
    tag_option: Tags<'a>,
}

impl<'a> Remote<'a> {
    fn new(alloc: Global, name: &'a [u8]) -> Result<Remote<'a>, AllocError> {
        Ok(Remote {
            name,
            url: None,
            values: Vec::new(alloc),
            exclusions: Exclusions::of(alloc, &[])?,
            key: None,
            is_other: false,
            is_mirror: false,
            prune: None,
            prune_tags: None,
            tag_option: Tags::Followed,
        })
    }

    // Takes a setting of it.
    fn take(
        &mut self,
        alloc: Global,
        variable: &[u8],
        setting: &Setting<'a>,
    ) -> Result<(), AllocError> {
        match variable {
            b"url" => self.url = Some(*setting),
            b"pushurl" | b"push" => self.is_other = true,
            b"mirror" => {
                self.is_mirror = is_true(setting.value);
                self.is_other = true;
            }
            b"prune" => self.prune = Some(is_true(setting.value)),
            b"prunetags" => self.prune_tags = Some(*setting),
            b"tagopt" => match setting.value {
                Some(b"--tags") => self.tag_option = Tags::All(location_of(setting)),
                Some(b"--no-tags") => self.tag_option = Tags::Ignored,
                _ => {}
            },
            b"fetch" => {
                self.key = Some(setting.key);
                self.add_value(alloc, setting)?;
            }
            _ => {}
        }
        Ok(())
    }

    // Finds what its negative values exclude.
    fn exclude(&mut self, alloc: Global) -> Result<(), AllocError> {
        let mut specs = Vec::with_capacity(alloc, self.values.len())?;
        for value in &self.values {
            specs.push(value.spec)?;
        }
        self.exclusions = Exclusions::of(alloc, specs.as_slice())?;
        Ok(())
    }

    // Whether it is a mirror: it is one by its setting, or in a bare repository by a value that maps each ref to itself.
    fn is_mirror_in(&self, pruning: &Pruning<'_>) -> bool {
        self.is_mirror || pruning.is_bare && self.values.iter().any(|value| value.maps_to_itself())
    }

    // Adds a fetch value, unless it is refused.
    fn add_value(&mut self, alloc: Global, setting: &Setting<'a>) -> Result<(), AllocError> {
        let Some(bytes) = setting.value else {
            return Ok(());
        };
        match parse(alloc, BStr::new(bytes), Operation::Fetch) {
            Err(Error::Memory) => Err(AllocError),
            Err(_) => Ok(()),
            Ok(spec) => Ok(
                self.values.push(Value {
                    text: value(setting, Operation::Fetch, bytes),
                    spec,
                })?,
            ),
        }
    }
}

// The remotes of a configuration, sorted by their names.
fn remotes_in<'a>(alloc: Global, settings: &[Setting<'a>]) -> Result<Vec<Remote<'a>>, AllocError> {
    let mut remotes: BTreeMap<&'a [u8], Remote<'a>> = BTreeMap::new(alloc);
    for setting in settings {
        if let Some((name, variable)) = name_and_variable(b"remote", setting.key) {
            let remote = remotes.entry(name)?.or_insert(Remote::new(alloc, name)?);
            remote.take(alloc, variable, setting)?;
        }
    }
    let mut found = Vec::with_capacity(alloc, remotes.len())?;
    for (_, mut remote) in remotes {
        remote.exclude(alloc)?;
        found.push(remote)?;
    }
    Ok(found)
}

// The settings for all remotes that have none of their own.
#[derive(Clone, Copy)]
struct Pruning<'a> {
    prunes: bool,
    // `None` also once it was warned of.
    tags: Option<Setting<'a>>,
    is_bare: bool,
}

impl<'a> Pruning<'a> {
    fn of(settings: &[Setting<'a>]) -> Pruning<'a> {
        let mut pruning = Pruning {
            prunes: false,
            tags: None,
            is_bare: false,
        };
        for setting in settings {
            match setting.key {
                b"fetch.prune" => pruning.prunes = is_true(setting.value),
                b"fetch.prunetags" => pruning.tags = Some(*setting),
                b"core.bare" => pruning.is_bare = is_true(setting.value),
                _ => {}
            }
        }
        pruning
    }

    // The setting of all remotes on tags, once.
    fn take_tags(&mut self) -> Option<Setting<'a>> {
        let tags = self.tags;
        self.tags = None;
        tags
    }
}

// What the fetches of the remotes take besides their values, by the keys of these.
fn beside_values<'a>(
    alloc: Global,
    settings: &[Setting<'a>],
    remotes: &[Remote<'a>],
    pruning: &Pruning<'a>,
) -> Result<BTreeMap<&'a [u8], Beside<'a>>, AllocError> {
    let mut merges = merges_by_remote(alloc, settings)?;
    let mut beside = BTreeMap::new(alloc);
    for remote in remotes {
        if let Some(key) = remote.key {
            let merges = merges.remove(remote.name).unwrap_or(Vec::new(alloc));
            let tags = match remote.prune_tags.or(pruning.tags) {
                Some(setting) if is_true(setting.value) => Tags::Pruned(location_of(&setting)),
                _ => remote.tag_option,
            };
            beside.insert(key, Beside { merges, tags })?;
        }
    }
    Ok(beside)
}

// What branches merge, by the remotes from which they pull.
fn merges_by_remote<'a>(
    alloc: Global,
    settings: &[Setting<'a>],
) -> Result<BTreeMap<&'a [u8], Vec<BStr<'a>>>, AllocError> {
    let mut remotes: BTreeMap<&'a [u8], &'a [u8]> = BTreeMap::new(alloc);
    for setting in settings {
        if let Some((branch, b"remote")) = name_and_variable(b"branch", setting.key) {
            remotes.insert(branch, setting.value.unwrap_or(b""))?;
        }
    }
    let mut merges: BTreeMap<&'a [u8], Vec<BStr<'a>>> = BTreeMap::new(alloc);
    for setting in settings {
        let Some((branch, b"merge")) = name_and_variable(b"branch", setting.key) else {
            continue;
        };
        if let Some(remote) = remotes.get(branch) {
            let merged = merges.entry(*remote)?.or_insert(Vec::new(alloc));
            merged.push(BStr::new(setting.value.unwrap_or(b"")))?;
        }
    }
    Ok(merges)
}

// Adds a warning for a remote with a URL from which nothing is fetched into refs, unless it is there for pushes or a mirror.
fn add_without_values<'a>(
    alloc: Global,
    remote: &Remote<'a>,
    found: &mut Vec<Warning<'a>>,
) -> Result<(), AllocError> {
    let Some(url) = remote.url else {
        return Ok(());
    };
    if remote.key.is_some() || remote.is_other {
        return Ok(());
    }
    let mut warning = Warning::at(alloc, Topic::NoFetchValues, location_of(&url));
    say(&mut warning.message, "git fetch ", remote.name)?;
    warning
        .message
        .extend_from_slice(b" writes FETCH_HEAD, and no tracking ref.")?;
    let mut key = Vec::from_slice(alloc, b"remote.")?;
    key.extend_from_slice(remote.name)?;
    key.extend_from_slice(b".fetch")?;
    say(
        &mut warning.advice,
        "Add a value: git config ",
        key.as_slice(),
    )?;
    say(
        &mut warning.advice,
        " '+refs/heads/*:refs/remotes/",
        remote.name,
    )?;
    warning.advice.extend_from_slice(b"/*'")?;
    found.push(warning)?;
    Ok(())
}

// Adds the warnings on what pruning deletes of the refs that were made here. A mirror is meant to lose them.
fn add_pruned<'a>(
    alloc: Global,
    pruning: &mut Pruning<'a>,
    remote: &Remote<'a>,
    found: &mut Vec<Warning<'a>>,
) -> Result<(), AllocError> {
    let is_fetched = remote.key.is_some() || remote.url.is_some();
    if !remote.prune.unwrap_or(pruning.prunes) || remote.is_mirror_in(pruning) || !is_fetched {
        return Ok(());
    }
    for value in &remote.values {
        for (topic, folder, words) in [
            (
                Topic::PrunesBranches,
                b"refs/heads/".as_slice(),
                BRANCHES.as_slice(),
            ),
            (Topic::PrunesTags, b"refs/tags/".as_slice(), TAGS.as_slice()),
        ] {
            if let Some(example) = pruned_below(alloc, remote, value, folder, words)? {
                let mut warning = Warning::on(alloc, topic, value.text, None)?;
                let remedy = Remedy::of(remote, value);
                explain_pruned(alloc, remedy, remote.name, example.as_slice(), &mut warning)?;
                found.push(warning)?;
            }
        }
    }
    add_pruned_tag(alloc, pruning, remote, found)
}

// Adds a warning on the tags that pruning deletes by a setting on tags.
fn add_pruned_tag<'a>(
    alloc: Global,
    pruning: &mut Pruning<'a>,
    remote: &Remote<'a>,
    found: &mut Vec<Warning<'a>>,
) -> Result<(), AllocError> {
    let tags = match remote.prune_tags {
        Some(tags) => Some(tags),
        None => pruning.take_tags(),
    };
    let Some(tags) = tags else {
        return Ok(());
    };
    if is_true(tags.value) {
        if let Some(example) = pruned_tag(alloc, remote)? {
            let mut warning = Warning::at(alloc, Topic::PrunesTags, location_of(&tags));
            explain_pruned(
                alloc,
                Remedy::Remove,
                remote.name,
                example.as_slice(),
                &mut warning,
            )?;
            found.push(warning)?;
        }
    }
    Ok(())
}

// Words for the star of an example, which has the first with which negative values don't exclude its source.
const BRANCHES: [&[u8]; 8] = [
    b"topic", b"dev", b"main", b"fix/7", b"7", b"release", b"q", b"z",
];

const TAGS: [&[u8]; 6] = [b"v1", b"1.0", b"release", b"topic", b"q", b"z"];

// A local ref below a folder that a pruning fetch deletes by a value. `None` if the value isn't a pattern that matches names there,
// or if negative values keep each that is tried.
fn pruned_below(
    alloc: Global,
    remote: &Remote<'_>,
    value: &Value<'_>,
    folder: &[u8],
    words: &[&[u8]],
) -> Result<Option<Vec<u8>>, AllocError> {
    let Some((before, after)) = value.destination_parts() else {
        return Ok(None);
    };
    let start = if before.starts_with(folder) {
        before
    } else if folder.starts_with(before) {
        folder
    } else {
        return Ok(None);
    };
    for word in words {
        let name = joined(alloc, start, word, after)?.into_vec();
        if !is_kept(alloc, remote, name.as_slice())? {
            return Ok(Some(name));
        }
    }
    Ok(None)
}

// Whether a pruning fetch keeps a local ref, as negative values exclude a source from which it could be written.
fn is_kept(alloc: Global, remote: &Remote<'_>, name: &[u8]) -> Result<bool, AllocError> {
    for value in &remote.values {
        if let Some(source) = value.source_of(alloc, name)? {
            if remote.exclusions.spec_of(source.as_slice()).is_some() {
                return Ok(true);
            }
        }
    }
    Ok(false)
}

// A tag that a pruning fetch deletes, as all tags are fetched. `None` if negative values exclude each that is tried.
fn pruned_tag(alloc: Global, remote: &Remote<'_>) -> Result<Option<Vec<u8>>, AllocError> {
    for word in TAGS {
        let name = joined(alloc, b"refs/tags/", word, b"")?.into_vec();
        if remote.exclusions.spec_of(name.as_slice()).is_none()
            && !is_kept(alloc, remote, name.as_slice())?
        {
            return Ok(Some(name));
        }
    }
    Ok(None)
}

// How to keep refs that pruning deletes.
#[derive(Clone, Copy)]
enum Remedy {
    // Without the value or setting, Git still fetches tags, but only those of what else it fetches.
    Remove,
    Move,
    // Only not to prune.
    None,
}

impl Remedy {
    fn of(remote: &Remote<'_>, value: &Value<'_>) -> Remedy {
        if value.spec.source() != value.spec.destination() || !value.writes_tags() {
            return Remedy::Move;
        }
        match remote.tag_option {
            Tags::Ignored => Remedy::None,
            _ => Remedy::Remove,
        }
    }
}

// Says what pruning deletes, and how to keep it.
fn explain_pruned(
    alloc: Global,
    remedy: Remedy,
    remote: &[u8],
    example: &[u8],
    warning: &mut Warning<'_>,
) -> Result<(), AllocError> {
    say(&mut warning.message, "git fetch ", remote)?;
    say(
        &mut warning.message,
        " deletes each that the remote lacks, such as ",
        example,
    )?;
    warning
        .message
        .extend_from_slice(b" if nobody has pushed it.")?;
    let advice = &mut warning.advice;
    match remedy {
        Remedy::Remove => advice.extend_from_slice(
            b"Remove it, so that Git only fetches tags of what else it fetches, or don't prune: ",
        )?,
        Remedy::Move => {
            let folder = joined(alloc, b"refs/remotes/", remote, b"/*")?;
            say(
                advice,
                "Write to another folder, such as ",
                folder.as_bstr().as_bytes(),
            )?;
            advice.extend_from_slice(b", or don't prune: ")?;
        }
        Remedy::None => advice.extend_from_slice(b"Don't prune: ")?,
    }
    let key = joined(alloc, b"remote.", remote, b".prune")?;
    say(advice, "git config ", key.as_bstr().as_bytes())?;
    advice.extend_from_slice(b" false")
}

// The destination of a value.
#[derive(Clone, Copy)]
struct Target<'a> {
    // The index of its remote.
    remote: usize,
    value: Value<'a>,
    // The text before its star, or all of it.
    before: &'a [u8],
    // The text after its star, if it has one.
    after: Option<&'a [u8]>,
}

impl<'a> Target<'a> {
    // The destination of a value.
    fn of(remote: usize, value: Value<'a>) -> Option<Target<'a>> {
        let side = value.spec.destination()?.as_bytes();
        let (before, after) = match split_at_first_star(side) {
            None => (side, None),
            Some((before, after)) => (before, Some(after)),
        };
        Some(Target {
            remote,
            value,
            before,
            after,
        })
    }

    // Whether its names are below `refs/`, but for tags, which all remotes share.
    fn is_own(&self) -> bool {
        self.before.starts_with(b"refs/") && !self.before.starts_with(b"refs/tags/")
    }

    // Whether it may match a name that begins with this text, which another destination has before its star.
    fn may_begin(&self, before: &[u8]) -> bool {
        match self.after {
            None => self.before == before,
            Some(_) => before.starts_with(self.before),
        }
    }
}

// With so many of the nearest destinations above it a destination is compared.
const NEAREST: usize = 64;

// Adds a warning for each two remotes that write one ref, by the values of which one destination begins with the other.
fn add_shared<'a>(
    alloc: Global,
    remotes: &[Remote<'a>],
    chosen: &Option<BTreeSet<&'a [u8]>>,
    found: &mut Vec<Warning<'a>>,
) -> Result<(), AllocError> {
    let targets = targets_of(alloc, remotes)?;
    let mut above: Vec<Target<'a>> = Vec::new(alloc);
    let mut told: BTreeSet<(usize, usize)> = BTreeSet::new(alloc);
    for target in &targets {
        drop_others(&mut above, target.before);
        for other in above.iter().rev().take(NEAREST) {
            let pair = (
                other.remote.min(target.remote),
                other.remote.max(target.remote),
            );
            if other.remote != target.remote && !told.contains(&pair) {
                if let Some(warning) = shared_by(alloc, remotes, chosen, other, target)? {
                    told.insert(pair)?;
                    found.push(warning)?;
                    break;
                }
            }
        }
        above.push(*target)?;
    }
    Ok(())
}

// Drops the last destinations that begin no name that begins with this text.
fn drop_others(above: &mut Vec<Target<'_>>, before: &[u8]) {
    for _ in 0..above.len() {
        match above.last() {
            Some(last) if !last.may_begin(before) => {
                let _ = above.pop();
            }
            _ => return,
        }
    }
}

// The destinations of the remotes, sorted by the texts before their stars.
fn targets_of<'a>(alloc: Global, remotes: &[Remote<'a>]) -> Result<Vec<Target<'a>>, AllocError> {
    let mut targets = Vec::new(alloc);
    for (index, remote) in remotes.iter().enumerate() {
        for value in &remote.values {
            if let Some(target) = Target::of(index, *value) {
                if target.is_own() {
                    targets.push(target)?;
                }
            }
        }
    }
    targets.sort_by_key(|target| target.before)?;
    Ok(targets)
}

// The warning on two destinations of two remotes, of which at least one is chosen, if an example shows that they write one ref.
fn shared_by<'a>(
    alloc: Global,
    remotes: &[Remote<'a>],
    chosen: &Option<BTreeSet<&'a [u8]>>,
    one: &Target<'a>,
    other: &Target<'a>,
) -> Result<Option<Warning<'a>>, AllocError> {
    let (Some(first), Some(second)) = (remotes.get(one.remote), remotes.get(other.remote)) else {
        return Ok(None);
    };
    if !is_chosen(chosen, first) && !is_chosen(chosen, second) {
        return Ok(None);
    }
    let Some(name) = shared_name(alloc, (first, one), (second, other))? else {
        return Ok(None);
    };
    let mut warning = Warning::on(
        alloc,
        Topic::SharedDestination,
        one.value.text,
        Some(other.value.text),
    )?;
    let message = &mut warning.message;
    say(message, "Both write ", name.as_slice())?;
    message.extend_from_slice(
        b": each fetch overwrites the other's, and Git takes it as upstream of no branch.",
    )?;
    warning
        .advice
        .extend_from_slice(b"Give each remote a folder of its own.")?;
    Ok(Some(warning))
}

// A ref that two remotes write, each by one destination, of which the second begins with the first up to the stars.
fn shared_name(
    alloc: Global,
    (first, one): (&Remote<'_>, &Target<'_>),
    (second, other): (&Remote<'_>, &Target<'_>),
) -> Result<Option<Vec<u8>>, AllocError> {
    let Some(after) = other.after else {
        let name = Vec::from_slice(alloc, other.before)?;
        let is_shared = writes(alloc, first, &one.value, name.as_slice())?
            && writes(alloc, second, &other.value, name.as_slice())?;
        return Ok(if is_shared { Some(name) } else { None });
    };
    let longer = match one.after {
        Some(other_after) if other_after.len() > after.len() => other_after,
        _ => after,
    };
    for word in BRANCHES {
        let name = joined(alloc, other.before, word, longer)?.into_vec();
        if writes(alloc, first, &one.value, name.as_slice())?
            && writes(alloc, second, &other.value, name.as_slice())?
        {
            return Ok(Some(name));
        }
    }
    Ok(None)
}

// Whether a remote's fetch can write a name by one of its values: its negative values don't exclude the source.
fn writes(
    alloc: Global,
    remote: &Remote<'_>,
    value: &Value<'_>,
    name: &[u8],
) -> Result<bool, AllocError> {
    let Some(source) = value.source_of(alloc, name)? else {
        return Ok(false);
    };
    Ok(remote.exclusions.spec_of(source.as_slice()).is_none())
}
