//! Groups that map alike, what covers the sources of a group, and which items may be left out.

use super::mapping::{
    check_backward, check_forward, check_match_lhs, group_of, items_of, mapped, target,
};
use bstr::BString;
use gix_refspec::match_group::{Item, Mapping, SourceRef};
use gix_refspec::parsing::Operation;
use gix_refspec::{MatchGroup, laws};
use std::alloc::Global;
use std::process::Abort;
use std::test::Fail;

// The canonical texts of the specs of a group, one a word.
fn printed(alloc: Global, group: &MatchGroup<'_>) -> Result<String, Fail> {
    let mut words = String::new(alloc);
    for spec in &group.specs {
        let text = spec.to_bstring(alloc)?;
        let space = if words.is_empty() { "" } else { " " };
        write!(words, "{space}{text}")?;
    }
    Ok(words)
}

// The canonical texts of specs. A law says that the group of these texts maps alike.
fn texts_of(alloc: Global, specs: &str, texts: &str, names: &str) -> Result<String, Fail> {
    let target = target();
    let items = items_of(alloc, names, &target)?;
    let group = group_of(alloc, Operation::Fetch, specs)?;
    let again = group_of(alloc, Operation::Fetch, texts)?;
    laws::fetch_group_reads_back(&group, &again, items.as_slice());
    printed(alloc, &group)
}

// Whether specs print these texts.
fn check_texts(
    rt: &(impl Abort + AllocGlobal),
    specs: &str,
    texts: &str,
    names: &str,
) -> Result<(), Fail> {
    let words = texts_of(rt.alloc(), specs, texts, names)?;
    assert_eq!(rt; words.as_str(), texts, "{specs}");
    Ok(())
}

#[test]
fn maps_as_the_canonical_texts(rt: HostRuntime) -> Result<(), Fail> {
    // Specs and what they print, names, and the mappings in both directions.
    const ROWS: &[(&str, &str, &str, &str, &str)] = &[
        (
            "+main @:refs/x/h refs/tags/*:refs/y/*",
            "main HEAD:refs/x/h refs/tags/*:refs/y/*",
            "refs/heads/main HEAD refs/tags/t refs/x/h",
            "0 0 refs/heads/main -\n1 1 HEAD refs/x/h\n2 2 refs/tags/t =refs/y/t\n",
            "3 1 =refs/heads/HEAD refs/x/h\n",
        ),
        (
            "+refs/heads/*:refs/x/* ^@",
            "+refs/heads/*:refs/x/* ^HEAD",
            "refs/heads/a HEAD refs/x/b",
            "0 0 refs/heads/a =refs/x/a\n",
            "2 0 =refs/heads/b refs/x/b\n",
        ),
    ];
    for (specs, texts, names, forward, backward) in ROWS {
        check_texts(&rt, specs, texts, names)?;
        check_forward(&rt, &[(specs, names, forward), (texts, names, forward)])?;
        check_backward(&rt, &[(specs, names, backward), (texts, names, backward)])?;
    }
    Ok(())
}

// Whether two groups of fetches are equal. A law says that such groups map alike.
fn are_equal(alloc: Global, specs: &str, others: &str, names: &str) -> Result<bool, Fail> {
    let target = target();
    let items = items_of(alloc, names, &target)?;
    let group = group_of(alloc, Operation::Fetch, specs)?;
    let other = group_of(alloc, Operation::Fetch, others)?;
    laws::equal_groups(&group, &other, items.as_slice());
    Ok(group.specs == other.specs)
}

#[test]
fn equal_fetches_map_alike(rt: HostRuntime) -> Result<(), Fail> {
    // Two groups, whether they are equal, names, and the mappings of each from left to right.
    const ROWS: &[(&str, &str, bool, &str, &str, &str)] = &[
        (
            "+main @:refs/x/h",
            "main HEAD:refs/x/h",
            true,
            "refs/heads/main HEAD",
            "0 0 refs/heads/main -\n1 1 HEAD refs/x/h\n",
            "0 0 refs/heads/main -\n1 1 HEAD refs/x/h\n",
        ),
        (
            "main @",
            "@ main",
            false,
            "refs/heads/main HEAD",
            "0 0 refs/heads/main -\n1 1 HEAD -\n",
            "1 0 HEAD -\n0 1 refs/heads/main -\n",
        ),
        (
            "+main:refs/x",
            "main:refs/x",
            false,
            "refs/heads/main",
            "0 0 refs/heads/main refs/x\n",
            "0 0 refs/heads/main refs/x\n",
        ),
        (
            "main ^@",
            "main",
            false,
            "refs/heads/main",
            "0 0 refs/heads/main -\n",
            "0 0 refs/heads/main -\n",
        ),
    ];
    for (specs, others, equal, names, wanted, of_others) in ROWS {
        let found = are_equal(rt.alloc(), specs, others, names)?;
        assert_eq!(rt; found, *equal, "{specs} and {others}");
        check_forward(&rt, &[(specs, names, wanted), (others, names, of_others)])?;
    }
    Ok(())
}

// Whether a mapping's source is an id, or begins with one of the entries.
fn is_covered(mapping: &Mapping<'_, '_>, entries: &[BString]) -> bool {
    match &mapping.lhs {
        SourceRef::ObjectId(_) => true,
        SourceRef::FullName(name) => begins_with_one(name.as_bstr().as_bytes(), entries),
    }
}

// Specs, names, the mappings, whether each spec has a covering source, and whether entries cover the
// sources of the mappings.
const COVERING: &[(&str, &str, &str, bool, bool)] = &[
    (
        "main refs/heads/*:refs/x/*",
        "refs/remotes/main/HEAD refs/heads/z",
        "0 0 refs/remotes/main/HEAD -\n1 1 refs/heads/z =refs/x/z\n",
        true,
        true,
    ),
    (
        "1111111111111111111111111111111111111111 refs/a]b ^refs/heads/*",
        "refs/a]b refs/heads/z",
        "- 0 1111111111111111111111111111111111111111 -\n0 1 refs/a]b -\n",
        true,
        true,
    ),
    // `HEAD` asks for that name alone, and takes nothing from the specs beside it.
    (
        "HEAD refs/heads/*:refs/x/*",
        "HEAD refs/heads/z",
        "0 0 HEAD -\n1 1 refs/heads/z =refs/x/z\n",
        false,
        true,
    ),
    // Outside what the law asks of the sources.
    (
        "HEAD",
        "refs/heads/HEAD",
        "0 0 refs/heads/HEAD -\n",
        false,
        false,
    ),
    (
        "*:refs/x/*",
        "refs/heads/z",
        "0 0 refs/heads/z =refs/x/refs/heads/z\n",
        false,
        false,
    ),
    (
        "refs/*:refs/x/*",
        "refs/heads/z",
        "0 0 refs/heads/z =refs/x/heads/z\n",
        false,
        false,
    ),
    (
        "refs/*/head:refs/x/*",
        "refs/a/head",
        "0 0 refs/a/head =refs/x/a\n",
        false,
        false,
    ),
];

// Whether a name begins with one of the entries.
fn begins_with_one(name: &[u8], entries: &[BString]) -> bool {
    entries
        .iter()
        .any(|entry: &BString| name.starts_with(entry.as_bytes()))
}

// The entries that fetches expand to.
fn entries_of(alloc: Global, specs: &str) -> Result<Vec<BString>, Fail> {
    let group = group_of(alloc, Operation::Fetch, specs)?;
    let mut entries = Vec::new(alloc);
    for spec in &group.specs {
        spec.expand_prefixes(alloc, &mut entries)?;
    }
    Ok(entries)
}

// Whether each fetch has a covering source. A law says what then covers the sources of their mappings.
fn has_covering_sources(alloc: Global, specs: &str, names: &str) -> Result<bool, Fail> {
    let target = target();
    let items = items_of(alloc, names, &target)?;
    let group = group_of(alloc, Operation::Fetch, specs)?;
    laws::cover(&group, items.as_slice());
    Ok(group.has_covering_sources())
}

// Whether the entries of fetches cover the sources of all of their mappings, and of some.
fn are_covered(alloc: Global, specs: &str, names: &str) -> Result<(bool, bool), Fail> {
    let target = target();
    let entries = entries_of(alloc, specs)?;
    let outcome = mapped(alloc, specs, names, &target)?;
    let (mut all, mut some) = (true, false);
    for mapping in &outcome.mappings {
        let is = is_covered(mapping, entries.as_slice());
        all &= is;
        some |= is;
    }
    Ok((all, some))
}

#[test]
fn covers_the_sources(rt: HostRuntime) -> Result<(), Fail> {
    let alloc = rt.alloc();
    for (specs, names, wanted, covering, covered) in COVERING {
        check_forward(&rt, &[(specs, names, wanted)])?;
        let found = has_covering_sources(alloc, specs, names)?;
        let (all, some) = are_covered(alloc, specs, names)?;
        let wanted = (*covering, *covered, *covered);
        assert_eq!(rt; (found, all, some), wanted, "{specs} over {names}");
    }
    Ok(())
}

// The items whose names begin with an entry of fetches.
fn listed_of<'a>(alloc: Global, specs: &str, items: &[Item<'a>]) -> Result<Vec<Item<'a>>, Fail> {
    let entries = entries_of(alloc, specs)?;
    let mut listed = Vec::new(alloc);
    for item in items {
        if begins_with_one(item.full_ref_name.as_bytes(), entries.as_slice()) {
            listed.push(*item)?;
        }
    }
    Ok(listed)
}

// Whether fetches map the listed items of these names as is written. Two laws speak of such a part of the
// items.
fn check_listed(
    rt: &(impl Abort + AllocGlobal),
    specs: &str,
    names: &str,
    wanted: &str,
) -> Result<(), Fail> {
    let target = target();
    let items = items_of(rt.alloc(), names, &target)?;
    let listed = listed_of(rt.alloc(), specs, items.as_slice())?;
    let group = group_of(rt.alloc(), Operation::Fetch, specs)?;
    laws::fewer_items(&group, items.as_slice(), listed.as_slice());
    laws::listed_items(&group, items.as_slice(), listed.as_slice());
    check_match_lhs(rt, group, listed.as_slice(), wanted)
}

#[test]
fn listed_refs_lose_no_pair(rt: HostRuntime) -> Result<(), Fail> {
    // Specs, names, and the mappings of all, and of those that begin with an entry.
    const ROWS: &[(&str, &str, &str, &str)] = &[
        (
            "refs/heads/*:refs/x/* ^refs/heads/b",
            "refs/tags/a refs/heads/a refs/heads/b",
            "1 0 refs/heads/a =refs/x/a\n",
            "0 0 refs/heads/a =refs/x/a\n",
        ),
        (
            "main",
            "refs/y/main refs/heads/main refs/tags/main",
            "2 0 refs/tags/main -\n",
            "1 0 refs/tags/main -\n",
        ),
        // Where `HEAD` is there, no other candidate of it counts.
        (
            "@ refs/heads/*:refs/x/*",
            "refs/tags/HEAD HEAD refs/heads/a",
            "1 0 HEAD -\n2 1 refs/heads/a =refs/x/a\n",
            "0 0 HEAD -\n1 1 refs/heads/a =refs/x/a\n",
        ),
        // Where it isn't, the pair of it is lost, and no other.
        (
            "@ refs/tags/*:refs/x/*",
            "refs/heads/HEAD refs/tags/a",
            "0 0 refs/heads/HEAD -\n1 1 refs/tags/a =refs/x/a\n",
            "0 1 refs/tags/a =refs/x/a\n",
        ),
    ];
    for (specs, names, wanted, of_listed) in ROWS {
        check_forward(&rt, &[(specs, names, wanted)])?;
        check_listed(&rt, specs, names, of_listed)?;
    }
    Ok(())
}
