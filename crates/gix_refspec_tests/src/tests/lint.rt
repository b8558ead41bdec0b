//! What specs do together on any remote. The configurations are those of the manuals of Git and of hosts; what is found was
//! written down before it was asked for.

use super::plans::{names_of, specs_of};
use bstr::BStr;
use gix_refspec::RefSpecRef;
use gix_refspec_lint::{
    Configured, Error, Reason, idle_exclusions, idle_specs, possible_conflicts,
    possible_directory_conflicts,
};
use std::alloc::Global;
use std::process::Abort;
use std::test::Fail;

// Adds a line for each conflict.
fn add_conflicts(
    alloc: Global,
    text: &mut String,
    fetch: &Configured<'_, '_>,
    words: &[BStr<'_>],
) -> Result<(), Fail> {
    for c in &possible_conflicts(alloc, fetch, words)? {
        writeln!(
            text,
            "{} {} {} {} {}",
            c.first_spec, c.second_spec, c.first_source, c.second_source, c.destination
        )?;
    }
    Ok(())
}

// Adds a line for each idle spec.
fn add_idle_specs(
    alloc: Global,
    text: &mut String,
    fetch: &Configured<'_, '_>,
) -> Result<(), Fail> {
    for idle in &idle_specs(alloc, fetch)? {
        match idle.reason {
            Reason::Invalid => write!(text, "{} invalid", idle.spec_index)?,
            Reason::Excluded(by) => write!(text, "{} excluded by {by}", idle.spec_index)?,
            Reason::Duplicate(of) => write!(text, "{} as {of}", idle.spec_index)?,
            Reason::Duplicates => write!(text, "{} as several", idle.spec_index)?,
        }
        let required = if idle.is_required { ", required" } else { "" };
        writeln!(text, "{required}")?;
    }
    Ok(())
}

// One line for each conflict, idle spec and idle negative spec.
fn text_of(alloc: Global, fetch: &Configured<'_, '_>, words: &[BStr<'_>]) -> Result<String, Fail> {
    let mut text = String::new(alloc);
    add_conflicts(alloc, &mut text, fetch, words)?;
    add_idle_specs(alloc, &mut text, fetch)?;
    for index in &idle_exclusions(alloc, fetch)? {
        writeln!(text, "{index} excludes nothing")?;
    }
    Ok(text)
}

// A configuration of these values alone.
fn values_alone<'c, 'spec>(values: &'c [RefSpecRef<'spec>]) -> Configured<'c, 'spec> {
    Configured {
        values,
        merges: &[],
        tags: false,
    }
}

fn check(rt: &(impl Abort + AllocGlobal), rows: &[(&str, &str)]) -> Result<(), Fail> {
    for (specs, found) in rows {
        let parsed = specs_of(rt.alloc(), specs)?;
        let text = text_of(rt.alloc(), &values_alone(parsed.as_slice()), &[])?;
        assert_eq!(rt; text.as_str(), *found, "with {specs}");
    }
    Ok(())
}

const ORIGIN: &str = "+refs/heads/*:refs/remotes/origin/*";

#[test]
fn finds_nothing_wrong_with_usual_configurations(rt: HostRuntime) -> Result<(), Fail> {
    const ROWS: &[(&str, &str)] = &[
        ("", ""),
        // a clone, one of a single branch, a mirror, and one with all tags
        (ORIGIN, ""),
        ("+refs/heads/main:refs/remotes/origin/main", ""),
        ("+refs/*:refs/*", ""),
        (
            "+refs/heads/*:refs/remotes/origin/* refs/tags/*:refs/tags/*",
            "",
        ),
        // a bare clone that follows branches and tags
        ("+refs/heads/*:refs/heads/* +refs/tags/*:refs/tags/*", ""),
        // merge requests beside branches, changes of Gerrit, and notes
        (
            "+refs/heads/*:refs/remotes/origin/* +refs/merge-requests/*/head:refs/remotes/mr/*",
            "",
        ),
        (
            "+refs/heads/*:refs/remotes/origin/* +refs/changes/*:refs/changes/*",
            "",
        ),
        (
            "+refs/heads/*:refs/remotes/origin/* +refs/notes/*:refs/notes/*",
            "",
        ),
        // negative specs that exclude something
        ("+refs/heads/*:refs/remotes/origin/* ^refs/heads/tmp/*", ""),
        ("+refs/heads/*:refs/remotes/origin/* ^refs/heads/main", ""),
        ("main:refs/remotes/origin/main ^refs/tags/main", ""),
        // one ref to two destinations
        ("refs/heads/*:refs/a/* refs/heads/*:refs/b/*", ""),
    ];
    check(&rt, ROWS)
}

// Specs, and what is found.
const CONFLICTS: &[(&str, &str)] = &[
    // pull requests in the folder of the branches, and two ways out
    (
        "+refs/heads/*:refs/remotes/origin/* +refs/pull/*/head:refs/remotes/origin/pr/*",
        "0 1 refs/heads/pr/b refs/pull/b/head refs/remotes/origin/pr/b\n",
    ),
    (
        "+refs/heads/*:refs/remotes/origin/* +refs/pull/*/head:refs/remotes/origin/pr/* ^refs/heads/pr/*",
        "",
    ),
    (
        "+refs/heads/*:refs/remotes/origin/* +refs/pull/*/head:refs/remotes/pr/*",
        "",
    ),
    // merge requests likewise, and changes of Gerrit
    (
        "+refs/heads/*:refs/remotes/origin/* +refs/merge-requests/*/head:refs/remotes/origin/merge-requests/*",
        "0 1 refs/heads/merge-requests/b refs/merge-requests/b/head refs/remotes/origin/merge-requests/b\n",
    ),
    // branches and tags in one folder, and all refs beside branches
    (
        "refs/heads/*:refs/x/* refs/tags/*:refs/x/*",
        "0 1 refs/heads/b refs/tags/b refs/x/b\n",
    ),
    (
        "+refs/*:refs/remotes/origin/* +refs/heads/*:refs/remotes/origin/*",
        "0 1 refs/b refs/heads/b refs/remotes/origin/b\n",
    ),
    // the suffixes of destinations are compared too
    ("refs/a/*:refs/x/*/b refs/b/*:refs/x/*/c", ""),
    (
        "refs/a/*:refs/x/*/c refs/b/*:refs/x/q/*",
        "0 1 refs/a/q/i refs/b/i/c refs/x/q/i/c\n",
    ),
    // destinations whose texts overlap: only such a name isn't excluded
    (
        "refs/a/*:refs/x/ab* refs/c/*:refs/x/*bb ^refs/a/*bb",
        "0 1 refs/a/b refs/c/a refs/x/abb\n",
    ),
    // periodic texts overlap again and again: excluded each time, but for the shortest name, and but for the longest
    (
        "refs/heads/*:refs/x/aaaaaaaaaaaa* refs/tags/*:refs/x/*aaaaaaaaaaaa ^refs/heads/*",
        "0 excluded by 2\n",
    ),
    (
        "refs/heads/*:refs/x/aaaaaaaaaaaa* refs/tags/*:refs/x/*aaaaaaaaaaaa ^refs/tags/aaaaaaaaaaaa*",
        "0 1 refs/heads/a refs/tags/a refs/x/aaaaaaaaaaaaa\n",
    ),
    (
        "refs/heads/*:refs/x/aabaabaabaabaa* refs/tags/*:refs/x/*aabaabaabaabaa ^refs/heads/baa* ^refs/tags/aabaabaabaabaa*",
        "0 1 refs/heads/abaabaabaabaa refs/tags/aabaabaabaaba refs/x/aabaabaabaabaaabaabaabaabaa\n",
    ),
    // a single branch beside a pattern: the same source is no conflict
    (
        "+refs/heads/*:refs/remotes/origin/* refs/heads/a:refs/remotes/origin/a",
        "1 as 0, required\n",
    ),
    (
        "+refs/heads/*:refs/remotes/origin/* refs/heads/a:refs/remotes/origin/b",
        "0 1 refs/heads/b refs/heads/a refs/remotes/origin/b\n",
    ),
    (
        "refs/heads/a:x refs/heads/b:refs/heads/x",
        "0 1 refs/heads/a refs/heads/b refs/heads/x\n",
    ),
    // a partial name beside the branch: it may be a tag of that name
    (
        "main:refs/x refs/heads/main:refs/x",
        "0 1 refs/main refs/heads/main refs/x\n",
    ),
    // but not where the branch is what it takes first
    (
        "refs/heads/a:refs/x heads/a:refs/x ^refs/tags/heads/a ^refs/heads/heads/a ^refs/remotes/heads/a ^refs/remotes/heads/a/HEAD",
        "1 as 0\n",
    ),
    // an object beside a ref
    (
        "1111111111111111111111111111111111111111:refs/x refs/heads/a:refs/x",
        "0 1 1111111111111111111111111111111111111111 refs/heads/a refs/x\n",
    ),
    // patterns that begin anywhere
    (
        "*:refs/x/* refs/a/*:refs/x/refs/*",
        "0 1 refs/b refs/a/b refs/x/refs/b\n",
    ),
    // each two of three
    (
        "refs/a/*:refs/x/* refs/b/*:refs/x/* refs/c/*:refs/x/*",
        "0 1 refs/a/i refs/b/i refs/x/i\n0 2 refs/a/i refs/c/i refs/x/i\n1 2 refs/b/i refs/c/i refs/x/i\n",
    ),
];

#[test]
fn finds_conflicts(rt: HostRuntime) -> Result<(), Fail> {
    check(&rt, CONFLICTS)
}

// A configuration, words to try first, and what is found.
struct Row {
    values: &'static str,
    merges: &'static str,
    tags: bool,
    words: &'static str,
    found: &'static str,
}

const ROW: Row = Row {
    values: "",
    merges: "",
    tags: false,
    words: "",
    found: "",
};

fn check_configured(rt: &(impl Abort + AllocGlobal), rows: &[Row]) -> Result<(), Fail> {
    for row in rows {
        let values = specs_of(rt.alloc(), row.values)?;
        let merges = names_of(rt.alloc(), row.merges)?;
        let fetch = Configured {
            values: values.as_slice(),
            merges: merges.as_slice(),
            tags: row.tags,
        };
        let words = names_of(rt.alloc(), row.words)?;
        let text = text_of(rt.alloc(), &fetch, words.as_slice())?;
        assert_eq!(rt; text.as_str(), row.found, "with {}", row.values);
    }
    Ok(())
}

// No remote has a ref and another one in a directory of its name.
#[test]
fn finds_no_conflict_of_refs_that_cannot_stand_together(rt: HostRuntime) -> Result<(), Fail> {
    const ROWS: &[(&str, &str)] = &[
        ("refs/heads/a:refs/x/y refs/heads/a/*:refs/x/*", ""),
        ("refs/heads/a/*:refs/x/* refs/heads/a:refs/x/y", ""),
        ("refs/heads/*:refs/x/* refs/heads/*/q:refs/x/*", ""),
        (
            "refs/heads/a:refs/x/y refs/heads/ab/*:refs/x/*",
            "0 1 refs/heads/a refs/heads/ab/y refs/x/y\n",
        ),
        // so it is at each overlap of these texts, and other names are excluded
        (
            "refs/heads/*:refs/x/aaaaaaaaaaaa* refs/heads/*/u:refs/x/*aaaaaaaaaaaa ^refs/heads/aaaaaaaaaaaa*",
            "",
        ),
        (
            "refs/heads/*:refs/x/aaaaaaaaaaaa* refs/heads/*b:refs/x/*aaaaaaaaaaaa ^refs/heads/aaaaaaaaaaaa*",
            "0 1 refs/heads/a refs/heads/ab refs/x/aaaaaaaaaaaaa\n",
        ),
    ];
    check(&rt, ROWS)
}

#[test]
fn finds_conflicts_with_all_tags(rt: HostRuntime) -> Result<(), Fail> {
    const ROWS: &[Row] = &[
        Row {
            values: "+refs/heads/*:refs/tags/*",
            tags: true,
            words: "v1",
            found: "0 1 refs/heads/v1 refs/tags/v1 refs/tags/v1\n",
            ..ROW
        },
        Row {
            values: "+refs/heads/*:refs/tags/*",
            words: "v1",
            ..ROW
        },
        // the tags themselves are no conflict, and aren't called a duplicate
        Row {
            values: "refs/tags/*:refs/tags/*",
            tags: true,
            ..ROW
        },
        // a merged ref has no destination
        Row {
            values: ORIGIN,
            merges: "refs/heads/main refs/tags/v1 main",
            ..ROW
        },
    ];
    check_configured(&rt, ROWS)
}

// The first word with which two patterns conflict stands for the star.
#[test]
fn tries_words_first(rt: HostRuntime) -> Result<(), Fail> {
    const PULLS: &str =
        "+refs/heads/*:refs/remotes/origin/* +refs/pull/*/head:refs/remotes/origin/pr/*";
    const ROWS: &[Row] = &[
        Row {
            values: PULLS,
            words: "7 topic",
            found: "0 1 refs/heads/pr/7 refs/pull/7/head refs/remotes/origin/pr/7\n",
            ..ROW
        },
        Row {
            values: "refs/heads/*:refs/x/* refs/tags/*:refs/x/* ^refs/heads/t*",
            words: "topic v1",
            found: "0 1 refs/heads/v1 refs/tags/v1 refs/x/v1\n",
            ..ROW
        },
        // none of the words makes one
        Row {
            values: "refs/heads/*:refs/x/* refs/tags/*:refs/x/* ^refs/heads/t*",
            words: "topic t1 a..b",
            found: "0 1 refs/heads/b refs/tags/b refs/x/b\n",
            ..ROW
        },
    ];
    check_configured(&rt, ROWS)
}

#[test]
fn finds_idle_specs(rt: HostRuntime) -> Result<(), Fail> {
    const ROWS: &[(&str, &str)] = &[
        (
            "+refs/heads/*:refs/remotes/origin/* +refs/heads/*:refs/remotes/origin/*",
            "1 as 0\n",
        ),
        ("refs/*:refs/x/* refs/heads/*:refs/x/heads/*", "1 as 0\n"),
        // the general one isn't idle behind the special one
        ("refs/heads/*:refs/x/heads/* refs/*:refs/x/*", ""),
        ("refs/heads/main refs/heads/main", "1 as 0\n"),
        // a destination that is never a ref name
        ("refs/heads/*:tracking/*", "0 invalid\n"),
        // or a source that never is
        ("a*:refs/x/*", "0 invalid\n"),
        // excluded by one, or by several together
        (
            "refs/heads/a:refs/x ^refs/heads/*",
            "0 excluded by 1, required\n",
        ),
        (
            "heads/a:refs/x ^refs/heads/* ^refs/tags/* ^refs/remotes/*",
            "0 excluded by 1, required\n",
        ),
        ("heads/a:refs/x ^refs/heads/* ^refs/tags/*", ""),
        // a tag of that name leaves the branch to the second
        (
            "main:refs/x refs/heads/main:refs/x ^refs/main",
            "0 1 refs/tags/main refs/heads/main refs/x\n",
        ),
        // two equal partial names take the same
        ("HEAD:refs/x HEAD:refs/x", "1 as 0\n"),
    ];
    check(&rt, ROWS)
}

#[test]
fn finds_specs_idle_by_several(rt: HostRuntime) -> Result<(), Fail> {
    const ROWS: &[(&str, &str)] = &[
        // two of the same name are idle by the first, and one that only several cover by those together
        (
            "refs/heads/a:refs/heads/x refs/heads/*:refs/heads/x/* refs/heads/a:refs/heads/x",
            "2 as 0\n",
        ),
        (
            "refs/heads/a:refs/x refs/tags/a:refs/x a:refs/x ^refs/a ^refs/remotes/*",
            "0 1 refs/heads/a refs/tags/a refs/x\n0 2 refs/heads/a refs/tags/a refs/x\n2 as several\n",
        ),
        // a spec that a pattern covers stops a fetch where its ref is gone, unless another one does so too
        (
            "+refs/heads/*:refs/x/* +refs/heads/gone:refs/x/gone",
            "1 as 0, required\n",
        ),
        (
            "+refs/heads/*:refs/x/* +refs/heads/gone:refs/x/gone refs/heads/gone",
            "1 as 0\n",
        ),
        // a partial name may find another ref
        (
            "+refs/heads/*:refs/x/* +refs/heads/gone:refs/x/gone heads/gone",
            "1 as 0, required\n",
        ),
        (
            "+refs/heads/*:refs/x/* +refs/heads/*:refs/x/* +refs/heads/gone:refs/x/gone",
            "1 as 0\n2 as 0, required\n",
        ),
        // several refs at once free this one of the earlier two
        (
            "x:refs/y x/HEAD:refs/y refs/remotes/x/HEAD:refs/y ^refs/heads/*",
            "0 1 refs/x refs/tags/x/HEAD refs/y\n0 2 refs/x refs/remotes/x/HEAD refs/y\n1 2 refs/x/HEAD refs/remotes/x/HEAD refs/y\n",
        ),
    ];
    check(&rt, ROWS)
}

#[test]
fn finds_idle_negative_specs(rt: HostRuntime) -> Result<(), Fail> {
    const ROWS: &[(&str, &str)] = &[
        (
            "+refs/heads/*:refs/remotes/origin/* ^refs/tags/*",
            "1 excludes nothing\n",
        ),
        // a negative spec without `refs/` names no branch
        (
            "+refs/heads/*:refs/remotes/origin/* ^main",
            "1 excludes nothing\n",
        ),
        (
            "+refs/heads/*:refs/remotes/origin/* ^HEAD",
            "1 excludes nothing\n",
        ),
        ("HEAD:refs/x ^HEAD", ""),
        ("*:refs/x/* ^HEAD", ""),
        ("re*s/q:refs/x/* ^refs/*/q", ""),
        ("re*s/q:refs/x/* ^refs/q", ""),
        ("^refs/heads/a", "0 excludes nothing\n"),
        // what another one excludes is excluded all the same
        (
            "refs/heads/*:refs/x/* ^refs/heads/* ^refs/heads/a",
            "0 excluded by 1\n",
        ),
    ];
    check(&rt, ROWS)
}

#[test]
fn finds_idle_negative_specs_beside_merged_refs_and_tags(rt: HostRuntime) -> Result<(), Fail> {
    const MAIN: &str = "+refs/heads/main:refs/x/main ^refs/heads/dev";
    const ROWS: &[Row] = &[
        Row {
            values: MAIN,
            found: "1 excludes nothing\n",
            ..ROW
        },
        Row {
            values: MAIN,
            merges: "refs/heads/dev",
            ..ROW
        },
        // Git takes the branch for a partial value too, if the server lists it
        Row {
            values: MAIN,
            merges: "refs/heads/main dev",
            ..ROW
        },
        Row {
            values: MAIN,
            merges: "refs/tags/dev HEAD",
            found: "1 excludes nothing\n",
            ..ROW
        },
        Row {
            values: "+refs/heads/main:refs/x/main ^refs/heads/d*",
            merges: "refs/heads/dev",
            ..ROW
        },
        Row {
            values: "+refs/heads/main:refs/x/main ^HEAD",
            merges: "HEAD",
            ..ROW
        },
        // only by its full name
        Row {
            values: "+refs/heads/main:refs/x/main ^dev",
            merges: "dev",
            found: "1 excludes nothing\n",
            ..ROW
        },
        Row {
            values: "+refs/heads/main:refs/x/main ^refs/*-rc",
            tags: true,
            ..ROW
        },
        Row {
            values: "+refs/heads/main:refs/x/main ^refs/*-rc",
            found: "1 excludes nothing\n",
            ..ROW
        },
    ];
    check_configured(&rt, ROWS)
}

// An empty value of a merged ref stands for `HEAD`.
#[test]
fn takes_an_empty_merged_ref_for_head(rt: HostRuntime) -> Result<(), Fail> {
    let values = specs_of(rt.alloc(), "+refs/heads/main:refs/x/main ^HEAD")?;
    let merges = [BStr::new(b"")];
    let fetch = Configured {
        values: values.as_slice(),
        merges: merges.as_slice(),
        tags: false,
    };
    let text = text_of(rt.alloc(), &fetch, &[])?;
    assert_eq!(&rt; text.as_str(), "");
    Ok(())
}

// Each byte that may stand for a word is in a side.
#[test]
fn says_so_without_a_free_byte(rt: HostRuntime) -> Result<(), Fail> {
    let alloc = rt.alloc();
    let mut text = Vec::new(alloc);
    text.extend_from_slice(b"refs/heads/")?;
    for byte in 33..=255u8 {
        if byte != 127 && !b"~^:?[\\*./{".contains(&byte) {
            text.push(byte)?;
        }
    }
    let spec = gix_refspec::parse(
        alloc,
        BStr::new(text.as_slice()),
        gix_refspec::Operation::Fetch,
    )?;
    let specs = [spec];
    let fetch = values_alone(specs.as_slice());
    assert_eq!(rt;
        possible_conflicts(alloc, &fetch, &[]).err(),
        Some(Error::NoFreeByte)
    );
    assert_eq!(rt; idle_specs(alloc, &fetch).err(), Some(Error::NoFreeByte));
    assert_eq!(rt;
        idle_exclusions(alloc, &fetch).err(),
        Some(Error::NoFreeByte)
    );
    Ok(())
}

// Of two values the one that writes the directory, and the one that writes a ref in it: index, source and destination.
const NESTINGS: &[(&str, &str)] = &[
    (
        "refs/heads/a:refs/x/a refs/heads/b:refs/x/a/b",
        "0 refs/heads/a refs/x/a, 1 refs/heads/b refs/x/a/b",
    ),
    (
        "refs/heads/b:refs/x/a/b a:refs/x/a",
        "1 refs/a refs/x/a, 0 refs/heads/b refs/x/a/b",
    ),
    (
        "refs/heads/a:refs/x/y refs/heads/a:refs/x/y/z",
        "0 refs/heads/a refs/x/y, 1 refs/heads/a refs/x/y/z",
    ),
    (
        "refs/heads/*:refs/x/* refs/pull/*/head:refs/x/pr/*",
        "0 refs/heads/pr refs/x/pr, 1 refs/pull/main/head refs/x/pr/main",
    ),
    ("refs/heads/*:refs/x/* refs/heads/*:refs/x/*", ""),
    (
        "refs/pull/*/head:refs/pr/* refs/pull/*/head:refs/pr/*",
        "0 refs/pull/main/head refs/pr/main, 1 refs/pull/main/main/head refs/pr/main/main",
    ),
    (
        "refs/heads/*:refs/x/* refs/tags/*:refs/x/*",
        "0 refs/heads/main refs/x/main, 1 refs/tags/main/main refs/x/main/main",
    ),
    (
        "refs/heads/*:refs/x/* refs/tags/*:refs/x/*/t",
        "0 refs/heads/main refs/x/main, 1 refs/tags/main/main refs/x/main/main/t",
    ),
    (
        "refs/heads/h*:refs/x/a/b* refs/tags/*:refs/x/*/b/c ^refs/tags/a/*",
        "0 refs/heads/h refs/x/a/b, 1 refs/tags/a refs/x/a/b/c",
    ),
    (
        "refs/heads/a:refs/x/a/b refs/tags/*:refs/x/*",
        "0 refs/heads/a refs/x/a/b, 1 refs/tags/a/b/main refs/x/a/b/main",
    ),
    (
        "refs/heads/a:refs/x/a refs/tags/*:refs/x/*",
        "0 refs/heads/a refs/x/a, 1 refs/tags/a/main refs/x/a/main",
    ),
    (
        "refs/heads/a:refs/x/a refs/tags/*:refs/x/* ^refs/tags/a/*",
        "",
    ),
    ("refs/heads/*:refs/x/* refs/tags/*:refs/y/*", ""),
    ("refs/heads/a:refs/x refs/heads/a/b:refs/x/y", ""),
];

#[test]
fn finds_directory_conflicts(rt: HostRuntime) -> Result<(), Fail> {
    for (specs, found) in NESTINGS {
        let parsed = specs_of(rt.alloc(), specs)?;
        let words = [BStr::new(b"main")];
        let text = nestings_of(
            rt.alloc(),
            &values_alone(parsed.as_slice()),
            words.as_slice(),
        )?;
        assert_eq!(rt; text.as_str(), *found, "with {specs}");
    }
    Ok(())
}

// The directory conflicts, separated by semicolons.
fn nestings_of(
    alloc: Global,
    fetch: &Configured<'_, '_>,
    words: &[BStr<'_>],
) -> Result<String, Fail> {
    let mut text = String::new(alloc);
    for n in &possible_directory_conflicts(alloc, fetch, words)? {
        if !text.is_empty() {
            write!(text, "; ")?;
        }
        write!(text, "{} {} {}", n.upper_spec, n.upper_source, n.directory)?;
        write!(text, ", {} {} {}", n.lower_spec, n.lower_source, n.nested)?;
    }
    Ok(text)
}
