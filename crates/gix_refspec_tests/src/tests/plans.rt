//! What fetches plan. Each row is what git 2.39 fetches, by `tests/refspec/git_refspec.py` and by hand.

use super::mapping::{group_of, items_of, target};
use bstr::BStr;
use gix_refspec::RefSpecRef;
use gix_refspec::match_group::ref_names::InvalidSide;
use gix_refspec::parsing::Operation;
use gix_refspec_plan::directories::nested_names;
use gix_refspec_plan::{Origin, Plan, Update, Verdict, Wish, plan_fetch};
use std::alloc::{AllocError, Global};
use std::process::Abort;
use std::test::Fail;

// What a fetch is asked for, one spec or name a word; the names of the remote; and what is planned.
#[derive(Clone, Copy)]
struct Row<'r> {
    given: &'r str,
    configured: &'r str,
    merges: &'r str,
    tags: bool,
    names: &'r str,
    planned: &'r str,
}

const NOTHING: Row<'static> = Row {
    given: "",
    configured: "",
    merges: "",
    tags: false,
    names: "",
    planned: "",
};

const ORIGIN: &str = "+refs/heads/*:refs/remotes/origin/*";

pub(super) fn specs_of<'a>(alloc: Global, words: &'a str) -> Result<Vec<RefSpecRef<'a>>, Fail> {
    if words.is_empty() {
        return Ok(Vec::new(alloc));
    }
    Ok(group_of(alloc, Operation::Fetch, words)?.specs)
}

pub(super) fn names_of<'a>(alloc: Global, words: &'a str) -> Result<Vec<BStr<'a>>, AllocError> {
    let mut names = Vec::new(alloc);
    if words.is_empty() {
        return Ok(names);
    }
    for word in words.split(' ') {
        names.push(BStr::new(word.as_bytes()))?;
    }
    Ok(names)
}

fn add_origin(text: &mut String, origin: Origin) -> Result<(), AllocError> {
    match origin {
        Origin::Given(index) => write!(text, "given {index}"),
        Origin::Configured(index) => write!(text, "configured {index}"),
        Origin::Merge(index) => write!(text, "merge {index}"),
        Origin::Default => text.push_str("default"),
        Origin::AllTags => text.push_str("tags"),
    }
}

fn verdict_text(verdict: Verdict) -> &'static str {
    match verdict {
        Verdict::Written => "written",
        Verdict::LeftOut(InvalidSide::Source) => "source",
        Verdict::LeftOut(InvalidSide::Destination) => "destination",
        Verdict::LeftOut(InvalidSide::Both) => "both",
        Verdict::InConflict => "conflict",
        Verdict::Overruled => "overruled",
        Verdict::DirectoryConflict => "nested",
    }
}

// Adds the spec, the source with the index of its item, the destination and the verdict.
fn add_line(text: &mut String, update: &Update<'_>) -> Result<(), AllocError> {
    add_origin(text, update.origin)?;
    match update.item_index {
        None => text.push_str(" -")?,
        Some(index) => write!(text, " {index}")?,
    }
    let source = &update.source;
    let verdict = verdict_text(update.verdict);
    match &update.destination {
        None => writeln!(text, " {source} - {verdict}"),
        Some(name) => writeln!(text, " {source} {name} {verdict}"),
    }
}

// Adds a spec whose source is missing.
fn add_missing(text: &mut String, origin: Origin) -> Result<(), AllocError> {
    text.push_str("missing ")?;
    add_origin(text, origin)?;
    text.push('\n')
}

fn text_of(alloc: Global, plan: &Plan<'_>) -> Result<String, AllocError> {
    let mut text = String::new(alloc);
    for update in &plan.updates {
        add_line(&mut text, update)?;
    }
    for origin in &plan.missing {
        add_missing(&mut text, *origin)?;
    }
    Ok(text)
}

// The lines of what is planned, and whether it is carried out.
fn planned(alloc: Global, row: Row<'_>) -> Result<(String, bool), Fail> {
    let given = specs_of(alloc, row.given)?;
    let configured = specs_of(alloc, row.configured)?;
    planned_by(alloc, row, given.as_slice(), configured.as_slice())
}

// The same by parsed specs.
fn planned_by<'r>(
    alloc: Global,
    row: Row<'r>,
    given: &[RefSpecRef<'r>],
    configured: &[RefSpecRef<'r>],
) -> Result<(String, bool), Fail> {
    let target = target();
    let merges = names_of(alloc, row.merges)?;
    let items = items_of(alloc, row.names, &target)?;
    let wish = Wish {
        given,
        configured,
        merges: merges.as_slice(),
        tags: row.tags,
    };
    let made = plan_fetch(alloc, &wish, items.as_slice())?;
    Ok((text_of(alloc, &made)?, made.is_carried_out()))
}

fn check(rt: &(impl Abort + AllocGlobal), rows: &[Row<'_>]) -> Result<(), Fail> {
    for row in rows {
        let (lines, is_carried_out) = planned(rt.alloc(), *row)?;
        assert_eq!(rt; lines.as_str(), row.planned);
        let stops = row.planned.contains(" conflict\n") || row.planned.contains("missing ");
        assert_eq!(rt; is_carried_out, !stops, "{}", row.planned);
    }
    Ok(())
}

#[test]
fn applies_configured_specs_to_what_is_given(rt: HostRuntime) -> Result<(), Fail> {
    check(
        &rt,
        &[
            Row {
                given: "main",
                configured: ORIGIN,
                names: "HEAD refs/heads/dev refs/heads/main",
                planned: "given 0 2 refs/heads/main - written\n\
                    configured 0 2 refs/heads/main refs/remotes/origin/main written\n",
                ..NOTHING
            },
            // What a spec of the call writes wins, and a pair is listed once.
            Row {
                given: "dev:refs/remotes/origin/main main:refs/remotes/origin/main2 main",
                configured: "+refs/heads/*:refs/remotes/origin/* refs/heads/main:refs/remotes/origin/main2",
                names: "refs/heads/dev refs/heads/main",
                planned: "given 0 0 refs/heads/dev refs/remotes/origin/main written\n\
                    given 1 1 refs/heads/main refs/remotes/origin/main2 written\n\
                    given 2 1 refs/heads/main - written\n\
                    configured 0 0 refs/heads/dev refs/remotes/origin/dev written\n\
                    configured 0 1 refs/heads/main refs/remotes/origin/main overruled\n",
                ..NOTHING
            },
            // Negative specs of the call exclude from both, and configured ones from neither.
            Row {
                given: "refs/heads/*:refs/x/* ^refs/heads/dev",
                configured: "+refs/heads/*:refs/remotes/origin/* ^refs/heads/main",
                names: "refs/heads/dev refs/heads/main",
                planned: "given 0 1 refs/heads/main refs/x/main written\n\
                    configured 0 1 refs/heads/main refs/remotes/origin/main written\n",
                ..NOTHING
            },
            // Two configured sources of one destination.
            Row {
                given: "a b",
                configured: "refs/heads/a:refs/r refs/heads/b:refs/r",
                names: "refs/heads/a refs/heads/b",
                planned: "given 0 0 refs/heads/a - written\n\
                    given 1 1 refs/heads/b - written\n\
                    configured 0 0 refs/heads/a refs/r conflict\n\
                    configured 1 1 refs/heads/b refs/r conflict\n",
                ..NOTHING
            },
            // An exact source that wasn't taken isn't missing. All tags follow what is given, and aren't tracked.
            Row {
                given: "a",
                configured: "refs/heads/b:refs/b refs/tags/*:refs/t/*",
                tags: true,
                names: "refs/heads/a refs/heads/b refs/tags/v1",
                planned: "given 0 0 refs/heads/a - written\ntags 2 refs/tags/v1 refs/tags/v1 written\n",
                ..NOTHING
            },
        ],
    )
}

#[test]
fn fetches_what_is_configured(rt: HostRuntime) -> Result<(), Fail> {
    check(
        &rt,
        &[
            Row {
                names: "HEAD refs/heads/main",
                planned: "default 0 HEAD - written\n",
                ..NOTHING
            },
            Row {
                names: "refs/heads/main",
                planned: "missing default\n",
                ..NOTHING
            },
            // A merged ref that a spec fetches is covered.
            Row {
                configured: ORIGIN,
                merges: "refs/heads/main refs/tags/v1 refs/tags/v1 refs/heads/gone",
                names: "HEAD refs/heads/main refs/tags/v1",
                planned: "configured 0 1 refs/heads/main refs/remotes/origin/main written\n\
                    merge 1 2 refs/tags/v1 - written\n",
                ..NOTHING
            },
            // Without values of the remote the merged ref alone is fetched, and no other name than a full one.
            Row {
                merges: "main refs/heads/main refs/heads/*",
                names: "HEAD refs/heads/main",
                planned: "merge 1 1 refs/heads/main - written\n",
                ..NOTHING
            },
            Row {
                configured: "refs/heads/*:refs/remotes/origin/* ^refs/heads/main ^refs/tags/v*",
                merges: "refs/heads/main",
                tags: true,
                names: "refs/heads/dev refs/heads/main refs/tags/v1 refs/tags/w",
                planned: "configured 0 0 refs/heads/dev refs/remotes/origin/dev written\n\
                    tags 3 refs/tags/w refs/tags/w written\n",
                ..NOTHING
            },
        ],
    )
}

#[test]
fn completes_destinations_as_git_does(rt: HostRuntime) -> Result<(), Fail> {
    check(
        &rt,
        &[Row {
            given: "main:heads/x main:tags/x main:remotes/x main:x main:HEAD main:refs/x main:refs/heads/x main:EEEEEEEEEEEEEEEEEEEEEEEEEEEEEEEEEEEEEEEE 1111111111111111111111111111111111111111:heads/i",
            names: "refs/heads/main",
            planned: "given 8 - 1111111111111111111111111111111111111111 refs/heads/i written\n\
                given 0 0 refs/heads/main refs/heads/x written\n\
                given 1 0 refs/heads/main refs/tags/x written\n\
                given 2 0 refs/heads/main refs/remotes/x written\n\
                given 4 0 refs/heads/main refs/heads/HEAD written\n\
                given 5 0 refs/heads/main refs/x written\n\
                given 7 0 refs/heads/main refs/heads/EEEEEEEEEEEEEEEEEEEEEEEEEEEEEEEEEEEEEEEE written\n",
            ..NOTHING
        }],
    )
}

#[test]
fn leaves_out_what_is_no_ref_name(rt: HostRuntime) -> Result<(), Fail> {
    check(
        &rt,
        &[
            Row {
                configured: "*:* refs/heads/*:foo/* refs/heads/l*:refs/x/a.l*",
                names: "HEAD refs/heads/lock",
                planned: "configured 0 0 HEAD HEAD destination\n\
                    configured 0 1 refs/heads/lock refs/heads/lock written\n\
                    configured 1 1 refs/heads/lock foo/lock destination\n\
                    configured 2 1 refs/heads/lock refs/x/a.lock destination\n",
                ..NOTHING
            },
            // A ref that is only left out isn't taken.
            Row {
                given: "refs/heads/l*:refs/x/a.l*",
                configured: ORIGIN,
                names: "refs/heads/lock",
                planned: "given 0 0 refs/heads/lock refs/x/a.lock destination\n",
                ..NOTHING
            },
        ],
    )
}

// Git writes one of two such refs, and says "cannot lock ref" of the other.
#[test]
fn writes_no_directories_of_refs(rt: HostRuntime) -> Result<(), Fail> {
    check(
        &rt,
        &[
            // Only a whole component makes a directory.
            Row {
                configured: "+refs/heads/*:refs/x/* +refs/tags/*:refs/x/*",
                names: "refs/heads/a/y refs/heads/ab refs/heads/a- refs/tags/a refs/tags/b",
                planned: "configured 0 0 refs/heads/a/y refs/x/a/y nested\n\
                    configured 0 1 refs/heads/ab refs/x/ab written\n\
                    configured 0 2 refs/heads/a- refs/x/a- written\n\
                    configured 1 3 refs/tags/a refs/x/a nested\n\
                    configured 1 4 refs/tags/b refs/x/b written\n",
                ..NOTHING
            },
            // Also of one source, and several levels below.
            Row {
                given: "main:refs/x/a/b/c main:refs/x/a main:refs/x/a/d",
                names: "refs/heads/main",
                planned: "given 0 0 refs/heads/main refs/x/a/b/c nested\n\
                    given 1 0 refs/heads/main refs/x/a nested\n\
                    given 2 0 refs/heads/main refs/x/a/d nested\n",
                ..NOTHING
            },
            // A given spec and a configured one.
            Row {
                given: "main:refs/x/a",
                configured: "refs/heads/main:refs/x/a/b",
                names: "refs/heads/main",
                planned: "given 0 0 refs/heads/main refs/x/a nested\n\
                    configured 0 0 refs/heads/main refs/x/a/b nested\n",
                ..NOTHING
            },
            // A conflict comes first, and what is left out isn't in the way.
            Row {
                given: "a:refs/x/a b:refs/x/a b:refs/x/a/b refs/heads/a.l*:refs/y/a* b:refs/y/aock/c",
                names: "refs/heads/a refs/heads/b refs/heads/a.lock",
                planned: "given 0 0 refs/heads/a refs/x/a conflict\n\
                    given 1 1 refs/heads/b refs/x/a conflict\n\
                    given 2 1 refs/heads/b refs/x/a/b nested\n\
                    given 3 2 refs/heads/a.lock refs/y/aock source\n\
                    given 4 1 refs/heads/b refs/y/aock/c written\n",
                ..NOTHING
            },
        ],
    )
}

#[test]
fn finds_names_in_directories(rt: HostRuntime) -> Result<(), Fail> {
    let alloc = rt.alloc();
    let cases = [
        ("", "a", None),
        ("a", "a", None),
        ("a a", "a", None),
        ("a a/b", "a", Some("a/b")),
        ("a/b a", "a/b", Some("a")),
        ("a ab a-b a.b", "a", None),
        ("a/b/c a- a", "a/b/c", Some("a")),
        ("a a/b a/b/c", "a/b/c", Some("a")),
        ("a/b a/c", "a/b", None),
        ("a/b a/c a", "a/c", Some("a")),
    ];
    for (words, name, other) in cases {
        let mut names: Vec<&[u8]> = Vec::new(alloc);
        for word in words.split(' ') {
            names.push(word.as_bytes())?;
        }
        let nested = nested_names(alloc, names)?;
        let found = nested.get(name.as_bytes()).copied();
        assert_eq!(rt;
            found,
            other.map(|text| text.as_bytes()),
            "{name} among {words}"
        );
    }
    Ok(())
}

#[test]
fn fetches_nothing_where_a_source_is_missing(rt: HostRuntime) -> Result<(), Fail> {
    check(
        &rt,
        &[
            Row {
                given: "gone main refs/heads/gone:refs/x refs/gone/*:refs/y/* ^gone",
                configured: ORIGIN,
                names: "refs/heads/main",
                planned: "given 1 0 refs/heads/main - written\n\
                    configured 0 0 refs/heads/main refs/remotes/origin/main written\n\
                    missing given 0\nmissing given 2\n",
                ..NOTHING
            },
            // Even a source that is excluded.
            Row {
                configured: "refs/heads/gone:refs/x ^refs/heads/gone",
                names: "refs/heads/main",
                planned: "missing configured 0\n",
                ..NOTHING
            },
            Row {
                given: "a:refs/x b:refs/x b",
                names: "refs/heads/a refs/heads/b",
                planned: "given 0 0 refs/heads/a refs/x conflict\n\
                    given 1 1 refs/heads/b refs/x conflict\n\
                    given 2 1 refs/heads/b - written\n",
                ..NOTHING
            },
        ],
    )
}
