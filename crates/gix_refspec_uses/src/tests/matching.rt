//! Plans, look-ups, and ref prefixes.

use crate::asking::match_asked;
use crate::planner::{Fetch, plan_updates};
use crate::tracking::{NoLookUp, there_and_back};
use bstr::BStr;
use gix_refspec::match_group::{Item, Mapping};
use gix_refspec::oid::ObjectId;
use gix_refspec::parsing::Operation;
use gix_refspec::{MatchGroup, RefSpecRef, parse};
use gix_refspec_plan::Wish;
use std::alloc::{AllocError, Global};
use std::test::Fail;

// What items point to.
const TARGET: &str = "1111111111111111111111111111111111111111";

// The fetch specs of these texts, which are separated by spaces.
fn specs_of<'a>(alloc: Global, texts: &'a str) -> Result<Vec<RefSpecRef<'a>>, Fail> {
    let mut specs = Vec::new(alloc);
    if texts.is_empty() {
        return Ok(specs);
    }
    for text in texts.split(' ') {
        specs.push(parse(alloc, BStr::new(text.as_bytes()), Operation::Fetch)?)?;
    }
    Ok(specs)
}

// The item of a name.
fn item<'a>(name: &'a str, target: &'a ObjectId) -> Item<'a> {
    Item {
        full_ref_name: BStr::new(name.as_bytes()),
        target,
        object: None,
    }
}

// `source:destination` for each mapping, or `source` without a destination, one per line.
fn lines(alloc: Global, mappings: &[Mapping<'_, '_>]) -> Result<String, AllocError> {
    let mut text = String::new(alloc);
    for mapping in mappings {
        let source = &mapping.lhs;
        let line = match &mapping.rhs {
            None => format!(in alloc; "{source}\n")?,
            Some(name) => {
                let destination = name.as_bstr();
                format!(in alloc; "{source}:{destination}\n")?
            }
        };
        text.push_str(line.as_str())?;
    }
    Ok(text)
}

// What a fetch writes, one update per line; or that nothing is fetched, and how many sources are missing.
fn planned<'s>(
    alloc: Global,
    given: &'s str,
    configured: &'s str,
    names: &str,
) -> Result<String, Fail> {
    let target = ObjectId::from_hex(TARGET.as_bytes())?;
    let mut items = Vec::new(alloc);
    for name in names.split(' ') {
        items.push(item(name, &target))?;
    }
    let given = specs_of(alloc, given)?;
    let configured = specs_of(alloc, configured)?;
    let wish = Wish {
        given: given.as_slice(),
        configured: configured.as_slice(),
        merges: &[],
        tags: false,
    };
    match plan_updates(alloc, &wish, items.as_slice())? {
        Fetch::CarriedOut(updates) => {
            let mut text = String::new(alloc);
            for update in &updates {
                let source = &update.source;
                let line = match &update.destination {
                    None => format!(in alloc; "{source}\n")?,
                    Some(name) => format!(in alloc; "{source}:{name}\n")?,
                };
                text.push_str(line.as_str())?;
            }
            Ok(text)
        }
        Fetch::Hindered(plan) => {
            let missing = plan.missing.len();
            Ok(format!(in alloc; "nothing, {missing} missing")?)
        }
    }
}

// Each row is what git 2.39 fetches.
#[test]
fn plans_what_is_written(rt: HostRuntime) -> Result<(), Fail> {
    let alloc = rt.alloc();
    const CASES: &[(&str, &str, &str, &str)] = &[
        (
            "main",
            "+refs/heads/*:refs/remotes/origin/*",
            "HEAD refs/heads/dev refs/heads/main",
            "refs/heads/main\nrefs/heads/main:refs/remotes/origin/main\n",
        ),
        (
            "",
            "+refs/heads/*:refs/remotes/origin/* ^refs/heads/dev-*",
            "HEAD refs/heads/main refs/heads/dev-a",
            "refs/heads/main:refs/remotes/origin/main\n",
        ),
        ("main gone", "", "refs/heads/main", "nothing, 1 missing"),
        (
            "refs/heads/*:refs/x/* refs/tags/*:refs/x/*",
            "",
            "refs/heads/a refs/tags/a refs/tags/b",
            "nothing, 0 missing",
        ),
        // What is left out causes no conflicts.
        (
            "",
            "refs/heads/*:x/* refs/tags/*:x/*",
            "refs/heads/a refs/tags/a",
            "",
        ),
    ];
    for (given, configured, names, told) in CASES {
        let answer = planned(alloc, given, configured, names)?;
        assert_eq!(rt; answer.as_str(), *told, "at {given} and {configured}");
    }
    Ok(())
}

// What is found there, and back, or `-` if the specs don't go both ways.
fn looked_up(
    alloc: Global,
    texts: &str,
    remote: &Item<'_>,
    tracking: &Item<'_>,
) -> Result<(String, String), Fail> {
    let group = MatchGroup {
        specs: specs_of(alloc, texts)?,
    };
    match there_and_back(alloc, group, remote, tracking) {
        Ok(found) => {
            let there = lines(alloc, found.there.mappings.as_slice())?;
            Ok((there, lines(alloc, found.back.mappings.as_slice())?))
        }
        Err(NoLookUp::OneWay(_)) => Ok((format!(in alloc; "-")?, format!(in alloc; "-")?)),
        Err(NoLookUp::Memory) => Err(Fail::new("no memory")),
    }
}

#[test]
fn looks_there_and_back(rt: HostRuntime) -> Result<(), Fail> {
    let alloc = rt.alloc();
    let target = ObjectId::from_hex(TARGET.as_bytes())?;
    // Specs, a remote ref and a tracking branch, and what is found there and back.
    const CASES: &[(&str, &str, &str, &str, &str)] = &[
        (
            "refs/heads/*:refs/remotes/origin/* refs/heads/main:refs/x/main",
            "refs/heads/main",
            "refs/x/main",
            "refs/heads/main:refs/remotes/origin/main\nrefs/heads/main:refs/x/main\n",
            "refs/heads/main:refs/x/main\n",
        ),
        (
            "refs/heads/*:refs/x/* refs/tags/*:refs/x/* ^refs/heads/a",
            "refs/heads/a",
            "refs/x/a",
            "",
            "refs/tags/a:refs/x/a\n",
        ),
        (
            "main:refs/x/main",
            "refs/heads/main",
            "refs/x/main",
            "-",
            "-",
        ),
    ];
    for (texts, remote, tracking, there, back) in CASES {
        let (found_there, found_back) = looked_up(
            alloc,
            texts,
            &item(remote, &target),
            &item(tracking, &target),
        )?;
        assert_eq!(rt;
            (found_there.as_str(), found_back.as_str()),
            (*there, *back),
            "at {texts}"
        );
    }
    Ok(())
}

// The mappings of the items listed for the ref prefixes, and how many items these are; or that no list
// is safe.
fn asked(alloc: Global, texts: &str, names: &str) -> Result<String, Fail> {
    let target = ObjectId::from_hex(TARGET.as_bytes())?;
    let mut items = Vec::new(alloc);
    for name in names.split(' ') {
        items.push(item(name, &target))?;
    }
    let specs = specs_of(alloc, texts)?;
    match match_asked(alloc, specs, items.as_slice())? {
        Some(found) => {
            let matched = lines(alloc, found.outcome.mappings.as_slice())?;
            let count = found.items.len();
            Ok(format!(in alloc; "{matched}{count} asked for")?)
        }
        None => Ok(format!(in alloc; "no list")?),
    }
}

#[test]
fn matches_what_is_asked_for(rt: HostRuntime) -> Result<(), Fail> {
    let alloc = rt.alloc();
    const CASES: &[(&str, &str, &str)] = &[
        (
            "HEAD refs/heads/*:refs/x/*",
            "refs/tags/b refs/heads/a HEAD refs/notes/HEAD",
            "HEAD\nrefs/heads/a:refs/x/a\n2 asked for",
        ),
        (
            "refs/heads/*:refs/x/* ^refs/heads/a",
            "refs/heads/a refs/heads/b refs/tags/b",
            "refs/heads/b:refs/x/b\n2 asked for",
        ),
        (
            "main",
            "refs/tags/main refs/heads/main",
            "refs/tags/main\n2 asked for",
        ),
        ("refs/*:refs/x/* main", "refs/heads/a", "no list"),
    ];
    for (texts, names, told) in CASES {
        let answer = asked(alloc, texts, names)?;
        assert_eq!(rt; answer.as_str(), *told, "at {texts}");
    }
    Ok(())
}
