//! What a client asks a server to advertise for a group.

use bstr::BStr;
use gix_refspec::match_group::RefPrefixes;
use gix_refspec::parsing::Operation;
use gix_refspec::{MatchGroup, parse};
use std::alloc::Global;
use std::test::Fail;

const ID: &str = "aaaaaaaaaaaaaaaaaaaaaaaaaaaaaaaaaaaaaaaa";

// What to request for the specs of these texts.
fn request_for(alloc: Global, operation: Operation, texts: &[&str]) -> Result<RefPrefixes, Fail> {
    let mut specs = Vec::new(alloc);
    for text in texts {
        specs.push(parse(alloc, BStr::new(text.as_bytes()), operation)?)?;
    }
    Ok(MatchGroup { specs }.ref_prefixes(alloc)?)
}

// The ref prefixes to send, one a line; or `nothing` or `all`.
fn asked(alloc: Global, operation: Operation, texts: &[&str]) -> Result<String, Fail> {
    written(alloc, &request_for(alloc, operation, texts)?)
}

fn written(alloc: Global, request: &RefPrefixes) -> Result<String, Fail> {
    let mut text = String::new(alloc);
    match request {
        RefPrefixes::Nothing => text.push_str("nothing")?,
        RefPrefixes::All => text.push_str("all")?,
        RefPrefixes::Listed(names) => {
            for name in names {
                writeln!(text, "{name}")?;
            }
        }
    }
    Ok(text)
}

#[test]
fn gathers_what_a_group_asks_for(rt: HostRuntime) -> Result<(), Fail> {
    const HEAD: &str = "HEAD\nrefs/HEAD\nrefs/tags/HEAD\nrefs/heads/HEAD\nrefs/remotes/HEAD\n";
    const ROWS: &[(&[&str], &str)] = &[
        (&[], "nothing"),
        (
            &["+refs/heads/*:refs/remotes/origin/*", "^refs/heads/wip/*"],
            "refs/heads/\n",
        ),
        (
            &["refs/tags/v1:refs/tags/v1", "refs/heads/a"],
            "refs/tags/v1\nrefs/heads/a\n",
        ),
        (
            &["main"],
            // `refs/remotes/main/HEAD` begins with the last one.
            "main\nrefs/main\nrefs/tags/main\nrefs/heads/main\nrefs/remotes/main\n",
        ),
        // `HEAD` may be short for a longer name, too.
        (&["HEAD"], HEAD),
        (&[":refs/x/a"], HEAD),
        // Ids and negative specs ask for nothing.
        (&[ID], "nothing"),
        (&["^main", "^refs/*"], "nothing"),
        // No list serves these.
        (&["main", "*:refs/x/*"], "all"),
        (&["refs/*:refs/x/*"], "all"),
        (&["refs/*/head:refs/x/*", "main"], "all"),
        (&["refs/a]/*:refs/x/*"], "all"),
        (&["refs/a]*:refs/x/*"], "all"),
        // A `]` after the star does no harm.
        (&["refs/a*]:refs/x/*"], "refs/a\n"),
    ];
    let alloc = rt.alloc();
    for (texts, wanted) in ROWS {
        let found = asked(alloc, Operation::Fetch, texts)?;
        assert_eq!(rt; found.as_str(), *wanted, "at {texts:?}");
    }
    Ok(())
}

#[test]
fn gathers_what_a_push_asks_for(rt: HostRuntime) -> Result<(), Fail> {
    const ROWS: &[(&str, &str)] = &[
        ("main:refs/heads/x", "refs/heads/x\n"),
        ("refs/heads/*:refs/x/*", "refs/x/\n"),
        (":refs/heads/x", "refs/heads/x\n"),
        ("^refs/heads/*", "nothing"),
        ("main", "all"),
        (":", "all"),
        ("refs/heads/*:refs/*", "all"),
    ];
    let alloc = rt.alloc();
    for (text, wanted) in ROWS {
        let found = asked(alloc, Operation::Push, &[*text])?;
        assert_eq!(rt; found.as_str(), *wanted, "at {text}");
    }
    Ok(())
}

#[test]
fn drops_what_others_begin(rt: HostRuntime) -> Result<(), Fail> {
    const ROWS: &[(&[&str], &str)] = &[
        (
            &["refs/heads/*:refs/x/*", "refs/heads/main"],
            "refs/heads/\n",
        ),
        (
            &["refs/heads/main", "refs/heads/*:refs/x/*"],
            "refs/heads/\n",
        ),
        // A ref prefix isn't a directory.
        (&["refs/heads/ab", "refs/heads/a"], "refs/heads/a\n"),
        (
            &["refs/heads/a", "refs/tags/a"],
            "refs/heads/a\nrefs/tags/a\n",
        ),
        // Between two in order, one that begins with neither.
        (
            &["refs/a/b", "refs/a.b", "refs/a/b/c"],
            "refs/a/b\nrefs/a.b\n",
        ),
    ];
    let alloc = rt.alloc();
    for (texts, wanted) in ROWS {
        let found = asked(alloc, Operation::Fetch, texts)?;
        assert_eq!(rt; found.as_str(), *wanted, "at {texts:?}");
    }
    Ok(())
}

#[test]
fn keeps_the_first_of_equal_ones(rt: HostRuntime) -> Result<(), Fail> {
    const ROWS: &[(&[&str], &str)] = &[
        // The others keep their order.
        (
            &[
                "refs/tags/b",
                "refs/heads/a",
                "refs/tags/b:refs/x/b",
                "refs/a",
            ],
            "refs/tags/b\nrefs/heads/a\nrefs/a\n",
        ),
        (
            &["main", "refs/heads/*:refs/x/*"],
            "main\nrefs/main\nrefs/tags/main\nrefs/remotes/main\nrefs/heads/\n",
        ),
        (
            &["main", "main:x"],
            "main\nrefs/main\nrefs/tags/main\nrefs/heads/main\nrefs/remotes/main\n",
        ),
    ];
    let alloc = rt.alloc();
    for (texts, wanted) in ROWS {
        let found = asked(alloc, Operation::Fetch, texts)?;
        assert_eq!(rt; found.as_str(), *wanted, "at {texts:?}");
    }
    Ok(())
}

// What to request for a fetch of a full name of so many bytes.
fn request_of_length(alloc: Global, len: usize) -> Result<RefPrefixes, Fail> {
    const START: &str = "refs/heads/";
    let mut text = String::new(alloc);
    text.push_str(START)?;
    for _ in START.len()..len {
        text.push('a')?;
    }
    request_for(alloc, Operation::Fetch, &[text.as_str()])
}

// A packet line has 65,516 bytes, of which `ref-prefix ` takes eleven.
#[test]
fn asks_for_all_where_a_name_is_too_long(rt: HostRuntime) -> Result<(), Fail> {
    let alloc = rt.alloc();
    assert!(rt; matches!(request_of_length(alloc, 65_505)?, RefPrefixes::Listed(_)));
    assert!(rt; matches!(request_of_length(alloc, 65_506)?, RefPrefixes::All));
    Ok(())
}

// What to request for fetches of so many full names, of which none begins with another one.
fn request_of_many(alloc: Global, count: usize) -> Result<RefPrefixes, Fail> {
    let mut texts = Vec::new(alloc);
    for index in 0..count {
        texts.push(format!(in alloc; "refs/heads/{index}/a")?)?;
    }
    let mut specs = Vec::new(alloc);
    for text in &texts {
        specs.push(parse(alloc, BStr::new(text.as_bytes()), Operation::Fetch)?)?;
    }
    Ok(MatchGroup { specs }.ref_prefixes(alloc)?)
}

// Git ignores them all if there are more than 65,535.
#[test]
fn asks_for_all_where_there_are_too_many(rt: HostRuntime) -> Result<(), Fail> {
    let alloc = rt.alloc();
    let RefPrefixes::Listed(names) = request_of_many(alloc, 65_535)? else {
        return Err("no list of 65,535".into());
    };
    assert_eq!(rt; names.len(), 65_535);
    assert!(rt;
        matches!(request_of_many(alloc, 65_536)?, RefPrefixes::All),
        "a list of 65,536"
    );
    Ok(())
}
