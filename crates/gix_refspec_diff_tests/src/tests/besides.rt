//! What else a fetch does otherwise.

use super::pairs::found;
use std::process::Abort;
use std::test::Fail;

#[test]
fn says_whether_tags_are_followed(rt: HostRuntime) -> Result<(), Fail> {
    const ROWS: &[(&str, &str, bool)] = &[
        ("+refs/heads/*:refs/x/*", "+refs/tags/*:refs/t/*", false),
        ("HEAD", "HEAD refs/heads/main", false),
        // A value with a destination makes Git follow tags even if it maps nothing.
        ("HEAD", "HEAD refs/heads/*:a/*", true),
        // A negative one has none.
        ("HEAD", "HEAD ^refs/heads/tmp/*", false),
    ];
    for (old, new, wanted) in ROWS {
        let found = found(rt.alloc(), old, new)?;
        assert_eq!(rt; found.follows_tags, *wanted, "{old} and {new}");
    }
    Ok(())
}

// git-fetch(1), "configured remote-tracking branches"; that negative values don't count there, Git shows.
#[test]
fn says_whether_named_refs_are_stored_alike(rt: HostRuntime) -> Result<(), Fail> {
    const ROWS: &[(&str, &str, bool)] = &[
        (
            "+refs/heads/*:refs/x/*",
            "+refs/heads/*:refs/x/* ^refs/heads/tmp/*",
            false,
        ),
        ("+refs/heads/*:refs/x/*", "+refs/heads/*:refs/y/*", true),
        // Without the second value `git fetch REMOTE dev` no longer writes refs/x/dev.
        (
            "+refs/heads/main:refs/x/main +refs/heads/dev*:refs/x/dev* ^refs/heads/dev*",
            "+refs/heads/main:refs/x/main ^refs/heads/dev*",
            true,
        ),
        // A value without a destination stores nothing.
        (
            "+refs/heads/*:refs/x/*",
            "+refs/heads/*:refs/x/* HEAD",
            false,
        ),
    ];
    for (old, new, wanted) in ROWS {
        let found = found(rt.alloc(), old, new)?;
        assert_eq!(rt; found.tracks, *wanted, "{old} and {new}");
    }
    Ok(())
}

// git-pull(1), "default behaviour"; Git marks the other lines of FETCH_HEAD `not-for-merge`.
#[test]
fn says_whether_another_source_is_merged(rt: HostRuntime) -> Result<(), Fail> {
    const ROWS: &[(&str, &str, bool)] = &[
        ("", "HEAD", false),
        // Order alone decides.
        (
            "refs/heads/a refs/heads/b",
            "refs/heads/b refs/heads/a",
            true,
        ),
        (
            "+refs/heads/*:refs/x/* HEAD",
            "HEAD +refs/heads/*:refs/x/*",
            true,
        ),
        // Where the merged ref is written doesn't matter.
        ("refs/heads/a:refs/x/a", "+refs/heads/a:refs/y/a", false),
        // A pattern merges nothing, nor does an excluded ref.
        ("+refs/heads/*:refs/x/*", "^refs/heads/tmp/*", false),
        (
            "refs/heads/a ^refs/heads/a",
            "refs/tags/b ^refs/tags/*",
            false,
        ),
        // Where there are a tag and a branch, `a` is the tag.
        ("a", "heads/a", true),
        ("a ^refs/tags/a", "a", true),
    ];
    for (old, new, wanted) in ROWS {
        let found = found(rt.alloc(), old, new)?;
        assert_eq!(rt; found.merges, *wanted, "{old} and {new}");
    }
    Ok(())
}
