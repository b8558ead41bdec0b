//! What a fetch does because of one value of a remote's configuration, besides its mappings.
//! `tests/refspec_map/git_rows.py` tries such values with Git.

use super::plans::specs_of;
use gix_refspec_lint::removal::{Removal, removal_of};
use std::alloc::Global;
use std::process::Abort;
use std::test::Fail;

// A letter for each flag, or `-`.
fn text_of(alloc: Global, removal: &Removal) -> Result<String, Fail> {
    let mut text = String::new(alloc);
    write!(text, "{}", if removal.prunes { 'p' } else { '-' })?;
    write!(text, "{}", if removal.tracks { 'o' } else { '-' })?;
    write!(text, "{}", if removal.follows_tags { 't' } else { '-' })?;
    write!(text, "{}", if removal.is_first { 'f' } else { '-' })?;
    Ok(text)
}

fn check(rt: &(impl Abort + AllocGlobal), rows: &[(&str, usize, &str)]) -> Result<(), Fail> {
    for (specs, index, wanted) in rows {
        let parsed = specs_of(rt.alloc(), specs)?;
        let removal = removal_of(rt.alloc(), parsed.as_slice(), *index)?;
        let text = text_of(rt.alloc(), &removal)?;
        assert_eq!(rt; text.as_str(), *wanted, "with {specs} at {index}");
    }
    Ok(())
}

#[test]
fn says_what_pruning_does_without_a_value(rt: HostRuntime) -> Result<(), Fail> {
    const ROWS: &[(&str, usize, &str)] = &[
        ("+refs/heads/*:refs/x/*", 0, "pot-"),
        // Within another one with the same sources.
        (
            "+refs/heads/*:refs/x/* refs/heads/dev*:refs/x/dev*",
            1,
            "----",
        ),
        (
            "+refs/heads/*:refs/x/* refs/heads/main:refs/x/main",
            1,
            "----",
        ),
        (
            "+refs/heads/*:refs/x/* refs/heads/main:refs/x/main",
            0,
            "po-f",
        ),
        // From another source.
        ("+refs/heads/*:refs/x/* refs/tags/*:refs/x/*", 1, "po--"),
        // From an excluded one.
        (
            "+refs/heads/*:refs/x/* +refs/tags/*:refs/x/* ^refs/tags/*",
            1,
            "po--",
        ),
        (
            "+refs/heads/*:refs/x/* +refs/tags/*:refs/t/* ^refs/tags/*",
            1,
            "-o--",
        ),
        // From one that is no ref.
        ("refs/tags/*:refs/t/* heads/*:refs/x/*", 1, "p---"),
        ("refs/heads/*:refs/x/* heads/*:refs/x/*", 1, "----"),
        (
            "refs/heads/*:refs/x/* heads/*:refs/x/* ^heads/a*",
            1,
            "p---",
        ),
        ("refs/heads/*:refs/x/*", 1, "----"),
        ("HEAD refs/heads/*:a/*", 1, "--t-"),
    ];
    check(&rt, ROWS)
}

#[test]
fn says_what_pruning_does_without_a_negative_value(rt: HostRuntime) -> Result<(), Fail> {
    const ROWS: &[(&str, usize, &str)] = &[
        ("+refs/heads/*:refs/x/* ^refs/heads/tmp/*", 1, "p---"),
        ("+refs/heads/*:refs/x/* ^refs/tags/*", 1, "----"),
        (
            "+refs/heads/*:refs/x/* ^refs/heads/tmp/* ^refs/heads/t*",
            1,
            "----",
        ),
        ("refs/heads/main ^refs/heads/main", 1, "----"),
    ];
    check(&rt, ROWS)
}

#[test]
fn says_what_refs_of_the_command_line_update(rt: HostRuntime) -> Result<(), Fail> {
    const ROWS: &[(&str, usize, &str)] = &[
        (
            "+refs/heads/main:refs/x/main +refs/heads/dev*:refs/x/dev* ^refs/heads/dev*",
            1,
            "-o--",
        ),
        (
            "+refs/heads/*:refs/x/* +refs/heads/dev*:refs/x/dev* ^refs/heads/dev*",
            1,
            "----",
        ),
        (
            "+refs/heads/dev*:refs/x/dev* +refs/heads/*:refs/x/* ^refs/heads/dev*",
            0,
            "-o--",
        ),
        ("refs/heads/main refs/heads/dev", 1, "----"),
    ];
    check(&rt, ROWS)
}

#[test]
fn says_whether_tags_are_followed_by_a_value_alone(rt: HostRuntime) -> Result<(), Fail> {
    const ROWS: &[(&str, usize, &str)] = &[
        ("refs/heads/main:refs/x/main refs/heads/dev", 0, "potf"),
        ("refs/heads/dev", 0, "---f"),
    ];
    check(&rt, ROWS)
}

#[test]
fn says_what_a_pull_merges(rt: HostRuntime) -> Result<(), Fail> {
    const ROWS: &[(&str, usize, &str)] = &[
        ("^refs/heads/topic refs/heads/main:refs/x/main", 0, "---f"),
        ("^refs/heads/topic refs/heads/*:refs/x/*", 0, "p---"),
        ("refs/heads/main ^refs/heads/main", 0, "----"),
        ("refs/heads/none*:refs/x/none* refs/heads/dev", 0, "potf"),
        ("refs/heads/none*:refs/x/none* refs/heads/dev", 1, "----"),
        ("refs/heads/main refs/heads/dev", 0, "---f"),
    ];
    check(&rt, ROWS)
}
