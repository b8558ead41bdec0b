//! What a new name of the remote makes of a fetch value.

use bstr::BStr;
use gix_refspec_remote::renamed;
use std::test::Fail;

#[test]
fn renames_fetch_values(rt: HostRuntime) -> Result<(), Fail> {
    // What `git remote rename` of Git 2.39.5 leaves in the configuration; nothing where it warns that it leaves a value.
    const ROWS: &[(&str, &str, &str, Option<&str>)] = &[
        (
            "+refs/heads/*:refs/remotes/o/*",
            "o",
            "n",
            Some("+refs/heads/*:refs/remotes/n/*"),
        ),
        (
            "@:refs/remotes/o/HEAD",
            "o",
            "n",
            Some("@:refs/remotes/n/HEAD"),
        ),
        (
            "refs/remotes/o/x:refs/remotes/o/x",
            "o",
            "n",
            Some("refs/remotes/o/x:refs/remotes/n/x"),
        ),
        (
            "refs/heads/*:refs/remotes/o/o/*",
            "o",
            "n",
            Some("refs/heads/*:refs/remotes/n/o/*"),
        ),
        (
            "refs/heads/*:refs/remotes/a/b/*",
            "a/b",
            "n",
            Some("refs/heads/*:refs/remotes/n/*"),
        ),
        ("+refs/tags/*:refs/tags/*", "o", "n", None),
        ("^refs/heads/x", "o", "n", None),
        ("refs/heads/a:refs/remotes/o", "o", "n", None),
        ("refs/remotes/o/x:refs/x/refs/remotes/o/x", "o", "n", None),
        ("refs/heads/*:refs/remotes/oo/*", "o", "n", None),
    ];
    let alloc = rt.alloc();
    for (value, old, new, expected) in ROWS {
        let found = renamed(
            alloc,
            BStr::new(value.as_bytes()),
            BStr::new(old.as_bytes()),
            BStr::new(new.as_bytes()),
        )?;
        let text = match &found {
            None => None,
            Some(text) => Some(text.as_bytes()),
        };
        let expected = match expected {
            None => None,
            Some(text) => Some(text.as_bytes()),
        };
        assert_eq!(rt; text, expected, "{value} of {old}");
    }
    Ok(())
}
