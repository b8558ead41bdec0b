//! The specs of `git remote add`, and of reviews.

use bstr::BStr;
use gix_refspec_remote::{Reviews, Storage, branch_spec, reviews_spec};
use std::test::Fail;

#[test]
fn makes_the_specs_of_remotes(rt: HostRuntime) -> Result<(), Fail> {
    // What `git remote add` of Git 2.39.5 writes: of the two last rows Git refuses the first name, and writes the second,
    // which it then refuses to use.
    const ROWS: &[(&str, &str, Option<&str>)] = &[
        ("o", "*", Some("+refs/heads/*:refs/remotes/o/*")),
        ("o", "main", Some("+refs/heads/main:refs/remotes/o/main")),
        ("a/b", "x*", Some("+refs/heads/x*:refs/remotes/a/b/x*")),
        ("@", "*", Some("+refs/heads/*:refs/remotes/@/*")),
        ("", "heads/main", Some("+refs/heads/main:refs/heads/main")),
        ("", "*", Some("+refs/*:refs/*")),
        ("a:b", "main", None),
        ("o", "a..b", None),
    ];
    let alloc = rt.alloc();
    for (remote, branch, expected) in ROWS {
        let storage = if remote.is_empty() {
            Storage::Mirror
        } else {
            Storage::Tracking(BStr::new(remote.as_bytes()))
        };
        match branch_spec(alloc, storage, BStr::new(branch.as_bytes())) {
            Ok(spec) => {
                let text = spec.to_ref().to_bstring(alloc)?;
                assert_eq!(rt;
                    Some(text.as_bytes()),
                    expected.map(|text| text.as_bytes()),
                    "{remote} {branch}"
                );
            }
            Err(_) => assert_eq!(rt; *expected, None, "{remote} {branch}"),
        }
    }
    let pulls = reviews_spec(alloc, Reviews::PullRequests, BStr::new(b"o"))?;
    let text = pulls.to_ref().to_bstring(alloc)?;
    assert_eq!(rt;
        text.as_bytes(),
        b"+refs/pull/*/head:refs/remotes/o/pr/*".as_slice()
    );
    Ok(())
}
