//! Plain names, of which a law speaks, and texts close to them.

use bstr::BStr;
use gix_refspec::{laws, name};

#[test]
fn accepts_plain_names(rt: HostRuntime) {
    laws::plain_names();
    const ROWS: &[(&str, bool)] = &[
        ("refs/heads/main", true),
        ("refs/remotes/origin/HEAD", true),
        ("k/lock", true),
        ("@", true),
        ("!)+-09;>@Z]_z|}", true),
        ("é", true),
        ("", false),
        ("/a", false),
        ("a/", false),
        ("a//a", false),
        (".b/a", false),
        ("a/b.lock", false),
        ("a/b.", false),
        ("..a", false),
        ("@{1}", false),
        ("*a", false),
        ("a b", false),
        ("a\u{1f}", false),
        ("a\u{7f}", false),
    ];
    for (text, is_name) in ROWS {
        let checked = name::name_partial(BStr::new(text.as_bytes()));
        assert_eq!(rt; checked.is_ok(), *is_name, "at {text}");
    }
}
