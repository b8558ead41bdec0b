//! Arguments of `git refspec`, what they look like, settings and remotes.

use refspec_io::call::Form;
use refspec_io::settings::{Setting, settings_of};
use refspec_request::arguments::{Purpose, Subcommand, purpose_of};
use refspec_request::ask::{GitCall, name_file};
use refspec_request::booleans::{
    Boolean, boolean_of, is_boolean_of_fetches, is_boolean_of_remotes, is_true,
};
use refspec_request::choice::{Choice, Looks, Repository, choice_of, looks_of};
use refspec_request::needed::needs_value;
use refspec_request::output::Output;
use refspec_request::refusal::{Refusal, write_about};
use refspec_request::remotes::{
    OldRemote, default_remote, fetch_values, has_location, is_configured, is_group, is_ignored,
    is_in_file, is_rewritten,
};
use refspec_request::settings::{last_value, name_and_variable, settings_named};
use std::alloc::{AllocError, Global};
use std::test::Fail;

const CONFIG: &[u8] =
    b"file:.git/config\0remote.origin.url\nx\0file:.git/config\0remote.origin.fetch\n+a:b\0file:a\0remote.a.b.fetch\0file:a\0remote.pushdefault\nmine\0file:a\0url.https://host/.insteadof\ngh:\0file:a\0branch.main.remote\na.b\0";

// What `git config --list -z --show-origin` of Git 2.39.5 prints for a file with several values of a key, keys without a
// value, and the name of a remote that contains a dot.
const PRINTED: &[u8] =
    b"file:.git/config\0core.bare\nfalse\0file:.git/config\0remote.origin.url\nhttps://host/x.git\0file:.git/config\0remote.origin.fetch\n+refs/heads/*:refs/remotes/origin/*\0file:.git/config\0remote.origin.fetch\n+refs/tags/v1:refs/tags/v1\0file:.git/config\0remote.origin.tagopt\n--no-tags\0file:.git/config\0remote.origin.tagopt\0file:.git/config\0remote.a.b.fetch\0file:.git/config\0remote.a.b.prune\nyes\0file:.git/config\0branch.main.remote\na.b\0file:.git/config\0branch.main.remote\norigin\0file:.git/config\0branch.main.merge\nrefs/heads/main\0file:.git/config\0remote.pushdefault\nmine\0";

// A single remote, whose name contains a dot.
const ONE_REMOTE: &[u8] = b"file:a\0remote.a.b.fetch\0";

// As `git config --get` prints it.
#[test]
fn takes_the_last_value(rt: HostRuntime) {
    const CASES: &[(&str, &str, &str, Option<&str>)] = &[
        ("branch", "main", "remote", Some("origin")),
        ("branch", "main", "merge", Some("refs/heads/main")),
        ("remote", "a.b", "prune", Some("yes")),
        // Its last setting has no value, or its only one.
        ("remote", "origin", "tagopt", None),
        ("remote", "a.b", "fetch", None),
        ("remote", "b", "prune", None),
        ("remote", "", "pushdefault", None),
    ];
    let settings = settings_of(rt.alloc(), PRINTED).unwrap_or(Vec::new(rt.alloc()));
    for (section, name, variable, wanted) in CASES {
        let value = last_value(
            settings.as_slice(),
            section.as_bytes(),
            name.as_bytes(),
            variable.as_bytes(),
        );
        assert_eq!(rt;
            value,
            wanted.map(|text| text.as_bytes()),
            "at {section}.{name}.{variable}"
        );
    }
}

// As `git config --get-all` prints them.
#[test]
fn keeps_the_values_of_a_key_in_order(rt: HostRuntime) -> Result<(), Fail> {
    let settings = settings_of(rt.alloc(), PRINTED).unwrap_or(Vec::new(rt.alloc()));
    let found = settings_named(
        rt.alloc(),
        settings.as_slice(),
        b"remote",
        b"origin",
        b"fetch",
    )?;
    let values: Vec<Option<&[u8]>> = found
        .iter()
        .map(|setting| setting.value)
        .collect(rt.alloc())?;
    assert_eq!(rt;
        values.as_slice(),
        [
            Some(b"+refs/heads/*:refs/remotes/origin/*".as_slice()),
            Some(b"+refs/tags/v1:refs/tags/v1".as_slice()),
        ]
        .as_slice()
    );
    Ok(())
}

#[test]
fn parts_keys_at_their_last_dot(rt: HostRuntime) {
    let parts = (b"a.b".as_slice(), b"fetch".as_slice());
    assert_eq!(rt;
        name_and_variable(b"remote", b"remote.a.b.fetch"),
        Some(parts)
    );
    assert_eq!(rt; name_and_variable(b"remote", b"remote.pushdefault"), None);
    assert_eq!(rt; name_and_variable(b"remote", b"remotes.a.b"), None);
}

#[test]
fn finds_remotes(rt: HostRuntime) -> Result<(), Fail> {
    let settings = settings_of(rt.alloc(), CONFIG).unwrap_or(Vec::new(rt.alloc()));
    let settings = settings.as_slice();
    assert!(rt; has_location(settings, b"origin"));
    assert!(rt; !has_location(settings, b"a.b"));
    assert!(rt; !settings.iter().any(is_ignored));
    assert!(rt; is_configured(settings, b"a.b"));
    assert!(rt; !is_configured(settings, b"pushdefault"));
    assert!(rt; is_rewritten(settings, b"gh:me/repo"));
    assert!(rt; !is_rewritten(settings, b"host:me/repo"));
    // `git ls-remote nosuch` of Git 2.39.5 looks for /base/nosuch.
    let empty = Setting {
        origin: b"file:a",
        key: b"url./base/.insteadof",
        value: Some(b""),
    };
    let missing = Setting {
        value: None,
        ..empty
    };
    assert!(rt; is_rewritten(&[missing, empty], b"nosuch"));
    assert!(rt; !is_rewritten(&[missing], b"nosuch"));
    assert_eq!(rt;
        last_value(settings, b"remote", b"origin", b"url"),
        Some(b"x".as_slice())
    );
    assert_eq!(rt;
        default_remote(settings, b"main", &[]),
        Some(b"a.b".as_slice())
    );
    assert_eq!(rt;
        default_remote(settings, b"", &[]),
        Some(b"origin".as_slice())
    );
    let one = settings_of(rt.alloc(), ONE_REMOTE).unwrap_or(Vec::new(rt.alloc()));
    // It has no location.
    assert_eq!(rt; default_remote(one.as_slice(), b"", &[]), None);
    let file = OldRemote {
        name: Vec::from_slice(rt.alloc(), b"a.b")?,
        folder: String::new(rt.alloc()),
    };
    assert_eq!(rt;
        default_remote(one.as_slice(), b"", &[file]),
        Some(b"a.b".as_slice())
    );
    assert_eq!(rt; default_remote(&[], b"", &[]), None);
    Ok(())
}

// As `git config --get-regexp` prints them, by remote.
#[test]
fn keeps_the_fetch_values_of_each_remote(rt: HostRuntime) -> Result<(), Fail> {
    let settings = settings_of(rt.alloc(), PRINTED).unwrap_or(Vec::new(rt.alloc()));
    let remotes = fetch_values(rt.alloc(), settings.as_slice())?;
    let names: Vec<&[u8]> = remotes.keys().map(|name| *name).collect(rt.alloc())?;
    assert_eq!(rt;
        names.as_slice(),
        [b"a.b".as_slice(), b"origin".as_slice()].as_slice()
    );
    let mut values: Vec<Option<&[u8]>> = Vec::new(rt.alloc());
    for found in remotes.values() {
        for setting in found {
            values.push(setting.value)?;
        }
    }
    assert_eq!(rt;
        values.as_slice(),
        [
            None,
            Some(b"+refs/heads/*:refs/remotes/origin/*".as_slice()),
            Some(b"+refs/tags/v1:refs/tags/v1".as_slice()),
        ]
        .as_slice()
    );
    Ok(())
}

#[test]
fn distinguishes_specs_from_urls(rt: HostRuntime) {
    const CASES: &[(&str, Looks)] = &[
        ("", Looks::Spec),
        ("+main", Looks::Spec),
        ("^refs/heads/x", Looks::Spec),
        ("refs/heads/x", Looks::Spec),
        ("*:refs/x/*", Looks::Spec),
        ("main:refs/x", Looks::Spec),
        ("main:", Looks::Spec),
        ("https://host/path", Looks::Url),
        ("me@host:path", Looks::Url),
        ("ext::command", Looks::Url),
        ("../remote", Looks::Url),
        ("./remote", Looks::Url),
        ("..", Looks::Url),
        ("/srv/git/x.git", Looks::Url),
        ("http://host/*", Looks::Spec),
        ("host:me@path", Looks::Either),
        ("host:/path", Looks::Either),
        (".git", Looks::Plain),
        (".", Looks::Url),
        ("host:path", Looks::Either),
        ("origin", Looks::Plain),
        ("@", Looks::Plain),
    ];
    for (argument, looks) in CASES {
        assert_eq!(rt; looks_of(argument.as_bytes()), *looks, "at {argument}");
    }
}

#[test]
fn takes_options_and_words_in_any_order(rt: HostRuntime) -> Result<(), Fail> {
    let arguments: [&[u8]; 6] = [b"--json", b"plan", b"origin", b"-z", b"--remote=x", b"main"];
    let Ok(Purpose::Request(request)) = purpose_of(rt.alloc(), &arguments) else {
        return Err(Fail::from(AllocError));
    };
    assert_eq!(rt; request.command, Subcommand::Plan);
    assert_eq!(rt; request.form, Form::Json);
    assert_eq!(rt; request.remote, Some(b"x".as_slice()));
    assert_eq!(rt;
        request.arguments.as_slice(),
        [b"origin".as_slice(), b"main".as_slice()].as_slice()
    );
    assert_eq!(rt; request.dashes, None);
    let arguments: [&[u8]; 5] = [b"check", b"-vz", b"a", b"--", b"-v"];
    let Ok(Purpose::Request(request)) = purpose_of(rt.alloc(), &arguments) else {
        return Err(Fail::from(AllocError));
    };
    assert!(rt; request.verbose);
    assert_eq!(rt; request.form, Form::Zeros);
    assert_eq!(rt;
        request.arguments.as_slice(),
        [b"a".as_slice(), b"-v".as_slice()].as_slice()
    );
    assert_eq!(rt; request.dashes, Some(1));
    Ok(())
}

#[test]
fn refuses_other_options(rt: HostRuntime) {
    let arguments: [&[u8]; 2] = [b"plan", b"--specs=x"];
    assert!(rt;
        matches!(
            purpose_of(rt.alloc(), &arguments),
            Err(Refusal::NoSuchOption(b"--specs=x"))
        )
    );
    let arguments: [&[u8]; 2] = [b"plan", b"-zq"];
    assert!(rt;
        matches!(
            purpose_of(rt.alloc(), &arguments),
            Err(Refusal::NoSuchOption(b"-zq"))
        )
    );
    let arguments: [&[u8]; 2] = [b"plan", b"--push"];
    assert!(rt;
        matches!(
            purpose_of(rt.alloc(), &arguments),
            Err(Refusal::OptionElsewhere(_, "check"))
        )
    );
    // The first of several.
    let arguments: [&[u8]; 3] = [b"track", b"--patterns", b"-v"];
    assert!(rt;
        matches!(
            purpose_of(rt.alloc(), &arguments),
            Err(Refusal::OptionElsewhere("--patterns", "prefixes"))
        )
    );
    let arguments: [&[u8]; 2] = [b"--head", b"stale"];
    assert!(rt;
        matches!(
            purpose_of(rt.alloc(), &arguments),
            Err(Refusal::OptionElsewhere("--head", "prefixes"))
        )
    );
    let arguments: [&[u8]; 1] = [b"--json"];
    assert!(rt; matches!(purpose_of(rt.alloc(), &arguments), Err(Refusal::NoCommand)));
    let arguments: [&[u8]; 2] = [b"track", b"--remote"];
    assert!(rt;
        matches!(
            purpose_of(rt.alloc(), &arguments),
            Err(Refusal::NoRemoteName)
        )
    );
    let arguments: [&[u8]; 3] = [b"nosuch", b"-h", b"--help"];
    assert!(rt;
        matches!(
            purpose_of(rt.alloc(), &arguments),
            Err(Refusal::NoSuchCommand(b"nosuch"))
        )
    );
    let arguments: [&[u8]; 3] = [b"track", b"--help", b"-h"];
    assert!(rt; matches!(purpose_of(rt.alloc(), &arguments), Ok(Purpose::Usage)));
}

#[test]
fn reads_booleans_as_git_does(rt: HostRuntime) {
    assert!(rt; is_true(None));
    assert_eq!(rt; boolean_of(None), Boolean::True);
    let values: [(&[u8], Boolean); 16] = [
        (b"true", Boolean::True),
        (b"Yes", Boolean::True),
        (b"on", Boolean::True),
        (b"-1", Boolean::True),
        (b" +10", Boolean::True),
        (b"1k", Boolean::True),
        (b"0x1F", Boolean::True),
        (b"", Boolean::False),
        (b"false", Boolean::False),
        (b"NO", Boolean::False),
        (b"0k", Boolean::False),
        (b"maybe", Boolean::Bad),
        (b"08", Boolean::Bad),
        (b"0x", Boolean::Bad),
        (b"2g", Boolean::Bad),
        (b"2147483648", Boolean::Bad),
    ];
    for (value, wanted) in values {
        assert_eq!(rt; boolean_of(Some(value)), wanted);
        assert_eq!(rt; is_true(Some(value)), wanted == Boolean::True);
    }
}

#[test]
fn finds_groups(rt: HostRuntime) {
    let one = Setting {
        origin: b"file:a",
        key: b"remotes.g",
        value: Some(b" origin\tfork\n"),
    };
    let other = Setting {
        origin: b"file:a",
        key: b"remotes.h",
        value: Some(b"origin"),
    };
    assert!(rt; is_group(&[one, other], b"g"));
    assert!(rt; !is_group(&[one, other], b"h"));
    assert!(rt; is_group(&[other, other], b"h"));
    assert!(rt; !is_group(&[one, other], b"origin"));
}

// The booleans that git-config(1) has below `remote.<name>` and `fetch`, as Git prints their keys.
#[test]
fn knows_the_booleans_of_remotes_and_fetches(rt: HostRuntime) {
    const CASES: &[(&str, bool, bool)] = &[
        ("remote.origin.prune", true, false),
        ("remote.a.b.prunetags", true, false),
        ("remote..mirror", true, false),
        ("remote.o.skipdefaultupdate", true, false),
        ("remote.o.skipfetchall", true, false),
        ("remote.o.fetch", false, false),
        ("remote.prune", false, false),
        ("branch.o.prune", false, false),
        ("fetch.prune", false, true),
        ("fetch.prunetags", false, true),
        ("fetch.writecommitgraph", false, false),
    ];
    for (key, of_remotes, of_fetches) in CASES {
        let setting = Setting {
            origin: b"file:a",
            key: key.as_bytes(),
            value: None,
        };
        assert_eq!(rt;
            (
                is_boolean_of_remotes(&setting),
                is_boolean_of_fetches(&setting)
            ),
            (*of_remotes, *of_fetches),
            "at {key}"
        );
    }
}

// As `git ls-remote` of Git 2.39.5 stops at such a key without `=`, or doesn't.
#[test]
fn knows_the_settings_that_need_a_value(rt: HostRuntime) {
    const CASES: &[(&str, bool)] = &[
        ("branch.m.remote", true),
        ("branch.m.pushremote", true),
        ("branch.a.b.merge", true),
        ("branch.m.rebase", false),
        ("branch.m.mergeoptions", false),
        ("branch.remote", false),
        ("url.m.insteadof", true),
        ("url..insteadof", true),
        ("url.https://host/.pushinsteadof", true),
        ("url.m.other", false),
        ("url.insteadof", false),
        ("remote.pushdefault", true),
        ("remote.m.pushdefault", false),
        ("remote.m.url", true),
        ("remote.m.pushurl", true),
        ("remote.m.receivepack", true),
        ("remote.m.uploadpack", true),
        ("remote.m.proxy", true),
        ("remote.m.proxyauthmethod", true),
        ("remote.m.vcs", true),
        ("remote.m.tagopt", true),
        ("remote..url", true),
        ("remote.url", false),
        ("remote.m.prune", false),
        ("remote.m.promisor", false),
        ("remote.m.serveroption", false),
    ];
    for (key, needs) in CASES {
        let setting = Setting {
            origin: b"file:a",
            key: key.as_bytes(),
            value: None,
        };
        assert_eq!(rt; needs_value(&setting), *needs, "at {key}");
    }
}

// In the form that `bin/git-refspec` reads: the file, the arguments of `git`, an empty line.
#[test]
fn requests_git_commands(rt: HostRuntime) -> Result<(), Fail> {
    let names = [Vec::from_slice(rt.alloc(), b"refs/remotes")?];
    let calls = [
        GitCall::Head,
        GitCall::Lines(b"origin"),
        GitCall::Refs(&names),
        GitCall::FullName(2, b"@{u}"),
    ];
    let mut out = Vec::new(rt.alloc());
    for call in &calls {
        call.write(rt.alloc(), &mut out)?;
    }
    assert_eq!(rt;
        out.as_slice(),
        b"head\nsymbolic-ref\n-q\nHEAD\n\nlines\nls-remote\n--\norigin\n\nrefs\nfor-each-ref\n--format=%(refname) %(symref)\nrefs/remotes\n\nname.2\nrev-parse\n--symbolic-full-name\n@{u}\n\n".as_slice()
    );
    assert_eq!(rt; name_file(rt.alloc(), 10)?.as_str(), "name.10");
    Ok(())
}

#[test]
fn raises_the_status_to_that_of_a_refusal(rt: HostRuntime) -> Result<(), Fail> {
    let mut output = Output::new(rt.alloc());
    assert_eq!(rt; output.status, 0);
    output.refuse(&Refusal::NoValuesAtAll)?;
    assert_eq!(rt; output.status, 1);
    output.refuse(&Refusal::NotARef(b"a b"))?;
    assert_eq!(rt; output.status, 2);
    output.refuse(&Refusal::OtherRefused)?;
    assert_eq!(rt; output.status, 2);
    assert!(rt;
        output.messages.as_slice().starts_with(
            b"git refspec: no remote has fetch values\ngit refspec: \"a b\" is not a ref\ngit refspec: a value"
        )
    );
    assert!(rt; output.results.is_empty());
    assert_eq!(rt; Refusal::Memory.status(), 3);
    let mut about = Vec::new(rt.alloc());
    write_about(&mut about, "the remote ", b"o", " is gone")?;
    assert_eq!(rt; about.as_slice(), b"the remote o is gone".as_slice());
    Ok(())
}

// As git-fetch(1) says under "Named file in $GIT_DIR/remotes".
#[test]
fn knows_remotes_by_their_files(rt: HostRuntime) -> Result<(), Fail> {
    let settings = settings_of(rt.alloc(), PRINTED).unwrap_or(Vec::new(rt.alloc()));
    let files = [
        OldRemote {
            name: Vec::from_slice(rt.alloc(), b"old")?,
            folder: String::from_str(rt.alloc(), ".git/remotes")?,
        },
        OldRemote {
            name: Vec::from_slice(rt.alloc(), b"old")?,
            folder: String::from_str(rt.alloc(), ".git/branches")?,
        },
    ];
    let repository = Repository {
        settings: settings.as_slice(),
        branch: b"main",
        old: &files,
        is_path: false,
    };
    assert!(rt; is_in_file(&files, b"old"));
    assert!(rt; repository.has_remote(b"old"));
    assert!(rt; repository.has_remote(b"origin"));
    assert!(rt; !repository.has_remote(b"new"));
    assert!(rt; repository.may_fetch(b"old"));
    assert!(rt; repository.may_fetch(b"../new"));
    assert!(rt; !repository.may_fetch(b"new"));
    assert!(rt;
        matches!(
            repository.old_remote(b"old"),
            Some(Refusal::OldForm {
                name: b"old",
                folder: ".git/remotes",
            })
        )
    );
    assert!(rt; repository.old_remote(b"origin").is_none());
    assert!(rt; repository.old_remote(b"new").is_none());
    Ok(())
}

// The remote and the specs of a call with these arguments.
fn chosen<'a>(
    alloc: Global,
    arguments: &[&'a [u8]],
    repository: &Repository<'a, 'a>,
) -> Result<Choice<'a>, Fail> {
    let Ok(Purpose::Request(request)) = purpose_of(alloc, arguments) else {
        return Err(Fail::from(AllocError));
    };
    match choice_of(alloc, &request, repository) {
        Ok(choice) => Ok(choice),
        Err(_) => Err(Fail::from(AllocError)),
    }
}

// Why a call with these arguments has no remote.
fn refused<'a>(
    alloc: Global,
    arguments: &[&'a [u8]],
    repository: &Repository<'a, 'a>,
) -> Result<Refusal<'a>, Fail> {
    let Ok(Purpose::Request(request)) = purpose_of(alloc, arguments) else {
        return Err(Fail::from(AllocError));
    };
    match choice_of(alloc, &request, repository) {
        Ok(_) => Err(Fail::from(AllocError)),
        Err(refusal) => Ok(refusal),
    }
}

// As `git fetch` takes its arguments, and as git-refspec(1) says of `--`.
#[test]
fn chooses_remotes_and_specs(rt: HostRuntime) -> Result<(), Fail> {
    const CASES: &[(&[&[u8]], &[u8], &[&[u8]])] = &[
        (&[b"plan"], b"origin", &[]),
        (&[b"plan", b"a.b"], b"a.b", &[]),
        (&[b"plan", b"main", b"x"], b"main", &[b"x"]),
        (&[b"plan", b"+a:b", b"c"], b"origin", &[b"+a:b", b"c"]),
        (&[b"plan", b"--", b"a:b"], b"origin", &[b"a:b"]),
        (&[b"plan", b"h:p", b"--", b"a"], b"h:p", &[b"a"]),
        (&[b"plan", b"--remote=x", b"a:b"], b"x", &[b"a:b"]),
    ];
    let settings = settings_of(rt.alloc(), PRINTED).unwrap_or(Vec::new(rt.alloc()));
    let repository = Repository {
        settings: settings.as_slice(),
        branch: b"main",
        old: &[],
        is_path: false,
    };
    for (arguments, remote, specs) in CASES {
        let choice = chosen(rt.alloc(), arguments, &repository)?;
        assert_eq!(rt; (choice.remote, choice.specs.as_slice()), (*remote, *specs));
    }
    Ok(())
}

#[test]
fn refuses_calls_without_a_remote(rt: HostRuntime) -> Result<(), Fail> {
    const CASES: &[(&[&[u8]], &str)] = &[
        (
            &[b"plan", b"a:b"],
            "git refspec: a:b may be a URL or a spec; put the remote before a spec, or `--`, and a URL after --remote\n",
        ),
        (
            &[b"plan", b"g"],
            "git refspec: g is a group of remotes; name one of them: origin a.b\n",
        ),
        (
            &[b"plan", b"--remote=a\nb"],
            "git refspec: \"a\\nb\" has a newline, so it names no remote\n",
        ),
        (
            &[b"plan"],
            "git refspec: no remote is given: the current branch has none, and neither a single one nor origin has a URL\n",
        ),
    ];
    let group = Setting {
        origin: b"file:a",
        key: b"remotes.g",
        value: Some(b" origin\ta.b\n"),
    };
    let settings = [group];
    let repository = Repository {
        settings: &settings,
        branch: b"",
        old: &[],
        is_path: false,
    };
    for (arguments, wanted) in CASES {
        let refusal = refused(rt.alloc(), arguments, &repository)?;
        let mut message = Vec::new(rt.alloc());
        refusal.write(&mut message)?;
        assert_eq!(rt; message.as_slice(), wanted.as_bytes());
    }
    Ok(())
}

// As git-refspec(1) has them under DIAGNOSTICS.
#[test]
fn writes_the_messages_on_branches_and_refs(rt: HostRuntime) -> Result<(), Fail> {
    let refusals = [
        (
            Refusal::NoMergedRef,
            "git refspec: no branch has a merge value, so none has an upstream\n",
        ),
        (
            Refusal::NoBranchAtHead(b"@"),
            "git refspec: @ does not point to a branch\n",
        ),
        (
            Refusal::RemoteOfBranches,
            "git refspec: upstream takes branches and no --remote, as each branch has a remote of its own\n",
        ),
        (
            Refusal::ArgumentsOfWhy,
            "git refspec: why takes a ref of the remote, and perhaps the remote: git refspec why REF [REMOTE]\n",
        ),
    ];
    for (refusal, wanted) in &refusals {
        let mut message = Vec::new(rt.alloc());
        refusal.write(&mut message)?;
        assert_eq!(rt; message.as_slice(), wanted.as_bytes());
    }
    Ok(())
}

// As git-refspec(1) has them under DIAGNOSTICS.
#[test]
fn writes_the_messages_of_refusals(rt: HostRuntime) -> Result<(), Fail> {
    let refusals = [
        (
            Refusal::OptionElsewhere("--push", "check"),
            "git refspec: --push: only check takes this option\n",
        ),
        (
            Refusal::OldForm {
                name: b"o p",
                folder: ".git/remotes",
            },
            "git refspec: the remote \"o p\" is configured in .git/remotes, which is not read here; `git remote rename \"o p\" \"o p\"` moves it into the configuration\n",
        ),
        (
            Refusal::BadBoolean {
                origin: b"file:a",
                key: b"fetch.prune",
                value: b"maybe",
            },
            "git refspec: file:a: fetch.prune: maybe is not a boolean, so Git stops; write true or false\n",
        ),
        (
            Refusal::NoValue {
                origin: b"file:a",
                key: b"remote.o.url",
            },
            "git refspec: file:a: remote.o.url: the value is missing, so Git stops; write `=` and a value behind the key, or remove its line\n",
        ),
        (
            Refusal::NoValue {
                origin: b"command line:",
                key: b"remote.o.url",
            },
            "git refspec: command line: remote.o.url: the value is missing, so Git stops; write `=` and a value behind the key, or remove its line\n",
        ),
        (
            Refusal::NoValuesOf(b"up"),
            "git refspec: up has no fetch values\n",
        ),
        (
            Refusal::NoSuchOption(b"--x"),
            "git refspec: there is no option --x\nusage: git refspec check [-v] [--push] [--strict] [--no-warnings] [<remote> | <spec>]...\n   or: git refspec plan [--long] [--all] [--prune] [--refmap <spec>]... [<remote>] [<spec>...]\n   or: git refspec stale [<remote>] [<spec>...]\n   or: git refspec track <ref>...\n   or: git refspec upstream [<branch>...]\n   or: git refspec why <ref> [<remote>]\n   or: git refspec prefixes [--patterns] [--head] [<remote>] [<spec>...]\n",
        ),
    ];
    for (refusal, wanted) in &refusals {
        let mut message = Vec::new(rt.alloc());
        refusal.write(&mut message)?;
        assert_eq!(rt; message.as_slice(), wanted.as_bytes());
    }
    let missing = Refusal::NoValue {
        origin: b"file:a",
        key: b"remote.o.url",
    };
    assert_eq!(rt; missing.status(), 1);
    Ok(())
}
