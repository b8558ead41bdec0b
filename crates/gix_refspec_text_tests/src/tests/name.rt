use bstr::BStr;
use gix_refspec_text::name::{Error, PatternError, has_one_star, name_partial, pattern_partial};
use std::alloc::{AllocError, Global};
use std::test::Fail;

// What a text is as a pattern. One without a star, or with more of them, has the fault of the star.
fn checked_pattern(alloc: Global, text: &[u8]) -> Result<(), PatternError> {
    let text = BStr::new(text);
    if has_one_star(text) {
        pattern_partial(alloc, text)
    } else {
        Err(PatternError::Name(Error::Asterisk))
    }
}

// A text of `x` that is as long as asked for, its end included.
fn filled(alloc: Global, len: usize, end: &str) -> Result<String, AllocError> {
    let mut text = String::new(alloc);
    for _ in end.len()..len {
        text.push('x')?;
    }
    text.push_str(end)?;
    Ok(text)
}

#[test]
fn accepts_names(rt: HostRuntime) {
    const NAMES: &[&str] = &[
        "a",
        "@",
        "a]b",
        "a.lockx",
        "a./b",
        "a@b",
        "a{b",
        "{",
        "@/{",
        "a.b.c",
        "lock",
        "a.lo",
        "refs/heads/main",
        "HEAD",
        "é",
        "\u{80}",
        "-",
        "a.LOCK",
    ];
    for name in NAMES {
        assert_eq!(rt;
            name_partial(BStr::new(name.as_bytes())),
            Ok(()),
            "at {name}"
        );
    }
    // Bytes from 128 up need not be text.
    for byte in 128..=255u8 {
        assert_eq!(rt; name_partial(BStr::new(&[byte])), Ok(()), "at {byte}");
    }
}

#[test]
fn refuses_what_is_no_name(rt: HostRuntime) {
    const CASES: &[(&str, Error)] = &[
        ("", Error::Empty),
        ("a//b", Error::EmptyComponent),
        ("/a", Error::EmptyComponent),
        ("a/", Error::EmptyComponent),
        ("/", Error::EmptyComponent),
        (".a", Error::StartsWithDot),
        ("a/.b", Error::StartsWithDot),
        ("a.lock", Error::LockSuffix),
        ("a.lock/b", Error::LockSuffix),
        ("a/b.lock", Error::LockSuffix),
        ("a.", Error::EndsWithDot),
        ("a/b.", Error::EndsWithDot),
        ("a..b", Error::RepeatedDot),
        ("a@{b", Error::ReflogPortion),
        ("@{", Error::ReflogPortion),
        ("*", Error::Asterisk),
        ("a*b*", Error::Asterisk),
    ];
    for (text, fault) in CASES {
        assert_eq!(rt;
            name_partial(BStr::new(text.as_bytes())),
            Err(*fault),
            "at {text}"
        );
    }
}

#[test]
fn reports_one_of_two_faults(rt: HostRuntime) {
    let fault = name_partial(BStr::new(b"a.."));
    assert!(rt;
        matches!(fault, Err(Error::EndsWithDot | Error::RepeatedDot)),
        "{fault:?}"
    );
}

// A pattern is no name, whatever else is wrong with it.
#[test]
fn refuses_patterns_as_names(rt: HostRuntime) {
    const PATTERNS: &[&str] = &["a.*", "*.", ".*", "refs/heads/*.lock", "@*"];
    for pattern in PATTERNS {
        let found = name_partial(BStr::new(pattern.as_bytes()));
        assert!(rt; found.is_err(), "at {pattern}");
    }
}

#[test]
fn tells_faults_apart(rt: HostRuntime) {
    const FAULTS: &[Error] = &[
        Error::Empty,
        Error::EmptyComponent,
        Error::StartsWithDot,
        Error::LockSuffix,
        Error::EndsWithDot,
        Error::RepeatedDot,
        Error::ReflogPortion,
        Error::Asterisk,
        Error::InvalidByte { byte: b' ' },
        Error::InvalidByte { byte: b'~' },
    ];
    for (i, a) in FAULTS.iter().enumerate() {
        for (j, b) in FAULTS.iter().enumerate() {
            assert_eq!(rt; *a == *b, i == j, "at {a:?} and {b:?}");
        }
    }
}

// The bytes that git-check-ref-format(1) refuses wherever they are, other than the star: control
// characters, space, tilde, caret, colon, question mark, open bracket and backslash.
const REFUSED: [u8; 40] = [
    0, 1, 2, 3, 4, 5, 6, 7, 8, 9, 10, 11, 12, 13, 14, 15, 16, 17, 18, 19, 20, 21, 22, 23, 24, 25,
    26, 27, 28, 29, 30, 31, 127, b' ', b'~', b'^', b':', b'?', b'[', b'\\',
];

// What is wrong with a byte wherever it is.
fn fault_of(byte: u8) -> Result<(), Error> {
    if byte == b'*' {
        Err(Error::Asterisk)
    } else if REFUSED.contains(&byte) {
        Err(Error::InvalidByte { byte })
    } else {
        Ok(())
    }
}

#[test]
fn takes_each_byte_where_it_may_stand(rt: HostRuntime) {
    for byte in 0..=255u8 {
        let anywhere = fault_of(byte);
        let (first, last) = match byte {
            b'/' => (Err(Error::EmptyComponent), Err(Error::EmptyComponent)),
            b'.' => (Err(Error::StartsWithDot), Err(Error::EndsWithDot)),
            _ => (anywhere, anywhere),
        };
        // Before a letter, between letters, and after one.
        let found = (
            name_partial(BStr::new(&[byte, b'a'])),
            name_partial(BStr::new(&[b'a', byte, b'b'])),
            name_partial(BStr::new(&[b'a', byte])),
        );
        assert_eq!(rt; found, (first, anywhere, last), "at {byte}");
    }
}

#[test]
fn accepts_patterns(rt: HostRuntime) {
    const PATTERNS: &[&str] = &[
        "*",
        "a.*",
        "@*",
        "refs/heads/*",
        "refs/*/main",
        "*.lockx",
        "a/*",
        "*/a",
    ];
    for pattern in PATTERNS {
        assert_eq!(rt;
            checked_pattern(rt.alloc(), pattern.as_bytes()),
            Ok(()),
            "at {pattern}"
        );
    }
}

#[test]
fn refuses_what_is_no_pattern(rt: HostRuntime) {
    const CASES: &[(&str, Error)] = &[
        ("*.", Error::EndsWithDot),
        (".*", Error::StartsWithDot),
        ("refs/heads/*.lock", Error::LockSuffix),
        ("x*.lock", Error::LockSuffix),
        ("*//", Error::EmptyComponent),
        ("a*..b", Error::RepeatedDot),
        ("*@{", Error::ReflogPortion),
        ("* ", Error::InvalidByte { byte: b' ' }),
        ("a**", Error::Asterisk),
    ];
    for (text, fault) in CASES {
        assert_eq!(rt;
            checked_pattern(rt.alloc(), text.as_bytes()),
            Err(PatternError::Name(*fault)),
            "at {text}"
        );
    }
}

#[test]
fn checks_patterns_of_any_length(rt: HostRuntime) -> Result<(), Fail> {
    let alloc = rt.alloc();
    const ROWS: &[(usize, &str, Result<(), PatternError>)] = &[
        (256, "*", Ok(())),
        (257, "*", Ok(())),
        (257, "*.lock", Err(PatternError::Name(Error::LockSuffix))),
    ];
    for (len, end, wanted) in ROWS {
        let text = filled(alloc, *len, end)?;
        let found = checked_pattern(alloc, text.as_bytes());
        assert_eq!(rt; found, *wanted, "{len} bytes, the last {end}");
    }
    Ok(())
}

#[test]
fn prints_errors(rt: HostRuntime) -> Result<(), Fail> {
    const CASES: &[(Error, &str)] = &[
        (Error::Empty, "Empty"),
        (Error::EmptyComponent, "EmptyComponent"),
        (Error::StartsWithDot, "StartsWithDot"),
        (Error::LockSuffix, "LockSuffix"),
        (Error::EndsWithDot, "EndsWithDot"),
        (Error::RepeatedDot, "RepeatedDot"),
        (Error::ReflogPortion, "ReflogPortion"),
        (Error::Asterisk, "Asterisk"),
        (Error::InvalidByte { byte: b' ' }, "InvalidByte"),
    ];
    let alloc = rt.alloc();
    for (fault, text) in CASES {
        let found = format!(in alloc; "{fault} {}", PatternError::Name(*fault))?;
        let wanted = format!(in alloc; "{text} {text}")?;
        assert_eq!(rt; found.as_str(), wanted.as_str());
    }
    assert_eq!(rt;
        format!(in alloc; "{}", PatternError::Memory)?.as_str(),
        "out of memory"
    );
    Ok(())
}
