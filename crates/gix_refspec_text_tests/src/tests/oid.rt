//! Ids from outside, what they print, how they are ordered, and which texts are refused.

use super::check_equal;
use gix_refspec_text::oid::{Error, Kind, ObjectId, is_id};
use std::test::Fail;

// The ids that Git gives the empty blob, under either hash function.
const EMPTY_BLOB: &str = "e69de29bb2d1d6434b8b29ae775ad8c2e48c5391";

const EMPTY_BLOB_SHA256: &str = "473a0f4c3be8a93681a267e3b1e9a7dcda1185436fe141f7749120a303721813";

const ZEROS_40: &str = "0000000000000000000000000000000000000000";

const ZEROS_64: &str = "0000000000000000000000000000000000000000000000000000000000000000";

const ONES_40: &str = "1111111111111111111111111111111111111111";

const LOWER_40: &str = "aaaaaaaaaaaaaaaaaaaaaaaaaaaaaaaaaaaaaaaa";

const UPPER_40: &str = "AAAAAAAAAAAAAAAAAAAAAAAAAAAAAAAAAAAAAAAA";

#[test]
fn prints_in_lower_case(rt: HostRuntime) -> Result<(), Fail> {
    const CASES: &[(&str, &str)] = &[
        (LOWER_40, LOWER_40),
        (UPPER_40, LOWER_40),
        (EMPTY_BLOB, EMPTY_BLOB),
        ("E69DE29bb2d1d6434b8b29ae775ad8c2e48c5391", EMPTY_BLOB),
        (EMPTY_BLOB_SHA256, EMPTY_BLOB_SHA256),
        (ZEROS_64, ZEROS_64),
    ];
    for (digits, printed) in CASES {
        let id = ObjectId::from_hex(digits.as_bytes())?;
        let text = format!(in rt.alloc(); "{id}")?;
        assert_eq!(rt; text.as_str(), *printed, "at {digits}");
    }
    Ok(())
}

#[test]
fn refuses_other_lengths_before_digits(rt: HostRuntime) {
    const CASES: &[(&str, usize)] = &[
        ("", 0),
        ("ggggggggggggggggggggggggggggggggggggggg", 39),
        ("aaaaaaaaaaaaaaaaaaaaaaaaaaaaaaaaaaaaaaaaa", 41),
        (
            "473a0f4c3be8a93681a267e3b1e9a7dcda1185436fe141f7749120a30372181",
            63,
        ),
        (
            "473a0f4c3be8a93681a267e3b1e9a7dcda1185436fe141f7749120a3037218130",
            65,
        ),
    ];
    for (text, len) in CASES {
        let read = ObjectId::from_hex(text.as_bytes());
        assert_eq!(rt; read, Err(Error::Length { len: *len }), "at {text}");
    }
}

#[test]
fn refuses_other_bytes(rt: HostRuntime) {
    const CASES: &[&str] = &[
        "gggggggggggggggggggggggggggggggggggggggg",
        "aaaaaaaaaaaaaaaaaaaaaaaaaaaaaaaaaaaaaaag",
        "`aaaaaaaaaaaaaaaaaaaaaaaaaaaaaaaaaaaaaaa",
        "473a0f4c3be8a93681a267e3b1e9a7dcda1185436fe141f7749120a30372181:",
    ];
    for text in CASES {
        let read = ObjectId::from_hex(text.as_bytes());
        assert_eq!(rt; read, Err(Error::Digit), "at {text}");
    }
}

#[test]
fn recognises_ids(rt: HostRuntime) {
    const CASES: &[(&str, bool)] = &[
        (EMPTY_BLOB, true),
        (EMPTY_BLOB_SHA256, true),
        ("E69DE29bb2d1d6434b8b29ae775ad8c2e48c5391", true),
        (ZEROS_64, true),
        ("", false),
        ("e69de29bb2d1d6434b8b29ae775ad8c2e48c539", false),
        ("e69de29bb2d1d6434b8b29ae775ad8c2e48c53911", false),
        ("e69de29bb2d1d6434b8b29ae775ad8c2e48c539g", false),
        (
            "473a0f4c3be8a93681a267e3b1e9a7dcda1185436fe141f7749120a30372181:",
            false,
        ),
    ];
    for (text, is) in CASES {
        assert_eq!(rt; is_id(text.as_bytes()), *is, "at {text}");
    }
}

#[test]
fn tells_kinds_and_faults_apart(rt: HostRuntime) {
    assert!(rt; Kind::Sha1 == Kind::Sha1);
    assert!(rt; Kind::Sha1 != Kind::Sha256);
    const FAULTS: &[Error] = &[
        Error::Length { len: 39 },
        Error::Length { len: 41 },
        Error::Digit,
    ];
    for (i, a) in FAULTS.iter().enumerate() {
        for (j, b) in FAULTS.iter().enumerate() {
            assert_eq!(rt; *a == *b, i == j, "at {a:?} and {b:?}");
        }
    }
}

#[test]
fn reads_the_bytes_from_the_front(rt: HostRuntime) -> Result<(), Fail> {
    const CASES: &[(&str, [u8; 2], u8, Kind, usize)] = &[
        (EMPTY_BLOB, [0xe6, 0x9d], 0x91, Kind::Sha1, 20),
        (EMPTY_BLOB_SHA256, [0x47, 0x3a], 0x13, Kind::Sha256, 32),
    ];
    for (digits, front, last, kind, len) in CASES {
        let id = ObjectId::from_hex(digits.as_bytes())?;
        let bytes = id.as_slice();
        let found = (
            bytes.len(),
            bytes.starts_with(front),
            bytes.last().copied(),
            id.kind(),
            id.kind().len_in_hex(),
        );
        let wanted = (*len, true, Some(*last), *kind, digits.len());
        assert_eq!(rt; found, wanted, "at {digits}");
    }
    Ok(())
}

#[test]
fn null_is_all_zeros(rt: HostRuntime) -> Result<(), Fail> {
    const KINDS: &[(Kind, &str)] = &[(Kind::Sha1, ZEROS_40), (Kind::Sha256, ZEROS_64)];
    for (kind, printed) in KINDS {
        let null = ObjectId::null(*kind);
        let text = format!(in rt.alloc(); "{null}")?;
        let read = ObjectId::from_hex(printed.as_bytes());
        assert_eq!(rt; (text.as_str(), read), (*printed, Ok(null)), "at {kind:?}");
    }
    assert_eq!(rt; Kind::shortest(), Kind::Sha1);
    Ok(())
}

#[test]
fn compares_by_the_bytes_alone(rt: HostRuntime) -> Result<(), Fail> {
    const RISING: &[&str] = &[
        ZEROS_40,
        ZEROS_64,
        ONES_40,
        EMPTY_BLOB_SHA256,
        LOWER_40,
        EMPTY_BLOB,
    ];
    for (i, low) in RISING.iter().enumerate() {
        for (j, high) in RISING.iter().enumerate() {
            let left = ObjectId::from_hex(low.as_bytes())?;
            let right = ObjectId::from_hex(high.as_bytes())?;
            assert_eq!(rt; left.cmp(&right), i.cmp(&j), "{low} and {high}");
            check_equal(&rt, &left, &right, i == j);
        }
    }
    let upper = ObjectId::from_hex(UPPER_40.as_bytes())?;
    let lower = ObjectId::from_hex(LOWER_40.as_bytes())?;
    check_equal(&rt, &upper, &lower, true);
    Ok(())
}

#[test]
fn shows_names(rt: HostRuntime) -> Result<(), Fail> {
    const CASES: &[(Error, &str)] = &[
        (Error::Length { len: 39 }, "Length"),
        (Error::Digit, "Digit"),
    ];
    for (error, name) in CASES {
        let text = format!(in rt.alloc(); "{error}")?;
        assert_eq!(rt; text.as_str(), *name, "at {error:?}");
    }
    let null = ObjectId::null(Kind::Sha1);
    let text = format!(in rt.alloc(); "{null:?}")?;
    let shown = "Sha1(0000000000000000000000000000000000000000)";
    assert_eq!(rt; text.as_str(), shown);
    Ok(())
}
