//! The texts of instructions that were put together by hand.

use bstr::BStr;
use gix_refspec_text::Instruction;
use gix_refspec_text::instruction::{Fetch, Push};
use std::alloc::{AllocError, Global};
use std::test::Fail;

// What an instruction prints.
fn printed(alloc: Global, instruction: &Instruction<'_>) -> Result<String, AllocError> {
    let text = instruction.to_bstring(alloc)?;
    format!(in alloc; "{text}")
}

#[test]
fn prints_pushes(rt: HostRuntime) -> Result<(), Fail> {
    let src = BStr::new(b"main");
    let dst = BStr::new(b"topic");
    let cases = [
        (
            Push::Delete {
                ref_or_pattern: dst,
            },
            ":topic",
        ),
        (Push::Exclude { src }, "^main"),
        (
            Push::AllMatchingBranches {
                allow_non_fast_forward: false,
            },
            ":",
        ),
        (
            Push::AllMatchingBranches {
                allow_non_fast_forward: true,
            },
            "+:",
        ),
        (
            Push::Matching {
                src,
                dst,
                allow_non_fast_forward: false,
            },
            "main:topic",
        ),
        (
            Push::Matching {
                src,
                dst,
                allow_non_fast_forward: true,
            },
            "+main:topic",
        ),
    ];
    for (push, text) in cases {
        let found = printed(rt.alloc(), &Instruction::Push(push))?;
        assert_eq!(rt; found.as_str(), text);
    }
    Ok(())
}

#[test]
fn prints_fetches(rt: HostRuntime) -> Result<(), Fail> {
    let src = BStr::new(b"main");
    let dst = BStr::new(b"topic");
    let cases = [
        (Fetch::Only { src }, "main"),
        // A source that begins with `+` gets one more, which is taken off again as a sign.
        (
            Fetch::Only {
                src: BStr::new(b"+main"),
            },
            "++main",
        ),
        (Fetch::Exclude { src }, "^main"),
        (
            Fetch::AndUpdate {
                src,
                dst,
                allow_non_fast_forward: false,
            },
            "main:topic",
        ),
        (
            Fetch::AndUpdate {
                src,
                dst,
                allow_non_fast_forward: true,
            },
            "+main:topic",
        ),
    ];
    for (fetch, text) in cases {
        let found = printed(rt.alloc(), &Instruction::Fetch(fetch))?;
        assert_eq!(rt; found.as_str(), text);
    }
    Ok(())
}
