//! What goes out to a writer, and what a writer's fault leaves.

use super::TightWriter;
use bstr::BStr;
use gix_refspec_text::parsing::Operation;
use gix_refspec_text::{RefSpecRef, parse};
use std::alloc::Global;
use std::io;
use std::io::ErrorKind;
use std::test::Fail;

// What a spec and its instruction write.
fn written(alloc: Global, spec: RefSpecRef<'_>) -> io::Result<(Vec<u8>, Vec<u8>)> {
    let mut by_spec = Vec::new(alloc);
    spec.write_to(&mut by_spec)?;
    let mut by_instruction = Vec::new(alloc);
    spec.instruction().write_to(&mut by_instruction)?;
    Ok((by_spec, by_instruction))
}

// The kind of the fault that a call gave.
fn kind_of(written: io::Result<()>) -> Option<ErrorKind> {
    match written {
        Ok(()) => None,
        Err(fault) => Some(fault.kind()),
    }
}

// The faults that a spec and its instruction meet, where there is so much room.
fn faults(spec: RefSpecRef<'_>, room: usize) -> (Option<ErrorKind>, Option<ErrorKind>) {
    let by_spec = kind_of(spec.write_to(&mut TightWriter { room }));
    let by_instruction = kind_of(spec.instruction().write_to(&mut TightWriter { room }));
    (by_spec, by_instruction)
}

#[test]
fn writes_behind_what_was_written(rt: HostRuntime) -> Result<(), Fail> {
    let alloc = rt.alloc();
    let mut out = vec![in alloc; b'x']?;
    let spec = parse(alloc, BStr::new(b":y"), Operation::Push)?;
    spec.write_to(&mut out)?;
    out.push(b' ')?;
    spec.instruction().write_to(&mut out)?;
    assert_eq!(rt; BStr::new(out.as_slice()), BStr::new(b"x:y :y"));
    Ok(())
}

#[test]
fn writes_what_is_printed_until_a_fault(rt: HostRuntime) -> Result<(), Fail> {
    const ROWS: &[(Operation, &str)] = &[
        (Operation::Push, "+:"),
        (Operation::Push, ":x"),
        (Operation::Push, "+a:b"),
        (Operation::Push, "^a"),
        (Operation::Fetch, "++foo"),
        (Operation::Fetch, "^a"),
        (Operation::Fetch, "+a:b"),
    ];
    let alloc = rt.alloc();
    for (operation, text) in ROWS {
        let spec = parse(alloc, BStr::new(text.as_bytes()), *operation)?;
        let printed = spec.instruction().to_bstring(alloc)?;
        let (by_spec, by_instruction) = written(alloc, spec)?;
        let wanted = text.as_bytes();
        assert_eq!(rt;
            (
                printed.as_bytes(),
                by_spec.as_slice(),
                by_instruction.as_slice()
            ),
            (wanted, wanted, wanted),
            "{operation:?} at {text}"
        );
        for room in 0..=text.len() {
            let fault = (room < text.len()).then_some(ErrorKind::PermissionDenied);
            assert_eq!(rt;
                faults(spec, room),
                (fault, fault),
                "{operation:?} at {text}"
            );
        }
    }
    Ok(())
}
