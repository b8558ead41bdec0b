//! Calls in which growths of memory are refused. Each test makes one call between two marks, and looks at
//! what it answered and what it left. `tests/library/growths.py` has the growths between the marks refused in turn;
//! in any other run there is memory for all.

mod alike;
mod copies;
mod matching;
mod texts;

use std::alloc::Global;
use std::test::Fail;

// A room that nothing else asks for: by it the library that refuses growths knows the marks.
const MARK: usize = 1_048_573;

// Where a call begins, or ends. The library doesn't refuse a mark.
fn mark(alloc: Global) {
    if let Ok(mut room) = Vec::with_capacity(alloc, MARK) {
        let _ = room.push(0u8);
    }
}

// What a call answers, between two marks.
macro_rules! marked {
    ($alloc:expr, $call:expr) => {{
        mark($alloc);
        let answer = $call;
        mark($alloc);
        answer
    }};
}

use marked;

// Says whether a call answered, and gives what it answered.
fn answer_of<T: Drop, E: Drop>(rt: &impl Print, answered: Result<T, E>) -> Result<Option<T>, Fail> {
    match answered {
        Ok(answer) => {
            say_answered(rt)?;
            Ok(Some(answer))
        }
        Err(_) => {
            say_refused(rt)?;
            Ok(None)
        }
    }
}

// Says that a call answered as it does with ample memory.
fn say_answered(rt: &impl Print) -> Result<(), Fail> {
    println!(rt; "answered")?;
    Ok(())
}

// Says that memory ran out for a call.
fn say_refused(rt: &impl Print) -> Result<(), Fail> {
    println!(rt; "refused")?;
    Ok(())
}
