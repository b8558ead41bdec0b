//! How many of many things are reported.

ghost use Rattle.std.specs.Prelude.{◌≡◌, ◌≤◌, ◌+◌, ◌-◌, ◌^◌, ◌++◌, min, OnOk};
ghost use Rattle.refspec_io.specs.Counts.{few, is_reported, is_within, more_line, reported_count};

use crate::call::{Form, Limit};
use crate::texts::write_number;
use std::alloc::AllocError;

/// How many of some conflicts, left out updates or names are reported: in JSON all.
pub fn reported_count(form: Form, limit: Limit, count: usize) -> usize
    ensures reported { result ≡ reported_count form limit count }
    ensures fits { result ≤ count }
{
    match form {
        Form::Json => count,
        Form::Lines | Form::Zeros => few(limit, count),
    }
}

/// How many of so many are within a limit.
pub fn few(limit: Limit, count: usize) -> usize
    ensures reported { result ≡ few limit count }
    ensures fits { result ≤ count }
{
    match limit {
        Limit::All => count,
        Limit::Twenty => count - count.saturating_sub(20),
    }
}

/// Appends a line that says how many more there are, unless `count` is 0.
pub fn write_more(what: &str, count: usize, out: &mut Vec<u8>) -> Result<(), AllocError>
    ensures { OnOk result (out.new.items ≡ out.old.items ++ more_line what.now count) }
{
    if count == 0 {
        return Ok(());
    }
    out.extend_from_slice(what.as_bytes())?;
    write_number(out, count)?;
    out.extend_from_slice(b" more; `--all` lists them\n")?;
    Ok(())
}

/// The messages of one kind so far, of which a limited number is reported.
#[derive(Clone, Copy, Debug)]
pub struct Tally {
    pub limit: Limit,
    /// How many there are. Stays at the greatest number.
    pub count: usize,
}

impl Tally {
    /// No message so far.
    pub fn new(limit: Limit) -> Tally
        ensures limit { result.limit ≡ limit }
        ensures count { result.count ≡ 0 }
    {
        Tally { limit, count: 0 }
    }

    /// Counts a message. Returns whether it is reported: in JSON each is.
    pub fn reports_next(&mut self, form: Form) -> bool
        ensures reported { result ≡ is_reported form self.old.limit self.old.count }
        ensures limit { self.new.limit ≡ self.old.limit }
        ensures count { self.new.count ≡ min (self.old.count + 1) (2 ^ 64 - 1) }
    {
        let index = self.count;
        self.count = index.saturating_add(1);
        is_reported(form, self.limit, index)
    }

    /// Appends a line that says how many messages aren't reported, unless all are.
    pub fn write_more(&self, form: Form, what: &str, out: &mut Vec<u8>) -> Result<(), AllocError>
        ensures { OnOk result (out.new.items ≡ out.old.items ++ more_line what.now
            (self.now.count - reported_count form self.now.limit self.now.count)) }
    {
        let reported = reported_count(form, self.limit, self.count);
        write_more(what, self.count - reported, out)
    }
}

// Whether the message at an index is reported.
fn is_reported(form: Form, limit: Limit, index: usize) -> bool
    ensures { result ≡ is_reported form limit index }
{
    match form {
        Form::Json => true,
        Form::Lines | Form::Zeros => is_within(limit, index),
    }
}

// Whether an index is within a limit.
fn is_within(limit: Limit, index: usize) -> bool
    ensures { result ≡ is_within limit index }
{
    match limit {
        Limit::All => true,
        Limit::Twenty => index < 20,
    }
}
