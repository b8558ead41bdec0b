//! The booleans of Git's configuration, and those that a fetch reads.

ghost use Rattle.std.specs.Prelude.{◌≡◌, ℕ, ◌≤◌, ◌+◌, ◌*◌, ◌<◌, ◌==◌, ◌↔◌, ◌⊎◌, IsTrue, MatchBool, MatchOption};
ghost use Rattle.std.specs.Str.Parse.{IsNumeral, digits_value};
ghost use Rattle.refspec_request.specs.Booleans.{IsBooleanOfFetches, IsBooleanOfRemotes, IsInteger, IsRemoteBoolean};
ghost use Rattle.refspec_request.specs.Booleans.{Means, after_blanks, after_sign, base_of, factor_of, factor_at};
ghost use Rattle.refspec_request.specs.Booleans.{is_blank, IsNo, IsYes, marked, without_unit};

use crate::settings::name_and_variable;
use refspec_io::settings::Setting;

/// What a boolean setting says.
#[derive(Clone, Copy, Debug, PartialEq, Eq)]
pub enum Boolean {
    True,
    False,
    /// Neither: Git refuses it.
    Bad,
}

// The greatest number that a boolean may be.
const MOST: u64 = 2_147_483_647;

/// What a value says, as Git reads booleans. A missing value is true; an empty one is false.
pub fn boolean_of(value: Option<&[u8]>) -> Boolean
    ensures { MatchOption value.entry (result ≡ Boolean.True) (λ text. Means text.now result) }
{
    match value {
        None => Boolean::True,
        Some(text) => meaning_of(text),
    }
}

// What a text says.
fn meaning_of(text: &[u8]) -> Boolean
    ensures { Means text.now result }
{
    if is_yes(text) {
        return Boolean::True;
    }
    if is_no(text) {
        return Boolean::False;
    }
    match integer_of(text) {
        None => Boolean::Bad,
        Some(0) => Boolean::False,
        Some(_) => Boolean::True,
    }
}

/// Whether a value is true.
pub fn is_true(value: Option<&[u8]>) -> bool
    ensures { MatchOption value.entry (IsTrue result)
        (λ text. MatchBool result (Means text.now Boolean.True)
        (Means text.now Boolean.False ⊎ Means text.now Boolean.Bad)) }
{
    let Some(text) = value else {
        return true;
    };
    match meaning_of(text) {
        Boolean::True => true,
        Boolean::False | Boolean::Bad => false,
    }
}

/// Whether Git reads a setting as a boolean whenever it looks up a remote, of whatever remote the setting is.
pub fn is_boolean_of_remotes(setting: &Setting<'_>) -> bool
    ensures { IsTrue result ↔ IsBooleanOfRemotes setting.now.key.now }
{
    match name_and_variable(b"remote", setting.key) {
        None => false,
        Some((_, variable)) => is_boolean_variable(variable),
    }
}

// Whether Git reads a variable of a remote as a boolean.
fn is_boolean_variable(variable: &[u8]) -> bool
    ensures { IsTrue result ↔ IsRemoteBoolean variable.now }
{
    variable == b"prune".as_slice()
        || variable == b"prunetags".as_slice()
        || variable == b"mirror".as_slice()
        || variable == b"skipdefaultupdate".as_slice()
        || variable == b"skipfetchall".as_slice()
}

/// Whether Git reads a setting as a boolean for each fetch.
pub fn is_boolean_of_fetches(setting: &Setting<'_>) -> bool
    ensures { IsTrue result ↔ IsBooleanOfFetches setting.now.key.now }
{
    matches!(setting.key, b"fetch.prune" | b"fetch.prunetags")
}

// Whether a text is one of the words for true, in any case.
fn is_yes(text: &[u8]) -> bool
    ensures { IsTrue result ↔ IsYes text.now }
{
    text.eq_ignore_ascii_case(b"true")
        || text.eq_ignore_ascii_case(b"yes")
        || text.eq_ignore_ascii_case(b"on")
}

// Whether a text is empty, or one of the words for false, in any case.
fn is_no(text: &[u8]) -> bool
    ensures { IsTrue result ↔ IsNo text.now }
{
    text.is_empty()
        || text.eq_ignore_ascii_case(b"false")
        || text.eq_ignore_ascii_case(b"no")
        || text.eq_ignore_ascii_case(b"off")
}

// The number that a text writes, without its sign. `None` if it isn't an integer, or doesn't fit 32 bits.
fn integer_of(text: &[u8]) -> Option<u64>
    ensures { MatchOption result ((n : ℕ) → ¬ (IsInteger text.now n)) (λ n. IsInteger text.now n) }
{
    let rest = skip_sign(skip_blanks(text));
    let numeral = strip_unit(rest);
    let base = base_in(numeral);
    let number = value_of(strip_mark(numeral), base)?;
    let product = number * factor_in(rest);
    if product <= MOST { Some(product) } else { None }
}

fn is_white(byte: u8) -> bool
    ensures { result ≡ is_blank byte }
{
    byte == b' ' || (8 < byte && byte < 14)
}

// A text without the white space that it begins with.
fn skip_blanks(text: &[u8]) -> &[u8]
    ensures { result.now ≡ after_blanks text.now }
{
    for (index, byte) in text.iter().enumerate() {
        if !is_white(*byte) {
            return &text[index..];
        }
    }
    &[]
}

// A text without the sign that it begins with.
fn skip_sign(text: &[u8]) -> &[u8]
    ensures { result.now ≡ after_sign text.now }
{
    match text {
        [b'+' | b'-', rest @ ..] => rest,
        _ => text,
    }
}

// What the unit at the end of a number multiplies it by.
fn factor_in(number: &[u8]) -> u64
    ensures value { result ≡ factor_of number.now }
    ensures bound { result ≤ 1073741824 }
{
    if number.is_empty() {
        return 1;
    }
    match number[number.len() - 1] {
        b'k' | b'K' => 1024,
        b'm' | b'M' => 1_048_576,
        b'g' | b'G' => 1_073_741_824,
        _ => 1,
    }
}

// A number without its unit.
fn strip_unit(number: &[u8]) -> &[u8]
    ensures { result.now ≡ without_unit number.now }
{
    if factor_in(number) == 1 {
        return number;
    }
    &number[..number.len() - 1]
}

// The base of a number: 16 after `0x`, 8 after another `0`, else 10.
fn base_in(number: &[u8]) -> u32
    ensures value { result ≡ base_of number.now }
    ensures low { 8 ≤ result }
    ensures high { result ≤ 16 }
{
    match number {
        [b'0', b'x' | b'X', ..] => 16,
        [b'0', ..] => 8,
        _ => 10,
    }
}

// A number without `0x`.
fn strip_mark(number: &[u8]) -> &[u8]
    ensures { result.now ≡ marked number.now }
{
    match number {
        [b'0', b'x' | b'X', digits @ ..] => digits,
        _ => number,
    }
}

// The number that digits write, if these are digits and it isn't greater than MOST.
fn value_of(digits: &[u8], base: u32) -> Option<u64>
    requires low { 8 ≤ base }
    requires high { base ≤ 16 }
    ensures { MatchOption result
        (¬ (IsNumeral base digits.now × (digits_value base digits.now ≤ MOST)))
        (λ n. IsNumeral base digits.now × (n ≡ digits_value base digits.now) × (n ≤ MOST)) }
{
    if digits.is_empty() {
        return None;
    }
    let mut value: u64 = 0;
    for byte in digits {
        let digit = char::from(*byte).to_digit(base)?;
        value = value * base as u64 + digit as u64;
        if MOST < value {
            return None;
        }
    }
    Some(value)
}
