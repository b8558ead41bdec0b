//! The settings of a Git configuration, as `git config --show-origin -z` prints them.

ghost use Rattle.std.specs.Prelude.{IfErr, IfOk, MatchBool, MatchOption};
ghost use Rattle.refspec_io.specs.Fault.{RefusesFormat};
ghost use Rattle.refspec_io.specs.Settings.{AreSettings, AreSettingsOf, HasLacking, HasNoSettings, HoldsSpecs, IsNoSettings, IsOrigin, IsSetting, LacksValue};

use crate::call::Terminator;
use crate::fault::{Fault, NotSettings};
use crate::input::{first_record, records};
use bstr::ByteSlice;
use gix_refspec::parsing::Operation;
use std::alloc::Global;

/// A setting, read from two records.
#[derive(Clone, Copy, Debug)]
pub struct Setting<'a> {
    /// The origin, such as `file:.git/config`.
    pub origin: &'a [u8],
    pub key: &'a [u8],
    /// The value; `None` for a key without `=`.
    pub value: Option<&'a [u8]>,
}

/// The settings of the file of specs (`beside`) and then of the input, if the call reads settings; else none.
/// Refused if one of them isn't in the format of settings.
pub fn settings_in<'a>(
    alloc: Global,
    ends: Terminator,
    beside: &'a [u8],
    input: &'a [u8],
) -> Result<Vec<Setting<'a>>, Fault>
    ensures ok { IfOk result (λ settings.
        AreSettingsOf ends beside.now input.now settings.items) }
    ensures err { IfErr result (RefusesFormat (HasNoSettings ends beside.now input.now)) }
{
    match ends {
        Terminator::Newline | Terminator::Zero => Ok(Vec::new(alloc)),
        Terminator::Settings => {
            let mut settings = settings_of(alloc, beside)?;
            let more = settings_of(alloc, input)?;
            settings.extend_from_slice(more.as_slice())?;
            Ok(settings)
        }
    }
}

/// The settings of an input. Refused if the input isn't in the format of settings.
pub fn settings_of(alloc: Global, input: &[u8]) -> Result<Vec<Setting<'_>>, Fault>
    ensures ok { IfOk result (λ settings. AreSettings input.now settings.items) }
    ensures err { IfErr result (RefusesFormat (IsNoSettings input.now)) }
{
    let records = records(alloc, input, 0)?;
    let mut settings = Vec::new(alloc);
    let mut origin: Option<&[u8]> = None;
    for record in &records {
        match origin {
            Some(file) => {
                settings.push(read_setting(file, record))?;
                origin = None;
            }
            None => {
                if !is_origin(record) {
                    return Err(Fault::Settings(why_not(input)));
                }
                origin = Some(*record);
            }
        }
    }
    match origin {
        None => Ok(settings),
        Some(_) => Err(Fault::Settings(why_not(input))),
    }
}

// Reads a setting from its origin and the record after it.
fn read_setting<'a>(origin: &'a [u8], text: &'a [u8]) -> Setting<'a>
    requires { IsOrigin origin.now }
    ensures { IsSetting origin.now text.now result }
{
    match text.find_byte(b'\n') {
        None => Setting {
            origin,
            key: text,
            value: None,
        },
        Some(end) => {
            let (key, back) = text.split_at(end);
            Setting {
                origin,
                key,
                value: Some(&back[1..]),
            }
        }
    }
}

// Whether the text of a record is the origin of a setting.
fn is_origin(text: &[u8]) -> bool
    ensures { MatchBool result (IsOrigin text.now) (¬ (IsOrigin text.now)) }
{
    let is_file = text.starts_with(b"file:") | text.starts_with(b"standard input:");
    let is_other = text.starts_with(b"blob:") | text.starts_with(b"command line:");
    is_file | is_other
}

/// The operation of the refspecs under a key, or `None` if the key isn't one of refspecs.
pub fn operation_of(key: &[u8]) -> Option<Operation>
    ensures { MatchOption result ((op : Operation) → ¬ (HoldsSpecs key.now op)) (HoldsSpecs key.now) }
{
    let variable = key.strip_prefix(b"remote.")?;
    if variable.ends_with(b".fetch") {
        return Some(Operation::Fetch);
    }
    if variable.ends_with(b".push") {
        return Some(Operation::Push);
    }
    None
}

/// Whether some key of refspecs has no value.
pub fn has_lacking(settings: &[Setting<'_>]) -> bool
    ensures { MatchBool result (HasLacking settings.now) (¬ (HasLacking settings.now)) }
{
    for setting in settings {
        if lacks_value(setting) {
            return true;
        }
    }
    false
}

/// Whether the key of a setting is one of refspecs, and its value is missing.
pub fn lacks_value(setting: &Setting<'_>) -> bool
    ensures { MatchBool result (LacksValue setting.now) (¬ (LacksValue setting.now)) }
{
    if setting.value.is_some() {
        return false;
    }
    match operation_of(setting.key) {
        Some(_) => true,
        None => false,
    }
}

// Why an input isn't in the format of settings.
fn why_not(input: &[u8]) -> NotSettings {
    let (first, _) = first_record(input, 0);
    if first.len() == input.len() {
        return if is_configuration_file(input) {
            NotSettings::ConfigurationFile
        } else {
            NotSettings::Lines
        };
    }
    if is_scope(first) {
        NotSettings::Scopes
    } else if is_origin(first) {
        NotSettings::Unpaired
    } else {
        NotSettings::NoOrigins
    }
}

// Whether the first line that is neither empty nor a comment begins a section.
fn is_configuration_file(input: &[u8]) -> bool {
    let mut lines = input.lines().map(|line| line.trim_start());
    match lines.find(|line| !matches!(line.first(), None | Some(b'#' | b';'))) {
        Some(line) => line.starts_with(b"["),
        None => false,
    }
}

// Whether a record is the scope of a setting (git-config(1), `--show-scope`).
fn is_scope(record: &[u8]) -> bool {
    let scopes = [
        b"system".as_slice(),
        b"global",
        b"local",
        b"worktree",
        b"command",
        b"unknown",
    ];
    scopes.contains(&record)
}
