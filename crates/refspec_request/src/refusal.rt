//! Why a call of `git refspec` ends with a message of its own.

ghost use Rattle.std.specs.Prelude.{◌≡◌, ◌∷◌, [], OnOk, codes};
ghost use Rattle.refspec_request.specs.Refusals.{Writes, advice_of, boolean_sentence, elsewhere_sentence};
ghost use Rattle.refspec_request.specs.Refusals.{group_sentence, location, message_of, old_form_sentence};
ghost use Rattle.refspec_request.specs.Refusals.{pieces_of_members, quoted, refusal_status, sentence_of};
ghost use Rattle.refspec_request.specs.Refusals.{shown_origin, value_sentence, words};
ghost use Rattle.refspec_request.specs.Remotes.{listed_in};

use crate::remotes::{is_between_members, members_in};
use crate::usage::USAGE;
use refspec_io::call::Form;
use refspec_io::quote::{write_in_message, write_shown};
use refspec_io::settings::Setting;
use std::alloc::{AllocError, AllocFailed};

const IDLE_REFMAP: &str =
    "--refmap replaces the fetch values for given specs, and Git refuses it without any";

const NO_REF: &str = "track takes a tracking ref, such as origin/main: git refspec track REF..";

const URL_OR_SPEC: &str =
    " may be a URL or a spec; put the remote before a spec, or `--`, and a URL after --remote";

const NO_REMOTE_NO_SPEC: &str =
    " is not a configured remote; `git remote` lists those, and a spec may follow `--`";

const NO_DEFAULT: &str =
    "no remote is given: the current branch has none, and neither a single one nor origin has a URL";

const NOT_UTF8: &str = " is not UTF-8; give such a spec to refspec on its standard input";

const NO_MERGED_REF: &str = "no branch has a merge value, so none has an upstream";

const REMOTE_OF_BRANCHES: &str =
    "upstream takes branches and no --remote, as each branch has a remote of its own";

const ARGUMENTS_OF_WHY: &str =
    "why takes a ref of the remote, and perhaps the remote: git refspec why REF [REMOTE]";

const OTHER_REFUSED: &str =
    "a value of another remote is refused, so Git uses none; `git refspec check` shows which";

/// Why a call is refused.
#[derive(Clone, Copy, Debug)]
pub enum Refusal<'a> {
    /// No argument is a command.
    NoCommand,
    /// The first argument that isn't an option isn't a command.
    NoSuchCommand(&'a [u8]),
    /// An argument begins with `-`, and isn't an option.
    NoSuchOption(&'a [u8]),
    /// A value for an option that takes none.
    NeedlessValue(&'a [u8]),
    /// An option of another command: the option, and the only command that takes it.
    OptionElsewhere(&'static str, &'static str),
    /// `--remote` has no name.
    NoRemoteName,
    /// `--refmap` has no spec.
    NoRefmap,
    /// `--refmap` without specs of the call.
    IdleRefmap,
    /// `track` has no ref.
    NoRef,
    /// An argument may be a URL or a spec.
    UrlOrSpec(&'a [u8]),
    /// An argument is neither a configured remote nor a spec.
    NoRemoteNoSpec(&'a [u8]),
    /// No remote is given, and there is no default.
    NoDefault,
    /// A spec isn't UTF-8.
    NotUtf8(&'a [u8]),
    /// The name of a remote contains a newline.
    Newline(&'a [u8]),
    /// `tag` is the last argument, without the name of a tag.
    NoTagName,
    /// An invalid ref name.
    NoRefName(&'a [u8]),
    /// An expression that Git doesn't resolve to a ref.
    NotARef(&'a [u8]),
    /// A remote whose configuration is a file of `.git/remotes` or `.git/branches`.
    OldForm {
        name: &'a [u8],
        folder: &'a str,
    },
    /// A group of several remotes, and the settings that have it.
    Group {
        name: &'a [u8],
        settings: &'a [Setting<'a>],
    },
    /// A setting that Git reads as a boolean has another value.
    BadBoolean {
        origin: &'a [u8],
        key: &'a [u8],
        value: &'a [u8],
    },
    /// A setting at which Git stops has no value.
    NoValue {
        origin: &'a [u8],
        key: &'a [u8],
    },
    /// No remote has fetch values.
    NoValuesAtAll,
    /// The remote of `--remote` has no fetch values.
    NoValuesOf(&'a [u8]),
    /// No branch has a merge value.
    NoMergedRef,
    /// The argument that means the current branch, where there is none.
    NoBranchAtHead(&'a [u8]),
    /// `--remote` in a call that takes the remotes of branches.
    RemoteOfBranches,
    /// `why` has no ref, or more than a ref and a remote.
    ArgumentsOfWhy,
    /// A value of a remote that the arguments don't name is refused.
    OtherRefused,
    /// Memory ran out.
    Memory,
}

impl Refusal<'_> {
    /// The exit status: 1 for the configuration, 2 for a usage error, 3 for out of memory.
    pub fn status(&self) -> u8
        ensures { result ≡ refusal_status self.now }
    {
        match self {
            Refusal::OldForm { .. }
            | Refusal::BadBoolean { .. }
            | Refusal::NoValue { .. }
            | Refusal::NoValuesAtAll
            | Refusal::NoValuesOf(_)
            | Refusal::NoMergedRef
            | Refusal::NoBranchAtHead(_)
            | Refusal::OtherRefused => 1,
            Refusal::Memory => 3,
            _ => 2,
        }
    }

    /// Appends the lines of the message. Fails if memory runs out.
    pub fn write(&self, out: &mut Vec<u8>) -> Result<(), AllocError>
        ensures { OnOk result (Writes (message_of self.now) out.old.items out.new.items) }
    {
        write_words(out, "git refspec: ")?;
        self.write_sentence(out)?;
        write_words(out, "\n")?;
        Ok(self.write_advice(out)?)
    }

    // Appends the synopses, if the command or an option is unknown.
    fn write_advice(&self, out: &mut Vec<u8>) -> Result<(), AllocError>
        ensures { OnOk result (Writes (advice_of self.now) out.old.items out.new.items) }
    {
        match self {
            Refusal::NoCommand | Refusal::NoSuchCommand(_) | Refusal::NoSuchOption(_) => {
                write_words(out, USAGE)
            }
            _ => Ok(()),
        }
    }

    // Appends the sentence.
    fn write_sentence(&self, out: &mut Vec<u8>) -> Result<(), AllocError>
        ensures { OnOk result (Writes (sentence_of self.now) out.old.items out.new.items) }
    {
        match self {
            Refusal::NoCommand => write_words(out, "no command is given"),
            Refusal::NoSuchCommand(argument) => {
                write_about(out, "there is no command ", argument, "")
            }
            Refusal::NoSuchOption(argument) => {
                write_about(out, "there is no option ", argument, "")
            }
            Refusal::NeedlessValue(argument) => {
                write_about(out, "", argument, ": this option takes no value")
            }
            Refusal::OptionElsewhere(option, command) => write_elsewhere(out, option, command),
            Refusal::NoRemoteName => write_words(out, "--remote takes the name of a remote"),
            Refusal::NoRefmap => write_words(out, "--refmap takes a spec, or an empty one"),
            Refusal::IdleRefmap => write_words(out, IDLE_REFMAP),
            Refusal::NoRef => write_words(out, NO_REF),
            Refusal::UrlOrSpec(argument) => write_about(out, "", argument, URL_OR_SPEC),
            Refusal::NoRemoteNoSpec(argument) => write_about(out, "", argument, NO_REMOTE_NO_SPEC),
            Refusal::NoDefault => write_words(out, NO_DEFAULT),
            Refusal::NotUtf8(argument) => write_about(out, "", argument, NOT_UTF8),
            Refusal::Newline(argument) => {
                write_about(out, "", argument, " has a newline, so it names no remote")
            }
            Refusal::NoTagName => write_words(out, "tag takes the name of a tag"),
            Refusal::NoRefName(argument) => {
                write_about(out, "", argument, " is not a valid ref name")
            }
            Refusal::NotARef(argument) => write_about(out, "", argument, " is not a ref"),
            Refusal::OldForm { name, folder } => write_old_form(out, name, folder),
            Refusal::Group { name, settings } => write_group(out, name, settings),
            Refusal::BadBoolean { origin, key, value } => write_bad_boolean(
                out, origin, key, value,
            ),
            Refusal::NoValue { origin, key } => write_no_value(out, origin, key),
            Refusal::NoValuesAtAll => write_words(out, "no remote has fetch values"),
            Refusal::NoValuesOf(remote) => write_about(out, "", remote, " has no fetch values"),
            Refusal::NoMergedRef => write_words(out, NO_MERGED_REF),
            Refusal::NoBranchAtHead(argument) => {
                write_about(out, "", argument, " does not point to a branch")
            }
            Refusal::RemoteOfBranches => write_words(out, REMOTE_OF_BRANCHES),
            Refusal::ArgumentsOfWhy => write_words(out, ARGUMENTS_OF_WHY),
            Refusal::OtherRefused => write_words(out, OTHER_REFUSED),
            Refusal::Memory => write_words(out, "out of memory"),
        }
    }
}

// Appends the sentence on an option of another command.
fn write_elsewhere(out: &mut Vec<u8>, option: &str, command: &str) -> Result<(), AllocError>
    ensures { OnOk result (Writes (elsewhere_sentence option.now command.now) out.old.items out.new.items) }
{
    write_about(out, "", option.as_bytes(), ": only ")?;
    Ok(write_about(out, "", command.as_bytes(), " takes this option")?)
}

// Appends the sentence on a remote that isn't in the configuration.
fn write_old_form(out: &mut Vec<u8>, name: &[u8], folder: &str) -> Result<(), AllocError>
    ensures { OnOk result (Writes (old_form_sentence name.now folder.now) out.old.items out.new.items) }
{
    write_about(out, "the remote ", name, " is configured in ")?;
    write_about(
        out,
        "",
        folder.as_bytes(),
        ", which is not read here; `git remote rename ",
    )?;
    write_about(out, "", name, " ")?;
    Ok(write_about(out, "", name, "` moves it into the configuration")?)
}

// Appends the sentence on a group of remotes.
fn write_group(out: &mut Vec<u8>, name: &[u8], settings: &[Setting<'_>]) -> Result<(), AllocError>
    ensures { OnOk result (Writes (group_sentence name.now settings.now) out.old.items out.new.items) }
{
    write_about(out, "", name, " is a group of remotes; name one of them:")?;
    for setting in settings {
        write_members(out, members_in(setting, name))?;
    }
    Ok(())
}

// Appends the remotes that a text lists.
fn write_members(out: &mut Vec<u8>, text: &[u8]) -> Result<(), AllocError>
    ensures { OnOk result (Writes (pieces_of_members (listed_in text.now)) out.old.items out.new.items) }
{
    let members = text
        .split(is_between_members)
        .filter(|member| !member.is_empty());
    for member in members {
        write_about(out, " ", member, "")?;
    }
    Ok(())
}

// Appends the sentence on a setting that isn't a boolean.
fn write_bad_boolean(
    out: &mut Vec<u8>,
    origin: &[u8],
    key: &[u8],
    value: &[u8],
) -> Result<(), AllocError>
    ensures { OnOk result (Writes (boolean_sentence origin.now key.now value.now) out.old.items out.new.items) }
{
    write_location(out, origin, key)?;
    Ok(write_about(
        out,
        "",
        value,
        " is not a boolean, so Git stops; write true or false",
    )?)
}

// Appends the sentence on a setting that needs a value.
fn write_no_value(out: &mut Vec<u8>, origin: &[u8], key: &[u8]) -> Result<(), AllocError>
    ensures { OnOk result (Writes (value_sentence origin.now key.now) out.old.items out.new.items) }
{
    write_location(out, origin, key)?;
    Ok(write_words(
        out,
        "the value is missing, so Git stops; write `=` and a value behind the key, or remove its line",
    )?)
}

// Appends the origin and the key of a setting, before what is said of it.
fn write_location(out: &mut Vec<u8>, origin: &[u8], key: &[u8]) -> Result<(), AllocError>
    ensures { OnOk result (Writes (location origin.now key.now) out.old.items out.new.items) }
{
    write_key(out, shown_origin(origin), key)
}

// Appends an origin and a key, each before a colon.
fn write_key(out: &mut Vec<u8>, origin: &[u8], key: &[u8]) -> Result<(), AllocError>
    ensures { OnOk result (Writes (quoted origin.now ∷ (words (codes ": ") ∷ (quoted key.now
        ∷ (words (codes ": ") ∷ [])))) out.old.items out.new.items) }
{
    write_shown(out, origin, Form::Lines)?;
    write_about(out, ": ", key, ": ")
}

// An origin without the colon with which Git ends that of `-c`.
fn shown_origin(origin: &[u8]) -> &[u8]
    ensures { result.now ≡ shown_origin origin.now }
{
    if origin == b"command line:".as_slice() {
        b"command line"
    } else {
        origin
    }
}

// Appends words.
fn write_words(out: &mut Vec<u8>, text: &str) -> Result<(), AllocError>
    ensures { OnOk result (Writes (words text.now ∷ []) out.old.items out.new.items) }
{
    out.extend_from_slice(text.as_bytes())
}

/// Appends a name, quoted if necessary, between two texts. Fails if memory runs out.
pub fn write_about(
    out: &mut Vec<u8>,
    before: &str,
    name: &[u8],
    after: &str,
) -> Result<(), AllocError>
    ensures { OnOk result (Writes (words before.now ∷ (quoted name.now ∷ (words after.now ∷ [])))
        out.old.items out.new.items) }
{
    out.extend_from_slice(before.as_bytes())?;
    write_in_message(out, name)?;
    Ok(out.extend_from_slice(after.as_bytes())?)
}

impl<'a> From<AllocError> for Refusal<'a> {
    ghost use Rattle.refspec_request.specs.Refusals.{IsForMemory};

    ghost from_gives = { λ _ refusal. IsForMemory refusal };

    fn from(_: AllocError) -> Refusal<'a> {
        Refusal::Memory
    }
}

impl<'a, T: Drop> From<AllocFailed<T>> for Refusal<'a> {
    ghost use Rattle.refspec_request.specs.Refusals.{IsForMemory};

    ghost from_gives = { λ _ refusal. IsForMemory refusal };

    fn from(_: AllocFailed<T>) -> Refusal<'a> {
        Refusal::Memory
    }
}
