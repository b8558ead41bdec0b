//! The arguments of `git refspec`, with options and other arguments in any order.

ghost use Rattle.std.specs.Prelude.{◌≡◌, ◌≢◌, ◌⊎◌, ◌↔◌, ◌++◌, ◌∷◌, [], IfErr, IfOk, IsTrue, List, MatchResult, None};
ghost use Rattle.std.specs.Prelude.{OnOk, Option, Some, drop, length, map, option_map, ℕ, ◌<◌};
ghost use Rattle.std.specs.List.{All, Contains};
ghost use Rattle.gix_refspec_text.specs.Texts.Words.{Lacks};
ghost use Rattle.refspec_request.specs.Arguments.{AllowsOptions, AreLettered, AskFor, AsksFor, IsAllowed};
ghost use Rattle.refspec_request.specs.Arguments.{IsForCommand};
ghost use Rattle.refspec_request.specs.Arguments.{IsForm, IsRequest, RefusesCall, RefusesCommand, RefusesGiven};
ghost use Rattle.refspec_request.specs.Arguments.{RefusesLetters, RefusesLong, RefusesOptions, RefusesRefmap};
ghost use Rattle.refspec_request.specs.Arguments.{RefusesSwitch, RefusesText, Takes, TakesRefmap, Word, command_named};
ghost use Rattle.refspec_request.specs.Arguments.{is_long, is_option, name_of, owner_of, switch_lettered};
ghost use Rattle.refspec_request.specs.Arguments.{switch_named, valued, valued_named};
ghost use Rattle.refspec_request.specs.Reading.{AreOptions, HasRead, HasTexts, IsLong, RefusesBehind, call_of};
ghost use Rattle.refspec_request.specs.Reading.{call_with, lacking_value};
ghost use Rattle.refspec_request.specs.Refusals.{IsForMemory};
ghost use Rattle.refspec_request.specs.declared.arguments.Switch.{Switch};
ghost use Rattle.refspec_request.specs.declared.arguments.Valued.{Valued};

use crate::refusal::Refusal;
use crate::settings::split_at_first;
use refspec_io::call::Form;
use std::alloc::{AllocError, Global};

/// The commands of `git refspec`.
#[derive(Clone, Copy, Debug, PartialEq, Eq)]
pub enum Subcommand {
    /// Reports the refused values of remotes, or the refused specs.
    Check,
    /// Reports what a fetch writes.
    Plan,
    /// Reports from which refs of which remotes tracking refs are fetched.
    Track,
    /// Lists the ref prefixes to send to a server.
    Prefixes,
    /// Lists the local refs that a pruning fetch deletes.
    Stale,
    /// Reports the upstreams of branches.
    Upstream,
    /// Reports what each spec of a fetch does with one ref of the remote.
    Why,
}

impl Subcommand {
    // The argument that names it.
    fn name(self) -> &'static str
        ensures { result.now ≡ name_of self }
    {
        match self {
            Subcommand::Check => "check",
            Subcommand::Plan => "plan",
            Subcommand::Track => "track",
            Subcommand::Prefixes => "prefixes",
            Subcommand::Stale => "stale",
            Subcommand::Upstream => "upstream",
            Subcommand::Why => "why",
        }
    }
}

/// What the arguments ask for.
#[derive(Debug, Drop)]
pub enum Purpose<'a> {
    /// The usage.
    Usage,
    /// The manual page.
    Manual,
    /// The version.
    Version,
    /// The usage of a command.
    Request(Request<'a>),
}

/// A command with its options and arguments.
#[derive(Debug, Drop)]
pub struct Request<'a> {
    pub command: Subcommand,
    pub form: Form,
    /// Report valid values too.
    pub verbose: bool,
    /// The given specs are for a push.
    pub push: bool,
    /// Write ref prefixes as patterns.
    pub patterns: bool,
    /// Ask for `HEAD` too.
    pub head: bool,
    /// Report each mapping of a plan with its spec, and not below it.
    pub long: bool,
    /// Report every conflict, and all that is left out.
    pub all: bool,
    /// Report the local refs that a pruning fetch deletes too.
    pub prune: bool,
    /// Report no warnings.
    pub no_warnings: bool,
    /// Exit with status 1 for a warning too.
    pub strict: bool,
    /// The specs that replace the fetch values, if there are any.
    pub refmap: Vec<&'a [u8]>,
    /// The remote that `--remote` names.
    pub remote: Option<&'a [u8]>,
    /// The arguments that are neither the command nor options, in order.
    pub arguments: Vec<&'a [u8]>,
    /// How many of them precede the first `--`, if there is one.
    pub dashes: Option<usize>,
}

/// Parses arguments, from which the result borrows. The first that isn't an option is the command. Refuses the first
/// argument that is no option, or no command; else an option that the command doesn't take, a call without a command,
/// and an option without its value. Fails with `Refusal::Memory` if memory runs out.
pub fn purpose_of<'a>(alloc: Global, arguments: &[&'a [u8]]) -> Result<Purpose<'a>, Refusal<'a>>
    ensures ok { IfOk result (AskFor (map (λ a. a.now) arguments.now)) }
    ensures refused { IfErr result (RefusesCall (map (λ a. a.now) arguments.now)) }
{
    let mut reading = Reading::new(alloc);
    for argument in arguments {
        reading.take(argument)?;
    }
    reading.finish()
}

// An option without a value.
#[derive(Clone, Copy, Debug, PartialEq, Eq)]
enum Switch {
    Zeros,
    Json,
    Verbose,
    Push,
    Patterns,
    Head,
    Long,
    All,
    Prune,
    NoWarnings,
    Strict,
    Usage,
    Manual,
    Version,
}

impl Switch {
    // The option as it is told, and the only command that takes it. `None` if several take it.
    fn owner(self) -> Option<(&'static str, Subcommand)>
        ensures { option_map (λ owner. (owner.0.now, owner.1)) result ≡ owner_of self }
    {
        match self {
            Switch::Verbose => Some(("-v", Subcommand::Check)),
            Switch::Push => Some(("--push", Subcommand::Check)),
            Switch::NoWarnings => Some(("--no-warnings", Subcommand::Check)),
            Switch::Strict => Some(("--strict", Subcommand::Check)),
            Switch::Patterns => Some(("--patterns", Subcommand::Prefixes)),
            Switch::Head => Some(("--head", Subcommand::Prefixes)),
            Switch::Long => Some(("--long", Subcommand::Plan)),
            Switch::All => Some(("--all", Subcommand::Plan)),
            Switch::Prune => Some(("--prune", Subcommand::Plan)),
            Switch::Zeros | Switch::Json | Switch::Usage | Switch::Manual | Switch::Version => None,
        }
    }
}

// An option with a value.
#[derive(Clone, Copy, Debug, PartialEq, Eq)]
enum Valued {
    Remote,
    Refmap,
}

fn valued_named(name: &[u8]) -> Option<Valued>
    ensures { result ≡ valued_named name.now }
{
    if name == b"--remote".as_slice() {
        Some(Valued::Remote)
    } else if name == b"--refmap".as_slice() {
        Some(Valued::Refmap)
    } else {
        None
    }
}

fn switch_named(name: &[u8]) -> Option<Switch>
    ensures { result ≡ switch_named name.now }
{
    if name == b"--json".as_slice() {
        Some(Switch::Json)
    } else if name == b"--verbose".as_slice() {
        Some(Switch::Verbose)
    } else if name == b"--push".as_slice() {
        Some(Switch::Push)
    } else if name == b"--patterns".as_slice() {
        Some(Switch::Patterns)
    } else if name == b"--head".as_slice() {
        Some(Switch::Head)
    } else if name == b"--long".as_slice() {
        Some(Switch::Long)
    } else if name == b"--all".as_slice() {
        Some(Switch::All)
    } else if name == b"--prune".as_slice() {
        Some(Switch::Prune)
    } else if name == b"--no-warnings".as_slice() {
        Some(Switch::NoWarnings)
    } else if name == b"--strict".as_slice() {
        Some(Switch::Strict)
    } else if name == b"--help".as_slice() {
        Some(Switch::Manual)
    } else if name == b"--version".as_slice() {
        Some(Switch::Version)
    } else {
        None
    }
}

fn switch_lettered(letter: u8) -> Option<Switch>
    ensures { result ≡ switch_lettered letter }
{
    match letter {
        b'z' => Some(Switch::Zeros),
        b'v' => Some(Switch::Verbose),
        b'h' => Some(Switch::Usage),
        _ => None,
    }
}

fn command_named(name: &[u8]) -> Option<Subcommand>
    ensures { result ≡ command_named name.now }
{
    if name == b"check".as_slice() {
        Some(Subcommand::Check)
    } else if name == b"plan".as_slice() {
        Some(Subcommand::Plan)
    } else if name == b"track".as_slice() {
        Some(Subcommand::Track)
    } else if name == b"prefixes".as_slice() {
        Some(Subcommand::Prefixes)
    } else if name == b"stale".as_slice() {
        Some(Subcommand::Stale)
    } else if name == b"upstream".as_slice() {
        Some(Subcommand::Upstream)
    } else if name == b"why".as_slice() {
        Some(Subcommand::Why)
    } else {
        None
    }
}

// Whether an argument begins with `-`, and has more.
fn is_option(argument: &[u8]) -> bool
    ensures { result ≡ is_option argument.now }
{
    1 < argument.len() && argument[0] == b'-'
}

// What is behind the `-` of an argument.
fn letters_of(argument: &[u8]) -> &[u8]
    requires { 1 < length argument.now }
    ensures { result.now ≡ drop 1 argument.now }
{
    &argument[1..]
}

// Whether an argument begins with `--`.
fn is_long(argument: &[u8]) -> bool
    ensures { result ≡ is_long argument.now }
{
    1 < argument.len() && argument[0] == b'-' && argument[1] == b'-'
}

// What an argument is that begins with `--`.
#[derive(Clone, Copy)]
enum Long<'a> {
    // An option whose value is the next argument.
    Lacking(Valued),
    // An option with its value after `=`.
    Valued(Valued, &'a [u8]),
    Switch(Switch),
}

// What an argument is that begins with `--`.
fn long_option(argument: &[u8]) -> Result<Long<'_>, Refusal<'_>>
    ensures { MatchResult result (IsLong argument.entry.now) (RefusesLong argument.entry.now) }
{
    match split_at_first(argument, b'=') {
        None => option_named(argument),
        Some((name, value)) => match valued_named(name) {
            Some(option) => Ok(Long::Valued(option, value)),
            None => match switch_named(name) {
                Some(_) => Err(Refusal::NeedlessValue(argument)),
                None => Err(Refusal::NoSuchOption(argument)),
            },
        },
    }
}

// What an argument is that begins with `--` and has no `=`.
fn option_named(argument: &[u8]) -> Result<Long<'_>, Refusal<'_>>
    requires { Lacks 61 argument.now }
    ensures { MatchResult result (IsLong argument.entry.now) (RefusesLong argument.entry.now) }
{
    match valued_named(argument) {
        Some(option) => Ok(Long::Lacking(option)),
        None => match switch_named(argument) {
            Some(switch) => Ok(Long::Switch(switch)),
            None => Err(Refusal::NoSuchOption(argument)),
        },
    }
}

// Adds the options that the letters of an argument name.
fn add_letters<'a>(
    switches: &mut Vec<Switch>,
    argument: &'a [u8],
    letters: &[u8],
) -> Result<(), Refusal<'a>>
    ensures ok { OnOk result ((more : List Switch) × AreLettered letters.now more
        × (switches.new.items ≡ switches.old.items ++ more)) }
    ensures refused { IfErr result (λ e. IsForMemory e ⊎ RefusesLetters argument.entry.now letters.now e) }
{
    for letter in letters {
        match switch_lettered(*letter) {
            None => return Err(Refusal::NoSuchOption(argument)),
            Some(switch) => switches.push(switch)?,
        }
    }
    Ok(())
}

// The options of a call so far.
#[derive(Drop)]
struct Options<'a> {
    switches: Vec<Switch>,
    remote: Option<&'a [u8]>,
    refmap: Vec<&'a [u8]>,
}

impl<'a> Options<'a> {
    fn new(alloc: Global) -> Options<'a>
        ensures { AreOptions [] result }
    {
        Options {
            switches: Vec::new(alloc),
            remote: None,
            refmap: Vec::new(alloc),
        }
    }

    // Sets or adds the value of an option.
    fn set_value(&mut self, option: Valued, value: &'a [u8]) -> Result<(), AllocError>
        ensures { OnOk result ((words : List Word) → AreOptions words self.old
            → AreOptions (words ++ valued option value.entry.now ∷ []) self.new) }
    {
        match option {
            Valued::Remote => {
                self.remote = Some(value);
                Ok(())
            }
            Valued::Refmap => Ok(self.refmap.push(value)?),
        }
    }

    // Whether an option without a value is given.
    fn has(&self, switch: Switch) -> bool
        ensures { IsTrue result ↔ Contains self.now.switches.items switch }
    {
        self.switches.as_slice().contains(&switch)
    }

    // Whether the remote that `--remote` names has an empty name.
    fn names_nothing(&self) -> bool
        ensures { IsTrue result ↔ (option_map (λ n. n.now) self.now.remote ≡ Some []) }
    {
        match self.remote {
            None => false,
            Some(name) => name.is_empty(),
        }
    }

    // Refuses an empty name of a remote, and what the command doesn't take.
    fn check(&self, command: Subcommand) -> Result<(), Refusal<'a>>
        ensures { MatchResult result
            (λ _. AllowsOptions command (option_map (λ n. n.now) self.now.remote) self.now.switches.items
            (map (λ s. s.now) self.now.refmap.items))
            (RefusesOptions command (option_map (λ n. n.now) self.now.remote) self.now.switches.items
            (map (λ s. s.now) self.now.refmap.items)) }
    {
        if self.names_nothing() {
            return Err(Refusal::NoRemoteName);
        }
        check_switches(command, self.switches.as_slice())?;
        check_refmap(command, self.refmap.as_slice())
    }

    // The form of the results. `--json` overrides `-z`.
    fn form(&self) -> Form
        ensures { IsForm self.now.switches.items result }
    {
        if self.has(Switch::Json) {
            return Form::Json;
        }
        if self.has(Switch::Zeros) {
            return Form::Zeros;
        }
        Form::Lines
    }
}

// Refuses the first option that only another command takes.
fn check_switches<'a>(command: Subcommand, switches: &[Switch]) -> Result<(), Refusal<'a>>
    ensures { MatchResult result (λ _. All (Takes command) switches.now)
        (RefusesGiven command switches.now) }
{
    for switch in switches {
        check_switch(command, *switch)?;
    }
    Ok(())
}

// Refuses an option that only another command takes.
fn check_switch<'a>(command: Subcommand, switch: Switch) -> Result<(), Refusal<'a>>
    ensures { MatchResult result (λ _. Takes command switch) (RefusesSwitch command switch) }
{
    match switch.owner() {
        None => Ok(()),
        Some((told, owner)) => {
            if is_same(command, owner) {
                return Ok(());
            }
            Err(Refusal::OptionElsewhere(told, owner.name()))
        }
    }
}

fn is_same(one: Subcommand, other: Subcommand) -> bool
    ensures { IsTrue result ↔ (one ≡ other) }
{
    one == other
}

// Refuses the specs of `--refmap`, which only plans take.
fn check_refmap<'a>(command: Subcommand, refmap: &[&[u8]]) -> Result<(), Refusal<'a>>
    ensures { MatchResult result (λ _. TakesRefmap command (map (λ s. s.now) refmap.now))
        (RefusesRefmap command (map (λ s. s.now) refmap.now)) }
{
    if refmap.is_empty() {
        return Ok(());
    }
    if is_same(command, Subcommand::Plan) {
        return Ok(());
    }
    Err(Refusal::OptionElsewhere("--refmap", Subcommand::Plan.name()))
}

// The command so far, and the texts behind it.
#[derive(Drop)]
struct Texts<'a> {
    command: Option<Subcommand>,
    arguments: Vec<&'a [u8]>,
}

impl<'a> Texts<'a> {
    fn new(alloc: Global) -> Texts<'a>
        ensures { HasTexts [] result }
    {
        Texts {
            command: None,
            arguments: Vec::new(alloc),
        }
    }

    // Adds a text: the command, if there is none yet.
    fn add(&mut self, argument: &'a [u8]) -> Result<(), Refusal<'a>>
        ensures ok { OnOk result ((texts : List (List ℕ)) → HasTexts texts self.old
            → HasTexts (texts ++ argument.entry.now ∷ []) self.new) }
        ensures refused { IfErr result
            (λ e. IsForMemory e ⊎ RefusesText self.old.command argument.entry.now e) }
    {
        match self.command {
            Some(_) => Ok(self.arguments.push(argument)?),
            None => match command_named(argument) {
                None => Err(Refusal::NoSuchCommand(argument)),
                Some(command) => {
                    self.command = Some(command);
                    Ok(())
                }
            },
        }
    }
}

// The arguments so far, parsed.
#[derive(Drop)]
struct Reading<'a> {
    options: Options<'a>,
    texts: Texts<'a>,
    // The option whose value is the next argument.
    wants: Option<Valued>,
    // How many texts behind the command preceded `--`, if it was there.
    dashes: Option<usize>,
}

impl<'a> Reading<'a> {
    fn new(alloc: Global) -> Reading<'a>
        ensures { HasRead [] result }
    {
        Reading {
            options: Options::new(alloc),
            texts: Texts::new(alloc),
            wants: None,
            dashes: None,
        }
    }

    // Takes the next argument.
    fn take(&mut self, argument: &'a [u8]) -> Result<(), Refusal<'a>>
        ensures ok { OnOk result ((seen : List (List ℕ)) → HasRead seen self.old
            → HasRead (seen ++ argument.entry.now ∷ []) self.new) }
        ensures refused { IfErr result (λ e. (seen : List (List ℕ)) → HasRead seen self.old
            → RefusesBehind seen argument.entry.now e) }
    {
        match self.wants {
            Some(option) => {
                self.wants = None;
                Ok(self.options.set_value(option, argument)?)
            }
            None => match self.dashes {
                Some(_) => self.texts.add(argument),
                None => self.take_first(argument),
            },
        }
    }

    // Takes the next argument, where no value is next, and no `--` was before.
    fn take_first(&mut self, argument: &'a [u8]) -> Result<(), Refusal<'a>>
        ensures ok { OnOk result ((seen : List (List ℕ)) → HasRead seen self.old → self.old.wants ≡ None
            → self.old.dashes ≡ None → HasRead (seen ++ argument.entry.now ∷ []) self.new) }
        ensures refused { IfErr result (λ e. (seen : List (List ℕ)) → HasRead seen self.old
            → self.old.wants ≡ None → self.old.dashes ≡ None → RefusesBehind seen argument.entry.now e) }
    {
        if argument == b"--".as_slice() {
            self.dashes = Some(self.texts.arguments.len());
            return Ok(());
        }
        if is_long(argument) {
            return self.take_long(argument);
        }
        if is_option(argument) {
            return add_letters(&mut self.options.switches, argument, letters_of(argument));
        }
        self.texts.add(argument)
    }

    // Takes an argument that begins with `--`, and isn't that.
    fn take_long(&mut self, argument: &'a [u8]) -> Result<(), Refusal<'a>>
        ensures ok { OnOk result ((seen : List (List ℕ)) → HasRead seen self.old → self.old.wants ≡ None
            → self.old.dashes ≡ None → HasRead (seen ++ argument.entry.now ∷ []) self.new) }
        ensures refused { IfErr result (λ e. IsForMemory e ⊎ RefusesLong argument.entry.now e) }
    {
        let long = long_option(argument)?;
        match long {
            Long::Lacking(option) => {
                self.wants = Some(option);
                Ok(())
            }
            Long::Valued(option, value) => Ok(self.options.set_value(option, value)?),
            Long::Switch(switch) => Ok(self.options.switches.push(switch)?),
        }
    }

    // What the arguments ask for, after the last.
    fn finish(self) -> Result<Purpose<'a>, Refusal<'a>>
        ensures ok { IfOk result (AsksFor (call_of self.entry)) }
        ensures refused { IfErr result (λ e. IsForCommand self.entry.options.switches.items
            × RefusesCommand (call_of self.entry) e) }
    {
        if self.options.has(Switch::Usage) {
            return Ok(Purpose::Usage);
        }
        if self.options.has(Switch::Manual) {
            return Ok(Purpose::Manual);
        }
        if self.options.has(Switch::Version) {
            return Ok(Purpose::Version);
        }
        let command = self.allowed_command()?;
        let request = request_of(command, self.options, self.texts, self.dashes);
        Ok(Purpose::Request(request))
    }

    // The command, if it takes each option, and each option has its value.
    fn allowed_command(&self) -> Result<Subcommand, Refusal<'a>>
        ensures { MatchResult result (IsAllowed (call_of self.now)) (RefusesCommand (call_of self.now)) }
    {
        match self.texts.command {
            None => Err(Refusal::NoCommand),
            Some(command) => match self.wants {
                Some(option) => Err(lacking(option)),
                None => {
                    self.options.check(command)?;
                    Ok(command)
                }
            },
        }
    }
}

// Why an option without its value is refused.
fn lacking<'a>(option: Valued) -> Refusal<'a>
    ensures { result ≡ lacking_value option }
{
    match option {
        Valued::Remote => Refusal::NoRemoteName,
        Valued::Refmap => Refusal::NoRefmap,
    }
}

// The request of a command with these options, and the texts behind it.
fn request_of<'a>(
    command: Subcommand,
    options: Options<'a>,
    texts: Texts<'a>,
    dashes: Option<usize>,
) -> Request<'a>
    ensures { (lacks : Option Valued) → texts.entry.command ≡ Some command → (result.command ≡ command)
        × IsRequest (call_with options.entry texts.entry lacks dashes) result }
{
    Request {
        command,
        form: options.form(),
        verbose: options.has(Switch::Verbose),
        push: options.has(Switch::Push),
        patterns: options.has(Switch::Patterns),
        head: options.has(Switch::Head),
        long: options.has(Switch::Long),
        all: options.has(Switch::All),
        prune: options.has(Switch::Prune),
        no_warnings: options.has(Switch::NoWarnings),
        strict: options.has(Switch::Strict),
        refmap: options.refmap,
        remote: options.remote,
        arguments: texts.arguments,
        dashes,
    }
}
