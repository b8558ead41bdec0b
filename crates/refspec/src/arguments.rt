//! The arguments of the call.

use bstr::BStr;
use clap::{Arg, ArgAction, ArgMatches};
use gix_refspec::name::name_partial;
use gix_refspec::parse;
use gix_refspec::parsing::{Error, Operation};
use refspec_io::call::{Call, Command, Form, Limit, Terminator};
use std::alloc::{AllocError, Global};

// The argument that means the standard input, for a spec or the name of a file.
const INPUT: &str = "-";

/// The command line, with its help. Fails if memory runs out.
pub fn command_line<'a>(alloc: Global) -> Result<clap::Command<'a>, AllocError> {
    clap::Command::new(alloc, "refspec")
        .version("0.45.1")
        .about(
            "Says whether Git refspecs are right, what they mean, and what a fetch with them writes.",
        )
        .subcommand_required(true)
        .arg_required_else_help(true)
        .disable_help_subcommand(true)
        .after_help(
            "Results go to the standard output, messages to the standard error.\nThe exit status is 0 if all is well, 1 if something is refused, is missing, conflicts, is left out or isn't found, 2 for a usage error, and 3 if a file, a device or memory fails.",
        )
        .subcommand(check_line(alloc)?)?
        .subcommand(explain_line(alloc)?)?
        .subcommand(canon_line(alloc)?)?
        .subcommand(plan_line(alloc)?)?
        .subcommand(stale_line(alloc)?)?
        .subcommand(track_line(alloc)?)?
        .subcommand(prefixes_line(alloc)?)?
        .subcommand(upstream_line(alloc)?)?
        .subcommand(prefetch_line(alloc)?)?
        .subcommand(rename_line(alloc)?)?
        .subcommand(why_line(alloc)?)?
        .subcommand(git_line(alloc)?)
}

// The command that the script `git-refspec` calls.
fn git_line<'a>(alloc: Global) -> Result<clap::Command<'a>, AllocError> {
    clap::Command::new(alloc, "git")
        .hide(true)
        .about(
            "Answers a call of `git refspec`, whose words and whose repository are in the files of a folder",
        )
        .arg(
            Arg::new(alloc, "folder")
                .value_name("FOLDER")
                .action(ArgAction::Set)
                .required(true),
        )
}

// A command that may read its specs from the input, with the options that all commands have.
fn line<'a>(alloc: Global, name: &'a str, about: &'a str) -> Result<clap::Command<'a>, AllocError> {
    line_of(
        alloc,
        name,
        about,
        "A refspec. Without any, or for `-`, specs are read from the input, one a line",
    )
}

// A command with the options that all commands have, and a help text for its specs.
fn line_of<'a>(
    alloc: Global,
    name: &'a str,
    about: &'a str,
    specs: &'a str,
) -> Result<clap::Command<'a>, AllocError> {
    with_specs(alloc, clap::Command::new(alloc, name).about(about), specs)
}

// A command with the options that all commands have after its own arguments, and a help text for its specs.
fn with_specs<'a>(
    alloc: Global,
    command: clap::Command<'a>,
    specs: &'a str,
) -> Result<clap::Command<'a>, AllocError> {
    command
        .arg(
            Arg::new(alloc, "spec")
                .value_name("SPEC")
                .num_args(0..)
                .action(ArgAction::Append)
                .help(specs),
        )?
        .arg(
            Arg::new(alloc, "specs")
                .long("specs")
                .value_name("FILE")
                .action(ArgAction::Set)
                .help("Reads specs from this file too, or from the standard input for `-`"),
        )?
        .arg(flag(
            alloc,
            "zero",
            "Reads and writes raw records that end with a zero byte; messages quote names",
        )
        .short('z'))?
        .arg(flag(
            alloc,
            "read-zero",
            "Reads records that end with a zero byte, and writes lines",
        )
        .long("read-z"))?
        .arg(flag(alloc, "json", "Writes one JSON object a line, refusals too").long("json"))
}

// An option without a value.
fn flag<'a>(alloc: Global, id: &'a str, help: &'a str) -> Arg<'a> {
    Arg::new(alloc, id).action(ArgAction::SetTrue).help(help)
}

// The option for specs of a push.
fn push_flag<'a>(alloc: Global) -> Arg<'a> {
    flag(
        alloc,
        "push",
        "The specs are for a push, and not for a fetch",
    )
    .long("push")
}

fn check_line<'a>(alloc: Global) -> Result<clap::Command<'a>, AllocError> {
    line(
        alloc,
        "check",
        "Reports each refspec that is refused, with the reason, and warns of what valid ones do together",
    )?
    .arg(push_flag(alloc))?
    .arg(
        flag(
            alloc,
            "verbose",
            "Reports valid specs too, and which say the same as an earlier one",
        )
        .short('v')
        .long("verbose"),
    )?
    .arg(flag(
        alloc,
        "config",
        "Reads what `git config --show-origin -z --get-regexp` prints",
    )
    .long("config"))?
    .arg(flag(alloc, "strict", "Exits with status 1 for a warning too").long("strict"))?
    .arg(flag(
        alloc,
        "no-warnings",
        "Reports refused specs alone, and no warnings",
    )
    .long("no-warnings"))
}

fn explain_line<'a>(alloc: Global) -> Result<clap::Command<'a>, AllocError> {
    line(
        alloc,
        "explain",
        "Says in a sentence what each refspec does",
    )?
    .arg(push_flag(alloc))
}

fn canon_line<'a>(alloc: Global) -> Result<clap::Command<'a>, AllocError> {
    line(alloc, "canon", "Prints the canonical text of each refspec")?.arg(push_flag(alloc))
}

fn plan_line<'a>(alloc: Global) -> Result<clap::Command<'a>, AllocError> {
    line_of(
        alloc,
        "plan",
        "Shows what a fetch with these refspecs writes",
        "A refspec. The refs are read from the input, one a line",
    )?
    .arg(refs_option(alloc))?
    .arg(
        Arg::new(alloc, "configured")
            .long("configured")
            .value_name("FILE")
            .action(ArgAction::Set)
            .help("Reads the specs of the configuration from this file"),
    )?
    .arg(
        Arg::new(alloc, "merge")
            .long("merge")
            .value_name("REF")
            .num_args(1)
            .action(ArgAction::Append)
            .help("The full name of a ref that the current branch merges; may be given again"),
    )?
    .arg(flag(alloc, "tags", "Fetches all tags too").long("tags"))?
    .arg(local_option(
        alloc,
        "Reads local refs from this file, and lists those that a pruning fetch deletes too",
    ))?
    .arg(flag(
        alloc,
        "long",
        "Shows each mapping with its spec, and not below it",
    )
    .long("long"))?
    .arg(flag(
        alloc,
        "all",
        "Shows every conflict and all that is left out, and not only the first 20 of each",
    )
    .long("all"))
}

fn stale_line<'a>(alloc: Global) -> Result<clap::Command<'a>, AllocError> {
    line_of(
        alloc,
        "stale",
        "Lists the local refs that a pruning fetch with these refspecs deletes",
        "A refspec. The refs of the remote are read from the input, one a line",
    )?
    .arg(refs_option(alloc))?
    .arg(local_option(alloc, "Reads the local refs from this file").required(true))
}

// The option for the refs of the remote.
fn refs_option<'a>(alloc: Global) -> Arg<'a> {
    Arg::new(alloc, "refs")
        .long("refs")
        .value_name("FILE")
        .action(ArgAction::Set)
        .help("Reads the refs of the remote from this file, and not from the standard input")
}

// The option for local refs.
fn local_option<'a>(alloc: Global, help: &'a str) -> Arg<'a> {
    Arg::new(alloc, "local")
        .long("local")
        .value_name("FILE")
        .action(ArgAction::Set)
        .help(help)
}

fn track_line<'a>(alloc: Global) -> Result<clap::Command<'a>, AllocError> {
    line(
        alloc,
        "track",
        "Shows from which refs of the remote the tracking refs are fetched",
    )?
    .arg(
        Arg::new(alloc, "ref")
            .long("ref")
            .value_name("NAME")
            .num_args(1)
            .action(ArgAction::Append)
            .required(true)
            .help("The full name of a tracking ref; may be given again"),
    )
}

fn prefixes_line<'a>(alloc: Global) -> Result<clap::Command<'a>, AllocError> {
    line(
        alloc,
        "prefixes",
        "Lists the ref prefixes to ask a server for",
    )?
    .arg(flag(
        alloc,
        "patterns",
        "Writes patterns for `git ls-remote` instead of arguments of protocol v2",
    )
    .long("patterns"))?
    .arg(push_flag(alloc))?
    .arg(flag(
        alloc,
        "tags",
        "Asks for all tags too, as a client does that follows tags",
    )
    .long("tags"))?
    .arg(flag(alloc, "head", "Asks for HEAD too, as a clone does").long("head"))?
    .arg(
        Arg::new(alloc, "merge")
            .long("merge")
            .value_name("REF")
            .num_args(1)
            .action(ArgAction::Append)
            .help("A ref to ask for too, which the current branch merges; may be given again"),
    )
}

fn upstream_line<'a>(alloc: Global) -> Result<clap::Command<'a>, AllocError> {
    line(
        alloc,
        "upstream",
        "Shows the tracking ref that Git takes for the upstream of a branch",
    )?
    .arg(
        Arg::new(alloc, "merge")
            .long("merge")
            .value_name("REF")
            .num_args(1)
            .action(ArgAction::Append)
            .required(true)
            .help("The full name of the ref that the branch merges; may be given again"),
    )
}

fn prefetch_line<'a>(alloc: Global) -> Result<clap::Command<'a>, AllocError> {
    line(
        alloc,
        "prefetch",
        "Prints what `git fetch --prefetch` applies in place of each refspec",
    )
}

fn rename_line<'a>(alloc: Global) -> Result<clap::Command<'a>, AllocError> {
    let command = clap::Command::new(alloc, "rename")
        .about("Prints what `git remote rename` makes of each fetch value of a remote")
        .arg(
            Arg::new(alloc, "old")
                .value_name("OLD")
                .action(ArgAction::Set)
                .required(true)
                .help("The name of the remote"),
        )?
        .arg(
            Arg::new(alloc, "new")
                .value_name("NEW")
                .action(ArgAction::Set)
                .required(true)
                .help("Its new name"),
        )?;
    with_specs(
        alloc,
        command,
        "A value. Without any, or for `-`, values are read from the input, one a line",
    )
}

fn why_line<'a>(alloc: Global) -> Result<clap::Command<'a>, AllocError> {
    line_of(
        alloc,
        "why",
        "Shows what each refspec of a fetch does with one ref of the remote, or with a local one",
        "A refspec",
    )?
    .arg(
        Arg::new(alloc, "ref")
            .long("ref")
            .value_name("NAME")
            .num_args(1)
            .action(ArgAction::Set)
            .required_unless_present("local-ref")?
            .help("The full name of a ref of the remote, such as refs/heads/main"),
    )?
    .arg(
        Arg::new(alloc, "local-ref")
            .long("local")
            .value_name("NAME")
            .num_args(1)
            .action(ArgAction::Set)
            .conflicts_with("ref")?
            .help("The full name of a local ref instead, such as refs/remotes/origin/main"),
    )?
    .arg(
        Arg::new(alloc, "refs")
            .long("refs")
            .value_name("FILE")
            .action(ArgAction::Set)
            .help(
                "Reads the refs of the remote from this file, or from the standard input for `-`",
            ),
    )
}

/// The call for the matches of a command, from which it borrows. It names its inputs, and is watched only once the caller says
/// so, who knows the terminal. Fails if memory runs out.
pub fn call_of<'a>(
    alloc: Global,
    name: &str,
    matches: &ArgMatches<'a>,
) -> Result<Call<'a>, AllocError> {
    let (specs, has_dash) = specs_of(alloc, matches)?;
    let command = command_of(name);
    let reads_refs = has_refs(command);
    let file = matches.get_str("specs");
    // The standard input and a file may both have specs.
    let (input, beside) = match (reads_refs, has_dash, file) {
        (true, true, _) => (or_else(matches.get_str("refs"), INPUT), INPUT),
        (true, false, _) => (or_else(matches.get_str("refs"), INPUT), or_else(file, "")),
        (false, true, _) => (INPUT, or_else(file, "")),
        (false, false, _) => (or_else(file, INPUT), ""),
    };
    Ok(Call {
        command,
        operation: operation_of(matches),
        form: form_of(matches),
        ends: ends_of(matches),
        verbose: matches.get_flag("verbose"),
        patterns: matches.get_flag("patterns"),
        long: matches.get_flag("long"),
        limit: limit_of(matches),
        warns: !matches.get_flag("no-warnings"),
        is_strict: matches.get_flag("strict"),
        is_watched: false,
        reads_input: match command {
            Command::Why => matches.get_str("refs").is_some(),
            _ => reads_refs || has_dash || file.is_some() || specs.is_empty(),
        },
        specs,
        refs: listed(alloc, matches, "ref")?,
        merges: merges_of(alloc, matches)?,
        remote: or_else(matches.get_str("old"), ""),
        new_remote: or_else(matches.get_str("new"), ""),
        tags: matches.get_flag("tags"),
        prune: matches.get_str("local").is_some(),
        input,
        beside,
        configured: or_else(matches.get_str("configured"), ""),
        local: or_else(
            matches.get_str("local"),
            or_else(matches.get_str("local-ref"), ""),
        ),
    })
}

// The specs in the arguments, and whether the standard input is among them.
fn specs_of<'a>(
    alloc: Global,
    matches: &ArgMatches<'a>,
) -> Result<(Vec<&'a str>, bool), AllocError> {
    let mut specs = listed(alloc, matches, "spec")?;
    let count = specs.len();
    specs.retain(|spec| *spec != INPUT);
    let has_dash = specs.len() < count;
    Ok((specs, has_dash))
}

// How many messages of a kind are reported.
fn limit_of(matches: &ArgMatches<'_>) -> Limit {
    if matches.get_flag("all") {
        Limit::All
    } else {
        Limit::Twenty
    }
}

// The operation of specs without a setting.
fn operation_of(matches: &ArgMatches<'_>) -> Operation {
    if matches.get_flag("push") {
        Operation::Push
    } else {
        Operation::Fetch
    }
}

/// Whether the input of a command is refs of a remote.
pub fn has_refs(command: Command) -> bool {
    matches!(command, Command::Plan | Command::Stale | Command::Why)
}

// The refs that branches merge. A call that asks for `HEAD` too asks for that first.
fn merges_of<'a>(alloc: Global, matches: &ArgMatches<'a>) -> Result<Vec<BStr<'a>>, AllocError> {
    let mut merges = Vec::new(alloc);
    if matches.get_flag("head") {
        merges.push(BStr::new(b"HEAD"))?;
    }
    for name in listed(alloc, matches, "merge")? {
        merges.push(BStr::new(name.as_bytes()))?;
    }
    Ok(merges)
}

/// Whether the specs of a command that reads refs are given in two inputs: by `-` and in a file.
pub fn names_two_inputs(name: &str, matches: &ArgMatches<'_>) -> bool {
    let has_dash = match matches.get_strs("spec") {
        None => false,
        Some(arguments) => arguments.iter().any(|argument| *argument == INPUT),
    };
    let is_file = matches.get_str("specs").is_some_and(|file| file != INPUT);
    has_refs(command_of(name)) && has_dash && is_file
}

/// The first name that `prefixes` is to ask for and that no ref can have.
pub fn invalid_merge<'a>(name: &str, matches: &ArgMatches<'a>) -> Option<&'a str> {
    if command_of(name) != Command::Prefixes {
        return None;
    }
    for merge in matches.get_strs("merge")? {
        if name_partial(BStr::new(merge.as_bytes())).is_err() {
            return Some(*merge);
        }
    }
    None
}

/// Whether Git takes a text for the name of a remote: it can be a folder of tracking refs. Fails if memory runs out.
pub fn is_remote_name(alloc: Global, name: &str) -> Result<bool, AllocError> {
    let text = format!(in alloc; "refs/heads/test:refs/remotes/{name}/test")?;
    match parse(alloc, BStr::new(text.as_bytes()), Operation::Fetch) {
        Ok(_) => Ok(true),
        Err(Error::Memory) => Err(AllocError),
        Err(_) => Ok(false),
    }
}

/// Whether an option for a file has an empty name.
pub fn names_no_file(matches: &ArgMatches<'_>) -> bool {
    ["specs", "refs", "configured", "local"]
        .iter()
        .any(|option| matches.get_str(option) == Some(""))
}

// The values of an option, or of an argument that may be repeated, in order.
fn listed<'a>(
    alloc: Global,
    matches: &ArgMatches<'a>,
    id: &str,
) -> Result<Vec<&'a str>, AllocError> {
    let mut all = Vec::new(alloc);
    if let Some(values) = matches.get_strs(id) {
        for value in values {
            all.push(*value)?;
        }
    }
    Ok(all)
}

fn or_else<'a>(argument: Option<&'a str>, other: &'a str) -> &'a str {
    match argument {
        Some(argument) => argument,
        None => other,
    }
}

fn command_of(name: &str) -> Command {
    match name {
        "check" => Command::Check,
        "explain" => Command::Explain,
        "canon" => Command::Canon,
        "plan" => Command::Plan,
        "stale" => Command::Stale,
        "track" => Command::Track,
        "upstream" => Command::Upstream,
        "prefetch" => Command::Prefetch,
        "rename" => Command::Rename,
        "why" => Command::Why,
        _ => Command::Prefixes,
    }
}

// The form of the results.
fn form_of(matches: &ArgMatches<'_>) -> Form {
    if matches.get_flag("json") {
        return Form::Json;
    }
    if matches.get_flag("zero") {
        return Form::Zeros;
    }
    Form::Lines
}

// The terminator of the records of the input.
fn ends_of(matches: &ArgMatches<'_>) -> Terminator {
    if matches.get_flag("config") {
        return Terminator::Settings;
    }
    if matches.get_flag("zero") || matches.get_flag("read-zero") {
        return Terminator::Zero;
    }
    Terminator::Newline
}
