//! A call of the program: its command, options and arguments.

use bstr::BStr;
use gix_refspec::parsing::Operation;

/// A command of the program.
#[derive(Clone, Copy, Debug, PartialEq, Eq)]
pub enum Command {
    /// Reports which specs are refused, and why.
    Check,
    /// Says in a sentence what each spec does.
    Explain,
    /// Prints the canonical text of each spec.
    Canon,
    /// Shows which refs a fetch writes, given the refs of a remote.
    Plan,
    /// Lists the local refs that a pruning fetch deletes, given the refs of a remote.
    Stale,
    /// Shows the remote refs that tracking refs are fetched from.
    Track,
    /// Lists the ref prefixes to request from a server.
    Prefixes,
    /// Shows the tracking refs that Git takes for the upstreams of branches, given the refs that these merge.
    Upstream,
    /// Prints what `git fetch --prefetch` applies in place of each spec.
    Prefetch,
    /// Prints what `git remote rename` makes of each text.
    Rename,
    /// Shows what each spec does with one ref of a remote.
    Why,
}

/// How results are written.
#[derive(Clone, Copy, Debug, PartialEq, Eq)]
pub enum Form {
    /// Lines for people, with names quoted if needed.
    Lines,
    /// Raw fields, each ended by a zero byte.
    Zeros,
    /// One JSON object a line, refusals too.
    Json,
}

/// How many of a kind of messages are reported, as conflicts, left out mappings or notes. In JSON all are.
#[derive(Clone, Copy, Debug, PartialEq, Eq)]
pub enum Limit {
    /// All.
    All,
    /// The first 20.
    Twenty,
}

/// What ends a record of the input.
#[derive(Clone, Copy, Debug, PartialEq, Eq)]
pub enum Terminator {
    /// A newline.
    Newline,
    /// A zero byte.
    Zero,
    /// A zero byte, with two records per setting: its origin, and its key, a newline and its value, as
    /// `git config --show-origin -z --get-regexp` prints them.
    Settings,
}

/// A call of the program, from its arguments.
#[derive(Debug, Drop)]
pub struct Call<'a> {
    pub command: Command,
    pub operation: Operation,
    pub form: Form,
    pub ends: Terminator,
    /// Valid specs are shown too.
    pub verbose: bool,
    /// Prefixes are shown as patterns.
    pub patterns: bool,
    /// Each mapping of a plan is shown in one line with its spec, rather than below it.
    pub long: bool,
    /// How many conflicts and how many left out mappings are reported.
    pub limit: Limit,
    /// `check` warns about valid specs too.
    pub warns: bool,
    /// The exit status of `check` is 1 if it warns about something.
    pub is_strict: bool,
    /// Messages go to a terminal.
    pub is_watched: bool,
    /// The specs among the arguments.
    pub specs: Vec<&'a str>,
    /// The tracking refs among the arguments; for `why` the refs of the remote that it is asked about.
    pub refs: Vec<&'a str>,
    /// The refs that the current branch merges; for `upstream` those whose upstreams it shows, and for `prefixes` those
    /// that it asks for, with `HEAD`.
    pub merges: Vec<BStr<'a>>,
    /// The name of the remote that `rename` renames.
    pub remote: &'a str,
    /// Its new name.
    pub new_remote: &'a str,
    /// A plan fetches all tags too; `prefixes` asks for them.
    pub tags: bool,
    /// A plan reports the local refs that a pruning fetch deletes too.
    pub prune: bool,
    /// Whether the input is read: a plan, `stale` and `why` read the refs of the remote there, and other calls their
    /// specs, unless those are all among the arguments.
    pub reads_input: bool,
    /// The name of the input in messages.
    pub input: &'a str,
    /// The name in messages of the file of specs that is read beside the input.
    pub beside: &'a str,
    /// The name in messages of the file of configured specs.
    pub configured: &'a str,
    /// The name in messages of the file of local refs; for `why` that names no ref of the remote, the local ref that it is
    /// asked about.
    pub local: &'a str,
}

/// The bytes of the files that a call reads beside its input. A file that it doesn't read is empty.
#[derive(Clone, Copy, Debug)]
pub struct Files<'a> {
    /// Specs; in a call that reads settings, configured ones.
    pub specs: &'a [u8],
    /// Configured specs.
    pub configured: &'a [u8],
    /// Local refs.
    pub local: &'a [u8],
}

/// A call, and the files that it reads beside its input.
#[derive(Clone, Copy, Debug)]
pub struct Job<'a> {
    pub call: &'a Call<'a>,
    pub files: &'a Files<'a>,
}

/// A call, and what it reads.
#[derive(Clone, Copy, Debug)]
pub struct Task<'a> {
    /// The call.
    pub call: &'a Call<'a>,
    /// The bytes of its input; empty if it reads none.
    pub input: &'a [u8],
    /// The bytes of its local refs.
    pub local: &'a [u8],
    /// How many of its specs are given; those behind them are configured.
    pub given: usize,
}
