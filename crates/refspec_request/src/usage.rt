//! The texts of `-h` and `--version`.

/// The synopses.
pub const USAGE: &str =
    "usage: git refspec check [-v] [--push] [--strict] [--no-warnings] [<remote> | <spec>]...
   or: git refspec plan [--long] [--all] [--prune] [--refmap <spec>]... [<remote>] [<spec>...]
   or: git refspec stale [<remote>] [<spec>...]
   or: git refspec track <ref>...
   or: git refspec upstream [<branch>...]
   or: git refspec why <ref> [<remote>]
   or: git refspec prefixes [--patterns] [--head] [<remote>] [<spec>...]
";

/// What the commands and the options do, after the synopses.
pub const OPTIONS: &str = "
    check                 report each fetch or push value of a remote, or each spec, that is refused, and warn of others
    plan                  show what git fetch would write
    stale                 list the refs here that git fetch --prune would delete
    track                 show which refs of which remotes tracking refs come from
    upstream              show which tracking refs are the upstreams of branches
    why                   show why git fetch takes a ref of the remote, or doesn't
    prefixes              list the ref prefixes to ask the server for

    -z                    end each field with a zero byte
    --json                write one JSON object a line, refusals too
    --remote <name>       the remote; all other arguments are specs
    -v, --verbose         check: list valid values too
    --push                check: the given specs are for a push
    --strict              check: exit with status 1 for a warning too
    --no-warnings         check: report what is refused, and no warnings
    --patterns            prefixes: write patterns for git ls-remote
    --head                prefixes: ask for HEAD too
    --long                plan: show each mapping with its spec, and not below it
    --all                 plan: list every conflict and all that is left out, not the first 20
    --prune               plan: list the refs that git fetch --prune would delete too
    --refmap <spec>       plan: a spec to use instead of the fetch values; an empty one for none
    -h                    print this help
    --help                show the manual
    --version             print the version

The first argument is a remote if one is configured by that name, or a URL or a path; after -- it is a spec if in doubt.
Without a remote, the one is taken that git fetch takes.
The exit status is 0 if all is well, 1 if something is refused, conflicts, is missing or isn't found, 2 for a usage
error, 3 if a file, a device or memory fails, and that of Git where Git fails.
";

/// The version.
pub const VERSION: &str = "git refspec 0.45.1\n";
