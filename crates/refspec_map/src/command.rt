//! The commands of the program.

/// What the program does with its input.
#[derive(Clone, Copy, Debug, PartialEq, Eq)]
pub enum Command {
    /// Reads each line as a spec for a fetch, and writes `ok` and its canonical text, or `err` and the name
    /// of the reason why it is refused.
    CanonFetch,
    /// The same for a push.
    CanonPush,
    /// Reads specs for a fetch and the refs of a remote, and writes the mappings from left to right.
    Lhs,
    /// Reads specs for a fetch and local refs, and writes the mappings from right to left.
    Rhs,
    /// Reads what `Lhs` reads, and writes the mappings that remain after validation, and a fix for each
    /// mapping that was removed because its destination neither begins with `refs/` nor is `HEAD`. If
    /// several sources are mapped to one destination, it writes each such conflict instead.
    Plan,
}
