//! The parts of units.

/// What a part is.
#[derive(Clone, Copy, Debug, PartialEq, Eq)]
pub enum PartKind {
    /// A `$c` statement.
    Constants,
    /// A `$v` statement.
    Variables,
    /// A `$d` statement.
    Disjoint,
    /// A `$f` statement.
    Floating,
    /// A `$e` statement.
    Essential,
    /// A `$a` statement.
    Axiom,
    /// A `$p` statement.
    Theorem,
    /// A `${`.
    BlockStart,
    /// A `$}`.
    BlockEnd,
    /// A `$[`, the name of a file and a `$]`.
    Inclusion,
}

/// A statement, an inclusion, a `${` or a `$}`: the bytes from its first word to its last.
#[derive(Clone, Copy, Debug, PartialEq, Eq)]
pub struct Part {
    /// What the part is.
    pub kind: PartKind,
    /// The first byte of its first word, which is its label if it has one.
    pub start: usize,
    /// The byte after its last word.
    pub end: usize,
}
