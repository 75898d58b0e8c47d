//! Words and their kinds.

/// The keywords of the language: a `$` and one more character each.
///
/// The marks of a comment, `$(` and `$)`, are no words: comments are left out.
#[derive(Clone, Copy, Debug, PartialEq, Eq)]
pub enum Keyword {
    /// `${` opens a block.
    BlockStart,
    /// `$}` closes a block.
    BlockEnd,
    /// `$c` declares constants.
    Constants,
    /// `$v` declares variables.
    Variables,
    /// `$f` gives a variable its typecode.
    Floating,
    /// `$e` states an essential hypothesis.
    Essential,
    /// `$d` keeps variables disjoint.
    Disjoint,
    /// `$a` states an axiom.
    Axiom,
    /// `$p` states a theorem.
    Theorem,
    /// `$.` ends a statement.
    StatementEnd,
    /// `$=` goes before a proof.
    ProofStart,
    /// `$[` goes before the name of a file to be included.
    InclusionStart,
    /// `$]` comes after that name.
    InclusionEnd,
}

/// What a word is.
#[derive(Clone, Copy, Debug, PartialEq, Eq)]
pub enum WordKind {
    /// A label, a math symbol, a word of a proof or a file's name: printable characters other than `$`.
    Plain,
    /// This keyword, by itself.
    Keyword(Keyword),
}

/// A word, and where it is: the bytes of the text from `start` to before `end` spell it.
#[derive(Clone, Copy, Debug, PartialEq, Eq)]
pub struct Word {
    /// What the word is.
    pub kind: WordKind,
    /// Its first byte, counted from 0.
    pub start: usize,
    /// The byte after its last, counted from 0: white space, or the end of the text.
    pub end: usize,
}
