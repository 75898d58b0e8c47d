//! The words of the command line.

/// What the program has to do.
#[derive(Clone, Copy, Debug, PartialEq, Eq)]
pub enum Invocation<'a> {
    /// Verify this file and write its report.
    Verify(&'a str),
    /// List the axioms that the assertion with the second word as its label rests on, in the database of the first.
    Axioms(&'a str, &'a str),
    /// Begin a session over this file, and answer a script.
    Session(&'a str),
}
