//! What is found of an item.

use mm_proof::{FrameNumber, ProofNumber};

/// A place in the text of one of the files.
#[derive(Clone, Copy, Debug, PartialEq, Eq)]
pub struct At {
    /// The number of the file, from 0, in the order of adding.
    pub file: usize,
    /// The line, from 1.
    pub line: u64,
    /// The column, from 1, in bytes.
    pub column: u64,
}

/// What is found of an item.
#[derive(Clone, Copy, Debug)]
pub enum Finding<'a> {
    /// Neither at fault nor an `$a` or a `$p`.
    Quiet,
    /// A sound `$a`.
    Axiom,
    /// A sound `$p` whose proof proves it.
    Proved,
    /// A sound `$p` whose proof has a step that is not known, the first one at this place, and no fault before it.
    Incomplete(At),
    /// A sound `$p` whose proof has this fault, at this place.
    Wrong(ProofNumber, At),
    /// A fault of the item, the place of the word at fault, and the text of this word.
    Fault(FrameNumber, At, &'a [u8]),
}
