//! The items of the files.

use crate::key::PieceKey;

/// What an item is.
#[derive(Clone, Copy, Debug, PartialEq, Eq)]
pub enum ItemKind {
    /// `$c`
    Constants,
    /// `$v`
    Variables,
    /// `$d`
    Disjoint,
    /// `$f`
    Floating,
    /// `$e`
    Essential,
    /// `$a`
    Axiom,
    /// `$p`
    Theorem,
    /// `${`
    BlockStart,
    /// `$}`
    BlockEnd,
    /// The first reference to a file that is not there.
    Missing,
}

/// A statement, a beginning or an end of a block, or a reference to a missing file.
#[derive(Clone, Copy, Debug, PartialEq, Eq)]
pub struct Item {
    /// What it is.
    pub kind: ItemKind,
    /// The number of its file, from 0, in the order of adding.
    pub file: usize,
    /// The number of its piece in the file, from 0.
    pub piece: usize,
    /// The key of its piece.
    pub key: PieceKey,
    /// The first byte of its first word, from 0 in its piece.
    pub start: usize,
    /// The byte after its last word, from 0 in its piece.
    pub end: usize,
}
