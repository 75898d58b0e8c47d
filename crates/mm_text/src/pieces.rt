//! The pieces of a text.

use crate::part::Part;
use bytes::Bytes;

/// The pieces of a text, each with one unit, and what follows them.
#[derive(Debug, Drop)]
pub struct Cut {
    /// The texts of the pieces, in order. Each ends in white space.
    pub pieces: Vec<Vec<u8>>,
    /// The rest of the text: comments and white space.
    pub tail: Vec<u8>,
}

/// A piece with its parts.
#[derive(Debug, Drop)]
pub struct DividedPiece {
    /// The text of the piece. It ends in white space. Pieces share the memory of the text that was cut.
    pub text: Bytes,
    /// Its statements and inclusions, each `${` and each `$}`, in order, with their bytes in the piece.
    pub parts: Vec<Part>,
}

/// The pieces of a text, each with one unit and with its parts, and what comes after them.
#[derive(Debug, Drop)]
pub struct DividedCut {
    /// The pieces, in order.
    pub pieces: Vec<DividedPiece>,
    /// The rest of the text: comments and white space.
    pub tail: Vec<u8>,
}
