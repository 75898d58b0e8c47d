//! Edits of files that are lists of pieces.

/// An edit of one file, by its name: of its pieces, counted from 0.
#[derive(Clone, Copy, Debug)]
pub enum Edit<'a> {
    /// A new piece, of this text, before the piece `at`; after the last if `at` is their count.
    Insert {
        /// The name of the file.
        file: &'a [u8],
        /// At most the count of the pieces.
        at: usize,
        /// One unit, with white space and comments around it.
        text: &'a [u8],
    },
    /// A new piece, of this text, in the place of the piece `at`.
    Replace {
        /// The name of the file.
        file: &'a [u8],
        /// Less than the count of the pieces.
        at: usize,
        /// One unit, with white space and comments around it.
        text: &'a [u8],
    },
    /// The piece `at` is taken out.
    Delete {
        /// The name of the file.
        file: &'a [u8],
        /// Less than the count of the pieces.
        at: usize,
    },
    /// The piece `at` is taken out and put back as piece `to`.
    Move {
        /// The name of the file.
        file: &'a [u8],
        /// Less than the count of the pieces.
        at: usize,
        /// Less than the count of the pieces.
        to: usize,
    },
}
