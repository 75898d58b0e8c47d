//! What is wrong with a text.

ghost use Rattle.std.specs.Prelude.{◌≡◌};
ghost use Rattle.mm_text.specs.declared.fault.TextError.TheVariants.{Memory, Fault};

use std::alloc::{AllocError, AllocFailed};
use thiserror::Error;

/// The kinds of fault that a text can have, and the byte that each is reported at.
///
/// `T01` comes before all others. Of the rest a text has the one that is found first when it is read from its
/// beginning; `T02`, `T07` and `T08` are found at its end, and the lowest number counts there.
#[derive(Clone, Copy, Debug, PartialEq, Eq)]
pub enum TextNumber {
    /// A byte that is neither printable (0x21 to 0x7E) nor white space, in a comment too. At the first such
    /// byte.
    T01,
    /// A comment is not ended. At its `$(`.
    T02,
    /// A word in a comment holds `$(` or `$)`, and is not the `$)` that ends it. At the word.
    T03,
    /// The word `$)` outside comments. At the word.
    T04,
    /// A word outside comments holds `$` and is no keyword. At the word.
    T05,
    /// A word that no statement, block or inclusion has at this place, and for which no later number holds. At
    /// the word.
    T06,
    /// A statement or an inclusion is not finished. At its first word.
    T07,
    /// A block is not closed. At the innermost open `${`.
    T08,
    /// `$}` where a statement might begin and no block is open. At the word.
    T09,
    /// `$[` inside a block, a statement or an inclusion, but not right after another `$[`. At the word.
    T10,
    /// A plain word where a statement might begin, with a character that no label has. At the word.
    T11,
    /// A keyword right after `$[`, in the place of the name of a file. At the word.
    T12,
}

/// A fault of a text.
#[derive(Clone, Copy, Debug, PartialEq, Eq, Error)]
#[error("{number:?} at byte {at}")]
pub struct TextFault {
    /// What is wrong.
    pub number: TextNumber,
    /// The byte that it is reported at, counted from 0. `place` gives its line and column.
    pub at: usize,
}

/// Why a text was not read.
#[derive(Clone, Copy, Debug, PartialEq, Eq, Error)]
pub enum TextError {
    /// The text has this fault, and it is its first.
    #[error("{0}")]
    Fault(TextFault),
    /// There was not enough memory for the words or the pieces. It says nothing of the text.
    #[error("out of memory")]
    Memory,
}

impl From<AllocError> for TextError {
    ghost from_gives = { λ _ e. e ≡ Memory };

    fn from(_: AllocError) -> Self {
        TextError::Memory
    }
}

impl<T: Drop> From<AllocFailed<T>> for TextError {
    ghost from_gives = { λ _ e. e ≡ Memory };

    fn from(_: AllocFailed<T>) -> Self {
        TextError::Memory
    }
}

impl From<TextFault> for TextError {
    ghost from_gives = { λ fault e. e ≡ Fault fault };

    fn from(fault: TextFault) -> Self {
        TextError::Fault(fault)
    }
}
