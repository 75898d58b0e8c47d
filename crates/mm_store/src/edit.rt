//! What edits name, and why they are refused.

ghost use Rattle.std.specs.Prelude.{◌≡◌, ◌↔◌, IsTrue};
ghost use Rattle.mm_store.specs.declared.edit.EditError.TheVariants.{Memory};
ghost use Rattle.mm_text.specs.Language.Asked.{asked, edited_name, IsAmong};

use mm_text::{Edit, TextError, TextFault};
use std::alloc::AllocError;
use thiserror::Error;

/// The name of the file that is edited.
pub fn edited_file<'a>(edit: &Edit<'a>) -> &'a [u8]
    ensures { result.now ≡ edited_name (asked edit.now) }
{
    match *edit {
        Edit::Insert { file, .. }
        | Edit::Replace { file, .. }
        | Edit::Delete { file, .. }
        | Edit::Move { file, .. } => file,
    }
}

/// Whether the places of an edit are there in a file of this many pieces.
pub fn is_among(edit: &Edit, count: usize) -> bool
    ensures { IsTrue result ↔ IsAmong (asked edit.now) count }
{
    match *edit {
        Edit::Insert { at, .. } => at <= count,
        Edit::Replace { at, .. } | Edit::Delete { at, .. } => at < count,
        Edit::Move { at, to, .. } => at < count && to < count,
    }
}

/// Why an edit is refused.
#[derive(Clone, Copy, Debug, PartialEq, Eq, Error)]
pub enum EditError {
    /// No file has this name.
    #[error("no such file")]
    NoFile,
    /// The file has only this many pieces.
    #[error("no such piece, of {0}")]
    NoPiece(usize),
    /// The text has this fault, and it is its first.
    #[error("{0}")]
    Text(TextFault),
    /// The text is not one unit, but this many.
    #[error("{0} units in place of one")]
    NotOne(usize),
    /// The texts of the files would have more than 4,294,967,295 bytes.
    #[error("more than 4,294,967,295 bytes")]
    TooMany,
    /// There was not enough memory. It says nothing of the text.
    #[error("out of memory")]
    Memory,
}

impl From<AllocError> for EditError {
    ghost from_gives = { λ _ e. e ≡ Memory };

    fn from(_: AllocError) -> Self {
        EditError::Memory
    }
}

impl From<TextError> for EditError {
    ghost use Rattle.mm_store.specs.Language.Answers.{edit_error_of};

    ghost from_gives = { λ e s. s ≡ edit_error_of e };

    fn from(error: TextError) -> Self {
        match error {
            TextError::Fault(fault) => EditError::Text(fault),
            TextError::Memory => EditError::Memory,
        }
    }
}
