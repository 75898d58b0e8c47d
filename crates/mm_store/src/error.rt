//! Why a call on the files fails.

ghost use Rattle.std.specs.Prelude.{◌≡◌};
ghost use Rattle.mm_store.specs.declared.error.StoreError.TheVariants.{Memory, Text};

use mm_text::{TextError, TextFault};
use std::alloc::{AllocError, AllocFailed};
use thiserror::Error;

/// Why a text was not added, or the items not listed.
#[derive(Clone, Copy, Debug, PartialEq, Eq, Error)]
pub enum StoreError {
    /// The text has this fault, and it is its first.
    #[error("{0}")]
    Text(TextFault),
    /// The texts of the files would have more than 4,294,967,295 bytes.
    #[error("more than 4,294,967,295 bytes")]
    TooMany,
    /// A file has this name already.
    #[error("a file of this name is there")]
    Known,
    /// There is no file of the name of the top file.
    #[error("no top file")]
    NoTop,
    /// There was not enough memory. It says nothing of files and texts.
    #[error("out of memory")]
    Memory,
}

impl From<AllocError> for StoreError {
    ghost from_gives = { λ _ e. e ≡ Memory };

    fn from(_: AllocError) -> Self {
        StoreError::Memory
    }
}

impl<T: Drop> From<AllocFailed<T>> for StoreError {
    ghost from_gives = { λ _ e. e ≡ Memory };

    fn from(_: AllocFailed<T>) -> Self {
        StoreError::Memory
    }
}

impl From<TextError> for StoreError {
    ghost use Rattle.mm_store.specs.Language.Answers.{store_error_of};

    ghost from_gives = { λ e s. s ≡ store_error_of e };

    fn from(error: TextError) -> Self {
        match error {
            TextError::Fault(fault) => StoreError::Text(fault),
            TextError::Memory => StoreError::Memory,
        }
    }
}
