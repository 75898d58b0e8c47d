//! Why a script ends early.

ghost use Rattle.std.specs.Prelude.{◌≡◌};
ghost use Rattle.mm_script.specs.declared.error.ScriptError.TheVariants as errors;

use crate::stream::WriteFailed;
use std::alloc::{AllocError, AllocFailed};
use thiserror::Error;

/// Why a script ends early: in its reading, or in the answers to it.
#[derive(Clone, Copy, Debug, PartialEq, Eq, Error)]
pub enum ScriptError {
    /// A line is no command, or in a batch no edit; or another byte than a line feed follows a text.
    #[error("a line is no command")]
    BadLine,
    /// The script ends inside a text, before the line feed after it, or with edits of a batch missing.
    #[error("the script is cut short")]
    Cut,
    /// A read has failed.
    #[error("a read failed")]
    Read,
    /// A write of an answer has failed. No call that reads answers it.
    #[error("a write failed")]
    Write,
    /// There was not enough memory.
    #[error("out of memory")]
    Memory,
}

impl From<AllocError> for ScriptError {
    ghost from_gives = { λ _ e. e ≡ errors.Memory };

    fn from(_: AllocError) -> Self {
        ScriptError::Memory
    }
}

impl From<WriteFailed> for ScriptError {
    ghost from_gives = { λ _ e. e ≡ errors.Write };

    fn from(_: WriteFailed) -> Self {
        ScriptError::Write
    }
}

impl<T: Drop> From<AllocFailed<T>> for ScriptError {
    ghost from_gives = { λ _ e. e ≡ errors.Memory };

    fn from(_: AllocFailed<T>) -> Self {
        ScriptError::Memory
    }
}
