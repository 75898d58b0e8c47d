//! How refusals are printed; out of memory is printed as nothing.

use mm_report::{BatchError, EditError, KeepError, ScriptError, StoreError};

/// How files refuse a text or a name.
pub(crate) fn store_code(error: StoreError) -> Option<&'static str> {
    match error {
        StoreError::Text(_) => Some("S03"),
        StoreError::TooMany => Some("S05"),
        StoreError::Known => Some("S06"),
        StoreError::NoTop => Some("S07"),
        StoreError::Memory => None,
    }
}

/// How an edit is refused.
pub(crate) fn edit_code(error: EditError) -> Option<&'static str> {
    match error {
        EditError::NoFile => Some("S01"),
        EditError::NoPiece(_) => Some("S02"),
        EditError::Text(_) => Some("S03"),
        EditError::NotOne(_) => Some("S04"),
        EditError::TooMany => Some("S05"),
        EditError::Memory => None,
    }
}

/// How a batch of edits is refused.
pub(crate) fn batch_code(error: BatchError) -> Option<&'static str> {
    match error {
        BatchError::Edit(_, error) => edit_code(error),
        BatchError::Memory => None,
    }
}

/// How a question is refused.
pub(crate) fn keep_code(error: KeepError) -> Option<&'static str> {
    match error {
        KeepError::NoAssertion => Some("K01"),
        KeepError::Memory => None,
    }
}

/// How a script ends before its end.
pub(crate) fn script_code(error: ScriptError) -> Option<&'static str> {
    match error {
        ScriptError::BadLine => Some("C01"),
        ScriptError::Cut => Some("C02"),
        ScriptError::Read => Some("C03"),
        ScriptError::Write => Some("C04"),
        ScriptError::Memory => None,
    }
}
