//! What is returned if a session does not begin.

use mm_proof::{Files, StoreError};

/// The files of a session that did not begin, as they were passed in, and why: no file has the name of the top file, or
/// out of memory.
#[derive(Drop)]
pub struct Unbegun {
    /// The files, as they were passed in.
    pub files: Files,
    /// Why: `NoTop` or `Memory`.
    pub fault: StoreError,
}
