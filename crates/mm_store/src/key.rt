//! Names of pieces.

/// A name for a piece that stays when other pieces come and go. No two pieces that are held have one key.
#[derive(Clone, Copy, Debug, PartialEq, Eq)]
pub struct PieceKey {
    pub(crate) at: usize,
}
