//! The texts of pieces, as they are kept.

ghost use Rattle.std.specs.Prelude.{◌≡◌, All, IfOk, map};
ghost use Rattle.mm_text.specs.Language.Part.{HasOwnParts};
ghost use Rattle.mm_store.specs.Code.Inside.{CanBeKept, IsPieceKept};

use crate::kept_part::{KeptPart, kept_parts};
use crate::line_feeds::{Lines, lines_before, marks};
use bytes::Bytes;
use mm_text::DividedPiece;
use std::alloc::{AllocError, Global};

/// The text of a piece, and what is found of it once, when it is cut.
#[derive(Drop)]
pub struct PieceText {
    /// The bytes of the piece: a part of the text that it was cut from, whose memory its pieces share.
    pub(crate) text: Bytes,
    /// Its statements and inclusions, and the beginnings and ends of its blocks.
    pub(crate) parts: Vec<KeptPart>,
    /// The lines of its first kilobyte, of its first two, and so on.
    pub(crate) marks: Vec<Lines>,
    /// The lines of the whole text.
    pub(crate) lines: Lines,
}

/// A piece as it is kept.
pub(crate) fn kept_piece(alloc: Global, piece: DividedPiece) -> Result<PieceText, AllocError>
    requires text { CanBeKept piece.text }
    requires parts { HasOwnParts piece }
    ensures text { IfOk result (λ kept. kept.text ≡ piece.text) }
    ensures kept { IfOk result IsPieceKept }
{
    mm_text::parts_are_texts(); // A law: each part of a text of whole units is a text.
    let DividedPiece { text, parts } = piece;
    let parts = kept_parts(alloc, &parts)?;
    let marks = marks(alloc, text.as_slice())?;
    let lines = lines_before(text.as_slice(), &marks, text.len());
    Ok(PieceText {
        text,
        parts,
        marks,
        lines,
    })
}

/// Pieces as they are kept, in order.
pub(crate) fn kept_pieces(
    alloc: Global,
    pieces: Vec<DividedPiece>,
) -> Result<Vec<PieceText>, AllocError>
    requires texts { All (λ piece. CanBeKept piece.text) pieces.items }
    requires parts { All HasOwnParts pieces.items }
    ensures texts { IfOk result (λ kept. map (λ piece. piece.text) kept.items ≡ map (λ piece. piece.text) pieces.items) }
    ensures kept { IfOk result (λ kept. All IsPieceKept kept.items) }
{
    let mut kept = Vec::with_capacity(alloc, pieces.len())?;
    for piece in pieces {
        kept.push(kept_piece(alloc, piece)?)?;
    }
    Ok(kept)
}
