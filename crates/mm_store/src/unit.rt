//! The text that an edit brings.

ghost use Rattle.std.specs.Prelude.{◌≡◌, ◌+◌, ◌≤◌, ◌++◌, length, IfOk, IfErr};
ghost use Rattle.mm_text.specs.Language.Part.{HasOwnParts};
ghost use Rattle.mm_store.specs.Code.{Inside.{IsPieceKept}, Units.{IsUnit, IsUnitError, IsTextRefused}};

use crate::edit::EditError;
use crate::piece_text::{PieceText, kept_piece};
use crate::room::fits;
use bytes::Bytes;
use mm_text::{DividedCut, DividedPiece, divided_cut, one_unit_of_cut};
use std::alloc::{AllocError, Global};

/// A copy of bytes with others after them.
fn joined(alloc: Global, first: &[u8], rest: &[u8]) -> Result<Bytes, AllocError>
    ensures { IfOk result (λ bytes. bytes ≡ first.now ++ rest.now) }
{
    let mut all = Vec::from_slice(alloc, first)?;
    all.extend_from_slice(rest)?;
    Ok(Bytes::from_vec(all)?)
}

/// The whole text with its parts, and with a line feed added if it does not end in white space, if it is exactly one
/// unit.
fn read_unit(alloc: Global, text: &[u8]) -> Result<DividedPiece, EditError>
    ensures ok { IfOk result (λ unit. IsUnit text.now unit.text) }
    ensures parts { IfOk result HasOwnParts }
    ensures err { IfErr result (IsUnitError text.now) }
{
    one_unit_of_cut(); // A law: a text that is cut into one piece holds one unit.
    let whole = Bytes::copy_from_slice(alloc, text)?;
    let DividedCut { mut pieces, tail } = divided_cut(alloc, &whole)?;
    if pieces.len() != 1 {
        return Err(EditError::NotOne(pieces.len()));
    }
    let unit = pieces.pop().unwrap();
    let text = joined(alloc, unit.text.as_slice(), &tail)?;
    Ok(DividedPiece {
        text,
        parts: unit.parts,
    })
}

/// That text as it is kept, if files that hold this many bytes may have it too.
pub(crate) fn new_piece(alloc: Global, held: u64, text: &[u8]) -> Result<PieceText, EditError>
    ensures unit { IfOk result (λ piece. IsUnit text.now piece.text) }
    ensures kept { IfOk result IsPieceKept }
    ensures fits { IfOk result (λ piece. held + length piece.text ≤ 4294967295) }
    ensures err { IfErr result (IsTextRefused held text.now) }
{
    let unit = read_unit(alloc, text)?;
    if !fits(held, unit.text.len() as u64) {
        return Err(EditError::TooMany);
    }
    Ok(kept_piece(alloc, unit)?)
}
