//! The cut of a text into pieces.

ghost use Rattle.std.specs.Prelude.{◌≡◌, ◌≤◌, [], ◌∷◌, ◌++◌, None, IfOk, IfErr, OnOk, All, map, length, drop, slice_range};
ghost use Rattle.mm_text.specs.Language.{Reading.{first_bad, IsTextErrorIn}, Unit.{Units}, Part.{HasUnits, HasParts, HasOwnParts, IsReadable}, Cut.{ended, IsCut, IsCutError}};
ghost use Rattle.mm_text.specs.Language.Cut as pieces;

use crate::division::PartReading;
use crate::fault::{TextError, TextFault, TextNumber};
use crate::grammar::Grammar;
use crate::pieces::{Cut, DividedCut, DividedPiece};
use crate::reader::Reader;
use crate::spelling::{ends_white, white_len};
use crate::whole_text::first_bad_byte;
use bytes::Bytes;
use std::alloc::{AllocError, Global};

/// A copy of bytes, with a line feed after them if they do not end in white space.
fn ended_copy(alloc: Global, bytes: &[u8]) -> Result<Vec<u8>, AllocError>
    ensures { IfOk result (λ copy. copy.items ≡ ended bytes.now) }
{
    let mut copy = Vec::from_slice(alloc, bytes)?;
    if !ends_white(bytes) {
        copy.push(b'\n')?;
    }
    Ok(copy)
}

/// The bytes of a text from one place to another, with a line feed after them if they do not end in white space. They share
/// the memory of the text; only bytes that get a line feed are copied.
fn ended_part(alloc: Global, text: &Bytes, from: usize, end: usize) -> Result<Bytes, AllocError>
    requires start { from ≤ end }
    requires end { end ≤ length text.now }
    ensures { IfOk result (λ part. part ≡ ended (slice_range text.now from end)) }
{
    let bytes = &text.as_slice()[from..end];
    if ends_white(bytes) {
        return text.slice(from..end);
    }
    let copy = ended_copy(alloc, bytes)?;
    Ok(Bytes::from_vec(copy)?)
}

/// Puts a piece, the bytes of a text from one place to another, with the parts that were read of it after others; of the next
/// piece nothing is read.
fn push_piece(
    alloc: Global,
    text: &Bytes,
    from: usize,
    end: usize,
    parts: &mut PartReading,
    pieces: &mut Vec<DividedPiece>,
) -> Result<(), AllocError>
    requires start { from ≤ end }
    requires end { end ≤ length text.now }
    ensures texts { OnOk result
        (map (λ piece. piece.text) pieces.new.items ≡ map (λ piece. piece.text) pieces.old.items ++ ended (slice_range text.now from end) ∷ []) }
    ensures parts { OnOk result
        (All HasOwnParts pieces.old.items → HasParts (ended (slice_range text.now from end)) parts.old.parts.items → All HasOwnParts pieces.new.items) }
    ensures nothing { parts.new.parts.items ≡ [] }
    ensures first { parts.new.first ≡ None }
{
    let parts = parts.end_piece(alloc)?;
    let text = ended_part(alloc, text, from, end)?;
    pieces.push(DividedPiece { text, parts })?;
    Ok(())
}

/// Cuts the units off a text, whose bytes are all allowed, and reads the parts of each: it puts the pieces, which share the
/// memory of the text, into an empty list, and answers where the tail begins.
fn cut_units(
    alloc: Global,
    memory: &Bytes,
    text: &[u8],
    pieces: &mut Vec<DividedPiece>,
) -> Result<usize, TextError>
    requires same { memory.now ≡ text.now }
    requires allowed { first_bad text.now ≡ None }
    requires empty { pieces.old.items ≡ [] }
    ensures within { IfOk result (λ from. from ≤ length text.now) }
    ensures cut { IfOk result (λ from. IsCut text.now (map (λ piece. piece.text) pieces.new.items) (ended (drop from text.now))) }
    ensures fault { IfErr result (IsCutError text.now) }
    ensures parts { OnOk result (All HasOwnParts pieces.new.items) }
{
    let mut grammar = Grammar::new(alloc);
    let mut parts = PartReading::new(alloc);
    let mut reader = Reader::new(text);
    let mut from = 0;
    while let Some(word) = reader.next_word()? {
        grammar.read(&word, &text[word.start..word.end])?;
        parts.add(from, &word)?;
        if grammar.is_whole() {
            let end = word.end + white_len(&text[word.end..]);
            push_piece(alloc, memory, from, end, &mut parts, pieces)?;
            from = end;
        } else if grammar.is_within() {
            reader.skip_plain();
        }
    }
    match grammar.end() {
        Some(fault) => Err(TextError::Fault(fault)),
        None => Ok(from),
    }
}

/// The pieces of a text, each with one unit and with its parts, and its tail: `cut`, and the division of each piece,
/// in one reading.
///
/// The parts of a piece are its statements and inclusions, each `${` and each `$}`, in order. The pieces share the memory of
/// the text, so cutting copies none of it but a last piece that gets a line feed. An error is that of `cut`.
pub fn divided_cut(alloc: Global, text: &Bytes) -> Result<DividedCut, TextError>
    ensures cut { IfOk result (λ found. IsCut text.now (map (λ piece. piece.text) found.pieces.items) found.tail.items) }
    ensures fault { IfErr result (IsCutError text.now) }
    ensures parts { IfOk result (λ found. All HasOwnParts found.pieces.items) }

    // These follow: the fault is in the text, the words of each piece are whole units, and each part is a text with words.
    ensures fault_within { IfErr result (IsTextErrorIn text.now) }
    ensures units { IfOk result (λ found. All (λ piece. (units : Units) × HasUnits piece.text units) found.pieces.items) }
    ensures readable { IfOk result (λ found. All (λ piece. All (IsReadable piece.text) piece.parts.items) found.pieces.items) }
{
    let bytes = text.as_slice();
    if let Some(at) = first_bad_byte(bytes) {
        return Err(TextError::Fault(TextFault {
            number: TextNumber::T01,
            at,
        }));
    }
    let mut pieces = Vec::new(alloc);
    let from = cut_units(alloc, text, bytes, &mut pieces)?;
    let tail = ended_copy(alloc, &bytes[from..])?;
    Ok(DividedCut { pieces, tail })
}

/// Copies of the texts of pieces, in order.
fn texts_of(alloc: Global, pieces: Vec<DividedPiece>) -> Result<Vec<Vec<u8>>, AllocError>
    ensures { IfOk result (λ texts. map (λ text. text.items) texts.items ≡ map (λ piece. piece.text) pieces.items) }
{
    let mut texts = Vec::with_capacity(alloc, pieces.len())?;
    for piece in pieces {
        texts.push(Vec::from_slice(alloc, piece.text.as_slice())?)?;
    }
    Ok(texts)
}

/// The pieces of a text, each with one unit, and its tail.
///
/// A unit is a statement, an inclusion, or a block with the units inside it. A piece goes from the end of the piece
/// before it to the end of the white space after its unit: the comments in front of a unit are in its piece. The tail
/// is what follows the last piece. A text that does not end in white space is read as if a line feed followed it. The
/// pieces and the tail are copies, and in order they are the text.
///
/// An error is the first fault of the text, `T01` to `T12`, with the byte that it is reported at; or `Memory`, if
/// there was no room for the pieces. Every text without a fault is cut, the empty one too.
pub fn cut(alloc: Global, text: &[u8]) -> Result<Cut, TextError>
    ensures cut { IfOk result (λ found. IsCut text.now (map (λ piece. piece.items) found.pieces.items) found.tail.items) }
    ensures fault { IfErr result (IsCutError text.now) }

    // These follow: the fault is in the text, and the words of each piece are whole units.
    ensures fault_within { IfErr result (IsTextErrorIn text.now) }
    ensures units { IfOk result (λ found. All (λ piece. (units : Units) × HasUnits piece.items units) found.pieces.items) }
{
    let text = Bytes::copy_from_slice(alloc, text)?;
    let DividedCut { pieces, tail } = divided_cut(alloc, &text)?;
    let pieces = texts_of(alloc, pieces)?;
    Ok(Cut { pieces, tail })
}
