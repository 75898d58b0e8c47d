//! Where words of items and spots of proofs are.

ghost use Rattle.std.specs.Prelude.{◌≡◌, ◌≤◌, ◌+◌, ℕ, List, true, IfSome};
ghost use Rattle.mm_proof.specs.{mm_text.Language.Reading.{LiesIn}, mm_store.Language.FileFacts.{CanBeRead, StandsIn}, mm_frame.Language.Base.{BaseView, is_proof_at}};
ghost use Rattle.mm_keep.specs.Code.{KeyedTold.{IsKeyedPlaceOfSpot, IsKeyedShown, word_spelling, word_start}, OfFiles.{IsOf, HasSpotOf, IsPlaceIn}};

use crate::finding::At;
use mm_proof::{Base, Files, Item, Place, Spot, Word, nth_of_proof, nth_word};

/// A word, and the place where it begins.
#[derive(Clone, Copy)]
pub struct Seen<'a> {
    pub at: At,
    pub word: &'a [u8],
}

/// Where a word begins; 0 if there is none.
fn start_of(word: Option<Word>) -> usize
    ensures { result ≡ word_start word }
{
    match word {
        Some(word) => word.start,
        None => 0,
    }
}

/// How a word of a text is spelled; no bytes if there is none.
fn spelled(text: &[u8], word: Option<Word>) -> &[u8]
    requires { IfSome word (LiesIn text.now) }
    ensures { result.now ≡ word_spelling text.now word }
{
    match word {
        Some(word) => &text[word.start..word.end],
        None => &[],
    }
}

/// The place of a letter of a word that begins at this byte of the text of an item; the letter is counted from the
/// beginning of the word. It may be the end of that text.
fn place_in(files: &Files, item: &Item, word: usize, letter: usize) -> At
    requires read { CanBeRead files.now item.now }
    requires stands { StandsIn files.now item.now }
    requires within { item.now.start + (word + letter) ≤ item.now.end }
    ensures { IsPlaceIn files.now item.now (word + letter) result }
{
    let Place { line, column } = files.place(item.file, item.piece, item.start + (word + letter));
    At {
        file: item.file,
        line,
        column,
    }
}

/// A word of an item, with the place where it begins.
pub fn seen_at<'a>(files: &'a Files, item: &Item, word: usize) -> Seen<'a>
    requires read { CanBeRead files.now item.now }
    requires stands { StandsIn files.now item.now }
    ensures { IsKeyedShown files.now item.now word (record { at = result.at; word = result.word.now }) }
{
    let text = &files.piece(item.key)[item.start..item.end];
    let found = nth_word(text, word);
    Seen {
        at: place_in(files, item, start_of(found), 0),
        word: spelled(text, found),
    }
}

/// The place of a spot in the proof of the sound theorem with this number. It takes no memory; the bytes of the item are
/// read up to the spot, those of the symbols only for the `$=` after them.
pub fn place_of_spot(files: &Files, base: &Base, number: usize, spot: Spot) -> At
    requires { HasSpotOf files.now base.now number spot }
    ensures { (names : List (List ℕ)) (view : BaseView) → IsOf names files.now base.now view → is_proof_at view number ≡ true
        → IsKeyedPlaceOfSpot files.now base.now.items view number spot result }
{
    let item = base.item(number);
    let word = nth_of_proof(files, item, spot.word);
    place_in(files, item, start_of(word), spot.letter)
}
