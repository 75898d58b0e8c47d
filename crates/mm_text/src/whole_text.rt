//! The words of a whole text.

ghost use Rattle.std.specs.{Prelude.{◌≡◌, ◌<◌, List, None, IfOk, IfErr, IfSome, OnOk, All, slice_get}, List.{list_all}};
ghost use Rattle.mm_text.specs.{declared.word.Word.{Word}, Language.{Run.{runs}, Reading.{first_bad, is_allowed, HasWords, IsWordsError, IsTextErrorIn, LiesIn, AreWithin}}};
ghost use Rattle.mm_text.specs.Code.LeftToRight.{read_runs, read_text, GivesWords};

use crate::cursor::WordCursor;
use crate::fault::{TextError, TextFault, TextNumber};
use crate::reader::Reader;
use crate::spelling::is_text_byte;
use crate::word::Word;
use std::alloc::Global;

/// Whether a text may hold each of its bytes. It goes on to the end in any case, and so by many bytes at once.
fn is_all_text(text: &[u8]) -> bool
    ensures { result ≡ list_all is_allowed text.now }
{
    let mut all = true;
    for at in 0..text.len() {
        all &= is_text_byte(text[at]);
    }
    all
}

/// The first byte that no text may hold.
pub fn first_bad_byte(text: &[u8]) -> Option<usize>
    ensures { result ≡ first_bad text.now }
{
    if is_all_text(text) {
        return None;
    }
    text.iter().position(|byte| !is_text_byte(*byte))
}

fn read_words(alloc: Global, text: &[u8]) -> Result<Vec<Word>, TextError>
    ensures { GivesWords result (read_runs None (runs text.now)) }
{
    let mut words = Vec::new(alloc);
    let mut reader = Reader::new(text);
    while let Some(word) = reader.next_word()? {
        words.push(word)?;
    }
    Ok(words)
}

fn read_all(alloc: Global, text: &[u8]) -> Result<Vec<Word>, TextError>
    ensures { GivesWords result (read_text text.now) }
{
    if let Some(at) = first_bad_byte(text) {
        return Err(TextError::Fault(TextFault {
            number: TextNumber::T01,
            at,
        }));
    }
    read_words(alloc, text)
}

/// The words of a text outside comments, in order, each with its kind and the bytes that spell it.
///
/// An error is the first fault of the text, `T01` to `T05`, with the byte that it is reported at; or `Memory`, if
/// there was no room for the words. Every text without a fault is read, the empty one too. The text is gone
/// through twice: once for bytes that no text may hold, since that fault goes before all others, and once for
/// its words.
pub fn words(alloc: Global, text: &[u8]) -> Result<Vec<Word>, TextError>
    ensures words { IfOk result (λ found. HasWords text.now found.items) }
    ensures fault { IfErr result (IsWordsError text.now) }

    // These follow: where the fault and the words are, and that every byte is ASCII.
    ensures fault_within { IfErr result (IsTextErrorIn text.now) }
    ensures within { IfOk result (λ found. AreWithin text.now found.items) }
    ensures ascii { OnOk result (All (λ byte. byte < 127) text.now) }
{
    read_all(alloc, text)
}

/// The word with the number `n` outside comments, counted from 0, of a text that has no fault; `None` if the
/// text has no more than `n` words.
///
/// It takes no memory: the text is read from its beginning up to this word.
pub fn nth_word(text: &[u8], n: usize) -> Option<Word>
    requires { (words : List Word) × HasWords text.now words }
    ensures nth { (words : List Word) → HasWords text.now words → result ≡ slice_get words n }
    ensures within { IfSome result (LiesIn text.now) }
{
    let mut cursor = WordCursor::new(text);
    for _number in 0..n {
        cursor.next_word()?;
    }
    cursor.next_word()
}
