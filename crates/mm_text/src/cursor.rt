//! A cursor over the words of a text.

ghost use Rattle.std.specs.{Prelude.{◌≡◌, ◌<◌, ◌≤◌, ◌∷◌, [], List, IfSome, MatchOption, length}, List.{AllByRecursion, flat_map}};
ghost use Rattle.mm_text.specs.{declared.word.Word.{Word}, Language.{Reading.{HasWords, LiesIn}, Unit.{spellings}, WordsLeft.{SkipsPlainWords}}};

use crate::reader::Reader;
use crate::word::Word;
use std::marker::Model;

/// The words of a text that has no fault, one after another, from some word on.
///
/// It takes no memory, and each byte of the text is gone through once.
#[derive(Drop)]
pub struct WordCursor<'a> {
    reader: Reader<'a>,
}

impl<'a> Model for WordCursor<'a> {
    ghost use Rattle.mm_text.specs.Language.WordsLeft.{WordsLeft};

    ghost Value = { WordsLeft };

    ghost use Rattle.mm_text.specs.Code.Cursor.{left_of, IsOver};

    ghost view = { left_of };

    ghost invariant = { IsOver };
}

impl<'a> WordCursor<'a> {
    /// A cursor before the first word of a text. Each word has a byte at least, and together they have no more bytes
    /// than the text.
    pub fn new(text: &'a [u8]) -> Self
        requires { (words : List Word) × HasWords text.now words }
        ensures text { result.text ≡ text.now }
        ensures words { HasWords text.now result.words }
        ensures only { (words : List Word) → HasWords text.now words → result.words ≡ words }
        ensures few { length result.words ≤ length text.now }
        ensures some { AllByRecursion (λ bytes. 0 < length bytes) (spellings text.now result.words) }
        ensures bytes { length (flat_map (λ bytes. bytes) (spellings text.now result.words)) ≤ length text.now }
    {
        WordCursor {
            reader: Reader::new(text),
        }
    }

    /// Another cursor before the same word.
    pub fn again(&self) -> WordCursor<'a>
        ensures { result ≡ self.now }
    {
        WordCursor {
            reader: self.reader,
        }
    }

    /// Goes on over plain words alone, as far as a search for the next `$` can say: most often to the next keyword.
    pub fn skip_plain(&mut self)
        ensures text { self.new.text ≡ self.old.text }
        ensures skips { SkipsPlainWords self.old.words self.new.words }
    {
        self.reader.skip_plain();
    }

    /// Goes on by a word, and gives it; `None` if no word is left.
    #[inline(always)]
    pub fn next_word(&mut self) -> Option<Word>
        ensures text { self.new.text ≡ self.old.text }
        ensures word { MatchOption result ((self.old.words ≡ []) × (self.new.words ≡ [])) (λ word. self.old.words ≡ word ∷ self.new.words) }
        ensures within { IfSome result (LiesIn self.old.text) }
    {
        match self.reader.next_word() {
            Ok(word) => word,
            // a text that has words has no fault
            Err(_) => unreachable!(),
        }
    }
}
