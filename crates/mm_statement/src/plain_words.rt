//! The words of an item, and those of them up to a keyword: its symbols, or the words of its proof.

ghost use Rattle.std.specs.{Prelude.{◌≡◌, ◌<◌, ◌≤◌, ◌∷◌, [], MatchOption, length}, List.{AllByRecursion, flat_map}};
ghost use Rattle.mm_statement.specs.Code.PlainWords.{AreFewWords, LiesInText, plain_bytes, word_bytes};
ghost use Rattle.mm_statement.specs.Language.Statement as spoken;

use mm_store::{Word, WordCursor, WordKind};
use std::marker::Model;

/// Whether a word is no keyword.
pub(crate) fn is_plain(kind: WordKind) -> bool
    ensures { result ≡ spoken.is_plain_kind kind }
{
    match kind {
        WordKind::Plain => true,
        WordKind::Keyword(_) => false,
    }
}

/// The bytes of a word.
pub(crate) fn bytes_of(text: &[u8], word: Word) -> &[u8]
    requires { LiesInText text.now word }
    ensures { result.now ≡ word_bytes text.now word }
{
    &text[word.start..word.end]
}

/// The symbols of an item, or the words of its proof, one after another, from some word on. It takes no memory.
#[derive(Drop)]
pub struct PlainWords<'a> {
    text: &'a [u8],
    cursor: WordCursor<'a>,
}

impl<'a> Model for PlainWords<'a> {
    ghost use Rattle.std.specs.Prelude.{ℕ, List};

    ghost Value = { List (List ℕ) };

    ghost use Rattle.mm_statement.specs.Code.KeptWords.{words_left, AreLeft};

    ghost view = { words_left };

    ghost invariant = { AreLeft };
}

impl<'a> PlainWords<'a> {
    /// The words up to the next keyword.
    pub(crate) fn new(text: &'a [u8], cursor: WordCursor<'a>) -> Self
        requires text { cursor.text ≡ text.now }
        requires few { AreFewWords (plain_bytes text.now cursor.words) }
        ensures { result ≡ plain_bytes text.now cursor.entry.words }
    {
        PlainWords { text, cursor }
    }

    /// The same words once more, from the one on that is next here: at most 4,294,967,295. Each has a byte at least, and
    /// together they have at most 4,294,967,295.
    pub fn again(&self) -> PlainWords<'a>
        ensures words { result ≡ self.now }
        ensures few { length self.now ≤ 4294967295 }
        ensures some { AllByRecursion (λ word. 0 < length word) self.now }
        ensures bytes { length (flat_map (λ word. word) self.now) ≤ 4294967295 }
    {
        PlainWords {
            text: self.text,
            cursor: self.cursor.again(),
        }
    }

    /// Goes on by a word, and gives it; `None` if no word is left.
    #[inline(always)]
    pub fn next_word(&mut self) -> Option<&'a [u8]>
        ensures { MatchOption result ((self.old ≡ []) × (self.new ≡ [])) (λ word. self.old ≡ word.now ∷ self.new) }
    {
        let mut ahead = self.cursor.again();
        let word = ahead.next_word()?;
        if !is_plain(word.kind) {
            return None;
        }
        self.cursor = ahead;
        Some(bytes_of(self.text, word))
    }
}
