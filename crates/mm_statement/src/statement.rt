//! What an item of the files says.

ghost use Rattle.std.specs.{Prelude.{◌≡◌, ◌≢◌, ◌↔◌, ◌+◌, ◌<◌, ◌≤◌, false, None, IsTrue, IsFalse, IfSome, length, drop, is_some, slice_get}, List.{AllByRecursion}, Option.{option_map}};
ghost use Rattle.mm_store.specs.{Language.FileFacts.{CanBeRead}, mm_text.Language.Unit.{tokens_of}};
ghost use Rattle.mm_statement.specs.{Language.{Item.{first_symbol}, Statement.{AreOneRange, HasBytes, Says}}, Code.Occurring.{OccurIn}};
ghost use Rattle.mm_statement.specs.Code.PlainWords.{AreWordsOf, LiesInText, TakesLabel, plain_words, word_bytes};
ghost use Rattle.mm_statement.specs.Language.Item as meant;
ghost use Rattle.mm_statement.specs.Language.Statement as spoken;

use crate::laws::one_range_says_one;
use crate::plain_words::{PlainWords, bytes_of, is_plain};
use memchr::memmem;
use mm_store::{Files, Item, ItemKind, Word, WordCursor};
use std::marker::Model;

/// A statement or another item of the files, of which the kind and the label are at hand. Neither its symbols nor the words of
/// its proof are kept: they are words of the text of the item's piece.
#[derive(Drop)]
pub struct Statement<'a> {
    kind: ItemKind,
    label: Option<&'a [u8]>,
    /// The bytes of the item.
    text: &'a [u8],
    /// All their words, from the first one on: by these it is said what the statement means. No call reads them.
    words: WordCursor<'a>,
}

impl<'a> Model for Statement<'a> {
    ghost use Rattle.mm_statement.specs.{Language.Item.{Said}, Code.KeptStatement.{item_inside, IsSpoken}};

    ghost Value = { Said };

    ghost view = { item_inside };

    ghost invariant = { IsSpoken };
}

fn is_labelled(kind: ItemKind) -> bool
    ensures { result ≡ meant.is_labelled (spoken.kind_of kind) }
{
    matches!(
        kind,
        ItemKind::Floating | ItemKind::Essential | ItemKind::Axiom | ItemKind::Theorem
    )
}

/// The place of the first symbol among the words.
fn symbols_from(kind: ItemKind) -> usize
    ensures { result ≡ spoken.symbols_from (spoken.kind_of kind) }
{
    if is_labelled(kind) { 2 } else { 1 }
}

/// The bytes of an item of the files, and all their words.
fn words_of<'a>(files: &'a Files, item: &Item) -> (&'a [u8], WordCursor<'a>)
    requires { CanBeRead files.now item.now }
    ensures words { AreWordsOf result.0.now result.1 }
    ensures says { Says files.now item.now (spoken.item_of (spoken.kind_of item.now.kind) (tokens_of result.0.now result.1.words)) }
    ensures only { (said : meant.Said) → Says files.now item.now said
        → spoken.item_of (spoken.kind_of item.now.kind) (tokens_of result.0.now result.1.words) ≡ said }
{
    let text = &files.piece(item.key)[item.start..item.end];
    (text, WordCursor::new(text))
}

/// The first word of an item of this kind, if that is a label.
fn read_label(kind: ItemKind, words: &mut WordCursor) -> Option<Word>
    requires { 0 < length words.old.words }
    ensures text { words.new.text ≡ words.old.text }
    ensures label { TakesLabel (meant.is_labelled (spoken.kind_of kind)) words.old.words result words.new.words }
    ensures within { IfSome result (LiesInText words.old.text) }
{
    if is_labelled(kind) {
        words.next_word()
    } else {
        None
    }
}

/// The bytes of the label, if there is one.
fn label_bytes(text: &[u8], label: Option<Word>) -> Option<&[u8]>
    requires { IfSome label (LiesInText text.now) }
    ensures { option_map (λ bytes. bytes.now) result ≡ option_map (word_bytes text.now) label }
{
    match label {
        Some(word) => Some(bytes_of(text, word)),
        None => None,
    }
}

impl<'a> Statement<'a> {
    /// What an item of the files says, and its symbols, one after another, which are read when they are gone through. The bytes
    /// of the item are read up to its keyword. It takes no memory.
    pub fn read(files: &'a Files, item: &Item) -> (Self, PlainWords<'a>)
        requires { CanBeRead files.now item.now }
        ensures says { Says files.now item.now result.0 }
        ensures only { (said : meant.Said) → Says files.now item.now said → result.0 ≡ said }
        ensures symbols { result.1 ≡ result.0.symbols }
    {
        let (text, words) = words_of(files, item);
        let mut first = words.again();
        let label = read_label(item.kind, &mut first);
        first.next_word();
        let statement = Statement {
            kind: item.kind,
            label: label_bytes(text, label),
            text,
            words,
        };
        (statement, PlainWords::new(text, first))
    }

    /// What an item of the files says that is known to have this label. Nothing is read, and no memory is taken.
    pub fn known(files: &'a Files, item: &Item, label: Option<&'a [u8]>) -> Self
        requires read { CanBeRead files.now item.now }
        requires label { (said : meant.Said) → Says files.now item.now said → option_map (λ label. label.now) label ≡ said.label }
        ensures says { Says files.now item.now result }
        ensures only { (said : meant.Said) → Says files.now item.now said → result ≡ said }
    {
        let (text, words) = words_of(files, item);
        Statement {
            kind: item.kind,
            label,
            text,
            words,
        }
    }

    /// What the item is. Only a `$f`, `$e`, `$a` or `$p` has a label.
    pub fn kind(&self) -> ItemKind
        ensures kind { spoken.kind_of result ≡ self.now.kind }
        ensures unlabelled { meant.is_labelled self.now.kind ≡ false → self.now.label ≡ None }
    {
        self.kind
    }

    /// The label, of a `$f`, `$e`, `$a` or `$p`.
    pub fn label(&self) -> Option<&'a [u8]>
        ensures label { option_map (λ label. label.now) result ≡ self.now.label }
        ensures some { is_some result ≡ meant.is_labelled self.now.kind }
    {
        self.label
    }

    /// The place of the n-th symbol, counted from 0, among all words of the statement, which are counted from 0 as
    /// well, the label being the first. If n is the count of symbols, it is the place of the `$.` or `$=` after
    /// them.
    pub fn symbol_place(&self, n: usize) -> usize
        requires { n ≤ length self.now.symbols }
        ensures { result ≡ first_symbol self.now + n }
    {
        symbols_from(self.kind) + n
    }
}

/// The words of the proof of an item, from the first one on; none if it has no proof. The item's bytes are read up to
/// its proof. It takes no memory.
pub fn words_of_proof<'a>(files: &'a Files, item: &Item) -> PlainWords<'a>
    requires { CanBeRead files.now item.now }
    ensures words { (said : meant.Said) → Says files.now item.now said → result ≡ said.proof }
{
    let (text, words) = words_of(files, item);
    PlainWords::new(text, behind_symbols(item.kind, words))
}

/// The n-th word of the proof of an item, counted from 0, by its bytes among those of the item; if n is the count of
/// these words, the `$.` after them. The words before the `$=` are passed over. It takes no memory.
pub fn nth_of_proof(files: &Files, item: &Item, n: usize) -> Option<Word>
    requires { CanBeRead files.now item.now }
    ensures { (said : meant.Said) → (says : Says files.now item.now said)
        → result ≡ slice_get says.read.words (spoken.symbols_from said.kind + length said.symbols + 1 + n) }
{
    let bytes = files.piece(item.key);
    let text = &bytes[item.start..item.end];
    let mut words = behind_symbols(item.kind, WordCursor::new(text));
    for _number in 0..n {
        words.next_word()?;
    }
    words.next_word()
}

/// The words of an item of this kind after the one that closes its symbols.
fn behind_symbols<'a>(kind: ItemKind, words: WordCursor<'a>) -> WordCursor<'a>
    requires { 0 < length words.words }
    ensures text { result.text ≡ words.entry.text }
    ensures rest { result.words ≡ drop (spoken.symbols_from (spoken.kind_of kind)
        + length (spoken.symbols_in (spoken.kind_of kind) (tokens_of words.entry.text words.entry.words)) + 1) words.entry.words }
{
    let mut words = words;
    read_label(kind, &mut words);
    words.next_word();
    pass_symbols(&mut words);
    words
}

/// Goes past the next keyword. Most often its `$` is the next one, and the words before it are not looked at.
fn pass_symbols(words: &mut WordCursor)
    ensures text { words.new.text ≡ words.old.text }
    ensures rest { words.new.words ≡ drop (length (plain_words words.old.words) + 1) words.old.words }
{
    loop {
        words.skip_plain();
        match words.next_word() {
            Some(word) if is_plain(word.kind) => (),
            _ => return,
        }
    }
}

/// Whether the proofs of two items have the same words. The same range of one piece is not looked at; else the words are
/// read up to the first that differs. It takes no memory.
pub fn same_proof(files: &Files, one: &Item, other: &Item) -> bool
    requires one { CanBeRead files.now one.now }
    requires other { CanBeRead files.now other.now }
    ensures { (said told : meant.Said) → Says files.now one.now said → Says files.now other.now told
        → IsTrue result ↔ (said.proof ≡ told.proof) }
{
    if is_same_range(one, other) {
        // A law: the same bytes say the same.
        one_range_says_one();
        return true;
    }
    same_words(words_of_proof(files, one), words_of_proof(files, other))
}

/// Whether these bytes occur one after another in a text. A text that is shorter is not looked at, and neither are the bytes.
fn occurs(text: &[u8], bytes: &[u8]) -> bool
    ensures { IsTrue result ↔ OccurIn text.now bytes.now }
{
    if text.len() < bytes.len() {
        return false;
    }
    memmem::find(text, bytes).is_some()
}

/// Whether these bytes occur one after another somewhere in those of an item. If they do not, no word of its proof is
/// spelled like this. The words are not looked for. It takes the time of a search of the item, and constant time if the item
/// is shorter than the bytes. It takes no memory.
pub fn has_bytes(files: &Files, item: &Item, bytes: &[u8]) -> bool
    requires { CanBeRead files.now item.now }
    ensures found { IsTrue result ↔ HasBytes files.now item.now bytes.now }
    ensures absent { IsFalse result → (said : meant.Said) → Says files.now item.now said → AllByRecursion (λ word. word ≢ bytes.now) said.proof }
{
    let piece = files.piece(item.key);
    occurs(&piece[item.start..item.end], bytes)
}

/// Whether two items are the same bytes of one piece, read as the same kind. Nothing is read.
pub fn is_same_range(one: &Item, other: &Item) -> bool
    ensures { IsTrue result ↔ AreOneRange one.now other.now }
{
    one.key == other.key
        && one.start == other.start
        && one.end == other.end
        && one.kind == other.kind
}

/// Whether the words that are left are the same.
fn same_words(one: PlainWords, other: PlainWords) -> bool
    ensures { IsTrue result ↔ (one.entry ≡ other.entry) }
{
    let mut one = one;
    let mut other = other;
    loop {
        match (one.next_word(), other.next_word()) {
            (None, None) => return true,
            (Some(mine), Some(yours)) if *mine == *yours => (),
            _ => return false,
        }
    }
}
