//! Which items a theorem cites, by the words of its proof that cite.

ghost use Rattle.std.specs.{Prelude.{◌≡◌, ◌<◌, ◌≤◌, ◌+◌, ◌↔◌, ℕ, List, IsTrue, drop, length, slice_get, slice_index}, Option.{option_map}};
ghost use Rattle.mm_proof.specs.mm_frame.Language.{Base.{BaseView}, Resolving.{IsCarrier}, Answering.{IsBase}};
ghost use Rattle.mm_keep.specs.Language.{Citations.{CitesItem}, Sessions.{IsAssertion}};
ghost use Rattle.mm_keep.specs.Code.Cited.{AreRising, HasChecks, HasLabelAmong, HasPlaceFor, HasPlaces, IsAmongCited, MarksMore, OfChecks, passed_words};

use crate::checks::{Checks, KeptCheck};
use mm_proof::{Base, Files, PlainWords, cites_rise, cites_tell, has_own_labels, words_of_proof};

/// The word after this many others, if there is one. It is passed, and so are those before it.
fn word_behind<'a>(words: &mut PlainWords<'a>, count: usize) -> Option<&'a [u8]>
    ensures word { option_map (λ word. word.now) result ≡ slice_get words.old count }
    ensures left { words.new ≡ drop (count + 1) words.old }
{
    for _i in 0..count {
        words.next_word();
    }
    words.next_word()
}

/// How many words are before the word that cites at this place, and after the one that cites before it.
fn between(check: &KeptCheck, x: usize) -> usize
    requires rise { AreRising check.now.cites }
    requires within { x < length check.now.cites }
    ensures { passed_words check.now.cites x + result ≡ slice_index check.now.cites x }
{
    if x == 0 {
        check.cite(0)
    } else {
        check.cite(x) - check.cite(x - 1) - 1
    }
}

/// The word that cites at this place. It is passed, and so are those before it.
fn cited_word<'a>(words: &mut PlainWords<'a>, check: &KeptCheck, x: usize) -> Option<&'a [u8]>
    requires rise { AreRising check.now.cites }
    requires within { x < length check.now.cites }
    ensures word { (all : List (List ℕ)) → words.old ≡ drop (passed_words check.now.cites x) all
        → option_map (λ word. word.now) result ≡ slice_get all (slice_index check.now.cites x) }
    ensures left { (all : List (List ℕ)) → words.old ≡ drop (passed_words check.now.cites x) all → words.new ≡ drop (passed_words check.now.cites (x + 1)) all }
{
    word_behind(words, between(check, x))
}

/// Marks the item that has this label.
fn mark(base: &Base, label: &[u8], marks: &mut [bool])
    requires { HasPlaceFor base.now label.now (length marks.old) }
    ensures { (view : BaseView) → IsBase view base.now → MarksMore (IsCarrier view label.now) marks.old marks.new }
{
    if let Some(k) = base.find(label) {
        marks[k] = true;
    }
}

/// Marks the items whose labels are words that cite.
fn mark_words(base: &Base, words: PlainWords, check: &KeptCheck, marks: &mut [bool])
    requires rise { AreRising check.now.cites }
    requires places { HasPlaces base.now words check.now.cites (length marks.old) }
    ensures { (view : BaseView) → IsBase view base.now
        → MarksMore (HasLabelAmong view words.entry check.now.cites (length check.now.cites)) marks.old marks.new }
{
    let mut words = words;
    for x in 0..check.count() {
        if let Some(word) = cited_word(&mut words, check, x) {
            mark(base, word, &mut *marks);
        }
    }
}

/// Whether one of the words that cite is this label.
fn has_label(words: PlainWords, check: &KeptCheck, label: &[u8]) -> bool
    requires { AreRising check.now.cites }
    ensures { IsTrue result ↔ IsAmongCited words.entry check.now.cites (length check.now.cites) label.now }
{
    let mut words = words;
    for x in 0..check.count() {
        if let Some(word) = cited_word(&mut words, check, x) {
            if word == label {
                return true;
            }
        }
    }
    false
}

/// Marks what the item with this number cites. The words of its proof are read up to the last one that cites.
pub fn mark_cites(files: &Files, base: &Base, checked: &Checks, j: usize, marks: &mut [bool])
    requires item { HasChecks files.now base.now checked.now (λ view. j < length view) }
    requires places { j ≤ length marks.old }
    ensures { OfChecks files.now base.now checked.now (λ view. MarksMore (CitesItem view j) marks.old marks.new) }
{
    cites_rise(); // A law: the words that cite rise.
    cites_tell(); // A law: the words that cite are the labels that steps name.
    has_own_labels(); // A law: two sound items with one label are one.
    if let Some(check) = checked.get(j) {
        let words = words_of_proof(files, base.item(j));
        mark_words(base, words, check, marks);
    }
}

/// Whether the item with this number cites the one with this label.
pub fn cites_label(files: &Files, base: &Base, checked: &Checks, j: usize, label: &[u8]) -> bool
    requires { HasChecks files.now base.now checked.now (λ view. j < length view) }
    ensures { OfChecks files.now base.now checked.now (λ view. (i : ℕ) → IsAssertion view label.now i → IsTrue result ↔ CitesItem view j i) }
{
    cites_rise(); // A law: the words that cite rise.
    cites_tell(); // A law: the words that cite are the labels that steps name.
    has_own_labels(); // A law: two sound items with one label are one.
    match checked.get(j) {
        Some(check) => {
            let words = words_of_proof(files, base.item(j));
            has_label(words, check, label)
        }
        None => false,
    }
}
