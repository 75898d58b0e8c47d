//! Whether two theorems have the same view: all that the verdicts on their proofs depend on.

ghost use Rattle.std.specs.{Prelude.{◌≡◌, ◌↔◌, true, ℕ, List, Some, IsTrue, IsFalse, filter, length}, List.{AllByRecursion, before_first}};
ghost use Rattle.mm_frame.specs.{mm_store.Language.FileFacts.{CanBeRead}, Language.{Base.{BaseView, is_framed_at, is_proof_at}, Resolving.{IsCarrier, Resolves}, Answering.{IsBase, IsBaseBy}}};
ghost use Rattle.mm_frame.specs.mm_statement.Language.Statement.{Says};
ghost use Rattle.mm_proof.specs.Code.KeptMarks.{AreTheorems, IsOneCarrier, IsShownItem, SharePairs, ShareHypotheses, ShareProof, is_label_word, stands_for};
ghost use Rattle.mm_proof.specs.{Code.TwoTheorems.{AreMarked, AreUnnamed, CanBeCompared, IsUnnamed, OfTwo, OfTwoIn, MeansSame, TellsLabels, TellsShared}, Language.BaseMarks.{AreMarks, mark_at}};
ghost use Rattle.mm_verdict.specs.Language.{ReadIn.{IsReadIn, HasTheorem}, Decoding.{is_close as is_closing}, SameToDecode.{labels_named}, View.{view_at, AreSameViews}};
ghost use Rattle.mm_verdict.specs.mm_machine.Language.SameProof.{AreSameMeaning};
ghost use Rattle.mm_frame.specs.mm_statement.Language.Item as meant;

use crate::marks::Marks;
use mm_frame::{
    Base, Files, Item, Names, PlainWords, Resolved, has_bytes, has_own_labels, kept_next,
    labels_mean, same_active_pairs, same_but_pairs, same_expression, same_frame, same_proof,
    words_of_proof,
};
use mm_verdict::{is_close, is_open, is_unknown};

/// The item `i` of an old base and the item `j` of a new one. The symbols of both bases are read by these names. The marks,
/// if there are any, say what stays of the old base in the new one.
#[derive(Clone, Copy)]
pub struct TwoTheorems<'names, 'old, 'new, 'marks> {
    pub names: &'names Names,
    pub old: &'old Base,
    pub i: usize,
    pub new: &'new Base,
    pub j: usize,
    pub marks: Option<&'marks Marks>,
}

/// Whether what a label means in the old base is what one means in the new one.
fn same_meaning(two: TwoTheorems, mine: Resolved, yours: Resolved) -> bool
    ensures { OfTwo two.entry (λ base copy. IsShownItem base mine → IsShownItem copy yours
        → IsTrue result ↔ AreSameMeaning (stands_for base mine) (stands_for copy yours)) }
{
    match (mine, yours) {
        (Resolved::Hypothesis(a), Resolved::Hypothesis(b)) => {
            same_expression(two.old, a, two.new, b)
        }
        (Resolved::Assertion(a), Resolved::Assertion(b)) => {
            same_frame(two.names, two.old, a, two.new, b)
        }
        (Resolved::Inactive, Resolved::Inactive) | (Resolved::Unknown, Resolved::Unknown) => true,
        _ => false,
    }
}

/// What the label of an item means at the item `i`, if there is such an item, and what one means that none carries. Of an
/// item that is known to be an assertion nothing is looked at.
fn meaning_of(base: &Base, carrier: Option<usize>, framed: bool, i: usize) -> Resolved
    ensures { (view : BaseView) (label : List ℕ) → IsBase view base.now → IsOneCarrier view label carrier
        → (framed ≡ true → (n : ℕ) → carrier ≡ Some n → is_framed_at view n ≡ true) → Resolves view i label result }
{
    kept_next(); // A law: one more item is judged against the sound ones before it.
    match carrier {
        Some(k) if framed => base.assertion_meaning(k, i),
        Some(k) => base.meaning(k, i),
        None => Resolved::Unknown,
    }
}

/// Whether the label of the item `m` of the new base means the same at both, if it means these. No frame is compared.
fn same_marked(two: TwoTheorems, mine: Resolved, yours: Resolved, marks: &Marks, m: usize) -> bool
    ensures { OfTwo two.entry (λ base copy. AreMarks base copy marks.now → (label : List ℕ) → IsCarrier copy label m
        → Resolves base two.entry.i label mine → Resolves copy two.entry.j label yours → IsTrue result ↔ MeansSame two.entry base copy label) }
{
    has_own_labels(); // A law: two sound items with one label are one.
    match (mine, yours) {
        (Resolved::Assertion(_), Resolved::Assertion(_)) => marks.same(m),
        _ => same_meaning(two, mine, yours),
    }
}

/// Whether a label means the same at both, by what stays of the old base: it is looked up in the new base alone, and
/// no frame is compared.
fn same_by(two: TwoTheorems, marks: &Marks, label: &[u8]) -> bool
    ensures { OfTwo two.entry (λ base copy. AreMarks base copy marks.now → IsTrue result ↔ MeansSame two.entry base copy label.now) }
{
    kept_next(); // A law: one more item is judged against the sound ones before it.
    labels_mean(); // A law: a label is that of a sound item before, or means nothing.
    match two.new.find(label) {
        Some(m) if marks.keeps(m, two.i, two.j) => true,
        Some(m) => {
            let framed = marks.same(m);
            let mine = meaning_of(two.old, marks.old(m), framed, two.i);
            let yours = meaning_of(two.new, Some(m), framed, two.j);
            same_marked(two, mine, yours, marks, m)
        }
        None => same_meaning(two, two.old.resolve(label, two.i), Resolved::Unknown),
    }
}

/// Whether a label means the same at both.
fn same_label(two: TwoTheorems, label: &[u8]) -> bool
    requires { AreMarked two }
    ensures { OfTwo two.entry (λ base copy. IsTrue result ↔ MeansSame two.entry base copy label.now) }
{
    match two.marks {
        Some(marks) => same_by(two, marks, label),
        None => same_meaning(
            two,
            two.old.resolve(label, two.i),
            two.new.resolve(label, two.j),
        ),
    }
}

/// Whether the labels of a list mean the same at both, up to the word that closes it.
fn same_listed(two: TwoTheorems, words: PlainWords) -> bool
    requires { AreMarked two }
    ensures { TellsLabels two.entry (before_first is_closing words.entry) result }
{
    let mut words = words;
    while let Some(word) = words.next_word() {
        if is_close(word) {
            return true;
        }
        if !same_label(two, word) {
            return false;
        }
    }
    true
}

/// Whether the words of a normal proof mean the same at both; a `?` always does.
fn same_words(two: TwoTheorems, words: PlainWords) -> bool
    requires { AreMarked two }
    ensures { TellsLabels two.entry (filter is_label_word words.entry) result }
{
    let mut words = words;
    while let Some(word) = words.next_word() {
        if !is_unknown(word) && !same_label(two, word) {
            return false;
        }
    }
    true
}

/// Whether the labels that these words of a proof name mean the same at both.
fn same_named(two: TwoTheorems, words: PlainWords) -> bool
    requires { AreMarked two }
    ensures { TellsLabels two.entry (labels_named words.entry) result }
{
    let mut words = words;
    let Some(word) = words.next_word() else {
        return true;
    };
    if is_open(word) {
        same_listed(two, words)
    } else if is_unknown(word) || same_label(two, word) {
        same_words(two, words)
    } else {
        false
    }
}

/// Whether the marks say that the item `j` of the new base has the label of the item `i` of the old one.
fn is_marked(marks: &Marks, i: usize, j: usize) -> bool
    ensures { IsTrue result ↔ ((mark_at marks.now j).old ≡ Some i) }
{
    match marks.old(j) {
        Some(k) => k == i,
        None => false,
    }
}

/// Whether two sound `$p` have the same active pairs.
fn same_pairs(two: TwoTheorems) -> bool
    requires { AreMarked two }
    ensures { TellsShared two.entry SharePairs result }
{
    match two.marks {
        Some(marks) if is_marked(marks, two.i, two.j) => marks.same_pairs(two.j),
        _ => same_active_pairs(two.old, two.i, two.new, two.j),
    }
}

/// Whether the marks say that the items are assertions with the same label and the same frame.
fn is_frame_marked(marks: &Marks, i: usize, j: usize) -> bool
    ensures { IsTrue result ↔ ((mark_at marks.now j).old ≡ Some i) × ((mark_at marks.now j).frame ≡ true) }
{
    is_marked(marks, i, j) && marks.same(j)
}

/// Whether two sound `$p` have the same expression and the same mandatory hypotheses. Nothing is compared if the marks
/// say that their frames are the same.
fn same_but_active(two: TwoTheorems) -> bool
    requires { AreMarked two }
    ensures { TellsShared two.entry ShareHypotheses result }
{
    match two.marks {
        Some(marks) if is_frame_marked(marks, two.i, two.j) => true,
        _ => same_but_pairs(two.old, two.i, two.new, two.j),
    }
}

/// Whether the marks say that the items have one label, and that every label that is not listed as changed means the same
/// at both.
fn is_in_step(marks: &Marks, i: usize, j: usize) -> bool
    ensures { IsTrue result ↔ ((mark_at marks.now j).old ≡ Some i) × ((mark_at marks.now j).in_step ≡ true) }
{
    is_marked(marks, i, j) && marks.in_step(j)
}

/// Whether the item `m` of the new base comes before the theorem, and its label is among the bytes of this item.
fn may_name(two: TwoTheorems, m: usize, files: &Files, item: &Item) -> bool
    requires { CanBeRead files.now item.now }
    ensures { (said : meant.Said) → Says files.now item.now said → IsFalse result → IsUnnamed two.entry said.proof m }
{
    m < two.j
        && match two.new.label(m) {
            Some(label) => has_bytes(files, item, label),
            None => false,
        }
}

/// Whether the label of one of these items may be named in this way.
fn may_name_any(two: TwoTheorems, changed: &[usize], files: &Files, item: &Item) -> bool
    requires { CanBeRead files.now item.now }
    ensures { (said : meant.Said) → Says files.now item.now said → IsFalse result → AreUnnamed two.entry said.proof changed.now (length changed.now) }
{
    for k in 0..changed.len() {
        if may_name(two, changed[k], files, item) {
            return true;
        }
    }
    false
}

/// Whether the marks say that the items have one label, and that every label that the proof of this item names means the
/// same at both. Its bytes are searched for each label that is listed as changed.
fn are_kept(two: TwoTheorems, marks: &Marks, files: &Files, item: &Item) -> bool
    requires { CanBeRead files.now item.now }
    ensures { (said : meant.Said) → Says files.now item.now said → IsTrue result → OfTwo two.entry (λ base copy. AreMarks base copy marks.now
        → AllByRecursion (MeansSame two.entry base copy) (labels_named said.proof)) }
{
    is_in_step(marks, two.i, two.j) && !may_name_any(two, marks.changed(), files, item)
}

/// Whether the labels that the proof of this item names mean the same at both. No word is read if the marks say that they
/// do.
fn same_labels(two: TwoTheorems, files: &Files, item: &Item) -> bool
    requires read { CanBeRead files.now item.now }
    requires marked { AreMarked two }
    ensures { (said : meant.Said) → Says files.now item.now said → TellsLabels two.entry (labels_named said.proof) result }
{
    match two.marks {
        Some(marks) if are_kept(two, marks, files, item) => true,
        _ => same_named(two, words_of_proof(files, item)),
    }
}

/// Whether the proofs of two sound `$p` have the same words, and the labels that these name mean the same.
fn same_written(two: TwoTheorems, files: &Files) -> bool
    requires { CanBeCompared two files.now }
    ensures { OfTwoIn two.entry files.now (λ base copy. IsTrue result ↔ ShareProof base copy two.entry.i two.entry.j) }
{
    let mine = two.old.item(two.i);
    let yours = two.new.item(two.j);
    same_proof(files, mine, yours) && same_labels(two, files, yours)
}

/// Whether two sound `$p` have equal views.
fn have_same_view(two: TwoTheorems, files: &Files) -> bool
    requires { CanBeCompared two files.now }
    ensures { OfTwoIn two.entry files.now (λ base copy. AreTheorems base copy two.entry.i two.entry.j
        → IsTrue result ↔ AreSameViews (view_at base two.entry.i) (view_at copy two.entry.j)) }
{
    if !same_but_active(two) {
        return false;
    }
    same_pairs(two) && same_written(two, files)
}

/// Whether the sound `$p` `i` of a base and the sound `$p` `j` of another have equal views. Both bases are over these names,
/// and their items can be read in these files. It stops at the first difference, and takes no memory.
pub fn same_view(names: &Names, files: &Files, one: &Base, i: usize, other: &Base, j: usize) -> bool
    requires one { HasTheorem names.now files.now one.now i }
    requires other { HasTheorem names.now files.now other.now j }
    ensures { (base copy : BaseView) → IsReadIn names.now files.now one.now base → IsReadIn names.now files.now other.now copy
        → is_proof_at base i ≡ true → is_proof_at copy j ≡ true → IsTrue result ↔ AreSameViews (view_at base i) (view_at copy j) }
{
    let two = TwoTheorems {
        names,
        old: one,
        i,
        new: other,
        j,
        marks: None,
    };
    have_same_view(two, files)
}

/// Answers what [`same_view`] does, by the marks of the two bases: no frame is compared, and each label that the proof
/// names is looked up once. None is if the bases are in step up to the two, except for a few changed labels, and none of
/// these labels is among the bytes of the theorem. It takes no memory.
pub fn same_view_by(
    names: &Names,
    files: &Files,
    old: &Base,
    i: usize,
    new: &Base,
    j: usize,
    marks: &Marks,
) -> bool
    requires one { HasTheorem names.now files.now old.now i }
    requires other { HasTheorem names.now files.now new.now j }
    requires marks { (base copy : BaseView) → IsBaseBy names.now base old.now → IsBaseBy names.now copy new.now → AreMarks base copy marks.now }
    ensures { (base copy : BaseView) → IsReadIn names.now files.now old.now base → IsReadIn names.now files.now new.now copy
        → is_proof_at base i ≡ true → is_proof_at copy j ≡ true → IsTrue result ↔ AreSameViews (view_at base i) (view_at copy j) }
{
    let marked = TwoTheorems {
        names,
        old,
        i,
        new,
        j,
        marks: Some(marks),
    };
    have_same_view(marked, files)
}
