//! Which words of a proof cite an assertion.

ghost use Rattle.std.specs.Prelude.{◌≡◌, ◌≤◌, true, false, ℕ, ◌+◌, ◌++◌, ◌∷◌, ◌||◌, if◌then◌else◌, Some, List, IfOk, OnOk, length};
ghost use Rattle.mm_verdict.specs.{Code.{Cited.{cited_item, is_item, item_cites, without, marked_at, masked, is_listed}, DecodedProof.{IsDecoded, OfDecoded}}, Language.VerdictAt.{cites_at}};
ghost use Rattle.mm_frame.specs.declared.base.Resolved as labels;
ghost use Rattle.mm_frame.specs.declared.base.Resolved.TheVariants as answers;

use crate::decoding_laws::labels_are_own;
use crate::reading::{DecodedProof, is_compressed, mandatory};
use mm_frame::Resolved;
use std::alloc::{AllocError, Global};

/// Marks the assertion that a label names, if the label is in use and names one.
fn mark(marks: &mut Vec<bool>, label: Resolved, used: bool) -> Result<(), AllocError>
    ensures { OnOk result ((i : ℕ) → marked_at marks.new.items i
        ≡ (marked_at marks.old.items i || is_item (cited_item (Some (if used then label else answers.Unknown))) i)) }
{
    match label {
        _ if !used => {}
        Resolved::Assertion(j) if j < marks.len() => marks[j] = true,
        Resolved::Assertion(j) => {
            marks.resize(j, false)?;
            marks.push(true)?;
        }
        _ => {}
    }
    Ok(())
}

/// Takes the mark from a number. Answers whether it was there.
fn unmark(marks: &mut Vec<bool>, j: usize) -> bool
    ensures was { result ≡ marked_at marks.old.items j }
    ensures left { (i : ℕ) → marked_at marks.new.items i ≡ without (marked_at marks.old.items) j i }
{
    if j >= marks.len() {
        return false;
    }
    let was = marks[j];
    marks[j] = false;
    was
}

/// Takes the marks from the assertions that labels name.
fn forget(marks: &mut Vec<bool>, labels: &[Resolved])
    ensures { (j : ℕ) → is_listed labels.now j ≡ true → marked_at marks.new.items j ≡ false }
{
    for label in labels {
        if let Resolved::Assertion(j) = *label {
            unmark(&mut *marks, j);
        }
    }
}

/// Marks, of the assertions that labels name, those that the labels in use name. Of others the marks do not count.
fn named(marks: &mut Vec<bool>, labels: &[Resolved], used: &[bool]) -> Result<(), AllocError>
    requires { length used.now ≡ length labels.now }
    ensures { OnOk result ((j : ℕ) → is_listed labels.now j ≡ true → marked_at marks.new.items j ≡ is_listed (masked labels.now used.now) j) }
{
    forget(&mut *marks, labels);
    for k in 0..labels.len() {
        mark(&mut *marks, labels[k], used[k])?;
    }
    Ok(())
}

/// Adds a word, if its label is that of an assertion that is left.
fn cite(
    left: &mut Vec<bool>,
    words: &mut Vec<usize>,
    label: Resolved,
    word: usize,
) -> Result<(), AllocError>
    ensures { OnOk result ((labels : List labels.Resolved) →
        words.new.items ++ item_cites (marked_at left.new.items) (word + 1) labels
        ≡ words.old.items ++ item_cites (marked_at left.old.items) word (label ∷ labels)) }
{
    if let Resolved::Assertion(j) = label {
        if unmark(&mut *left, j) {
            words.push(word)?;
        }
    }
    Ok(())
}

/// The numbers of the words that cite: of each assertion that is left the first word that is its label. The first of these
/// labels is the word `from`. There is room for this many words from the beginning.
fn cited(
    alloc: Global,
    left: &mut Vec<bool>,
    labels: &[Resolved],
    from: usize,
    room: usize,
) -> Result<Vec<usize>, AllocError>
    requires { from ≤ 1 }
    ensures { IfOk result (λ words. words.items ≡ item_cites (marked_at left.old.items) from labels.now) }
{
    let mut words = Vec::with_capacity(alloc, room)?;
    for k in 0..labels.len() {
        cite(&mut *left, &mut words, labels[k], from + k)?;
    }
    Ok(words)
}

/// The numbers of the words of a proof that cite: for each assertion that a decoded step names, the first word that is its
/// label. They rise. It marks assertions by their numbers; the marks that are there do not count.
pub fn cites_used(
    alloc: Global,
    marks: &mut Vec<bool>,
    proof: DecodedProof,
) -> Result<Vec<usize>, AllocError>
    requires { IsDecoded proof }
    ensures { IfOk result (λ words. OfDecoded proof.entry (λ view. words.items ≡ cites_at view proof.entry.i)) }
{
    labels_are_own(); // A law: no two sound items have the same label.
    let labels: &[Resolved] = &proof.decoding.labels;
    named(&mut *marks, labels, &proof.decoding.used)?;
    if is_compressed(proof.words) {
        // Most labels of a list are those of assertions that are cited.
        let hypotheses = mandatory(proof.base, proof.i).len();
        let listed = &labels[hypotheses.min(labels.len())..];
        cited(alloc, marks, listed, 1, listed.len())
    } else {
        cited(alloc, marks, labels, 0, 0)
    }
}
