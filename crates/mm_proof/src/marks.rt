//! What stays of an old base in a new one.

ghost use Rattle.std.specs.Prelude.{◌≡◌, ◌↔◌, ◌||◌, ◌+◌, ◌<◌, ℕ, true, Some, IfOk, IsTrue, OnOk};
ghost use Rattle.mm_frame.specs.Language.{Base.{BaseView, is_shown_at}, Answering.{BaseAnswers, IsBaseBy}};
ghost use Rattle.mm_proof.specs.Code.{InStep.{AreOrdinalsOf, HasLevel, IsStepAt, MeanOne, changed_behind}, KeptMarks.{OfBases, AreCompared, AreHypothesisMarks, IsHypothesisMark, IsOneHypothesis, kept_mark}};
ghost use Rattle.mm_proof.specs.Language.BaseMarks.{AreMarks, HaveOneLabel, IsMark, KeepsLabels, mark_at};

use crate::compared::Compared;
use crate::mark::{Mark, NO_MARK};
use crate::ordinals::{Ordinals, end_alike, in_full_width, is_labelled};
use mm_frame::{Base, Names, labels_mean, same_expression};
use mm_machine::narrow;
use std::alloc::{AllocError, Global};
use std::marker::Model;

/// What stays of an old base in a new one, for each item of the new one: so that frames and active pairs are compared
/// once, and a label of the new base is looked up in the old one once.
#[derive(Drop)]
pub struct Marks {
    marks: Vec<Mark>,
    /// The items of the new base whose labels are listed as changed.
    changed: Vec<usize>,
}

/// With more changed labels two bases are out of step.
const MOST_CHANGED: usize = 4;

impl Model for Marks {
    ghost use Rattle.mm_proof.specs.Language.BaseMarks.{MarksView};

    ghost Value = { MarksView };

    ghost use Rattle.mm_proof.specs.Code.KeptMarks.{marks_of};

    ghost view = { marks_of };
}

/// Whether two sound items are the same hypothesis.
fn same_hypothesis(old: &Base, i: usize, new: &Base, j: usize) -> bool
    ensures { IsTrue result → OfBases old.now new.now (λ base copy. is_shown_at base i ≡ true → is_shown_at copy j ≡ true → IsOneHypothesis base copy i j) }
{
    old.frame(i).is_none()
        && new.frame(j).is_none()
        && old.is_floating(i) == new.is_floating(j)
        && same_expression(old, i, new, j)
}

/// The sound item of the old base that has the label of the item `j` of the new one, which has to be sound, too.
fn old_of(old: &Base, new: &Base, j: usize) -> Option<usize>
    ensures { OfBases old.now new.now (λ base copy. (i : ℕ) → (result ≡ Some i) ↔ HaveOneLabel base copy i j) }
{
    new.expression(j)?;
    old.find(new.label(j)?)
}

/// What stays of the item with this number, by the marks of those before it.
fn mark_of(
    old: &Base,
    new: &Base,
    j: usize,
    compared: &mut Compared,
    marks: &[Mark],
) -> Result<Mark, AllocError>
    requires compared { AreCompared old.now new.now compared.old }
    requires marks { AreHypothesisMarks old.now new.now marks.now }
    ensures compared { OnOk result (AreCompared old.now new.now compared.new) }
    ensures mark { IfOk result (λ mark. OfBases old.now new.now (λ base copy. IsMark base copy j (kept_mark mark))) }
    ensures kept { IfOk result (IsHypothesisMark old.now new.now j) }
{
    let Some(i) = old_of(old, new, j) else {
        return Ok(NO_MARK);
    };
    let frame = compared.same_frame(old, i, new, j, marks)?;
    let pairs = compared.same_pairs(old, i, new, j)?;
    Ok(Mark {
        old: Some(narrow(i)?),
        frame,
        hypothesis: same_hypothesis(old, i, new, j),
        pairs,
        in_step: false,
    })
}

/// Whether the item `j` of the new base has no label, or the old base has an item with its label and its ordinal.
fn keeps_place(new: &Base, j: usize, ordinals: &Ordinals, mark: Mark) -> bool
    ensures { IsTrue result → (old : BaseAnswers) → AreOrdinalsOf old new.now ordinals.now
        → OfBases old new.now (λ base copy. IsMark base copy j (kept_mark mark) → HasLevel base copy j) }
{
    match in_full_width(mark.old) {
        Some(i) => ordinals.are_same(i, j),
        None => !is_labelled(new, j),
    }
}

/// Whether the item `j` of the new base means the same as the item of the old base with its label, if there is one.
fn is_alike(old: &Base, new: &Base, j: usize, ordinals: &Ordinals, mark: Mark) -> bool
    requires { AreOrdinalsOf old.now new.now ordinals.now }
    ensures { IsTrue result → IsHypothesisMark old.now new.now j mark
        → OfBases old.now new.now (λ base copy. IsMark base copy j (kept_mark mark) → (i : ℕ) → HaveOneLabel base copy i j → MeanOne base copy i j) }
{
    match in_full_width(mark.old) {
        Some(i) => mark.frame || mark.hypothesis && end_alike(old, i, new, j, ordinals),
        None => true,
    }
}

/// Two bases, and the ordinals of their items.
#[derive(Clone, Copy)]
struct TwoBases<'a> {
    old: &'a Base,
    new: &'a Base,
    ordinals: &'a Ordinals,
}

/// What is known before an item of the new base is marked.
#[derive(Clone, Copy)]
struct Step {
    /// Whether each labelled item so far has the label of the one of the old base with its ordinal, and means the same but
    /// if it is listed as changed.
    in_step: bool,
    /// Whether the item before is to be listed as changed.
    changed: bool,
}

/// What is known before the first item is marked.
const FIRST_STEP: Step = Step {
    in_step: true,
    changed: false,
};

/// What is known behind an item that is alike, or listed as changed, or neither.
fn step_behind(alike: bool, changed: bool) -> Step
    ensures { (result.in_step ≡ (alike || changed)) × (result.changed ≡ changed) }
{
    Step {
        in_step: alike || changed,
        changed,
    }
}

/// The mark of an item, by those of the items before it, of which these are listed as changed; and what is known before
/// the next one is marked.
fn marked(
    bases: TwoBases<'_>,
    j: usize,
    step: Step,
    compared: &mut Compared,
    marks: &[Mark],
    changed: &[usize],
) -> Result<(Mark, Step), AllocError>
    requires ordinals { AreOrdinalsOf bases.old.now bases.new.now bases.ordinals.now }
    requires step { IsStepAt bases.old.now bases.new.now changed.now j step }
    requires compared { AreCompared bases.old.now bases.new.now compared.old }
    requires marks { AreHypothesisMarks bases.old.now bases.new.now marks.now }
    ensures compared { OnOk result (AreCompared bases.entry.old.now bases.entry.new.now compared.new) }
    ensures mark { IfOk result (λ it. OfBases bases.entry.old.now bases.entry.new.now (λ base copy. IsMark base copy j (kept_mark it.0))) }
    ensures labels { IfOk result (λ it. IsTrue it.0.in_step
        → OfBases bases.entry.old.now bases.entry.new.now (λ base copy. KeepsLabels base copy changed.now j)) }
    ensures kept { IfOk result (λ it. IsHypothesisMark bases.entry.old.now bases.entry.new.now j it.0) }
    ensures step { IfOk result (λ it. IsStepAt bases.entry.old.now bases.entry.new.now (changed_behind changed.now j it.1.changed) (j + 1) it.1) }
{
    labels_mean(); // A law: a label is that of a sound item before, or means nothing.
    let TwoBases { old, new, ordinals } = bases;
    let mark = mark_of(old, new, j, compared, marks)?;
    let placed = step.in_step && keeps_place(new, j, ordinals, mark);
    let alike = placed && is_alike(old, new, j, ordinals, mark);
    let here = placed && !alike && changed.len() < MOST_CHANGED;
    let next = step_behind(alike, here);
    let mark = Mark {
        in_step: placed,
        ..mark
    };
    Ok((mark, next))
}

/// Whether there is a number, and it is below another one.
fn is_below(number: Option<u32>, i: usize) -> bool
    ensures { IsTrue result → (k : ℕ) × (number ≡ Some k) × (k < i) }
{
    match number {
        Some(k) => (k as usize) < i,
        None => false,
    }
}

impl Marks {
    /// Compares an old base with a new one, both over the same names. It takes time near linear in the items, the frames
    /// and the lists of active pairs of the two, and memory for each item of both.
    pub fn build(alloc: Global, names: &Names, old: &Base, new: &Base) -> Result<Marks, AllocError>
        ensures { IfOk result (λ marks. (base copy : BaseView) → IsBaseBy names.now base old.now → IsBaseBy names.now copy new.now
            → AreMarks base copy marks) }
    {
        let ordinals = Ordinals::build(alloc, old, new)?;
        let mut marks = Vec::with_capacity(alloc, new.count())?;
        let mut changed = Vec::new(alloc);
        let bases = TwoBases {
            old,
            new,
            ordinals: &ordinals,
        };
        let mut compared = Compared::new(alloc);
        let mut step = FIRST_STEP;
        for j in 0..new.count() {
            let (mark, next) = marked(bases, j, step, &mut compared, &marks, &changed)?;
            marks.push(mark)?;
            if next.changed {
                changed.push(j)?;
            }
            step = next;
        }
        Ok(Marks { marks, changed })
    }

    /// The number of the sound item of the old base that has the label of the item `j` of the new one, if both are sound.
    /// It takes no memory.
    pub fn old(&self, j: usize) -> Option<usize>
        ensures { result ≡ (mark_at self.now j).old }
    {
        match self.marks.get(j) {
            Some(mark) => in_full_width(mark.old),
            None => None,
        }
    }

    /// Whether the item `j` of the new base is a sound `$a` or `$p`, and the old base has one with its label and the same
    /// frame. It takes no memory.
    pub fn same(&self, j: usize) -> bool
        ensures { result ≡ (mark_at self.now j).frame }
    {
        match self.marks.get(j) {
            Some(mark) => mark.frame,
            None => false,
        }
    }

    /// Whether the item `m` of the new base is a sound `$a` or `$p` before the item `j`. The old base has to have one with
    /// its label and the same frame before the item `i`.
    pub(crate) fn keeps(&self, m: usize, i: usize, j: usize) -> bool
        ensures { IsTrue result → ((mark_at self.now m).frame ≡ true) × (m < j) × ((k : ℕ) × ((mark_at self.now m).old ≡ Some k) × (k < i)) }
    {
        match self.marks.get(m) {
            Some(mark) => mark.frame && m < j && is_below(mark.old, i),
            None => false,
        }
    }

    /// Whether the item `j` of the new base is a sound `$p`, and the old base has one with its label and the same active
    /// pairs.
    pub(crate) fn same_pairs(&self, j: usize) -> bool
        ensures { result ≡ (mark_at self.now j).pairs }
    {
        match self.marks.get(j) {
            Some(mark) => mark.pairs,
            None => false,
        }
    }

    /// Whether every label that is not listed as changed means the same at the item `j` of the new base and at the one of
    /// its label in the old base.
    pub(crate) fn in_step(&self, j: usize) -> bool
        ensures { result ≡ (mark_at self.now j).in_step }
    {
        match self.marks.get(j) {
            Some(mark) => mark.in_step,
            None => false,
        }
    }

    /// The items of the new base whose labels are listed as changed, in order: a few at most.
    pub(crate) fn changed(&self) -> &[usize]
        ensures { result.now ≡ self.now.changed }
    {
        &self.changed
    }
}
