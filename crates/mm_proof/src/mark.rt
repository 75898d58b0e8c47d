//! What stays of an item of an old base.

ghost use Rattle.std.specs.Prelude.{◌≡◌, IsTrue, map};
ghost use Rattle.mm_frame.specs.Language.{Answering.{BaseAnswers}, Base.{hypothesis_at}};
ghost use Rattle.mm_proof.specs.Code.KeptMarks.{AreHypothesisMarks, OfBases};

/// What stays of an item: the number of the sound item of the old base that has its label, and what is the same of both.
/// That is their frame, their hypothesis, their active pairs, or the meaning at both of every label that is not listed as
/// changed.
#[derive(Clone, Copy)]
pub struct Mark {
    pub old: Option<u32>,
    pub frame: bool,
    pub hypothesis: bool,
    pub pairs: bool,
    pub in_step: bool,
}

/// Nothing stays.
pub const NO_MARK: Mark = Mark {
    old: None,
    frame: false,
    hypothesis: false,
    pairs: false,
    in_step: false,
};

/// Whether the marks so far say that the hypothesis `m` of the new base is the hypothesis `n` of the old one.
fn is_marked(marks: &[Mark], n: usize, m: usize) -> bool
    ensures { IsTrue result → (old new : BaseAnswers) → AreHypothesisMarks old new marks.now
        → OfBases old new (λ base copy. hypothesis_at base n ≡ hypothesis_at copy m) }
{
    match marks.get(m) {
        Some(mark) if mark.hypothesis => match mark.old {
            Some(i) => i as usize == n,
            None => false,
        },
        _ => false,
    }
}

/// Whether the marks so far say that hypotheses of the old base are those of the new one, one by one.
pub fn are_marked(marks: &[Mark], mine: &[usize], yours: &[usize]) -> bool
    ensures { IsTrue result → (old new : BaseAnswers) → AreHypothesisMarks old new marks.now
        → OfBases old new (λ base copy. map (hypothesis_at base) mine.now ≡ map (hypothesis_at copy) yours.now) }
{
    if mine.len() != yours.len() {
        return false;
    }
    for k in 0..mine.len() {
        if !is_marked(marks, mine[k], yours[k]) {
            return false;
        }
    }
    true
}
