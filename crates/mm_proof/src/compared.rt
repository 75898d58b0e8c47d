//! What was compared of two bases.

ghost use Rattle.std.specs.Prelude.{◌≡◌, ◌↔◌, true, IfOk, IsTrue, OnOk};
ghost use Rattle.mm_frame.specs.{declared.base.Base.{Base}, Language.Base.{ShareMandatory, is_framed_at}};
ghost use Rattle.mm_proof.specs.Code.KeptMarks.{AreCompared, AreHypothesisMarks, AreTheorems, OfBases, ShareFrame, SharePairs};

use crate::mark::{Mark, are_marked};
use mm_frame::{
    Base, same_active_pairs, same_expression, same_mandatory_hypotheses, same_mandatory_pairs,
};
use std::alloc::{AllocError, Global};
use std::collections::HashMap;

/// What was compared of an old base and a new one, by the numbers that frames and lists of active pairs have there: so that no
/// two of them are compared twice, in whatever order the items come that have them.
#[derive(Drop)]
pub struct Compared {
    /// For a frame of the old base and one of the new, whether they have the same hypotheses and pairs.
    frames: HashMap<(usize, usize), bool>,
    /// For a list of active pairs of the old base and one of the new, whether they have the same pairs.
    lists: HashMap<(usize, usize), bool>,
}

/// Whether two sound assertions have the same mandatory hypotheses and pairs. Hypotheses that are the same by the marks so far
/// are not looked at.
fn same_mandatory(old: &Base, i: usize, new: &Base, j: usize, marks: &[Mark]) -> bool
    requires { AreHypothesisMarks old.now new.now marks.now }
    ensures { OfBases old.now new.now (λ base copy. is_framed_at base i ≡ true → is_framed_at copy j ≡ true → IsTrue result ↔ ShareMandatory base copy i j) }
{
    let (Some(mine), Some(yours)) = (old.frame(i), new.frame(j)) else {
        return false;
    };
    let told = are_marked(marks, &mine.hypotheses, &yours.hypotheses);
    (told || same_mandatory_hypotheses(old, i, new, j)) && same_mandatory_pairs(old, i, new, j)
}

impl Compared {
    /// Nothing was compared. It takes no memory.
    pub fn new(alloc: Global) -> Compared
        ensures { (old new : Base) → AreCompared old new result }
    {
        Compared {
            frames: HashMap::new(alloc),
            lists: HashMap::new(alloc),
        }
    }

    /// Whether two items are sound assertions with the same frame. Hypotheses that are the same by the marks so far are not
    /// looked at.
    pub fn same_frame(
        &mut self,
        old: &Base,
        i: usize,
        new: &Base,
        j: usize,
        marks: &[Mark],
    ) -> Result<bool, AllocError>
        requires compared { AreCompared old.now new.now self.old }
        requires marks { AreHypothesisMarks old.now new.now marks.now }
        ensures compared { OnOk result (AreCompared old.now new.now self.new) }
        ensures same { IfOk result (λ same. OfBases old.now new.now (λ base copy. IsTrue same ↔ ShareFrame base copy i j)) }
    {
        let (Some(mine), Some(yours)) = (old.frame_number(i), new.frame_number(j)) else {
            return Ok(false);
        };
        if !same_expression(old, i, new, j) {
            return Ok(false);
        }
        if let Some(same) = self.frames.get(&(mine, yours)) {
            return Ok(*same);
        }
        let same = same_mandatory(old, i, new, j, marks);
        self.frames.insert((mine, yours), same)?;
        Ok(same)
    }

    /// Whether two items are sound `$p` with the same active pairs.
    pub fn same_pairs(
        &mut self,
        old: &Base,
        i: usize,
        new: &Base,
        j: usize,
    ) -> Result<bool, AllocError>
        requires { AreCompared old.now new.now self.old }
        ensures compared { OnOk result (AreCompared old.now new.now self.new) }
        ensures same { IfOk result (λ same. OfBases old.now new.now (λ base copy. IsTrue same ↔ (AreTheorems base copy i j × SharePairs base copy i j))) }
    {
        let (Some(mine), Some(yours)) = (old.list_number(i), new.list_number(j)) else {
            return Ok(false);
        };
        if let Some(same) = self.lists.get(&(mine, yours)) {
            return Ok(*same);
        }
        let same = same_active_pairs(old, i, new, j);
        self.lists.insert((mine, yours), same)?;
        Ok(same)
    }
}
