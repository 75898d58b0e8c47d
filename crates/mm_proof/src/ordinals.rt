//! The ordinals of labelled items, by which two bases are found to be in step.

ghost use Rattle.std.specs.Prelude.{◌≡◌, ◌<◌, ◌≤◌, true, suc, IfOk, IsTrue, length, slice_index};
ghost use Rattle.mm_frame.specs.Language.{Base.{BaseView, is_shown_at}, Answering.{IsBase}};
ghost use Rattle.mm_proof.specs.Code.{InStep.{AreOrdinals, AreOrdinalsOf, SharesEnd}, KeptMarks.{OfBases}};

use mm_frame::Base;
use mm_machine::narrow;
use std::alloc::{AllocError, Global};

/// The labelled items of a base are its sound `$f`, `$e`, `$a` and `$p`, in order; the ordinal of an item is how many of
/// them come before it. Here are those of the items of two bases, and of the end of each.
#[derive(Drop)]
pub struct Ordinals {
    old: Vec<u32>,
    new: Vec<u32>,
}

/// The same number in its full width, if there is one.
pub fn in_full_width(number: Option<u32>) -> Option<usize>
    ensures { result ≡ number }
{
    match number {
        Some(n) => Some(n as usize),
        None => None,
    }
}

/// Whether an item is labelled.
pub fn is_labelled(base: &Base, n: usize) -> bool
    ensures { (view : BaseView) → IsBase view base.now → result ≡ is_shown_at view n }
{
    base.expression(n).is_some()
}

/// The ordinal of each item, and of the end.
fn ordinals_of(alloc: Global, base: &Base) -> Result<Vec<u32>, AllocError>
    ensures { IfOk result (λ numbers. (view : BaseView) → IsBase view base.now → AreOrdinals view (suc (length view)) numbers.items) }
{
    let count = base.count();
    let mut numbers = Vec::with_capacity(alloc, count.saturating_add(1))?;
    let mut ordinal = 0;
    for n in 0..count {
        numbers.push(narrow(ordinal)?)?;
        if is_labelled(base, n) {
            ordinal += 1;
        }
    }
    numbers.push(narrow(ordinal)?)?;
    Ok(numbers)
}

impl Ordinals {
    /// The ordinals of the items of two bases. It takes time linear in these, and memory for each.
    pub fn build(alloc: Global, old: &Base, new: &Base) -> Result<Ordinals, AllocError>
        ensures { IfOk result (AreOrdinalsOf old.now new.now) }
    {
        Ok(Ordinals {
            old: ordinals_of(alloc, old)?,
            new: ordinals_of(alloc, new)?,
        })
    }

    /// Whether the item `i` of the old base has the ordinal of the item `j` of the new one.
    pub fn are_same(&self, i: usize, j: usize) -> bool
        ensures { IsTrue result → (i < length self.now.old.items) × (j < length self.now.new.items)
            × (slice_index self.now.old.items i ≡ slice_index self.now.new.items j) }
    {
        i < self.old.len() && j < self.new.len() && self.old[i] == self.new[j]
    }
}

/// Whether two sound hypotheses are active up to the same ordinal.
pub fn end_alike(old: &Base, i: usize, new: &Base, j: usize, ordinals: &Ordinals) -> bool
    requires { AreOrdinalsOf old.now new.now ordinals.now }
    ensures { IsTrue result → OfBases old.now new.now (λ base copy. SharesEnd base copy i j) }
{
    match (old.active_until(i), new.active_until(j)) {
        (None, None) => true,
        (Some(mine), Some(yours)) => ordinals.are_same(mine, yours),
        _ => false,
    }
}
