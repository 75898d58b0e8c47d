//! What is kept of the checks of proofs.

ghost use Rattle.std.specs.{Prelude.{◌≡◌, ◌<◌, ◌++◌, ◌∷◌, [], true, None, Some, IfOk, IfSome, OnOk, is_some, length, slice_index, slice_index_or, slice_set}, Option.{option_map}};
ghost use Rattle.mm_keep.specs.Code.KeptCheck.{kept_at, said};

use mm_frame::Sparse;
use mm_machine::narrow;
use mm_proof::{Checked, Verdict};
use std::alloc::{AllocError, Global};
use std::marker::Model;
use std::mem;

/// The same numbers, in four bytes each.
fn narrowed(alloc: Global, numbers: &[usize]) -> Result<Vec<u32>, AllocError>
    ensures { IfOk result (λ narrowed. narrowed.items ≡ numbers.now) }
{
    let mut narrowed = Vec::with_capacity(alloc, numbers.len())?;
    for number in numbers {
        narrowed.push(narrow(*number)?)?;
    }
    Ok(narrowed)
}

/// What a check of a proof said: its verdict, and the numbers of the words that cite, rising.
#[derive(Drop)]
pub struct KeptCheck {
    verdict: Verdict,
    cites: Vec<u32>,
}

impl Model for KeptCheck {
    ghost use Rattle.mm_proof.specs.mm_verdict.Language.Work.{Judgement};

    ghost Value = { Judgement };

    ghost use Rattle.mm_keep.specs.Code.KeptCheck.{judgement_kept};

    ghost view = { judgement_kept };
}

impl KeptCheck {
    /// What this check said.
    pub fn of(alloc: Global, checked: &Checked) -> Result<KeptCheck, AllocError>
        ensures { IfOk result (λ check. check ≡ checked.now) }
    {
        Ok(KeptCheck {
            verdict: checked.verdict(),
            cites: narrowed(alloc, checked.cites())?,
        })
    }

    /// The verdict on the proof.
    pub fn verdict(&self) -> Verdict
        ensures { result ≡ self.now.verdict }
    {
        self.verdict
    }

    /// How many words cite.
    pub fn count(&self) -> usize
        ensures { result ≡ length self.now.cites }
    {
        self.cites.len()
    }

    /// The number of the word that cites at this place.
    pub fn cite(&self, x: usize) -> usize
        requires { x < length self.now.cites }
        ensures { result ≡ slice_index self.now.cites x }
    {
        self.cites[x] as usize
    }
}

/// What the checks of the proofs of items said, by the numbers of all items from 0; nothing if an item is no sound `$p`, as
/// most are not. What was said is in one list, and for each item there is a number of four bytes.
///
/// While an edit is done, an item that keeps what was said before has a free place in the list of the next items. So what is
/// kept is moved there without memory, once nothing can fail.
#[derive(Drop)]
pub struct Checks {
    /// What was said; nothing at a free place.
    checks: Vec<Option<KeptCheck>>,
    /// For each item its place in the list, if it has one.
    places: Sparse,
}

impl Model for Checks {
    ghost use Rattle.std.specs.Prelude.{List};
    ghost use Rattle.mm_keep.specs.Code.KeptCheck.{Kept};

    ghost Value = { List Kept };

    ghost use Rattle.mm_keep.specs.Code.KeptCheck.{all_kept, ArePlaces};

    ghost view = { all_kept };

    ghost invariant = { ArePlaces };
}

/// What a place has, if there is one and something is there.
fn kept_in(checks: &[Option<KeptCheck>], place: Option<usize>) -> Option<&KeptCheck>
    ensures { option_map (λ check. check.now) result ≡ said (kept_at checks.now place) }
{
    checks.get(place?)?.as_ref()
}

impl Checks {
    /// No items, with room for this many, of which this many have a place.
    pub fn with_room(alloc: Global, items: usize, checks: usize) -> Result<Checks, AllocError>
        ensures { IfOk result (λ made. made ≡ []) }
    {
        let places = Sparse::with_room(alloc, items)?;
        Ok(Checks {
            checks: Vec::with_capacity(alloc, checks)?,
            places,
        })
    }

    /// The allocator that the lists are made on.
    pub fn allocator(&self) -> Global {
        *self.checks.allocator()
    }

    /// How many items there are.
    pub fn count(&self) -> usize
        ensures { result ≡ length self.now }
    {
        self.places.count()
    }

    /// What the check of the proof of an item said, if that is kept.
    pub fn get(&self, i: usize) -> Option<&KeptCheck>
        ensures { option_map (λ check. check.now) result ≡ said (slice_index_or self.now i None) }
    {
        kept_in(&self.checks, self.places.at(i))
    }

    /// Adds one more item: with no place, with a free one, or with what its check said.
    pub fn push(&mut self, kept: Option<Option<KeptCheck>>) -> Result<(), AllocError>
        ensures { OnOk result (self.new ≡ self.old ++ kept ∷ []) }
    {
        let Some(check) = kept else {
            return self.places.add(None);
        };
        self.checks.reserve(1)?;
        self.places.add(Some(self.checks.len()))?;
        self.checks.push(check).unwrap();
        Ok(())
    }

    /// Exchanges what the place of an item has for what the place of an item of others has.
    pub fn exchange(&mut self, i: usize, others: &mut Checks, j: usize)
        requires own { is_some (slice_index_or self.old i None) ≡ true }
        requires other { is_some (slice_index_or others.old j None) ≡ true }
        ensures own { self.new ≡ slice_set self.old i (slice_index_or others.old j None) }
        ensures other { others.new ≡ slice_set others.old j (slice_index_or self.old i None) }
    {
        let own = self.places.at(i).unwrap();
        let other = others.places.at(j).unwrap();
        mem::swap(&mut self.checks[own], &mut others.checks[other]);
    }
}
