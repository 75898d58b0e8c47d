//! Which variables of a run are apart, and which are known to be.

ghost use Rattle.std.specs.Prelude.{◌<◌, ℕ, List, OnOk, IfOk, MatchBool, length, map};
ghost use Rattle.mm_machine.specs.Language.{Frame.{Symbol as Meaning}, CodeLists.{meant_pairs}};
ghost use Rattle.mm_machine.specs.Code.PairClause.{ApartAt, ApartFrom, AreNumbersOf, EachApart, HasNumber, InChunk, KnowsApart, NotApartAt, SomeNotApart, SomeShared};

use crate::active::Active;
use crate::kept::Kept;
use crate::sets::Chunk;
use crate::symbol::Symbol;
use std::alloc::{AllocError, Global};
use std::collections::HashMap;

/// A variable, by its number, and some that it is apart from.
#[derive(Clone, Copy)]
pub struct KnownChunk {
    pub variable: usize,
    pub chunk: Chunk,
}

/// Which variables are known to be apart, by their numbers. So no pair of them is looked up twice in a run.
#[derive(Drop)]
pub struct KnownApart {
    /// For each variable those of the first 64 that it is apart from; nearly all runs have no more.
    first: Vec<u64>,
    /// For a variable those of 64 others that it is apart from.
    later: Vec<KnownChunk>,
    /// Where it may be, by the variable and the place of the 64. What is found by it is compared, so that no answer depends
    /// on it.
    places: HashMap<(usize, usize), usize>,
}

impl KnownApart {
    /// Nothing is known. It takes no memory.
    pub fn new(alloc: Global) -> KnownApart {
        KnownApart {
            first: Vec::new(alloc),
            later: Vec::new(alloc),
            places: HashMap::new(alloc),
        }
    }

    /// Nothing is known any more. Some memory is kept.
    pub fn clear(&mut self, alloc: Global)
        ensures { (active : List (Meaning × Meaning)) (all : List Meaning) → KnowsApart active all self.new }
    {
        self.first.clear();
        if !self.later.is_empty() {
            self.later.clear();
            self.places = HashMap::new(alloc);
        }
    }

    /// Where a variable with some 64 others may be: past all of them, if no place is noted.
    fn place_of(&self, variable: usize, at: usize) -> usize {
        match self.places.get(&(variable, at)) {
            Some(place) => *place,
            None => self.later.len(),
        }
    }

    /// Those of 64 numbers that a variable is known to be apart from.
    fn bits(&self, variable: usize, at: usize) -> u64
        ensures { (active : List (Meaning × Meaning)) (all : List Meaning) → KnowsApart active all self.now
            → ApartFrom active all variable (record { at = at; bits = result }) }
    {
        if at == 0 {
            return if variable < self.first.len() {
                self.first[variable]
            } else {
                0
            };
        }
        let place = self.place_of(variable, at);
        if place < self.later.len() {
            let known = self.later[place];
            if known.variable == variable && known.chunk.at == at {
                return known.chunk.bits;
            }
        }
        0
    }

    /// Keeps that a variable is apart from those of the first 64.
    fn keep_first(&mut self, variable: usize, bits: u64) -> Result<(), AllocError>
        ensures { OnOk result ((active : List (Meaning × Meaning)) (all : List Meaning) → KnowsApart active all self.old
            → ApartFrom active all variable (record { at = 0; bits = bits }) → KnowsApart active all self.new) }
    {
        while self.first.len() <= variable {
            self.first.push(0)?;
        }
        self.first[variable] = bits;
        Ok(())
    }

    /// Keeps that a variable is apart from those of a chunk, and of the chunk's 64 numbers from no other one.
    fn keep(&mut self, variable: usize, chunk: Chunk) -> Result<(), AllocError>
        ensures { OnOk result ((active : List (Meaning × Meaning)) (all : List Meaning) → KnowsApart active all self.old
            → ApartFrom active all variable chunk → KnowsApart active all self.new) }
    {
        if chunk.at == 0 {
            self.keep_first(variable, chunk.bits)?;
            return Ok(());
        }
        let known = KnownChunk { variable, chunk };
        let place = self.place_of(variable, chunk.at);
        if place < self.later.len() {
            self.later[place] = known;
            return Ok(());
        }
        self.places.insert((variable, chunk.at), self.later.len())?;
        self.later.push(known)?;
        Ok(())
    }
}

/// Whether a variable is apart from those of a chunk. What is not known is looked up. They are known to be then.
fn is_apart_from_chunk<'a, S: Kept>(
    known: &mut KnownApart,
    all: &[S],
    active: &Active<'a, S>,
    variable: usize,
    chunk: Chunk,
) -> Result<bool, AllocError>
    requires known { KnowsApart (meant_pairs S.Listed.means active.now.pairs.now) (map S.means all.now) known.old }
    requires variable { variable < length all.now }
    requires chunk { (n : ℕ) → InChunk chunk n → n < length all.now }
    ensures known { OnOk result (KnowsApart (meant_pairs S.Listed.means active.now.pairs.now) (map S.means all.now) known.new) }
    ensures apart { IfOk result (λ apart. MatchBool apart
        (ApartFrom (meant_pairs S.Listed.means active.now.pairs.now) (map S.means all.now) variable chunk)
        ((n : ℕ) × InChunk chunk n × NotApartAt (meant_pairs S.Listed.means active.now.pairs.now) (map S.means all.now) variable n)) }
{
    let bits = known.bits(variable, chunk.at);
    let mut left = chunk.bits & !bits;
    if left == 0 {
        return Ok(true);
    }
    while left != 0 {
        let k = left.trailing_zeros();
        left &= !(1u64 << k);
        if !active.is_apart(&all[variable], &all[64 * chunk.at + k as usize]) {
            return Ok(false);
        }
    }
    known.keep(
        variable,
        Chunk {
            at: chunk.at,
            bits: chunk.bits | bits,
        },
    )?;
    Ok(true)
}

/// Whether a variable is apart from those of a set. They are known to be then.
fn is_apart_from<'a, S: Kept>(
    known: &mut KnownApart,
    all: &[S],
    active: &Active<'a, S>,
    variable: usize,
    set: &[Chunk],
) -> Result<bool, AllocError>
    requires known { KnowsApart (meant_pairs S.Listed.means active.now.pairs.now) (map S.means all.now) known.old }
    requires variable { variable < length all.now }
    requires set { AreNumbersOf (map S.means all.now) set.now }
    ensures known { OnOk result (KnowsApart (meant_pairs S.Listed.means active.now.pairs.now) (map S.means all.now) known.new) }
    ensures apart { IfOk result (λ apart. MatchBool apart
        ((n : ℕ) → HasNumber set.now n → ApartAt (meant_pairs S.Listed.means active.now.pairs.now) (map S.means all.now) variable n)
        ((n : ℕ) × HasNumber set.now n × NotApartAt (meant_pairs S.Listed.means active.now.pairs.now) (map S.means all.now) variable n)) }
{
    for n in 0..set.len() {
        if !is_apart_from_chunk(&mut *known, all, &*active, variable, set[n])? {
            return Ok(false);
        }
    }
    Ok(true)
}

/// Whether each variable of a chunk is apart from each of a set.
fn is_chunk_apart<'a, S: Kept>(
    known: &mut KnownApart,
    all: &[S],
    active: &Active<'a, S>,
    chunk: Chunk,
    set: &[Chunk],
) -> Result<bool, AllocError>
    requires known { KnowsApart (meant_pairs S.Listed.means active.now.pairs.now) (map S.means all.now) known.old }
    requires chunk { (n : ℕ) → InChunk chunk n → n < length all.now }
    requires set { AreNumbersOf (map S.means all.now) set.now }
    ensures known { OnOk result (KnowsApart (meant_pairs S.Listed.means active.now.pairs.now) (map S.means all.now) known.new) }
    ensures apart { IfOk result (λ apart. MatchBool apart
        ((m n : ℕ) → InChunk chunk m → HasNumber set.now n → ApartAt (meant_pairs S.Listed.means active.now.pairs.now) (map S.means all.now) m n)
        ((m n : ℕ) × InChunk chunk m × HasNumber set.now n × NotApartAt (meant_pairs S.Listed.means active.now.pairs.now) (map S.means all.now) m n)) }
{
    let mut left = chunk.bits;
    while left != 0 {
        let k = left.trailing_zeros();
        left &= !(1u64 << k);
        if !is_apart_from(&mut *known, all, &*active, 64 * chunk.at + k as usize, set)? {
            return Ok(false);
        }
    }
    Ok(true)
}

/// Whether each variable of one set is apart from each of another. They are known to be then.
pub fn are_apart<'a, S: Kept>(
    known: &mut KnownApart,
    all: &[S],
    active: &Active<'a, S>,
    one: &[Chunk],
    other: &[Chunk],
) -> Result<bool, AllocError>
    requires known { KnowsApart (meant_pairs S.Listed.means active.now.pairs.now) (map S.means all.now) known.old }
    requires one { AreNumbersOf (map S.means all.now) one.now }
    requires other { AreNumbersOf (map S.means all.now) other.now }
    ensures known { OnOk result (KnowsApart (meant_pairs S.Listed.means active.now.pairs.now) (map S.means all.now) known.new) }
    ensures apart { IfOk result (λ apart. MatchBool apart
        (EachApart (meant_pairs S.Listed.means active.now.pairs.now) (map S.means all.now) one.now other.now)
        (SomeNotApart (meant_pairs S.Listed.means active.now.pairs.now) (map S.means all.now) one.now other.now)) }
{
    for n in 0..one.len() {
        if !is_chunk_apart(&mut *known, all, &*active, one[n], other)? {
            return Ok(false);
        }
    }
    Ok(true)
}

/// Whether two chunks have a number in common.
fn meet(one: Chunk, other: Chunk) -> bool
    ensures { MatchBool result ((n : ℕ) × InChunk one n × InChunk other n) ((n : ℕ) → InChunk one n → InChunk other n → ⊥) }
{
    if one.at != other.at {
        return false;
    }
    if one.bits & other.bits == 0 {
        return false;
    }
    true
}

/// Whether a number of a chunk is in a set.
fn is_chunk_shared(chunk: Chunk, set: &[Chunk]) -> bool
    ensures { MatchBool result ((n : ℕ) × InChunk chunk n × HasNumber set.now n) ((n : ℕ) → InChunk chunk n → HasNumber set.now n → ⊥) }
{
    for n in 0..set.len() {
        if meet(chunk, set[n]) {
            return true;
        }
    }
    false
}

/// Whether one number is in both sets.
pub fn share(one: &[Chunk], other: &[Chunk]) -> bool
    ensures { MatchBool result (SomeShared one.now other.now) (SomeShared one.now other.now → ⊥) }
{
    for n in 0..one.len() {
        if is_chunk_shared(one[n], other) {
            return true;
        }
    }
    false
}
