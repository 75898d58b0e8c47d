//! The variables of a run, by numbers.

ghost use Rattle.std.specs.Prelude.{◌≡◌, ◌++◌, List, [], Contains, Some, MatchOption, IfOk, OnOk, map, slice_get, slice_set};
ghost use Rattle.mm_machine.specs.Language.{Frame.{Symbol as Meaning}, Keys.{AreNumbered, home as home_lem}};

use crate::kept::Kept;
use crate::symbol::Symbol;
use std::alloc::{AllocError, Global};

/// The variables that entries of a run have, each once, numbered from 0 as they come.
#[derive(Drop)]
pub struct Variables<S> {
    /// The variables by their numbers.
    pub all: Vec<S>,
    /// At the place of the key of each variable, its number, or that of another variable with this place.
    pub places: Vec<usize>,
}

/// Where a key is noted in a table of this many places: at its own place, or at its remainder.
fn home(key: usize, count: usize) -> usize
    ensures { result ≡ home_lem key count }
{
    if key < count || count == 0 {
        key
    } else {
        key % count
    }
}

/// Writes `place` at `at` into a table, if the table has `at`.
fn note(places: &mut Vec<usize>, at: usize, place: usize)
    ensures { places.new.items ≡ slice_set places.old.items at place }
{
    if at < places.len() {
        places[at] = place;
    }
}

impl<S: Kept> Variables<S> {
    /// None. It takes no memory.
    pub fn new(alloc: Global) -> Variables<S>
        ensures { result.all.items ≡ [] }
    {
        Variables {
            all: Vec::new(alloc),
            places: Vec::new(alloc),
        }
    }

    /// Leaves none. The memory is kept.
    pub fn clear(&mut self)
        ensures none { self.new.all.items ≡ [] }
        ensures numbered { AreNumbered S.key_of (map S.means self.new.all.items) self.new.places.items }
    {
        self.all.clear();
    }

    /// The number of a symbol, if it is one of the variables: all of them are searched.
    #[cold]
    fn position(&self, symbol: &S) -> Option<usize>
        ensures { MatchOption result (Contains (map S.means self.now.all.items) (S.means symbol.now) → ⊥)
            (λ n. slice_get (map S.means self.now.all.items) n ≡ Some (S.means symbol.now)) }
    {
        for n in 0..self.all.len() {
            if self.all[n].same(symbol) {
                return Some(n);
            }
        }
        None
    }

    /// The number of a symbol, if it is one of the variables: the one that the table has for its key, if that is its own.
    pub fn find(&self, symbol: &S) -> Option<usize>
        requires { AreNumbered S.key_of (map S.means self.now.all.items) self.now.places.items }
        ensures { MatchOption result (Contains (map S.means self.now.all.items) (S.means symbol.now) → ⊥)
            (λ n. slice_get (map S.means self.now.all.items) n ≡ Some (S.means symbol.now)) }
    {
        let at = home(symbol.key(), self.places.len());
        if at >= self.places.len() {
            return self.position(symbol);
        }
        let place = self.places[at];
        if place >= self.all.len() {
            return None;
        }
        let x = &self.all[place];
        if x.same(symbol) {
            return Some(place);
        }
        if home(x.key(), self.places.len()) != at {
            return None;
        }
        self.position(symbol)
    }

    /// The number of a variable, which it gets if it has none yet.
    #[inline(always)]
    pub fn number(&mut self, alloc: Global, symbol: &S) -> Result<usize, AllocError>
        requires { AreNumbered S.key_of (map S.means self.old.all.items) self.old.places.items }
        ensures numbered { OnOk result (AreNumbered S.key_of (map S.means self.new.all.items) self.new.places.items) }
        ensures grows { OnOk result ((more : List Meaning) × (map S.means self.new.all.items ≡ map S.means self.old.all.items ++ more)) }
        ensures number { IfOk result (λ n. slice_get (map S.means self.new.all.items) n ≡ Some (S.means symbol.now)) }
    {
        if let Some(number) = self.find(symbol) {
            return Ok(number);
        }
        let number = self.all.len();
        let at = home(symbol.key(), self.places.len());
        note(&mut self.places, at, number);
        self.all.push(symbol.copy(alloc)?)?;
        Ok(number)
    }
}
