//! Sorted lists of pairs, of which equal ones are one, and which are made of one another.

ghost use Rattle.std.specs.Prelude.{◌≡◌, ◌≤◌, ◌<◌, [], All, IfOk, IfSome, IsTrue, OnOk, length};
ghost use Rattle.mm_machine.specs.Language.NumberedSymbols.{AreInOrder};
ghost use Rattle.mm_frame.specs.Code.KeptSortedLists.{HasBoth, HasSame, IsJoined, IsOfBoth, IsThere, KeepsAll, list_at};

use crate::guesses::ListGuesses;
use crate::shared::element_at;
use crate::symbol::same_pairs;
use mm_machine::NumberedSymbol;
use std::alloc::{AllocError, Global};
use std::marker::Model;

/// A list that has the pairs of two others, each by its number.
#[derive(Clone, Copy)]
pub struct Join {
    first: usize,
    second: usize,
    list: usize,
}

/// Lists of pairs, by numbers from 0. Equal ones are one, if a guess finds them; and a list that was made of two others is not
/// made again.
#[derive(Drop)]
pub struct SortedLists {
    lists: Vec<Vec<(NumberedSymbol, NumberedSymbol)>>,
    /// The number of a list that may have such pairs.
    guesses: ListGuesses,
    joins: Vec<Join>,
    /// The number of a join that may be of two such lists.
    join_guesses: ListGuesses,
}

impl Model for SortedLists {
    ghost use Rattle.std.specs.{Prelude.{List, Vec}, Global.{Global as Place}};
    ghost use Rattle.mm_machine.specs.declared.symbol.NumberedSymbol.{NumberedSymbol as Kept};

    ghost Value = { List (Vec (Kept × Kept) Place) };

    ghost use Rattle.mm_frame.specs.Code.KeptSortedLists.{sorted_inside, AreJoins};

    ghost view = { sorted_inside };

    ghost invariant = { AreJoins };
}

/// Sorts the pairs, each with the lower number of a name first, and keeps each once.
pub fn in_order(
    mut pairs: Vec<(NumberedSymbol, NumberedSymbol)>,
) -> Vec<(NumberedSymbol, NumberedSymbol)>
    ensures same { HasSame pairs.items result.items }
    ensures order { All (λ pair. pair.0.name ≤ pair.1.name) pairs.items → AreInOrder result.items }
{
    pairs.sort_unstable_by_key(|pair| (pair.0.name, pair.1.name));
    pairs.dedup();
    pairs.shrink_to_fit();
    pairs
}

impl SortedLists {
    /// No lists, with guesses for those of this many items.
    pub fn with_room(alloc: Global, count: usize) -> Result<SortedLists, AllocError>
        ensures { IfOk result (λ lists. lists ≡ []) }
    {
        let guesses = ListGuesses::with_room(alloc, count)?;
        let join_guesses = ListGuesses::with_room(alloc, count)?;
        Ok(SortedLists {
            lists: Vec::new(alloc),
            guesses,
            joins: Vec::new(alloc),
            join_guesses,
        })
    }

    /// The allocator that the lists are made on.
    pub fn allocator(&self) -> Global {
        *self.lists.allocator()
    }

    /// The same lists alone: what is of use only while lists are made is dropped.
    pub fn finished(self) -> SortedLists
        ensures { result ≡ self }
    {
        let SortedLists { lists, .. } = self;
        let alloc = *lists.allocator();
        SortedLists {
            lists,
            guesses: ListGuesses::none(alloc),
            joins: Vec::new(alloc),
            join_guesses: ListGuesses::none(alloc),
        }
    }

    /// The list with this number: empty if there is no such list.
    pub fn at(&self, k: usize) -> &[(NumberedSymbol, NumberedSymbol)]
        ensures { result.now ≡ list_at self.now k }
    {
        match self.lists.get(k) {
            Some(list) => list,
            None => &[],
        }
    }

    /// Whether the list with this number has these pairs.
    fn is_at(&self, k: usize, list: &[(NumberedSymbol, NumberedSymbol)]) -> bool
        ensures { IsTrue result → IsThere self.now k list.now }
    {
        match element_at(&self.lists, k) {
            Some(kept) => same_pairs(kept, list),
            None => false,
        }
    }

    /// The number of a list with these pairs, if one is found.
    fn find(&self, list: &[(NumberedSymbol, NumberedSymbol)]) -> Option<usize>
        ensures { IfSome result (λ k. IsThere self.now k list.now) }
    {
        let k = self.guesses.guess(self.guesses.place_of_pairs(&[], list));
        if self.is_at(k, list) { Some(k) } else { None }
    }

    /// Keeps a list, unless an equal one is found, and answers its number.
    pub fn keep(&mut self, list: Vec<(NumberedSymbol, NumberedSymbol)>) -> Result<usize, AllocError>
        ensures there { IfOk result (λ k. IsThere self.new k list.items) }
        ensures kept { OnOk result (KeepsAll self.old self.new) }
    {
        if let Some(k) = self.find(&list) {
            return Ok(k);
        }
        let place = self.guesses.place_of_pairs(&[], &list);
        let count = self.lists.len();
        self.lists.push(list)?;
        self.guesses.keep(place, count);
        Ok(count)
    }

    /// Keeps a copy of a list, unless an equal one is found, and answers its number.
    pub fn keep_copy(
        &mut self,
        alloc: Global,
        list: &[(NumberedSymbol, NumberedSymbol)],
    ) -> Result<usize, AllocError>
        ensures there { IfOk result (λ k. IsThere self.new k list.now) }
        ensures kept { OnOk result (KeepsAll self.old self.new) }
    {
        if let Some(k) = self.find(list) {
            return Ok(k);
        }
        self.keep(Vec::from_slice(alloc, list)?)
    }

    /// The number of the list that was made of these two, if one is found.
    fn join_of(&self, first: usize, second: usize) -> Option<usize>
        ensures { IfSome result (λ k. IsJoined self.now first second k) }
    {
        let place = self.join_guesses.place_of_numbers(&[first], second);
        let join = element_at(&self.joins, self.join_guesses.guess(place))?;
        if join.first == first && join.second == second {
            Some(join.list)
        } else {
            None
        }
    }

    /// The pairs of two lists, sorted, each once.
    fn both(
        &self,
        alloc: Global,
        first: usize,
        second: usize,
    ) -> Result<Vec<(NumberedSymbol, NumberedSymbol)>, AllocError>
        ensures { IfOk result (λ both. HasBoth (list_at self.now first) (list_at self.now second) both.items) }
    {
        let mut both = Vec::from_slice(alloc, self.at(first))?;
        both.extend_from_slice(self.at(second))?;
        Ok(in_order(both))
    }

    /// Makes the list that has the pairs of two lists which are there, and answers its number.
    fn make(&mut self, alloc: Global, first: usize, second: usize) -> Result<usize, AllocError>
        requires first { first < length self.old }
        requires second { second < length self.old }
        ensures joined { IfOk result (λ k. IsOfBoth (list_at self.old first) (list_at self.old second) self.new k) }
        ensures kept { OnOk result (KeepsAll self.old self.new) }
    {
        let both = self.both(alloc, first, second)?;
        let list = self.keep(both)?;
        let place = self.join_guesses.place_of_numbers(&[first], second);
        self.join_guesses.keep(place, self.joins.len());
        self.joins.push(Join {
            first,
            second,
            list,
        })?;
        Ok(list)
    }

    /// The number of the list that has the pairs of two lists, if these are there.
    pub fn joined(
        &mut self,
        alloc: Global,
        first: usize,
        second: usize,
    ) -> Result<usize, AllocError>
        ensures joined { IfOk result (λ k. first < length self.old → second < length self.old
            → IsOfBoth (list_at self.old first) (list_at self.old second) self.new k) }
        ensures kept { OnOk result (KeepsAll self.old self.new) }
    {
        if self.at(second).is_empty() {
            return Ok(first);
        }
        if self.at(first).is_empty() {
            return Ok(second);
        }
        if let Some(k) = self.join_of(first, second) {
            return Ok(k);
        }
        self.make(alloc, first, second)
    }
}
