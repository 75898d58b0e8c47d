//! The lists of active pairs, each made from that of the outer `$d`.

ghost use Rattle.std.specs.{Prelude.{◌≡◌, ◌<◌, ◌≤◌, ◌+◌, ◌-◌, ◌++◌, ℕ, List, [], OnOk, IfOk, IfSome, IsTrue, Contains, length, map, take}, List.{flat_map}};
ghost use Rattle.mm_frame.specs.{Language.{Sound.{AreSound}, Framing.{active_pairs}, Scope.{active_numbers}}, Code.{LastItems.{is_disjoint_item}, KeptSymbols.{AreSymbols}, KeptLists.{item_list}}};
ghost use Rattle.mm_frame.specs.Code.{KeptPairLists.{AreFrontNumbers, pairs_among, with_low_first}, KeptSortedLists.{HasEach}};
ghost use Rattle.mm_machine.specs.Language.{Frame.{Symbol as Meaning}, NumberedSymbols.{AreSamePairsRead}};
ghost use Rattle.mm_statement.specs.Language.Item as meant;

use crate::expressions::Expressions;
use crate::sorted_lists::{SortedLists, in_order};
use mm_machine::NumberedSymbol;
use std::alloc::{AllocError, Global};
use std::collections::HashMap;

/// The lists of active pairs, each made once.
///
/// Which pairs are active depends on the items up to the last active `$d` alone. So all places with the same last
/// active `$d` share one list, and equal lists are one. A list has each pair once, with the lower number of a name first,
/// and is sorted by these numbers.
///
/// A list is made from that of the outer `$d`, those that were active when the last list was made, and that of the others.
/// It is the list of the outer ones if the others add no pair, which takes time near linear in the pairs of the others; and
/// what was made of the same two lists is not made again.
#[derive(Drop)]
pub struct PairLists {
    pub lists: SortedLists,
    /// The number of the list, by the count of items up to the last active `$d`: 0 if no `$d` is active.
    by_count: HashMap<usize, usize>,
    /// The count of items up to the last `$d` of the last list that was made.
    reach: usize,
}

/// The two symbols, the one with the lower number of its name first.
fn low_first(x: NumberedSymbol, y: NumberedSymbol) -> (NumberedSymbol, NumberedSymbol)
    ensures { result ≡ with_low_first (x, y) }
{
    if x.name <= y.name { (x, y) } else { (y, x) }
}

/// Adds the pairs of a symbol with each of others.
fn add_with_each(
    first: NumberedSymbol,
    others: &[NumberedSymbol],
    pairs: &mut Vec<(NumberedSymbol, NumberedSymbol)>,
) -> Result<(), AllocError>
    ensures { OnOk result (pairs.new.items ≡ pairs.old.items ++ map (λ y. with_low_first (first, y)) others.now) }
{
    for other in others {
        pairs.push(low_first(first, *other))?;
    }
    Ok(())
}

/// Adds the pairs of each symbol with each later one.
fn add_pairs_of(
    symbols: &[NumberedSymbol],
    pairs: &mut Vec<(NumberedSymbol, NumberedSymbol)>,
) -> Result<(), AllocError>
    ensures { OnOk result (pairs.new.items ≡ pairs.old.items ++ pairs_among symbols.now) }
{
    let mut rest = symbols;
    while let Some((first, others)) = rest.split_first() {
        add_with_each(*first, others, pairs)?;
        rest = others;
    }
    Ok(())
}

/// Adds the pairs of the `$d` with this number.
fn add_pairs_at(
    expressions: &Expressions,
    number: usize,
    pairs: &mut Vec<(NumberedSymbol, NumberedSymbol)>,
) -> Result<(), AllocError>
    ensures { OnOk result (pairs.new.items ≡ pairs.old.items ++ pairs_among (item_list expressions.now number)) }
{
    add_pairs_of(expressions.at(number), pairs)
}

/// How many pairs the `$d` with these numbers have, if there are not too many.
fn pair_count(disjoints: &[usize], expressions: &Expressions) -> usize {
    let mut count: usize = 0;
    for number in disjoints {
        let symbols = expressions.at(*number).len();
        let doubled = symbols.saturating_mul(symbols.saturating_sub(1));
        count = count.saturating_add(doubled / 2);
    }
    count
}

/// The pairs of the `$d` with these numbers.
fn pairs_at(
    alloc: Global,
    disjoints: &[usize],
    expressions: &Expressions,
) -> Result<Vec<(NumberedSymbol, NumberedSymbol)>, AllocError>
    ensures { IfOk result (λ pairs. pairs.items ≡ flat_map (λ n. pairs_among (item_list expressions.now n)) disjoints.now) }
{
    let mut pairs = Vec::with_capacity(alloc, pair_count(disjoints, expressions))?;
    for number in disjoints {
        add_pairs_at(expressions, *number, &mut pairs)?;
    }
    Ok(pairs)
}

/// Whether a sorted list has a pair. What is found is compared.
fn has_pair(
    list: &[(NumberedSymbol, NumberedSymbol)],
    pair: &(NumberedSymbol, NumberedSymbol),
) -> bool
    ensures { IsTrue result → Contains list.now pair.now }
{
    match list.binary_search(pair) {
        Ok(at) => list[at] == *pair,
        Err(_) => false,
    }
}

/// Whether a sorted list has each of some pairs.
fn has_all(
    list: &[(NumberedSymbol, NumberedSymbol)],
    pairs: &[(NumberedSymbol, NumberedSymbol)],
) -> bool
    ensures { IsTrue result → HasEach list.now pairs.now }
{
    for pair in pairs {
        if !has_pair(list, pair) {
            return false;
        }
    }
    true
}

/// How many of the active `$d` were active when the last list was made, which was for this many items.
fn outer_count(disjoints: &[usize], reach: usize) -> usize
    ensures { result ≤ length disjoints.now }
{
    let mut count = disjoints.len();
    while count > 0 && disjoints[count - 1] >= reach {
        count -= 1;
    }
    count
}

/// The count of items up to the one with this number, of this many in all: 0 if there is no such item.
fn count_to(number: usize, count: usize) -> usize
    ensures { number < count → result ≡ number + 1 }
{
    if number < count { number + 1 } else { 0 }
}

/// The count of items up to the last of the first active `$d`: 0 if there is none.
pub fn count_to_last(disjoints: &[usize], expressions: &Expressions) -> usize
    ensures { (all : List (List ℕ)) (before : List meant.Said) (rest : List ℕ) → AreSymbols all before expressions.now
        → disjoints.now ++ rest ≡ active_numbers is_disjoint_item before → AreFrontNumbers before disjoints.now result }
{
    match disjoints.last() {
        Some(number) => count_to(*number, expressions.count()),
        None => 0,
    }
}

impl PairLists {
    ghost use Rattle.mm_frame.specs.Code.KeptPairLists.{AreListsFor, IsList, KeepsLists, list_kept, listed_for};

    /// No lists, with guesses for those of this many items.
    pub fn with_room(alloc: Global, count: usize) -> Result<Self, AllocError>
        ensures { IfOk result (λ lists. (all : List (List ℕ)) → AreListsFor all [] lists) }
    {
        let lists = SortedLists::with_room(alloc, count)?;
        Ok(PairLists {
            lists,
            by_count: HashMap::new(alloc),
            reach: 0,
        })
    }

    /// The number of the list that is made for this many items, if one is made.
    fn list_for(&self, count: usize) -> Option<usize>
        ensures { result ≡ listed_for self.now count }
    {
        self.by_count.get(&count).copied()
    }

    /// Whether a list is made for the items up to the one with this number.
    fn has_list(&self, number: usize, expressions: &Expressions) -> bool {
        self.list_for(count_to(number, expressions.count()))
            .is_some()
    }

    /// The same lists alone: what is of use only while lists are made is dropped.
    pub fn finished(self) -> PairLists
        ensures { result.lists ≡ self.lists }
    {
        let PairLists { lists, .. } = self;
        let alloc = lists.allocator();
        PairLists {
            lists: lists.finished(),
            by_count: HashMap::new(alloc),
            reach: 0,
        }
    }

    /// The number of the list of the first active `$d`, which is made now, of all their pairs, if there is none yet: `count` is
    /// that of the items up to the last of them.
    fn first_list(
        &mut self,
        alloc: Global,
        first: &[usize],
        count: usize,
        expressions: &Expressions,
    ) -> Result<usize, AllocError>
        ensures pairs { IfOk result (λ k. (all : List (List ℕ)) (before : List meant.Said) → AreSound before → AreSymbols all before expressions.now
            → AreFrontNumbers before first.now count → AreListsFor all before self.old → IsList all self.new k (active_pairs (take count before))) }
        ensures by_count { OnOk result ((all : List (List ℕ)) (before : List meant.Said) → AreSound before → AreSymbols all before expressions.now
            → AreFrontNumbers before first.now count → AreListsFor all before self.old → AreListsFor all before self.new) }
        ensures kept { OnOk result (KeepsLists self.old self.new) }
    {
        if let Some(k) = self.list_for(count) {
            return Ok(k);
        }
        let pairs = pairs_at(alloc, first, expressions)?;
        let k = self.lists.keep(in_order(pairs))?;
        self.by_count.insert(count, k)?;
        Ok(k)
    }

    /// The number of the list that has the pairs of the list `base` and those of the `$d` with these numbers.
    fn extended(
        &mut self,
        alloc: Global,
        base: usize,
        own: &[usize],
        expressions: &Expressions,
    ) -> Result<usize, AllocError>
        ensures pairs { IfOk result (λ k. (all : List (List ℕ)) (said added : List (Meaning × Meaning)) → IsList all self.old base said
            → AreSamePairsRead all added (flat_map (λ n. pairs_among (item_list expressions.now n)) own.now) → IsList all self.new k (said ++ added)) }
        ensures kept { OnOk result (KeepsLists self.old self.new) }
        ensures by_count { OnOk result (self.new.by_count ≡ self.old.by_count) }
    {
        let pairs = pairs_at(alloc, own, expressions)?;
        if has_all(self.list(base), &pairs) {
            return Ok(base);
        }
        let k = self.lists.keep(in_order(pairs))?;
        self.lists.joined(alloc, k, base)
    }

    /// How many of the first active `$d` have a list that is made: the most that have one, or none of them.
    fn listed_count(&self, disjoints: &[usize], expressions: &Expressions) -> usize
        ensures { result ≤ length disjoints.now }
    {
        let mut count = disjoints.len();
        while count > 0 && !self.has_list(disjoints[count - 1], expressions) {
            count -= 1;
        }
        count
    }

    /// The number of the list of the outer `$d`, the first of those that are active, which is made now if there is none yet:
    /// `count` is that of the items up to the last of them. It is made from that of the most `$d` that have one, so that no
    /// pair of these `$d` is looked up again.
    fn outer_list(
        &mut self,
        alloc: Global,
        outer: &[usize],
        count: usize,
        expressions: &Expressions,
    ) -> Result<usize, AllocError>
        ensures pairs { IfOk result (λ k. (all : List (List ℕ)) (before : List meant.Said) (rest : List ℕ) → AreSound before
            → AreSymbols all before expressions.now
            → outer.now ++ rest ≡ active_numbers is_disjoint_item before → AreFrontNumbers before outer.now count → AreListsFor all before self.old
            → IsList all self.new k (active_pairs (take count before))) }
        ensures by_count { OnOk result ((all : List (List ℕ)) (before : List meant.Said) (rest : List ℕ) → AreSound before
            → AreSymbols all before expressions.now → outer.now ++ rest ≡ active_numbers is_disjoint_item before
            → AreFrontNumbers before outer.now count → AreListsFor all before self.old → AreListsFor all before self.new) }
        ensures kept { OnOk result (KeepsLists self.old self.new) }
    {
        if let Some(k) = self.list_for(count) {
            return Ok(k);
        }
        let done = self.listed_count(outer, expressions);
        let front = count_to_last(&outer[..done], expressions);
        let base = self.first_list(alloc, &outer[..done], front, expressions)?;
        let k = self.extended(alloc, base, &outer[done..], expressions)?;
        self.by_count.insert(count, k)?;
        Ok(k)
    }

    /// The number of the list of the active pairs after sound items, which is made now if there is none yet.
    ///
    /// `disjoints` are the numbers of the active `$d`, and `expressions` the symbols of the items by their numbers.
    pub fn list_of(
        &mut self,
        alloc: Global,
        disjoints: &[usize],
        expressions: &Expressions,
    ) -> Result<usize, AllocError>
        ensures pairs { IfOk result (λ k. (all : List (List ℕ)) (before : List meant.Said) → AreSound before → AreSymbols all before expressions.now
            → disjoints.now ≡ active_numbers is_disjoint_item before → AreListsFor all before self.old → IsList all self.new k (active_pairs before)) }
        ensures by_count { OnOk result ((all : List (List ℕ)) (before : List meant.Said) → AreSound before → AreSymbols all before expressions.now
            → disjoints.now ≡ active_numbers is_disjoint_item before → AreListsFor all before self.old → AreListsFor all before self.new) }
        ensures kept { OnOk result (KeepsLists self.old self.new) }
    {
        let count = count_to_last(disjoints, expressions);
        if let Some(k) = self.list_for(count) {
            return Ok(k);
        }
        let outer = outer_count(disjoints, self.reach);
        let front = count_to_last(&disjoints[..outer], expressions);
        let base = self.outer_list(alloc, &disjoints[..outer], front, expressions)?;
        let k = self.extended(alloc, base, &disjoints[outer..], expressions)?;
        self.by_count.insert(count, k)?;
        self.reach = count;
        Ok(k)
    }

    /// The number of the list that is made for the active `$d` with these numbers, if one is made.
    pub fn find_list(&self, disjoints: &[usize], expressions: &Expressions) -> Option<usize>
        ensures { IfSome result (λ k. (all : List (List ℕ)) (before : List meant.Said) → AreSound before → AreSymbols all before expressions.now
            → disjoints.now ≡ active_numbers is_disjoint_item before → AreListsFor all before self.now → IsList all self.now k (active_pairs before)) }
    {
        self.list_for(count_to_last(disjoints, expressions))
    }

    /// Takes this list as the one that is made for the active `$d` with these numbers.
    pub fn keep_list(
        &mut self,
        disjoints: &[usize],
        expressions: &Expressions,
        k: usize,
    ) -> Result<(), AllocError>
        ensures by_count { OnOk result ((all : List (List ℕ)) (before : List meant.Said) → AreSound before → AreSymbols all before expressions.now
            → disjoints.now ≡ active_numbers is_disjoint_item before → IsList all self.old k (active_pairs before) → AreListsFor all before self.old
            → AreListsFor all before self.new) }
        ensures lists { OnOk result (self.new.lists ≡ self.old.lists) }
    {
        let count = count_to_last(disjoints, expressions);
        self.by_count.insert(count, k)?;
        self.reach = count;
        Ok(())
    }

    /// The list with this number: empty if there is no such list.
    pub fn list(&self, k: usize) -> &[(NumberedSymbol, NumberedSymbol)]
        ensures { result.now ≡ list_kept self.now k }
    {
        self.lists.at(k)
    }
}
