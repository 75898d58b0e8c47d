//! The variables of the entries that an assertion takes, as sets of numbers.

ghost use Rattle.std.specs.Prelude.{◌≡◌, ◌≤◌, ◌++◌, List, OnOk, length, map};
ghost use Rattle.mm_machine.specs.{Language.{Frame.{Symbol as Meaning}, Keys.{AreNumbered}}, Code.{Flat.{IsEntryWithin, read}, Filling.{AreTaken, entries_of, frame_taking}}};
ghost use Rattle.mm_machine.specs.Code.PairClause.{GathersOne, GathersSymbols, GathersEntry, Gathers, IsPairRoom};

use crate::apart::KnownApart;
use crate::kept::Kept;
use crate::pattern::Entry;
use crate::sets::Sets;
use crate::symbol::Symbol;
use crate::taken::{Taken, hypothesis_at};
use crate::variables::Variables;
use std::alloc::{AllocError, Global};

/// A mandatory pair, by where the `$f` of its variables are among the mandatory hypotheses.
#[derive(Clone, Copy)]
pub struct SlotPair {
    pub first: usize,
    pub second: usize,
}

/// What the pair clause keeps in a run.
#[derive(Drop)]
pub struct PairRoom<S> {
    /// The variables of the run so far.
    pub variables: Variables<S>,
    /// Which of them are known to be apart.
    pub known: KnownApart,
    /// The variables of each entry that the last assertion took.
    pub sets: Sets,
    /// For each of these entries the range of its chunks.
    pub spans: Vec<Entry>,
    /// The mandatory pairs of this assertion.
    pub slots: Vec<SlotPair>,
}

/// Adds a symbol to the last set, whose chunks begin at a place, if it is a variable.
fn gather_one<S: Kept>(
    alloc: Global,
    symbol: &S,
    start: usize,
    variables: &mut Variables<S>,
    sets: &mut Sets,
) -> Result<(), AllocError>
    requires numbered { AreNumbered S.key_of (map S.means variables.old.all.items) variables.old.places.items }
    requires start { start ≤ length sets.old.chunks.items }
    ensures numbered { OnOk result (AreNumbered S.key_of (map S.means variables.new.all.items) variables.new.places.items) }
    ensures grows { OnOk result ((more : List Meaning) × (map S.means variables.new.all.items ≡ map S.means variables.old.all.items ++ more)) }
    ensures gathers { OnOk result (GathersOne start (S.means symbol.now) (map S.means variables.new.all.items) sets.old.chunks.items sets.new.chunks.items) }
{
    if symbol.is_variable() {
        let number = variables.number(alloc, &*symbol)?;
        sets.add(start, number)?;
    }
    Ok(())
}

/// Adds the set of the variables among some symbols.
fn gather<S: Kept>(
    alloc: Global,
    symbols: &[S],
    variables: &mut Variables<S>,
    sets: &mut Sets,
) -> Result<(), AllocError>
    requires { AreNumbered S.key_of (map S.means variables.old.all.items) variables.old.places.items }
    ensures numbered { OnOk result (AreNumbered S.key_of (map S.means variables.new.all.items) variables.new.places.items) }
    ensures grows { OnOk result ((more : List Meaning) × (map S.means variables.new.all.items ≡ map S.means variables.old.all.items ++ more)) }
    ensures gathers { OnOk result (GathersSymbols (map S.means symbols.now) (map S.means variables.new.all.items) sets.old.chunks.items
        sets.new.chunks.items) }
{
    let start = sets.chunks.len();
    for i in 0..symbols.len() {
        gather_one(alloc, &symbols[i], start, &mut *variables, &mut *sets)?;
    }
    Ok(())
}

impl<S: Kept> PairRoom<S> {
    /// No variables. It takes no memory.
    pub fn new(alloc: Global) -> PairRoom<S> {
        PairRoom {
            variables: Variables::new(alloc),
            known: KnownApart::new(alloc),
            sets: Sets::new(alloc),
            spans: Vec::new(alloc),
            slots: Vec::new(alloc),
        }
    }

    /// Begins a run, with no variables. Some memory is kept.
    pub fn clear(&mut self, alloc: Global)
        ensures { (active : List (Meaning × Meaning)) → IsPairRoom S.means S.key_of active self.new }
    {
        self.variables.clear();
        self.known.clear(alloc);
    }

    /// The variables of one more entry.
    fn gather_entry(
        &mut self,
        alloc: Global,
        symbols: &[S],
        entry: Entry,
        floating: bool,
    ) -> Result<(), AllocError>
        requires within { IsEntryWithin (length symbols.now) entry }
        requires numbered { AreNumbered S.key_of (map S.means self.old.variables.all.items) self.old.variables.places.items }
        ensures numbered { OnOk result (AreNumbered S.key_of (map S.means self.new.variables.all.items) self.new.variables.places.items) }
        ensures grows { OnOk result ((more : List Meaning) × (map S.means self.new.variables.all.items ≡ map S.means self.old.variables.all.items ++ more)) }
        ensures known { OnOk result (self.new.known ≡ self.old.known) }
        ensures gathers { OnOk result (GathersEntry floating (read (map S.means symbols.now) entry) (map S.means self.new.variables.all.items)
            self.old.sets.chunks.items self.new.sets.chunks.items self.old.spans.items self.new.spans.items) }
    {
        let start = self.sets.chunks.len();
        if !floating || entry.start == entry.end {
            self.spans.push(Entry {
                start,
                end: start,
                floor: start,
            })?;
            return Ok(());
        }
        gather(
            alloc,
            &symbols[entry.start + 1..entry.end],
            &mut self.variables,
            &mut self.sets,
        )?;
        let end = self.sets.chunks.len();
        self.spans.push(Entry {
            start,
            end,
            floor: start,
        })?;
        Ok(())
    }

    /// The variables of the entries of all `$f`.
    pub fn gather_all<'s, 'c>(
        &mut self,
        alloc: Global,
        taken: &Taken<'s, 'c, S, S::Listed>,
    ) -> Result<(), AllocError>
        requires taken { AreTaken S.means S.Listed.means S.key_of taken.now }
        requires numbered { AreNumbered S.key_of (map S.means self.old.variables.all.items) self.old.variables.places.items }
        ensures numbered { OnOk result (AreNumbered S.key_of (map S.means self.new.variables.all.items) self.new.variables.places.items) }
        ensures grows { OnOk result ((more : List Meaning) × (map S.means self.new.variables.all.items ≡ map S.means self.old.variables.all.items ++ more)) }
        ensures known { OnOk result (self.new.known ≡ self.old.known) }
        ensures gathers { OnOk result (Gathers (frame_taking S.means S.Listed.means taken.now).hypotheses (entries_of S.means taken.now)
            (map S.means self.new.variables.all.items) self.new.sets.chunks.items self.new.spans.items (length taken.now.entries.now)) }
    {
        self.sets.chunks.clear();
        self.spans.clear();
        for place in 0..taken.entries.len() {
            let floating = hypothesis_at(&*taken, place).floating;
            self.gather_entry(alloc, taken.symbols, taken.entries[place], floating)?;
        }
        Ok(())
    }
}
