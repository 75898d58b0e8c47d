//! The variables of the active `$e`.

ghost use Rattle.std.specs.Prelude.{◌≡◌, ◌<◌, ◌≤◌, ◌++◌, ◌∷◌, ℕ, List, [], IsTrue, OnOk, Contains, length, drop};
ghost use Rattle.mm_machine.specs.declared.symbol.NumberedSymbol.{NumberedSymbol as Kept};
ghost use Rattle.mm_frame.specs.{declared.essential.EssentialVariable.{EssentialVariable}, Language.Scope.{active_numbers}, Code.LastItems.{is_essential_item, IsRising}};
ghost use Rattle.mm_statement.specs.Language.Item as meant;

use crate::expressions::Expressions;
use crate::rising::is_among;
use mm_machine::NumberedSymbol;
use std::alloc::{AllocError, Global};

/// A variable of an active `$e`.
#[derive(Clone, Copy)]
pub struct EssentialVariable {
    /// The number of the first active `$e` that has it.
    pub number: usize,
    /// The variable.
    pub symbol: NumberedSymbol,
}

/// The variables of the active `$e`, each once, by the first active `$e` that has it. They are kept as long as that one is
/// active; so an assertion needs no look at each symbol of each active `$e`.
#[derive(Drop)]
pub struct EssentialVariables {
    found: Vec<EssentialVariable>,
    /// The place where a variable may be, by the number of its name. What is found there is compared, so no answer depends
    /// on it.
    places: Vec<usize>,
}

/// Whether a number is greater than those of all active `$e`, which rise.
fn is_later(number: usize, essentials: &[usize]) -> bool
    ensures { IsTrue result → IsRising essentials.now → (n : ℕ) → Contains essentials.now n → n < number }
{
    match essentials.last() {
        Some(last) => *last < number,
        None => true,
    }
}

/// How many of the variables are left if these `$e` are active.
fn left_count(found: &[EssentialVariable], essentials: &[usize]) -> usize
    ensures within { result ≤ length found.now }
    ensures dropped { IsRising essentials.now → (v : EssentialVariable) → Contains (drop result found.now) v
        → (n : ℕ) → Contains essentials.now n → n < v.number }
{
    let mut count = found.len();
    while count > 0 && is_later(found[count - 1].number, essentials) {
        count -= 1;
    }
    count
}

impl EssentialVariables {
    ghost use Rattle.mm_frame.specs.Code.KeptVariables.{AddsOne, AddsAll, AreVariablesOf, IsKeptBy};

    /// No `$e` is active. Takes no memory.
    pub fn new(alloc: Global) -> Self
        ensures { AreVariablesOf [] [] result.found.items }
    {
        EssentialVariables {
            found: Vec::new(alloc),
            places: Vec::new(alloc),
        }
    }

    /// The variables, each with its `$e`.
    pub fn as_slice(&self) -> &[EssentialVariable]
        ensures { result.now ≡ self.now.found.items }
    {
        &self.found
    }

    /// Whether a variable is kept, by one of these active `$e`.
    fn has(&self, essentials: &[usize], symbol: NumberedSymbol) -> bool
        ensures { IsRising essentials.now → IsTrue result → IsKeptBy essentials.now self.now.found.items symbol }
    {
        if symbol.name >= self.places.len() {
            return false;
        }
        let place = self.places[symbol.name];
        if place >= self.found.len() {
            return false;
        }
        let kept = self.found[place];
        kept.symbol == symbol && is_among(essentials, kept.number)
    }

    /// Notes the place of the variable that is kept next.
    fn note(&mut self, symbol: NumberedSymbol) -> Result<(), AllocError>
        ensures { OnOk result (self.new.found ≡ self.old.found) }
    {
        while self.places.len() <= symbol.name {
            self.places.push(0)?;
        }
        self.places[symbol.name] = self.found.len();
        Ok(())
    }

    /// Keeps a symbol of the `$e` with this number, one of these that are active, if it is a variable that is not kept
    /// yet.
    fn add(
        &mut self,
        essentials: &[usize],
        number: usize,
        symbol: NumberedSymbol,
    ) -> Result<(), AllocError>
        ensures { OnOk result (IsRising essentials.now → Contains essentials.now number
            → AddsOne essentials.now number symbol self.old.found.items self.new.found.items) }
    {
        if !symbol.variable {
            return Ok(());
        }
        if self.has(essentials, symbol) {
            return Ok(());
        }
        self.note(symbol)?;
        self.found.push(EssentialVariable { number, symbol })?;
        Ok(())
    }

    /// Keeps the variables of the `$e` with this number and these symbols, one of these that are active.
    fn add_all(
        &mut self,
        essentials: &[usize],
        number: usize,
        symbols: &[NumberedSymbol],
    ) -> Result<(), AllocError>
        ensures { OnOk result (IsRising essentials.now → Contains essentials.now number
            → AddsAll essentials.now number symbols.now self.old.found.items self.new.found.items) }
    {
        for k in 0..symbols.len() {
            self.add(essentials, number, symbols[k])?;
        }
        Ok(())
    }

    /// Goes on past one more item, which has this number: these are the active `$e` after it, and the symbols of all.
    pub fn add_item(
        &mut self,
        essentials: &[usize],
        expressions: &Expressions,
        number: usize,
    ) -> Result<(), AllocError>
        ensures { OnOk result ((before : List meant.Said) (item : meant.Said) (old : List (List Kept)) (symbols : List Kept) → number ≡ length before
            → essentials.now ≡ active_numbers is_essential_item (before ++ item ∷ []) → length old ≡ length before → expressions.now ≡ old ++ symbols ∷ []
            → AreVariablesOf (active_numbers is_essential_item before) old self.old.found.items
            → AreVariablesOf essentials.now expressions.now self.new.found.items) }
    {
        let count = left_count(&self.found, essentials);
        self.found.truncate(count);
        if is_among(essentials, number) {
            self.add_all(essentials, number, expressions.at(number))?;
        }
        Ok(())
    }
}
