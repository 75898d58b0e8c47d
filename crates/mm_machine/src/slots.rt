//! The slots of an expression: where its variables are.

ghost use Rattle.std.specs.Prelude.{◌≡◌, ◌+◌, ◌++◌, ◌≤◌, List, IfOk, OnOk, length, map, take};
ghost use Rattle.mm_machine.specs.Language.{Frame.{Symbol as Meaning}, Lasting.{AreSlotsOf}, Keys.{AreNumbered}};

use crate::four_bytes::narrow;
use crate::kept::Kept;
use crate::variables::Variables;
use std::alloc::{AllocError, Global};

/// A run of constants of an expression, and the variable behind it.
#[derive(Clone, Copy)]
pub struct Slot {
    /// How many constants there are.
    pub constants: u32,
    /// The number of the variable.
    pub variable: u32,
}

/// The slot of a variable with this number, behind so many constants.
fn slot_from(constants: usize, variable: usize) -> Result<Slot, AllocError>
    ensures { IfOk result (λ slot. (slot.constants ≡ constants) × (slot.variable ≡ variable)) }
{
    Ok(Slot {
        constants: narrow(constants)?,
        variable: narrow(variable)?,
    })
}

/// Puts the symbols of an expression to a place of a list, and adds its slots after others. Its variables get numbers, if they
/// have none yet.
pub fn put_expression<S: Kept>(
    alloc: Global,
    all: &mut [S],
    at: usize,
    expression: &[S::Listed],
    variables: &mut Variables<S>,
    slots: &mut Vec<Slot>,
) -> Result<(), AllocError>
    requires room { at + length expression.now ≤ length all.old }
    requires numbered { AreNumbered S.key_of (map S.means variables.old.all.items) variables.old.places.items }
    ensures count { length all.new ≡ length all.old }
    ensures put { OnOk result (take (at + length expression.now) (map S.means all.new)
        ≡ take at (map S.means all.old) ++ map S.Listed.means expression.now) }
    ensures numbered { OnOk result (AreNumbered S.key_of (map S.means variables.new.all.items) variables.new.places.items) }
    ensures grows { OnOk result ((more : List Meaning) × (map S.means variables.new.all.items ≡ map S.means variables.old.all.items ++ more)) }
    ensures slots { OnOk result ((more : List Slot) × (slots.new.items ≡ slots.old.items ++ more)
        × AreSlotsOf (map S.means variables.new.all.items) (map S.Listed.means expression.now) more) }
{
    let mut constants: usize = 0;
    for place in 0..expression.len() {
        let symbol = S::of(alloc, &expression[place])?;
        if symbol.is_variable() {
            let variable = variables.number(alloc, &symbol)?;
            slots.push(slot_from(constants, variable)?)?;
            constants = 0;
        } else {
            constants += 1;
        }
        all[at + place] = symbol;
    }
    Ok(())
}
