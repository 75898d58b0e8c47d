//! Numbers that some items have, and others do not.

ghost use Rattle.std.specs.Prelude.{◌≡◌, ◌∷◌, ◌++◌, [], None, IfOk, OnErr, OnOk, length, slice_index_or};

use mm_machine::narrow;
use std::alloc::{AllocError, Global};
use std::marker::Model;

/// A number of each of some items, by the numbers of all items from 0. An item takes four bytes.
///
/// To add one more item takes constant time on the average, and so does a look at an item.
#[derive(Drop)]
pub struct Sparse {
    /// For each item one more than its number, or 0 if it has none.
    codes: Vec<u32>,
}

impl Model for Sparse {
    ghost use Rattle.std.specs.Prelude.{ℕ, List, Option};

    ghost Value = { List (Option ℕ) };

    ghost use Rattle.mm_frame.specs.Code.KeptSparse.{numbers_inside};

    ghost view = { numbers_inside };
}

impl Sparse {
    /// No items, with room for this many.
    pub fn with_room(alloc: Global, count: usize) -> Result<Sparse, AllocError>
        ensures { IfOk result (λ sparse. sparse ≡ []) }
    {
        let codes = Vec::with_capacity(alloc, count)?;
        Ok(Sparse { codes })
    }

    /// How many items there are.
    pub fn count(&self) -> usize
        ensures { result ≡ length self.now }
    {
        self.codes.len()
    }

    /// The number of an item, if it has one.
    #[inline(always)]
    pub fn at(&self, item: usize) -> Option<usize>
        ensures { result ≡ slice_index_or self.now item None }
    {
        (*self.codes.get(item)? as usize).checked_sub(1)
    }

    /// Adds one more item, with its number if it has one. Out of memory changes nothing.
    #[inline(always)]
    pub fn add(&mut self, number: Option<usize>) -> Result<(), AllocError>
        ensures ok { OnOk result (self.new ≡ self.old ++ number ∷ []) }
        ensures err { OnErr result (self.new ≡ self.old) }
    {
        let code = match number {
            Some(number) => narrow(number.saturating_add(1))?,
            None => 0,
        };
        self.codes.push(code)?;
        Ok(())
    }
}
