//! The active items of one sort, by their numbers.

ghost use Rattle.std.specs.Prelude.{◌≡◌, ◌+◌, ℕ, Bool, true, false, List, [], ◌∷◌, ◌++◌, length, drop, OnOk, OnErr};
ghost use Rattle.mm_frame.specs.{Language.{Scope.{active_numbers}, Marks.{Neither, mark_of}}, Code.{BlockMarks.{stays_by, block_marks}, KeptActive.{IsPruned}}};
ghost use Rattle.mm_statement.specs.Language.Item as meant;

use crate::blocks::Blocks;
use std::alloc::{AllocError, Global};
use std::marker::Model;

/// The numbers of the active items of one sort, rising. Items are numbered from 0.
///
/// Over all items, a number is added once and dropped once at most: both take constant time on the average.
#[derive(Drop)]
pub struct ActiveNumbers {
    numbers: Vec<usize>,
}

impl Model for ActiveNumbers {
    ghost use Rattle.std.specs.Prelude.{List, ℕ};

    ghost Value = { List ℕ };

    ghost use Rattle.mm_frame.specs.Code.KeptActive.{numbers_inside};

    ghost view = { numbers_inside };
}

/// Whether the item with this number is active after the last item.
fn is_active_behind(blocks: &Blocks, number: usize) -> bool
    ensures { result ≡ stays_by (drop (number + 1) blocks.now) }
{
    blocks.is_active_now(number)
}

/// Drops numbers from the end until the last one is that of an active item.
pub fn drop_ended(numbers: &mut Vec<usize>, blocks: &Blocks)
    ensures { IsPruned blocks.now numbers.old.items numbers.new.items }
{
    while let Some(number) = numbers.last().copied() {
        if is_active_behind(blocks, number) {
            return;
        }
        numbers.pop();
    }
}

impl ActiveNumbers {
    /// No numbers. It takes no memory.
    pub fn new(alloc: Global) -> ActiveNumbers
        ensures none { result ≡ [] }
        ensures first { (test : meant.Said → Bool) → result ≡ active_numbers test [] }
    {
        ActiveNumbers {
            numbers: Vec::new(alloc),
        }
    }

    /// Adds the number of a new item. After out of memory all is as before.
    ///
    /// So it is called for each new item that is of this sort, with the count of the items before it; one that is
    /// not, and is no `$}`, changes nothing.
    pub fn push(&mut self, number: usize) -> Result<(), AllocError>
        ensures ok { OnOk result (self.new ≡ self.old ++ number ∷ []) }
        ensures next { OnOk result ((test : meant.Said → Bool) (before : List meant.Said) (item : meant.Said) → mark_of item.kind ≡ Neither → test item ≡ true
            → number ≡ length before → self.old ≡ active_numbers test before → self.new ≡ active_numbers test (before ++ item ∷ [])) }
        ensures err { OnErr result (self.new ≡ self.old) }
    {
        self.numbers.push(number)?;
        Ok(())
    }

    /// Drops the numbers of what is no longer active after one more item that is not of this sort. Only a `$}` can
    /// make a difference: so it is called after each `$}`.
    pub fn prune(&mut self, blocks: &Blocks)
        ensures { (test : meant.Said → Bool) (before : List meant.Said) (item : meant.Said) → test item ≡ false → blocks.now ≡ block_marks (before ++ item ∷ [])
            → self.old ≡ active_numbers test before → self.new ≡ active_numbers test (before ++ item ∷ []) }
    {
        drop_ended(&mut self.numbers, blocks);
    }

    /// The numbers, rising.
    pub fn as_slice(&self) -> &[usize]
        ensures { result.now ≡ self.now }
    {
        &self.numbers
    }
}
