//! Blocks: whether an item is active at a later one.

ghost use Rattle.std.specs.Prelude.{◌≡◌, ◌↔◌, ℕ, true, suc, ◌+◌, ◌<◌, ◌≤◌, List, [], ◌∷◌, ◌++◌, length, take, drop, slice_range, IfOk, OnOk, OnErr};
ghost use Rattle.mm_frame.specs.{Language.{Marks.{Opens, Closes, Neither}, Resolving.{IsUpTo}}, Code.{BlockMarks.{is_inside_by, stays_by}, BlockEnds.{end_of_block}}};

use std::alloc::{AllocError, Global};
use std::marker::Model;

/// The blocks of a list of items: which were open at each item, and where each ended.
///
/// Items are numbered from 0 in order. To add one takes constant time on the average, and each question constant
/// time; some machine words are kept for each item. What is outside of all blocks counts as being in an
/// outermost one: a `$}` where no other is open ends it, and the next one begins.
#[derive(Drop)]
pub struct Blocks {
    /// For each item, the block that is innermost after it: a `${` has the one that it begins.
    block_of: Vec<usize>,
    /// For each block, the item that ended it. The newest may have no entry as long as it is open.
    ends: Vec<Option<usize>>,
    /// The open blocks around the innermost one, outermost first.
    outer: Vec<usize>,
    /// The block that is innermost after the last item.
    current: usize,
    /// How many items began a block.
    begun: usize,
    /// How many items ended a block.
    ended: usize,
}

impl Model for Blocks {
    ghost use Rattle.std.specs.Prelude.{List};
    ghost use Rattle.mm_frame.specs.Language.Marks.{Mark};

    ghost Value = { List Mark };

    ghost use Rattle.mm_frame.specs.Code.KeptBlocks.{blocks_view, AreBlocksKept};

    ghost view = { blocks_view };

    ghost invariant = { AreBlocksKept };
}

/// Gives a block an entry among the ends, if it has none yet.
fn enter(ends: &mut Vec<Option<usize>>, block: usize) -> Result<(), AllocError>
    requires { block ≤ length ends.old.items }
    ensures same { (other : ℕ) → end_of_block ends.new.items other ≡ end_of_block ends.old.items other }
    ensures longer { length ends.old.items ≤ length ends.new.items }
    ensures ok { OnOk result (block < length ends.new.items) }
    ensures err { OnErr result (ends.new.items ≡ ends.old.items) }
{
    if block < ends.len() {
        return Ok(());
    }
    ends.push(None)?;
    Ok(())
}

/// The item that ended a block; `None` if the block is open.
fn end_of_block(ends: &[Option<usize>], block: usize) -> Option<usize>
    ensures { result ≡ end_of_block ends.now block }
{
    ends.get(block).copied().unwrap_or(None)
}

impl Blocks {
    /// No items, with room for this many.
    pub fn with_room(alloc: Global, count: usize) -> Result<Blocks, AllocError>
        ensures { IfOk result (λ blocks. blocks ≡ []) }
    {
        let block_of = Vec::with_capacity(alloc, count)?;
        Ok(Blocks {
            block_of,
            ends: Vec::new(alloc),
            outer: Vec::new(alloc),
            current: 0,
            begun: 0,
            ended: 0,
        })
    }

    /// Adds an item that begins a block. After out of memory all is as before.
    pub fn begin(&mut self) -> Result<(), AllocError>
        ensures ok { OnOk result (self.new ≡ self.old ++ Opens ∷ []) }
        ensures err { OnErr result (self.new ≡ self.old) }
    {
        enter(&mut self.ends, self.current)?;
        self.outer.reserve(1)?;
        let block = self.ends.len();
        self.block_of.push(block)?;
        self.outer.push(self.current).unwrap();
        self.current = block;
        self.begun += 1;
        Ok(())
    }

    /// Adds an item that ends a block. After out of memory all is as before.
    pub fn end(&mut self) -> Result<(), AllocError>
        ensures ok { OnOk result (self.new ≡ self.old ++ Closes ∷ []) }
        ensures err { OnErr result (self.new ≡ self.old) }
    {
        enter(&mut self.ends, self.current)?;
        self.block_of.reserve(1)?;
        self.ends[self.current] = Some(self.block_of.len());
        self.current = self.outer.pop().unwrap_or(self.ends.len());
        self.block_of.push(self.current).unwrap();
        self.ended += 1;
        Ok(())
    }

    /// Adds an item that neither begins nor ends a block. After out of memory all is as before.
    pub fn pass(&mut self) -> Result<(), AllocError>
        ensures ok { OnOk result (self.new ≡ self.old ++ Neither ∷ []) }
        ensures err { OnErr result (self.new ≡ self.old) }
    {
        self.block_of.push(self.current)?;
        Ok(())
    }

    /// Whether a block is open after the last item: more items began one than ended one.
    pub fn is_inside(&self) -> bool
        ensures { result ≡ is_inside_by self.now }
    {
        self.ended < self.begun
    }

    /// Whether the item `from` is active at the item `at`, or after the last one if `at` is their count: the
    /// items between the two end no block that was open after `from`.
    pub fn is_active(&self, from: usize, at: usize) -> bool
        requires earlier { from < at }
        requires within { at ≤ length self.now }
        ensures { result ≡ stays_by (slice_range self.now (from + 1) at) }
    {
        match end_of_block(&self.ends, self.block_of[from]) {
            None => true,
            Some(end) => at <= end,
        }
    }

    /// Whether the item `from` is active at the item `at`, or after the last one if none has that number; an item
    /// that does not come before it counts as active.
    pub fn is_active_at(&self, from: usize, at: usize) -> bool
        ensures { result ≡ stays_by (drop (suc from) (take at self.now)) }
    {
        let end = at.min(self.block_of.len());
        end <= from || self.is_active(from, end)
    }

    /// The first item after the item `from` at which this is active no longer; `None` if its block is open after the
    /// last item, and if there is no such item.
    pub fn active_until(&self, from: usize) -> Option<usize>
        ensures { (at : ℕ) → from < at → (stays_by (drop (suc from) (take at self.now)) ≡ true) ↔ IsUpTo at result }
    {
        if from >= self.block_of.len() {
            return None;
        }
        match end_of_block(&self.ends, self.block_of[from]) {
            None => None,
            Some(end) => Some(end + 1),
        }
    }

    /// Whether the item `from` is active after the last one; an item that is yet to come counts as active.
    pub fn is_active_now(&self, from: usize) -> bool
        ensures { result ≡ stays_by (drop (suc from) self.now) }
    {
        from >= self.block_of.len() || self.is_active(from, self.block_of.len())
    }
}
