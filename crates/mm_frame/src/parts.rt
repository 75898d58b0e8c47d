//! What a base keeps of its items.

use crate::blocks::Blocks;
use crate::expressions::Expressions;
use crate::frame::Frame;
use crate::item_rows::Rows;
use crate::pair_lists::PairLists;
use crate::shared::Shared;
use crate::sparse::Sparse;
use crate::tables::Tables;

/// What is kept of all items.
#[derive(Drop)]
pub struct BaseParts {
    pub tables: Tables,
    pub blocks: Blocks,
    /// The labels and the faults.
    pub rows: Rows,
    /// The symbols of each sound `$f`, `$e`, `$a`, `$p` and `$d`, by its number; none for any other item.
    pub expressions: Expressions,
    /// The frame of each sound `$a` and `$p`, by its number; none for any other item.
    pub frames: Shared<Frame>,
    /// The lists of active pairs.
    pub pair_lists: PairLists,
    /// The number of the list of all active pairs, for each sound `$p`, by its number; none for any other item.
    pub pair_numbers: Sparse,
}
