//! What is known before an assertion.

use crate::blocks::Blocks;
use crate::disjoint_rows::DisjointRows;
use crate::essential::EssentialVariable;
use crate::expressions::Expressions;
use crate::tables::Tables;

/// What is known of the sound items before an assertion.
#[derive(Clone, Copy)]
pub struct Earlier<'a> {
    /// What they declare.
    pub tables: &'a Tables,
    /// The pairs of their `$d`.
    pub pairs: &'a DisjointRows,
    /// Their blocks.
    pub blocks: &'a Blocks,
    /// The numbers of the active `$e`, rising.
    pub essentials: &'a [usize],
    /// The variables of these.
    pub variables: &'a [EssentialVariable],
    /// The symbols of each, by its number.
    pub expressions: &'a Expressions,
}
