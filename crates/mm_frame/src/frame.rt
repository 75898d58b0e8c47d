//! The frame of an assertion.

use mm_machine::NumberedSymbol;

/// What citing an assertion needs.
#[derive(Drop)]
pub struct Frame {
    /// The numbers of the mandatory hypotheses, rising.
    pub hypotheses: Vec<usize>,
    /// The mandatory pairs, each once, in the order of the `$f` of their variables.
    pub pairs: Vec<(NumberedSymbol, NumberedSymbol)>,
}
