//! What the labels of a proof name.

/// An assertion that is cited.
#[derive(Drop)]
pub struct Cited<'a, L> {
    /// The number of its expression among the lasting expressions.
    pub expression: usize,
    /// The numbers of its mandatory hypotheses among the lasting expressions.
    pub hypotheses: &'a [usize],
    /// Its mandatory pairs.
    pub pairs: &'a [(L, L)],
}

/// What a label is used for.
#[derive(Clone, Copy)]
pub enum Use {
    /// It pushes the lasting expression with this number, from 0: it names a hypothesis, or an assertion that takes nothing.
    Lasting(usize),
    /// It cites the assertion with this number, from 0, among those that the proof cites.
    Assertion(usize),
    /// It is a `?`.
    Nothing,
}
