//! The steps of a proof, as the machine runs them.

use crate::{ProofNumber, Spot};

/// What the machine does at a step.
#[derive(Clone, Copy, Debug, PartialEq, Eq)]
pub enum Action {
    /// It does what a label means: the one with this number, from 0, in the proof's table of labels.
    Label(usize),
    /// It pushes the saved entry with this number, from 0.
    Saved(usize),
    /// It saves the entry on top.
    Save,
    /// It does not know.
    Unknown,
}

/// A step, and where it is.
#[derive(Clone, Copy, Debug, PartialEq, Eq)]
pub struct ProofStep {
    /// What is done.
    pub action: Action,
    /// The word of a normal proof, or the letter at which the number, the `Z` or the `?` ends.
    pub spot: Spot,
}

/// The first decoding fault of a proof: P01 to P06.
#[derive(Clone, Copy, Debug, PartialEq, Eq)]
pub struct ProofFault {
    /// Its number, one of P01 to P06.
    pub number: ProofNumber,
    /// Where it is reported.
    pub spot: Spot,
}
