//! What a proof decodes to.

ghost use Rattle.std.specs.Prelude.{length};
ghost use Rattle.mm_verdict.specs.Code.UsedLabels.{AreUseMarks};

use mm_frame::Resolved;
use mm_machine::ProofStep;
use std::alloc::Global;

/// The steps of a proof, and what the labels that they name mean.
#[derive(Drop)]
pub struct Decoding {
    /// Of a compressed proof what its numbers name first: the mandatory hypotheses and the listed labels; of a normal
    /// one what its words name, with `Unknown` for a `?`.
    pub labels: Vec<Resolved>,
    /// For each of the labels whether one of the steps names it.
    pub used: Vec<bool>,
    /// The steps, in order.
    pub steps: Vec<ProofStep>,
    ghost marked: { AreUseMarks (length labels.items) used.items steps.items },
}

impl Decoding {
    /// Nothing, which takes no memory.
    pub(crate) fn new(alloc: Global) -> Decoding {
        Decoding {
            labels: Vec::new(alloc),
            used: Vec::new(alloc),
            steps: Vec::new(alloc),
        }
    }
}
