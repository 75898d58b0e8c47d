//! What is proved of views: each law is the contract of a function.

ghost use Rattle.mm_proof.specs.Language.ViewLaws.{SameViewSameVerdict, SameViewSameCites};

use mm_machine::same_proof_same_verdict;
use mm_verdict::{mandatory_labels_mean, same_cites_same, same_decodes_same};

/// Two theorems with equal views have equal verdicts, spots included, in any two databases.
pub fn same_view_same_verdict()
    ensures { SameViewSameVerdict }
{
    mandatory_labels_mean(); // A law: the label of a mandatory hypothesis means it.
    same_decodes_same(); // A law: the same words decode to the same if labels mean the same.
    same_proof_same_verdict(); // A law: proofs that mean the same have the same verdict.
}

/// In two theorems with equal views the same words of the proofs cite.
pub fn same_view_same_cites()
    ensures { SameViewSameCites }
{
    mandatory_labels_mean(); // A law: the label of a mandatory hypothesis means it.
    same_cites_same(); // A law: the same words cite if labels mean the same.
}
