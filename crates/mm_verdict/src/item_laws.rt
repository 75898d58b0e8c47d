//! The laws of the proofs of items.

ghost use Rattle.mm_verdict.specs.Language.ItemLaws.{MandatoryLabelsMean, HasOneVerdictAt, HasVerdictAt, ProvedIsDerivedAt, LabelsAreAProof, HasOneCountAt, HasCountAt, SpotsAreIn};

use crate::decoding_laws::decodes_surely;
use mm_frame::{items_have_labels, mandatory_means, mandatory_stand_before, places_have_frames};
use mm_machine::{has_count, has_one_count, has_one_verdict, has_verdict, proved_is_derived};

/// The label of each mandatory hypothesis of an item means it there.
///
/// For the laws on views and on citations.
pub fn mandatory_labels_mean()
    ensures { MandatoryLabelsMean }
{
    items_have_labels(); // A law: each sound `$f`, `$e`, `$a` and `$p` has a label.
    mandatory_means(); // A law: a mandatory hypothesis is what its label means.
    mandatory_stand_before(); // A law: mandatory hypotheses are sound and come before.
}

/// There is one verdict at most on the proof of an item.
///
/// For the laws that there is one report and one list of answers to a script.
pub fn has_one_verdict_at()
    ensures { HasOneVerdictAt }
{
    places_have_frames(); // A law: each label of an assertion has a typed frame.
    has_one_verdict(); // A law: there is one verdict at most.
}

/// There is a verdict on the proof of each item of a base of files.
///
/// For the law that each item has a finding.
pub fn has_verdict_at()
    ensures { HasVerdictAt }
{
    places_have_frames(); // A law: each label of an assertion has a typed frame.
    items_have_labels(); // A law: each sound `$f`, `$e`, `$a` and `$p` has a label.
    mandatory_means(); // A law: a mandatory hypothesis is what its label means.
    mandatory_stand_before(); // A law: mandatory hypotheses are sound and come before.
    decodes_surely(); // A law: what decoding makes sure of.
    has_verdict(); // A law: there is a verdict.
}

/// Proved is the verdict on the proof of an item exactly when it decodes, no step is unknown, and its expanded labels
/// derive the statement.
///
/// For sessions: what is reported as Proved is derived by labels.
pub fn proved_is_derived_at()
    ensures { ProvedIsDerivedAt }
{
    proved_is_derived(); // A law: proved is said exactly if labels derive the statement.
}

/// There is one number at most of the steps of the proof of an item that are done.
///
/// It shows what the definitions mean; no code calls on it.
pub fn has_one_count_at()
    ensures { HasOneCountAt }
{
    places_have_frames(); // A law: each label of an assertion has a typed frame.
    has_one_count(); // A law: there is one such number at most.
}

/// There is a number of the steps that are done, on the proof of each item of a base of files.
///
/// It shows what the definitions mean; no code calls on it.
pub fn has_count_at()
    ensures { HasCountAt }
{
    places_have_frames(); // A law: each label of an assertion has a typed frame.
    items_have_labels(); // A law: each sound `$f`, `$e`, `$a` and `$p` has a label.
    mandatory_means(); // A law: a mandatory hypothesis is what its label means.
    mandatory_stand_before(); // A law: mandatory hypotheses are sound and come before.
    decodes_surely(); // A law: what decoding makes sure of.
    has_count(); // A law: there is a number of the steps that are done.
}

/// The spot of a verdict is in the proof that it is on.
///
/// For the places of wrong and of incomplete proofs.
pub fn spots_are_in()
    ensures { SpotsAreIn }
{}

/// Labels of label characters that derive a statement are, as the words of a normal proof, a proof of it.
pub fn labels_are_a_proof()
    ensures { LabelsAreAProof }
{}
