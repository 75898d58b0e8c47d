//! What is proved of derivations, of the machine and of verdicts: each law is the contract of a function.

ghost use Rattle.mm_machine.specs.Language.Laws.{DerivesAtMostOne, OnlyMandatoryCount, DerivedWeighsOne, ShorterWeighsLess, LastPartIsShortest, SaveKeepsLastEntry, HasOneVerdict, HasVerdict};
ghost use Rattle.mm_machine.specs.Language.Laws.{ProvedIsDerived, RenamingKeepsVerdict, SameProofSameVerdict, MachineReaches, TurnsOrFails, NeverTurnsAndFails, HasOneStepFault, HasOneCount, HasCount};

/// A list of labels derives at most one expression, where each label of an assertion has a frame with typed variables.
///
/// It shows what the definitions mean; no code calls on it.
pub fn derives_at_most_one()
    ensures { DerivesAtMostOne }
{}

/// Of a substitution only what it gives for the mandatory variables counts.
///
/// It shows what the definitions mean; no code calls on it.
pub fn only_mandatory_count()
    ensures { OnlyMandatoryCount }
{}

/// A list that derives an expression weighs one.
///
/// It shows what the definitions mean; no code calls on it.
pub fn derived_weighs_one()
    ensures { DerivedWeighsOne }
{}

/// Each shorter suffix of a list that derives an expression weighs at most zero.
///
/// It shows what the definitions mean; no code calls on it.
pub fn shorter_weighs_less()
    ensures { ShorterWeighsLess }
{}

/// The last part is the shortest suffix of weight one.
///
/// It shows what the definitions mean; no code calls on it.
pub fn last_part_is_shortest()
    ensures { LastPartIsShortest }
{}

/// A save keeps the list of the last entry.
///
/// It shows what the definitions mean; no code calls on it.
pub fn save_keeps_last_entry()
    ensures { SaveKeepsLastEntry }
{}

/// There is one verdict at most.
///
/// For the law on the proof of an item, `has_one_verdict_at` of `mm_verdict`.
pub fn has_one_verdict()
    ensures { HasOneVerdict }
{}

/// There is a verdict on what decoding gives.
///
/// For the law on the proof of an item, `has_verdict_at` of `mm_verdict`.
pub fn has_verdict()
    ensures { HasVerdict }
{}

/// Proved is the verdict exactly when all steps are known and their expanded labels derive the statement.
///
/// For the law on the proof of an item, `proved_is_derived_at` of `mm_verdict`.
pub fn proved_is_derived()
    ensures { ProvedIsDerived }
{}

/// Proofs that mean the same have the same verdicts.
///
/// For the law that equal views have equal verdicts, `same_view_same_verdict` of `mm_proof`.
pub fn same_proof_same_verdict()
    ensures { SameProofSameVerdict }
{}

/// The machine's stack after the steps is what the steps reach.
///
/// It shows what the definitions mean; no code calls on it.
pub fn machine_reaches()
    ensures { MachineReaches }
{}

/// A step that can be judged has a turn, or a lowest line that holds.
///
/// It shows what the definitions mean; no code calls on it.
pub fn turns_or_fails()
    ensures { TurnsOrFails }
{}

/// A step never has both a turn and a line that holds.
///
/// It shows what the definitions mean; no code calls on it.
pub fn never_turns_and_fails()
    ensures { NeverTurnsAndFails }
{}

/// There is one step at fault at most, with one number.
///
/// It shows what the definitions mean; no code calls on it.
pub fn has_one_step_fault()
    ensures { HasOneStepFault }
{}

/// There is one number at most of the steps of a proof that are done.
///
/// For the law on the proof of an item, `has_one_count_at` of `mm_verdict`.
pub fn has_one_count()
    ensures { HasOneCount }
{}

/// There is a number of the steps that are done, for what decoding gives.
///
/// For the law on the proof of an item, `has_count_at` of `mm_verdict`.
pub fn has_count()
    ensures { HasCount }
{}

/// A renaming of symbols, one to one and by kinds, keeps the verdict on a proof.
///
/// It shows what the definitions mean; no code calls on it. A check rests on `numbers_say_the_same`.
pub fn renaming_keeps_verdicts()
    ensures { RenamingKeepsVerdict }
{}
