//! Proofs worked out by the definitions. The functions do nothing; what they promise is the examples.

ghost use Rattle.mm_verdict.specs.Language.Examples.{HasSixSteps, HasThisView, IsProved, NamesNothing, StandForSevenLabels};
ghost use Rattle.mm_verdict.specs.Language.FaultExamples.{EndsAtUnknown, FourAreTooMany, HasNoEnd, HasOtherTypecode, IsCutNumber, IsEnded, IsNoActivePair, IsNoLabel, IsNoLetter, IsOtherEssential, IsShared};
ghost use Rattle.mm_verdict.specs.Language.FaultExamples.{IsTakenWithPair, LacksEntry, LeavesAnother, LeavesTwo, SavesNothing, TellsLowest, ThreeAreTaken};
ghost use Rattle.mm_verdict.specs.Language.StepExamples.{ChangesView, CitesFirstWord, CitesNothing, HasTypedVariable, IsDoneAndDerived, KeepsView, LastIsShorter, NamesUpToEnd, SavesAreNumbered, WeighsOne};

/// A compressed proof: its steps, the labels that they stand for, its view and its verdict; and one that does not decode.
pub fn proofs_are_read_so()
    ensures steps { HasSixSteps }
    ensures fault { NamesNothing }
    ensures labels { StandForSevenLabels }
    ensures view { HasThisView }
    ensures verdict { IsProved }
{}

/// Each fault of a proof, by a proof or a step that has it; the longest result; and a proof that is incomplete.
pub fn faults_are_read_so()
    ensures p01 { IsNoLabel }
    ensures p02 { IsEnded }
    ensures p03 { HasNoEnd }
    ensures p04 { IsNoLetter }
    ensures p05 { IsCutNumber }
    ensures p07 { LacksEntry }
    ensures p08 { HasOtherTypecode }
    ensures lowest { TellsLowest }
    ensures p09 { IsOtherEssential }
    ensures p10 { IsShared }
    ensures p11 { IsNoActivePair }
    ensures pair { IsTakenWithPair }
    ensures longest { ThreeAreTaken }
    ensures p12 { FourAreTooMany }
    ensures p13 { SavesNothing }
    ensures p14 { LeavesTwo }
    ensures p15 { LeavesAnother }
    ensures incomplete { EndsAtUnknown }
{}

/// What labels weigh, which part a save keeps, which words cite, how many steps are done, which views are the same, and what a
/// frame is.
pub fn steps_are_read_so()
    ensures weight { WeighsOne }
    ensures part { LastIsShorter }
    ensures saves { SavesAreNumbered }
    ensures labels { NamesUpToEnd }
    ensures cites { CitesFirstWord }
    ensures none { CitesNothing }
    ensures done { IsDoneAndDerived }
    ensures kept { KeepsView }
    ensures changed { ChangesView }
    ensures typed { HasTypedVariable }
{}
