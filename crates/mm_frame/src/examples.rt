//! A database worked out by the definitions. The function does nothing; what it promises is the examples.

ghost use Rattle.mm_frame.specs.Language.Examples.{AllAreSound, CountsEssentials, EndsWithItsBlock, HasEachFault, HasItsLabel, HasOneMandatoryPair, HasTwoFaults, IsActiveInBlock, IsTypedOtherwise};
ghost use Rattle.mm_frame.specs.Language.Examples.{IsTypedTwice, MeansItsExpression, MeansItsFrame, EachHasLabel, PairsEndWithTheirBlock, ShowsSeven, ThreePairsAreActive};

/// What is sound, active and mandatory in a small database, what labels mean there, and which faults there are.
pub fn frames_are_read_so()
    ensures sound { AllAreSound }
    ensures active { ThreePairsAreActive }
    ensures ended { PairsEndWithTheirBlock }
    ensures frame { HasOneMandatoryPair }
    ensures essential { CountsEssentials }
    ensures expression { MeansItsExpression }
    ensures label { MeansItsFrame }
    ensures inactive { EndsWithItsBlock }
    ensures each { HasEachFault }
    ensures fault { IsTypedTwice }
    ensures typecode { IsTypedOtherwise }
    ensures faults { HasTwoFaults }
    ensures shown { ShowsSeven }
    ensures block { IsActiveInBlock }
    ensures own { HasItsLabel }
    ensures labelled { EachHasLabel }
{}
