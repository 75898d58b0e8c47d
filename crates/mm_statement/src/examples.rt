//! Files worked out by the definitions. The function does nothing; what it promises is the example.

ghost use Rattle.mm_statement.specs.Language.Examples.{LoopGivesNine, LoopIsCut};

/// Two files that include each other, what each of their items says and where it stands, and the cut of their texts.
pub fn databases_are_read_so()
    ensures nine { LoopGivesNine }
    ensures cut { LoopIsCut }
{}
