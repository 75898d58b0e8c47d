//! Texts and edits worked out by the definitions. The function does nothing; what it promises is the examples.

ghost use Rattle.mm_text.specs.Language.Examples.{CutsNothing, HasFiveWords, HoldOneUnitEach, HasThreeMembers, HaveTheirFaults, IsCutInTwo, MissesEnd, NameAndBring, SortBytes, StandsInSecondLine};

/// Some texts, and what they mean: words, a line and a column, faults, and a cut. Some bytes, and some edits.
pub fn texts_are_read_so()
    ensures words { HasFiveWords }
    ensures place { StandsInSecondLine }
    ensures fault { MissesEnd }
    ensures faults { HaveTheirFaults }
    ensures bytes { SortBytes }
    ensures members { HasThreeMembers }
    ensures edits { NameAndBring }
    ensures units { HoldOneUnitEach }
    ensures cut { IsCutInTwo }
    ensures nothing { CutsNothing }
{}
