//! Names of the standard library, each of a few values. The function does nothing; what it promises is the examples.

ghost use Rattle.mm_text.specs.Language.StandardExamples.{DigitsAreDecimal, EmptyListsHaveNone, FirstPasses, LengthsAreEqual, ListsAreCounted, ListsAreJoined, ListsAreParted, MembersAreChanged};
ghost use Rattle.mm_text.specs.Language.StandardExamples.{MembersAreCounted, MembersAreNumbered, NoneHasNothing, NumbersEndAtZero, RangesStopAtEnd, StreamsAreKnown, TestsOfLists, TextsAreBytes};

/// What names of the standard library mean that could be read in more than one way: each of a few values, also of nothing and
/// past the end.
pub fn standard_words_mean()
    ensures numbers { NumbersEndAtZero }
    ensures digits { DigitsAreDecimal }
    ensures texts { TextsAreBytes }
    ensures first { FirstPasses }
    ensures parted { ListsAreParted }
    ensures counts { MembersAreCounted }
    ensures members { MembersAreNumbered }
    ensures ranges { RangesStopAtEnd }
    ensures changed { MembersAreChanged }
    ensures joined { ListsAreJoined }
    ensures lists { ListsAreCounted }
    ensures tests { TestsOfLists }
    ensures zip { LengthsAreEqual }
    ensures empty { EmptyListsHaveNone }
    ensures options { NoneHasNothing }
    ensures streams { StreamsAreKnown }
{}
