//! The laws of numbers in place of names.

ghost use Rattle.mm_machine.specs.Language.RunLaws.{NumbersKeepFrames, NumbersKeepOrder, NumbersKeepPairs, NumbersKeepPlaces, NumbersNameSymbols, NumbersSayTheSame};

/// Symbols by number, read by the names and then renamed to numbers, are the symbols whose names are these numbers.
///
/// For a check of `mm_verdict`, which gives the machine expressions.
pub fn numbers_name_symbols()
    ensures { NumbersNameSymbols }
{}

/// Pairs that are the same by names are the same by numbers.
///
/// For a check of `mm_verdict`, which gives the machine pairs.
pub fn numbers_keep_pairs()
    ensures { NumbersKeepPairs }
{}

/// Pairs in the order of the numbers of their names are in the order of their keys.
///
/// For a check of `mm_verdict`, which gives the machine active pairs.
pub fn numbers_keep_order()
    ensures { NumbersKeepOrder }
{}

/// A frame with typed variables is one with numbers in place of names, too.
///
/// For a check of `mm_verdict`, which gives the machine assertions.
pub fn numbers_keep_frames()
    ensures { NumbersKeepFrames }
{}

/// If each label of an assertion has a frame with typed variables, it has one with numbers in place of names.
///
/// For a check of `mm_verdict`, which runs the machine at the place of a theorem.
pub fn numbers_keep_places()
    ensures { NumbersKeepPlaces }
{}

/// What a run says by numbers, it says by names.
///
/// For a check of `mm_verdict`, which runs the machine over numbers.
pub fn numbers_say_the_same()
    ensures { NumbersSayTheSame }
{}
