//! The laws of decoding.

ghost use Rattle.mm_verdict.specs.Language.DecodingLaws.{LabelsAreOwn, MandatoryAreActive, HasNumberTable, NumbersAreApart, EachIsWritten, HasOneDivision, TellsFirstFault, LettersReadOn, DecodesShort};
ghost use Rattle.mm_verdict.specs.Language.DecodingLaws.{DecodesSurely, CitesRise, RenamingKeepsDecoding, SameCitesSame, SameDecodesSame};

use mm_frame::{has_own_labels, items_have_labels, mandatory_means, mandatory_stand_before};
use mm_machine::sure_by_counting;

/// The numbers of the book's table.
///
/// It shows what the definitions mean; no code calls on it.
pub fn has_number_table()
    ensures { HasNumberTable }
{}

/// Two numbers that are written differently are different.
///
/// It shows what the definitions mean; no code calls on it.
pub fn numbers_are_apart()
    ensures { NumbersAreApart }
{}

/// Each number from 1 on can be written.
///
/// It shows what the definitions mean; no code calls on it.
pub fn each_is_written()
    ensures { EachIsWritten }
{}

/// Letters are divided into numbers and other letters in one way.
///
/// It shows what the definitions mean; no code calls on it.
pub fn has_one_division()
    ensures { HasOneDivision }
{}

/// The fault that is reported is the first in reading order.
///
/// It shows what the definitions mean; no code calls on it.
pub fn tells_first_fault()
    ensures { TellsFirstFault }
{}

/// What decoding makes sure of.
///
/// For `check`, which runs the decoded steps.
pub fn decodes_surely()
    ensures { DecodesSurely }
{
    sure_by_counting(); // A law: what decoding makes sure of is seen by counting saves.
}

/// Letters read on over the ends of words.
///
/// It shows what the definitions mean; no code calls on it.
pub fn letters_read_on()
    ensures { LettersReadOn }
{}

/// Proofs with the same words decode to the same if their labels mean the same.
///
/// For the law that equal views have equal verdicts.
pub fn same_decodes_same()
    ensures { SameDecodesSame }
{}

/// Proofs with the same words cite by the same words if their labels mean the same.
///
/// For the law that with equal views the same words cite.
pub fn same_cites_same()
    ensures { SameCitesSame }
{}

/// The words that cite rise.
///
/// For sessions, which look for what a proof cites among the words that cite.
pub fn cites_rise()
    ensures { CitesRise }
{}

/// There are at most as many steps as the words have bytes.
///
/// For the steps of a run, whose sum has a bound.
pub fn decodes_short()
    ensures { DecodesShort }
{}

/// No two sound items have the same label.
///
/// For `check`, which gives the words that cite, and for sessions, which carry results from base to base.
pub fn labels_are_own()
    ensures { LabelsAreOwn }
{
    has_own_labels(); // A law: two sound items with one label are one.
    items_have_labels(); // A law: each sound `$f`, `$e`, `$a` and `$p` has a label.
}

/// The mandatory hypotheses of an item are active there.
///
/// For `decode`, whose table begins with them.
pub fn mandatory_are_active()
    ensures { MandatoryAreActive }
{
    items_have_labels(); // A law: each sound `$f`, `$e`, `$a` and `$p` has a label.
    mandatory_means(); // A law: a mandatory hypothesis is what its label means.
    mandatory_stand_before(); // A law: mandatory hypotheses are sound and come before.
}

/// A renaming of symbols keeps what the words of a proof decode to, and which of them cite.
///
/// It shows what the definitions mean; no code calls on it.
pub fn renaming_keeps_decoding()
    ensures { RenamingKeepsDecoding }
{}
