//! Files worked out by the definitions. The functions do nothing; what they promise is the examples.

ghost use Rattle.mm_store.specs.Language.EditExamples.{BatchIsDone, BatchIsRefused, EditsAreDone, EditsAreNotDone, EditsAreRefused, EditsAreSeen, FilesAreBounded, FilesAreFound, KeysAreTexts, TextsAreAdded};
ghost use Rattle.mm_store.specs.Language.Examples.{RingGivesThree};

/// Two files that include each other, and one that is missing: each counts at its first reference.
pub fn rings_are_read_so()
    ensures { RingGivesThree }
{}

/// Some edits of a file: what they make of it, why they are refused, and edits one after another.
pub fn edits_are_done_so()
    ensures seen { EditsAreSeen }
    ensures done { EditsAreDone }
    ensures refused { EditsAreRefused }
    ensures not_done { EditsAreNotDone }
    ensures together { BatchIsDone }
    ensures refused_together { BatchIsRefused }
{
    mm_text::one_cut(); // A law: a text has one cut or one first fault.
}

/// Two files: their names, texts and sizes, files that are added to them, and files by keys.
pub fn files_are_held_so()
    ensures found { FilesAreFound }
    ensures added { TextsAreAdded }
    ensures bounded { FilesAreBounded }
    ensures keys { KeysAreTexts }
{}
