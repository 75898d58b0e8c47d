//! What holds of the reading of all scripts. Each function does nothing; what it promises is the law.

ghost use Rattle.mm_script.specs.Language.ReadingLaws.{CommandsLeaveNothing, DivisionsAgree, HasReading, OneEnd, OneReading, OneReadSoFar, ReadingGoesOn, ReadingsJoin};
ghost use Rattle.mm_script.specs.Language.ScriptExamples.{CutsBatch, CutsBatchText, CutsFeed, CutsLine, CutsText, EndsAtLine, EndsAtText, EndsInEdit, ReadsBatch, ReadsLastEdit, ReadsText, BoundWords};
ghost use Rattle.mm_script.specs.Language.ScriptExamples.{GrowsByTwo, HasTwoCommands, TellsWriter, WaitsForFeed};

/// A script is read in one way, and what is left of it ends it in one way at most.
pub fn one_reading()
    ensures reading { OneReading }
    ensures end { OneEnd }
{}

/// Each script has a reading, and ends in some way: with nothing left, cut short or at a bad line.
pub fn has_reading()
    ensures { HasReading }
{}

/// What is read of some bytes is one list. It stays, whatever follows them: it is a beginning of the reading of them all.
pub fn reading_goes_on()
    ensures on { ReadingGoesOn }
    ensures one { OneReadSoFar }
{}

/// Commands and empty lines that leave nothing of a script are its reading.
pub fn commands_leave_nothing()
    ensures { CommandsLeaveNothing }
{}

/// Two divisions of a script into commands and empty lines agree: the one with fewer of them is a beginning of the other.
pub fn divisions_agree()
    ensures { DivisionsAgree }
{}

/// What is left after some commands and empty lines is read by itself: its reading, put after them, is the reading of all.
pub fn readings_join()
    ensures { ReadingsJoin }
{}

/// Some scripts, and how they are read: with texts and batches, cut short, and with bad lines. Some words, and some
/// bytes that are written.
pub fn scripts_are_read_so()
    ensures text { ReadsText }
    ensures batch { ReadsBatch }
    ensures last_edit { ReadsLastEdit }
    ensures cut_text { CutsText }
    ensures cut_feed { CutsFeed }
    ensures cut_line { CutsLine }
    ensures cut_batch { CutsBatch }
    ensures cut_batch_text { CutsBatchText }
    ensures bad_edit { EndsInEdit }
    ensures bad_line { EndsAtLine }
    ensures bad_text { EndsAtText }
    ensures feed { WaitsForFeed }
    ensures commands { HasTwoCommands }
    ensures bounds { BoundWords }
    ensures written { GrowsByTwo }
    ensures writer { TellsWriter }
{}
