//! Commands and loading worked out by the definitions. Each function does nothing; what it promises is the examples.

ghost use Rattle.mmkeep.specs.Language.Examples.{AxiomsLists, GivesWords, HasTheseWords, HasThisStatus, IsCutThere, IsInOrderThen, ReadsNothing, SessionEnds, VerifyFinds};
ghost use Rattle.mmkeep.specs.Language.LoadingExamples.{FaultStops, HasFaultThere, LoopIsLoaded, OpensKnown};

/// What the three commands do with a small database, a report that is cut off, the words of commands, and each exit status.
pub fn commands_are_done_so()
    ensures verify { VerifyFinds }
    ensures axioms { AxiomsLists }
    ensures session { SessionEnds }
    ensures order { IsInOrderThen }
    ensures cut { IsCutThere }
    ensures reads { ReadsNothing }
    ensures status { HasThisStatus }
    ensures given { GivesWords }
    ensures words { HasTheseWords }
{
    mm_report::scripts_are_answered_so();
    mm_report::clean_is_derived(); // A law: if nothing is reported, labels derive each statement.
}

/// Two files that include each other are loaded from a source that lacks a third; and a file with a fault is not loaded. Which
/// results the opening of a name may have.
pub fn files_are_loaded_so()
    ensures loaded { LoopIsLoaded }
    ensures fault { HasFaultThere }
    ensures unloaded { FaultStops }
    ensures opened { OpensKnown }
{
    mm_report::databases_are_read_so();
    mm_report::texts_are_read_so();
}
