//! A database worked out by the definitions. Each function does nothing; what it promises is the examples.

ghost use Rattle.mm_report.specs.Language.Examples.{AnswersFive, BeginsWithTwo, ChangesOne, CountsSo, HasNoLine, HasThisReport, CountsEach, FindingsAreSeen, FindsLast, HasSixItems, LastIsDerivable};
ghost use Rattle.mm_report.specs.Language.Examples.{LastRestsOnAxiom, RefusesSecond, RefusesSo, RestsOnOne, RunsOne, WritesLines};

/// A file of six pieces: its report and its counts, what a session begins with, an edit that runs one proof, the axioms of a
/// theorem, edits of which the second is refused, and a script.
pub fn scripts_are_answered_so()
    ensures report { HasThisReport }
    ensures tally { CountsSo }
    ensures begun { BeginsWithTwo }
    ensures changed { ChangesOne }
    ensures clean { HasNoLine }
    ensures edit { RunsOne }
    ensures axioms { RestsOnOne }
    ensures refused { RefusesSecond }
    ensures script { AnswersFive }
{
    mm_script::commands_leave_nothing(); // A law: commands that leave nothing are the reading.
}

/// What the session has and finds, why it refuses an edit, and how counts and lines are written.
pub fn sessions_are_told_so()
    ensures items { HasSixItems }
    ensures found { FindsLast }
    ensures derivable { LastIsDerivable }
    ensures rests { LastRestsOnAxiom }
    ensures refusals { RefusesSo }
    ensures findings { FindingsAreSeen }
    ensures counts { CountsEach }
    ensures lines { WritesLines }
{
    mm_keep::files_have_one_database(); // A law: files have one database at most.
    mm_keep::one_answer_each(); // A law: a session has one answer each.
}
