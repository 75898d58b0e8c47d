//! What holds of the answers of all scripts. Each function does nothing; what it promises is the law.

ghost use Rattle.mm_report.specs.Language.ScriptLaws.{AnswersBegin, OneScriptAnswer, HasScriptAnswer, IsWholeSession};

use mm_keep::Session;

/// A script has one list of answers in a session, one session after it, and one end.
///
/// So what `run_script` writes depends on the script, the names and the pieces of the files, and the name of the top file.
/// It depends on nothing else.
pub fn one_script_answer()
    ensures { OneScriptAnswer }
{
    mm_script::one_reading(); // A law: a script is read in one way.
    mm_script::divisions_agree(); // A law: two divisions of a script agree.
    mm_keep::one_edit(); // A law: an edit gives one list of files, or one refusal.
    mm_keep::files_have_one_database(); // A law: files have one database at most.
    mm_keep::one_answer_each(); // A law: a session has one answer each.
    mm_keep::one_list_of_runs(); // A law: there is one list of runs at most.
    mm_keep::one_list_each(); // A law: there is one list each at most.
}

/// Each script has answers, whatever session it is put to. So if a script is not answered to its end, the beginning of its
/// answers that is promised is one of answers that exist. No memory is asked for.
pub fn has_script_answer()
    ensures { HasScriptAnswer }
{
    mm_keep::one_edit(); // A law: an edit gives one list of files, or one refusal.
    mm_keep::edits_keep_files(); // A law: an edit keeps the names of the files and their order.
    mm_keep::edits_keep_units(); // A law: after an edit each piece holds one unit.
    mm_keep::databases_are_there(); // A law: files have a database from each top file on.
    mm_keep::items_have_findings(); // A law: something is rightly reported of each item.
    mm_keep::has_list_of_runs(); // A law: there is a list of runs.
    mm_keep::has_list_each(); // A law: there is a list each for each assertion.
    mm_script::has_reading(); // A law: each script has a reading.
}

/// Each session is one of which scripts have answers.
pub fn sessions_are_whole(session: &Session)
    ensures { IsWholeSession session.now }
{
    session.files().hold_one_each();
    let _ = session.count();
}

/// The answers to the first commands of a script are a beginning of all its answers.
pub fn answers_begin()
    ensures { AnswersBegin }
{
    mm_script::one_reading(); // A law: a script is read in one way.
    mm_script::divisions_agree(); // A law: two divisions of a script agree.
    mm_keep::one_edit(); // A law: an edit gives one list of files, or one refusal.
    mm_keep::files_have_one_database(); // A law: files have one database at most.
    mm_keep::one_answer_each(); // A law: a session has one answer each.
    mm_keep::one_list_of_runs(); // A law: there is one list of runs at most.
    mm_keep::one_list_each(); // A law: there is one list each at most.
}
