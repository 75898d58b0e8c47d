//! Scripts: the commands that are put to a session, and their answers.

ghost use Rattle.std.specs.Prelude.{◌≡◌, ◌≤◌, ◌+◌, ℕ, List, Option, true, OnOk, IfErr, IfOk, IsErrOf};
ghost use Rattle.mm_keep.specs.Language.Sessions.{SessionView};
ghost use Rattle.mm_report.specs.{Code.Answered.{HasAnswered, AnswersSoFar, StopsAnswering}, Language.Scripting.{AnswersScript, AnswersFirst, AnswersRead, BeginsAnswers}};
ghost use Rattle.mm_script.specs.Language.{Commands.{to_come, pending}, Script.{Done, CutShort, BadLine}, Stream.{cannot_read, has_failed, unread, written}};
ghost use Rattle.mm_script.specs.declared.error.ScriptError.TheVariants as errors;

use crate::answer::answer;
use crate::report::ReportError;
use mm_keep::Session;
use mm_script::{
    Input, Reading, ScriptError, Writing, commands_leave_nothing, next_command, readings_join,
};
use std::alloc::Global;
use std::io::{Read, Write};

impl From<ReportError> for ScriptError {
    ghost from_gives = { λ _ e. e ≡ errors.Write };

    fn from(_: ReportError) -> Self {
        ScriptError::Write
    }
}

/// Reads the next command of a script and answers it; whether more may follow, or the script is answered to its end.
fn answer_next<R: Read, W: Write>(
    alloc: Global,
    session: &mut Session,
    input: &mut Input,
    reading: &mut Reading<R>,
    writing: &mut Writing<W>,
) -> Result<bool, ScriptError>
    ensures ok { (begun : SessionView) (all before : Option (List ℕ))
        → HasAnswered begun session.old all (unread R.remaining reading.old) before (written W.contents writing.old) (pending input.old)
        → IfOk result (AnswersSoFar begun session.new all (unread R.remaining reading.new) before (written W.contents writing.new) (pending input.new)) }
    ensures err { (begun : SessionView) (all before : Option (List ℕ))
        → HasAnswered begun session.old all (unread R.remaining reading.old) before (written W.contents writing.old) (pending input.old)
        → IfErr result (StopsAnswering R.remaining W.contents begun session.new all reading.new before writing.new) }
    ensures fewer { IfOk result (λ more. more ≡ true → to_come input.new reading.new + 1 ≤ to_come input.old reading.old) }
{
    readings_join(); // A law: what is left of a script is read by itself.
    commands_leave_nothing(); // A law: commands that leave nothing are the reading.
    let Some(next) = next_command(alloc, input, reading)? else {
        return Ok(false);
    };
    answer(alloc, session, input.pending(), &next.found, writing)?;
    if next.fed {
        input.pass(next.end);
    }
    Ok(next.fed)
}

/// Reads a script, puts its commands to the session one after another, and writes their answers.
///
/// A command is answered before more is read than it takes to complete it. A line that is no command ends the script at
/// once. If memory runs out, the command at which it did is not done, and nothing of its answer is written. If a write
/// fails, the command whose answer it was is done, and is the last that is: the answers before its own are written whole.
pub fn run_script<R: Read, W: Write>(
    alloc: Global,
    session: &mut Session,
    reading: &mut Reading<R>,
    writing: &mut Writing<W>,
) -> Result<(), ScriptError>
    ensures done { OnOk result (AnswersScript session.old session.new (unread R.remaining reading.old) Done
        (written W.contents writing.old) (written W.contents writing.new)) }
    ensures bad { IsErrOf result errors.BadLine → AnswersScript session.old session.new (unread R.remaining reading.old) BadLine
        (written W.contents writing.old) (written W.contents writing.new) }
    ensures cut { IsErrOf result errors.Cut → AnswersScript session.old session.new (unread R.remaining reading.old) CutShort
        (written W.contents writing.old) (written W.contents writing.new) }
    ensures read { IsErrOf result errors.Read → AnswersRead session.old session.new (unread R.remaining reading.old) (unread R.remaining reading.new)
        (written W.contents writing.old) (written W.contents writing.new) }
    ensures read_failed { IsErrOf result errors.Read → cannot_read reading.new ≡ true }
    ensures write { IsErrOf result errors.Write → BeginsAnswers session.old session.new (unread R.remaining reading.old) (unread R.remaining reading.new)
        (written W.contents writing.old) (written W.contents writing.new) }
    ensures write_failed { IsErrOf result errors.Write → has_failed writing.new ≡ true }
    ensures memory { IsErrOf result errors.Memory → AnswersFirst session.old session.new (unread R.remaining reading.old) (unread R.remaining reading.new)
        (written W.contents writing.old) (written W.contents writing.new) }
{
    let mut input = Input::new(alloc);
    while answer_next(alloc, session, &mut input, reading, writing)? {}
    Ok(())
}
