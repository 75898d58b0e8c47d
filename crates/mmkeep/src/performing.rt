//! What a command does with a session: what it writes, and how the program then ends.

ghost use Rattle.std.specs.{Prelude.{◌≡◌, ◌≢◌, ◌↔◌, ℕ, List, [], true, false, IfErr, IfOk, IsErrOf, IsTrue, OnOk, length}, Io.Buffered.{writer_contents}};
ghost use Rattle.mm_report.specs.{mm_statement.Language.Item.{Said}, mm_keep.Language.{Findings.{counted}, Told.{Told, counts}}, Language.Report.{lines}};
ghost use Rattle.mm_report.specs.mm_script.Language.Stream.{cannot_read, gone_out, has_failed, unread, written};
ghost use Rattle.mmkeep.specs.declared.outcome.Outcome.TheVariants.{Clean};
ghost use Rattle.mmkeep.specs.Language.Performing.{AllInOrder, EndsScript, IsCutOff, IsDone, IsInOrderAfter, IsJudged, IsStopped, ListsAxioms, ReadsForSession, Reports, StopsAxioms, StopsReport};
ghost use Rattle.mmkeep.specs.Language.Performing.{StopsScript};
ghost use Rattle.mm_report.specs.mm_script.declared.error.ScriptError.TheVariants as errors;

use crate::arguments::Invocation;
use crate::outcome::Outcome;
use mm_report::{
    Reading, ScriptError, Session, Tally, Writing, clean_is_derived, run_script, write_axioms,
    write_report,
};
use std::alloc::Global;
use std::io::{BufWriter, Read, Write};

/// Does a command with a session, over a writer that is buffered: how the program then ends. If it answers an outcome, all
/// that was written has gone out, and no write has failed. If that outcome is clean, `verify` and `session` say that no item
/// is at fault and that each theorem is derived.
///
/// The reading is that of the script; the other two commands read nothing. `Read` and `Write` are answered only if the reading
/// or the writing has failed. After a failure no write is tried again; a buffer that is dropped would be, so take it apart.
pub fn perform<R: Read, W: Write + Drop>(
    alloc: Global,
    session: &mut Session,
    command: &Invocation<'_>,
    reading: &mut Reading<R>,
    writing: &mut Writing<BufWriter<W>>,
) -> Result<Outcome, ScriptError>
    ensures done { IfOk result (IsDone command.now session.old session.new (unread R.remaining reading.old)
        (written (writer_contents W.contents) writing.old) (gone_out W.contents writing.new)) }
    ensures derived { IfOk result (λ outcome. outcome ≡ Clean → IsInOrderAfter command.now session.new) }
    ensures sound { OnOk result (has_failed writing.new ≡ false) }
    ensures stopped { IfErr result (IsCutOff command.now session.old session.new (unread R.remaining reading.old) (unread R.remaining reading.new)
        (written (writer_contents W.contents) writing.old) (gone_out W.contents writing.new)) }
    ensures reads { ReadsForSession command.now reading.old reading.new }
    ensures read_failed { IsErrOf result errors.Read → cannot_read reading.new ≡ true }
    ensures write_failed { IsErrOf result errors.Write → has_failed writing.new ≡ true }
{
    let ended = answer(alloc, session, command, reading, writing);
    match (ended, writing.flush_buffer()) {
        (Ok(_), Err(_)) => Err(ScriptError::Write),
        (ended, _) => ended,
    }
}

/// Does a command with a session, and writes what it answers.
fn answer<R: Read, W: Write>(
    alloc: Global,
    session: &mut Session,
    command: &Invocation<'_>,
    reading: &mut Reading<R>,
    writing: &mut Writing<W>,
) -> Result<Outcome, ScriptError>
    ensures done { IfOk result (IsDone command.now session.old session.new (unread R.remaining reading.old)
        (written W.contents writing.old) (written W.contents writing.new)) }
    ensures derived { IfOk result (λ outcome. outcome ≡ Clean → IsInOrderAfter command.now session.new) }
    ensures stopped { IfErr result (IsStopped command.now session.old session.new (unread R.remaining reading.old) (unread R.remaining reading.new)
        (written W.contents writing.old) (written W.contents writing.new)) }
    ensures reads { ReadsForSession command.now reading.old reading.new }
    ensures read_failed { IsErrOf result errors.Read → cannot_read reading.new ≡ true }
    ensures write_failed { IsErrOf result errors.Write → has_failed writing.new ≡ true }
{
    match *command {
        Invocation::Verify(_) => report(session, writing),
        Invocation::Axioms(_, label) => list_axioms(session, label, writing),
        Invocation::Session(_) => answer_script(alloc, session, reading, writing),
    }
}

/// Writes the report of a session.
fn report<W: Write>(session: &Session, writing: &mut Writing<W>) -> Result<Outcome, ScriptError>
    ensures done { IfOk result (Reports session.now (written W.contents writing.old) (written W.contents writing.new)) }
    ensures derived { IfOk result (λ outcome. outcome ≡ Clean → AllInOrder session.now) }
    ensures stopped { IfErr result (StopsReport session.now (written W.contents writing.old) (written W.contents writing.new)) }
    ensures failed { IfErr result (λ error. (error ≡ errors.Write) × (has_failed writing.new ≡ true)) }
{
    match write_report(session, writing) {
        Ok(()) => Ok(judge(session)),
        Err(error) => Err(ScriptError::from(error)),
    }
}

/// Writes the axioms that the assertion with a label rests on.
fn list_axioms<W: Write>(
    session: &Session,
    label: &str,
    writing: &mut Writing<W>,
) -> Result<Outcome, ScriptError>
    ensures done { IfOk result (ListsAxioms session.now label.now (written W.contents writing.old) (written W.contents writing.new)) }
    ensures stopped { IfErr result (StopsAxioms session.now label.now (written W.contents writing.old) (written W.contents writing.new)) }
    ensures read_failed { IfErr result (λ error. error ≢ errors.Read) }
    ensures write_failed { IsErrOf result errors.Write → has_failed writing.new ≡ true }
{
    match write_axioms(session, label.as_bytes(), writing) {
        Ok(true) => Ok(Outcome::Clean),
        Ok(false) => Ok(Outcome::NoLabel),
        Err(error) => Err(error),
    }
}

/// Answers a script.
fn answer_script<R: Read, W: Write>(
    alloc: Global,
    session: &mut Session,
    reading: &mut Reading<R>,
    writing: &mut Writing<W>,
) -> Result<Outcome, ScriptError>
    ensures done { IfOk result (EndsScript session.old session.new (unread R.remaining reading.old)
        (written W.contents writing.old) (written W.contents writing.new)) }
    ensures derived { IfOk result (λ outcome. outcome ≡ Clean → AllInOrder session.new) }
    ensures stopped { IfErr result (StopsScript session.old session.new (unread R.remaining reading.old) (unread R.remaining reading.new)
        (written W.contents writing.old) (written W.contents writing.new)) }
    ensures read_failed { IsErrOf result errors.Read → cannot_read reading.new ≡ true }
    ensures write_failed { IsErrOf result errors.Write → has_failed writing.new ≡ true }
{
    match run_script(alloc, session, reading, writing) {
        Ok(()) => Ok(judge(session)),
        Err(error) => Err(error),
    }
}

/// How the program ends by the files of a session: clean if its report has no line before the summary. Then no item is at
/// fault, and each theorem is derived.
pub fn judge(session: &Session) -> Outcome
    ensures judged { IsJudged session.now result }
    ensures derived { result ≡ Clean → AllInOrder session.now }
{
    clean_is_derived(); // A law: if nothing is reported, labels derive each statement.
    if is_clean(&session.tally()) {
        Outcome::Clean
    } else {
        Outcome::Findings
    }
}

/// Whether no line comes before the summary of a report with these counts.
fn is_clean(tally: &Tally) -> bool
    ensures { (names : List (List ℕ)) (items : List Said) (all : List Told) → length all ≡ length items → counted tally.now ≡ counts all
        → IsTrue result ↔ (lines names items all ≡ []) }
{
    tally.incomplete == 0 && tally.wrong == 0 && tally.faults == 0
}
