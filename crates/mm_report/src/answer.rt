//! The answers to the commands of a script.

ghost use Rattle.std.specs.{Prelude.{◌≡◌, ◌≢◌, ◌≤◌, ◌<◌, ◌↔◌, ◌⊎◌, ◌++◌, ℕ, List, Contains, Err, IsOk, IsTrue, true, false, IfOk, IfErr, IsErrOf, OnOk, codes, length, map}, Io.KnownBytes.{Appends}};
ghost use Rattle.mm_keep.specs.{mm_text.Language.Asked.{asked}, mm_store.Language.FilesView.{File, plain}, mm_frame.Language.Base.{said_at}, Language.{Findings.{told}, Refusals.{IsRefusal, IsBatchRefusal}}};
ghost use Rattle.mm_keep.specs.Language.Sessions.{HasAssertion, SessionView};
ghost use Rattle.mm_report.specs.Code.{Answered.{Answers, Finds, IsToldIn, WritesAnswer, WritesOf, label_lines, text_brought}, InFiles.{IsInFiles}};
ghost use Rattle.mm_report.specs.Language.{Answers.{IsAnswer, batch_refusal_line, numbers_listed, refusal_line, refusal_words, text_code, told_line}, Report.{names_of}};
ghost use Rattle.mm_script.specs.Language.{Commands.{IsCommandIn, IsEditWithin, edit_in}, Script.{Command, Listed, Change, Batch, Ask}, Stream.{AppendsPart, written, has_failed, Writes}};
ghost use Rattle.mm_script.specs.declared.command.Question.{Question, TheVariants.{Verdict, Axioms}};
ghost use Rattle.mm_keep.specs.mm_store.declared.edit.EditError.TheVariants as refusals;
ghost use Rattle.mm_keep.specs.declared.answers.KeepError.TheVariants as keep;
ghost use Rattle.mm_script.specs.declared.error.ScriptError.TheVariants as errors;

use crate::report::{
    write_count, write_incomplete, write_number, write_part, write_report, write_wrong,
};
use mm_keep::{
    BatchError, Edit, EditError, Files, Finding, KeepError, Session, TextFault, TextNumber,
    files_have_one_database, place,
};
use mm_script::{
    CommandAt, EditAt, Question, ScriptError, WriteFailed, Writing, bytes_of, edit_of,
};
use std::alloc::{AllocError, Global};
use std::io::Write;

/// The number of a fault of a text as it is written, `T01` to `T12`. It takes no memory.
pub fn fault_name(number: TextNumber) -> &'static str
    ensures { result.now ≡ text_code number }
{
    match number {
        TextNumber::T01 => "T01",
        TextNumber::T02 => "T02",
        TextNumber::T03 => "T03",
        TextNumber::T04 => "T04",
        TextNumber::T05 => "T05",
        TextNumber::T06 => "T06",
        TextNumber::T07 => "T07",
        TextNumber::T08 => "T08",
        TextNumber::T09 => "T09",
        TextNumber::T10 => "T10",
        TextNumber::T11 => "T11",
        TextNumber::T12 => "T12",
    }
}

/// The text that an edit brings; no bytes if it brings none.
fn text_of_edit<'a>(edit: &Edit<'a>) -> &'a [u8]
    ensures { result.now ≡ text_brought (asked edit.now) }
{
    match *edit {
        Edit::Insert { text, .. } | Edit::Replace { text, .. } => text,
        Edit::Delete { .. } | Edit::Move { .. } => &[],
    }
}

/// Writes the fault of a text: its place in the text, and its number.
fn write_text_fault<W: Write>(
    text: &[u8],
    fault: TextFault,
    to: &mut Writing<W>,
) -> Result<(), WriteFailed>
    requires { fault.at ≤ length text.now }
    ensures { Writes W.contents to.old to.new result (refusal_words text.now (refusals.Text fault)) }
{
    let at = place(text, fault.at);
    write_count(b"S03 ", at.line, to)?;
    write_count(b":", at.column, to)?;
    write_part(b" ", fault_name(fault.number).as_bytes(), to)
}

/// Writes why an edit that brings this text is refused.
fn write_reason<W: Write>(
    text: &[u8],
    error: EditError,
    to: &mut Writing<W>,
) -> Result<(), WriteFailed>
    requires { IsToldIn text.now error }
    ensures { Writes W.contents to.old to.new result (refusal_words text.now error) }
{
    match error {
        EditError::NoFile => to.write_all(b"S01"),
        EditError::NoPiece(count) => write_count(b"S02 ", count as u64, to),
        EditError::Text(fault) => write_text_fault(text, fault, to),
        EditError::NotOne(count) => write_count(b"S04 ", count as u64, to),
        EditError::TooMany => to.write_all(b"S05"),
        EditError::Memory => to.write_all(b""),
    }
}

/// Writes the line of a refused edit.
fn write_refused<W: Write>(
    edit: &Edit<'_>,
    error: EditError,
    to: &mut Writing<W>,
) -> Result<(), WriteFailed>
    requires { IsToldIn (text_brought (asked edit.now)) error }
    ensures { Writes W.contents to.old to.new result (refusal_line (asked edit.now) error) }
{
    to.write_all(b"refused ")?;
    write_reason(text_of_edit(edit), error, to)?;
    to.write_all(b"\n")
}

/// Writes the line of a refused batch, of which the edit with this number, from 0, is refused.
fn write_batch_refused<W: Write>(
    number: usize,
    edit: &Edit<'_>,
    error: EditError,
    to: &mut Writing<W>,
) -> Result<(), WriteFailed>
    requires { IsToldIn (text_brought (asked edit.now)) error }
    ensures { Writes W.contents to.old to.new result (batch_refusal_line number (asked edit.now) error) }
{
    write_count(b"refused ", number as u64, to)?;
    to.write_all(b" ")?;
    write_reason(text_of_edit(edit), error, to)?;
    to.write_all(b"\n")
}

/// Writes a line with the label of each of these items.
fn write_label_lines<W: Write>(
    session: &Session,
    items: &[usize],
    to: &mut Writing<W>,
) -> Result<(), WriteFailed>
    ensures { WritesOf W.contents session.now (λ base. label_lines (map (said_at base) items.now)) to.old to.new result }
{
    files_have_one_database(); // A law: files have one database at most.
    for i in items {
        let label = session.label(*i).unwrap_or(&[]);
        write_part(label, b"\n", to)?;
    }
    Ok(())
}

/// Writes a word, how many items there are, and a line with the label of each.
fn write_labels<W: Write>(
    session: &Session,
    word: &[u8],
    items: &[usize],
    to: &mut Writing<W>,
) -> Result<(), WriteFailed>
    ensures { WritesOf W.contents session.now (λ base. numbers_listed word.now base items.now) to.old to.new result }
{
    write_part(word, b" ", to)?;
    write_number(items.len() as u64, to)?;
    to.write_all(b"\n")?;
    write_label_lines(session, items, to)
}

/// Writes what was found for a label, and answers whether an assertion has it.
fn write_found<W: Write>(
    session: &Session,
    found: Result<Vec<usize>, KeepError>,
    to: &mut Writing<W>,
) -> Result<bool, ScriptError>
    ensures answers { (question : Question) (label : List ℕ) → IfOk found (λ numbers. Finds session.now question label numbers.items)
        → (IsErrOf found keep.NoAssertion → ¬ HasAssertion session.now label)
        → Answers W.contents (Ask question label) session.now session.now to.old to.new result }
    ensures there { IfOk result (λ there. (IsTrue there × IsOk found) ⊎ ((there ≡ false) × IsErrOf found keep.NoAssertion)) }
    ensures told { IsErrOf found keep.NoAssertion → result ≢ Err errors.Memory }
{
    match found {
        Ok(numbers) => {
            write_labels(session, b"found", &numbers, to)?;
            Ok(true)
        }
        Err(error) => match error {
            KeepError::NoAssertion => {
                to.write_all(b"refused K01\n")?;
                Ok(false)
            }
            KeepError::Memory => Err(ScriptError::from(AllocError)),
        },
    }
}

/// Writes what is answered when a script asks for the axioms of the assertion with this label: the labels of the sound `$a`
/// to which chains of citations lead from it. The answer says whether there is such an assertion; that there is none is
/// written too.
///
/// The errors are `Write`, if the writing has failed and the beginning of the answer went out, and `Memory`, if
/// memory runs out and nothing is written; that there is no such assertion is found before memory is taken.
pub fn write_axioms<W: Write>(
    session: &Session,
    label: &[u8],
    writing: &mut Writing<W>,
) -> Result<bool, ScriptError>
    ensures answer { OnOk result ((answer : List ℕ) × IsAnswer session.now (Ask Axioms label.now) answer session.now
        × Appends (written W.contents writing.old) (written W.contents writing.new) answer) }
    ensures there { IfOk result (λ there. IsTrue there ↔ HasAssertion session.now label.now) }
    ensures write { IsErrOf result errors.Write → (answer : List ℕ) × IsAnswer session.now (Ask Axioms label.now) answer session.now
        × AppendsPart (written W.contents writing.old) (written W.contents writing.new) answer }
    ensures write_failed { IsErrOf result errors.Write → has_failed writing.new ≡ true }
    ensures memory { IsErrOf result errors.Memory → writing.new ≡ writing.old }
    ensures known { ¬ HasAssertion session.now label.now → result ≢ Err errors.Memory }
    ensures told { IfErr result (λ error. (error ≡ errors.Write) ⊎ (error ≡ errors.Memory)) }
{
    write_found(session, session.axioms(label), writing)
}

/// Writes a line of a word and a label.
fn write_line_of<W: Write>(
    word: &[u8],
    label: &[u8],
    to: &mut Writing<W>,
) -> Result<(), WriteFailed>
    ensures { Writes W.contents to.old to.new result (word.now ++ label.now ++ codes "\n") }
{
    write_part(word, label, to)?;
    to.write_all(b"\n")
}

/// Writes the line that reports what is found of the assertion with this label.
fn write_told<W: Write>(
    files: &Files,
    label: &[u8],
    finding: &Finding,
    to: &mut Writing<W>,
) -> Result<(), WriteFailed>
    requires { IsInFiles (length (plain files.now)) (told finding.now) }
    ensures { Writes W.contents to.old to.new result (told_line (names_of (plain files.now)) label.now (told finding.now)) }
{
    match *finding {
        Finding::Axiom => write_line_of(b"axiom ", label, to),
        Finding::Proved => write_line_of(b"proved ", label, to),
        Finding::Incomplete(at) => write_incomplete(files, label, at, to),
        Finding::Wrong(number, at) => write_wrong(files, label, number, at, to),
        _ => to.write_all(b""),
    }
}

/// Writes the verdict on the assertion with this label, or that there is none.
fn write_verdict<W: Write>(
    session: &Session,
    label: &[u8],
    to: &mut Writing<W>,
) -> Result<(), WriteFailed>
    ensures { WritesAnswer W.contents session.now (Ask Verdict label.now) to.old to.new result }
{
    match session.verdict(label) {
        Ok(finding) => write_told(session.files(), label, &finding, to),
        Err(_) => to.write_all(b"refused K01\n"),
    }
}

/// Writes what was found for a label.
fn write_list<W: Write>(
    session: &Session,
    found: Result<Vec<usize>, KeepError>,
    to: &mut Writing<W>,
) -> Result<(), ScriptError>
    ensures { (question : Question) (label : List ℕ) → IfOk found (λ numbers. Finds session.now question label numbers.items)
        → (IsErrOf found keep.NoAssertion → ¬ HasAssertion session.now label)
        → Answers W.contents (Ask question label) session.now session.now to.old to.new result }
{
    match write_found(session, found, to) {
        Ok(_) => Ok(()),
        Err(error) => Err(error),
    }
}

/// Writes the answer to a question about the assertion with this label.
fn answer_question<W: Write>(
    session: &Session,
    question: Question,
    label: &[u8],
    to: &mut Writing<W>,
) -> Result<(), ScriptError>
    ensures { Answers W.contents (Ask question label.now) session.now session.now to.old to.new result }
{
    match question {
        Question::Verdict => Ok(write_verdict(session, label, to)?),
        Question::Axioms => write_list(session, session.axioms(label), to),
        Question::Cites => write_list(session, session.cites(label), to),
        Question::Users => write_list(session, session.users(label), to),
    }
}

/// Writes why an edit is refused; if memory ran out, nothing.
fn write_refusal<W: Write>(
    edit: &Edit<'_>,
    error: EditError,
    to: &mut Writing<W>,
) -> Result<(), ScriptError>
    requires { (files : List File) × IsRefusal (asked edit.now) files error }
    ensures { (session : SessionView) → IsRefusal (asked edit.now) session.files error
        → Answers W.contents (Change (asked edit.now)) session session to.old to.new result }
{
    mm_keep::first_faults_are_within(); // A law: the first fault of a text is at one of its bytes.
    match error {
        EditError::Memory => Err(ScriptError::from(AllocError)),
        _ => Ok(write_refused(edit, error, to)?),
    }
}

/// Writes why edits that were to be done together are refused; if memory ran out, nothing.
fn write_batch_refusal<W: Write>(
    edits: &[Edit<'_>],
    error: BatchError,
    to: &mut Writing<W>,
) -> Result<(), ScriptError>
    requires { (files : List File) × IsBatchRefusal (map asked edits.now) files error }
    ensures { (session : SessionView) (listed : List Listed) → map (λ one. one.edit) listed ≡ map asked edits.now
        → IsBatchRefusal (map asked edits.now) session.files error
        → Answers W.contents (Batch listed) session session to.old to.new result }
{
    mm_keep::first_faults_are_within(); // A law: the first fault of a text is at one of its bytes.
    match error {
        BatchError::Edit(number, error) => {
            Ok(write_batch_refused(number, &edits[number], error, to)?)
        }
        BatchError::Memory => Err(ScriptError::from(AllocError)),
    }
}

/// Does an edit, and writes what it runs, or why it is refused.
fn answer_edit<W: Write>(
    session: &mut Session,
    edit: &Edit<'_>,
    to: &mut Writing<W>,
) -> Result<(), ScriptError>
    ensures { Answers W.contents (Change (asked edit.now)) session.old session.new to.old to.new result }
{
    match session.edit(edit) {
        Ok(work) => Ok(write_labels(session, b"ran", work.runs(), to)?),
        Err(error) => write_refusal(edit, error, to),
    }
}

/// The edits that are there.
fn edits_of<'a>(
    alloc: Global,
    bytes: &'a [u8],
    found: &[EditAt],
) -> Result<Vec<Edit<'a>>, AllocError>
    requires { (one : EditAt) → Contains found.now one → IsEditWithin bytes.now one }
    ensures { IfOk result (λ edits. map asked edits.items ≡ map (edit_in bytes.now) found.now) }
{
    let mut edits = Vec::with_capacity(alloc, found.len())?;
    for one in found {
        edits.push(edit_of(bytes, one))?;
    }
    Ok(edits)
}

/// Does the edits of a batch, and writes what they run, or which of them is refused, and why.
fn answer_batch<W: Write>(
    alloc: Global,
    session: &mut Session,
    bytes: &[u8],
    found: &[EditAt],
    to: &mut Writing<W>,
) -> Result<(), ScriptError>
    requires { (one : EditAt) → Contains found.now one → IsEditWithin bytes.now one }
    ensures { (listed : List Listed) → map (λ one. one.edit) listed ≡ map (edit_in bytes.now) found.now
        → Answers W.contents (Batch listed) session.old session.new to.old to.new result }
{
    let edits = edits_of(alloc, bytes, found)?;
    match session.edit_all(&edits) {
        Ok(work) => Ok(write_labels(session, b"ran", work.runs(), to)?),
        Err(error) => write_batch_refusal(&edits, error, to),
    }
}

/// Puts the command that is there to the session, and writes the answer.
fn ask<W: Write>(
    alloc: Global,
    session: &mut Session,
    bytes: &[u8],
    command: &CommandAt,
    to: &mut Writing<W>,
) -> Result<(), ScriptError>
    requires { (one : Command) × IsCommandIn bytes.now command.now one }
    ensures { (one : Command) → IsCommandIn bytes.now command.now one
        → Answers W.contents one session.old session.new to.old to.new result }
{
    match command {
        CommandAt::Change(edit) => answer_edit(session, &edit_of(bytes, edit), to),
        CommandAt::Batch(edits) => answer_batch(alloc, session, bytes, edits, to),
        CommandAt::Report => Ok(write_report(session, to)?),
        CommandAt::Ask(question, label) => {
            answer_question(session, *question, bytes_of(bytes, *label), to)
        }
    }
}

/// Puts the command that is there to the session, writes the answer and passes it on to the system.
///
/// If memory runs out, nothing is done and nothing written. If a write fails, the command is done.
pub(crate) fn answer<W: Write>(
    alloc: Global,
    session: &mut Session,
    bytes: &[u8],
    command: &CommandAt,
    to: &mut Writing<W>,
) -> Result<(), ScriptError>
    requires { (one : Command) × IsCommandIn bytes.now command.now one }
    ensures { (one : Command) → IsCommandIn bytes.now command.now one
        → Answers W.contents one session.old session.new to.old to.new result }
{
    ask(alloc, session, bytes, command, to)?;
    Ok(to.flush()?)
}
