//! Reading the edits of a script: the line of each, and its text.

ghost use Rattle.std.specs.{Prelude.{◌≡◌, ◌≢◌, ◌≤◌, ◌<◌, ◌+◌, ◌⊎◌, true, false, drop, length, Err, IfOk, IsErrOf, OnOk}, Io.KnownBytes.{IsAtEnd}};
ghost use Rattle.mm_script.specs.Code.{Batches.{EndsBatch, HoldsBatch, IsBatchRead, IsListedRead}, Growing.{InputGrows, IsEditRead, IsLineAt, IsTextBad, IsTextLine, IsTextShort, line_bytes}};
ghost use Rattle.mm_script.specs.{Code.{Lines.{SaysEdit, text_part}, Stops.{batch_line}}, Language.{Commands.{to_come, pending, HasNoEntry, StopsSo, rest_of_script}, Script.{BadLine, CutShort, IsNumber}}};
ghost use Rattle.mm_script.specs.Language.Stream.{cannot_read, unread};
ghost use Rattle.mm_script.specs.declared.error.ScriptError.TheVariants as errors;

use crate::command::{Complete, EditAt, PendingRange};
use crate::error::ScriptError;
use crate::input::Input;
use crate::line::edit_asked;
use crate::read_stream::Reading;
use crate::script_lines::{LineAt, read_some_line, read_text};
use std::alloc::Global;
use std::io::Read;

/// Where the text of an edit is; none if it has none.
fn text_of(edit: EditAt) -> Option<PendingRange>
    ensures { result ≡ text_part edit }
{
    match edit {
        EditAt::Insert { text, .. } | EditAt::Replace { text, .. } => Some(text),
        EditAt::Delete { .. } | EditAt::Move { .. } => None,
    }
}

/// Reads on until the edit is complete that a line asks for: until its text is there.
pub(crate) fn read_edit<R: Read>(
    input: &mut Input,
    reading: &mut Reading<R>,
    edit: EditAt,
    line: LineAt,
) -> Result<Complete<EditAt>, ScriptError>
    requires line { IsLineAt (pending input.old) (unread R.remaining reading.old) line }
    requires says { SaysEdit (pending input.old) line edit }
    ensures grows { InputGrows input.old input.new (unread R.remaining reading.old) (unread R.remaining reading.new) }
    ensures edit { IfOk result (IsEditRead (pending input.new) (unread R.remaining reading.new) line.start) }
    ensures fewer { OnOk result (to_come input.new reading.new ≤ to_come input.old reading.old) }
    ensures bad { IsErrOf result errors.BadLine → IsTextBad (drop line.start (pending input.new)) }
    ensures cut { IsErrOf result errors.Cut → IsAtEnd (unread R.remaining reading.new)
        × (IsTextShort (drop line.start (pending input.new)) ⊎ IsTextLine (drop line.start (pending input.new))) }
    ensures read { IsErrOf result errors.Read → IsTextShort (drop line.start (pending input.new)) }
    ensures failed { IsErrOf result errors.Read → cannot_read reading.new ≡ true }
    ensures told { result ≢ Err errors.Write }
{
    let Some(text) = text_of(edit) else {
        return Ok(Complete {
            found: edit,
            end: line.behind(),
            fed: line.fed,
        });
    };
    if !line.fed {
        return Err(ScriptError::Cut);
    }
    read_text(input, reading, text.end)?;
    Ok(Complete {
        found: edit,
        end: text.end + 1,
        fed: true,
    })
}

/// Reads on until the next edit of a batch is complete, from `from` on, with this many missing.
fn read_listed<R: Read>(
    input: &mut Input,
    reading: &mut Reading<R>,
    from: usize,
    missing: usize,
) -> Result<Complete<EditAt>, ScriptError>
    requires { from ≤ length (pending input.old) }
    ensures grows { InputGrows input.old input.new (unread R.remaining reading.old) (unread R.remaining reading.new) }
    ensures edit { IfOk result (IsListedRead (pending input.new) (unread R.remaining reading.new) from) }
    ensures last { IfOk result (λ read. read.fed ≡ false → missing ≤ 1) }
    ensures fewer { OnOk result (to_come input.new reading.new ≤ to_come input.old reading.old) }
    ensures bad { IsErrOf result errors.BadLine
        → EndsBatch from missing (pending input.old) (pending input.new) (unread R.remaining reading.new) BadLine }
    ensures cut { IsErrOf result errors.Cut
        → EndsBatch from missing (pending input.old) (pending input.new) (unread R.remaining reading.new) CutShort }
    ensures read { IsErrOf result errors.Read → HoldsBatch from missing (pending input.old) (pending input.new) }
    ensures failed { IsErrOf result errors.Read → cannot_read reading.new ≡ true }
    ensures told { result ≢ Err errors.Write }
{
    let line = read_some_line(input, reading, from)?;
    if line.start == line.end {
        return Err(ScriptError::Cut);
    }
    let Some(edit) = edit_asked(input.pending(), line) else {
        return Err(ScriptError::BadLine);
    };
    let read = read_edit(input, reading, edit, line)?;
    if !read.fed && missing > 1 {
        return Err(ScriptError::Cut);
    }
    Ok(read)
}

/// Reads on until the edits of a batch are complete, this many of them, after its line.
pub(crate) fn read_batch<R: Read>(
    alloc: Global,
    input: &mut Input,
    reading: &mut Reading<R>,
    line: LineAt,
    count: usize,
) -> Result<Complete<Vec<EditAt>>, ScriptError>
    requires line { IsLineAt (pending input.old) (unread R.remaining reading.old) line }
    requires start { line.start ≡ 0 }
    requires number { IsNumber count }
    requires says { line_bytes (pending input.old) line ≡ batch_line count }
    ensures grows { InputGrows input.old input.new (unread R.remaining reading.old) (unread R.remaining reading.new) }
    ensures batch { IfOk result (λ read. IsBatchRead (pending input.new) (unread R.remaining reading.new) count read.found.items read.end read.fed) }
    ensures all { IfOk result (λ read. length read.found.items ≡ count) }
    ensures fewer { OnOk result (to_come input.new reading.new ≤ to_come input.old reading.old) }
    ensures bad { IsErrOf result errors.BadLine → StopsSo (rest_of_script (pending input.new) (unread R.remaining reading.new)) BadLine }
    ensures cut { IsErrOf result errors.Cut → StopsSo (rest_of_script (pending input.new) (unread R.remaining reading.new)) CutShort }
    ensures read { IsErrOf result errors.Read → HasNoEntry (pending input.new) }
    ensures failed { IsErrOf result errors.Read → cannot_read reading.new ≡ true }
    ensures told { result ≢ Err errors.Write }
{
    if !line.fed && count > 0 {
        return Err(ScriptError::Cut);
    }
    let mut edits = Vec::new(alloc);
    let mut end = line.behind();
    let mut fed = line.fed;
    while edits.len() < count {
        let read = read_listed(input, reading, end, count - edits.len())?;
        edits.push(read.found)?;
        end = read.end;
        fed = read.fed;
    }
    Ok(Complete {
        found: edits,
        end,
        fed,
    })
}
