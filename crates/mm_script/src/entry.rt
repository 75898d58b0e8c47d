//! The commands of a script, read until each is complete.

ghost use Rattle.std.specs.{Prelude.{◌≡◌, ◌≢◌, ◌<◌, ◌≤◌, ◌⊎◌, [], true, Err, None, IfOk, IfSome, IsErrOf, OnErr, OnOk}, Io.KnownBytes.{IsAtEnd}};
ghost use Rattle.mm_script.specs.Language.{Commands.{pending, rest_of_script, to_come, HasNoEntry, IsNextCommand, ReadsOn, StopsSo}, Script.{CutShort, BadLine}, Stream.{cannot_read, unread}};
ghost use Rattle.mm_script.specs.Code.{Growing.{InputGrows, IsLineAt}, Stops.{IsOneLine}};
ghost use Rattle.mm_script.specs.declared.error.ScriptError.TheVariants as errors;

use crate::command::{CommandAt, Complete};
use crate::edits::{read_batch, read_edit};
use crate::error::ScriptError;
use crate::input::Input;
use crate::line::{CommandLine, command_asked};
use crate::read_stream::Reading;
use crate::script_lines::{LineAt, read_line};
use std::alloc::Global;
use std::io::Read;

/// Reads on until a line that is not empty is complete; an empty one means the end. Empty lines before it are passed as they
/// come, so they take no memory.
fn first_line<R: Read>(input: &mut Input, reading: &mut Reading<R>) -> Result<LineAt, ScriptError>
    ensures reads { ReadsOn input.old input.new (unread R.remaining reading.old) (unread R.remaining reading.new) }
    ensures line { IfOk result (IsLineAt (pending input.new) (unread R.remaining reading.new)) }
    ensures start { IfOk result (λ line. line.start ≡ 0) }
    ensures some { IfOk result (λ line. line.fed ≡ true → 0 < line.end) }
    ensures fewer { OnOk result (to_come input.new reading.new ≤ to_come input.old reading.old) }
    ensures read { IsErrOf result errors.Read → IsOneLine (pending input.new) }
    ensures failed { IsErrOf result errors.Read → cannot_read reading.new ≡ true }
    ensures told { OnErr result ((result ≡ Err errors.Read) ⊎ (result ≡ Err errors.Memory)) }
{
    loop {
        let line = read_line(input, reading, 0)?;
        if line.end > 0 || !line.fed {
            return Ok(line);
        }
        input.pass(1);
    }
}

/// Reads on until the command is complete whose line this is.
fn read_command<R: Read>(
    alloc: Global,
    input: &mut Input,
    reading: &mut Reading<R>,
    line: LineAt,
) -> Result<Complete<CommandAt>, ScriptError>
    requires line { IsLineAt (pending input.old) (unread R.remaining reading.old) line }
    requires start { line.start ≡ 0 }
    requires some { 0 < line.end }
    ensures grows { InputGrows input.old input.new (unread R.remaining reading.old) (unread R.remaining reading.new) }
    ensures found { IfOk result (IsNextCommand (pending input.new) (unread R.remaining reading.new)) }
    ensures fewer { OnOk result (to_come input.new reading.new ≤ to_come input.old reading.old) }
    ensures bad { IsErrOf result errors.BadLine → StopsSo (rest_of_script (pending input.new) (unread R.remaining reading.new)) BadLine }
    ensures cut { IsErrOf result errors.Cut → StopsSo (rest_of_script (pending input.new) (unread R.remaining reading.new)) CutShort }
    ensures read { IsErrOf result errors.Read → HasNoEntry (pending input.new) }
    ensures failed { IsErrOf result errors.Read → cannot_read reading.new ≡ true }
    ensures told { result ≢ Err errors.Write }
{
    let Some(asked) = command_asked(input.pending(), line) else {
        return Err(ScriptError::BadLine);
    };
    match asked {
        CommandLine::Change(edit) => {
            let read = read_edit(input, reading, edit, line)?;
            Ok(Complete {
                found: CommandAt::Change(read.found),
                end: read.end,
                fed: read.fed,
            })
        }
        CommandLine::Batch(count) => {
            let read = read_batch(alloc, input, reading, line, count)?;
            Ok(Complete {
                found: CommandAt::Batch(read.found),
                end: read.end,
                fed: read.fed,
            })
        }
        CommandLine::Alone(command) => Ok(Complete {
            found: command,
            end: line.behind(),
            fed: line.fed,
        }),
    }
}

/// Reads on until a command is complete, and passes the empty lines before it; none if the script ends before one.
///
/// The command stays at the front of the pending bytes, and its parts are ranges of them. If it is `fed`, pass `end` bytes
/// after it is answered; if not, it is the last. No read call is made once it is complete.
///
/// `BadLine` and `Cut`: the script ends so at the first pending byte. `Read`: a read failed, and no whole command is pending.
/// `Memory`: no byte is lost, and a later call goes on. It is never `Write`.
///
/// It takes room for the bytes of one command and 4,096 more. The time is linear in these bytes and the empty lines.
pub fn next_command<R: Read>(
    alloc: Global,
    input: &mut Input,
    reading: &mut Reading<R>,
) -> Result<Option<Complete<CommandAt>>, ScriptError>
    ensures reads { ReadsOn input.old input.new (unread R.remaining reading.old) (unread R.remaining reading.new) }
    ensures found { IfOk result (λ next. IfSome next (IsNextCommand (pending input.new) (unread R.remaining reading.new))) }
    ensures none { IfOk result (λ next. next ≡ None → (pending input.new ≡ []) × IsAtEnd (unread R.remaining reading.new)) }
    ensures fewer { OnOk result (to_come input.new reading.new ≤ to_come input.old reading.old) }
    ensures bad { IsErrOf result errors.BadLine → StopsSo (rest_of_script (pending input.new) (unread R.remaining reading.new)) BadLine }
    ensures cut { IsErrOf result errors.Cut → StopsSo (rest_of_script (pending input.new) (unread R.remaining reading.new)) CutShort }
    ensures read { IsErrOf result errors.Read → HasNoEntry (pending input.new) }
    ensures failed { IsErrOf result errors.Read → cannot_read reading.new ≡ true }
    ensures told { result ≢ Err errors.Write }
{
    let line = first_line(input, reading)?;
    if line.end == 0 {
        return Ok(None);
    }
    Ok(Some(read_command(alloc, input, reading, line)?))
}
