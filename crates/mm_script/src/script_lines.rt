//! Reading on until a line is complete, or a text.

ghost use Rattle.std.specs.{Prelude.{◌≡◌, ◌≢◌, ◌≤◌, ◌<◌, ◌+◌, ◌^◌, ◌⊎◌, ◌∷◌, true, false, drop, length, Err, IfOk, IsErrOf, OnOk, OnErr}, Io.KnownBytes.{IsAtEnd}};
ghost use Rattle.mm_script.specs.{Code.{Growing.{InputGrows, HasBlanks, IsLineAt, IsLineBegun, IsOtherByte}, Stops.{IsOneLine}}, Language.{Commands.{to_come, pending}, Stream.{cannot_read, unread}}};
ghost use Rattle.mm_script.specs.declared.error.ScriptError.TheVariants as errors;

use crate::error::ScriptError;
use crate::input::Input;
use crate::read_stream::Reading;
use memchr::memchr;
use std::io::Read;

/// Where a line is: up to its line feed, or up to the end of the script.
#[derive(Clone, Copy)]
pub(crate) struct LineAt {
    pub(crate) start: usize,
    pub(crate) end: usize,
    /// Whether its line feed is there.
    pub(crate) fed: bool,
}

impl LineAt {
    /// Where what comes after the line begins.
    pub(crate) fn behind(self) -> usize
        requires { self.end + 1 < 2 ^ 64 }
        ensures fed { self.fed ≡ true → result ≡ self.end + 1 }
        ensures unfed { self.fed ≡ false → result ≡ self.end }
    {
        if self.fed { self.end + 1 } else { self.end }
    }
}

/// Reads on until the line that begins at `start` is complete.
pub(crate) fn read_line<R: Read>(
    input: &mut Input,
    reading: &mut Reading<R>,
    start: usize,
) -> Result<LineAt, ScriptError>
    requires { start ≤ length (pending input.old) }
    ensures grows { InputGrows input.old input.new (unread R.remaining reading.old) (unread R.remaining reading.new) }
    ensures line { IfOk result (IsLineAt (pending input.new) (unread R.remaining reading.new)) }
    ensures start { IfOk result (λ line. line.start ≡ start) }
    ensures fewer { OnOk result (to_come input.new reading.new ≤ to_come input.old reading.old) }
    ensures read { IsErrOf result errors.Read → IsOneLine (drop start (pending input.new)) }
    ensures failed { IsErrOf result errors.Read → cannot_read reading.new ≡ true }
    ensures told { OnErr result ((result ≡ Err errors.Read) ⊎ (result ≡ Err errors.Memory)) }
{
    let mut end = start;
    loop {
        let pending = input.pending();
        if let Some(more) = memchr(b'\n', &pending[end..]) {
            end += more;
            return Ok(LineAt {
                start,
                end,
                fed: true,
            });
        }
        end = pending.len();
        if !input.read_on(reading)? {
            return Ok(LineAt {
                start,
                end,
                fed: false,
            });
        }
    }
}

/// Reads on until the text is complete that ends here, and the line feed after it.
pub(crate) fn read_text<R: Read>(
    input: &mut Input,
    reading: &mut Reading<R>,
    end: usize,
) -> Result<(), ScriptError>
    ensures grows { InputGrows input.old input.new (unread R.remaining reading.old) (unread R.remaining reading.new) }
    ensures feed { OnOk result (drop end (pending input.new) ≡ 10 ∷ drop (end + 1) (pending input.new)) }
    ensures fewer { OnOk result (to_come input.new reading.new ≤ to_come input.old reading.old) }
    ensures bad { IsErrOf result errors.BadLine → IsOtherByte (pending input.new) end }
    ensures cut { IsErrOf result errors.Cut → (length (pending input.new) ≤ end) × IsAtEnd (unread R.remaining reading.new) }
    ensures read { IsErrOf result errors.Read → length (pending input.new) ≤ end }
    ensures failed { IsErrOf result errors.Read → cannot_read reading.new ≡ true }
    ensures told { result ≢ Err errors.Write }
{
    loop {
        if let Some(byte) = input.pending().get(end) {
            if *byte != b'\n' {
                return Err(ScriptError::BadLine);
            }
            return Ok(());
        }
        if !input.read_on(reading)? {
            return Err(ScriptError::Cut);
        }
    }
}

/// Reads on until a line that is not empty is complete, past the empty lines from `from` on; an empty one means the end.
pub(crate) fn read_some_line<R: Read>(
    input: &mut Input,
    reading: &mut Reading<R>,
    from: usize,
) -> Result<LineAt, ScriptError>
    requires { from ≤ length (pending input.old) }
    ensures grows { InputGrows input.old input.new (unread R.remaining reading.old) (unread R.remaining reading.new) }
    ensures line { IfOk result (IsLineAt (pending input.new) (unread R.remaining reading.new)) }
    ensures start { IfOk result (λ line. HasBlanks (pending input.new) from line.start) }
    ensures some { IfOk result (λ line. line.fed ≡ true → line.start < line.end) }
    ensures fewer { OnOk result (to_come input.new reading.new ≤ to_come input.old reading.old) }
    ensures read { IsErrOf result errors.Read → IsLineBegun (pending input.new) from }
    ensures failed { IsErrOf result errors.Read → cannot_read reading.new ≡ true }
    ensures told { OnErr result ((result ≡ Err errors.Read) ⊎ (result ≡ Err errors.Memory)) }
{
    let mut start = from;
    loop {
        let line = read_line(input, reading, start)?;
        if line.start < line.end || !line.fed {
            return Ok(line);
        }
        start += 1;
    }
}
