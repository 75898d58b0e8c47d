//! A writer that stops at its first failure.

ghost use Rattle.std.specs.{Prelude.{◌≡◌, true, false, IsErr, OnOk, OnErr}, Io.KnownBytes.{Keeps}};

use std::io::{BufWriter, Write};

/// A write that did not go through.
#[derive(Debug, Drop)]
pub struct WriteFailed;

/// A writer that remembers that it failed, and calls no more from then on.
#[derive(Drop)]
pub struct Writing<W: Write> {
    inner: W,
    /// How many calls were made, as far as they can be counted. The contracts alone speak of it.
    calls: u64,
    failed: bool,
}

impl<W: Write> Writing<W> {
    ghost use Rattle.mm_script.specs.Language.Stream.{written, has_failed, calls_made, HasCalled, Writes, WritesByCalls};

    /// A writer that has not failed, of which no call was made.
    pub fn new(inner: W) -> Writing<W>
        ensures written { written W.contents result ≡ W.contents inner }
        ensures calls { calls_made result ≡ 0 }
        ensures failed { has_failed result ≡ false }
    {
        Writing {
            inner,
            calls: 0,
            failed: false,
        }
    }

    /// Whether a call has failed: it answered an error, or took none of the bytes.
    pub fn failed(&self) -> bool
        ensures { result ≡ has_failed self.now }
    {
        self.failed
    }

    /// The writer within.
    pub fn into_inner(self) -> W
        ensures { W.contents result ≡ written W.contents self }
    {
        self.inner
    }

    /// Writes all of the bytes, by as many calls of `write` as the writer wants. It fails with the first call that answers an
    /// error or takes none of the bytes, and makes no call after it.
    pub fn write_all(&mut self, bytes: &[u8]) -> Result<(), WriteFailed>
        ensures writes { Writes W.contents self.old self.new result bytes.now }
        ensures calls { has_failed self.old ≡ false → WritesByCalls W.contents self.old self.new result bytes.now }
        ensures sound { OnOk result (has_failed self.new ≡ false) }
        ensures stays { has_failed self.old ≡ true → self.new ≡ self.old }
    {
        if self.failed {
            return Err(WriteFailed);
        }
        let mut at = 0;
        while at < bytes.len() {
            self.calls = self.calls.saturating_add(1);
            match self.inner.write(&bytes[at..]) {
                Ok(n) if n > 0 => at += n,
                _ => {
                    self.failed = true;
                    return Err(WriteFailed);
                }
            }
        }
        Ok(())
    }

    /// Passes on what the writer within has kept back, by one call of its `flush`.
    pub fn flush(&mut self) -> Result<(), WriteFailed>
        ensures written { Keeps (written W.contents self.old) (written W.contents self.new) }
        ensures sound { OnOk result (has_failed self.new ≡ false) }
        ensures calls { has_failed self.old ≡ false → HasCalled self.old self.new 1 }
        ensures failed { OnErr result (has_failed self.new ≡ true) }
        ensures stays { has_failed self.old ≡ true → IsErr result × (self.new ≡ self.old) }
    {
        if self.failed() {
            return Err(WriteFailed);
        }
        self.calls = self.calls.saturating_add(1);
        match self.inner.flush() {
            Ok(()) => Ok(()),
            Err(_) => {
                self.failed = true;
                Err(WriteFailed)
            }
        }
    }
}

impl<W: Write + Drop> Writing<BufWriter<W>> {
    ghost use Rattle.std.specs.Io.Buffered.{writer_contents};
    ghost use Rattle.mm_script.specs.Language.Stream.{gone_out, written, has_failed, HasCalled};

    /// Passes on what the buffer has kept back, by one call of its `flush`: then all that is written has gone out.
    pub fn flush_buffer(&mut self) -> Result<(), WriteFailed>
        ensures written { Keeps (written (writer_contents W.contents) self.old) (written (writer_contents W.contents) self.new) }
        ensures out { OnOk result (Keeps (written (writer_contents W.contents) self.old) (gone_out W.contents self.new)) }
        ensures sound { OnOk result (has_failed self.new ≡ false) }
        ensures calls { has_failed self.old ≡ false → HasCalled self.old self.new 1 }
        ensures failed { OnErr result (has_failed self.new ≡ true) }
        ensures stays { has_failed self.old ≡ true → IsErr result × (self.new ≡ self.old) }
    {
        if self.failed {
            return Err(WriteFailed);
        }
        // Of any writer, `flush` does not promise that it keeps nothing back; of a buffer, this does.
        self.calls = self.calls.saturating_add(1);
        match self.inner.flush() {
            Ok(()) => Ok(()),
            Err(_) => {
                self.failed = true;
                Err(WriteFailed)
            }
        }
    }
}
