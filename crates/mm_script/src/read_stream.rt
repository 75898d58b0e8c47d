//! A reader that stops at its first failure.

ghost use Rattle.std.specs.{Prelude.{◌≡◌, ◌≤◌, ◌+◌, true, false, length, IfOk, IsErr, OnOk, OnErr}, Io.KnownBytes.{ReadConsumes}};

use std::io::Read;

/// A read that did not go through.
#[derive(Debug, Drop)]
pub struct ReadFailed;

/// A reader that remembers that it failed, and calls no more from then on.
#[derive(Drop)]
pub struct Reading<R: Read> {
    inner: R,
    /// How many calls it may still make.
    left: u32,
    failed: bool,
}

impl<R: Read> Reading<R> {
    ghost use Rattle.mm_script.specs.Language.Stream.{unread, calls_left, cannot_read, HasTried};

    /// A reader that has not failed, and may be called 4,294,967,295 times.
    pub fn new(inner: R) -> Reading<R>
        ensures unread { unread R.remaining result ≡ R.remaining inner }
        ensures calls { calls_left result ≡ 4294967295 }
        ensures failed { cannot_read result ≡ false }
    {
        Reading::within(inner, u32::MAX)
    }

    /// A reader that has not failed, and may be called this many times: one more call of it is a failure.
    pub fn within(inner: R, calls: u32) -> Reading<R>
        ensures unread { unread R.remaining result ≡ R.remaining inner }
        ensures calls { calls_left result ≡ calls }
        ensures failed { cannot_read result ≡ false }
    {
        Reading {
            inner,
            left: calls,
            failed: false,
        }
    }

    /// Whether a call has failed: it answered an error, or there was none left to make.
    pub fn failed(&self) -> bool
        ensures { result ≡ cannot_read self.now }
    {
        self.failed
    }

    /// The reader within.
    pub fn into_inner(self) -> R
        ensures { R.remaining result ≡ unread R.remaining self }
    {
        self.inner
    }

    /// Reads once: the count of the bytes that came, which are first in `buf`; 0 at the end, or if `buf` is empty.
    pub fn read(&mut self, buf: &mut [u8]) -> Result<usize, ReadFailed>
        ensures bound { IfOk result (λ n. n ≤ length buf.new) }
        ensures bytes { ReadConsumes (unread R.remaining self.old) (unread R.remaining self.new) result buf.new }
        ensures calls { OnOk result (calls_left self.old ≡ calls_left self.new + 1) }
        ensures sound { OnOk result (cannot_read self.new ≡ false) }
        ensures failed { OnErr result (cannot_read self.new ≡ true) }
        ensures tried { OnErr result (HasTried self.old self.new) }
        ensures last { calls_left self.old ≡ 0 → IsErr result }
        ensures stays { cannot_read self.old ≡ true → IsErr result × (self.new ≡ self.old) }
    {
        if self.failed || self.left == 0 {
            self.failed = true;
            return Err(ReadFailed);
        }
        self.left -= 1;
        match self.inner.read(buf) {
            Ok(count) => Ok(count),
            Err(_) => {
                self.failed = true;
                Err(ReadFailed)
            }
        }
    }
}
