//! What is read of a script ahead of its answers.

ghost use Rattle.std.specs.Prelude.{◌≤◌, vec_len};

use crate::error::ScriptError;
use crate::read_stream::Reading;
use std::alloc::Global;
use std::io::Read;

/// How many bytes a read may bring. The definition `to_come` has this number, too.
const ROOM: usize = 4096;

/// The pending bytes of a script: those that are read and not answered yet. They are one command and at most 4,096 bytes more.
#[derive(Drop)]
pub struct Input {
    bytes: Vec<u8>,
    at: usize,
    ghost within: { at ≤ vec_len bytes },
}

impl Input {
    ghost use Rattle.std.specs.{Prelude.{◌≡◌, ◌<◌, ◌+◌, ◌⊎◌, [], true, false, drop, length, Err, IfOk, IsErrOf, OnErr}, Io.KnownBytes.{IsAtEnd}};
    ghost use Rattle.mm_script.specs.{Code.Growing.{InputGrows}, Language.{Commands.{to_come, pending}, Stream.{cannot_read, unread}}};
    ghost use Rattle.mm_script.specs.declared.error.ScriptError.TheVariants as errors;

    /// Nothing is pending. It takes no memory.
    pub fn new(alloc: Global) -> Input
        ensures { pending result ≡ [] }
    {
        Input {
            bytes: Vec::new(alloc),
            at: 0,
        }
    }

    /// The bytes that are read and not answered yet, in order.
    pub fn pending(&self) -> &[u8]
        ensures { result.now ≡ pending self.now }
    {
        &self.bytes[self.at..]
    }

    /// Passes the first `count` pending bytes: they are answered. Parts that were found before are void.
    pub fn pass(&mut self, count: usize)
        requires { count ≤ length (pending self.old) }
        ensures { pending self.new ≡ drop count (pending self.old) }
    {
        self.at += count;
    }

    /// Drops the bytes that are passed.
    fn compact(&mut self)
        ensures pending { pending self.new ≡ pending self.old }
        ensures all { pending self.new ≡ self.new.bytes.items }
        ensures at { self.new.at ≡ 0 }
    {
        let kept = self.bytes.len() - self.at;
        self.bytes.as_mut_slice().rotate_left(self.at);
        self.at = 0;
        self.bytes.truncate(kept);
    }

    /// Reads once, into a buffer of 4,096 bytes: whether bytes came. None come at the end. Room for them is taken before the
    /// read, so that no byte is lost if memory runs out.
    pub(crate) fn read_on<R: Read>(&mut self, reading: &mut Reading<R>) -> Result<bool, ScriptError>
        ensures grows { InputGrows self.old self.new (unread R.remaining reading.old) (unread R.remaining reading.new) }
        ensures came { IfOk result (λ more. more ≡ true → length (pending self.old) < length (pending self.new)) }
        ensures more { IfOk result (λ more. more ≡ true → to_come self.new reading.new + 1 ≤ to_come self.old reading.old) }
        ensures end { IfOk result (λ more. more ≡ false → (pending self.new ≡ pending self.old) × IsAtEnd (unread R.remaining reading.new)) }
        ensures fewer { IfOk result (λ _. to_come self.new reading.new ≤ to_come self.old reading.old) }
        ensures kept { OnErr result (pending self.new ≡ pending self.old) }
        ensures failed { IsErrOf result errors.Read → cannot_read reading.new ≡ true }
        ensures told { OnErr result ((result ≡ Err errors.Read) ⊎ (result ≡ Err errors.Memory)) }
    {
        self.compact();
        self.bytes.reserve(ROOM)?;
        let mut buffer = [0; ROOM];
        match reading.read(&mut buffer) {
            Ok(count) => {
                self.bytes.extend_from_slice(&buffer[..count]).unwrap();
                Ok(count > 0)
            }
            Err(_) => Err(ScriptError::Read),
        }
    }
}
