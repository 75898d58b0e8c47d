//! Numbers in four bytes.

ghost use Rattle.std.specs.Prelude.{◌≡◌, ◌<◌, IfOk, OnErr};

use std::alloc::AllocError;

/// A number in four bytes. A larger one is refused as if there were no memory for what it counts: items, symbols, words, bytes
/// of labels. Files have 4,294,967,295 bytes at most, all together, and each of these takes one of them or more, so there are
/// never so many.
pub fn narrow(number: usize) -> Result<u32, AllocError>
    ensures same { IfOk result (λ narrow. narrow ≡ number) }
    ensures err { OnErr result (4294967295 < number) }
{
    if number > 4_294_967_295 {
        return Err(AllocError);
    }
    Ok(number as u32)
}
