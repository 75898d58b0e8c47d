//! Bytes without `$`, passed over at once.

ghost use Rattle.std.specs.Prelude.{◌≡◌, ◌≤◌, ◌||◌, false, true, length, take, drop};
ghost use Rattle.mm_text.specs.{Language.Run.{ends_run}, Code.LeftToRight.{has_dollar}};
ghost use Rattle.mm_text.specs.Language.Cut as pieces;

use crate::spelling::ends_white;
use memchr::memchr;

/// How many bytes there are up to the last white space, that one included.
fn white_end(bytes: &[u8]) -> usize
    ensures within { result ≤ length bytes.now }
    ensures white { pieces.ends_white (take result bytes.now) ≡ true }
{
    let mut end = bytes.len();
    while !ends_white(&bytes[..end]) {
        end -= 1;
    }
    end
}

/// How many bytes are before the run that has the first `$`: all, if there is none.
pub fn dollarless_len(bytes: &[u8]) -> usize
    ensures within { result ≤ length bytes.now }
    ensures none { has_dollar (take result bytes.now) ≡ false }
    ensures seam { (pieces.ends_white (take result bytes.now) || ends_run (drop result bytes.now)) ≡ true }
{
    match memchr(b'$', bytes) {
        Some(at) => white_end(&bytes[..at]),
        None => bytes.len(),
    }
}
