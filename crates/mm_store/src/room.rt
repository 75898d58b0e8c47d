//! How many bytes the files may have.

ghost use Rattle.std.specs.Prelude.{◌≡◌, ◌+◌, ◌≤◌, ◌↔◌, IsTrue, length};
ghost use Rattle.mm_text.specs.Language.Cut.{ended};

use mm_text::ends_white;

const MOST_BYTES: u64 = 4_294_967_295;

/// Whether files that hold this many bytes may hold this many more: both together are at most 4,294,967,295.
pub fn fits(held: u64, more: u64) -> bool
    ensures { IsTrue result ↔ (held + more ≤ 4294967295) }
{
    more <= MOST_BYTES && held <= MOST_BYTES - more
}

/// How many bytes a text has as it is read: with a line feed added if it does not end in white space.
pub(crate) fn ended_len(text: &[u8]) -> usize
    ensures { result ≡ length (ended text.now) }
{
    if ends_white(text) {
        text.len()
    } else {
        text.len() + 1
    }
}
