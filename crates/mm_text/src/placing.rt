//! Lines and columns of bytes.

ghost use Rattle.std.specs.Prelude.{◌≡◌, ◌≤◌, length};
ghost use Rattle.mm_text.specs.Language.Place.{line_at, column_at};

use crate::location::Place;
use memchr::{memchr_iter, memrchr};

/// The line and the column of the byte `at`, counted from 0, or of the end if `at` is the length of the text.
///
/// It takes no memory. Any bytes will do, a fault among them or not.
pub fn place(text: &[u8], at: usize) -> Place
    requires { at ≤ length text.now }
    ensures line { result.line ≡ line_at text.now at }
    ensures column { result.column ≡ column_at text.now at }
{
    let before = &text[..at];
    let line = memchr_iter(b'\n', before).count() + 1;
    let column = match memrchr(b'\n', before) {
        Some(line_feed) => at - line_feed,
        None => at + 1,
    };
    Place {
        line: line as u64,
        column: column as u64,
    }
}
