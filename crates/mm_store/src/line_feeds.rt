//! Line feeds, counted once for each kilobyte of a text.

ghost use Rattle.std.specs.Prelude.{◌≡◌, ℕ, ◌+◌, ◌≤◌, ◌++◌, List, [], IfOk, length, take};
ghost use Rattle.mm_store.specs.Code.Lines.{AreLines, AreLineMarks, Follow};

use mm_text::{Place, place};
use std::alloc::{AllocError, Global};

/// How many bytes are between one mark of a text and the next.
const MARK_STEP: usize = 1024;

/// How many line feeds are among some bytes, and how many bytes come after the last of them: all, if there is
/// none.
#[derive(Clone, Copy)]
pub struct Lines {
    pub(crate) feeds: u32,
    pub(crate) behind: u32,
}

impl Lines {
    /// The lines of no bytes.
    pub(crate) fn none() -> Lines
        ensures { AreLines [] result }
    {
        Lines {
            feeds: 0,
            behind: 0,
        }
    }

    /// The lines of these bytes. It goes through them all.
    pub(crate) fn of(bytes: &[u8]) -> Lines
        requires { length bytes.now ≤ 4294967295 }
        ensures { AreLines bytes.now result }
    {
        let end = place(bytes, bytes.len());
        Lines {
            feeds: (end.line - 1) as u32,
            behind: (end.column - 1) as u32,
        }
    }

    /// The lines of bytes and of others after them.
    pub(crate) fn then(self, later: Lines) -> Lines
        requires { Follow self later }
        ensures { (first second : List ℕ) → AreLines first self → AreLines second later → AreLines (first ++ second) result }
    {
        let behind = if later.feeds == 0 {
            self.behind + later.behind
        } else {
            later.behind
        };
        Lines {
            feeds: self.feeds + later.feeds,
            behind,
        }
    }

    /// The place of the byte after these.
    pub(crate) fn place(self) -> Place
        ensures line { result.line ≡ self.feeds + 1 }
        ensures column { result.column ≡ self.behind + 1 }
    {
        Place {
            line: self.feeds as u64 + 1,
            column: self.behind as u64 + 1,
        }
    }
}

/// The lines of the first kilobyte of a text, of its first two, and so on, as far as it has whole ones. It goes
/// through the text once.
pub(crate) fn marks(alloc: Global, text: &[u8]) -> Result<Vec<Lines>, AllocError>
    requires { length text.now ≤ 4294967295 }
    ensures { IfOk result (λ marks. AreLineMarks text.now marks.items) }
{
    let count = text.len() / MARK_STEP;
    let mut marks = Vec::with_capacity(alloc, count)?;
    let mut lines = Lines::none();
    for number in 0..count {
        let start = number * MARK_STEP;
        lines = lines.then(Lines::of(&text[start..start + MARK_STEP]));
        marks.push(lines)?;
    }
    Ok(marks)
}

/// The lines of the first bytes of a text that has these marks. It goes through a kilobyte at most.
pub(crate) fn lines_before(text: &[u8], marks: &[Lines], at: usize) -> Lines
    requires marked { AreLineMarks text.now marks.now }
    requires small { length text.now ≤ 4294967295 }
    requires within { at ≤ length text.now }
    ensures { AreLines (take at text.now) result }
{
    let count = at / MARK_STEP;
    if count == 0 {
        return Lines::of(&text[..at]);
    }
    marks[count - 1].then(Lines::of(&text[count * MARK_STEP..at]))
}
