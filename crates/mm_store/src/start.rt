//! Where the pieces of a file begin.

ghost use Rattle.std.specs.Prelude.{ℕ, ◌++◌, List, []};
ghost use Rattle.mm_store.specs.Code.{Lines.{IsStart, StaysSmall}, Inside.{IsPieceKept}};

use crate::line_feeds::Lines;
use crate::piece_text::PieceText;

/// How many bytes of a file are before a piece, and the lines of these bytes.
#[derive(Clone, Copy)]
pub struct Start {
    pub(crate) bytes: u32,
    pub(crate) lines: Lines,
}

impl Start {
    /// Where the first piece begins.
    pub(crate) fn first() -> Start
        ensures { IsStart [] result }
    {
        Start {
            bytes: 0,
            lines: Lines::none(),
        }
    }

    /// Where the piece after this one begins, if this one begins here.
    pub(crate) fn behind(self, piece: &PieceText) -> Start
        requires kept { IsPieceKept piece.now }
        requires small { StaysSmall self piece.now.text }
        ensures { (before : List ℕ) → IsStart before self → IsStart (before ++ piece.now.text) result }
    {
        Start {
            bytes: self.bytes + piece.text.len() as u32,
            lines: self.lines.then(piece.lines),
        }
    }
}
