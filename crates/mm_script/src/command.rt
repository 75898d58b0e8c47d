//! Commands, as ranges of the bytes in which they were found.

ghost use Rattle.std.specs.Prelude.{◌≡◌};
ghost use Rattle.mm_text.specs.Language.Asked.{asked};
ghost use Rattle.mm_script.specs.Language.Commands.{bytes_of_part, edit_in, IsEditWithin, IsPartWithin};

use mm_text::Edit;

/// A range of the pending bytes ([`Input::pending`]): from `start` up to, but without, `end`. It holds until bytes are passed,
/// by [`Input::pass`] or by the next [`next_command`].
#[derive(Clone, Copy)]
pub struct PendingRange {
    /// The first byte, from 0.
    pub start: usize,
    /// The byte after the last one.
    pub end: usize,
}

/// An edit, with its name and its text as ranges of the pending bytes. Its numbers count pieces from 0, and are at most
/// 4,294,967,295. Whether the file has such a piece is not looked at.
#[derive(Clone, Copy)]
pub enum EditAt {
    /// A new piece, of this text, before the piece `at` of the file.
    Insert {
        /// The name of the file.
        file: PendingRange,
        /// The number of the piece before which it comes.
        at: usize,
        /// The text of the piece.
        text: PendingRange,
    },
    /// A new piece, of this text, in the place of the piece `at`.
    Replace {
        /// The name of the file.
        file: PendingRange,
        /// The piece.
        at: usize,
        /// The text of the piece.
        text: PendingRange,
    },
    /// The piece `at` is taken out.
    Delete {
        /// The name of the file.
        file: PendingRange,
        /// The piece.
        at: usize,
    },
    /// The piece `at` is taken out and put back as piece `to`.
    Move {
        /// The name of the file.
        file: PendingRange,
        /// The piece.
        at: usize,
        /// Its number after the move.
        to: usize,
    },
}

/// What may be asked of the assertion with a label.
#[derive(Clone, Copy)]
pub enum Question {
    /// Its verdict.
    Verdict,
    /// Its axioms.
    Axioms,
    /// The assertions that it cites.
    Cites,
    /// The theorems that cite it.
    Users,
}

/// A command, with its names, texts and labels as ranges of the pending bytes.
#[derive(Drop)]
pub enum CommandAt {
    /// An edit.
    Change(EditAt),
    /// Several edits, of which all are made or none.
    Batch(Vec<EditAt>),
    /// The report is asked for.
    Report,
    /// This is asked of the assertion with this label.
    Ask(Question, PendingRange),
}

/// A command, or an edit, that is complete in the pending bytes, and where it ends.
#[derive(Drop)]
pub struct Complete<T: Drop> {
    /// The command or the edit.
    pub found: T,
    /// The byte after it and its last line feed; if that is missing, the count of the pending bytes.
    pub end: usize,
    /// Whether its last line feed is there. If not, the script ends with it.
    pub fed: bool,
}

/// The bytes of a part. `bytes` are the pending bytes in which it was found. Nothing is copied.
pub fn bytes_of<'a>(bytes: &'a [u8], part: PendingRange) -> &'a [u8]
    requires { IsPartWithin bytes.now part }
    ensures { result.now ≡ bytes_of_part bytes.now part }
{
    &bytes[part.start..part.end]
}

/// The edit, with its name and its text borrowed from the pending bytes in which it was found.
pub fn edit_of<'a>(bytes: &'a [u8], edit: &EditAt) -> Edit<'a>
    requires { IsEditWithin bytes.now edit.now }
    ensures { asked result ≡ edit_in bytes.now edit.now }
{
    match *edit {
        EditAt::Insert { file, at, text } => Edit::Insert {
            file: bytes_of(bytes, file),
            at,
            text: bytes_of(bytes, text),
        },
        EditAt::Replace { file, at, text } => Edit::Replace {
            file: bytes_of(bytes, file),
            at,
            text: bytes_of(bytes, text),
        },
        EditAt::Delete { file, at } => Edit::Delete {
            file: bytes_of(bytes, file),
            at,
        },
        EditAt::Move { file, at, to } => Edit::Move {
            file: bytes_of(bytes, file),
            at,
            to,
        },
    }
}
