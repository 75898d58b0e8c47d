//! Edits of files: single pieces that come, go and move, and edits by the names of files.

ghost use Rattle.std.specs.{Prelude.{◌≡◌, ℕ, ◌+◌, ◌<◌, ◌≤◌, ◌↔◌, Some, None, IfOk, IfErr, OnOk, OnErr, IsErrOf, length, slice_index_or, slice_set, []}, List.{insert}};
ghost use Rattle.mm_store.specs.{declared.edit.EditError.TheVariants.{NoFile, NoPiece}, Language.{Pieces.{Replaced, Deleted}, FilesView.{bytes_of, file_number, number_of, plain}, FileFacts.{parked_in}}};
ghost use Rattle.mm_store.specs.Language.{Edits.{IsEditOf, NamesNoMember}, EditedKeys.{inserted, replaced, IsEditByKeys, parks}, Undoing.{keys_in, key_at, IsUndoable, KeepsKeys}, Answers.{IsEditError}};
ghost use Rattle.mm_store.specs.Code.{Edited.{pieces_in, with_pieces, IsDone, NamesPlace}, Inside.{IsPieceKept}};
ghost use Rattle.mm_text.specs.Language.Asked.{asked, edited_name};
ghost use Rattle.std.specs.FinMap as finite;

use crate::edit::{EditError, edited_file, is_among};
use crate::files::Files;
use crate::piece_text::PieceText;
use crate::undo::{Action, Undo};
use crate::unit::new_piece;
use mm_text::Edit;
use std::alloc::AllocError;

impl Files {
    /// Puts a piece in the place of another, parks that, and answers its key. After out of memory the files are as before.
    fn replace_piece(
        &mut self,
        number: usize,
        at: usize,
        kept: PieceText,
    ) -> Result<usize, AllocError>
        requires there { at < length (keys_in self.old.keyed number) }
        requires kept { IsPieceKept kept }
        requires within { bytes_of (with_pieces (plain self.old) number (slice_set (pieces_in (plain self.old) number) at kept.text)) ≤ 4294967295 }
        ensures ok { OnOk result ((key : ℕ) × (finite.get self.old.pieces key ≡ None) × (self.new ≡ replaced self.old number at key kept.text)) }
        ensures key { IfOk result (λ old. old ≡ key_at self.old number at) }
        ensures err { OnErr result (self.new ≡ self.old) }
    {
        self.stand_once();
        self.stay_small();
        let key = self.hold_replaced(number, kept)?;
        Ok(self.exchange(number, at, key))
    }

    /// Puts a piece before the one at `at`. After out of memory the files are as before.
    fn insert_piece(&mut self, number: usize, at: usize, kept: PieceText) -> Result<(), AllocError>
        requires file { number < length self.old.keyed }
        requires there { at ≤ length (keys_in self.old.keyed number) }
        requires kept { IsPieceKept kept }
        requires within { bytes_of (with_pieces (plain self.old) number (insert (pieces_in (plain self.old) number) at kept.text)) ≤ 4294967295 }
        ensures ok { OnOk result ((key : ℕ) × (finite.get self.old.pieces key ≡ None) × (self.new ≡ inserted self.old number at key kept.text)) }
        ensures err { OnErr result (self.new ≡ self.old) }
    {
        self.stand_once();
        self.stay_small();
        let key = self.hold_deleted(number, kept)?;
        self.put_back(number, at, key);
        Ok(())
    }

    /// How many bytes the texts have. It takes no memory.
    fn bytes_held(&self) -> u64
        ensures { result ≡ bytes_of (plain self.now) }
    {
        self.bytes
    }

    /// How many bytes the texts have without this piece. It takes no memory.
    fn bytes_without(&self, number: usize, at: usize) -> u64
        requires { at < length (keys_in self.now.keyed number) }
        ensures { result + length (slice_index_or (pieces_in (plain self.now) number) at []) ≡ bytes_of (plain self.now) }
    {
        let (_, file) = self.files.as_slice().get_index(number).unwrap();
        self.bytes - self.pieces.text(file.keys[at]).len() as u64
    }

    /// The number of the file of an edit, which has the edit's places.
    fn placed(&self, edit: &Edit<'_>) -> Result<usize, EditError>
        ensures ok { IfOk result (NamesPlace (asked edit.now) self.now) }
        ensures err { IfErr result (IsEditError (asked edit.now) (plain self.now)) }
    {
        let Some(number) = self.number_of(edited_file(edit)) else {
            return Err(EditError::NoFile);
        };
        let count = self.count_in(number);
        if !is_among(edit, count) {
            return Err(EditError::NoPiece(count));
        }
        Ok(number)
    }

    /// Does an edit, and does not work out where the pieces after its own begin.
    pub(crate) fn apply(&mut self, edit: &Edit<'_>) -> Result<Undo, EditError>
        ensures ok { IfOk result (IsDone (asked edit.now) self.old self.new) }
        ensures err { IfErr result (IsEditError (asked edit.now) (plain self.old)) }
        ensures unchanged { OnErr result (self.new ≡ self.old) }
    {
        let number = self.placed(edit)?;
        self.stand_once();
        self.stay_small();
        let action = match *edit {
            Edit::Insert { at, text, .. } => {
                let kept = new_piece(self.allocator(), self.bytes_held(), text)?;
                self.insert_piece(number, at, kept)?;
                Action::Inserted(at)
            }
            Edit::Replace { at, text, .. } => {
                let kept = new_piece(self.allocator(), self.bytes_without(number, at), text)?;
                Action::Replaced(at, self.replace_piece(number, at, kept)?)
            }
            Edit::Delete { at, .. } => Action::Deleted(at, self.take_out(number, at)),
            Edit::Move { at, to, .. } => {
                self.move_piece(number, at, to);
                Action::Moved(at, to)
            }
        };
        self.stay_small();
        Ok(Undo {
            file: number,
            action,
        })
    }

    /// Does an edit, and answers what is needed to undo it.
    ///
    /// The text that an edit brings becomes one piece as it is, with a line feed after it if it does not end in
    /// white space. The piece that a replacement or a deletion takes out is parked until the answer is spent; its
    /// key and its text stay, and one piece more is parked. A new piece has a key that no piece had. A move parks
    /// nothing, and the moved piece keeps its key.
    ///
    /// The errors are, in this order: `NoFile`; `NoPiece` with the count of the pieces; `Text` with the first fault of
    /// the text; `NotOne` with the number of its units; `TooMany` if the files would then have more than
    /// 4,294,967,295 bytes. The first two come before memory is taken. `Memory` can come in the place of the others
    /// and of success, and only if the edit brings a text. After any error the files are as before.
    pub fn edit(&mut self, edit: &Edit<'_>) -> Result<Undo, EditError>
        ensures ok { OnOk result (IsEditOf (asked edit.now) (plain self.old) (plain self.new)) }
        ensures by_keys { IfOk result (IsEditByKeys (asked edit.now) self.old self.new) }
        ensures parked { OnOk result (parked_in self.new ≡ parked_in self.old + parks (asked edit.now)) }
        ensures keys { OnOk result (KeepsKeys self.old self.new) }
        ensures undoes { IfOk result (IsUndoable self.old self.new) }
        ensures no_file { IsErrOf result NoFile ↔ (file_number (plain self.old) (edited_name (asked edit.now)) ≡ None) }
        ensures no_piece { (count : ℕ) → IsErrOf result (NoPiece count) ↔ NamesNoMember (asked edit.now) (plain self.old) count }
        ensures err { IfErr result (IsEditError (asked edit.now) (plain self.old)) }
        ensures unchanged { OnErr result (self.new ≡ self.old) }
    {
        let done = self.apply(edit);
        if let Ok(undo) = &done {
            self.restart_file(undo.file);
        }
        self.stand_once();
        done
    }
}
