//! How pieces that stand in a file are parked, and parked ones stand.

ghost use Rattle.std.specs.Prelude.{◌≡◌, ◌+◌, ◌<◌, ◌≤◌, IfOk, OnErr, length};
ghost use Rattle.mm_store.specs.Language.{Pieces.{IsParked, Replaced, Deleted, parked_under}, FilesView.{bytes_of, plain}, EditedKeys.{deleted}, Undoing.{Fits, dropped, keys_in, key_at, moved, reversed}};
ghost use Rattle.mm_store.specs.Code.{Edited.{IsHeld, exchanged}, Inside.{IsPieceKept}};
ghost use Rattle.mm_store.specs.Language.Undoing as action;

use crate::files::Files;
use crate::piece_text::PieceText;
use crate::state::{EditKind, State};
use std::alloc::AllocError;

impl Files {
    /// Holds a new piece as one that was replaced in a file.
    pub(crate) fn hold_replaced(
        &mut self,
        number: usize,
        kept: PieceText,
    ) -> Result<usize, AllocError>
        requires { IsPieceKept kept }
        ensures ok { IfOk result (λ key. IsHeld self.old self.new key kept.text number Replaced) }
        ensures err { OnErr result (self.new ≡ self.old) }
    {
        let key = self
            .pieces
            .put(kept, State::Parked(number, EditKind::Replaced))?;
        Ok(key)
    }

    /// Holds a new piece as one that was deleted from a file, which has room for it.
    pub(crate) fn hold_deleted(
        &mut self,
        number: usize,
        kept: PieceText,
    ) -> Result<usize, AllocError>
        requires file { number < length self.old.keyed }
        requires kept { IsPieceKept kept }
        ensures ok { IfOk result (λ key. IsHeld self.old self.new key kept.text number Deleted) }
        ensures err { OnErr result (self.new ≡ self.old) }
    {
        let key = self
            .pieces
            .put(kept, State::Parked(number, EditKind::Deleted))?;
        let file = self.files.get_index_mut(number).unwrap();
        if let Err(error) = file.hold_one() {
            self.pieces.drop_piece(key);
            return Err(error);
        }
        Ok(key)
    }

    /// Takes a piece out, parks it, and answers its key.
    pub(crate) fn take_out(&mut self, number: usize, at: usize) -> usize
        requires { at < length (keys_in self.old.keyed number) }
        ensures key { result ≡ key_at self.old number at }
        ensures files { self.new ≡ deleted self.old number at }
    {
        let file = self.files.get_index_mut(number).unwrap();
        let old = file.delete_key(at);
        let less = self
            .pieces
            .set_state(old, State::Parked(number, EditKind::Deleted));
        self.bytes -= less as u64;
        old
    }

    /// Puts a piece that was taken out, or is held as such a one, before the one at `at`.
    pub(crate) fn put_back(&mut self, number: usize, at: usize, key: usize)
        requires fits { Fits number (action.Deleted at key) self.old }
        requires within { bytes_of (plain (reversed number (action.Deleted at key) self.old)) ≤ 4294967295 }
        ensures { self.new ≡ reversed number (action.Deleted at key) self.old }
    {
        let file = self.files.get_index_mut(number).unwrap();
        file.restore_key(at, key);
        let more = self.pieces.set_state(key, State::Standing);
        self.bytes += more as u64;
    }

    /// Puts a piece that was replaced, or is held as such a one, in the place of another, parks that, and answers its key.
    pub(crate) fn exchange(&mut self, number: usize, at: usize, key: usize) -> usize
        requires fits { Fits number (action.Replaced at key) self.old }
        requires within { bytes_of (plain (exchanged self.old number at key)) ≤ 4294967295 }
        ensures key { result ≡ key_at self.old number at }
        ensures files { self.new ≡ exchanged self.old number at key }
    {
        let file = self.files.get_index_mut(number).unwrap();
        let old = file.replace_key(at, key);
        let less = self
            .pieces
            .set_state(old, State::Parked(number, EditKind::Replaced));
        let more = self.pieces.set_state(key, State::Standing);
        self.bytes = self.bytes - less as u64 + more as u64;
        old
    }

    /// Takes a piece out and puts it back as piece `to`.
    pub(crate) fn move_piece(&mut self, number: usize, at: usize, to: usize)
        requires there { at < length (keys_in self.old.keyed number) }
        requires there_too { to < length (keys_in self.old.keyed number) }
        ensures { self.new ≡ moved self.old number at to }
    {
        let file = self.files.get_index_mut(number).unwrap();
        file.move_key(at, to);
    }

    /// Drops the piece that an edit replaced, which was kept until the edit is done.
    fn drop_replaced(&mut self, number: usize, old: usize)
        requires { IsParked self.old.pieces old number Replaced }
        ensures { self.new ≡ dropped old self.old }
    {
        self.pieces.drop_piece(old);
    }

    /// Drops the piece that an edit deleted, and the place that its file kept for it.
    fn drop_deleted(&mut self, number: usize, old: usize)
        requires { IsParked self.old.pieces old number Deleted }
        ensures { self.new ≡ dropped old self.old }
    {
        let file = self.files.get_index_mut(number).unwrap();
        file.forget_deleted();
        self.pieces.drop_piece(old);
    }

    /// Drops a parked piece, by what is kept beside it: the file that it was in, and the kind of the edit that parked it.
    pub(crate) fn drop_parked(&mut self, old: usize)
        requires { parked_under self.old.pieces old ≡ 1 }
        ensures { self.new ≡ dropped old self.old }
    {
        match self.pieces.state(old) {
            State::Standing => (),
            State::Parked(file, EditKind::Replaced) => self.drop_replaced(file, old),
            State::Parked(file, EditKind::Deleted) => self.drop_deleted(file, old),
        }
    }
}
