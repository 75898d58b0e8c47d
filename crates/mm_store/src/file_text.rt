//! A file by the keys of its pieces.

ghost use Rattle.std.specs.{Prelude.{◌≡◌, ◌+◌, ◌<◌, ◌≤◌, All, IfOk, OnOk, OnErr, length, map, slice_index_or, slice_set, take}, List.{concat, insert, remove}, VecDeque.{deque_len}};
ghost use Rattle.mm_store.specs.{Language.{Pieces.{Pieces, text_under}, Undoing.{moved_list}}, Code.{Inside.{IsPieceKept}, Lines.{AreStarts, AreStartsTo, IsStart}, Room.{HasRoom}}};
ghost use Rattle.mm_store.specs.Code.Starts.{HasKeys, KnowsStarts};

use crate::piece_text::PieceText;
use crate::pieces::PieceStore;
use crate::start::Start;
use std::alloc::{AllocError, Global};
use std::collections::VecDeque;

/// The keys of a file's pieces in order; where each of them and the tail begins, and up to which piece this is known; the
/// tail; and how many of its deleted pieces are parked. Starts past those that count are there as room.
#[derive(Drop)]
pub struct FileText {
    pub(crate) keys: VecDeque<usize>,
    pub(crate) starts: Vec<Start>,
    pub(crate) known: usize,
    pub(crate) tail: Vec<u8>,
    pub(crate) deleted: usize,
}

/// Where each of these pieces begins in a file of them, and where its tail does.
pub(crate) fn starts(alloc: Global, pieces: &[PieceText]) -> Result<Vec<Start>, AllocError>
    requires kept { All IsPieceKept pieces.now }
    requires small { length (concat (map (λ piece. piece.text) pieces.now)) ≤ 4294967295 }
    ensures starts { IfOk result (λ starts. AreStarts (map (λ piece. piece.text) pieces.now) starts.items) }
    ensures many { IfOk result (λ starts. length starts.items ≡ length pieces.now + 1) }
{
    let mut starts = Vec::with_capacity(alloc, pieces.len())?;
    let mut start = Start::first();
    for piece in pieces {
        starts.push(start)?;
        start = start.behind(piece);
    }
    starts.push(start)?;
    Ok(starts)
}

impl FileText {
    /// Sets where the piece or the tail after this piece begins.
    fn set_next(&mut self, pieces: &PieceStore, piece: usize)
        requires there { piece < deque_len self.old.keys }
        requires room { deque_len self.old.keys < length self.old.starts.items }
        requires small { length (concat (map (text_under pieces.now) self.old.keys.items)) ≤ 4294967295 }
        requires before { AreStartsTo piece (map (text_under pieces.now) self.old.keys.items) self.old.starts.items }
        ensures starts { AreStartsTo (piece + 1) (map (text_under pieces.now) self.old.keys.items) self.new.starts.items }
        ensures many { length self.new.starts.items ≡ length self.old.starts.items }
        ensures keys { self.new.keys ≡ self.old.keys }
        ensures known { self.new.known ≡ self.old.known }
        ensures tail { self.new.tail ≡ self.old.tail }
        ensures deleted { self.new.deleted ≡ self.old.deleted }
    {
        self.starts[piece + 1] = pieces.next_start(self.starts[piece], self.keys[piece]);
    }

    /// Sets the beginnings of pieces and tail that are not known, in one step for each.
    pub(crate) fn restart(&mut self, pieces: &PieceStore)
        requires room { HasRoom self.old }
        requires small { length (concat (map (text_under pieces.now) self.old.keys.items)) ≤ 4294967295 }
        requires starts { KnowsStarts pieces.now self.old }
        ensures keys { HasKeys pieces.now self.old self.new self.old.keys.items }
        ensures deleted { self.new.deleted ≡ self.old.deleted }
    {
        for piece in self.known..self.keys.len() {
            self.set_next(pieces, piece);
        }
        self.known = self.keys.len();
    }

    /// Where a piece begins: this is counted on from the last piece before it whose beginning is known.
    pub(crate) fn start(&self, pieces: &PieceStore, piece: usize) -> Start
        requires there { piece < deque_len self.now.keys }
        requires room { deque_len self.now.keys < length self.now.starts.items }
        requires small { length (concat (map (text_under pieces.now) self.now.keys.items)) ≤ 4294967295 }
        requires starts { KnowsStarts pieces.now self.now }
        ensures { IsStart (concat (take piece (map (text_under pieces.now) self.now.keys.items))) result }
    {
        let known = piece.min(self.known);
        let mut start = self.starts[known];
        for before in known..piece {
            start = pieces.next_start(start, self.keys[before]);
        }
        start
    }

    /// It is no longer known where the pieces after this one begin.
    fn forget_behind(&mut self, piece: usize)
        ensures at_most { self.new.known ≤ piece }
        ensures no_more { self.new.known ≤ self.old.known }
        ensures keys { self.new.keys ≡ self.old.keys }
        ensures starts { self.new.starts ≡ self.old.starts }
        ensures tail { self.new.tail ≡ self.old.tail }
        ensures deleted { self.new.deleted ≡ self.old.deleted }
    {
        self.known = self.known.min(piece);
    }

    /// Makes room for one deleted piece more, and counts it. If there is none, the room is doubled.
    pub(crate) fn hold_one(&mut self) -> Result<(), AllocError>
        requires { HasRoom self.old }
        ensures ok { OnOk result (self.new.deleted ≡ self.old.deleted + 1) }
        ensures err { OnErr result (self.new.deleted ≡ self.old.deleted) }
        ensures keys { (pieces : Pieces) → HasKeys pieces self.old self.new self.old.keys.items }
    {
        let held = self.keys.len() + self.deleted;
        if self.keys.capacity() <= held {
            self.keys.reserve(held + self.deleted + 1)?;
        }
        if self.starts.len() <= held + 1 {
            self.starts.push(Start::first())?;
        }
        self.deleted += 1;
        Ok(())
    }

    /// Replaces a key, and answers the old one.
    pub(crate) fn replace_key(&mut self, at: usize, key: usize) -> usize
        requires there { at < deque_len self.old.keys }
        requires room { HasRoom self.old }
        ensures value { result ≡ slice_index_or self.old.keys.items at 0 }
        ensures deleted { self.new.deleted ≡ self.old.deleted }
        ensures keys { (pieces : Pieces) → HasKeys pieces self.old self.new (slice_set self.old.keys.items at key) }
    {
        let old = self.keys[at];
        self.keys[at] = key;
        self.forget_behind(at);
        old
    }

    /// Takes a key out, and answers it. Its piece is parked, and room for it is kept.
    pub(crate) fn delete_key(&mut self, at: usize) -> usize
        requires there { at < deque_len self.old.keys }
        requires room { HasRoom self.old }
        ensures value { result ≡ slice_index_or self.old.keys.items at 0 }
        ensures deleted { self.new.deleted ≡ self.old.deleted + 1 }
        ensures keys { (pieces : Pieces) → HasKeys pieces self.old self.new (remove self.old.keys.items at) }
    {
        let key = self.keys.remove(at).unwrap();
        self.deleted += 1;
        self.forget_behind(at);
        key
    }

    /// Puts the key of a parked piece back.
    pub(crate) fn restore_key(&mut self, at: usize, key: usize)
        requires there { at ≤ deque_len self.old.keys }
        requires parked { 0 < self.old.deleted }
        requires room { HasRoom self.old }
        ensures deleted { self.new.deleted + 1 ≡ self.old.deleted }
        ensures keys { (pieces : Pieces) → HasKeys pieces self.old self.new (insert self.old.keys.items at key) }
    {
        self.keys.insert(at, key).unwrap();
        self.deleted -= 1;
        self.forget_behind(at);
    }

    /// Gives up the room for a deleted piece.
    pub(crate) fn forget_deleted(&mut self)
        requires parked { 0 < self.old.deleted }
        requires room { HasRoom self.old }
        ensures deleted { self.new.deleted + 1 ≡ self.old.deleted }
        ensures keys { (pieces : Pieces) → HasKeys pieces self.old self.new self.old.keys.items }
    {
        self.deleted -= 1;
    }

    /// Takes a key out and puts it back at `to`.
    pub(crate) fn move_key(&mut self, at: usize, to: usize)
        requires there { at < deque_len self.old.keys }
        requires there_too { to < deque_len self.old.keys }
        requires room { HasRoom self.old }
        ensures deleted { self.new.deleted ≡ self.old.deleted }
        ensures keys { (pieces : Pieces) → HasKeys pieces self.old self.new (moved_list self.old.keys.items at to) }
    {
        let key = self.keys.remove(at).unwrap();
        self.keys.insert(to, key).unwrap();
        self.forget_behind(at.min(to));
    }
}
