//! Pieces under keys.

ghost use Rattle.std.specs.Prelude.{◌≡◌, ℕ, ◌+◌, ◌++◌, ◌≤◌, List, All, length, map, IsSome, IfOk, OnErr, take, vec_len, vec_capacity};
ghost use Rattle.slab.specs.Slab.{HasRoomFor};
ghost use Rattle.mm_text.specs.Language.{Cut.{HoldsOneUnit}, Part.{HasParts}};
ghost use Rattle.mm_store.specs.{Language.Pieces.{text_under, with_state, parked_pieces, parked_state, parked_under, state_in}, Code.{Inside.{IsPieceKept, ArePut}, Lines.{AreLines, IsStart, StaysSmall}}};
ghost use Rattle.mm_store.specs.Code.{Slots.{ArePutIn}, States.{piece_state}};
ghost use Rattle.std.specs.FinMap as finite;

use crate::kept_part::KeptPart;
use crate::line_feeds::{Lines, lines_before};
use crate::piece_text::PieceText;
use crate::start::Start;
use crate::state::State;
use slab::Slab;
use std::alloc::{AllocError, Global};
use std::marker::Model;

/// A text with what is found of it, and whether it is in a file or parked.
#[derive(Drop)]
pub struct Piece {
    pub(crate) kept: PieceText,
    pub(crate) state: State,
}

/// The pieces of all files and those that are parked, each under a key; the key of a dropped piece is used again.
#[derive(Drop)]
pub struct PieceStore {
    slab: Slab<Piece>,
    parked: usize,
}

impl Model for PieceStore {
    ghost use Rattle.std.specs.Coded.{coded_ℕ, codes};
    ghost use Rattle.mm_store.specs.{Language.Pieces.{Pieces}, Code.States.{state_code}};
    ghost use Rattle.std.specs.FinMap as finite;

    ghost Value = { Pieces };

    ghost coded = { finite.code coded_ℕ (Prim.hlevel (codes, state_code)) };

    ghost use Rattle.mm_store.specs.Code.Slots.{pieces_view, ArePiecesKept};

    ghost view = { pieces_view };

    ghost invariant = { ArePiecesKept };
}

/// One for a parked piece.
fn count_parked(state: State) -> usize
    ensures is { result ≡ parked_state (piece_state state) }
    ensures one { result ≤ 1 }
{
    match state {
        State::Standing => 0,
        State::Parked(_, _) => 1,
    }
}

/// Puts pieces that are in a file into a slab with room for them; their keys are added after others.
fn put_each(slab: &mut Slab<Piece>, pieces: Vec<PieceText>, keys: &mut Vec<usize>)
    requires slab_room { HasRoomFor slab.old (length pieces.items) }
    requires key_room { vec_len keys.old + length pieces.items ≤ vec_capacity keys.old }
    ensures { (added : List ℕ) × (keys.new.items ≡ keys.old.items ++ added) × ArePutIn slab.old pieces.items added slab.new }
{
    for kept in pieces {
        let key = slab.insert_reserved(Piece {
            kept,
            state: State::Standing,
        });
        keys.push(key).unwrap();
    }
}

impl PieceStore {
    /// No pieces. It takes no memory.
    pub(crate) fn new(alloc: Global) -> PieceStore
        ensures { result ≡ finite.empty }
    {
        PieceStore {
            slab: Slab::new(alloc),
            parked: 0,
        }
    }

    /// Puts a piece under a key that no piece has.
    pub(crate) fn put(&mut self, kept: PieceText, state: State) -> Result<usize, AllocError>
        requires { IsPieceKept kept }
        ensures fresh { IfOk result (λ key. finite.get self.old key ≡ None) }
        ensures ok { IfOk result (λ key. self.new ≡ finite.insert self.old key (record { text = kept.text; state = piece_state state })) }
        ensures err { OnErr result (self.new ≡ self.old) }
    {
        let key = self.slab.insert(Piece { kept, state })?;
        prove!(self.parked < self.slab.len());
        self.parked += count_parked(state);
        Ok(key)
    }

    /// Puts pieces that are in a file, each under a key that no piece has: all or, if memory runs out, none.
    pub(crate) fn put_all(
        &mut self,
        alloc: Global,
        pieces: Vec<PieceText>,
    ) -> Result<Vec<usize>, AllocError>
        requires { All IsPieceKept pieces.items }
        ensures ok { IfOk result (λ keys. ArePut self.old (map (λ piece. piece.text) pieces.items) keys.items self.new) }
        ensures err { OnErr result (self.new ≡ self.old) }
    {
        let mut keys = Vec::with_capacity(alloc, pieces.len())?;
        self.slab.reserve(pieces.len())?;
        put_each(&mut self.slab, pieces, &mut keys);
        Ok(keys)
    }

    /// Whether the piece under a key is parked: 1 if it is, and else 0.
    fn parked_under(&self, key: usize) -> usize
        ensures { result ≡ parked_under self.now key }
    {
        match self.slab.get(key) {
            None => 0,
            Some(piece) => count_parked(piece.state),
        }
    }

    /// Whether the piece under a key is in a file or parked.
    pub(crate) fn state(&self, key: usize) -> State
        requires { IsSome (finite.get self.now key) }
        ensures { state_in (finite.get self.now key) ≡ Some (piece_state result) }
    {
        let piece = self.slab.get(key).unwrap();
        piece.state
    }

    /// Gives a piece another state, and answers how many bytes its text has.
    pub(crate) fn set_state(&mut self, key: usize, state: State) -> usize
        requires { IsSome (finite.get self.old key) }
        ensures pieces { self.new ≡ with_state self.old key (piece_state state) }
        ensures len { result ≡ length (text_under self.old key) }
    {
        let others = self.parked - self.parked_under(key);
        prove!(others < self.slab.len());
        match self.slab.get_mut(key) {
            None => 0,
            Some(piece) => {
                piece.state = state;
                self.parked = others + count_parked(state);
                piece.kept.text.len()
            }
        }
    }

    /// Drops the piece under a key, and answers how many bytes its text had; 0 if there is none.
    pub(crate) fn drop_piece(&mut self, key: usize) -> usize
        ensures pieces { self.new ≡ finite.remove self.old key }
        ensures len { result ≡ length (text_under self.old key) }
    {
        match self.slab.try_remove(key) {
            None => 0,
            Some(piece) => {
                self.parked -= count_parked(piece.state);
                piece.kept.text.len()
            }
        }
    }

    /// How many pieces are parked.
    pub(crate) fn parked(&self) -> usize
        ensures { result ≡ parked_pieces self.now }
    {
        self.parked
    }

    /// The text of the piece under a key.
    pub(crate) fn text(&self, key: usize) -> &[u8]
        requires { IsSome (finite.get self.now key) }
        ensures text { result.now ≡ text_under self.now key }
        ensures small { length result.now ≤ 4294967295 }
    {
        let piece = self.slab.get(key).unwrap();
        piece.kept.text.as_slice()
    }

    /// The parts of the piece under a key.
    pub(crate) fn parts(&self, key: usize) -> &[KeptPart]
        requires { IsSome (finite.get self.now key) }
        ensures parts { HasParts (text_under self.now key) result.now }
        ensures unit { HoldsOneUnit (text_under self.now key) }
    {
        let piece = self.slab.get(key).unwrap();
        &piece.kept.parts
    }

    /// Each piece holds one unit. It does nothing.
    pub(crate) fn hold_units(&self)
        ensures { (key : ℕ) → IsSome (finite.get self.now key) → HoldsOneUnit (text_under self.now key) }
    {
        let _ = &self.slab;
    }

    /// The lines of the first bytes of the piece under a key. It goes through a kilobyte at most.
    pub(crate) fn lines_before(&self, key: usize, at: usize) -> Lines
        requires { at ≤ length (text_under self.now key) }
        ensures { AreLines (take at (text_under self.now key)) result }
    {
        match self.slab.get(key) {
            None => Lines::none(),
            Some(piece) => lines_before(piece.kept.text.as_slice(), &piece.kept.marks, at),
        }
    }

    /// Where the next piece of a file begins, if the piece under this key begins here.
    pub(crate) fn next_start(&self, start: Start, key: usize) -> Start
        requires { StaysSmall start (text_under self.now key) }
        ensures { (before : List ℕ) → IsStart before start → IsStart (before ++ text_under self.now key) result }
    {
        match self.slab.get(key) {
            None => start,
            Some(piece) => start.behind(&piece.kept),
        }
    }
}
