//! Files by name.

ghost use Rattle.std.specs.{Prelude.{◌≡◌, ℕ, ◌+◌, ◌<◌, ◌≤◌, IsSome, ◌++◌, List, Some, None, IfSome, IfOk, All, length, map, slice_get, slice_index_or, [], IfNone}, Option.{option_map}, List.{concat}};
ghost use Rattle.std.specs.VecDeque.{deque_len};
ghost use Rattle.mm_text.specs.Language.{Place.{line_at, column_at}, Part.{HasParts}};
ghost use Rattle.mm_store.specs.Language.{Pieces.{text_under}, FilesView.{no_files, bytes_of, file_number, files_in, find_file, number_of, piece_view, plain, text_of}, Holding.{HoldOneEach}};
ghost use Rattle.mm_store.specs.{Language.{FileFacts.{HoldsPieces, IsByte, IsLive, parked_in}, Undoing.{keys_in}}, Code.{Gains.{HoldUnits}, Steps.{Includes, IncludesNothing, piece_at}}};
ghost use Rattle.mm_store.specs.Code.{Lines.{AreLines, bytes_before}, Starts.{KnowsStarts}, Batched.{StandOnce}};
ghost use Rattle.std.specs.FinMap as finite;

use crate::file_text::{FileText, starts};
use crate::included::included_name;
use crate::kept_part::KeptPart;
use crate::key::PieceKey;
use crate::line_feeds::Lines;
use crate::pieces::PieceStore;
use indexmap::IndexMap;
use mm_text::Place;
use std::alloc::{AllocError, Global};
use std::marker::Model;

/// The files of a database, in the order of adding: each with its name, its pieces and its tail; and the pieces
/// that edits took out, parked until their edit is undone or settled.
///
/// Files are numbered from 0 in this order, and so are the pieces of a file. All texts together have at most
/// 4,294,967,295 bytes, parked pieces not counted. Looking a name up takes constant time unless names are made to
/// collide.
#[derive(Drop)]
pub struct Files {
    pub(crate) files: IndexMap<Vec<u8>, FileText>,
    pub(crate) pieces: PieceStore,
    pub(crate) bytes: u64,
}

impl Model for Files {
    ghost use Rattle.std.specs.Coded.{codes};
    ghost use Rattle.mm_store.specs.Language.FilesView.{FilesView};
    ghost use Rattle.mm_store.specs.contracts.pieces.PieceStore as store;

    ghost Value = { FilesView };

    ghost coded = { Prim.hlevel (codes, store.the_row.coded) };

    ghost use Rattle.mm_store.specs.Code.Kept.{files_view, AreFilesKept};

    ghost view = { files_view };

    ghost invariant = { AreFilesKept };
}

/// The lines of a file up to a byte of a piece.
fn lines_at(file: &FileText, pieces: &PieceStore, piece: usize, at: usize) -> Lines
    requires starts { KnowsStarts pieces.now file.now }
    requires room { deque_len file.now.keys < length file.now.starts.items }
    requires small { length (concat (map (text_under pieces.now) file.now.keys.items)) ≤ 4294967295 }
    requires piece_in { piece < length file.now.keys.items }
    requires within { at ≤ length (slice_index_or (map (text_under pieces.now) file.now.keys.items) piece []) }
    ensures { AreLines (bytes_before (map (text_under pieces.now) file.now.keys.items) piece at) result }
{
    let inside = pieces.lines_before(file.keys[piece], at);
    file.start(pieces, piece).lines.then(inside)
}

fn joined_text(alloc: Global, file: &FileText, pieces: &PieceStore) -> Result<Vec<u8>, AllocError>
    requires { All (λ key. IsSome (finite.get pieces.now key)) file.now.keys.items }
    ensures { IfOk result (λ text. text.items ≡ concat (map (text_under pieces.now) file.now.keys.items) ++ file.now.tail.items) }
{
    let mut text = Vec::new(alloc);
    for key in &file.keys {
        text.extend_from_slice(pieces.text(*key))?;
    }
    text.extend_from_slice(&file.tail)?;
    Ok(text)
}

impl Files {
    /// No files. It takes no memory.
    pub fn new(alloc: Global) -> Files
        ensures { result ≡ no_files }
    {
        Files {
            files: IndexMap::new(alloc),
            pieces: PieceStore::new(alloc),
            bytes: 0,
        }
    }

    /// The text of the file of this name, its pieces and its tail joined; `None` if no file has the name.
    pub fn text(&self, name: &[u8]) -> Result<Option<Vec<u8>>, AllocError>
        ensures { IfOk result
            (λ found. option_map (λ text. text.items) found ≡ option_map text_of (find_file (plain self.now) name.now)) }
    {
        match self.files.get_full(name) {
            None => Ok(None),
            Some((_, _, file)) => Ok(Some(joined_text(
                *self.files.allocator(),
                file,
                &self.pieces,
            )?)),
        }
    }

    /// How many pieces the file of this name has; `None` if no file has the name. It takes no memory.
    pub fn piece_count(&self, name: &[u8]) -> Option<usize>
        ensures { result ≡ option_map (λ file. length file.pieces) (find_file (plain self.now) name.now) }
    {
        match self.files.get_full(name) {
            None => None,
            Some((_, _, file)) => Some(file.keys.len()),
        }
    }

    /// The key of a piece of a file; `None` if the file has no such piece, or is not there.
    pub(crate) fn key_at(&self, file: usize, piece: usize) -> Option<PieceKey>
        ensures is { option_map (λ key. piece_view self.now.pieces key.at) result ≡ piece_at (files_in self.now) (record { file = file; piece = piece }) }
        ensures held { IfSome result (λ key. IsSome (finite.get self.now.pieces key.at)) }
        ensures small { IfSome result (λ key. piece < 18446744073709551615) }
    {
        self.holds_pieces();
        let (_, file) = self.files.as_slice().get_index(file)?;
        let at = *file.keys.get(piece)?;
        Some(PieceKey { at })
    }

    /// The parts of the piece with this key.
    pub(crate) fn parts(&self, key: PieceKey) -> &[KeptPart]
        requires { IsSome (finite.get self.now.pieces key.at) }
        ensures { HasParts (text_under self.now.pieces key.at) result.now }
    {
        self.pieces.parts(key.at)
    }

    /// The name that the piece with this key includes; `None` if it includes nothing.
    pub(crate) fn included_name(&self, key: PieceKey) -> Option<&[u8]>
        requires { IsSome (finite.get self.now.pieces key.at) }
        ensures none { IfNone result ((file number : ℕ) → IncludesNothing file number (piece_view self.now.pieces key.at)) }
        ensures some { IfSome result (λ name. (file number : ℕ) → Includes file number (piece_view self.now.pieces key.at) name.now) }
    {
        included_name(self.pieces.text(key.at), self.pieces.parts(key.at))
    }

    /// Each piece of the files holds one unit. It does nothing.
    pub(crate) fn hold_units(&self)
        ensures { HoldUnits (files_in self.now) }
    {
        self.holds_pieces();
        self.pieces.hold_units();
    }

    /// The text of the piece with this key. A piece in a file, or a parked one, has to have the key. The text has at
    /// most 4,294,967,295 bytes. It takes no memory.
    pub fn piece(&self, key: PieceKey) -> &[u8]
        requires { (text : List ℕ) × IsLive self.now key text }
        ensures text { (text : List ℕ) → IsLive self.now key text → result.now ≡ text }
        ensures small { length result.now ≤ 4294967295 }
    {
        self.pieces.text(key.at)
    }

    /// Each key of a file has a piece. It does nothing; what it promises holds of all files.
    pub fn holds_pieces(&self)
        ensures { HoldsPieces self.now }
    {
        let _ = &self.pieces;
    }

    /// Each piece of the files holds one unit. It does nothing; what it promises holds of all files.
    pub fn hold_one_each(&self)
        ensures { HoldOneEach (plain self.now) }
    {
        self.hold_units();
    }

    /// The files have at most 4,294,967,295 bytes. It does nothing.
    pub(crate) fn stay_small(&self)
        ensures { bytes_of (plain self.now) ≤ 4294967295 }
    {
        let _ = &self.bytes;
    }

    /// A piece that is not parked is at one place of the files, and a parked one at none. It does nothing.
    pub(crate) fn stand_once(&self)
        ensures { StandOnce self.now }
    {
        let _ = &self.pieces;
    }

    /// How many pieces are parked. It takes no memory, and constant time.
    pub fn parked(&self) -> usize
        ensures { result ≡ parked_in self.now }
    {
        self.pieces.parked()
    }

    /// The name of the file with this number. It takes no memory.
    pub fn file_name(&self, file: usize) -> &[u8]
        requires { file < length self.now.keyed }
        ensures { option_map (λ file. file.name) (slice_get self.now.keyed file) ≡ Some result.now }
    {
        let (name, _) = self.files.as_slice().get_index(file).unwrap();
        name
    }

    /// The line and the column, in the text of its file, of the byte `at` of a piece, or of its end if `at` is
    /// the length of the piece.
    ///
    /// It takes no memory. It goes through a kilobyte of the piece at most, wherever the byte is.
    pub fn place(&self, file: usize, piece: usize, at: usize) -> Place
        requires { (text : List ℕ) × (offset : ℕ) × IsByte self.now file piece at text offset }
        ensures line { (text : List ℕ) (offset : ℕ) → IsByte self.now file piece at text offset → result.line ≡ line_at text offset }
        ensures column { (text : List ℕ) (offset : ℕ) → IsByte self.now file piece at text offset → result.column ≡ column_at text offset }
    {
        let (_, text) = self.files.as_slice().get_index(file).unwrap();
        lines_at(text, &self.pieces, piece, at).place()
    }

    /// Goes through those pieces of a file whose beginnings are not known, if there is such a file.
    pub(crate) fn restart_file(&mut self, number: usize)
        ensures { self.new ≡ self.old }
    {
        match self.files.get_index_mut(number) {
            None => (),
            Some(file) => file.restart(&self.pieces),
        }
    }

    /// Goes through those pieces of each file whose beginnings are not known.
    pub(crate) fn restart_all(&mut self)
        ensures { self.new ≡ self.old }
    {
        for number in 0..self.files.len() {
            self.restart_file(number);
        }
    }

    /// The number of the file of this name. It takes no memory.
    pub(crate) fn number_of(&self, name: &[u8]) -> Option<usize>
        ensures number { result ≡ file_number (plain self.now) name.now }
        ensures within { IfSome result (λ n. n < length self.now.keyed) }
    {
        self.files.get_index_of(name)
    }

    /// How many pieces the file of this number has. It takes no memory.
    pub(crate) fn count_in(&self, number: usize) -> usize
        requires { number < length self.now.keyed }
        ensures { result ≡ length (keys_in self.now.keyed number) }
    {
        let (_, file) = self.files.as_slice().get_index(number).unwrap();
        file.keys.len()
    }

    /// The allocator that all texts and lists are made on.
    pub(crate) fn allocator(&self) -> Global {
        *self.files.allocator()
    }
}
