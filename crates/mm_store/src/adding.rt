//! Adding a file.

ghost use Rattle.std.specs.{Prelude.{◌≡◌, ◌+◌, ◌<◌, ◌≤◌, ◌↔◌, ◌≢◌, ◌++◌, None, IfErr, OnOk, OnErr, IsErrOf, All, length, map}, List.{concat, insert}};
ghost use Rattle.mm_text.specs.Language.{Cut.{ArePieces}, Part.{HasOwnParts}};
ghost use Rattle.mm_store.specs.{declared.error.StoreError.TheVariants.{Known}, Language.{FilesView.{bytes_of, file_number, number_of, plain}, FileFacts.{IsAdded, KeepsPieces, parked_in}}};
ghost use Rattle.mm_store.specs.{Language.Answers.{IsAddError, IsAddErrorIn}, Code.Edited.{with_file}};

use crate::error::StoreError;
use crate::file_text::{FileText, starts};
use crate::files::Files;
use crate::piece_text::kept_pieces;
use crate::room::{ended_len, fits};
use bytes::Bytes;
use mm_text::{DividedCut, divided_cut};
use std::alloc::AllocError;
use std::collections::VecDeque;

impl Files {
    /// Adds a file of this name after the others: the text is cut into its pieces and its tail, with a line feed added
    /// if it does not end in white space. The pieces get keys of their own. Any name will do.
    ///
    /// The answer is `Known` if a file has the name, before memory is taken. For a name that no file has it is
    /// `Text` with the first fault of a text that has one; `TooMany` for a text that has none, with which the files
    /// would have more than 4,294,967,295 bytes; and `Memory`, which can come in the place of each of these two.
    /// Whatever the error, the files are then as before. All pieces that are held keep their keys.
    pub fn add(&mut self, name: &[u8], text: &[u8]) -> Result<(), StoreError>
        ensures ok { OnOk result (IsAdded (plain self.old) (plain self.new) name.now text.now) }
        ensures keeps { OnOk result (KeepsPieces self.old self.new) }
        ensures parked { OnOk result (parked_in self.new ≡ parked_in self.old) }
        ensures within { OnOk result (bytes_of (plain self.new) ≤ 4294967295) }
        ensures known { IsErrOf result Known ↔ (file_number (plain self.old) name.now ≢ None) }
        ensures err { IfErr result (IsAddError (plain self.old) name.now text.now) }
        ensures fault_within { IfErr result (IsAddErrorIn text.now) }
        ensures unchanged { OnErr result (self.new ≡ self.old) }
    {
        let None = self.number_of(name) else {
            return Err(StoreError::Known);
        };
        let text = Bytes::copy_from_slice(self.allocator(), text)?;
        self.add_bytes(name, &text)
    }

    /// Adds a file as `add` does. Its pieces share the memory of the text, so that none of it is copied but a last piece or a
    /// tail that gets a line feed, and the tail.
    pub fn add_bytes(&mut self, name: &[u8], text: &Bytes) -> Result<(), StoreError>
        ensures ok { OnOk result (IsAdded (plain self.old) (plain self.new) name.now text.now) }
        ensures keeps { OnOk result (KeepsPieces self.old self.new) }
        ensures parked { OnOk result (parked_in self.new ≡ parked_in self.old) }
        ensures within { OnOk result (bytes_of (plain self.new) ≤ 4294967295) }
        ensures known { IsErrOf result Known ↔ (file_number (plain self.old) name.now ≢ None) }
        ensures err { IfErr result (IsAddError (plain self.old) name.now text.now) }
        ensures fault_within { IfErr result (IsAddErrorIn text.now) }
        ensures unchanged { OnErr result (self.new ≡ self.old) }
    {
        if self.number_of(name).is_some() {
            return Err(StoreError::Known);
        }
        let cut = divided_cut(self.allocator(), text)?;
        let more = ended_len(text.as_slice()) as u64;
        if !fits(self.bytes, more) {
            return Err(StoreError::TooMany);
        }
        self.put_last(name, more, cut)?;
        Ok(())
    }

    /// Puts a file after the others. After out of memory the files are as before.
    fn put_last(&mut self, name: &[u8], bytes: u64, cut: DividedCut) -> Result<(), AllocError>
        requires missing { file_number (plain self.old) name.now ≡ None }
        requires counted { bytes ≡ length (concat (map (λ piece. piece.text) cut.pieces.items) ++ cut.tail.items) }
        requires fits { bytes_of (plain self.old) + bytes ≤ 4294967295 }
        requires pieces { ArePieces (map (λ piece. piece.text) cut.pieces.items) cut.tail.items }
        requires parts { All HasOwnParts cut.pieces.items }
        ensures ok { OnOk result
            (plain self.new ≡ with_file (plain self.old) name.now (map (λ piece. piece.text) cut.pieces.items) cut.tail.items) }
        ensures keeps { OnOk result (KeepsPieces self.old self.new) }
        ensures parked { OnOk result (parked_in self.new ≡ parked_in self.old) }
        ensures err { OnErr result (self.new ≡ self.old) }
    {
        let alloc = self.allocator();
        let DividedCut { pieces, tail } = cut;
        let kept = kept_pieces(alloc, pieces)?;
        let starts = starts(alloc, &kept)?;
        let known = kept.len();
        let name = Vec::from_slice(alloc, name)?;
        self.files.reserve(1)?;
        let keys = self.pieces.put_all(alloc, kept)?;
        let file = FileText {
            keys: VecDeque::from_vec(keys),
            starts,
            known,
            tail,
            deleted: 0,
        };
        self.files.insert(name, file).unwrap();
        self.bytes += bytes;
        Ok(())
    }
}
