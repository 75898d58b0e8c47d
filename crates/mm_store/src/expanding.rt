//! The items that the pieces of the files give.

ghost use Rattle.std.specs.Prelude.{◌≡◌, ℕ, ◌≤◌, ◌↔◌, List, None, All, ◌++◌, IfOk, IfErr, IsErrOf, OnOk, length, map};
ghost use Rattle.mm_store.specs.{declared.error.StoreError.TheVariants.{NoTop}, Language.{FilesView.{bytes_of, files_in, number_of, plain}, FileFacts.{CanBeRead, NamesNoFile, StandsIn}}};
ghost use Rattle.mm_store.specs.{Language.{Answers.{IsExpansionError}, Expansion.{item_kind, IsExpansion}, Walking.{IsWalk}}, Code.Gains.{item_of_part}};

use crate::error::StoreError;
use crate::files::Files;
use crate::item::{Item, ItemKind};
use crate::kept_part::KeptPart;
use crate::walk::{PlacedPiece, Step, Walk};
use mm_text::{Part, PartKind, parts_are_texts, words_stand_alone};
use std::alloc::AllocError;

fn item_kind(kind: PartKind) -> ItemKind
    ensures { result ≡ item_kind kind }
{
    match kind {
        PartKind::Constants => ItemKind::Constants,
        PartKind::Variables => ItemKind::Variables,
        PartKind::Disjoint => ItemKind::Disjoint,
        PartKind::Floating => ItemKind::Floating,
        PartKind::Essential => ItemKind::Essential,
        PartKind::Axiom => ItemKind::Axiom,
        PartKind::Theorem => ItemKind::Theorem,
        PartKind::BlockStart => ItemKind::BlockStart,
        PartKind::BlockEnd => ItemKind::BlockEnd,
        PartKind::Inclusion => ItemKind::Missing,
    }
}

fn item_of(spot: PlacedPiece, part: Part) -> Item
    ensures { result ≡ item_of_part spot part }
{
    Item {
        kind: item_kind(part.kind),
        file: spot.file,
        piece: spot.piece,
        key: spot.key,
        start: part.start,
        end: part.end,
    }
}

/// Adds the items of a piece after others.
fn push_items(
    spot: PlacedPiece,
    parts: &[KeptPart],
    items: &mut Vec<Item>,
) -> Result<(), AllocError>
    ensures { OnOk result (items.new.items ≡ items.old.items ++ map (item_of_part spot) parts.now) }
{
    for part in parts {
        items.push(item_of(spot, part.part()))?;
    }
    Ok(())
}

/// Adds the items that a walk goes past after those that it has gone past.
pub(crate) fn push_rest(
    files: &Files,
    walk: &mut Walk,
    items: &mut Vec<Item>,
) -> Result<(), AllocError>
    ensures { OnOk result
        ((top : List ℕ) → IsWalk (files_in files.now) top items.old.items walk.old → IsExpansion (files_in files.now) top items.new.items) }
{
    mm_text::one_meaning(); // A law: a text has one list of words, or one fault.
    mm_text::one_division(); // A law: words are divided into units in one way.
    files.holds_pieces();
    files.hold_units();
    loop {
        match walk.step(files)? {
            Step::End => return Ok(()),
            Step::Items(spot) => push_items(spot, files.parts(spot.key), items)?,
            Step::Nothing => {}
            Step::Missing(_) => {}
        }
    }
}

impl Files {
    /// The items that the file of the name `top` gives, with other files in the place of their first inclusion:
    /// each statement, each beginning and end of a block, and each first reference to a name that no file has, in
    /// the order of reading.
    ///
    /// There are at most as many as the texts of the files have bytes, and so at most 4,294,967,295. `NoTop` comes
    /// if no file has the name `top`, before memory is taken; any other error is `Memory`. The files are gone
    /// through once.
    pub fn statements(&self, top: &[u8]) -> Result<Vec<Item>, StoreError>
        ensures items { IfOk result (λ found. IsExpansion (files_in self.now) top.now found.items) }
        ensures read { IfOk result (λ found. All (CanBeRead self.now) found.items) }
        ensures stand { IfOk result (λ found. All (StandsIn self.now) found.items) }
        ensures missing { IfOk result (λ found. All (NamesNoFile self.now) found.items) }
        ensures few { IfOk result (λ found. length found.items ≤ bytes_of (plain self.now)) }
        ensures small { IfOk result (λ found. length found.items ≤ 4294967295) }
        ensures no_top { IsErrOf result NoTop ↔ (number_of (files_in self.now) top.now ≡ None) }
        ensures err { IfErr result IsExpansionError }
    {
        mm_text::one_meaning(); // A law: a text has one list of words, or one fault.
        mm_text::one_division(); // A law: words are divided into units in one way.
        parts_are_texts(); // A law: each part of a text of whole units is a text.
        words_stand_alone(); // A law: the bytes of a unit are a text with its words.
        self.holds_pieces();
        self.hold_units();
        let _ = &self.bytes;
        let mut walk = self.walk_from_top(top)?;
        let mut items = Vec::new(self.allocator());
        push_rest(self, &mut walk, &mut items)?;
        Ok(items)
    }
}
