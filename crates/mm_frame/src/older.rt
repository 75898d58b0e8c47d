//! Reads the items of files with the help of an older base, which knows most of them.

ghost use Rattle.std.specs.{Prelude.{◌≡◌, ◌<◌, ◌∷◌, ◌++◌, ℕ, List, [], All, IfOk, IfSome, IsTrue, OnOk, true, length}, List.{AllZip}};
ghost use Rattle.mm_store.specs.Language.{FilesView.{FilesView}, FileFacts.{CanBeRead}};
ghost use Rattle.mm_statement.specs.Language.{Item.{is_read}, Statement.{Says, kind_of}};
ghost use Rattle.mm_frame.specs.{Language.{Base.{BaseView}, Answering.{IsBase, IsBaseBy}, Older.{HasOlder}}, Code.{KeptBase.{IsDraft, IsDraftLater}, KeptScope.{uses_numbers}}};
ghost use Rattle.mm_frame.specs.Code.{KnownItem.{IsSameItem, IsKnownItem, IsSoundOlder, numbers_of}, FromOlder.{AreFirst, AreFirstIf}};
ghost use Rattle.mm_machine.specs.Language.Names.{Begins};
ghost use Rattle.mm_statement.specs.Language.Item as meant;

use crate::base::Base;
use crate::draft::{Draft, read_numbered};
use crate::names::Names;
use mm_machine::NumberedSymbol;
use mm_statement::{Statement, is_same_range};
use mm_store::{Files, Item, ItemKind};
use std::alloc::{AllocError, Global};

/// What an older base knows of an item.
#[derive(Clone, Copy)]
pub struct KnownStatement<'a> {
    /// Its label.
    pub label: Option<&'a [u8]>,
    /// Its symbols.
    pub symbols: &'a [NumberedSymbol],
}

/// Whether the item with this number in an older base is the same bytes of one piece, of the same kind.
fn is_same_item(old: &Base, i: usize, item: &Item) -> bool
    requires { (base : BaseView) × IsBase base old.now }
    ensures { IsTrue result → IsSameItem old.now.items i item.now }
{
    i < old.count() && is_same_range(old.item(i), item)
}

/// Whether the symbols of an item of this kind are kept if it is sound.
fn keeps_symbols(kind: ItemKind) -> bool
    ensures { result ≡ is_read (kind_of kind) }
{
    matches!(
        kind,
        ItemKind::Disjoint
            | ItemKind::Floating
            | ItemKind::Essential
            | ItemKind::Axiom
            | ItemKind::Theorem
    )
}

/// What the item with this number in an older base knows of an item that is the same.
#[inline(always)]
fn known_of<'a>(old: &'a Base, i: usize, item: &Item) -> Option<KnownStatement<'a>>
    requires base { (base : BaseView) × IsBase base old.now }
    requires same_item { IsSameItem old.now.items i item.now }
    ensures known { (names : List (List ℕ)) (files : FilesView) (base : BaseView) → IsBaseBy names base old.now → AllZip (Says files) old.now.items base
        → IfSome result (IsKnownItem names files item.now) }
    ensures sound { (names : List (List ℕ)) (base : BaseView) → IsBaseBy names base old.now
        → IfSome result (IsSoundOlder names old.now.items base i item.now) }
{
    if !keeps_symbols(item.kind) {
        return None;
    }
    // A law: the same bytes say the same.
    mm_statement::one_range_says_one();
    match old.sound_symbols(i) {
        Some(symbols) => Some(KnownStatement {
            label: old.label(i),
            symbols,
        }),
        None => None,
    }
}

/// Puts the numbers of the names of some symbols.
fn put_numbers(symbols: &[NumberedSymbol], numbers: &mut Vec<usize>) -> Result<(), AllocError>
    ensures { OnOk result (numbers.new.items ≡ numbers_of symbols.now) }
{
    numbers.clear();
    for symbol in symbols {
        numbers.push(symbol.name)?;
    }
    Ok(())
}

/// The number of the item of an older base that may be the next after one with this label; this number if there is no such
/// item. Any number will do: it is compared.
fn next_guess(old: &Base, i: usize, label: Option<&[u8]>) -> usize {
    let Some(label) = label else { return i };
    match old.find(label) {
        Some(k) => k.saturating_add(1),
        None => i,
    }
}

/// Reads one more item of the files, of which this is known.
fn read_known(
    draft: &mut Draft,
    alloc: Global,
    names: &Names,
    files: &Files,
    item: &Item,
    known: KnownStatement,
) -> Result<(), AllocError>
    requires read { CanBeRead files.now item.now }
    requires known { IsKnownItem names.now files.now item.now known }
    ensures { OnOk result ((one : meant.Said) × Says files.now item.now one
        × ((said : List meant.Said) → IsDraftLater names.now said draft.old → IsDraftLater names.now (said ++ one ∷ []) draft.new)) }
{
    let statement = Statement::known(files, item, known.label);
    names.distinct();
    if draft.take_known(alloc, names, &statement, known.symbols)? {
        return Ok(());
    }
    put_numbers(known.symbols, &mut draft.numbers)?;
    draft.add_numbered(alloc, names, &statement)
}

/// Reads one more item of the files, of which nothing is known, and answers its label. After out of memory there may be more
/// names.
fn read_new<'a>(
    draft: &mut Draft,
    alloc: Global,
    names: &mut Names,
    files: &'a Files,
    item: &Item,
) -> Result<Option<&'a [u8]>, AllocError>
    requires { CanBeRead files.now item.now }
    ensures grows { Begins names.old names.new }
    ensures read { OnOk result ((one : meant.Said) × Says files.now item.now one
        × ((said : List meant.Said) → IsDraftLater names.old said draft.old → IsDraftLater names.new (said ++ one ∷ []) draft.new)) }
{
    let statement = read_numbered(alloc, names, files, item, &mut draft.numbers)?;
    names.distinct();
    draft.add_numbered(alloc, names, &statement)?;
    Ok(statement.label())
}

/// Puts the numbers of the names of the symbols of an item of this kind, where they are needed.
fn put_needed(
    kind: ItemKind,
    symbols: &[NumberedSymbol],
    numbers: &mut Vec<usize>,
) -> Result<(), AllocError>
    ensures { OnOk result (uses_numbers (kind_of kind) ≡ true → numbers.new.items ≡ numbers_of symbols.now) }
{
    if matches!(
        kind,
        ItemKind::Essential | ItemKind::Axiom | ItemKind::Theorem
    ) {
        return Ok(());
    }
    put_numbers(symbols, numbers)
}

/// Takes one more item over from an older base, which knows it. All items before it are the first ones of the older base.
fn read_from_older(
    draft: &mut Draft,
    alloc: Global,
    files: &Files,
    item: &Item,
    base: &Base,
    known: KnownStatement,
) -> Result<(), AllocError>
    requires read { CanBeRead files.now item.now }
    requires known { (names : List (List ℕ)) × IsKnownItem names files.now item.now known }
    ensures read { OnOk result ((one : meant.Said) × Says files.now item.now one
        × ((all : List (List ℕ)) (older : BaseView) (said : List meant.Said) → IsBaseBy all older base.now
        → AllZip (Says files.now) base.now.items older
        → AreFirst older said → IsKnownItem all files.now item.now known.entry
        → IsSoundOlder all base.now.items older (length said) item.now known.entry
        → IsDraft all said draft.old → IsDraft all (said ++ one ∷ []) draft.new)) }
{
    put_needed(item.kind, known.symbols, &mut draft.numbers)?;
    let statement = Statement::known(files, item, known.label);
    // A law: the same bytes say the same.
    mm_statement::one_range_says_one();
    draft.add_from_older(alloc, &statement, known.symbols, base)
}

/// An older base, the number of the item of it that may be the next one, and whether all items so far are its first ones.
#[derive(Clone, Copy)]
struct OlderCursor<'a> {
    base: &'a Base,
    next: usize,
    same: bool,
}

/// The number of the item of the older base that may be the next one: after its first items this is their count.
fn place_next(cursor: OlderCursor, count: usize) -> usize
    ensures { cursor.entry.same ≡ true → result ≡ count }
{
    if cursor.same { count } else { cursor.next }
}

/// Reads one more item of the files, which may be the next one of an older base: takes it over from there, if all items before
/// it are the first ones there. Answers where the older base is then. After out of memory there may be more names.
fn read_next<'a>(
    draft: &mut Draft,
    alloc: Global,
    names: &mut Names,
    files: &Files,
    item: &Item,
    cursor: OlderCursor<'a>,
) -> Result<OlderCursor<'a>, AllocError>
    requires read { CanBeRead files.now item.now }
    requires older { HasOlder names.old files.now cursor.base.now }
    ensures grows { Begins names.old names.new }
    ensures base { IfOk result (λ after. after.base ≡ cursor.entry.base) }
    ensures read { IfOk result (λ after. (one : meant.Said) × Says files.now item.now one
        × ((said : List meant.Said) → IsDraftLater names.old said draft.old → AreFirstIf cursor.entry.same files.now cursor.entry.base.now said
        → IsDraftLater names.new (said ++ one ∷ []) draft.new × AreFirstIf after.same files.now cursor.entry.base.now (said ++ one ∷ []))) }
{
    names.distinct();
    // A law: the same bytes say the same.
    mm_statement::one_range_says_one();
    let OlderCursor { base, same, .. } = cursor;
    let i = place_next(cursor, draft.count());
    if !is_same_item(base, i, item) {
        let label = read_new(draft, alloc, names, files, item)?;
        let next = next_guess(base, i, label);
        let same = false;
        return Ok(OlderCursor { base, next, same });
    }
    let next = i.saturating_add(1);
    let after = OlderCursor { base, next, same };
    let Some(known) = known_of(base, i, item) else {
        read_new(draft, alloc, names, files, item)?;
        return Ok(after);
    };
    if same {
        read_from_older(draft, alloc, files, item, base, known)?;
        return Ok(after);
    }
    read_known(draft, alloc, names, files, item, known)?;
    Ok(after)
}

/// Reads some more items of the files, the first ones, with the help of an older base. After out of memory there may be more
/// names.
fn read_each(
    draft: &mut Draft,
    alloc: Global,
    names: &mut Names,
    files: &Files,
    items: &[Item],
    old: &Base,
) -> Result<(), AllocError>
    requires read { All (CanBeRead files.now) items.now }
    requires older { HasOlder names.old files.now old.now }
    ensures grows { Begins names.old names.new }
    ensures read { OnOk result (IsDraftLater names.old [] draft.old
        → (said : List meant.Said) × AllZip (Says files.now) items.now said × IsDraftLater names.new said draft.new) }
{
    let mut cursor = OlderCursor {
        base: old,
        next: 0,
        same: true,
    };
    for item in items {
        cursor = read_next(draft, alloc, names, files, item, cursor)?;
    }
    Ok(())
}

/// Reads items of the files, from the first one on, with the help of an older base.
pub fn read_all(
    alloc: Global,
    names: &mut Names,
    files: &Files,
    items: &[Item],
    old: &Base,
) -> Result<Draft, AllocError>
    requires read { All (CanBeRead files.now) items.now }
    requires older { HasOlder names.old files.now old.now }
    ensures grows { Begins names.old names.new }
    ensures read { IfOk result (λ draft. (said : List meant.Said) × AllZip (Says files.now) items.now said × IsDraftLater names.new said draft) }
{
    let mut draft = Draft::with_room(alloc, items.len())?;
    match read_each(&mut draft, alloc, names, files, items, old) {
        Ok(()) => Ok(draft),
        Err(error) => {
            drop(draft);
            Err(error)
        }
    }
}
