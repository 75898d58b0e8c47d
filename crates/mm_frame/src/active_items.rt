//! What is active after the items so far.

ghost use Rattle.std.specs.Prelude.{◌≡◌, ◌∷◌, ◌++◌, ◌&&◌, Bool, List, [], OnOk, length};
ghost use Rattle.mm_machine.specs.declared.symbol.NumberedSymbol.{NumberedSymbol as Kept};
ghost use Rattle.mm_frame.specs.{Language.{Scope.{active_numbers}, Marks.{mark_of}}, Code.{BlockMarks.{closes, block_marks}, KeptActiveItems.{changes_active}, KeptScope.{taken}, LastItems.{IsSort}}};
ghost use Rattle.mm_statement.specs.Language.Statement.{kind_of};
ghost use Rattle.mm_statement.specs.Language.Item as meant;

use crate::active_numbers::ActiveNumbers;
use crate::blocks::Blocks;
use crate::essential::{EssentialVariable, EssentialVariables};
use crate::expressions::Expressions;
use mm_store::ItemKind;
use std::alloc::{AllocError, Global};

/// One more item, as it is taken.
#[derive(Clone, Copy)]
pub struct TakenItem {
    /// What it is.
    pub kind: ItemKind,
    /// Its number: the count of the items before it.
    pub number: usize,
    /// It is sound.
    pub sound: bool,
}

/// The numbers of the active `$e` and `$d`, and the variables of these `$e`.
#[derive(Drop)]
pub struct ActiveItems {
    essentials: ActiveNumbers,
    disjoints: ActiveNumbers,
    variables: EssentialVariables,
}

fn is_essential(kind: ItemKind) -> bool
    ensures { result ≡ meant.is_kind meant.Essential (kind_of kind) }
{
    matches!(kind, ItemKind::Essential)
}

/// Whether items of this kind are `$d`.
pub fn is_disjoint(kind: ItemKind) -> bool
    ensures { result ≡ meant.is_kind meant.Disjoint (kind_of kind) }
{
    matches!(kind, ItemKind::Disjoint)
}

fn ends_block(kind: ItemKind) -> bool
    ensures { result ≡ closes (mark_of (kind_of kind)) }
{
    matches!(kind, ItemKind::BlockEnd)
}

/// Whether what is active may change with this item: no other item makes a difference.
fn changes_active(item: TakenItem) -> bool
    ensures { result ≡ (item.sound && changes_active (kind_of item.kind)) }
{
    item.sound
        && matches!(
            item.kind,
            ItemKind::Essential | ItemKind::Disjoint | ItemKind::BlockEnd
        )
}

/// Goes on with the active items of one sort past one more item; `of_sort` says whether its kind is of the sort.
fn add_item(
    numbers: &mut ActiveNumbers,
    blocks: &Blocks,
    of_sort: bool,
    item: TakenItem,
) -> Result<(), AllocError>
    ensures { OnOk result ((test : meant.Kind → Bool) (before : List meant.Said) (said : meant.Said) → IsSort test → kind_of item.kind ≡ said.kind
        → of_sort ≡ test said.kind → item.number ≡ length before → blocks.now ≡ block_marks (before ++ taken item.sound said ∷ [])
        → numbers.old ≡ active_numbers (λ i. test i.kind) before → numbers.new ≡ active_numbers (λ i. test i.kind) (before ++ taken item.sound said ∷ [])) }
{
    let TakenItem {
        kind,
        number,
        sound,
    } = item;
    if !sound {
        return Ok(());
    }
    if of_sort {
        numbers.push(number)?;
        return Ok(());
    }
    if ends_block(kind) {
        numbers.prune(blocks);
    }
    Ok(())
}

impl ActiveItems {
    ghost use Rattle.mm_frame.specs.Code.KeptActiveItems.{AreActiveKept};

    /// No items. It takes no memory.
    pub fn new(alloc: Global) -> Self
        ensures { AreActiveKept [] [] result }
    {
        ActiveItems {
            essentials: ActiveNumbers::new(alloc),
            disjoints: ActiveNumbers::new(alloc),
            variables: EssentialVariables::new(alloc),
        }
    }

    /// The numbers of the active `$e`, rising.
    pub fn essentials(&self) -> &[usize]
        ensures { result.now ≡ self.now.essentials }
    {
        self.essentials.as_slice()
    }

    /// The numbers of the active `$d`, rising.
    pub fn disjoints(&self) -> &[usize]
        ensures { result.now ≡ self.now.disjoints }
    {
        self.disjoints.as_slice()
    }

    /// The variables of the active `$e`.
    pub fn variables(&self) -> &[EssentialVariable]
        ensures { result.now ≡ self.now.variables.found.items }
    {
        self.variables.as_slice()
    }

    /// Goes on past one more item: these are the blocks with it, and the symbols of all items with its own.
    pub fn add_item(
        &mut self,
        blocks: &Blocks,
        expressions: &Expressions,
        item: TakenItem,
    ) -> Result<(), AllocError>
        ensures { OnOk result ((before : List meant.Said) (said : meant.Said) (old : List (List Kept)) (symbols : List Kept) → kind_of item.kind ≡ said.kind
            → item.number ≡ length before → blocks.now ≡ block_marks (before ++ taken item.sound said ∷ [])
            → length old ≡ length before → expressions.now ≡ old ++ symbols ∷ [] → AreActiveKept before old self.old
            → AreActiveKept (before ++ taken item.sound said ∷ []) expressions.now self.new) }
    {
        if !changes_active(item) {
            return Ok(());
        }
        add_item(&mut self.essentials, blocks, is_essential(item.kind), item)?;
        self.variables
            .add_item(self.essentials.as_slice(), expressions, item.number)?;
        add_item(&mut self.disjoints, blocks, is_disjoint(item.kind), item)?;
        Ok(())
    }
}
