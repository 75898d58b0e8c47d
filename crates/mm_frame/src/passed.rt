//! What is kept of the items so far, apart from the assertions.

ghost use Rattle.std.specs.{Prelude.{◌≡◌, ◌∷◌, ◌++◌, ℕ, List, [], true, is_none, IfOk, OnOk, Ok, length}, Option.{option_map}};
ghost use Rattle.mm_statement.specs.Language.Statement.{kind_of};
ghost use Rattle.mm_frame.specs.{Language.{Sound.{AreSound, IsSound, sound_items}, Base.{fault_by}}, Code.{BlockMarks.{block_marks}, KeptEarlier.{KnowsEarlier}, KeptDisjointRows.{KnowsPairs}}};
ghost use Rattle.mm_frame.specs.Code.{KeptRows.{rows_of}, KeptScope.{taken, uses_numbers}, KeptSymbols.{AreSymbolsOf}, Numbers.{AreNameNumbers}};
ghost use Rattle.mm_machine.specs.Language.Names.{AreDistinct};
ghost use Rattle.mm_statement.specs.Language.Item as meant;
ghost use Rattle.mm_frame.specs.Language.Sound as meaning;

use crate::FrameNumber;
use crate::active_items::{ActiveItems, TakenItem, is_disjoint};
use crate::blocks::Blocks;
use crate::disjoint_rows::DisjointRows;
use crate::earlier::Earlier;
use crate::expressions::{Expressions, add_expression, room_for_expressions};
use crate::guesses::ListGuesses;
use crate::item_rows::Rows;
use crate::judge::FrameFault;
use crate::scope::Scope;
use mm_machine::NumberedSymbol;
use mm_statement::Statement;
use mm_store::ItemKind;
use std::alloc::{AllocError, Global};

/// What is kept of the items so far, apart from the frames of assertions and the lists of their active pairs, which are made of
/// it.
#[derive(Drop)]
pub struct Passed {
    pub scope: Scope,
    /// The labels and the faults.
    pub rows: Rows,
    /// The symbols of each sound `$f`, `$e`, `$a`, `$p` and `$d`, by its number; none for any other item.
    pub expressions: Expressions,
    /// Where equal symbols may be kept.
    guesses: ListGuesses,
    pub active: ActiveItems,
    /// The pairs of the active `$d`.
    disjoint_rows: DisjointRows,
}

/// The fault that is reported of an item of this kind, if its statement has this fault. Most often there is none, so nothing of
/// it is copied before that is known.
fn told_fault(kind: ItemKind, fault: &Option<FrameFault>) -> Option<FrameFault>
    ensures { option_map (λ f. (f.word, f.number)) result ≡ fault_by (kind_of kind) (option_map (λ f. (f.word, f.number)) fault.now) }
{
    match kind {
        ItemKind::Missing => Some(FrameFault {
            number: FrameNumber::F14,
            word: 1,
        }),
        _ => match fault {
            Some(FrameFault { number, word }) => Some(FrameFault {
                number: *number,
                word: *word,
            }),
            None => None,
        },
    }
}

/// Goes on with the pairs past one more item, whose symbols have these numbers.
fn add_disjoint(
    alloc: Global,
    pairs: &mut DisjointRows,
    blocks: &Blocks,
    numbers: &[usize],
    item: TakenItem,
) -> Result<(), AllocError>
    ensures { OnOk result ((all : List (List ℕ)) (before : List meant.Said) (said : meant.Said) → AreDistinct all → AreSound before
        → kind_of item.kind ≡ said.kind → item.number ≡ length before → blocks.now ≡ block_marks before
        → (meant.is_kind meant.Disjoint said.kind ≡ true → AreNameNumbers all numbers.now said.symbols) → (item.sound ≡ true → IsSound before said)
        → KnowsPairs all before pairs.old → KnowsPairs all (before ++ taken item.sound said ∷ []) pairs.new) }
{
    let TakenItem {
        kind,
        number,
        sound,
    } = item;
    if sound && is_disjoint(kind) {
        pairs.add(alloc, blocks, numbers, number)?;
    }
    Ok(())
}

impl Passed {
    ghost use Rattle.mm_frame.specs.Code.KeptBase.{IsPassed};

    /// No items, with room for this many.
    pub fn with_room(alloc: Global, count: usize) -> Result<Self, AllocError>
        ensures { IfOk result (λ passed. (all : List (List ℕ)) → AreDistinct all → IsPassed all [] passed) }
    {
        let scope = Scope::with_room(alloc, count)?;
        let rows = Rows::with_room(alloc, count)?;
        let expressions = room_for_expressions(alloc, count)?;
        let guesses = ListGuesses::with_room(alloc, count)?;
        Ok(Passed {
            scope,
            rows,
            expressions,
            guesses,
            active: ActiveItems::new(alloc),
            disjoint_rows: DisjointRows::new(alloc),
        })
    }

    /// How many items there are.
    pub fn count(&self) -> usize
        ensures { result ≡ length (rows_of self.now.rows) }
    {
        self.rows.count()
    }

    /// One more statement, with this fault or none, as it is taken.
    pub fn next(&self, statement: &Statement, fault: &Option<FrameFault>) -> TakenItem
        ensures kind { kind_of result.kind ≡ statement.now.kind }
        ensures number { result.number ≡ length (rows_of self.now.rows) }
        ensures sound { result.sound ≡ is_none fault.now }
    {
        TakenItem {
            kind: statement.kind(),
            number: self.count(),
            sound: fault.is_none(),
        }
    }

    /// What is known of the sound items before an assertion.
    pub fn earlier(&self) -> Earlier<'_>
        ensures { (all : List (List ℕ)) (said : List meant.Said) → IsPassed all said self.now → KnowsEarlier all (sound_items said) result }
    {
        Earlier {
            tables: self.scope.tables(),
            pairs: &self.disjoint_rows,
            blocks: self.scope.blocks(),
            essentials: self.active.essentials(),
            variables: self.active.variables(),
            expressions: &self.expressions,
        }
    }

    /// Goes on past one more statement, which has these symbols, and this fault or none. Where they are needed, the numbers are
    /// those of its symbols.
    pub fn add_item(
        &mut self,
        alloc: Global,
        statement: &Statement,
        numbers: &[usize],
        symbols: &[NumberedSymbol],
        fault: &Option<FrameFault>,
    ) -> Result<(), AllocError>
        ensures { OnOk result ((all : List (List ℕ)) (said : List meant.Said) → IsPassed all said self.old
            → option_map (λ f. (f.word, f.number)) fault.now ≡ meaning.fault (sound_items said) statement.now
            → (uses_numbers statement.now.kind ≡ true → AreNameNumbers all numbers.now statement.now.symbols)
            → AreSymbolsOf all (sound_items said) statement.now (is_none fault.now) symbols.now
            → IsPassed all (said ++ statement.now ∷ []) self.new) }
    {
        let item = self.next(statement, fault);
        let blocks = self.scope.blocks();
        add_disjoint(alloc, &mut self.disjoint_rows, blocks, numbers, item)?;
        add_expression(&mut self.expressions, &mut self.guesses, symbols)?;
        self.rows
            .add(statement.label(), told_fault(item.kind, fault))?;
        self.scope.next(alloc, statement, numbers, item.sound)?;
        let blocks = self.scope.blocks();
        self.active.add_item(blocks, &self.expressions, item)?;
        Ok(())
    }
}
