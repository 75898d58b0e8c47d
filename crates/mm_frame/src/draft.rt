//! A base in the making: what the items read so far leave.

ghost use Rattle.std.specs.{Prelude.{◌≡◌, ◌∷◌, ◌++◌, ℕ, List, [], true, is_none, IfOk, MatchBool, OnOk, All, length}, Option.{option_map}};
ghost use Rattle.mm_store.specs.Language.FileFacts.{CanBeRead};
ghost use Rattle.mm_statement.specs.Language.{Item.{is_read}, Statement.{Says}};
ghost use Rattle.mm_frame.specs.{Language.{Sound.{AreSound, IsSound, sound_items}, Framing.{expression}, Base.{BaseView, is_sound_at}}, Code.{KeptScope.{uses_numbers}, KeptSymbols.{AreSymbolsOf}}};
ghost use Rattle.mm_frame.specs.Code.{KnownItem.{numbers_of}, KeptTables.{Knows}, KeptRows.{rows_of}, Numbers.{AreNameNumbers}, FromOlder.{IsNextOf}};
ghost use Rattle.mm_machine.specs.Language.{Names.{AreDistinct, Begins}, NumberedSymbols.{symbols_of, IsNumbered}};
ghost use Rattle.mm_statement.specs.Language.Item as meant;
ghost use Rattle.mm_frame.specs.Language.Sound as meaning;

use crate::active_items::is_disjoint;
use crate::assertions::Assertions;
use crate::base::Base;
use crate::judge::{FrameFault, fault_of, is_sound_as_known};
use crate::names::Names;
use crate::older_assertions::{ActiveDisjoints, OlderItem};
use crate::parts::BaseParts;
use crate::passed::Passed;
use crate::symbol::{put_symbols, put_variables};
use crate::tables::Tables;
use mm_machine::NumberedSymbol;
use mm_statement::{PlainWords, Statement};
use mm_store::{Files, Item};
use std::alloc::{AllocError, Global};
use std::mem;

/// What is kept of the items so far, and room for what is read of the next one.
#[derive(Drop)]
pub struct Draft {
    passed: Passed,
    assertions: Assertions,
    /// The numbers of the symbols of the last statement.
    pub numbers: Vec<usize>,
    /// The symbols that are kept of it.
    symbols: Vec<NumberedSymbol>,
}

/// Puts the numbers of some symbols, and names those that have none yet. Out of memory may leave more names.
fn number_all(
    alloc: Global,
    names: &mut Names,
    symbols: PlainWords,
    numbers: &mut Vec<usize>,
) -> Result<(), AllocError>
    ensures grows { Begins names.old names.new }
    ensures count { OnOk result (length numbers.new.items ≡ length symbols.entry) }
    ensures numbers { OnOk result ((all : List (List ℕ)) → Begins names.new all → AreNameNumbers all numbers.new.items symbols.entry) }
{
    numbers.clear();
    let mut symbols = symbols;
    while let Some(symbol) = symbols.next_word() {
        let number = names.intern(alloc, symbol)?;
        numbers.push(number)?;
    }
    Ok(())
}

/// What an item of the files says, and the numbers of its symbols; those that have none yet are named. Out of memory may leave
/// more names.
pub fn read_numbered<'a>(
    alloc: Global,
    names: &mut Names,
    files: &'a Files,
    item: &Item,
    numbers: &mut Vec<usize>,
) -> Result<Statement<'a>, AllocError>
    requires { CanBeRead files.now item.now }
    ensures grows { Begins names.old names.new }
    ensures says { IfOk result (Says files.now item.now) }
    ensures count { IfOk result (λ read. length numbers.new.items ≡ length read.symbols) }
    ensures numbers { IfOk result (λ read. (all : List (List ℕ)) → Begins names.new all → AreNameNumbers all numbers.new.items read.symbols) }
{
    let (statement, symbols) = Statement::read(files, item);
    number_all(alloc, names, symbols, numbers)?;
    Ok(statement)
}

/// Puts the symbols that are kept of a statement whose symbols have these numbers: of a sound `$f`, `$e`, `$a`, `$p` or `$d`.
fn keep_symbols(
    tables: &Tables,
    statement: &Statement,
    numbers: &[usize],
    sound: bool,
    symbols: &mut Vec<NumberedSymbol>,
) -> Result<(), AllocError>
    ensures numbered { OnOk result ((all : List (List ℕ)) → AreNameNumbers all numbers.now statement.now.symbols
        → All (IsNumbered all) symbols.new.items) }
    ensures read { OnOk result ((all : List (List ℕ)) (before : List meant.Said) → AreSound before → Knows all before tables.now
        → AreNameNumbers all numbers.now statement.now.symbols → sound ≡ true → IsSound before statement.now
        → is_read statement.now.kind ≡ true → symbols_of all symbols.new.items ≡ expression before statement.now) }
{
    if !sound {
        symbols.clear();
        return Ok(());
    }
    if statement.label().is_some() {
        put_symbols(tables, numbers, symbols)
    } else if is_disjoint(statement.kind()) {
        put_variables(numbers, symbols)
    } else {
        symbols.clear();
        Ok(())
    }
}

impl Draft {
    ghost use Rattle.mm_frame.specs.Code.KeptBase.{IsDraft, AreParts};

    /// No items, with room for this many.
    pub fn with_room(alloc: Global, count: usize) -> Result<Self, AllocError>
        ensures { IfOk result (λ draft. (all : List (List ℕ)) → AreDistinct all → IsDraft all [] draft) }
    {
        let passed = Passed::with_room(alloc, count)?;
        let assertions = Assertions::with_room(alloc, count)?;
        Ok(Draft {
            passed,
            assertions,
            numbers: Vec::new(alloc),
            symbols: Vec::new(alloc),
        })
    }

    /// Adds one more statement, which has these symbols, and this fault or none. Where they are needed, the numbers of its
    /// symbols are kept.
    fn add(
        &mut self,
        alloc: Global,
        statement: &Statement,
        symbols: &[NumberedSymbol],
        fault: &Option<FrameFault>,
    ) -> Result<(), AllocError>
        ensures { OnOk result ((all : List (List ℕ)) (said : List meant.Said) → IsDraft all said self.old
            → option_map (λ f. (f.word, f.number)) fault.now ≡ meaning.fault (sound_items said) statement.now
            → (uses_numbers statement.now.kind ≡ true → AreNameNumbers all self.old.numbers.items statement.now.symbols)
            → AreSymbolsOf all (sound_items said) statement.now (is_none fault.now) symbols.now
            → IsDraft all (said ++ statement.now ∷ []) self.new) }
    {
        let item = self.passed.next(statement, fault);
        let passed = &self.passed;
        let disjoints = passed.active.disjoints();
        let earlier = passed.earlier();
        self.assertions
            .keep(alloc, &earlier, disjoints, symbols, item)?;
        self.passed
            .add_item(alloc, statement, &self.numbers, symbols, fault)
    }

    /// Adds one more statement, whose symbols have the numbers that are kept.
    pub fn add_numbered(
        &mut self,
        alloc: Global,
        names: &Names,
        statement: &Statement,
    ) -> Result<(), AllocError>
        requires { length self.old.numbers.items ≡ length statement.now.symbols }
        ensures { OnOk result ((all : List (List ℕ)) (said : List meant.Said) → IsDraft names.now said self.old → IsDraft all said self.old
            → AreNameNumbers names.now self.old.numbers.items statement.now.symbols → AreNameNumbers all self.old.numbers.items statement.now.symbols
            → IsDraft all (said ++ statement.now ∷ []) self.new) }
    {
        let fault = fault_of(alloc, names, &self.passed.scope, statement, &self.numbers)?;
        let tables = self.passed.scope.tables();
        let sound = fault.is_none();
        let mut symbols = mem::replace(&mut self.symbols, Vec::new(alloc));
        keep_symbols(tables, statement, &self.numbers, sound, &mut symbols)?;
        self.add(alloc, statement, &symbols, &fault)?;
        self.symbols = symbols;
        Ok(())
    }

    /// Takes one more statement, whose symbols are known, if it is a `$e`, `$a` or `$p` that is sound with them as they are;
    /// else nothing changes, and the answer is `false`.
    pub fn take_known(
        &mut self,
        alloc: Global,
        names: &Names,
        statement: &Statement,
        symbols: &[NumberedSymbol],
    ) -> Result<bool, AllocError>
        requires { length symbols.now ≡ length statement.now.symbols }
        ensures { IfOk result (λ taken. MatchBool taken ((all : List (List ℕ)) (said : List meant.Said) → IsDraft names.now said self.old
            → IsDraft all said self.old → AreNameNumbers names.now (numbers_of symbols.now) statement.now.symbols
            → AreNameNumbers all (numbers_of symbols.now) statement.now.symbols → IsDraft all (said ++ statement.now ∷ []) self.new)
            (self.new ≡ self.old)) }
    {
        if !is_sound_as_known(names, &self.passed.scope, statement, symbols) {
            return Ok(false);
        }
        self.add(alloc, statement, symbols, &None)?;
        Ok(true)
    }

    /// How many items are taken.
    pub fn count(&self) -> usize
        ensures { result ≡ length (rows_of self.now.passed.rows) }
    {
        self.passed.count()
    }

    /// Takes one more statement as an older base has it, in which it is sound and has these symbols; their numbers are kept
    /// where they are needed. All items before it are those of the older base. Out of memory leaves the draft as good for
    /// nothing.
    pub fn add_from_older(
        &mut self,
        alloc: Global,
        statement: &Statement,
        symbols: &[NumberedSymbol],
        old: &Base,
    ) -> Result<(), AllocError>
        ensures { OnOk result ((all : List (List ℕ)) (base : BaseView) (said : List meant.Said) → IsNextOf all old.now base said statement.now
            → is_sound_at base (length said) ≡ true → is_read statement.now.kind ≡ true
            → symbols_of all symbols.now ≡ expression (sound_items said) statement.now → All (IsNumbered all) symbols.now
            → (uses_numbers statement.now.kind ≡ true → AreNameNumbers all self.old.numbers.items statement.now.symbols) → IsDraft all said self.old
            → IsDraft all (said ++ statement.now ∷ []) self.new) }
    {
        let number = self.passed.count();
        let active = ActiveDisjoints {
            numbers: self.passed.active.disjoints(),
            expressions: &self.passed.expressions,
        };
        let from = OlderItem { base: old, number };
        self.assertions.add_from_older(alloc, active, from)?;
        self.passed
            .add_item(alloc, statement, &self.numbers, symbols, &None)
    }

    /// What is kept when all items are read.
    pub fn parts(self) -> BaseParts
        ensures { (all : List (List ℕ)) (said : List meant.Said) → IsDraft all said self → AreParts all said result }
    {
        let Draft {
            passed,
            assertions,
            ..
        } = self;
        let Passed {
            scope,
            rows,
            expressions,
            ..
        } = passed;
        let (tables, blocks) = scope.tables_and_blocks();
        let Assertions {
            frames,
            pair_lists,
            pair_numbers,
            ..
        } = assertions;
        BaseParts {
            tables,
            blocks,
            rows,
            expressions,
            frames: frames.kept,
            pair_lists: pair_lists.finished(),
            pair_numbers,
        }
    }
}
