//! What the sound items so far declare, and which of it is active.

ghost use Rattle.std.specs.Prelude.{◌≡◌, ◌<◌, ℕ, is_none, true, List, [], ◌∷◌, ◌++◌, OnOk, IfOk, IsTrue, length, slice_index_or};
ghost use Rattle.mm_frame.specs.{Language.{Marks.{mark_of}, Sound.{AreSound}}, Code.{BlockMarks.{block_marks}, KeptTables.{Knows}, KeptSymbols.{symbol_by}, Numbers.{AreNameNumbers, IsNameNumber}}};
ghost use Rattle.mm_statement.specs.Language.Statement.{kind_of};
ghost use Rattle.mm_machine.specs.Language.Names.{AreDistinct};
ghost use Rattle.mm_statement.specs.Language.Item as meant;
ghost use Rattle.mm_frame.specs.Language.Scope as scopes;
ghost use Rattle.mm_frame.specs.Language.Sound as sound;
ghost use Rattle.mm_frame.specs.Code.FaultInOrder as judging;
ghost use Rattle.mm_frame.specs.Code.LastItems as numbered;

use crate::blocks::Blocks;
use crate::names::Names;
use crate::tables::{Declared, Tables};
use mm_machine::{NumberedSymbol, narrow};
use mm_statement::Statement;
use mm_store::ItemKind;
use std::alloc::{AllocError, Global};

/// What the sound items so far declare, and which of it is active.
///
/// Items are numbered from 0 in order; an item that is not sound is passed over and keeps its number. To take one
/// costs time near linear in its words, and each question the time of a look-up by hash.
#[derive(Drop)]
pub struct Scope {
    tables: Tables,
    blocks: Blocks,
    /// The number of the typecode of each `$f`, by the number of the item: 0 for any other item.
    typecodes: Vec<u32>,
}

/// The number of the typecode of a `$f` whose symbols have these numbers; 0 for any other item.
fn float_typecode(kind: ItemKind, numbers: &[usize]) -> usize
    ensures { (all : List (List ℕ)) (item : meant.Said) → kind_of kind ≡ item.kind → meant.is_kind meant.Floating item.kind ≡ true
        → 0 < length item.symbols → AreNameNumbers all numbers.now item.symbols → IsNameNumber all result (meant.typecode_of item) }
{
    match kind {
        ItemKind::Floating => numbers.first().copied().unwrap_or(0),
        _ => 0,
    }
}

/// Adds what an item of this kind does to the blocks.
fn mark(blocks: &mut Blocks, kind: ItemKind) -> Result<(), AllocError>
    ensures { OnOk result (blocks.new ≡ blocks.old ++ mark_of (kind_of kind) ∷ []) }
{
    match kind {
        ItemKind::BlockStart => blocks.begin(),
        ItemKind::BlockEnd => blocks.end(),
        _ => blocks.pass(),
    }
}

impl Scope {
    ghost use Rattle.mm_frame.specs.Code.KeptScope.{ScopeHolds, ScopeTakes};

    /// No items, with room for this many.
    pub fn with_room(alloc: Global, count: usize) -> Result<Self, AllocError>
        ensures { IfOk result (λ scope. (all : List (List ℕ)) → AreDistinct all → ScopeHolds all [] scope) }
    {
        let tables = Tables::with_room(alloc, count)?;
        let blocks = Blocks::with_room(alloc, count)?;
        let typecodes = Vec::with_capacity(alloc, count)?;
        Ok(Scope {
            tables,
            blocks,
            typecodes,
        })
    }

    /// Whether a block is open.
    pub fn is_inside(&self) -> bool
        ensures { (all : List (List ℕ)) (before : List meant.Said) → AreSound before → ScopeHolds all before self.now → result ≡ scopes.is_inside before }
    {
        self.blocks.is_inside()
    }

    /// Whether the name with this number is a constant.
    pub fn is_constant(&self, number: usize) -> bool
        ensures { (all : List (List ℕ)) (before : List meant.Said) (name : List ℕ) → AreSound before → ScopeHolds all before self.now
            → IsNameNumber all number name → result ≡ meant.has (scopes.constants before) name }
    {
        self.tables.is_constant(number)
    }

    /// Whether the name with this number is a constant or a variable, active or not.
    pub fn is_declared(&self, number: usize) -> bool
        ensures { (all : List (List ℕ)) (before : List meant.Said) (name : List ℕ) → AreSound before → ScopeHolds all before self.now
            → IsNameNumber all number name → result ≡ sound.is_declared before name }
    {
        self.tables.is_declared(number)
    }

    /// Whether an item, active or not, has this label.
    pub fn is_label(&self, label: &[u8]) -> bool
        ensures { (all : List (List ℕ)) (before : List meant.Said) → AreSound before → ScopeHolds all before self.now
            → result ≡ sound.is_label before label.now }
    {
        self.tables.is_label(label)
    }

    /// Whether the name with this number is an active variable.
    pub fn is_active_variable(&self, number: usize) -> bool
        ensures { (all : List (List ℕ)) (before : List meant.Said) (name : List ℕ) → AreSound before → ScopeHolds all before self.now
            → IsNameNumber all number name → result ≡ meant.has (scopes.active_variables before) name }
    {
        match self.tables.variable(number) {
            Some(declared) => self.blocks.is_active_now(declared),
            None => false,
        }
    }

    /// Whether the name with this number is a constant or an active variable.
    pub fn is_active_symbol(&self, number: usize) -> bool
        ensures { (all : List (List ℕ)) (before : List meant.Said) (name : List ℕ) → AreSound before → ScopeHolds all before self.now
            → IsNameNumber all number name → result ≡ sound.is_active_symbol before name }
    {
        self.is_constant(number) || self.is_active_variable(number)
    }

    /// Whether the item with this number is active; none is not.
    fn is_active_number(&self, number: Option<usize>) -> bool
        ensures { (all : List (List ℕ)) (before : List meant.Said) → ScopeHolds all before self.now → result ≡ numbered.is_active_last before number }
    {
        match number {
            Some(number) => self.blocks.is_active_now(number),
            None => false,
        }
    }

    /// Whether the name with this number may come after a typecode: it is a constant, or a variable that is active and
    /// typed.
    pub fn may_follow(&self, number: usize) -> bool
        ensures { (all : List (List ℕ)) (before : List meant.Said) (name : List ℕ) → AreSound before → ScopeHolds all before self.now
            → IsNameNumber all number name → result ≡ is_none (judging.later_fault before name) }
    {
        // A variable with an active `$f` is active, so its `$v` is not looked at.
        match self.tables.name(number) {
            Some(Declared::Constant) => true,
            Some(Declared::Variable { float, .. }) => self.is_active_number(float),
            None => false,
        }
    }

    /// Whether this symbol may come after a typecode, and is a constant or a variable as its name is.
    pub fn may_follow_as(&self, symbol: NumberedSymbol) -> bool
        ensures follows { IsTrue result → (all : List (List ℕ)) (before : List meant.Said) (name : List ℕ) → AreSound before
            → ScopeHolds all before self.now → IsNameNumber all symbol.name name → is_none (judging.later_fault before name) ≡ true }
        ensures sort { IsTrue result → symbol ≡ symbol_by self.now.tables symbol.name }
    {
        match self.tables.name(symbol.name) {
            Some(Declared::Constant) => !symbol.variable,
            Some(Declared::Variable { float, .. }) => {
                symbol.variable && self.is_active_number(float)
            }
            None => false,
        }
    }

    /// The number of the last `$f` of the variable whose name has this number, active or not.
    pub fn float(&self, number: usize) -> Option<usize>
        ensures { (all : List (List ℕ)) (before : List meant.Said) (name : List ℕ) → AreSound before → ScopeHolds all before self.now
            → IsNameNumber all number name → result ≡ numbered.last_where (numbered.types name) before }
    {
        self.tables.float(number)
    }

    /// Whether an active `$f` types the name with this number.
    pub fn is_typed(&self, number: usize) -> bool
        ensures { (all : List (List ℕ)) (before : List meant.Said) (name : List ℕ) → AreSound before → ScopeHolds all before self.now
            → IsNameNumber all number name → result ≡ sound.is_typed before name }
    {
        match self.float(number) {
            Some(float) => self.blocks.is_active_now(float),
            None => false,
        }
    }

    /// The number of the typecode of the `$f` with this number; 0 if there is no such item.
    fn typecode(&self, number: usize) -> usize
        ensures { result ≡ slice_index_or self.now.typecodes.items number 0 }
    {
        match self.typecodes.get(number) {
            Some(typecode) => *typecode as usize,
            None => 0,
        }
    }

    /// Whether a `$f`, active or not, gives the name with this number another typecode than the one with that number.
    pub fn is_typed_otherwise(&self, number: usize, typecode: usize) -> bool
        ensures { (all : List (List ℕ)) (before : List meant.Said) (item : meant.Said) (name : List ℕ) → AreSound before → ScopeHolds all before self.now
            → IsNameNumber all typecode (meant.typecode_of item) → IsNameNumber all number name → result ≡ sound.is_typed_otherwise before item name }
    {
        match self.float(number) {
            Some(float) => self.typecode(float) != typecode,
            None => false,
        }
    }

    /// Whether these bytes are a constant or a variable, active or not.
    pub fn is_symbol(&self, names: &Names, name: &[u8]) -> bool
        ensures { (before : List meant.Said) → AreSound before → ScopeHolds names.now before self.now → result ≡ sound.is_declared before name.now }
    {
        self.tables.is_symbol(names, name)
    }

    /// Adds a sound item, with the numbers of its symbols.
    fn add(
        &mut self,
        alloc: Global,
        statement: &Statement,
        numbers: &[usize],
    ) -> Result<(), AllocError>
        ensures { OnOk result (ScopeTakes numbers.now self.old statement.now true self.new) }
    {
        self.tables
            .add(alloc, statement, numbers, self.typecodes.len())?;
        mark(&mut self.blocks, statement.kind())?;
        let typecode = narrow(float_typecode(statement.kind(), numbers))?;
        self.typecodes.push(typecode)?;
        Ok(())
    }

    /// Takes one more item, with the numbers of its symbols: as it is if it is sound, and else passes over it.
    pub fn next(
        &mut self,
        alloc: Global,
        statement: &Statement,
        numbers: &[usize],
        sound: bool,
    ) -> Result<(), AllocError>
        ensures { OnOk result (ScopeTakes numbers.now self.old statement.now sound self.new) }
    {
        if sound {
            return self.add(alloc, statement, numbers);
        }
        self.blocks.pass()?;
        self.typecodes.push(0)?;
        Ok(())
    }

    /// What the sound items declare.
    pub fn tables(&self) -> &Tables
        ensures { result.now ≡ self.now.tables }
    {
        &self.tables
    }

    /// The blocks of the sound items.
    pub fn blocks(&self) -> &Blocks
        ensures { result.now ≡ self.now.blocks }
    {
        &self.blocks
    }

    /// What the sound items declare, and their blocks.
    pub fn tables_and_blocks(self) -> (Tables, Blocks)
        ensures { (all : List (List ℕ)) (before : List meant.Said) → ScopeHolds all before self
            → Knows all before result.0 × (result.1 ≡ block_marks before) }
    {
        (self.tables, self.blocks)
    }
}
