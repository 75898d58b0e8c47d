//! What the items so far declare: names by their numbers, labels by hash.

ghost use Rattle.std.specs.Prelude.{◌≡◌, ◌<◌, ◌++◌, ◌∷◌, ℕ, IfOk, OnOk, List, [], None, Some, true, length, nat_eq, option_to_list, if◌then◌else◌, slice_index_or};
ghost use Rattle.mm_frame.specs.{Language.Scope.{constants}, Code.{KeptScope.{uses_numbers}, Numbers.{IsNameNumber, AreNameNumbers}}};
ghost use Rattle.mm_machine.specs.Language.Names.{AreDistinct};
ghost use Rattle.mm_statement.specs.Language.Item as meant;
ghost use Rattle.mm_frame.specs.Language.Sound as sound;
ghost use Rattle.mm_frame.specs.Code.LastItems as numbered;

use crate::label_numbers::LabelNumbers;
use crate::names::Names;
use mm_statement::Statement;
use mm_store::ItemKind;
use std::alloc::{AllocError, Global};

/// About one item in this many has a short label.
const LABEL_SHARE: usize = 3;

/// What a name is declared as.
#[derive(Clone, Copy)]
pub enum Declared {
    /// By a `$c`.
    Constant,
    /// By a `$v`, active or not.
    Variable {
        /// The number of the last `$v` that declares it.
        declared: usize,
        /// The number of the last `$f` that types it, active or not.
        float: Option<usize>,
    },
}

/// The names and labels of the items so far. Items are given by their numbers, from 0, and so are names of symbols.
#[derive(Drop)]
pub struct Tables {
    /// What each name is declared as, by its number.
    declared: Vec<Option<Declared>>,
    labels: LabelNumbers,
}

impl Tables {
    ghost use Rattle.mm_frame.specs.Code.KeptTables.{declared_at, is_constant_as, table_label, float_of, Knows, Declares, TypesName, Carries};

    /// No item is taken yet. There is room for the labels of this many items, as often as databases have labels.
    pub fn with_room(alloc: Global, count: usize) -> Result<Self, AllocError>
        ensures { IfOk result (λ tables. (all : List (List ℕ)) → AreDistinct all → Knows all [] tables) }
    {
        let labels = LabelNumbers::with_room(alloc, count / LABEL_SHARE)?;
        Ok(Tables {
            declared: Vec::new(alloc),
            labels,
        })
    }

    /// What the name with this number is declared as, if it is declared.
    pub fn name(&self, number: usize) -> Option<Declared>
        ensures { result ≡ declared_at self.now number }
    {
        match self.declared.get(number) {
            Some(declared) => *declared,
            None => None,
        }
    }

    /// The number of the item that has a label, if one has it.
    pub fn label(&self, label: &[u8]) -> Option<usize>
        ensures { result ≡ table_label self.now label.now }
    {
        self.labels.get(label)
    }

    /// Whether the name with this number is a constant.
    pub fn is_constant(&self, number: usize) -> bool
        ensures value { result ≡ is_constant_as (declared_at self.now number) }
        ensures declared { (all : List (List ℕ)) (before : List meant.Said) (name : List ℕ) → Knows all before self.now → IsNameNumber all number name
            → result ≡ meant.has (constants before) name }
    {
        matches!(self.name(number), Some(Declared::Constant))
    }

    /// Whether the name with this number is a constant or a variable, active or not.
    pub fn is_declared(&self, number: usize) -> bool
        ensures { (all : List (List ℕ)) (before : List meant.Said) (name : List ℕ) → Knows all before self.now → IsNameNumber all number name
            → result ≡ sound.is_declared before name }
    {
        self.name(number).is_some()
    }

    /// Whether these bytes are a constant or a variable, active or not.
    pub fn is_symbol(&self, names: &Names, name: &[u8]) -> bool
        ensures { (before : List meant.Said) → Knows names.now before self.now → result ≡ sound.is_declared before name.now }
    {
        match names.number(name) {
            Some(number) => self.name(number).is_some(),
            None => false,
        }
    }

    /// Whether an item, active or not, has this label.
    pub fn is_label(&self, label: &[u8]) -> bool
        ensures { (all : List (List ℕ)) (before : List meant.Said) → Knows all before self.now → result ≡ sound.is_label before label.now }
    {
        self.label(label).is_some()
    }

    /// The number of the last `$v` that declares the name with this number: none for a constant.
    pub fn variable(&self, number: usize) -> Option<usize>
        ensures { (all : List (List ℕ)) (before : List meant.Said) (name : List ℕ) → sound.AreSound before → Knows all before self.now
            → IsNameNumber all number name → result ≡ numbered.last_where (numbered.declares_variable name) before }
    {
        match self.name(number)? {
            Declared::Variable { declared, .. } => Some(declared),
            Declared::Constant => None,
        }
    }

    /// The number of the last `$f` that types the name with this number: none for what is no variable.
    pub fn float(&self, number: usize) -> Option<usize>
        ensures value { result ≡ float_of (declared_at self.now number) }
        ensures last { (all : List (List ℕ)) (before : List meant.Said) (name : List ℕ) → sound.AreSound before → Knows all before self.now
            → IsNameNumber all number name → result ≡ numbered.last_where (numbered.types name) before }
    {
        match self.name(number)? {
            Declared::Variable { float, .. } => float,
            Declared::Constant => None,
        }
    }

    /// Has a place for the name with this number. Out of memory changes nothing that is declared.
    fn grow(&mut self, number: usize) -> Result<(), AllocError>
        ensures ok { OnOk result (number < length self.new.declared.items) }
        ensures same { (n : ℕ) → declared_at self.new n ≡ declared_at self.old n }
        ensures labels { self.new.labels ≡ self.old.labels }
    {
        while self.declared.len() <= number {
            self.declared.push(None)?;
        }
        Ok(())
    }

    /// Puts what the name with this number is declared as.
    fn put(&mut self, number: usize, declared: Declared) -> Result<(), AllocError>
        ensures put { OnOk result ((n : ℕ) → declared_at self.new n ≡ (if nat_eq n number then Some declared else declared_at self.old n)) }
        ensures labels { self.new.labels ≡ self.old.labels }
    {
        self.grow(number)?;
        self.declared[number] = Some(declared);
        Ok(())
    }

    /// Declares the name with this number, or declares it anew.
    fn declare(&mut self, number: usize, declared: Declared) -> Result<(), AllocError>
        ensures { OnOk result ((all : List (List ℕ)) (name : List ℕ) → AreDistinct all → IsNameNumber all number name
            → Declares all self.old (name ∷ []) (λ _. declared) self.new) }
    {
        self.put(number, declared)
    }

    /// Declares the names with these numbers as constants.
    fn take_constants(&mut self, numbers: &[usize]) -> Result<(), AllocError>
        ensures { OnOk result ((all symbols : List (List ℕ)) → AreDistinct all → AreNameNumbers all numbers.now symbols
            → Declares all self.old symbols (λ _. Declared.Constant) self.new) }
    {
        for n in 0..numbers.len() {
            self.declare(numbers[n], Declared::Constant)?;
        }
        Ok(())
    }

    /// Declares the names with these numbers as variables. One that was a variable before keeps its `$f`.
    fn take_variables(&mut self, numbers: &[usize], number: usize) -> Result<(), AllocError>
        ensures { OnOk result ((all symbols : List (List ℕ)) → AreDistinct all → AreNameNumbers all numbers.now symbols
            → Declares all self.old symbols (λ old. Declared.Variable number (float_of old)) self.new) }
    {
        for n in 0..numbers.len() {
            let variable = Declared::Variable {
                declared: number,
                float: self.float(numbers[n]),
            };
            self.declare(numbers[n], variable)?;
        }
        Ok(())
    }

    /// Types the variable whose name has the number `name` by the `$f` with this number.
    fn type_variable(&mut self, name: usize, number: usize)
        ensures { (all : List (List ℕ)) (variable : List ℕ) → AreDistinct all → IsNameNumber all name variable
            → TypesName all self.old variable number self.new }
    {
        if let Some(Declared::Variable { declared, .. }) = self.name(name) {
            let float = Some(number);
            self.declared[name] = Some(Declared::Variable { declared, float });
        }
    }

    /// Types the variable of a `$f`, which is the second symbol.
    fn take_float(&mut self, numbers: &[usize], number: usize)
        ensures { (all symbols : List (List ℕ)) → AreDistinct all → AreNameNumbers all numbers.now symbols → 1 < length symbols
            → TypesName all self.old (slice_index_or symbols 1 []) number self.new }
    {
        if numbers.len() > 1 {
            self.type_variable(numbers[1], number);
        }
    }

    /// Keeps the label, if there is one.
    fn take_label(
        &mut self,
        alloc: Global,
        statement: &Statement,
        number: usize,
    ) -> Result<(), AllocError>
        ensures { OnOk result ((all : List (List ℕ)) → Carries all self.old (option_to_list statement.now.label) number self.new) }
    {
        if let Some(label) = statement.label() {
            self.labels.insert(alloc, label, number)?;
        }
        Ok(())
    }

    /// Adds one more item, with its number and the numbers of its symbols.
    pub fn add(
        &mut self,
        alloc: Global,
        statement: &Statement,
        numbers: &[usize],
        number: usize,
    ) -> Result<(), AllocError>
        ensures { OnOk result ((all : List (List ℕ)) (before : List meant.Said) → sound.AreSound (before ++ statement.now ∷ []) → length before ≡ number
            → (uses_numbers statement.now.kind ≡ true → AreNameNumbers all numbers.now statement.now.symbols)
            → Knows all before self.old → Knows all (before ++ statement.now ∷ []) self.new) }
    {
        match statement.kind() {
            ItemKind::Constants => self.take_constants(numbers),
            ItemKind::Variables => self.take_variables(numbers, number),
            ItemKind::Floating => {
                self.take_float(numbers, number);
                self.take_label(alloc, statement, number)
            }
            ItemKind::Essential | ItemKind::Axiom | ItemKind::Theorem => {
                self.take_label(alloc, statement, number)
            }
            ItemKind::Disjoint | ItemKind::BlockStart | ItemKind::BlockEnd | ItemKind::Missing =>
                Ok(()),
        }
    }
}
