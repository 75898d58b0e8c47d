//! Symbols of expressions.

ghost use Rattle.std.specs.Prelude.{◌≡◌, ◌↔◌, ◌/◌, ◌^◌, ◌<◌, ◌≤◌, IsTrue, IfOk, OnErr, Ok};
ghost use Rattle.mm_machine.specs.Language.{NumberedSymbols.{by_code, by_number, named_symbol}, Frame.{Symbol as Meaning}};

use crate::four_bytes::narrow;
use std::alloc::{AllocError, Global};

/// A symbol by the number of its name among some names, as a constant or as a variable.
#[derive(Clone, Copy, Debug, PartialEq, Eq, PartialOrd, Ord)]
pub struct NumberedSymbol {
    /// The number of its name.
    pub name: usize,
    /// It is a variable, and else a constant.
    pub variable: bool,
}

/// A name, as a constant or as a variable.
#[derive(Drop)]
pub struct NamedSymbol {
    /// How it is spelled.
    pub name: Vec<u8>,
    /// It is a variable, and else a constant.
    pub variable: bool,
}

/// A symbol by number in four bytes, for lists that are copied and compared often.
#[derive(Clone, Copy, Debug, PartialEq, Eq)]
pub struct CodedSymbol {
    /// Twice the number of its name, and one more for a variable.
    pub(crate) code: u32,
}

impl CodedSymbol {
    /// The symbol by this number. It fails if its code does not fit into four bytes.
    #[inline(always)]
    pub fn of(symbol: &NumberedSymbol) -> Result<CodedSymbol, AllocError>
        ensures same { IfOk result (λ coded. by_code coded ≡ by_number symbol.now) }
        ensures err { OnErr result (2 ^ 31 ≤ symbol.now.name) }
    {
        let number = narrow(symbol.name)? as usize;
        Ok(CodedSymbol {
            code: narrow(number * 2 + symbol.variable as usize)?,
        })
    }

    /// The number of its name.
    #[inline(always)]
    pub fn name(&self) -> usize
        ensures { result ≡ self.now.code / 2 }
    {
        (self.code / 2) as usize
    }
}

/// A symbol of expressions, by its name or by a number.
pub trait Symbol: Drop {
    /// The name, and whether it is a variable.
    ghost means: { Self → Meaning };

    /// Whether the two are the same symbol.
    fn same(&self, other: &Self) -> bool
        ensures { IsTrue result ↔ (means self.now ≡ means other.now) };

    /// Whether it is a variable.
    fn is_variable(&self) -> bool
        ensures { result ≡ (means self.now).variable };

    /// The same symbol once more. It fails if there is no memory for a name; a symbol by a number takes none.
    fn copy(&self, alloc: Global) -> Result<Self, AllocError>
        ensures { IfOk result (λ copy. means copy ≡ means self.now) };
}

impl Symbol for NamedSymbol {
    ghost means = { named_symbol };

    fn same(&self, other: &Self) -> bool {
        self.variable == other.variable && self.name == other.name
    }

    fn is_variable(&self) -> bool {
        self.variable
    }

    fn copy(&self, alloc: Global) -> Result<Self, AllocError> {
        let name = Vec::from_slice(alloc, &self.name)?;
        Ok(NamedSymbol {
            name,
            variable: self.variable,
        })
    }
}

impl Symbol for NumberedSymbol {
    ghost means = { by_number };

    fn same(&self, other: &Self) -> bool {
        self.name == other.name && self.variable == other.variable
    }

    fn is_variable(&self) -> bool {
        self.variable
    }

    /// The symbol itself: it takes no memory.
    fn copy(&self, _alloc: Global) -> Result<Self, AllocError>
        ensures itself { result ≡ Ok self.now }
        ensures means { IfOk result (λ copy. by_number copy ≡ by_number self.now) }
    {
        Ok(*self)
    }
}

impl Symbol for CodedSymbol {
    ghost means = { by_code };

    #[inline(always)]
    fn same(&self, other: &Self) -> bool {
        self.code == other.code
    }

    #[inline(always)]
    fn is_variable(&self) -> bool {
        self.code % 2 == 1
    }

    /// The symbol itself: it takes no memory.
    fn copy(&self, _memory: Global) -> Result<Self, AllocError>
        ensures { IfOk result (λ copy. by_code copy ≡ by_code self.now) }
    {
        Ok(CodedSymbol { code: self.code })
    }
}
