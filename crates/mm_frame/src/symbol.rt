//! Symbols by the numbers of their names.

ghost use Rattle.std.specs.Prelude.{◌≡◌, ◌↔◌, IsTrue, OnOk, map};
ghost use Rattle.mm_frame.specs.Code.KeptSymbols.{symbol_by, variable_by};

use crate::tables::Tables;
use mm_machine::NumberedSymbol;
use std::alloc::AllocError;

/// The symbol whose name has this number: what is no declared constant is a variable.
fn symbol_numbered(tables: &Tables, number: usize) -> NumberedSymbol
    ensures { result ≡ symbol_by tables.now number }
{
    NumberedSymbol {
        name: number,
        variable: !tables.is_constant(number),
    }
}

/// Whether two lists of symbols are the same, one by one.
pub fn same_symbols(one: &[NumberedSymbol], other: &[NumberedSymbol]) -> bool
    ensures { IsTrue result ↔ (one.now ≡ other.now) }
{
    one == other
}

/// Whether two lists of pairs are the same, one by one.
pub fn same_pairs(
    one: &[(NumberedSymbol, NumberedSymbol)],
    other: &[(NumberedSymbol, NumberedSymbol)],
) -> bool
    ensures { IsTrue result ↔ (one.now ≡ other.now) }
{
    one == other
}

/// Puts the symbols whose names have these numbers: what is no declared constant is a variable.
pub fn put_symbols(
    tables: &Tables,
    numbers: &[usize],
    symbols: &mut Vec<NumberedSymbol>,
) -> Result<(), AllocError>
    ensures { OnOk result (symbols.new.items ≡ map (symbol_by tables.now) numbers.now) }
{
    symbols.clear();
    for number in numbers {
        symbols.push(symbol_numbered(tables, *number))?;
    }
    Ok(())
}

/// Puts the variables whose names have these numbers.
pub fn put_variables(
    numbers: &[usize],
    variables: &mut Vec<NumberedSymbol>,
) -> Result<(), AllocError>
    ensures { OnOk result (variables.new.items ≡ map variable_by numbers.now) }
{
    variables.clear();
    for number in numbers {
        variables.push(NumberedSymbol {
            name: *number,
            variable: true,
        })?;
    }
    Ok(())
}
