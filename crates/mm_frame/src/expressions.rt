//! The symbols of the items, equal ones kept once.

ghost use Rattle.std.specs.Prelude.{◌≡◌, [], ◌∷◌, ◌++◌, IfOk, OnOk};

use crate::guesses::ListGuesses;
use crate::item_lists::ItemLists;
use crate::symbol::same_symbols;
use mm_machine::NumberedSymbol;
use std::alloc::{AllocError, Global};

/// For how many symbols of each item there is room at the beginning: about as many as databases have.
const FEW_SYMBOLS: usize = 8;

/// There is room for more lists: for a multiple of 4,096, less one. So the room of a base that was dropped fits one with a few
/// more items, which memory of this size would otherwise be taken anew for.
const ROUND: usize = 4095;

/// The symbols of items, by the numbers of the items from 0. Most often equal ones are kept once.
pub type Expressions = ItemLists<NumberedSymbol>;

/// No items, with room for this many, each with a few symbols.
pub fn room_for_expressions(alloc: Global, count: usize) -> Result<Expressions, AllocError>
    ensures { IfOk result (λ expressions. expressions ≡ []) }
{
    let symbols = (count | ROUND).saturating_mul(FEW_SYMBOLS);
    ItemLists::with_room(alloc, count, symbols)
}

/// Adds the symbols of one more item, for which there may be a guess of an earlier one that has the same. It takes time linear
/// in them on the average.
pub fn add_expression(
    expressions: &mut Expressions,
    guesses: &mut ListGuesses,
    symbols: &[NumberedSymbol],
) -> Result<(), AllocError>
    ensures { OnOk result (expressions.new ≡ expressions.old ++ symbols.now ∷ []) }
{
    let place = guesses.place_of(symbols);
    let guess = guesses.guess(place);
    if same_symbols(expressions.at(guess), symbols) {
        return expressions.share(guess);
    }
    guesses.keep(place, expressions.count());
    expressions.add(symbols)
}
