//! The variables of a frame that an active `$d` has together with one of them, from the `$d` of that one.

ghost use Rattle.std.specs.Prelude.{◌≡◌, ◌++◌, ◌<◌, ◌+◌, ◌↔◌, ℕ, List, All, IfOk, IfSome, OnOk, Contains, filter, flat_map, map, drop, length, slice_get};
ghost use Rattle.mm_machine.specs.Language.{Frame.{Symbol as Meaning}, NumberedSymbols.{symbol_of, symbols_of, IsNumbered, ArePairsRead}};
ghost use Rattle.mm_frame.specs.{Language.{Answering.{are_paired}, Framing.{active_pairs}}, Code.{KeptPlaces.{ArePlaces, later_place, later_places_at, pair_at}, KeptEarlier.{KnowsEarlier}}};
ghost use Rattle.mm_frame.specs.Code.LastItems.{IsRising};
ghost use Rattle.mm_statement.specs.Language.Item as meant;

use crate::blocks::Blocks;
use crate::disjoint_rows::DisjointRows;
use crate::earlier::Earlier;
use crate::expressions::Expressions;
use crate::places::Places;
use mm_machine::NumberedSymbol;
use std::alloc::{AllocError, Global};

/// Up to this many variables, each two are looked up.
const FEW: usize = 16;

/// The variables of a frame, and the place of each among them if that is kept.
#[derive(Drop)]
pub struct PlacedVariables<'a> {
    /// The variables, in order.
    pub variables: &'a [NumberedSymbol],
    /// The place of each.
    pub places: Option<Places>,
}

/// The places of the variables of a frame, if they are worth it: more than a few of them are in some `$d`.
pub fn places_if_many(
    alloc: Global,
    table: &DisjointRows,
    variables: &[NumberedSymbol],
) -> Result<Option<Places>, AllocError>
    ensures { IfOk result (λ places. IfSome places (ArePlaces variables.now)) }
{
    let mut count = 0;
    for variable in variables {
        if table.has(variable.name) {
            count += 1;
        }
    }
    if count > FEW {
        Places::of(alloc, variables)
    } else {
        Ok(None)
    }
}

/// Whether these `$d` have fewer variables than this, each counted in each.
pub fn fewer_variables_than(expressions: &Expressions, row: &[usize], bound: usize) -> bool {
    let mut left = bound;
    for number in row {
        let count = expressions.at(*number).len();
        if count >= left {
            return false;
        }
        left -= count;
    }
    true
}

/// Adds the place of a symbol if it is after this one.
fn add_later_place(
    places: &Places,
    from: usize,
    symbol: &NumberedSymbol,
    found: &mut Vec<usize>,
) -> Result<(), AllocError>
    ensures { OnOk result (found.new.items ≡ found.old.items ++ later_place places.now from symbol.now) }
{
    if let Some(place) = places.place(symbol.name) {
        if from < place {
            found.push(place)?;
        }
    }
    Ok(())
}

/// Adds the places of those of some symbols that are after this one.
fn add_later_places(
    places: &Places,
    from: usize,
    symbols: &[NumberedSymbol],
    found: &mut Vec<usize>,
) -> Result<(), AllocError>
    ensures { OnOk result (found.new.items ≡ found.old.items ++ flat_map (later_place places.now from) symbols.now) }
{
    for symbol in symbols {
        add_later_place(places, from, symbol, found)?;
    }
    Ok(())
}

/// Adds the places after this one of the variables of the `$d` with this number, if it is active.
fn add_later_places_at(
    places: &Places,
    blocks: &Blocks,
    expressions: &Expressions,
    from: usize,
    number: usize,
    found: &mut Vec<usize>,
) -> Result<(), AllocError>
    ensures { OnOk result (found.new.items ≡ found.old.items ++ later_places_at places.now blocks.now expressions.now from number) }
{
    if blocks.is_active_now(number) {
        add_later_places(places, from, expressions.at(number), found)?;
    }
    Ok(())
}

/// The places after this one of the variables that an active one of these `$d` has, rising.
fn later_places(
    alloc: Global,
    places: &Places,
    blocks: &Blocks,
    expressions: &Expressions,
    from: usize,
    row: &[usize],
) -> Result<Vec<usize>, AllocError>
    ensures rising { IfOk result (λ found. IsRising found.items) }
    ensures same { IfOk result (λ found. (k : ℕ) → Contains found.items k
        ↔ Contains (flat_map (later_places_at places.now blocks.now expressions.now from) row.now) k) }
{
    let mut found = Vec::new(alloc);
    for number in row {
        add_later_places_at(places, blocks, expressions, from, *number, &mut found)?;
    }
    found.sort()?;
    found.dedup();
    Ok(found)
}

/// Adds the pair of a variable with the one at a place.
fn add_partner_at(
    first: NumberedSymbol,
    variables: &[NumberedSymbol],
    place: usize,
    pairs: &mut Vec<(NumberedSymbol, NumberedSymbol)>,
) -> Result<(), AllocError>
    ensures { OnOk result (pairs.new.items ≡ pairs.old.items ++ pair_at first variables.now place) }
{
    if let Some(second) = variables.get(place) {
        pairs.push((first, *second))?;
    }
    Ok(())
}

/// Adds the pairs of a variable with the variables at these places.
fn add_partners_at(
    first: NumberedSymbol,
    variables: &[NumberedSymbol],
    places: &[usize],
    pairs: &mut Vec<(NumberedSymbol, NumberedSymbol)>,
) -> Result<(), AllocError>
    ensures { OnOk result (pairs.new.items ≡ pairs.old.items ++ flat_map (pair_at first variables.now) places.now) }
{
    for place in places {
        add_partner_at(first, variables, *place, pairs)?;
    }
    Ok(())
}

/// Adds the pairs of the variable at a place with the later ones that an active `$d` has, from its `$d`.
pub fn add_partners(
    alloc: Global,
    earlier: &Earlier,
    places: &Places,
    variables: &[NumberedSymbol],
    n: usize,
    pairs: &mut Vec<(NumberedSymbol, NumberedSymbol)>,
) -> Result<(), AllocError>
    requires { n < length variables.now }
    ensures { OnOk result ((all : List (List ℕ)) (before : List meant.Said) (said : List (Meaning × Meaning)) (first : NumberedSymbol)
        → KnowsEarlier all before earlier.now → ArePlaces variables.now places.now → All (IsNumbered all) variables.now
        → ArePairsRead all said pairs.old.items → slice_get variables.now n ≡ Some first
        → ArePairsRead all (said ++ filter (are_paired (active_pairs before))
        (map (λ y. (symbol_of all first, y)) (symbols_of all (drop (n + 1) variables.now)))) pairs.new.items) }
{
    let first = variables[n];
    let row = earlier.pairs.row(first.name);
    let found = later_places(alloc, places, earlier.blocks, earlier.expressions, n, row)?;
    add_partners_at(first, variables, &found, pairs)
}
