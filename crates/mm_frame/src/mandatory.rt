//! The mandatory hypotheses and pairs of an assertion.

ghost use Rattle.std.specs.{Prelude.{◌≡◌, ◌++◌, ◌∷◌, ◌<◌, ℕ, List, [], All, IsTrue, OnOk, IfOk, IfSome, ◌+◌, Some, length, map, filter, drop, slice_get}, List.{flat_map}};
ghost use Rattle.mm_machine.specs.Language.{Frame.{Symbol as Meaning}, NumberedSymbols.{symbol_of, symbols_of, IsNumbered, ArePairsRead}};
ghost use Rattle.mm_frame.specs.{Language.{Framing.{pairs_of, active_pairs, frame, mandatory_numbers}, Answering.{are_paired, pairs_in_order}}, Code.KeptEarlier.{IsFramed, KnowsEarlier}};
ghost use Rattle.mm_frame.specs.Code.{LastItems.{IsRising}, KeptSymbols.{float_number, float_numbers}, KeptVariables.{known_float}, PairOrder.{float_variable, float_variables}};
ghost use Rattle.mm_frame.specs.Code.{KeptDisjointRows.{ReadsPairs}, KeptPlaces.{ArePlaces}, KeptAnswers.{KnowsAnswers, KeepsAnswers}};
ghost use Rattle.mm_statement.specs.Language.Item as meant;
ghost use Rattle.mm_frame.specs.Code.PairOrder as paired;

use crate::blocks::Blocks;
use crate::disjoint_rows::DisjointRows;
use crate::earlier::Earlier;
use crate::essential::EssentialVariable;
use crate::expressions::Expressions;
use crate::pair_answers::PairAnswers;
use crate::partners::{PlacedVariables, add_partners, fewer_variables_than, places_if_many};
use crate::rising::is_among;
use crate::tables::Tables;
use mm_machine::NumberedSymbol;
use std::alloc::{AllocError, Global};

/// What frames are made with, one after another: the lists are used again, and take memory only when they grow.
#[derive(Drop)]
pub struct FrameRoom {
    /// Which pairs were looked up, so that none is searched for twice.
    pub answers: PairAnswers,
    /// The numbers of the hypotheses of the last frame.
    pub numbers: Vec<usize>,
    /// The variables of its `$f`.
    pub variables: Vec<NumberedSymbol>,
    /// Its pairs.
    pub pairs: Vec<(NumberedSymbol, NumberedSymbol)>,
}

impl FrameRoom {
    /// No frame is made yet. It takes no memory.
    pub fn new(alloc: Global) -> FrameRoom
        ensures { (all : List (List ℕ)) → KnowsAnswers all [] result.answers }
    {
        FrameRoom {
            answers: PairAnswers::new(alloc),
            numbers: Vec::new(alloc),
            variables: Vec::new(alloc),
            pairs: Vec::new(alloc),
        }
    }
}

/// Adds the number of the `$f` of a symbol that is a variable.
fn add_float(
    tables: &Tables,
    symbol: &NumberedSymbol,
    numbers: &mut Vec<usize>,
) -> Result<(), AllocError>
    ensures { OnOk result (numbers.new.items ≡ numbers.old.items ++ float_number tables.now symbol.now) }
{
    if symbol.variable {
        if let Some(number) = tables.float(symbol.name) {
            numbers.push(number)?;
        }
    }
    Ok(())
}

/// Adds those of the variables among some symbols, in order.
fn add_floats(
    tables: &Tables,
    symbols: &[NumberedSymbol],
    numbers: &mut Vec<usize>,
) -> Result<(), AllocError>
    ensures { OnOk result (numbers.new.items ≡ numbers.old.items ++ float_numbers tables.now symbols.now) }
{
    for symbol in symbols {
        add_float(tables, symbol, numbers)?;
    }
    Ok(())
}

/// Adds that of a variable which one of these active `$e` keeps.
fn add_known_float(
    tables: &Tables,
    essentials: &[usize],
    variable: EssentialVariable,
    numbers: &mut Vec<usize>,
) -> Result<(), AllocError>
    ensures { OnOk result (IsRising essentials.now → numbers.new.items ≡ numbers.old.items ++ known_float tables.now essentials.now variable) }
{
    if is_among(essentials, variable.number) {
        add_float(tables, &variable.symbol, numbers)?;
    }
    Ok(())
}

/// Adds those of the variables of these active `$e`.
fn add_known_floats(
    tables: &Tables,
    essentials: &[usize],
    variables: &[EssentialVariable],
    numbers: &mut Vec<usize>,
) -> Result<(), AllocError>
    ensures { OnOk result (IsRising essentials.now
        → numbers.new.items ≡ numbers.old.items ++ flat_map (known_float tables.now essentials.now) variables.now) }
{
    for variable in variables {
        add_known_float(tables, essentials, *variable, numbers)?;
    }
    Ok(())
}

/// Puts the numbers of the mandatory hypotheses of a sound assertion with these symbols, rising: of the active `$e`, and of
/// the `$f` of the variables of these and of the assertion.
pub fn put_hypotheses(
    earlier: &Earlier,
    own: &[NumberedSymbol],
    numbers: &mut Vec<usize>,
) -> Result<(), AllocError>
    ensures { OnOk result ((all : List (List ℕ)) (before : List meant.Said) (item : meant.Said) → KnowsEarlier all before earlier.now
        → IsFramed all before item own.now → numbers.new.items ≡ mandatory_numbers before item) }
{
    let (tables, essentials) = (earlier.tables, earlier.essentials);
    numbers.clear();
    add_floats(tables, own, numbers)?;
    add_known_floats(tables, essentials, earlier.variables, numbers)?;
    // The active `$e` rise, and most often come after all `$f`.
    numbers.extend_from_slice(essentials)?;
    numbers.dedup();
    numbers.sort_unstable();
    numbers.dedup();
    Ok(())
}

/// Whether a number is at a place.
fn stands_at(numbers: &[usize], place: usize, number: usize) -> bool
    ensures at { IsTrue result → slice_get numbers.now place ≡ Some number }
    ensures within { IsTrue result → place < length numbers.now }
{
    place < numbers.len() && numbers[place] == number
}

/// Adds the variable of a mandatory hypothesis that is a `$f`: its number is none of those of the active `$e`. These rise
/// as the hypotheses do, and each is one of them; so a number is looked for only if it is not that of the next `$e`.
fn add_variable(
    essentials: &[usize],
    expressions: &Expressions,
    number: usize,
    next: &mut usize,
    variables: &mut Vec<NumberedSymbol>,
) -> Result<(), AllocError>
    ensures { OnOk result (IsRising essentials.now
        → variables.new.items ≡ variables.old.items ++ float_variable essentials.now expressions.now number) }
{
    if stands_at(essentials, *next, number) {
        *next += 1;
        return Ok(());
    }
    if is_among(essentials, number) {
        return Ok(());
    }
    if let Some(variable) = expressions.at(number).get(1) {
        variables.push(*variable)?;
    }
    Ok(())
}

/// Puts the variables of the mandatory `$f`, in order.
fn put_typed(
    essentials: &[usize],
    expressions: &Expressions,
    hypotheses: &[usize],
    variables: &mut Vec<NumberedSymbol>,
) -> Result<(), AllocError>
    ensures { OnOk result (IsRising essentials.now → variables.new.items ≡ float_variables essentials.now expressions.now hypotheses.now) }
{
    variables.clear();
    let mut next = 0;
    for number in hypotheses {
        add_variable(essentials, expressions, *number, &mut next, variables)?;
    }
    Ok(())
}

/// Adds a pair if an active `$d` has it.
fn add_if_active(
    table: &DisjointRows,
    answers: &mut PairAnswers,
    blocks: &Blocks,
    first: NumberedSymbol,
    second: NumberedSymbol,
    pairs: &mut Vec<(NumberedSymbol, NumberedSymbol)>,
) -> Result<(), AllocError>
    ensures pairs { OnOk result ((all : List (List ℕ)) (before : List meant.Said) (said : List (Meaning × Meaning)) → ReadsPairs all before table.now blocks.now
        → KnowsAnswers all before answers.old → IsNumbered all first → IsNumbered all second → ArePairsRead all said pairs.old.items
        → ArePairsRead all (said ++ filter (are_paired (active_pairs before)) ((symbol_of all first, symbol_of all second) ∷ [])) pairs.new.items) }
    ensures answers { OnOk result (KeepsAnswers table.now blocks.now answers.old answers.new) }
{
    let active = table.is_active_pair(answers, blocks, first.name, second.name)?;
    if active {
        pairs.push((first, second))?;
    }
    Ok(())
}

/// Adds those of one variable with each of some others.
fn add_active_with(
    table: &DisjointRows,
    answers: &mut PairAnswers,
    blocks: &Blocks,
    first: NumberedSymbol,
    later: &[NumberedSymbol],
    pairs: &mut Vec<(NumberedSymbol, NumberedSymbol)>,
) -> Result<(), AllocError>
    ensures pairs { OnOk result ((all : List (List ℕ)) (before : List meant.Said) (said : List (Meaning × Meaning)) → ReadsPairs all before table.now blocks.now
        → KnowsAnswers all before answers.old → IsNumbered all first → All (IsNumbered all) later.now → ArePairsRead all said pairs.old.items
        → ArePairsRead all (said ++ filter (are_paired (active_pairs before)) (map (λ y. (symbol_of all first, y)) (symbols_of all later.now)))
        pairs.new.items) }
    ensures answers { OnOk result (KeepsAnswers table.now blocks.now answers.old answers.new) }
{
    if !table.has(first.name) {
        return Ok(());
    }
    for second in later {
        add_if_active(table, answers, blocks, first, *second, pairs)?;
    }
    Ok(())
}

/// Adds the pairs of the variable at a place with each later one that an active `$d` has: from its `$d`, if these are
/// short; else each later one is looked up.
fn add_pairs_with_later(
    alloc: Global,
    earlier: &Earlier,
    answers: &mut PairAnswers,
    placed: &PlacedVariables,
    n: usize,
    pairs: &mut Vec<(NumberedSymbol, NumberedSymbol)>,
) -> Result<(), AllocError>
    requires { n < length placed.now.variables.now }
    ensures pairs { OnOk result ((all : List (List ℕ)) (before : List meant.Said) (said : List (Meaning × Meaning)) (first : NumberedSymbol)
        → KnowsEarlier all before earlier.now → KnowsAnswers all before answers.old → IfSome placed.now.places (ArePlaces placed.now.variables.now)
        → All (IsNumbered all) placed.now.variables.now → ArePairsRead all said pairs.old.items → slice_get placed.now.variables.now n ≡ Some first
        → ArePairsRead all (said ++ filter (are_paired (active_pairs before))
        (map (λ y. (symbol_of all first, y)) (symbols_of all (drop (n + 1) placed.now.variables.now)))) pairs.new.items) }
    ensures answers { OnOk result ((all : List (List ℕ)) (before : List meant.Said) → KnowsEarlier all before earlier.now → KnowsAnswers all before answers.old
        → KnowsAnswers all before answers.new) }
{
    let (table, variables) = (earlier.pairs, placed.variables);
    let first = variables[n];
    let later = &variables[n + 1..];
    if let Some(places) = &placed.places {
        if fewer_variables_than(earlier.expressions, table.row(first.name), later.len()) {
            return add_partners(alloc, earlier, places, variables, n, pairs);
        }
    }
    add_active_with(table, answers, earlier.blocks, first, later, pairs)
}

/// The pairs of each variable with each later one that an active `$d` has. They are collected in `pairs`, and the answer is a
/// copy.
fn active_pairs_among(
    alloc: Global,
    earlier: &Earlier,
    answers: &mut PairAnswers,
    variables: &[NumberedSymbol],
    pairs: &mut Vec<(NumberedSymbol, NumberedSymbol)>,
) -> Result<Vec<(NumberedSymbol, NumberedSymbol)>, AllocError>
    ensures pairs { IfOk result (λ pairs. (all : List (List ℕ)) (before : List meant.Said) → KnowsEarlier all before earlier.now
        → KnowsAnswers all before answers.old → All (IsNumbered all) variables.now
        → ArePairsRead all (filter (are_paired (active_pairs before)) (pairs_of (symbols_of all variables.now))) pairs.items) }
    ensures answers { OnOk result ((all : List (List ℕ)) (before : List meant.Said) → KnowsEarlier all before earlier.now → KnowsAnswers all before answers.old
        → KnowsAnswers all before answers.new) }
{
    let places = places_if_many(alloc, earlier.pairs, variables)?;
    let placed = PlacedVariables { variables, places };
    pairs.clear();
    for n in 0..variables.len() {
        add_pairs_with_later(alloc, earlier, answers, &placed, n, pairs)?;
    }
    Vec::from_slice(alloc, pairs)
}

/// The pairs of a sound assertion whose mandatory hypotheses have the numbers that are put: of the variables of its mandatory
/// `$f`, in their order, those that an active `$d` has.
pub fn mandatory_pairs(
    alloc: Global,
    earlier: &Earlier,
    room: &mut FrameRoom,
) -> Result<Vec<(NumberedSymbol, NumberedSymbol)>, AllocError>
    ensures answers { OnOk result ((all : List (List ℕ)) (before : List meant.Said) → KnowsEarlier all before earlier.now
        → KnowsAnswers all before room.old.answers → KnowsAnswers all before room.new.answers) }
    ensures pairs { IfOk result (λ pairs. (all : List (List ℕ)) (before : List meant.Said) (item : meant.Said) → KnowsEarlier all before earlier.now
        → KnowsAnswers all before room.old.answers → room.old.numbers.items ≡ mandatory_numbers before item
        → ArePairsRead all (pairs_in_order (frame before item)) pairs.items) }
{
    let FrameRoom {
        answers,
        numbers,
        variables,
        pairs,
    } = room;
    put_typed(earlier.essentials, earlier.expressions, numbers, variables)?;
    active_pairs_among(alloc, earlier, answers, variables, pairs)
}
