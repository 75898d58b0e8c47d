//! Which pairs of variables the active `$d` have.

ghost use Rattle.std.specs.Prelude.{◌≡◌, ◌<◌, ◌≤◌, ℕ, suc, true, false, List, [], Some, MatchBool, IfOk, IfSome, IfNone, OnOk, Contains, length, drop};
ghost use Rattle.mm_frame.specs.{Language.{Framing.{active_pairs}, Answering.{are_paired}}, Code.{LastItems.{IsRising}, Numbers.{IsNameNumber}, KeptDisjointRows.{IsCommon, ReadsPairs, row_at}}};
ghost use Rattle.mm_frame.specs.{Code.{KeptAnswers.{KnowsAnswers, KeepsAnswers}, BlockMarks.{stays_by}}, declared.disjoint_rows.DisjointRows.{DisjointRows}};
ghost use Rattle.mm_machine.specs.Language.NumberedSymbols.{as_variable};
ghost use Rattle.mm_statement.specs.Language.Item as meant;

use crate::active_numbers::drop_ended;
use crate::blocks::Blocks;
use crate::pair_answers::{PairAnswer, PairAnswers};
use crate::rising::is_among;
use std::alloc::{AllocError, Global};

/// For each variable, by the number of its name, the numbers of the `$d` that have it, rising: of all that are active,
/// and of some that are not.
///
/// To take a `$d` takes time linear in its variables. Whether two variables are an active pair is looked up in their rows.
/// Each number in the shorter row is searched for in the longer one, up to the first that both have. If both rows are
/// long, and the two were looked up before, no number is searched for again.
#[derive(Drop)]
pub struct DisjointRows {
    rows: Vec<Vec<usize>>,
}

/// Both rows are searched anew for each look-up if one has at most this many numbers.
const SHORT_ROW: usize = 16;

/// The first number of a row that the other row has, too, and that is of an active `$d`.
fn first_in_both(blocks: &Blocks, row: &[usize], other: &[usize]) -> Option<usize>
    ensures some { IsRising other.now → IfSome result (IsCommon blocks.now row.now other.now) }
    ensures least { IsRising row.now → IsRising other.now → IfSome result (λ n. (m : ℕ) → IsCommon blocks.now row.now other.now m → n ≤ m) }
    ensures none { IsRising other.now → IfNone result ((n : ℕ) → IsCommon blocks.now row.now other.now n → ⊥) }
{
    for k in 0..row.len() {
        if is_among(other, row[k]) && blocks.is_active_now(row[k]) {
            return Some(row[k]);
        }
    }
    None
}

/// Whether an active `$d` is in both rows.
fn have_common(blocks: &Blocks, row: &[usize], other: &[usize]) -> bool
    ensures { IsRising other.now → MatchBool result
        ((n : ℕ) × IsCommon blocks.now row.now other.now n)
        ((n : ℕ) → IsCommon blocks.now row.now other.now n → ⊥) }
{
    first_in_both(blocks, row, other).is_some()
}

/// The numbers of a row from this one on.
fn rest_from(row: &[usize], number: usize) -> &[usize]
    ensures part { (n : ℕ) → Contains result.now n → Contains row.now n }
    ensures whole { IsRising row.now → (n : ℕ) → number ≤ n → Contains row.now n → Contains result.now n }
    ensures rising { IsRising row.now → IsRising result.now }
{
    let at = match row.binary_search(&number) {
        Ok(at) => at,
        Err(at) => at,
    };
    if at > 0 && at <= row.len() && row[at - 1] < number {
        &row[at..]
    } else {
        row
    }
}

/// The first number from this one on that both rows have and that is of an active `$d`.
fn first_common(blocks: &Blocks, row: &[usize], other: &[usize], from: usize) -> Option<usize>
    ensures some { IsRising row.now → IsRising other.now → IfSome result (IsCommon blocks.now row.now other.now) }
    ensures least { IsRising row.now → IsRising other.now
        → IfSome result (λ n. (m : ℕ) → from ≤ m → IsCommon blocks.now row.now other.now m → n ≤ m) }
    ensures none { IsRising row.now → IsRising other.now
        → IfNone result ((n : ℕ) → from ≤ n → IsCommon blocks.now row.now other.now n → ⊥) }
{
    let row = rest_from(row, from);
    let other = rest_from(other, from);
    if row.len() <= other.len() {
        first_in_both(blocks, row, other)
    } else {
        first_in_both(blocks, other, row)
    }
}

/// Whether there is a number, and it is that of an active item.
fn is_active_number(blocks: &Blocks, number: Option<usize>) -> bool
    ensures { MatchBool result
        ((n : ℕ) × (number ≡ Some n) × (stays_by (drop (suc n) blocks.now) ≡ true))
        ((n : ℕ) → number ≡ Some n → stays_by (drop (suc n) blocks.now) ≡ false) }
{
    match number {
        Some(number) => blocks.is_active_now(number),
        None => false,
    }
}

/// The number after the last of a row: 0 if it has none.
fn end_of(row: &[usize]) -> usize
    ensures { (count : ℕ) → ((n : ℕ) → Contains row.now n → n < count) → result ≤ count }
{
    match row.last() {
        Some(number) => number.saturating_add(1),
        None => 0,
    }
}

/// Whether an active `$d` has the two names with these numbers, whose rows these are. The `$d` that were looked at before
/// are not looked at again.
fn look_up(
    answers: &mut PairAnswers,
    blocks: &Blocks,
    first: usize,
    second: usize,
    row: &[usize],
    other: &[usize],
) -> Result<bool, AllocError>
    ensures value { IfOk result (λ r. (all : List (List ℕ)) (before : List meant.Said) (x y : List ℕ) (table : DisjointRows)
        → ReadsPairs all before table blocks.now → row.now ≡ row_at table first → other.now ≡ row_at table second
        → KnowsAnswers all before answers.old → IsNameNumber all first x → IsNameNumber all second y
        → (first ≡ second → ⊥) → r ≡ are_paired (active_pairs before) (as_variable x, as_variable y)) }
    ensures answers { OnOk result ((table : DisjointRows) → row.now ≡ row_at table first → other.now ≡ row_at table second
        → KeepsAnswers table blocks.now answers.old answers.new) }
{
    let known = answers.known(first, second);
    if is_active_number(blocks, known.common) {
        return Ok(true);
    }
    let common = first_common(blocks, row, other, known.below);
    let below = end_of(row);
    answers.keep(first, second, PairAnswer { below, common })?;
    Ok(common.is_some())
}

impl DisjointRows {
    ghost use Rattle.mm_frame.specs.Code.KeptDisjointRows.{row_at, Puts, PutsAll, AreOnce, KnowsPairs};

    /// No `$d` is taken yet. Takes no memory.
    pub fn new(alloc: Global) -> Self
        ensures { (all : List (List ℕ)) → KnowsPairs all [] result }
    {
        DisjointRows {
            rows: Vec::new(alloc),
        }
    }

    /// The numbers that are kept for the name with this number.
    pub fn row(&self, name: usize) -> &[usize]
        ensures { result.now ≡ row_at self.now name }
    {
        match self.rows.get(name) {
            Some(row) => row,
            None => &[],
        }
    }

    /// Whether any number is kept for the name with this number.
    pub fn has(&self, name: usize) -> bool
        ensures { result ≡ false → row_at self.now name ≡ [] }
    {
        !self.row(name).is_empty()
    }

    /// Whether an active `$d` has the two names with these numbers.
    pub fn is_active_pair(
        &self,
        answers: &mut PairAnswers,
        blocks: &Blocks,
        first: usize,
        second: usize,
    ) -> Result<bool, AllocError>
        ensures value { IfOk result (λ r. (all : List (List ℕ)) (before : List meant.Said) (x y : List ℕ) → ReadsPairs all before self.now blocks.now
            → KnowsAnswers all before answers.old → IsNameNumber all first x → IsNameNumber all second y
            → r ≡ are_paired (active_pairs before) (as_variable x, as_variable y)) }
        ensures answers { OnOk result (KeepsAnswers self.now blocks.now answers.old answers.new) }
    {
        if first == second {
            return Ok(false);
        }
        let row = self.row(first);
        let other = self.row(second);
        if row.len() <= SHORT_ROW {
            return Ok(have_common(blocks, row, other));
        }
        if other.len() <= SHORT_ROW {
            return Ok(have_common(blocks, other, row));
        }
        look_up(answers, blocks, first, second, row, other)
    }

    /// Has a row for the name with this number. Out of memory changes no row.
    fn grow(&mut self, alloc: Global, name: usize) -> Result<(), AllocError>
        ensures ok { OnOk result (name < length self.new.rows.items) }
        ensures same { (n : ℕ) → row_at self.new n ≡ row_at self.old n }
    {
        while self.rows.len() <= name {
            self.rows.push(Vec::new(alloc))?;
        }
        Ok(())
    }

    /// Adds a number after those of a name that are active.
    fn put(
        &mut self,
        alloc: Global,
        blocks: &Blocks,
        name: usize,
        number: usize,
    ) -> Result<(), AllocError>
        ensures { OnOk result (Puts self.old blocks.now name number self.new) }
    {
        self.grow(alloc, name)?;
        let row = &mut self.rows[name];
        drop_ended(row, blocks);
        row.push(number)?;
        Ok(())
    }

    /// Adds one more sound `$d`, with the numbers of its variables, its own number, and the blocks of the items before it.
    pub fn add(
        &mut self,
        alloc: Global,
        blocks: &Blocks,
        names: &[usize],
        number: usize,
    ) -> Result<(), AllocError>
        ensures { OnOk result (AreOnce names.now → PutsAll self.old blocks.now names.now number self.new) }
    {
        for k in 0..names.len() {
            self.put(alloc, blocks, names[k], number)?;
        }
        Ok(())
    }
}
