//! Whether what two bases keep is the same.

ghost use Rattle.std.specs.Prelude.{◌≡◌, ◌↔◌, ◌⊎◌, ℕ, List, IsTrue, true, All, Contains, map};
ghost use Rattle.mm_frame.specs.Language.{Base.{BaseView, before, said_at, is_shown_at, is_framed_at, is_proof_at, hypothesis_at, frame_at}, Framing.{active_pairs, expression}, Answering.{IsBaseBy}};
ghost use Rattle.mm_machine.specs.Language.Frame.{AreSameFrame, AreSamePairs};

use crate::base::Base;
use crate::names::Names;
use crate::symbol::{same_pairs, same_symbols};
use mm_machine::NumberedSymbol;

/// Whether two sound `$f`, `$e`, `$a` or `$p` of bases over the same names have the same expression. Whether they are
/// sound is not checked. It takes no memory.
pub fn same_expression(one: &Base, i: usize, other: &Base, j: usize) -> bool
    ensures { (names : List (List ℕ)) (base copy : BaseView) → IsBaseBy names base one.now → IsBaseBy names copy other.now
        → is_shown_at base i ≡ true → is_shown_at copy j ≡ true
        → IsTrue result ↔ (expression (before base i) (said_at base i) ≡ expression (before copy j) (said_at copy j)) }
{
    same_symbols(one.known_expression(i), other.known_expression(j))
}

/// Whether two hypotheses are the same.
fn same_hypothesis(one: &Base, i: usize, other: &Base, j: usize) -> bool
    ensures { (names : List (List ℕ)) (base copy : BaseView) → IsBaseBy names base one.now → IsBaseBy names copy other.now
        → is_shown_at base i ≡ true → is_shown_at copy j ≡ true
        → IsTrue result ↔ (hypothesis_at base i ≡ hypothesis_at copy j) }
{
    one.is_floating(i) == other.is_floating(j) && same_expression(one, i, other, j)
}

/// Whether the hypotheses with these numbers are the same, one by one.
fn same_hypotheses(one: &Base, mine: &[usize], other: &Base, yours: &[usize]) -> bool
    ensures { (names : List (List ℕ)) (base copy : BaseView) → IsBaseBy names base one.now → IsBaseBy names copy other.now
        → All (λ n. is_shown_at base n ≡ true) mine.now
        → All (λ n. is_shown_at copy n ≡ true) yours.now → IsTrue result ↔ (map (hypothesis_at base) mine.now ≡ map (hypothesis_at copy) yours.now) }
{
    if mine.len() != yours.len() {
        return false;
    }
    for k in 0..mine.len() {
        if !same_hypothesis(one, mine[k], other, yours[k]) {
            return false;
        }
    }
    true
}

/// Whether two sound `$a` or `$p` of bases over the same names have the same mandatory hypotheses, in the same order. It
/// takes no memory, and time linear in the hypotheses.
pub fn same_mandatory_hypotheses(one: &Base, i: usize, other: &Base, j: usize) -> bool
    ensures { (names : List (List ℕ)) (base copy : BaseView) → IsBaseBy names base one.now → IsBaseBy names copy other.now
        → is_framed_at base i ≡ true → is_framed_at copy j ≡ true → IsTrue result ↔ ((frame_at base i).hypotheses ≡ (frame_at copy j).hypotheses) }
{
    match (one.frame(i), other.frame(j)) {
        (Some(mine), Some(yours)) => {
            same_hypotheses(one, &mine.hypotheses, other, &yours.hypotheses)
        }
        _ => false,
    }
}

/// Whether two sound `$a` or `$p` of bases over the same names, which are known to have the same mandatory hypotheses, have the
/// same mandatory pairs, whatever `$d` they are in. It takes no memory, and time linear in the pairs.
pub fn same_mandatory_pairs(one: &Base, i: usize, other: &Base, j: usize) -> bool
    ensures { (names : List (List ℕ)) (base copy : BaseView) → IsBaseBy names base one.now → IsBaseBy names copy other.now
        → is_framed_at base i ≡ true → is_framed_at copy j ≡ true → (frame_at base i).hypotheses ≡ (frame_at copy j).hypotheses
        → IsTrue result ↔ AreSamePairs (frame_at base i).pairs (frame_at copy j).pairs }
{
    match (one.kept_frame(i), other.kept_frame(j)) {
        (Some(mine), Some(yours)) => same_pairs(&mine.pairs, &yours.pairs),
        _ => false,
    }
}

/// Whether two sound `$a` or `$p` of bases over the same names have the same expression and the same mandatory hypotheses,
/// in the same order. It takes no memory.
pub fn same_but_pairs(one: &Base, i: usize, other: &Base, j: usize) -> bool
    ensures { (names : List (List ℕ)) (base copy : BaseView) → IsBaseBy names base one.now → IsBaseBy names copy other.now
        → is_framed_at base i ≡ true → is_framed_at copy j ≡ true
        → IsTrue result ↔ (((frame_at base i).expression ≡ (frame_at copy j).expression) × ((frame_at base i).hypotheses ≡ (frame_at copy j).hypotheses)) }
{
    same_expression(one, i, other, j) && same_mandatory_hypotheses(one, i, other, j)
}

/// Whether two sound `$a` or `$p` of bases over the same names have the same frame: the same expression, the same
/// mandatory hypotheses in the same order, and the same mandatory pairs, whatever `$d` they are in. It takes no memory,
/// and time linear in the two frames.
pub fn same_frame(names: &Names, one: &Base, i: usize, other: &Base, j: usize) -> bool
    ensures { (base copy : BaseView) → IsBaseBy names.now base one.now → IsBaseBy names.now copy other.now → is_framed_at base i ≡ true
        → is_framed_at copy j ≡ true → IsTrue result ↔ AreSameFrame (frame_at base i) (frame_at copy j) }
{
    same_but_pairs(one, i, other, j) && same_mandatory_pairs(one, i, other, j)
}

/// Whether a list has a pair, in this order. Lists are sorted, so a search finds it; if it does not, each is compared.
fn has_ordered(
    list: &[(NumberedSymbol, NumberedSymbol)],
    pair: &(NumberedSymbol, NumberedSymbol),
) -> bool
    ensures { IsTrue result ↔ Contains list.now pair.now }
{
    match list.binary_search(pair) {
        Ok(at) if list[at] == *pair => true,
        _ => list.contains(pair),
    }
}

/// Whether a list has a pair, in one order or the other.
fn has_either_way(
    list: &[(NumberedSymbol, NumberedSymbol)],
    pair: &(NumberedSymbol, NumberedSymbol),
) -> bool
    ensures { IsTrue result ↔ (Contains list.now pair.now ⊎ Contains list.now (pair.now.1, pair.now.0)) }
{
    has_ordered(list, pair) || has_ordered(list, &(pair.1, pair.0))
}

/// Whether a list has each of some pairs, in one order or the other.
fn has_each(
    list: &[(NumberedSymbol, NumberedSymbol)],
    pairs: &[(NumberedSymbol, NumberedSymbol)],
) -> bool
    ensures { IsTrue result ↔ ((p : NumberedSymbol × NumberedSymbol) → Contains pairs.now p
        → Contains list.now p ⊎ Contains list.now (p.1, p.0)) }
{
    for pair in pairs {
        if !has_either_way(list, pair) {
            return false;
        }
    }
    true
}

/// Whether two sound `$p` of bases over the same names have the same active pairs, as sets of unordered pairs. It takes no
/// memory, and time linear in the pairs if they are the same; else a search for each pair of one list in the other is
/// added, up to the first that is missing.
pub fn same_active_pairs(one: &Base, i: usize, other: &Base, j: usize) -> bool
    ensures { (names : List (List ℕ)) (base copy : BaseView) → IsBaseBy names base one.now → IsBaseBy names copy other.now
        → is_proof_at base i ≡ true → is_proof_at copy j ≡ true
        → IsTrue result ↔ AreSamePairs (active_pairs (before base i)) (active_pairs (before copy j)) }
{
    match (one.pairs(i), other.pairs(j)) {
        (Some(mine), Some(yours)) => {
            same_pairs(mine, yours) || has_each(mine, yours) && has_each(yours, mine)
        }
        _ => false,
    }
}
