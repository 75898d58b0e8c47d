//! The active pairs at a statement, and which symbols they keep apart.

ghost use Rattle.std.specs.Prelude.{◌≡◌, ◌↔◌, ◌<◌, ℕ, true, IsTrue, MatchBool, Some, length, slice_get};
ghost use Rattle.mm_machine.specs.Language.{Frame.{Symbol as Meaning, ArePair}, CodeLists.{meant_pairs}, NumberedSymbols.{comes_before}, Keys.{AreInKeyOrder, lower_first as lower_first_lem, pair_keys}};
ghost use Rattle.mm_machine.specs.Code.PairClause.{IsPair, Apart, NotApart};

use crate::kept::Kept;
use crate::symbol::Symbol;

/// The active pairs at a statement, in the order of the lower and the higher key of their symbols.
#[derive(Drop)]
pub struct Active<'a, S: Kept> {
    pairs: &'a [(S::Listed, S::Listed)],
    ghost order: { AreInKeyOrder S.key_of (meant_pairs S.Listed.means pairs.now) },
}

/// Two numbers, the lower one first.
fn lower_first(a: usize, b: usize) -> (usize, usize)
    ensures { result ≡ lower_first_lem a b }
{
    if a <= b { (a, b) } else { (b, a) }
}

/// Whether the keys of one pair come before those of another.
fn is_before(one: (usize, usize), other: (usize, usize)) -> bool
    ensures { result ≡ comes_before one other }
{
    one.0 < other.0 || one.0 == other.0 && one.1 < other.1
}

impl<'a, S: Kept> Active<'a, S> {
    /// These pairs, which are in the order of the keys of their symbols. It takes no memory.
    pub fn new(pairs: &'a [(S::Listed, S::Listed)]) -> Active<'a, S>
        requires { AreInKeyOrder S.key_of (meant_pairs S.Listed.means pairs.now) }
        ensures { result.pairs.now ≡ pairs.now }
    {
        Active { pairs }
    }

    /// The keys of the pair at a place.
    fn keys_at(&self, place: usize) -> (usize, usize)
        requires { place < length self.now.pairs.now }
        ensures { (p : Meaning × Meaning) → slice_get (meant_pairs S.Listed.means self.now.pairs.now) place ≡ Some p → result ≡ pair_keys S.key_of p }
    {
        let pair = &self.pairs[place];
        lower_first(S::key_of_listed(&pair.0), S::key_of_listed(&pair.1))
    }

    /// A place before which the keys of all pairs come before these.
    fn place_of(&self, wanted: (usize, usize)) -> usize
        ensures { (k : ℕ) (p : Meaning × Meaning) → k < result → slice_get (meant_pairs S.Listed.means self.now.pairs.now) k ≡ Some p
            → comes_before (pair_keys S.key_of p) wanted ≡ true }
    {
        let mut low = 0;
        let mut high = self.pairs.len();
        while low < high {
            let middle = low + (high - low) / 2;
            if is_before(self.keys_at(middle), wanted) {
                low = middle + 1;
            } else {
                high = middle;
            }
        }
        low
    }

    /// Whether the pair at a place is that of two symbols.
    fn is_at(&self, place: usize, x: &S, y: &S) -> bool
        requires { place < length self.now.pairs.now }
        ensures { (p : Meaning × Meaning) → slice_get (meant_pairs S.Listed.means self.now.pairs.now) place ≡ Some p
            → IsTrue result ↔ IsPair p (S.means x.now) (S.means y.now) }
    {
        let pair = &self.pairs[place];
        x.is(&pair.0) && y.is(&pair.1) || y.is(&pair.0) && x.is(&pair.1)
    }

    /// Whether two symbols are an active pair: only pairs with their keys are compared with them.
    pub(crate) fn has(&self, x: &S, y: &S) -> bool
        ensures { IsTrue result ↔ ArePair (meant_pairs S.Listed.means self.now.pairs.now) (S.means x.now) (S.means y.now) }
    {
        let wanted = lower_first(x.key(), y.key());
        for place in self.place_of(wanted)..self.pairs.len() {
            if is_before(wanted, self.keys_at(place)) {
                return false;
            }
            if self.is_at(place, x, y) {
                return true;
            }
        }
        false
    }

    /// Whether two variables are different, and an active pair.
    pub(crate) fn is_apart(&self, x: &S, y: &S) -> bool
        ensures { MatchBool result (Apart (meant_pairs S.Listed.means self.now.pairs.now) (S.means x.now) (S.means y.now)) (NotApart
            (meant_pairs S.Listed.means self.now.pairs.now) (S.means x.now) (S.means y.now)) }
    {
        if x.same(y) {
            return false;
        }
        self.has(x, y)
    }
}
