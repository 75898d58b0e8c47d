//! The pair clause: whether the entries of mandatory pairs are kept apart.

ghost use Rattle.std.specs.Prelude.{◌≡◌, ◌<◌, ℕ, List, Some, IfOk, OnOk, MatchBool, length, map, slice_get};
ghost use Rattle.mm_machine.specs.{Language.{Frame.{Symbol as Meaning}, CodeLists.{meant_pairs}, Keys.{AreNumbered}}, Code.{Citation.{GivesEntries}, Filling.{AllGive, AreTaken, entries_of, frame_taking}}};
ghost use Rattle.mm_machine.specs.Code.PairClause.{EachApart, SomeNotApart, SomeShared, AreNumbersOf, AreSpans, AreSlotPairs, AtEachPair, AtSomePair, HasSlots, IsPairRoom, KnowsApart, PairsSay, set_at};
ghost use Rattle.mm_machine.specs.declared.pattern.Given.{Given as Put};

use crate::ProofNumber;
use crate::active::Active;
use crate::apart::{KnownApart, are_apart, share};
use crate::gather::{PairRoom, SlotPair};
use crate::kept::Kept;
use crate::pattern::{Entry, Given};
use crate::sets::Chunk;
use crate::symbol::Symbol;
use crate::taken::Taken;
use crate::variables::Variables;
use std::alloc::{AllocError, Global};

/// The set of the variables of the entry of a slot.
fn set_of<'g>(chunks: &'g [Chunk], spans: &[Entry], slot: usize) -> &'g [Chunk]
    requires spans { AreSpans (length chunks.now) spans.now }
    requires within { slot < length spans.now }
    ensures { result.now ≡ set_at chunks.now spans.now slot }
{
    let entry = spans[slot];
    &chunks[entry.start..entry.end]
}

/// Whether the two entries of each pair are apart.
fn all_apart<'a, S: Kept>(
    known: &mut KnownApart,
    all: &[S],
    active: &Active<'a, S>,
    chunks: &[Chunk],
    spans: &[Entry],
    pairs: &[SlotPair],
) -> Result<bool, AllocError>
    requires known { KnowsApart (meant_pairs S.Listed.means active.now.pairs.now) (map S.means all.now) known.old }
    requires numbers { AreNumbersOf (map S.means all.now) chunks.now }
    requires spans { AreSpans (length chunks.now) spans.now }
    requires slots { AreSlotPairs (length spans.now) pairs.now }
    ensures known { OnOk result (KnowsApart (meant_pairs S.Listed.means active.now.pairs.now) (map S.means all.now) known.new) }
    ensures apart { IfOk result (λ apart. MatchBool apart
        (AtEachPair (EachApart (meant_pairs S.Listed.means active.now.pairs.now) (map S.means all.now)) chunks.now spans.now pairs.now)
        (AtSomePair (SomeNotApart (meant_pairs S.Listed.means active.now.pairs.now) (map S.means all.now)) chunks.now spans.now pairs.now)) }
{
    for n in 0..pairs.len() {
        let pair = pairs[n];
        let first = set_of(chunks, spans, pair.first);
        let second = set_of(chunks, spans, pair.second);
        if !are_apart(&mut *known, all, &*active, first, second)? {
            return Ok(false);
        }
    }
    Ok(true)
}

/// Whether the two entries of some pair share a variable.
fn any_share(chunks: &[Chunk], spans: &[Entry], pairs: &[SlotPair]) -> bool
    requires spans { AreSpans (length chunks.now) spans.now }
    requires slots { AreSlotPairs (length spans.now) pairs.now }
    ensures { MatchBool result (AtSomePair SomeShared chunks.now spans.now pairs.now)
        (AtEachPair (λ xs ys. SomeShared xs ys → ⊥) chunks.now spans.now pairs.now) }
{
    for n in 0..pairs.len() {
        let pair = pairs[n];
        let first = set_of(chunks, spans, pair.first);
        let second = set_of(chunks, spans, pair.second);
        if share(first, second) {
            return true;
        }
    }
    false
}

/// Where the `$f` of a variable is, by what is given to this.
fn slot_of<S: Kept>(
    alloc: Global,
    variables: &Variables<S>,
    given: &[Given],
    listed: &S::Listed,
) -> Result<usize, AllocError>
    requires { AreNumbered S.key_of (map S.means variables.now.all.items) variables.now.places.items }
    ensures { IfOk result (λ slot. (n : ℕ) (g : Put) → slice_get (map S.means variables.now.all.items) n ≡ Some (S.Listed.means listed.now)
        → slice_get given.now n ≡ Some g → slot ≡ g.place) }
{
    let symbol = S::of(alloc, listed)?;
    match variables.find(&symbol) {
        Some(number) if number < given.len() => Ok(given[number].place),
        _ => Ok(0),
    }
}

/// Finds the slots of mandatory pairs, in place of those that are listed.
fn find_slots<'s, 'c, S: Kept>(
    alloc: Global,
    taken: &Taken<'s, 'c, S, S::Listed>,
    given: &[Given],
    to: &mut Vec<SlotPair>,
) -> Result<(), AllocError>
    requires taken { AreTaken S.means S.Listed.means S.key_of taken.now }
    requires given { AllGive S.means S.Listed.means taken.now given.now }
    ensures { OnOk result (HasSlots (frame_taking S.means S.Listed.means taken.now).hypotheses (frame_taking S.means S.Listed.means taken.now).pairs
        to.new.items) }
{
    to.clear();
    let pairs = taken.cited.pairs;
    for n in 0..pairs.len() {
        let first = slot_of(alloc, &taken.lasting.variables, given, &pairs[n].0)?;
        let second = slot_of(alloc, &taken.lasting.variables, given, &pairs[n].1)?;
        to.push(SlotPair { first, second })?;
    }
    Ok(())
}

/// What is wrong with the mandatory pairs of an assertion: the lower number of those that hold. Most citations have no pairs,
/// and do not come here.
#[inline(never)]
pub fn pairs_fault<'s, 'c, 'a, S: Kept>(
    alloc: Global,
    taken: &Taken<'s, 'c, S, S::Listed>,
    given: &[Given],
    active: &Active<'a, S>,
    room: &mut PairRoom<S>,
) -> Result<Option<ProofNumber>, AllocError>
    requires taken { AreTaken S.means S.Listed.means S.key_of taken.now }
    requires given { AllGive S.means S.Listed.means taken.now given.now }
    requires room { IsPairRoom S.means S.key_of (meant_pairs S.Listed.means active.now.pairs.now) room.old }
    ensures room { OnOk result (IsPairRoom S.means S.key_of (meant_pairs S.Listed.means active.now.pairs.now) room.new) }
    ensures says { IfOk result (λ found. (gives : Meaning → List Meaning)
        → GivesEntries gives (frame_taking S.means S.Listed.means taken.now).hypotheses (entries_of S.means taken.now)
        → PairsSay (meant_pairs S.Listed.means active.now.pairs.now) gives (frame_taking S.means S.Listed.means taken.now).pairs found) }
{
    room.gather_all(alloc, &*taken)?;
    find_slots(alloc, &*taken, given, &mut room.slots)?;
    if all_apart(
        &mut room.known,
        &room.variables.all,
        &*active,
        &room.sets.chunks,
        &room.spans,
        &room.slots,
    )? {
        return Ok(None);
    }
    if any_share(&room.sets.chunks, &room.spans, &room.slots) {
        return Ok(Some(ProofNumber::P10));
    }
    Ok(Some(ProofNumber::P11))
}
