//! What is right or wrong when an assertion is cited.

ghost use Rattle.std.specs.Prelude.{◌≡◌, ◌↔◌, ◌<◌, ◌≤◌, ◌+◌, List, IsTrue, IfNone, IfOk, OnOk, MatchBool, MatchOption, length, map, slice_get};
ghost use Rattle.mm_machine.specs.{Language.{Frame.{Symbol as Meaning}, Faults.{AnyZip}, CodeLists.{meant_pairs}, Lasting.{pattern_symbols}}, Code.Flat.{IsEntryWithin, read}};
ghost use Rattle.mm_machine.specs.Code.{Citation.{AreFloating, GivesEntries, OtherTypecode, OtherEssential, CitingSays}, Filling.{AllGive, AreTaken, entries_of, frame_taking, variables_of}};
ghost use Rattle.mm_machine.specs.Code.PairClause.{IsPairRoom};

use crate::ProofNumber;
use crate::active::Active;
use crate::gather::PairRoom;
use crate::kept::Kept;
use crate::lasting::Pattern;
use crate::pairs::pairs_fault;
use crate::pattern::{Entry, Given, fits};
use crate::symbol::Symbol;
use crate::taken::{Taken, hypothesis_at, variable_of};
use std::alloc::{AllocError, Global};

/// Whether an entry begins with the typecode of a `$f`.
#[inline(always)]
fn has_typecode<S: Kept>(all: &[S], entry: Entry, typing: Pattern) -> bool
    requires entry { IsEntryWithin (length all.now) entry }
    requires typing { typing.start < typing.end }
    requires within { typing.end ≤ length all.now }
    ensures { IsTrue result ↔ (slice_get (pattern_symbols (map S.means all.now) typing) 0 ≡ slice_get (read (map S.means all.now) entry) 0) }
{
    if entry.start == entry.end {
        return false;
    }
    all[entry.start].same(&all[typing.start as usize])
}

/// Compares the typecode of each `$f` with that of its entry, and gives the rest of the entry to its variable. Answers where
/// the first `$e` is, or nothing if an entry has another typecode.
fn give<'s, 'c, S: Kept>(taken: &Taken<'s, 'c, S, S::Listed>, given: &mut [Given]) -> Option<usize>
    requires taken { AreTaken S.means S.Listed.means S.key_of taken.now }
    requires given { length given.old ≡ length (variables_of S.means taken.now) }
    ensures count { length given.new ≡ length given.old }
    ensures gives { MatchOption result
        (AnyZip OtherTypecode (frame_taking S.means S.Listed.means taken.now).hypotheses (entries_of S.means taken.now))
        (λ first. (AnyZip OtherTypecode (frame_taking S.means S.Listed.means taken.now).hypotheses (entries_of S.means taken.now) → ⊥)
        × AreFloating (frame_taking S.means S.Listed.means taken.now).hypotheses first × AllGive S.means S.Listed.means taken.now given.new) }
{
    let mut first = taken.entries.len();
    for place in 0..taken.entries.len() {
        let hypothesis = hypothesis_at(&*taken, place);
        if hypothesis.floating {
            let Entry { start, end, .. } = taken.entries[place];
            if !has_typecode(taken.symbols, taken.entries[place], hypothesis) {
                return None;
            }
            let variable = variable_of(&*taken, hypothesis);
            given[variable] = Given {
                start: start + 1,
                end,
                place,
            };
        } else if place < first {
            first = place;
        }
    }
    Some(first)
}

/// Whether each entry of a `$e` from a place on is the `$e` under the substitution.
fn essentials_fit<'s, 'c, S: Kept>(
    taken: &Taken<'s, 'c, S, S::Listed>,
    given: &[Given],
    first: usize,
) -> bool
    requires taken { AreTaken S.means S.Listed.means S.key_of taken.now }
    requires before { AreFloating (frame_taking S.means S.Listed.means taken.now).hypotheses first }
    requires given { AllGive S.means S.Listed.means taken.now given.now }
    ensures { (gives : Meaning → List Meaning) → GivesEntries gives (frame_taking S.means S.Listed.means taken.now).hypotheses (entries_of S.means taken.now)
        → MatchBool result
        (AnyZip (OtherEssential gives) (frame_taking S.means S.Listed.means taken.now).hypotheses (entries_of S.means taken.now) → ⊥)
        (AnyZip (OtherEssential gives) (frame_taking S.means S.Listed.means taken.now).hypotheses (entries_of S.means taken.now)) }
{
    for place in first..taken.entries.len() {
        let hypothesis = hypothesis_at(&*taken, place);
        if !hypothesis.floating {
            if !fits(
                taken.symbols,
                taken.entries[place],
                given,
                &taken.lasting.slots,
                hypothesis,
            ) {
                return false;
            }
        }
    }
    true
}

/// What is wrong when an assertion is cited that has its entries, but for the length of its result: the lowest number that
/// holds. If nothing is, its variables are given what the entries have.
pub fn citing_fault<'s, 'c, 'a, S: Kept>(
    alloc: Global,
    taken: &Taken<'s, 'c, S, S::Listed>,
    given: &mut [Given],
    active: &Active<'a, S>,
    room: &mut PairRoom<S>,
) -> Result<Option<ProofNumber>, AllocError>
    requires taken { AreTaken S.means S.Listed.means S.key_of taken.now }
    requires given { length given.old ≡ length (variables_of S.means taken.now) }
    requires room { IsPairRoom S.means S.key_of (meant_pairs S.Listed.means active.now.pairs.now) room.old }
    ensures count { length given.new ≡ length given.old }
    ensures room { OnOk result (IsPairRoom S.means S.key_of (meant_pairs S.Listed.means active.now.pairs.now) room.new) }
    ensures says { IfOk result (λ found. CitingSays (meant_pairs S.Listed.means active.now.pairs.now)
        (frame_taking S.means S.Listed.means taken.now) (entries_of S.means taken.now) found) }
    ensures gives { IfOk result (λ found. IfNone found (AllGive S.means S.Listed.means taken.now given.new)) }
{
    let Some(first) = give(&*taken, &mut *given) else {
        return Ok(Some(ProofNumber::P08));
    };
    if !essentials_fit(&*taken, &*given, first) {
        return Ok(Some(ProofNumber::P09));
    }
    if taken.cited.pairs.is_empty() {
        return Ok(None);
    }
    let found = pairs_fault(alloc, &*taken, &*given, &*active, &mut *room)?;
    Ok(found)
}
