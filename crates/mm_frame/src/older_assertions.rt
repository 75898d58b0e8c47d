//! What is kept of the assertions of an older base is taken over, as long as the items so far are its first ones.

ghost use Rattle.std.specs.{Prelude.{◌≡◌, ◌∷◌, ◌++◌, ℕ, List, [], true, IfOk, IfSome, OnOk, length}, Option.{option_map}};
ghost use Rattle.mm_frame.specs.Language.{Scope.{active_numbers}, Sound.{sound_items}, Framing.{active_pairs, frame}, Base.{BaseView, is_proof_at}};
ghost use Rattle.mm_frame.specs.{Language.Answering.{AreRows, IsBaseBy, pairs_in_order, told_numbers}, Code.KeptAssertions.{AreAssertions, AreFrames, TellsPairs}};
ghost use Rattle.mm_frame.specs.Code.{KeptPairLists.{AreListsFor, IsList, KeepsLists}, KeptSymbols.{AreSymbols}, LastItems.{is_disjoint_item}, FromOlder.{AreFirst, IsNextOf}};
ghost use Rattle.mm_machine.specs.Language.NumberedSymbols.{AreInOrder, ArePairsRead, AreSamePairsRead};
ghost use Rattle.mm_statement.specs.Language.Item as meant;

use crate::assertions::Assertions;
use crate::base::Base;
use crate::expressions::Expressions;
use crate::frame::Frame;
use crate::frames::Frames;
use crate::guesses::ListGuesses;
use crate::pair_lists::{PairLists, count_to_last};
use crate::sparse::Sparse;
use mm_machine::NumberedSymbol;
use std::alloc::{AllocError, Global};

/// An older base, and the number of an item of it.
#[derive(Clone, Copy)]
pub struct OlderItem<'a> {
    pub base: &'a Base,
    pub number: usize,
}

/// The numbers of the active `$d`, and the symbols of all items.
#[derive(Clone, Copy)]
pub struct ActiveDisjoints<'a> {
    pub numbers: &'a [usize],
    pub expressions: &'a Expressions,
}

/// Adds the frame of one more item: an equal one of an earlier item, or a copy of the one that is kept, if one is.
fn copy_frame(
    alloc: Global,
    frames: &mut Frames,
    active: ActiveDisjoints,
    kept: Option<&Frame>,
) -> Result<(), AllocError>
    ensures { OnOk result ((all : List (List ℕ)) (said : List meant.Said) (item : meant.Said)
        → AreSymbols all (sound_items said) active.entry.expressions.now → active.entry.numbers.now ≡ active_numbers is_disjoint_item (sound_items said)
        → option_map (λ frame. frame.now.hypotheses.items) kept.entry ≡ told_numbers (sound_items said) item
        → IfSome kept.entry (λ kept. ArePairsRead all (pairs_in_order (frame (sound_items said) item)) kept.now.pairs.items)
        → AreFrames all said frames.old → AreFrames all (said ++ item ∷ []) frames.new) }
{
    let Some(kept) = kept else {
        frames.pass()?;
        return Ok(());
    };
    let reach = count_to_last(active.numbers, active.expressions);
    if frames.add_same(&kept.hypotheses, reach)? {
        return Ok(());
    }
    let hypotheses = Vec::from_slice(alloc, &kept.hypotheses)?;
    let pairs = Vec::from_slice(alloc, &kept.pairs)?;
    frames.add(Frame { hypotheses, pairs }, reach)
}

/// A sound `$p` of an older base by its number, and the pairs that are active at it.
#[derive(Clone, Copy)]
struct OlderProof<'a> {
    base: &'a Base,
    number: usize,
    pairs: &'a [(NumberedSymbol, NumberedSymbol)],
}

/// The number of the list of an earlier `$p`, if one is known that shares its list with the `$p` of the older base.
fn shared_list(numbers: &Sparse, copied: &ListGuesses, proof: OlderProof) -> Option<usize>
    ensures { IfSome result (λ k. (all : List (List ℕ)) (lists : PairLists) (base : BaseView) (said : List meant.Said) → IsBaseBy all base proof.entry.base.now
        → AreFirst base said → proof.entry.number ≡ length said → is_proof_at base proof.entry.number ≡ true → AreRows (TellsPairs all lists) said numbers.now
        → IsList all lists k (active_pairs (sound_items said))) }
{
    let list = proof.base.list_number(proof.number)?;
    let earlier = copied.guess(copied.place(list));
    let k = numbers.at(earlier)?;
    if proof.base.list_number(earlier)? == list {
        Some(k)
    } else {
        None
    }
}

/// The number of the list of the `$p` of the older base: that of an earlier `$p` which shares it, or else of a copy.
fn copied_list(
    alloc: Global,
    lists: &mut PairLists,
    copied: &mut ListGuesses,
    numbers: &Sparse,
    proof: OlderProof,
) -> Result<usize, AllocError>
    ensures list { IfOk result (λ k. (all : List (List ℕ)) (base : BaseView) (said : List meant.Said) → IsBaseBy all base proof.entry.base.now
        → AreFirst base said → proof.entry.number ≡ length said → is_proof_at base proof.entry.number ≡ true
        → AreSamePairsRead all (active_pairs (sound_items said)) proof.entry.pairs.now → AreInOrder proof.entry.pairs.now
        → AreRows (TellsPairs all lists.old) said numbers.now → IsList all lists.new k (active_pairs (sound_items said))) }
    ensures kept { OnOk result (KeepsLists lists.old lists.new) }
    ensures by_count { OnOk result (lists.new.by_count ≡ lists.old.by_count) }
{
    if let Some(k) = shared_list(numbers, copied, proof) {
        return Ok(k);
    }
    let k = lists.lists.keep_copy(alloc, proof.pairs)?;
    if let Some(list) = proof.base.list_number(proof.number) {
        copied.keep(copied.place(list), proof.number);
    }
    Ok(k)
}

/// The number of the list of the `$p` of the older base: the one that is made for the active `$d`, or else one that is made
/// for them from then on.
fn older_list(
    alloc: Global,
    lists: &mut PairLists,
    copied: &mut ListGuesses,
    numbers: &Sparse,
    active: ActiveDisjoints,
    proof: OlderProof,
) -> Result<usize, AllocError>
    ensures list { IfOk result (λ k. (all : List (List ℕ)) (base : BaseView) (said : List meant.Said) → IsBaseBy all base proof.entry.base.now
        → AreFirst base said → proof.entry.number ≡ length said → is_proof_at base proof.entry.number ≡ true
        → AreSamePairsRead all (active_pairs (sound_items said)) proof.entry.pairs.now → AreInOrder proof.entry.pairs.now
        → AreSymbols all (sound_items said) active.entry.expressions.now → active.entry.numbers.now ≡ active_numbers is_disjoint_item (sound_items said)
        → AreListsFor all (sound_items said) lists.old → AreRows (TellsPairs all lists.old) said numbers.now
        → IsList all lists.new k (active_pairs (sound_items said))) }
    ensures by_count { OnOk result ((all : List (List ℕ)) (base : BaseView) (said : List meant.Said) → IsBaseBy all base proof.entry.base.now
        → AreFirst base said → proof.entry.number ≡ length said → is_proof_at base proof.entry.number ≡ true
        → AreSamePairsRead all (active_pairs (sound_items said)) proof.entry.pairs.now → AreInOrder proof.entry.pairs.now
        → AreSymbols all (sound_items said) active.entry.expressions.now → active.entry.numbers.now ≡ active_numbers is_disjoint_item (sound_items said)
        → AreRows (TellsPairs all lists.old) said numbers.now
        → AreListsFor all (sound_items said) lists.old → AreListsFor all (sound_items said) lists.new) }
    ensures kept { OnOk result (KeepsLists lists.old lists.new) }
{
    if let Some(k) = lists.find_list(active.numbers, active.expressions) {
        return Ok(k);
    }
    let k = copied_list(alloc, lists, copied, numbers, proof)?;
    lists.keep_list(active.numbers, active.expressions, k)?;
    Ok(k)
}

/// Adds the number of the list of active pairs of one more item, the one with this number in the older base, if it has one.
fn copy_pairs(
    alloc: Global,
    lists: &mut PairLists,
    copied: &mut ListGuesses,
    numbers: &mut Sparse,
    active: ActiveDisjoints,
    old: OlderItem,
) -> Result<(), AllocError>
    ensures by_count { OnOk result ((all : List (List ℕ)) (base : BaseView) (said : List meant.Said) (item : meant.Said)
        → IsNextOf all old.entry.base.now base said item → old.entry.number ≡ length said
        → AreSymbols all (sound_items said) active.entry.expressions.now → active.entry.numbers.now ≡ active_numbers is_disjoint_item (sound_items said)
        → AreRows (TellsPairs all lists.old) said numbers.old
        → AreListsFor all (sound_items said) lists.old → AreListsFor all (sound_items said) lists.new) }
    ensures pairs { OnOk result ((all : List (List ℕ)) (base : BaseView) (said : List meant.Said) (item : meant.Said)
        → IsNextOf all old.entry.base.now base said item → old.entry.number ≡ length said
        → AreSymbols all (sound_items said) active.entry.expressions.now → active.entry.numbers.now ≡ active_numbers is_disjoint_item (sound_items said)
        → AreListsFor all (sound_items said) lists.old → AreRows (TellsPairs all lists.old) said numbers.old
        → AreRows (TellsPairs all lists.new) (said ++ item ∷ []) numbers.new) }
{
    let Some(pairs) = old.base.pairs(old.number) else {
        numbers.add(None)?;
        return Ok(());
    };
    let proof = OlderProof {
        base: old.base,
        number: old.number,
        pairs,
    };
    let k = older_list(alloc, lists, copied, numbers, active, proof)?;
    numbers.add(Some(k))?;
    Ok(())
}

impl Assertions {
    /// Keeps what citing one more item needs, and the list of the pairs that are active there, as the older base has it.
    pub fn add_from_older(
        &mut self,
        alloc: Global,
        active: ActiveDisjoints,
        old: OlderItem,
    ) -> Result<(), AllocError>
        ensures { OnOk result ((all : List (List ℕ)) (base : BaseView) (said : List meant.Said) (one : meant.Said)
            → IsNextOf all old.entry.base.now base said one → old.entry.number ≡ length said
            → AreSymbols all (sound_items said) active.entry.expressions.now → active.entry.numbers.now ≡ active_numbers is_disjoint_item (sound_items said)
            → AreAssertions all said self.old → AreAssertions all (said ++ one ∷ []) self.new) }
    {
        copy_frame(
            alloc,
            &mut self.frames,
            active,
            old.base.kept_frame(old.number),
        )?;
        copy_pairs(
            alloc,
            &mut self.pair_lists,
            &mut self.copied,
            &mut self.pair_numbers,
            active,
            old,
        )?;
        Ok(())
    }
}
