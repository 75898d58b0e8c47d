//! What is kept of the assertions.

ghost use Rattle.std.specs.Prelude.{◌≡◌, ◌∷◌, ◌++◌, ◌&&◌, ℕ, List, [], true, IfOk, OnOk, is_none};
ghost use Rattle.mm_statement.specs.Language.Statement.{kind_of};
ghost use Rattle.mm_frame.specs.{Language.{Scope.{active_numbers}, Sound.{AreSound, fault, sound_items}, Answering.{AreRows, is_told_proof}}, Code.KeptAnswers.{KnowsAnswers}};
ghost use Rattle.mm_frame.specs.Code.{KeptEarlier.{IsFramed, KnowsEarlier}, KeptPairLists.{AreListsFor}, KeptSymbols.{AreSymbols}, KeptAssertions.{AreFrames, TellsPairs, is_told_framed}};
ghost use Rattle.mm_frame.specs.Code.LastItems.{is_disjoint_item};
ghost use Rattle.mm_statement.specs.Language.Item as meant;

use crate::active_items::TakenItem;
use crate::earlier::Earlier;
use crate::expressions::Expressions;
use crate::frame::Frame;
use crate::frames::Frames;
use crate::guesses::ListGuesses;
use crate::mandatory::{FrameRoom, mandatory_pairs, put_hypotheses};
use crate::pair_lists::{PairLists, count_to_last};
use crate::sparse::Sparse;
use mm_machine::NumberedSymbol;
use mm_store::ItemKind;
use std::alloc::{AllocError, Global};

/// What is kept of the assertions so far.
#[derive(Drop)]
pub struct Assertions {
    /// The frames.
    pub frames: Frames,
    /// The lists of active pairs.
    pub pair_lists: PairLists,
    /// The number of the list of all active pairs, for each sound `$p`, by its number; none for any other item.
    pub pair_numbers: Sparse,
    /// What the frames are made with.
    pub room: FrameRoom,
    /// For the lists of an older base, by their numbers there, a `$p` that was taken over and may have that list.
    pub copied: ListGuesses,
}

/// Whether such an item has a frame.
fn is_framed(item: TakenItem) -> bool
    ensures { result ≡ (item.sound && meant.is_assertion (kind_of item.kind)) }
{
    item.sound && matches!(item.kind, ItemKind::Axiom | ItemKind::Theorem)
}

/// Whether such an item has a proof.
fn has_proof(item: TakenItem) -> bool
    ensures { result ≡ (item.sound && meant.is_kind meant.Theorem (kind_of item.kind)) }
{
    item.sound && matches!(item.kind, ItemKind::Theorem)
}

/// Keeps the frame of one more item, which has these symbols, if it is a sound assertion; `disjoints` are the numbers of the
/// active `$d`.
fn keep_frame(
    alloc: Global,
    frames: &mut Frames,
    earlier: &Earlier,
    room: &mut FrameRoom,
    disjoints: &[usize],
    own: &[NumberedSymbol],
    framed: bool,
) -> Result<(), AllocError>
    ensures answers { OnOk result ((all : List (List ℕ)) (before : List meant.Said) → KnowsEarlier all before earlier.now
        → KnowsAnswers all before room.old.answers → KnowsAnswers all before room.new.answers) }
    ensures frames { OnOk result ((all : List (List ℕ)) (said : List meant.Said) (item : meant.Said) → KnowsEarlier all (sound_items said) earlier.now
        → KnowsAnswers all (sound_items said) room.old.answers → disjoints.now ≡ active_numbers is_disjoint_item (sound_items said)
        → framed ≡ is_told_framed (sound_items said) item → (framed ≡ true → IsFramed all (sound_items said) item own.now)
        → AreFrames all said frames.old → AreFrames all (said ++ item ∷ []) frames.new) }
{
    if !framed {
        frames.pass()?;
        return Ok(());
    }
    put_hypotheses(earlier, own, &mut room.numbers)?;
    let reach = count_to_last(disjoints, earlier.expressions);
    if frames.add_same(&room.numbers, reach)? {
        return Ok(());
    }
    let hypotheses = Vec::from_slice(alloc, &room.numbers)?;
    let pairs = mandatory_pairs(alloc, earlier, room)?;
    frames.add(Frame { hypotheses, pairs }, reach)
}

/// Keeps the number of the list of active pairs of one more item, if it is a sound `$p`.
fn keep_pairs(
    alloc: Global,
    pair_lists: &mut PairLists,
    pairs: &mut Sparse,
    disjoints: &[usize],
    expressions: &Expressions,
    proof: bool,
) -> Result<(), AllocError>
    ensures by_count { OnOk result ((all : List (List ℕ)) (before : List meant.Said) → AreSound before → AreSymbols all before expressions.now
        → disjoints.now ≡ active_numbers is_disjoint_item before → AreListsFor all before pair_lists.old → AreListsFor all before pair_lists.new) }
    ensures pairs { OnOk result ((all : List (List ℕ)) (said : List meant.Said) (item : meant.Said) → AreSymbols all (sound_items said) expressions.now
        → disjoints.now ≡ active_numbers is_disjoint_item (sound_items said)
        → AreListsFor all (sound_items said) pair_lists.old → proof ≡ is_told_proof (sound_items said) item
        → AreRows (TellsPairs all pair_lists.old) said pairs.old → AreRows (TellsPairs all pair_lists.new) (said ++ item ∷ []) pairs.new) }
{
    if !proof {
        pairs.add(None)?;
        return Ok(());
    }
    let k = pair_lists.list_of(alloc, disjoints, expressions)?;
    pairs.add(Some(k))?;
    Ok(())
}

impl Assertions {
    ghost use Rattle.mm_frame.specs.Code.KeptAssertions.{AreAssertions};

    /// No items, with room for this many.
    pub fn with_room(alloc: Global, count: usize) -> Result<Assertions, AllocError>
        ensures { IfOk result (λ assertions. (all : List (List ℕ)) → AreAssertions all [] assertions) }
    {
        let frames = Frames::with_room(alloc, count)?;
        let pair_numbers = Sparse::with_room(alloc, count)?;
        let pair_lists = PairLists::with_room(alloc, count)?;
        let copied = ListGuesses::with_room(alloc, count)?;
        Ok(Assertions {
            frames,
            pair_lists,
            pair_numbers,
            room: FrameRoom::new(alloc),
            copied,
        })
    }

    /// Keeps what citing one more item needs, and the list of the pairs that are active there. Its symbols are `own`, and
    /// `disjoints` are the numbers of the active `$d`.
    pub fn keep(
        &mut self,
        alloc: Global,
        earlier: &Earlier,
        disjoints: &[usize],
        own: &[NumberedSymbol],
        item: TakenItem,
    ) -> Result<(), AllocError>
        ensures { OnOk result ((all : List (List ℕ)) (said : List meant.Said) (one : meant.Said) → KnowsEarlier all (sound_items said) earlier.now
            → disjoints.now ≡ active_numbers is_disjoint_item (sound_items said) → kind_of item.kind ≡ one.kind
            → is_none (fault (sound_items said) one) ≡ item.sound
            → ((item.sound && meant.is_assertion (kind_of item.kind)) ≡ true → IsFramed all (sound_items said) one own.now)
            → AreAssertions all said self.old → AreAssertions all (said ++ one ∷ []) self.new) }
    {
        keep_frame(
            alloc,
            &mut self.frames,
            earlier,
            &mut self.room,
            disjoints,
            own,
            is_framed(item),
        )?;
        keep_pairs(
            alloc,
            &mut self.pair_lists,
            &mut self.pair_numbers,
            disjoints,
            earlier.expressions,
            has_proof(item),
        )?;
        Ok(())
    }
}
