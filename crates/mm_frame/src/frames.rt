//! The frames of assertions, of which equal ones are one.

ghost use Rattle.std.specs.Prelude.{◌≡◌, [], None, IfOk, IfSome, IsTrue, OnOk, MatchBool};
ghost use Rattle.mm_frame.specs.Code.KeptFrames.{AddsEqual, AddsFrame, AddsSame, IsEqualAt, IsFrameAt, KeepsEqual, frames_kept};

use crate::frame::Frame;
use crate::guesses::ListGuesses;
use crate::shared::Shared;
use crate::sparse::Sparse;
use crate::symbol::same_pairs;
use std::alloc::{AllocError, Global};

/// The frames of the assertions so far.
///
/// Which pairs are active depends on the items up to the last active `$d` alone, and the mandatory pairs depend on these and on
/// the mandatory hypotheses. So assertions that have the same hypotheses and the same last active `$d` have one frame, which is
/// found before its pairs are made. With another last `$d` the pairs can be the same too: this is seen when they are there.
#[derive(Drop)]
pub struct Frames {
    /// The frame of each sound `$a` and `$p`, by its number; none for any other item.
    pub kept: Shared<Frame>,
    /// For each of these the count of items up to the last `$d` that is active there: 0 if none is.
    pub reaches: Sparse,
    /// The number of an item that may have such a frame.
    guesses: ListGuesses,
}

/// Whether a frame has these hypotheses.
fn has_hypotheses(frame: &Frame, hypotheses: &[usize]) -> bool
    ensures { IsTrue result → frame.now.hypotheses.items ≡ hypotheses.now }
{
    frame.hypotheses.as_slice() == hypotheses
}

/// Whether two frames are equal.
fn are_equal(one: &Frame, other: &Frame) -> bool
    ensures { IsTrue result → (one.now.hypotheses.items ≡ other.now.hypotheses.items) × (one.now.pairs.items ≡ other.now.pairs.items) }
{
    has_hypotheses(one, &other.hypotheses) && same_pairs(&one.pairs, &other.pairs)
}

impl Frames {
    /// No items, with room for this many.
    pub fn with_room(alloc: Global, count: usize) -> Result<Frames, AllocError>
        ensures { IfOk result (λ frames. (frames_kept frames ≡ []) × (frames.reaches ≡ [])) }
    {
        let kept = Shared::with_room(alloc, count)?;
        let reaches = Sparse::with_room(alloc, count)?;
        let guesses = ListGuesses::with_room(alloc, count)?;
        Ok(Frames {
            kept,
            reaches,
            guesses,
        })
    }

    /// Adds one more item, which has no frame.
    pub fn pass(&mut self) -> Result<(), AllocError>
        ensures { OnOk result (AddsFrame self.old self.new None None) }
    {
        self.kept.pass()?;
        self.reaches.add(None)
    }

    /// The number of an item whose frame has these hypotheses, and was made for this count of items up to the last active `$d`,
    /// if one is found.
    fn find_same(&self, hypotheses: &[usize], reach: usize) -> Option<usize>
        ensures { IfSome result (λ number. IsFrameAt self.now hypotheses.now reach number) }
    {
        let number = self
            .guesses
            .guess(self.guesses.place_of_numbers(hypotheses, reach));
        let frame = self.kept.at(number)?;
        let found = self.reaches.at(number)?;
        if found == reach && has_hypotheses(frame, hypotheses) {
            Some(number)
        } else {
            None
        }
    }

    /// The number of an item whose frame is equal to this one, if one is found.
    fn find_equal(&self, frame: &Frame) -> Option<usize>
        ensures { IfSome result (λ number. IsEqualAt self.now frame.now number) }
    {
        let number = self.guesses.guess(
            self.guesses.place_of_pairs(&frame.hypotheses, &frame.pairs),
        );
        let kept = self.kept.at(number)?;
        if are_equal(kept, frame) {
            Some(number)
        } else {
            None
        }
    }

    /// Adds one more item, which has the frame of an earlier one with these hypotheses, made for this count of items up to the
    /// last active `$d`. If none is found, nothing changes, and the answer is `false`.
    pub fn add_same(&mut self, hypotheses: &[usize], reach: usize) -> Result<bool, AllocError>
        ensures { IfOk result (λ found. MatchBool found (AddsSame self.old self.new hypotheses.now reach) (self.new ≡ self.old)) }
    {
        match self.find_same(hypotheses, reach) {
            Some(number) => {
                self.kept.share(number)?;
                self.reaches.add(Some(reach))?;
                Ok(true)
            }
            None => Ok(false),
        }
    }

    /// Keeps a frame equal to this one for one more item: that of an earlier item, if one is found.
    fn keep(&mut self, frame: Frame) -> Result<(), AllocError>
        ensures kept { OnOk result (KeepsEqual (frames_kept self.old) (frames_kept self.new) frame) }
        ensures reaches { self.new.reaches ≡ self.old.reaches }
    {
        if let Some(number) = self.find_equal(&frame) {
            return self.kept.share(number);
        }
        let place = self.guesses.place_of_pairs(&frame.hypotheses, &frame.pairs);
        self.guesses.keep(place, self.kept.count());
        self.kept.add(frame)
    }

    /// Adds one more item, which has a frame equal to this one, made for this count of items up to the last active `$d`.
    pub fn add(&mut self, frame: Frame, reach: usize) -> Result<(), AllocError>
        ensures { OnOk result (AddsEqual self.old self.new frame reach) }
    {
        let place = self.guesses.place_of_numbers(&frame.hypotheses, reach);
        self.guesses.keep(place, self.kept.count());
        self.keep(frame)?;
        self.reaches.add(Some(reach))
    }
}
