//! The record of runs, and what a check of a proof says.

ghost use Rattle.std.specs.Prelude.{◌≡◌, ◌<◌, ◌+◌, ◌++◌, ◌∷◌, ◌^◌, [], IfOk, OnOk, OnErr};

use mm_machine::Verdict;
use std::alloc::{AllocError, Global};
use std::marker::Model;

/// Which proofs were run, in order, and how many steps were done.
#[derive(Drop)]
pub struct Work {
    runs: Vec<usize>,
    steps: u64,
    room: usize,
}

impl Model for Work {
    ghost use Rattle.mm_verdict.specs.Language.Work.{Recorded};

    ghost Value = { Recorded };

    ghost use Rattle.mm_verdict.specs.Code.KeptWork.{recorded};

    ghost view = { recorded };
}

impl Work {
    /// Nothing was run yet; there is room for this many runs.
    pub fn new(alloc: Global, room: usize) -> Result<Work, AllocError>
        ensures { IfOk result (λ work. work ≡ record { runs = []; steps = 0; room = room }) }
    {
        Ok(Work {
            runs: Vec::with_capacity(alloc, room)?,
            steps: 0,
            room,
        })
    }

    /// Records the run of the proof of the item with this number, in which this many steps were done. Out of memory
    /// records nothing; it cannot come if the room was taken at the beginning.
    pub(crate) fn record(&mut self, i: usize, steps: u64) -> Result<(), AllocError>
        requires room { 0 < self.old.room }
        requires steps { self.old.steps + steps < 2 ^ 64 }
        ensures runs { OnOk result (self.new.runs ≡ self.old.runs ++ i ∷ []) }
        ensures steps { OnOk result (self.new.steps ≡ self.old.steps + steps) }
        ensures room { OnOk result (self.new.room + 1 ≡ self.old.room) }
        ensures memory { OnErr result (self.new ≡ self.old) }
    {
        self.runs.push(i)?;
        self.steps += steps;
        self.room -= 1;
        Ok(())
    }

    /// The numbers of the items whose proofs were run, in the order of the runs.
    pub fn runs(&self) -> &[usize]
        ensures { result.now ≡ self.now.runs }
    {
        &self.runs
    }

    /// How many steps were done in all runs, the ones at fault included. For a proof with a decoding fault there are none.
    /// For a proof with unknown steps there are those before the first one.
    pub fn steps(&self) -> u64
        ensures { result ≡ self.now.steps }
    {
        self.steps
    }

    /// How many more runs can be recorded.
    pub fn room(&self) -> usize
        ensures { result ≡ self.now.room }
    {
        self.room
    }
}

/// What a check of a proof says: its verdict, and which of its words cite. Only a check makes one.
#[derive(Drop)]
pub struct Checked {
    verdict: Verdict,
    cites: Vec<usize>,
}

impl Model for Checked {
    ghost use Rattle.mm_verdict.specs.Language.Work.{Judgement};

    ghost Value = { Judgement };

    ghost use Rattle.mm_verdict.specs.Code.KeptWork.{judgement};

    ghost view = { judgement };
}

impl Checked {
    /// What a check found.
    pub(crate) fn new(verdict: Verdict, cites: Vec<usize>) -> Checked
        ensures { result ≡ record { verdict = verdict; cites = cites.items } }
    {
        Checked { verdict, cites }
    }

    /// The verdict on the proof.
    pub fn verdict(&self) -> Verdict
        ensures { result ≡ self.now.verdict }
    {
        self.verdict
    }

    /// The numbers of the proof's words that cite, rising: for each assertion that a decoded step names, the first word
    /// that is its label. The words of a proof are counted from 0.
    pub fn cites(&self) -> &[usize]
        ensures { result.now ≡ self.now.cites }
    {
        &self.cites
    }
}
