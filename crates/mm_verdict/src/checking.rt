//! The check of a proof.

ghost use Rattle.std.specs.Prelude.{◌≡◌, ◌≤◌, List, IfOk, OnOk, length};
ghost use Rattle.mm_frame.specs.Language.Base.{BaseView};
ghost use Rattle.mm_verdict.specs.{Language.{Decoding.{word_spot}, DecodedSteps.{decoded_steps}, Checking.{CanCheck, IsCheck}}, Code.DecodedProof.{IsDecoded, IsJudgedProof, IsRun, OfDecoded}};
ghost use Rattle.mm_verdict.specs.Code.{Judged.{HasProof, OfProof, done_by}, NamedItems.{AreKnownOf}};
ghost use Rattle.mm_machine.specs.Language.{Verdict.{IsVerdictOnSteps}, Frame.{Symbol, Setting}, NamedSteps.{IsOutcomeWithin, RunSays}};
ghost use Rattle.mm_verdict.specs.declared.undecoded.Undecoded.TheVariants as errors;

use crate::assertion::{active, expression};
use crate::checker::Checker;
use crate::citing::cites_used;
use crate::decoding::Decoding;
use crate::decoding_laws::{decodes_short, decodes_surely, mandatory_are_active};
use crate::known::Known;
use crate::reading::{DecodedProof, decode};
use crate::undecoded::Undecoded;
use crate::work::{Checked, Work};
use mm_frame::{Base, Files, Names, PlainWords, Resolved, places_have_frames, words_of_proof};
use mm_machine::{
    Active, ProofFault, ProofNumber, RunOutcome, Spot, Verdict, numbers_keep_places,
    numbers_say_the_same, run,
};
use std::alloc::{AllocError, Global};
use std::mem;

/// The fault that decoding reports; out of memory stays what it is.
fn decoding_fault(error: Undecoded) -> Result<ProofFault, AllocError>
    ensures { IfOk result (λ fault. error ≡ errors.Fault fault) }
{
    match error {
        Undecoded::Fault(fault) => Ok(fault),
        Undecoded::Memory => Err(AllocError),
    }
}

/// The spot after the words of a proof.
fn closing_spot(words: PlainWords) -> Spot
    requires { length words ≤ 4294967295 }
    ensures { result ≡ word_spot (length words.entry) }
{
    let mut words = words;
    let mut word = 0;
    while words.next_word().is_some() {
        word += 1;
    }
    Spot { word, letter: 0 }
}

/// The verdict on a proof with these words, by what the run of its steps came to.
pub fn verdict(outcome: RunOutcome, decoding: &Decoding, words: PlainWords) -> Verdict
    requires within { IsOutcomeWithin (length decoding.now.steps.items) outcome }
    requires few { length words ≤ 4294967295 }
    ensures { (view : BaseView) (place : Setting) (statement : List Symbol)
        → RunSays place (decoded_steps view decoding.now words.entry).steps statement outcome
        → IsVerdictOnSteps place statement (decoded_steps view decoding.now words.entry) result }
{
    match outcome {
        RunOutcome::Proved => Verdict::Proved,
        RunOutcome::Fault(number, n) => Verdict::Wrong(number, decoding.steps[n].spot),
        RunOutcome::Unknown(n) => Verdict::Incomplete(decoding.steps[n].spot),
        RunOutcome::NotOne => Verdict::Wrong(ProofNumber::P14, closing_spot(words)),
        RunOutcome::Other => Verdict::Wrong(ProofNumber::P15, closing_spot(words)),
    }
}

/// How many of this many steps are done in a run that came to this.
fn steps_done(outcome: RunOutcome, steps: usize) -> usize
    requires { IsOutcomeWithin steps outcome }
    ensures value { result ≡ done_by steps outcome }
    ensures within { result ≤ steps }
{
    match outcome {
        RunOutcome::Proved | RunOutcome::NotOne | RunOutcome::Other => steps,
        RunOutcome::Fault(_, n) => n + 1,
        RunOutcome::Unknown(n) => n,
    }
}

/// Runs the steps of a proof.
fn run_steps<'b>(
    alloc: Global,
    known: &mut Known<'b>,
    proof: DecodedProof<'b, '_>,
) -> Result<RunOutcome, AllocError>
    requires decoded { IsDecoded proof }
    requires known { AreKnownOf proof.base.now known.old }
    ensures { IfOk result (λ outcome. IsRun proof.entry outcome known.new) }
{
    places_have_frames(); // A law: each label of an assertion has a typed frame.
    decodes_surely(); // A law: what decoding makes sure of.
    mandatory_are_active(); // A law: mandatory hypotheses are active.
    numbers_keep_places(); // A law: assertions are typed by numbers, too.
    numbers_say_the_same(); // A law: what a run says by numbers, it says by names.
    let labels: &[Resolved] = &proof.decoding.labels;
    known.name_all(alloc, proof.base, proof.i, labels)?;
    let active = Active::new(active(proof.base, proof.i));
    let outcome = run(
        alloc,
        &mut known.machine,
        &known.cited,
        &known.uses,
        &active,
        &proof.decoding.steps,
        expression(proof.base, proof.i),
    )?;
    Ok(outcome)
}

/// What a check says of a proof that decodes, and how many steps are done.
fn judge_steps<'b>(
    alloc: Global,
    known: &mut Known<'b>,
    proof: DecodedProof<'b, '_>,
) -> Result<(Checked, u64), AllocError>
    requires decoded { IsDecoded proof }
    requires known { AreKnownOf proof.base.now known.old }
    ensures says { IfOk result (λ judged. OfDecoded proof.entry (λ view. IsJudgedProof view proof.entry.i judged)) }
    ensures few { IfOk result (λ judged. judged.1 ≤ 4294967295) }
    ensures known { OnOk result (AreKnownOf proof.entry.base.now known.new) }
{
    decodes_short(); // A law: there are no more steps than bytes.
    let cites = cites_used(alloc, &mut known.marks, proof)?;
    let outcome = run_steps(alloc, known, proof)?;
    let done = steps_done(outcome, proof.decoding.steps.len());
    let verdict = verdict(outcome, proof.decoding, proof.words.again());
    Ok((Checked::new(verdict, cites), done as u64))
}

/// What a check says of a proof, and how many steps are done.
fn judge<'b, 'a>(
    alloc: Global,
    room: &mut Decoding,
    known: &mut Known<'b>,
    base: &'b Base,
    i: usize,
    proof: &'a PlainWords<'a>,
) -> Result<(Checked, u64), AllocError>
    requires proof { HasProof base.now i proof.now }
    requires known { AreKnownOf base.now known.old }
    ensures says { IfOk result (λ judged. OfProof base.now i proof.now (λ view. IsJudgedProof view i judged)) }
    ensures few { IfOk result (λ judged. judged.1 ≤ 4294967295) }
    ensures known { OnOk result (AreKnownOf base.now known.new) }
{
    let taken = mem::replace(room, Decoding::new(alloc));
    match decode(base, i, proof, taken) {
        Ok(decoding) => {
            let decoded = DecodedProof {
                base,
                i,
                words: proof,
                decoding: &decoding,
            };
            let judged = judge_steps(alloc, &mut *known, decoded);
            drop(mem::replace(room, decoding));
            judged
        }
        Err(error) => {
            let fault = decoding_fault(error)?;
            let verdict = Verdict::Wrong(fault.number, fault.spot);
            Ok((Checked::new(verdict, Vec::new(alloc)), 0))
        }
    }
}

/// Checks the proof of the item with the number `i`, a sound `$p` of a base whose items can be read in these files, and
/// records the run. The symbols of the base are read by the names that it was built over, or by any that begin with
/// these.
///
/// A run has at most 4,294,967,295 steps. It takes time near linear in the symbols of the expressions that its steps
/// make and compare, and memory for the entries of the stack and for what is saved. It also loads the expressions that the
/// proof names, and makes tables with a place for each name and for each item before `i`; a [`Checker`] does so once for
/// many checks. After out of memory nothing is recorded.
pub fn check(
    alloc: Global,
    names: &Names,
    files: &Files,
    base: &Base,
    i: usize,
    work: &mut Work,
) -> Result<Checked, AllocError>
    requires { CanCheck names.now files.now base.now i work.old }
    ensures { IsCheck names.now files.now base.now i work.old result work.new }
{
    let mut checker = Checker::new(alloc, base);
    checker.check(alloc, names, files, i, work)
}

impl Checker<'_> {
    /// Checks the proof of an item of the base, as the function `check` does. The expressions that it loads are there for the
    /// next check. After out of memory none is.
    pub fn check(
        &mut self,
        alloc: Global,
        names: &Names,
        files: &Files,
        i: usize,
        work: &mut Work,
    ) -> Result<Checked, AllocError>
        requires { CanCheck names.now files.now self.old i work.old }
        ensures check { IsCheck names.now files.now self.old i work.old result work.new }
        ensures base { self.new ≡ self.old }
    {
        let base = self.base();
        let proof = words_of_proof(files, base.item(i));
        self.widen(names.count())?;
        let (checked, done) = self.judge(alloc, i, &proof)?;
        work.record(i, done)?;
        Ok(checked)
    }

    /// What a check says of a proof, and how many steps are done. What it loads is there then; after out of memory nothing is.
    fn judge(
        &mut self,
        alloc: Global,
        i: usize,
        proof: &PlainWords,
    ) -> Result<(Checked, u64), AllocError>
        requires { HasProof self.old i proof.now }
        ensures base { self.new ≡ self.old }
        ensures says { IfOk result (λ judged. OfProof self.old i proof.now (λ view. IsJudgedProof view i judged)) }
        ensures few { IfOk result (λ judged. judged.1 ≤ 4294967295) }
    {
        let base = self.base();
        let judged = judge(alloc, &mut self.room, &mut self.known, base, i, proof);
        if judged.is_err() {
            self.known.forget();
        }
        judged
    }
}
