//! A run of the steps of a proof.

ghost use Rattle.std.specs.{Prelude.{◌≡◌, ◌+◌, ◌-◌, ◌↔◌, ◌∷◌, [], ℕ, List, All, IfOk, OnOk, IfNone, IsTrue, MatchOption, IfSome, length, map, slice_index_or}, List.{AllZip}};
ghost use Rattle.mm_machine.specs.Language.{Frame.{Symbol as Meaning, Frame, Setting, AreSamePairs}, Typing.{HasFrames}, Expansion.{Step, NotKnown}, Faults.{IsLowest}, Machine.{State, Turns}};
ghost use Rattle.mm_machine.specs.Language.{Lasting.{HoldsLasting, IsCited, KeepsLasting, cited_frame, lasting_of}, CodeLists.{meant_pairs}};
ghost use Rattle.mm_machine.specs.Language.NamedSteps.{AreDoneTo, AreSavedBefore, AreUses, AreUsesWithin, IsOutcomeWithin, IsSavedWithin, IsUseWithin, MeansUse, RunSays, StopsAt, actions_mean, meant};
ghost use Rattle.mm_machine.specs.{Language.NamedSteps.{saves_by}, Code.{PairClause.{IsPairRoom}, Tasks.{HasState, IsTaskWithin, MeansTask, saves_of}, MachineState.{state_of, AreRanges}}};

use crate::ProofNumber;
use crate::active::Active;
use crate::kept::{Kept, has_at};
use crate::machine::Machine;
use crate::named::{Cited, Use};
use crate::step::{Action, ProofStep};
use crate::symbol::Symbol;
use std::alloc::{AllocError, Global};

/// What the machine does at a known step.
#[derive(Clone, Copy)]
pub enum Task {
    /// It pushes the lasting expression with this number.
    Push(usize),
    /// It cites the assertion with this number.
    Cite(usize),
    /// It pushes what was saved under this number.
    Again(usize),
    /// It saves the entry on top.
    Keep,
}

/// What a run comes to.
#[derive(Clone, Copy)]
pub enum RunOutcome {
    /// The one entry at the end is the statement.
    Proved,
    /// The step with this number, from 0, has this fault, one of P07 to P13.
    Fault(ProofNumber, usize),
    /// The step with this number, from 0, is the first that is not known.
    Unknown(usize),
    /// There is not one entry at the end.
    NotOne,
    /// The one entry at the end is not the statement.
    Other,
}

/// What an entry of a proof's table is used for; nothing if there is no such entry.
fn use_of(uses: &[Use], k: usize) -> Use
    ensures means { (expressions : List (List Meaning)) (frames : List Frame) (place : Setting) (names : List Step)
        → AllZip (MeansUse expressions frames place) uses.now names
        → MeansUse expressions frames place result (slice_index_or names k NotKnown) }
    ensures within { (hypotheses assertions : ℕ) → All (IsUseWithin hypotheses assertions) uses.now → IsUseWithin hypotheses assertions result }
{
    if k < uses.len() {
        uses[k]
    } else {
        Use::Nothing
    }
}

/// What the machine does at a step with this action; nothing if the step is not known.
fn task_of(uses: &[Use], action: Action) -> Option<Task>
    ensures means { (expressions : List (List Meaning)) (frames : List Frame) (place : Setting) (names : List Step)
        → AllZip (MeansUse expressions frames place) uses.now names
        → MatchOption result (meant names action ≡ NotKnown) (λ task. MeansTask expressions frames place task (meant names action)) }
    ensures within { (lasting assertions saves : ℕ) → All (IsUseWithin lasting assertions) uses.now → IsSavedWithin saves action
        → IfSome result (IsTaskWithin lasting assertions saves) }
    ensures saves { IfSome result (λ task. saves_of task ≡ saves_by action) }
{
    match action {
        Action::Label(k) => match use_of(uses, k) {
            Use::Lasting(n) => Some(Task::Push(n)),
            Use::Assertion(n) => Some(Task::Cite(n)),
            Use::Nothing => None,
        },
        Action::Saved(n) => Some(Task::Again(n)),
        Action::Save => Some(Task::Keep),
        Action::Unknown => None,
    }
}

/// Does one task. Answers the number of its fault, if it has one.
fn do_task<'a, S: Kept>(
    alloc: Global,
    machine: &mut Machine<S>,
    cited: &[Cited<'a, S::Listed>],
    active: &Active<'a, S>,
    task: Task,
) -> Result<Option<ProofNumber>, AllocError>
    requires whole { AreRanges S.means S.key_of machine.old }
    requires pairs { IsPairRoom S.means S.key_of (meant_pairs S.Listed.means active.now.pairs.now) machine.old.pairs }
    requires cited { All (IsCited S.Listed.means (lasting_of S.means machine.old)) cited.now }
    requires within { IsTaskWithin (length machine.old.lasting.patterns.items) (length cited.now) (length machine.old.saved.items) task }
    ensures whole { OnOk result (AreRanges S.means S.key_of machine.new) }
    ensures lasting { OnOk result (KeepsLasting S.means machine.old machine.new) }
    ensures pairs { OnOk result (IsPairRoom S.means S.key_of (meant_pairs S.Listed.means active.now.pairs.now) machine.new.pairs) }
    ensures turns { IfOk result (λ found. (place : Setting) (step : Step) (before : State) → HasFrames place
        → AreSamePairs (meant_pairs S.Listed.means active.now.pairs.now) place.active
        → HasState S.means machine.old before
        → MeansTask (map (λ h. h.expression) (lasting_of S.means machine.old))
        (map (cited_frame S.Listed.means (lasting_of S.means machine.old)) cited.now) place task step
        → MatchOption found ((after : State) × HasState S.means machine.new after × Turns place step before after)
        (IsLowest place step before.stack)) }
    ensures saves { IfOk result (λ found. IfNone found (length machine.new.saved.items ≡ length machine.old.saved.items + saves_of task)) }
{
    match task {
        Task::Push(n) => {
            machine.push_lasting(n)?;
            Ok(None)
        }
        Task::Cite(n) => {
            let found = machine.cite(alloc, &cited[n], &*active)?;
            Ok(found)
        }
        Task::Again(n) => {
            machine.push_saved(n)?;
            Ok(None)
        }
        Task::Keep => {
            if machine.save()? {
                Ok(None)
            } else {
                Ok(Some(ProofNumber::P13))
            }
        }
    }
}

/// Whether the one entry is an expression.
fn is_top<S: Kept>(machine: &Machine<S>, expression: &[S::Listed]) -> bool
    requires whole { AreRanges S.means S.key_of machine.now }
    requires one { length machine.now.stack.items ≡ 1 }
    ensures { IsTrue result ↔ ((state_of S.means machine.now).stack ≡ map S.Listed.means expression.now ∷ []) }
{
    let entry = machine.stack[0];
    if entry.end - entry.start != expression.len() {
        return false;
    }
    has_at(&machine.symbols, entry.start, expression)
}

/// Runs steps up to the first that is at fault or not known, and answers what they come to. If there is none, all are done,
/// and it answers `None`.
fn run_through<'a, S: Kept>(
    alloc: Global,
    machine: &mut Machine<S>,
    cited: &[Cited<'a, S::Listed>],
    uses: &[Use],
    active: &Active<'a, S>,
    steps: &[ProofStep],
) -> Result<Option<RunOutcome>, AllocError>
    requires holds { HoldsLasting S.means S.key_of machine.old }
    requires cited { All (IsCited S.Listed.means (lasting_of S.means machine.old)) cited.now }
    requires within { AreUsesWithin machine.old cited.now uses.now }
    requires saved { AreSavedBefore steps.now }
    ensures whole { OnOk result (AreRanges S.means S.key_of machine.new) }
    ensures lasting { OnOk result (KeepsLasting S.means machine.old machine.new) }
    ensures within { IfOk result (λ found. IfSome found (IsOutcomeWithin (length steps.now))) }
    ensures says { IfOk result (λ found. (place : Setting) (names : List Step) → HasFrames place
        → AreSamePairs (meant_pairs S.Listed.means active.now.pairs.now) place.active
        → AreUses S.means S.Listed.means machine.old cited.now uses.now place names
        → MatchOption found (AreDoneTo place (actions_mean names steps.now) (state_of S.means machine.new).stack)
        (StopsAt place (actions_mean names steps.now))) }
{
    machine.clear(alloc)?;
    for place in 0..steps.len() {
        let Some(task) = task_of(uses, steps[place].action) else {
            return Ok(Some(RunOutcome::Unknown(place)));
        };
        if let Some(number) = do_task(alloc, &mut *machine, cited, &*active, task)? {
            return Ok(Some(RunOutcome::Fault(number, place)));
        }
    }
    Ok(None)
}

/// Runs the steps of a proof of a statement, up to the first that is at fault or not known. The labels of the proof have these
/// uses. Of what the machine has from other runs, its lasting expressions alone count, and they stay.
///
/// Each number is in range, and what is pushed again was saved before. It takes
/// time near linear in the symbols of the entries that are made and compared, and memory for these. The only error is out of
/// memory; after it the lasting expressions have to be forgotten ([`Machine::forget`]).
pub fn run<'a, S: Kept>(
    alloc: Global,
    machine: &mut Machine<S>,
    cited: &[Cited<'a, S::Listed>],
    uses: &[Use],
    active: &Active<'a, S>,
    steps: &[ProofStep],
    statement: &[S::Listed],
) -> Result<RunOutcome, AllocError>
    requires holds { HoldsLasting S.means S.key_of machine.old }
    requires cited { All (IsCited S.Listed.means (lasting_of S.means machine.old)) cited.now }
    requires within { AreUsesWithin machine.old cited.now uses.now }
    requires saved { AreSavedBefore steps.now }
    ensures holds { OnOk result (HoldsLasting S.means S.key_of machine.new) }
    ensures lasting { OnOk result (KeepsLasting S.means machine.old machine.new) }
    ensures within { IfOk result (IsOutcomeWithin (length steps.now)) }
    ensures says { IfOk result (λ outcome. (place : Setting) (names : List Step) → HasFrames place
        → AreSamePairs (meant_pairs S.Listed.means active.now.pairs.now) place.active
        → AreUses S.means S.Listed.means machine.old cited.now uses.now place names → RunSays place (actions_mean names steps.now)
        (map S.Listed.means statement.now) outcome) }
{
    if let Some(outcome) = run_through(alloc, &mut *machine, cited, uses, &*active, steps)? {
        return Ok(outcome);
    }
    if machine.stack.len() != 1 {
        return Ok(RunOutcome::NotOne);
    }
    if is_top(&*machine, statement) {
        Ok(RunOutcome::Proved)
    } else {
        Ok(RunOutcome::Other)
    }
}
