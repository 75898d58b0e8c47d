//! Which theorems keep what was checked before, and the runs of the others.

ghost use Rattle.std.specs.Prelude.{◌≡◌, ◌<◌, ◌+◌, ◌^◌, ℕ, true, Some, None, IfOk, OnOk, is_some, length, slice_index_or, slice_set};
ghost use Rattle.mm_proof.specs.{mm_frame.Language.{Base.{BaseView}, Answering.{IsBase}}, mm_verdict.Language.ReadIn.{IsReadIn}};
ghost use Rattle.mm_keep.specs.Code.KeptSession.{AreChecked, IsKeptAt};
ghost use Rattle.mm_keep.specs.Code.Planned.{AddsOne, AreBothRead, AreMarksBy, ArePlanned, AreRecorded, AreRunBy, CanBeCarried, CanCarry, HasItemBothRead, HasItemRead, IsPlanned, IsRunBy, RecordsIf};

use crate::checks::{Checks, KeptCheck};
use mm_frame::Sparse;
use mm_proof::{
    Base, Checker, Files, Marks, Names, Work, labels_are_own, same_view_by, same_view_same_cites,
    same_view_same_verdict,
};
use std::alloc::{AllocError, Global};

/// The sound `$p` of the old base of which item `j` of the new one keeps what was checked: the one with its label and an
/// equal view, if both are sound `$p`.
fn old_with_same_view(
    names: &Names,
    files: &Files,
    old: &Base,
    new: &Base,
    marks: &Marks,
    j: usize,
) -> Option<usize>
    requires item { HasItemBothRead names.now files.now old.now new.now j }
    requires marks { AreMarksBy names.now old.now new.now marks.now }
    ensures { (base copy : BaseView) → AreBothRead names.now files.now old.now new.now base copy → IsPlanned base copy j result }
{
    new.pairs(j)?;
    let i = marks.old(j)?;
    old.pairs(i)?;
    if same_view_by(names, files, old, i, new, j, marks) {
        Some(i)
    } else {
        None
    }
}

/// For each item of the new base the number of the item of the old one of which it keeps what was checked, if it keeps
/// something.
pub fn planned(
    alloc: Global,
    names: &Names,
    files: &Files,
    old: &Base,
    new: &Base,
) -> Result<Sparse, AllocError>
    requires { (base : BaseView) × (copy : BaseView) × AreBothRead names.now files.now old.now new.now base copy }
    ensures { IfOk result (λ plan. (base copy : BaseView) → AreBothRead names.now files.now old.now new.now base copy → ArePlanned base copy plan) }
{
    let marks = Marks::build(alloc, names, old, new)?;
    let count = new.count();
    let mut plan = Sparse::with_room(alloc, count)?;
    for j in 0..count {
        let from = old_with_same_view(names, files, old, new, &marks, j);
        plan.add(from)?;
    }
    Ok(plan)
}

/// What checks read: a base, the files that its items are in, and the names of its symbols.
#[derive(Clone, Copy)]
struct Source<'a> {
    names: &'a Names,
    files: &'a Files,
    base: &'a Base,
}

/// What is kept of the item with this number: what a check of it says, if it is a sound `$p`.
fn run_one(
    alloc: Global,
    source: Source<'_>,
    checker: &mut Checker<'_>,
    j: usize,
    work: &mut Work,
) -> Result<Option<Option<KeptCheck>>, AllocError>
    requires item { HasItemRead source.names.now source.files.now source.base.now j }
    requires base { checker.old ≡ source.base.now }
    requires room { 0 < work.old.room }
    requires steps { work.old.steps + 4294967295 < 2 ^ 64 }
    ensures one { IfOk result (λ one. (view : BaseView) → IsReadIn source.entry.names.now source.entry.files.now source.entry.base.now view
        → IsKeptAt view j one) }
    ensures work { OnOk result ((view : BaseView) → IsReadIn source.entry.names.now source.entry.files.now source.entry.base.now view
        → RecordsIf view None j work.old work.new) }
    ensures base { checker.new ≡ checker.old }
{
    match source.base.pairs(j) {
        None => Ok(None),
        Some(_) => {
            let checked = checker.check(alloc, source.names, source.files, j, work)?;
            Ok(Some(Some(KeptCheck::of(alloc, &checked)?)))
        }
    }
}

/// Adds what a check of the item with this number says, if it is a sound `$p` that keeps nothing. If it keeps something, it
/// gets a free place for that.
fn run_of(
    alloc: Global,
    source: Source<'_>,
    checker: &mut Checker<'_>,
    j: usize,
    from: Option<usize>,
    checked: &mut Checks,
    work: &mut Work,
) -> Result<(), AllocError>
    requires item { HasItemRead source.names.now source.files.now source.base.now j }
    requires base { checker.old ≡ source.base.now }
    requires room { 0 < work.old.room }
    requires steps { work.old.steps + 4294967295 < 2 ^ 64 }
    ensures one { OnOk result (AddsOne checked.old checked.new (λ one. (view : BaseView)
        → IsReadIn source.entry.names.now source.entry.files.now source.entry.base.now view → IsRunBy view from j one)) }
    ensures work { OnOk result ((view : BaseView) → IsReadIn source.entry.names.now source.entry.files.now source.entry.base.now view
        → RecordsIf view from j work.old work.new) }
    ensures base { checker.new ≡ checker.old }
{
    let kept = match from {
        Some(_) => Some(None),
        None => run_one(alloc, source, checker, j, work)?,
    };
    checked.push(kept)
}

/// How many sound `$p` there are among the first items.
fn proof_count(base: &Base, count: usize) -> usize {
    let mut proofs = 0;
    for j in 0..count {
        if base.pairs(j).is_some() {
            proofs += 1;
        }
    }
    proofs
}

/// Runs the proof of each sound `$p` that keeps nothing, by the plan, in order.
pub fn run_rest(
    alloc: Global,
    names: &Names,
    files: &Files,
    base: &Base,
    plan: &Sparse,
) -> Result<(Checks, Work), AllocError>
    requires read { (view : BaseView) × IsReadIn names.now files.now base.now view }
    ensures checked { IfOk result (λ run. (view : BaseView) → IsReadIn names.now files.now base.now view
        → AreRunBy view plan.now run.0 × (length run.0 ≡ length view)) }
    ensures work { IfOk result (λ run. (view : BaseView) → IsReadIn names.now files.now base.now view → AreRecorded view plan.now (length view) run.1) }
{
    let source = Source { names, files, base };
    let count = base.count();
    let mut checked = Checks::with_room(alloc, count, proof_count(base, count))?;
    let mut work = Work::new(alloc, count)?;
    let mut checker = Checker::new(alloc, base);
    for j in 0..count {
        run_of(
            alloc,
            source,
            &mut checker,
            j,
            plan.at(j),
            &mut checked,
            &mut work,
        )?;
    }
    Ok((checked, work))
}

/// Moves what was checked before to the item that keeps it.
fn carry_one(old: &mut Checks, from: Option<usize>, new: &mut Checks, j: usize)
    requires from { (i : ℕ) → from ≡ Some i → is_some (slice_index_or old.old i None) ≡ true }
    requires item { (i : ℕ) → from ≡ Some i → is_some (slice_index_or new.old j None) ≡ true }
    ensures nothing { from ≡ None → (old.new ≡ old.old) × (new.new ≡ new.old) }
    ensures moved { (i : ℕ) → from ≡ Some i → (old.new ≡ slice_set old.old i (slice_index_or new.old j None))
        × (new.new ≡ slice_set new.old j (slice_index_or old.old i None)) }
{
    if let Some(i) = from {
        new.exchange(j, old, i);
    }
}

/// Moves what was checked before to the items that keep it, by the plan. Nothing can fail.
pub fn carry(old: &mut Checks, plan: &Sparse, new: &mut Checks)
    requires { CanBeCarried old.old plan.now new.old }
    ensures { (base copy : BaseView) → CanCarry base copy old.old plan.now new.old → AreChecked copy new.new }
{
    labels_are_own(); // A law: no two sound items have the same label.
    same_view_same_verdict(); // A law: equal views have equal verdicts.
    same_view_same_cites(); // A law: with equal views the same words cite.
    for j in 0..new.count() {
        carry_one(&mut *old, plan.at(j), &mut *new, j);
    }
}
