//! What a session goes on with: the base of its files as they are, and what is checked of it.

ghost use Rattle.std.specs.Prelude.{◌≡◌, ◌↔◌, None, Ok, IfOk, IfErr, IsErrOf};
ghost use Rattle.mm_proof.specs.{mm_store.{declared.error.StoreError.TheVariants.{Memory, NoTop}, Language.{Answers.{IsExpansionError}, FilesView.{files_in, number_of}}}, mm_frame.Language.Base.{BaseView}};
ghost use Rattle.mm_proof.specs.{mm_frame.Language.Older.{HasOlder, IsOlder}, mm_machine.Language.Names.{AreDistinct, Begins}, mm_verdict.Language.ReadIn.{IsReadIn}};
ghost use Rattle.mm_keep.specs.Code.{Next.{KeepsOrRuns, HasTop, IsBuilt, IsFirst, IsNextBase, RunsAll}, Planned.{AreBothRead}};

use crate::checks::Checks;
use crate::planning::{planned, run_rest};
use mm_frame::Sparse;
use mm_proof::{Base, Files, Names, StoreError, Work};
use std::alloc::{AllocError, Global};

/// What each item of a base keeps of what was checked before, what is checked of the others, and the record of these runs.
#[derive(Drop)]
pub struct Ran {
    pub plan: Sparse,
    pub checked: Checks,
    pub work: Work,
}

/// What a session goes on with after a change of its files: the base of these, and what is run of it.
#[derive(Drop)]
pub struct Next {
    pub base: Base,
    pub ran: Ran,
}

/// Why there is no base of files that have the top file.
fn alloc_error(error: StoreError) -> AllocError
    requires { error ≡ Memory }
{
    match error {
        StoreError::Memory => AllocError,
        _ => unreachable!(),
    }
}

/// The base of files that have the top file, made with the help of an older base.
fn base_of(
    alloc: Global,
    names: &mut Names,
    files: &Files,
    top: &[u8],
    old: &Base,
) -> Result<Base, AllocError>
    requires top { HasTop files.now top.now }
    requires old { HasOlder names.old files.now old.now }
    ensures base { IfOk result (λ built. (base : BaseView) × IsBuilt names.new files.now top.now built base) }
    ensures grows { Begins names.old names.new }
{
    match Base::rebuild(alloc, names, files, top, old) {
        Ok(base) => Ok(base),
        Err(error) => Err(alloc_error(error)),
    }
}

/// What a session goes on with, if there was memory for the runs of its base.
fn with_runs(base: Base, ran: Result<Ran, AllocError>) -> Result<Next, AllocError>
    ensures { IfOk result (λ next. (next.base ≡ base) × (ran ≡ Ok next.ran)) }
{
    match ran {
        Ok(ran) => Ok(Next { base, ran }),
        Err(error) => {
            drop(base);
            Err(error)
        }
    }
}

/// What each item of a new base keeps, and the runs of the others.
fn keep_and_run(
    alloc: Global,
    names: &Names,
    files: &Files,
    old: &Base,
    base: &Base,
) -> Result<Ran, AllocError>
    requires { (view : BaseView) × (copy : BaseView) × AreBothRead names.now files.now old.now base.now view copy }
    ensures { IfOk result (λ ran. (view copy : BaseView) → AreBothRead names.now files.now old.now base.now view copy → KeepsOrRuns view copy ran) }
{
    let plan = planned(alloc, names, files, old, base)?;
    let (checked, work) = run_rest(alloc, names, files, base, &plan)?;
    Ok(Ran {
        plan,
        checked,
        work,
    })
}

/// What a session goes on with after a change of its files.
pub fn next_of(
    alloc: Global,
    names: &mut Names,
    files: &Files,
    top: &[u8],
    old: &Base,
) -> Result<Next, AllocError>
    requires top { HasTop files.now top.now }
    requires old { HasOlder names.old files.now old.now }
    ensures grows { Begins names.old names.new }
    ensures distinct { AreDistinct names.new }
    ensures next { IfOk result (λ next. (view : BaseView) → IsOlder names.old files.now old.now view → IsNextBase names.new files.now top.now view next) }
{
    let built = base_of(alloc, &mut *names, files, top, old);
    // No name is there twice.
    let _count = names.count();
    let base = built?;
    let ran = keep_and_run(alloc, names, files, old, &base);
    with_runs(base, ran)
}

/// The runs of all theorems of a first base.
fn run_all(alloc: Global, names: &Names, files: &Files, base: &Base) -> Result<Ran, AllocError>
    requires { (view : BaseView) × IsReadIn names.now files.now base.now view }
    ensures { IfOk result (λ ran. (view : BaseView) → IsReadIn names.now files.now base.now view → RunsAll view ran) }
{
    let plan = Sparse::with_room(alloc, 0)?;
    let (checked, work) = run_rest(alloc, names, files, base, &plan)?;
    Ok(Ran {
        plan,
        checked,
        work,
    })
}

/// What a session begins with: each item keeps nothing.
pub fn first_of(
    alloc: Global,
    names: &mut Names,
    files: &Files,
    top: &[u8],
) -> Result<Next, StoreError>
    ensures first { IfOk result (IsFirst names.new files.now top.now) }
    ensures no_top { IsErrOf result NoTop ↔ (number_of (files_in files.now) top.now ≡ None) }
    ensures told { IfErr result IsExpansionError }
{
    let base = Base::build(alloc, &mut *names, files, top)?;
    let ran = run_all(alloc, names, files, &base);
    Ok(with_runs(base, ran)?)
}
