//! A session: files whose items are verified, and stay verified from edit to edit.

ghost use Rattle.std.specs.{Prelude.{◌≡◌, ◌≤◌, ◌↔◌, ℕ, List, Ok, Err, None, IfOk, IfErr, OnOk, OnErr, IsErrOf, map}, Option.{option_map}};
ghost use Rattle.mm_proof.specs.mm_store.{declared.{edit.EditError.{EditError, TheVariants.{Memory, NoFile, NoPiece}}, error.StoreError.TheVariants.{NoTop}}, Language.Answers.{IsExpansionError}};
ghost use Rattle.mm_proof.specs.mm_store.Language.{Batches.{IsBatchOf}, Edits.{IsEditOf, NamesNoMember}, FileFacts.{parked_in}, FilesView.{FilesView, files_in, file_number, number_of, plain}};
ghost use Rattle.mm_proof.specs.mm_text.Language.Asked.{asked, edited_name};
ghost use Rattle.mm_keep.specs.{Code.{Changing.{CanTake, HasKept, HasRun, HasTaking, WereKept}, Next.{IsFirst}}, Language.Refusals.{IsRefusal, IsBatchRefusal}};
ghost use Rattle.mm_keep.specs.Language.Sessions.{IsBegun, IsChanged, IsCount, IsLabelOfItem};
ghost use Rattle.mm_proof.specs.mm_store.declared.batch.BatchError.TheVariants as batch;

use crate::checks::Checks;
use crate::keeping::{Next, Ran, first_of, next_of};
use crate::planning::carry;
use crate::unbegun::Unbegun;
use mm_proof::{
    Base, BatchError, Edit, EditError, Files, Names, StoreError, Undos, Work,
    files_have_one_database, items_are_located, items_stand,
};
use std::alloc::{AllocError, Global};
use std::marker::Model;
use std::slice;

/// So many names that are gone cost an edit less than a millisecond.
const FEW_NAMES: usize = 16_384;

/// Files that are verified from a top file on, and stay verified from edit to edit: an edit runs the theorems that were not
/// there before with the same label and the same view, and no others.
///
/// The view of a theorem is all of the database that the verdict on its proof depends on: the words of the proof, the
/// expression, the mandatory hypotheses, the active pairs, and what each label that the proof names means there. What a
/// session answers depends on its files and the name of the top file alone.
#[derive(Drop)]
pub struct Session {
    pub(crate) files: Files,
    pub(crate) top: Vec<u8>,
    pub(crate) names: Names,
    /// How many names there were when the files were last read over new ones.
    pub(crate) fresh: usize,
    pub(crate) base: Base,
    /// For the number of each item what the check of its proof said; nothing if it is no sound `$p`.
    pub(crate) checked: Checks,
}

impl Model for Session {
    ghost use Rattle.std.specs.Coded.{codes};
    ghost use Rattle.mm_keep.specs.Language.Sessions.{SessionView};
    ghost use Rattle.mm_proof.specs.mm_store.contracts.files.Files as store;

    ghost Value = { SessionView };

    ghost coded = { Prim.hlevel (codes, store.the_row.coded) };

    ghost use Rattle.mm_keep.specs.Code.KeptSession.{session_view, IsSessionKept};

    ghost view = { session_view };

    ghost invariant = { IsSessionKept };
}

/// The reason of a refused batch of one edit.
fn reason(error: BatchError) -> EditError
    ensures refused { (n : ℕ) (inner : EditError) → error ≡ batch.Edit n inner → result ≡ inner }
    ensures memory { error ≡ batch.Memory → result ≡ Memory }
{
    match error {
        BatchError::Edit(_, error) => error,
        BatchError::Memory => EditError::from(AllocError),
    }
}

/// A copy of the name of the top file, and what a session begins with.
fn first_with_top(
    alloc: Global,
    names: &mut Names,
    files: &Files,
    top: &[u8],
) -> Result<(Vec<u8>, Next), StoreError>
    ensures top { IfOk result (λ begun. begun.0.items ≡ top.now) }
    ensures first { IfOk result (λ begun. IsFirst names.new files.now top.now begun.1) }
    ensures no_top { IsErrOf result NoTop ↔ (number_of (files_in files.now) top.now ≡ None) }
    ensures told { IfErr result IsExpansionError }
{
    let next = first_of(alloc, names, files, top)?;
    match Vec::from_slice(alloc, top) {
        Ok(top) => Ok((top, next)),
        Err(error) => {
            drop(next);
            Err(StoreError::from(error))
        }
    }
}

/// Puts what a session goes on with in the place of what it had, and drops the old pieces of the edits.
fn take_next(
    files: &mut Files,
    base: &mut Base,
    checked: &mut Checks,
    next: Next,
    undos: Undos,
) -> Work
    requires { HasTaking files.old undos checked.old next }
    ensures kept { (before : FilesView) (top : List ℕ) (names : List (List ℕ)) → CanTake before files.old undos top names checked.old next
        → HasKept files.new top names base.new checked.new }
    ensures runs { (before : FilesView) (top : List ℕ) (names : List (List ℕ)) → CanTake before files.old undos top names checked.old next
        → HasRun before files.new top result }
    ensures plain { plain files.new ≡ plain files.old }
{
    items_stand(); // A law: each item is where it says.
    let Next { base: new, ran } = next;
    let Ran {
        plan,
        checked: mut ran,
        work,
    } = ran;
    carry(&mut *checked, &plan, &mut ran);
    *base = new;
    *checked = ran;
    files.settle_all(undos);
    work
}

/// Goes on with files that were edited, or undoes the edits.
fn go_on(
    files: &mut Files,
    names: &mut Names,
    top: &[u8],
    base: &mut Base,
    checked: &mut Checks,
    undos: Undos,
) -> Result<Work, AllocError>
    requires { (before : FilesView) × WereKept before files.old undos top.now names.old base.old checked.old }
    ensures kept { (before : FilesView) → WereKept before files.old undos top.now names.old base.old checked.old
        → HasKept files.new top.now names.new base.new checked.new }
    ensures runs { IfOk result (λ work. (before : FilesView) → WereKept before files.old undos top.now names.old base.old checked.old
        → HasRun before files.new top.now work) }
    ensures plain { OnOk result (plain files.new ≡ plain files.old) }
    ensures undone { OnErr result ((before : FilesView) → WereKept before files.old undos top.now names.old base.old checked.old → files.new ≡ before) }
{
    let alloc = checked.allocator();
    match next_of(alloc, names, files, top, base) {
        Ok(next) => Ok(take_next(files, base, checked, next, undos)),
        Err(error) => {
            files.undo_all(undos);
            Err(error)
        }
    }
}

/// Does edits, and goes on with the edited files; or does nothing.
fn change(
    files: &mut Files,
    names: &mut Names,
    top: &[u8],
    base: &mut Base,
    checked: &mut Checks,
    edits: &[Edit<'_>],
) -> Result<Work, BatchError>
    requires { HasKept files.old top.now names.old base.old checked.old }
    ensures kept { HasKept files.new top.now names.new base.new checked.new }
    ensures files { OnOk result (IsBatchOf (map asked edits.now) (plain files.old) (plain files.new)) }
    ensures runs { IfOk result (HasRun files.old files.new top.now) }
    ensures refused { IfErr result (IsBatchRefusal (map asked edits.now) (plain files.old)) }
    ensures unchanged { OnErr result (files.new ≡ files.old) }
{
    mm_proof::edits_keep_files(); // A law: an edit keeps the names of the files and their order.
    match files.edit_all(edits) {
        Ok(undos) => match go_on(files, names, top, base, checked, undos) {
            Ok(work) => Ok(work),
            Err(error) => Err(BatchError::from(error)),
        },
        Err(error) => Err(error),
    }
}

impl Session {
    /// Begins a session over these files, from the file of the name `top` on: it runs the proof of each sound `$p`, in
    /// order, and answers with the record of these runs.
    ///
    /// If no file has the name `top`, or memory runs out, the files are returned as they were.
    pub fn begin(alloc: Global, files: Files, top: &[u8]) -> Result<(Session, Work), Unbegun>
        requires { parked_in files ≡ 0 }
        ensures files { IfOk result (λ begun. begun.0.files ≡ plain files) }
        ensures top { IfOk result (λ begun. begun.0.top ≡ top.now) }
        ensures runs { IfOk result (λ begun. IsBegun begun.0 begun.1) }
        ensures back { IfErr result (λ unbegun. unbegun.files ≡ files) }
        ensures no_top { IfErr result (λ unbegun. (unbegun.fault ≡ NoTop) ↔ (file_number (plain files) top.now ≡ None)) }
        ensures told { IfErr result (λ unbegun. IsExpansionError unbegun.fault) }
    {
        items_are_located(); // A law: items say what the database says, at the same places.
        files.holds_pieces();
        let mut names = Names::new(alloc);
        match first_with_top(alloc, &mut names, &files, top) {
            Ok((top, next)) => {
                let Next { base, ran } = next;
                let Ran { checked, work, .. } = ran;
                let fresh = names.count();
                let session = Session {
                    files,
                    top,
                    names,
                    fresh,
                    base,
                    checked,
                };
                Ok((session, work))
            }
            Err(fault) => Err(Unbegun { files, fault }),
        }
    }

    /// Does an edit of the files. Then it runs, in order, the proofs of the sound `$p` of the edited files. A proof is not run
    /// if the files before had a sound `$p` of the same label with an equal view. The answer is the record of these runs.
    ///
    /// The errors are those of [`Files::edit`], in its order; `Memory` can come in the place of each but the first two,
    /// and in the place of success. After any error the session is as before.
    ///
    /// It takes time near linear in the items of the files and in what it runs; both the old base and the new one are kept
    /// until it is done.
    pub fn edit(&mut self, edit: &Edit<'_>) -> Result<Work, EditError>
        ensures files { OnOk result (IsEditOf (asked edit.now) self.old.files self.new.files) }
        ensures runs { IfOk result (IsChanged self.old self.new) }
        ensures no_file { IsErrOf result NoFile ↔ (file_number self.old.files (edited_name (asked edit.now)) ≡ None) }
        ensures no_piece { (count : ℕ) → IsErrOf result (NoPiece count) ↔ NamesNoMember (asked edit.now) self.old.files count }
        ensures refused { IfErr result (IsRefusal (asked edit.now) self.old.files) }
        ensures unchanged { OnErr result (self.new ≡ self.old) }
    {
        match self.edit_all(slice::from_ref(edit)) {
            Ok(work) => Ok(work),
            Err(error) => Err(reason(error)),
        }
    }

    /// Does all these edits, one after another, each on the files after those before it, or none of them. Then it runs, in
    /// order, the proofs of the sound `$p` of the files after them all. A proof is not run if the files before them all had a
    /// sound `$p` of the same label with an equal view. So each proof is run once at most.
    ///
    /// If an edit is refused, the error has its number, from 0, and the reason, which is never out of memory. `Memory` can come
    /// in the place of each other answer, once the file and the pieces of the first edit are known to be there, or if there are
    /// no edits. After any error the session is as before. No edits are accepted, and run nothing.
    pub fn edit_all(&mut self, edits: &[Edit<'_>]) -> Result<Work, BatchError>
        ensures files { OnOk result (IsBatchOf (map asked edits.now) self.old.files self.new.files) }
        ensures runs { IfOk result (IsChanged self.old self.new) }
        ensures refused { IfErr result (IsBatchRefusal (map asked edits.now) self.old.files) }
        ensures unchanged { OnErr result (self.new ≡ self.old) }
    {
        items_are_located(); // A law: items say what the database says, at the same places.
        self.files.holds_pieces();
        let changed = change(
            &mut self.files,
            &mut self.names,
            &self.top,
            &mut self.base,
            &mut self.checked,
            edits,
        );
        self.files.holds_pieces();
        self.renew_names();
        changed
    }

    /// Reads the files over new names, if most of the names are gone: an edit makes tables with a place for each name that
    /// there is. So all edits take time near linear in what they read. Without memory for it nothing changes.
    fn renew_names(&mut self)
        ensures { self.new ≡ self.old }
    {
        if self.names.count() / 2 <= self.fresh.max(FEW_NAMES) {
            return;
        }
        files_have_one_database(); // A law: files have one database at most.
        items_are_located(); // A law: items say what the database says, at the same places.
        self.files.holds_pieces();
        let alloc = self.allocator();
        let mut names = Names::new(alloc);
        if let Ok(base) = Base::build(alloc, &mut names, &self.files, &self.top) {
            self.fresh = names.count();
            self.names = names;
            self.base = base;
        }
    }

    /// The allocator that all lists are made on.
    pub(crate) fn allocator(&self) -> Global {
        *self.top.allocator()
    }

    /// The files, with all edits that were accepted; none of their pieces is parked.
    pub fn files(&self) -> &Files
        ensures files { plain result.now ≡ self.now.files }
        ensures parked { parked_in result.now ≡ 0 }
    {
        &self.files
    }

    /// How many items there are: statements, beginnings and ends of blocks, and first references to missing files; at most
    /// 4,294,967,295.
    pub fn count(&self) -> usize
        ensures count { IsCount self.now result }
        ensures few { result ≤ 4294967295 }
    {
        items_are_located(); // A law: items say what the database says, at the same places.
        items_stand(); // A law: each item is where it says.
        self.files.holds_pieces();
        self.base.count()
    }

    /// The label of the item with this number, counted from 0: of a `$f`, `$e`, `$a` or `$p`, be it sound or not.
    pub fn label(&self, i: usize) -> Option<&[u8]>
        ensures { IsLabelOfItem self.now i (option_map (λ label. label.now) result) }
    {
        items_are_located(); // A law: items say what the database says, at the same places.
        items_stand(); // A law: each item is where it says.
        self.files.holds_pieces();
        self.base.label(i)
    }
}
