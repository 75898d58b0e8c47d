//! What a session answers of citations: what an assertion cites, what cites it, and its axioms.

ghost use Rattle.std.specs.Prelude.{◌≡◌, ◌<◌, ◌≤◌, ◌↔◌, ℕ, IfOk, IsErrOf, IsTrue, length};
ghost use Rattle.mm_proof.specs.mm_frame.Language.{Base.{BaseView}, Answering.{IsBase}};
ghost use Rattle.mm_keep.specs.{declared.answers.KeepError.TheVariants.{NoAssertion}, Language.{Citations.{CitesItem, IsAxiomOf}, Runs.{AreThose}}};
ghost use Rattle.mm_keep.specs.{Language.{Sessions.{AreAxiomsOf, AreCitesOf, AreNumbersOf, AreUsersOf, HasAssertion, IsAssertion}, Told.{IsAxiom}}, Code.Asked.{stands}};
ghost use Rattle.mm_keep.specs.Code.Cited.{HasChecks, IsMarked, MarksBehind, OfChecks};

use crate::answers::KeepError;
use crate::checks::Checks;
use crate::cited::{cites_label, mark_cites};
use crate::session::Session;
use mm_proof::{Base, Files, ItemKind, files_have_one_database, items_are_located};
use std::alloc::{AllocError, Global};

/// The numbers that are marked, rising.
fn marked(alloc: Global, marks: &[bool]) -> Result<Vec<usize>, AllocError>
    ensures { IfOk result (λ numbers. AreThose (IsMarked marks.now) (length marks.now) numbers.items) }
{
    let mut numbers = Vec::new(alloc);
    for k in 0..marks.len() {
        if marks[k] {
            numbers.push(k)?;
        }
    }
    Ok(numbers)
}

/// Marks of this many items, none of which is marked.
fn no_marks(alloc: Global, count: usize) -> Result<Vec<bool>, AllocError>
    ensures count { IfOk result (λ marks. length marks.items ≡ count) }
    ensures none { IfOk result (λ marks. (k : ℕ) → ¬ IsMarked marks.items k) }
{
    vec![in alloc; false; count]
}

/// What the item with this number cites, rising.
fn cites_of(
    alloc: Global,
    files: &Files,
    base: &Base,
    checked: &Checks,
    i: usize,
) -> Result<Vec<usize>, AllocError>
    requires { HasChecks files.now base.now checked.now (λ view. i < length view) }
    ensures { IfOk result (λ numbers. OfChecks files.now base.now checked.now (λ view.
        AreThose (CitesItem view i) (length view) numbers.items)) }
{
    // Citations lead to earlier items.
    let mut marks = no_marks(alloc, i)?;
    mark_cites(files, base, checked, i, &mut marks);
    marked(alloc, &marks)
}

/// What cites the item with this number, which has this label, rising.
fn users_of(
    alloc: Global,
    files: &Files,
    base: &Base,
    checked: &Checks,
    i: usize,
    label: &[u8],
) -> Result<Vec<usize>, AllocError>
    requires { HasChecks files.now base.now checked.now (λ view. IsAssertion view label.now i) }
    ensures { IfOk result (λ numbers. OfChecks files.now base.now checked.now (λ view.
        IsAssertion view label.now i → AreThose (λ k. CitesItem view k i) (length view) numbers.items)) }
{
    let mut numbers = Vec::new(alloc);
    for j in i + 1..base.count() {
        if cites_label(files, base, checked, j, label) {
            numbers.push(j)?;
        }
    }
    Ok(numbers)
}

/// Marks that to which chains of citations lead from the marked items, the last of these first: citations lead to earlier
/// items.
fn mark_behind(files: &Files, base: &Base, checked: &Checks, marks: &mut [bool])
    requires { HasChecks files.now base.now checked.now (λ view. length marks.old ≤ length view) }
    ensures { OfChecks files.now base.now checked.now (λ view. MarksBehind view marks.old marks.new) }
{
    for n in 0..marks.len() {
        let j = marks.len() - 1 - n;
        if marks[j] {
            mark_cites(files, base, checked, j, &mut *marks);
        }
    }
}

/// Whether the item with this number is a sound `$a`.
fn is_axiom(base: &Base, k: usize) -> bool
    requires { (view : BaseView) × IsBase view base.now × (k < length view) }
    ensures { (view : BaseView) → IsBase view base.now → IsTrue result ↔ IsAxiom view k }
{
    base.fault(k).is_none() && matches!(base.item(k).kind, ItemKind::Axiom)
}

/// The sound `$a` that are marked, rising.
fn marked_axioms(alloc: Global, base: &Base, marks: &[bool]) -> Result<Vec<usize>, AllocError>
    requires { (view : BaseView) × IsBase view base.now × (length marks.now ≤ length view) }
    ensures { IfOk result (λ numbers. (view : BaseView) → IsBase view base.now
        → AreThose (λ k. IsMarked marks.now k × IsAxiom view k) (length marks.now) numbers.items) }
{
    let mut numbers = Vec::new(alloc);
    for k in 0..marks.len() {
        if marks[k] && is_axiom(base, k) {
            numbers.push(k)?;
        }
    }
    Ok(numbers)
}

/// The axioms of the item with this number, rising.
fn axioms_of(
    alloc: Global,
    files: &Files,
    base: &Base,
    checked: &Checks,
    i: usize,
) -> Result<Vec<usize>, AllocError>
    requires { HasChecks files.now base.now checked.now (λ view. i < length view) }
    ensures { IfOk result (λ numbers. OfChecks files.now base.now checked.now (λ view.
        AreThose (IsAxiomOf view i) (length view) numbers.items)) }
{
    let _count = base.count();
    let mut marks = no_marks(alloc, i + 1)?;
    marks[i] = true;
    mark_behind(files, base, checked, &mut marks);
    marked_axioms(alloc, base, &marks)
}

/// How the items that are asked for stand to an assertion: it cites them, they cite it, or they are its axioms.
#[derive(Clone, Copy)]
enum Relation {
    Cites,
    Users,
    Axioms,
}

/// The numbers of the items that are asked for of the item with this number, which has this label, rising.
fn numbers_of(
    alloc: Global,
    files: &Files,
    base: &Base,
    checked: &Checks,
    i: usize,
    label: &[u8],
    asked: Relation,
) -> Result<Vec<usize>, AllocError>
    requires { HasChecks files.now base.now checked.now (λ view. IsAssertion view label.now i) }
    ensures { IfOk result (λ numbers. OfChecks files.now base.now checked.now (λ view.
        IsAssertion view label.now i → AreThose (stands asked view i) (length view) numbers.items)) }
{
    match asked {
        Relation::Cites => cites_of(alloc, files, base, checked, i),
        Relation::Users => users_of(alloc, files, base, checked, i, label),
        Relation::Axioms => axioms_of(alloc, files, base, checked, i),
    }
}

impl Session {
    /// The numbers, rising, of the items that are asked for of the sound `$a` or `$p` with this label.
    ///
    /// `NoAssertion` comes before memory is taken.
    fn numbers(&self, label: &[u8], asked: Relation) -> Result<Vec<usize>, KeepError>
        ensures ok { IfOk result (λ numbers. AreNumbersOf self.now label.now (stands asked) numbers.items) }
        ensures none { IsErrOf result NoAssertion ↔ ¬ HasAssertion self.now label.now }
    {
        files_have_one_database(); // A law: files have one database at most.
        items_are_located(); // A law: items say what the database says, at the same places.
        mm_proof::items_stand(); // A law: each item is where it says.
        self.files.holds_pieces();
        match self.assertion(label) {
            Some(i) => Ok(numbers_of(
                self.allocator(),
                &self.files,
                &self.base,
                &self.checked,
                i,
                label,
                asked,
            )?),
            None => Err(KeepError::NoAssertion),
        }
    }

    /// The numbers, rising, of the items that the sound `$a` or `$p` with this label cites: those that the decoded steps of
    /// its proof name. A `$a` cites none, and neither does a `$p` whose proof cannot be decoded.
    ///
    /// `NoAssertion` comes before memory is taken.
    pub fn cites(&self, label: &[u8]) -> Result<Vec<usize>, KeepError>
        ensures ok { IfOk result (λ numbers. AreCitesOf self.now label.now numbers.items) }
        ensures none { IsErrOf result NoAssertion ↔ ¬ HasAssertion self.now label.now }
    {
        self.numbers(label, Relation::Cites)
    }

    /// The numbers, rising, of the sound `$p` that cite the sound `$a` or `$p` with this label.
    ///
    /// `NoAssertion` comes before memory is taken.
    pub fn users(&self, label: &[u8]) -> Result<Vec<usize>, KeepError>
        ensures ok { IfOk result (λ numbers. AreUsersOf self.now label.now numbers.items) }
        ensures none { IsErrOf result NoAssertion ↔ ¬ HasAssertion self.now label.now }
    {
        self.numbers(label, Relation::Users)
    }

    /// The numbers, rising, of the axioms of the sound `$a` or `$p` with this label: the sound `$a` to which chains of
    /// citations lead from it. Those of a `$a` are itself alone.
    ///
    /// `NoAssertion` comes before memory is taken.
    pub fn axioms(&self, label: &[u8]) -> Result<Vec<usize>, KeepError>
        ensures ok { IfOk result (λ numbers. AreAxiomsOf self.now label.now numbers.items) }
        ensures none { IsErrOf result NoAssertion ↔ ¬ HasAssertion self.now label.now }
    {
        self.numbers(label, Relation::Axioms)
    }
}
