//! What a session answers of its items.

ghost use Rattle.std.specs.Prelude.{◌≡◌, ◌↔◌, ◌<◌, ℕ, List, true, false, Some, None, IfOk, IfErr, IfSome, IsErrOf, length};
ghost use Rattle.mm_proof.specs.{mm_store.Language.{FileFacts.{CanBeRead, StandsIn}, FilesView.{FilesView}}, mm_frame.Language.{Answering.{IsBase}, Base.{BaseView, said_at, is_sound_at, is_proof_at}}};
ghost use Rattle.mm_proof.specs.{mm_statement.Language.Item.{Theorem, is_kind}, mm_verdict.Language.VerdictAt.{IsVerdictAt}};
ghost use Rattle.mm_keep.specs.Language.{Findings.{told, counted}, Derivable.{IsDerivable, IsLabelDerivable}, Sessions.{HasAssertion, HasItem, IsAssertion, IsFinding, IsTally, IsVerdictOf, OfItems}};
ghost use Rattle.mm_keep.specs.{Language.Told.{Told, counts}, Code.{KeptSession.{AreChecked}, KeyedTold.{AreKeyedTold, IsKeyedTold, TellsFaultAt}, OfFiles.{IsOf, HasChecked, HasCheckedItem, HasVerdictOf}}};
ghost use Rattle.mm_keep.specs.declared.{answers.KeepError.TheVariants.{NoAssertion}, finding.Finding.TheVariants.{Proved}};
ghost use Rattle.mm_proof.specs.mm_store.declared.item.Item as store;
ghost use Rattle.mm_proof.specs.mm_statement.Language.Statement as spoken;

use crate::checks::Checks;
use crate::finding::Finding;
use crate::seen::{place_of_spot, seen_at};
use crate::session::Session;
use crate::tally::Tally;
use mm_proof::{
    Base, Files, FrameFault, Item, ItemKind, Verdict, files_have_one_database, items_are_located,
    proved_is_derived_at, spots_are_in,
};
use std::alloc::AllocError;
use thiserror::Error;

/// Why a session does not answer.
#[derive(Clone, Copy, Debug, PartialEq, Eq, Error)]
pub enum KeepError {
    /// No sound `$a` or `$p` has this label.
    #[error("no such assertion")]
    NoAssertion,
    /// There was not enough memory.
    #[error("out of memory")]
    Memory,
}

impl From<AllocError> for KeepError {
    ghost use Rattle.mm_keep.specs.declared.answers.KeepError.TheVariants.{Memory};

    ghost from_gives = { λ _ e. e ≡ Memory };

    fn from(_: AllocError) -> KeepError {
        KeepError::Memory
    }
}

/// What is found of an item with a fault.
fn at_fault<'a>(files: &'a Files, item: &Item, fault: FrameFault) -> Finding<'a>
    requires read { CanBeRead files.now item.now }
    requires stands { StandsIn files.now item.now }
    ensures { TellsFaultAt files.now item.now fault.word fault.number (told result) }
{
    let seen = seen_at(files, item, fault.word);
    Finding::Fault(fault.number, seen.at, seen.word)
}

/// What is found of a sound theorem with this verdict.
fn judged<'a>(files: &'a Files, base: &Base, number: usize, verdict: Verdict) -> Finding<'a>
    requires { HasVerdictOf files.now base.now number verdict }
    ensures { (names : List (List ℕ)) (view : BaseView) → IsOf names files.now base.now view → is_proof_at view number ≡ true
        → IsVerdictAt view number verdict → IsKeyedTold files.now base.now.items view number (told result) }
{
    spots_are_in(); // A law: the spot of a verdict is in its proof.
    match verdict {
        Verdict::Proved => Finding::Proved,
        Verdict::Incomplete(spot) => Finding::Incomplete(place_of_spot(files, base, number, spot)),
        Verdict::Wrong(fault, spot) => {
            Finding::Wrong(fault, place_of_spot(files, base, number, spot))
        }
    }
}

/// What is found of a sound item that is no theorem.
fn unproved<'a>(kind: ItemKind) -> Finding<'a>
    ensures { (files : FilesView) (found : List store.Item) (view : BaseView) (n : ℕ) → is_sound_at view n ≡ true
        → is_kind Theorem (spoken.kind_of kind) ≡ false
        → spoken.kind_of kind ≡ (said_at view n).kind → IsKeyedTold files found view n (told result) }
{
    match kind {
        ItemKind::Axiom => Finding::Axiom,
        _ => Finding::Quiet,
    }
}

/// What is found of the item with this number.
fn finding_of<'a>(files: &'a Files, base: &Base, checked: &Checks, i: usize) -> Finding<'a>
    requires { HasCheckedItem files.now base.now checked.now i }
    ensures { (names : List (List ℕ)) (view : BaseView) → IsOf names files.now base.now view → AreChecked view checked.now
        → IsKeyedTold files.now base.now.items view i (told result) }
{
    let item = base.item(i);
    if let Some(fault) = base.fault(i) {
        return at_fault(files, item, fault);
    }
    match checked.get(i) {
        Some(check) => judged(files, base, i, check.verdict()),
        None => unproved(item.kind),
    }
}

/// How many items there are of each kind that a summary counts.
fn tally_of(files: &Files, base: &Base, checked: &Checks) -> Tally
    requires { HasChecked files.now base.now checked.now }
    ensures { (names : List (List ℕ)) (view : BaseView) → IsOf names files.now base.now view → AreChecked view checked.now
        → (all : List Told) × AreKeyedTold files.now base.now.items view all × (counted result ≡ counts all) }
{
    let mut tally = Tally::none();
    for i in 0..base.count() {
        tally = tally.with(&finding_of(files, base, checked, i));
    }
    tally
}

/// The number of the sound `$a` or `$p` with this label.
fn assertion_in(base: &Base, label: &[u8]) -> Option<usize>
    ensures some { (view : BaseView) → IsBase view base.now → IfSome result (IsAssertion view label.now) }
    ensures found { (view : BaseView) (i : ℕ) → IsBase view base.now → IsAssertion view label.now i → result ≡ Some i }
{
    let i = base.find(label)?;
    base.frame(i)?;
    Some(i)
}

impl Session {
    /// What is found of the item with this number, counted from 0. Of what is Proved, labels derive the statement. It takes no
    /// memory; a place costs one look at its piece.
    pub fn finding(&self, i: usize) -> Finding<'_>
        requires { HasItem self.now i }
        ensures found { IsFinding self.now i (told result) }
        ensures derived { result ≡ Proved → IsDerivable self.now i }
    {
        files_have_one_database(); // A law: files have one database at most.
        items_are_located(); // A law: items say what the database says, at the same places.
        mm_proof::items_stand(); // A law: each item is where it says.
        self.files.holds_pieces();
        proved_is_derived_at(); // A law: proved is said exactly if labels derive the statement.
        spots_are_in(); // A law: the spot of a verdict is in its proof.
        finding_of(&self.files, &self.base, &self.checked, i)
    }

    /// The number of the sound `$a` or `$p` with this label.
    pub(crate) fn assertion(&self, label: &[u8]) -> Option<usize>
        ensures some { IfSome result (λ i. OfItems self.now (λ base. IsAssertion base label.now i)) }
        ensures none { result ≡ None → ¬ HasAssertion self.now label.now }
    {
        files_have_one_database(); // A law: files have one database at most.
        items_are_located(); // A law: items say what the database says, at the same places.
        mm_proof::items_stand(); // A law: each item is where it says.
        self.files.holds_pieces();
        assertion_in(&self.base, label)
    }

    /// What is found of the sound `$a` or `$p` with this label. Of what is Proved, labels derive the statement. It takes no
    /// memory; the one error is that there is none.
    pub fn verdict(&self, label: &[u8]) -> Result<Finding<'_>, KeepError>
        ensures ok { IfOk result (λ finding. IsVerdictOf self.now label.now (told finding)) }
        ensures derived { IfOk result (λ finding. finding ≡ Proved → IsLabelDerivable self.now label.now) }
        ensures none { IsErrOf result NoAssertion ↔ ¬ HasAssertion self.now label.now }
        ensures err { IfErr result (λ error. error ≡ NoAssertion) }
    {
        files_have_one_database(); // A law: files have one database at most.
        match self.assertion(label) {
            Some(i) => Ok(self.finding(i)),
            None => Err(KeepError::NoAssertion),
        }
    }

    /// How many items there are of each kind that a summary counts. It takes no memory; a place costs one look at its piece, as
    /// in a report.
    pub fn tally(&self) -> Tally
        ensures { IsTally self.now (counted result) }
    {
        items_are_located(); // A law: items say what the database says, at the same places.
        mm_proof::items_stand(); // A law: each item is where it says.
        spots_are_in(); // A law: the spot of a verdict is in its proof.
        self.files.holds_pieces();
        tally_of(&self.files, &self.base, &self.checked)
    }
}
