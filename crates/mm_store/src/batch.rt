//! Several edits, one after another: all of them, or none.

ghost use Rattle.std.specs.Prelude.{◌≡◌, [], ◌∷◌, ◌++◌, IfOk, IfErr, OnOk, OnErr, map};
ghost use Rattle.mm_store.specs.{declared.batch.BatchError.TheVariants.{Memory}, Language.{Batches.{IsBatchOf, IsBatchError, IsSpendable, KeepsReading, KeepsStanding}, Edits.{IsEditOf}}};
ghost use Rattle.mm_store.specs.Language.{EditedKeys.{IsBatchByKeys, IsEditByKeys}, FileFacts.{parked_in}, FilesView.{FilesView, files_in, plain}, Undoing.{KeepsKeys, UndoView}};
ghost use Rattle.mm_store.specs.Code.Batched.{IsNextError, refusal};
ghost use Rattle.mm_text.specs.Language.Asked.{asked};

use crate::edit::EditError;
use crate::files::Files;
use crate::undo::Undo;
use mm_text::Edit;
use std::alloc::{AllocError, Global};
use std::marker::Model;
use thiserror::Error;

/// Why edits that were to be done together are refused.
#[derive(Clone, Copy, Debug, PartialEq, Eq, Error)]
pub enum BatchError {
    /// The edit with this number, from 0, is the first that is refused, on the files after those before it. The reason
    /// is never out of memory.
    #[error("edit {0}: {1}")]
    Edit(usize, EditError),
    /// There was not enough memory.
    #[error("out of memory")]
    Memory,
}

impl From<AllocError> for BatchError {
    ghost from_gives = { λ _ e. e ≡ Memory };

    fn from(_: AllocError) -> Self {
        BatchError::Memory
    }
}

/// Edits that were done one after another, to be passed to [`Files::undo_all`] or to [`Files::settle_all`]. They cannot be
/// copied or thrown away.
#[must_use]
pub struct Undos {
    undos: Vec<Undo>,
}

impl Model for Undos {
    ghost use Rattle.std.specs.Prelude.{List};
    ghost use Rattle.mm_store.specs.Language.Undoing.{UndoView};

    ghost Value = { List UndoView };

    ghost use Rattle.mm_store.specs.Code.Batched.{undos_of};

    ghost view = { undos_of };
}

/// Why the edit with this number is refused; out of memory stays what it is.
fn refused(number: usize, error: EditError) -> BatchError
    ensures { result ≡ refusal number error }
{
    match error {
        EditError::Memory => BatchError::from(AllocError),
        error => BatchError::Edit(number, error),
    }
}

impl Undos {
    /// No edits. It takes no memory.
    fn new(alloc: Global) -> Undos
        ensures { result ≡ [] }
    {
        Undos {
            undos: Vec::new(alloc),
        }
    }
}

impl Files {
    /// Does one edit more, the one with this number, and adds what is needed to undo it to the others. After an error
    /// all is as before.
    fn edit_next(
        &mut self,
        edit: &Edit<'_>,
        number: usize,
        undos: &mut Undos,
    ) -> Result<(), BatchError>
        ensures ok { OnOk result (IsEditOf (asked edit.now) (plain self.old) (plain self.new)) }
        ensures by_keys { OnOk result ((undo : UndoView) × IsEditByKeys (asked edit.now) self.old self.new undo × (undos.new ≡ undos.old ++ undo ∷ [])) }
        ensures keys { OnOk result (KeepsKeys self.old self.new) }
        ensures spendable { OnOk result ((old : FilesView) → IsSpendable old self.old undos.old → IsSpendable old self.new undos.new) }
        ensures err { IfErr result (IsNextError (asked edit.now) (plain self.old) number) }
        ensures unchanged { OnErr result (self.new ≡ self.old) }
        ensures kept { OnErr result (undos.new ≡ undos.old) }
    {
        let done = match self.apply(edit) {
            Ok(undo) => undo,
            Err(error) => return Err(refused(number, error)),
        };
        self.stand_once();
        if let Err(error) = undos.undos.reserve(1) {
            self.take_back(done);
            return Err(BatchError::from(error));
        }
        undos.undos.push(done).unwrap();
        Ok(())
    }

    /// Does edits, one after another, each on the files after those before it, and answers what is needed to undo them.
    ///
    /// If one is refused, none is done, and the answer has its number and the reason. `Memory` can come in the place
    /// of each other answer, once the file and the pieces of the first edit are known to be there. After any error the
    /// files are as before. No edits are done without memory. It takes the time of the texts that the edits bring. For each
    /// edit it moves the keys on the shorter side of its place in its file (of both its places, for a move). Then it goes once
    /// through the pieces after the first place of each file. It takes room for what is needed to undo each edit.
    pub fn edit_all(&mut self, edits: &[Edit<'_>]) -> Result<Undos, BatchError>
        ensures ok { OnOk result (IsBatchOf (map asked edits.now) (plain self.old) (plain self.new)) }
        ensures by_keys { IfOk result (IsBatchByKeys (map asked edits.now) self.old self.new) }
        ensures reading { OnOk result (KeepsReading self.old self.new) }
        ensures spendable { IfOk result (IsSpendable self.old self.new) }
        ensures err { IfErr result (IsBatchError (map asked edits.now) (plain self.old)) }
        ensures unchanged { OnErr result (self.new ≡ self.old) }
    {
        let mut undos = Undos::new(self.allocator());
        for number in 0..edits.len() {
            if let Err(error) = self.edit_next(&edits[number], number, &mut undos) {
                self.undo_all(undos);
                return Err(error);
            }
        }
        self.restart_all();
        Ok(undos)
    }

    /// Reverses edits, the last of them first. If the files are as the edits left them, they are then as before the
    /// first of them. For each it moves the keys on the shorter side of its place in its file (of both its places, for a
    /// move). Then it goes once through the pieces after the first place of each file. It takes no memory.
    pub fn undo_all(&mut self, undos: Undos)
        requires { (old : FilesView) × IsSpendable old self.old undos }
        ensures { (old : FilesView) → IsSpendable old self.old undos → self.new ≡ old }
    {
        let Undos { mut undos } = undos;
        while let Some(undo) = undos.pop() {
            self.take_back(undo);
        }
        undos.destroy_empty();
        self.restart_all();
    }

    /// Drops the old pieces of edits: these can then no longer be undone. The files stay as they are, and what is in
    /// them can be read as before. It takes constant time for each, and no memory.
    pub fn settle_all(&mut self, undos: Undos)
        requires { (old : FilesView) × IsSpendable old self.old undos }
        ensures plain { plain self.new ≡ plain self.old }
        ensures keyed { files_in self.new ≡ files_in self.old }
        ensures standing { KeepsStanding self.old self.new }
        ensures parked { (old : FilesView) → IsSpendable old self.old undos → parked_in self.new ≡ parked_in old }
    {
        let Undos { mut undos } = undos;
        while let Some(spent) = undos.pop() {
            self.stand_once();
            self.settle(spent);
        }
        undos.destroy_empty();
    }
}
