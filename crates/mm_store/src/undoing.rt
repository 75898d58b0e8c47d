//! Edits that are undone, and old pieces that are dropped.

ghost use Rattle.std.specs.Prelude.{◌≡◌};
ghost use Rattle.mm_store.specs.Language.Undoing.{undone, settled, undone_key, settled_key, CanUndo, CanSettle, KeepsOthers};

use crate::files::Files;
use crate::undo::{Action, Undo};

impl Files {
    /// Reverses an edit, and does not work out where the pieces after its own begin.
    pub(crate) fn take_back(&mut self, undo: Undo)
        requires { CanUndo undo self.old }
        ensures { self.new ≡ undone undo self.old }
    {
        self.stand_once();
        let Undo { file, action } = undo;
        match action {
            Action::Inserted(at) => {
                let key = self.take_out(file, at);
                self.drop_parked(key);
            }
            Action::Replaced(at, old) => {
                let key = self.exchange(file, at, old);
                self.drop_parked(key);
            }
            Action::Deleted(at, old) => self.put_back(file, at, old),
            Action::Moved(at, to) => self.move_piece(file, to, at),
        }
    }

    /// Reverses an edit: its new piece, if it brought one, is dropped, and its old piece is in its place again.
    ///
    /// If the files are as the edit left them (the lists, the keys and the parked pieces), they are then as
    /// before the edit. It takes no memory.
    pub fn undo(&mut self, undo: Undo)
        requires { CanUndo undo self.old }
        ensures undone { self.new ≡ undone undo self.old }
        ensures keeps { KeepsOthers (undone_key undo.file undo.action self.old) self.old self.new }
    {
        let file = undo.file;
        self.take_back(undo);
        self.restart_file(file);
    }

    /// Drops the old piece of an edit, if it has one: the edit can then no longer be undone. The piece may have been parked by
    /// any edit. It takes no memory.
    pub fn settle(&mut self, undo: Undo)
        requires { CanSettle undo.action self.old }
        ensures settled { self.new ≡ settled undo self.old }
        ensures keeps { KeepsOthers (settled_key undo.action) self.old self.new }
    {
        let Undo { file: _, action } = undo;
        match action {
            Action::Inserted(_) | Action::Moved(_, _) => (),
            Action::Replaced(_, old) | Action::Deleted(_, old) => self.drop_parked(old),
        }
    }
}
