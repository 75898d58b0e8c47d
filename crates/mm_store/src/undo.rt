//! What an edit leaves to be undone or settled.

use std::marker::Model;

/// What was done: an insertion at a place, a replacement or a deletion there of the piece with this key, a move
/// from a place to another.
#[derive(Drop)]
pub(crate) enum Action {
    Inserted(usize),
    Replaced(usize, usize),
    Deleted(usize, usize),
    Moved(usize, usize),
}

/// An edit that was done, to be passed to [`Files::undo`](crate::Files::undo) or to
/// [`Files::settle`](crate::Files::settle). It cannot be copied or thrown away.
#[must_use]
pub struct Undo {
    pub(crate) file: usize,
    pub(crate) action: Action,
}

impl Model for Undo {
    ghost use Rattle.mm_store.specs.Language.Undoing.{UndoView};

    ghost Value = { UndoView };

    ghost use Rattle.mm_store.specs.Code.Undone.{undo_view};

    ghost view = { undo_view };
}
