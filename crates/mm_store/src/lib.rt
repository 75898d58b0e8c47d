//! The files of a Metamath database, as named lists of pieces, and the items that they give.
//!
//! A piece is a text with one unit: a statement, a block or an inclusion. The text of a file is its pieces and
//! its tail, joined. A file includes another by `$[ name $]`: the contents of that file take the place of
//! the command. Only the first reference to a name counts, in the order of reading; later ones, and references to
//! the top file, give nothing (the Metamath book, section 4.1.2). What remains is a list of items: statements,
//! beginnings and ends of blocks, and references to files that are missing.
#![tactic(auto)]

mod adding;
mod batch;
mod edit;
mod editing;
mod error;
mod examples;
mod expanding;
mod file_text;
mod files;
mod included;
mod item;
mod kept_part;
mod key;
mod laws;
mod line_feeds;
mod piece_text;
mod pieces;
mod room;
mod standing;
mod start;
mod state;
mod undo;
mod undoing;
mod unit;
mod walk;

pub use batch::{BatchError, Undos};
pub use edit::EditError;
pub use error::StoreError;
pub use examples::{edits_are_done_so, files_are_held_so, rings_are_read_so};
pub use files::Files;
pub use item::{Item, ItemKind};
pub use key::PieceKey;
pub use laws::{
    added_files_have_their_text, appending_keeps_items, bytes_are_within, edits_keep_files,
    edits_keep_members, edits_keep_units, edits_reverse, has_expansion, items_stand,
    keys_do_not_matter, one_edit, one_expansion, pieces_join_to_text, walks_go_on,
};
pub use mm_text::{
    Edit, Keyword, Place, TextError, TextFault, TextNumber, Word, WordCursor, WordKind,
    first_faults_are_within, nth_word, one_division, one_meaning, place, stretches_stand_alone,
    texts_are_read_so,
};
pub use room::fits;
pub use undo::Undo;
pub use walk::Walk;
