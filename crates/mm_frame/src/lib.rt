//! Scopes, soundness and frames: what is declared and active after a list of items, which statements are sound, and what labels
//! mean.
#![tactic(auto)]

mod active_items;
mod active_numbers;
mod assertions;
mod base;
mod blocks;
mod build;
mod codes;
mod disjoint_rows;
mod draft;
mod earlier;
mod essential;
mod examples;
mod expressions;
mod frame;
mod frames;
mod guesses;
mod item_lists;
mod item_rows;
mod judge;
mod label_numbers;
mod laws;
mod mandatory;
mod names;
mod older;
mod older_assertions;
mod pair_answers;
mod pair_lists;
mod partners;
mod parts;
mod passed;
mod places;
mod rising;
mod same;
mod scope;
mod shared;
mod sorted_lists;
mod sparse;
mod symbol;
mod tables;

pub use base::{Base, Resolved};
pub use examples::frames_are_read_so;
pub use frame::Frame;
pub use judge::FrameFault;
pub use laws::{
    active_by_blocks, active_in_blocks, assertions_have_frames, fault_is_found, floats_agree,
    floats_are_typings, has_fault_or_is_sound, has_one_fault, has_own_labels, hypotheses_mean,
    items_have_labels, kept_next, labels_mean, mandatory_means, mandatory_stand_before, never_both,
    pairs_are_of_two, places_have_frames, reader_is_active, sound_has_none, sound_items_stand,
    stays_by_counts,
};
pub use mm_machine::{NamedSymbol, NumberedSymbol, Symbol};
pub use mm_statement::{
    PlainWords, Statement, databases_are_read_so, databases_are_there, files_have_one_database,
    has_bytes, items_are_located, missing_are_named, names_are_taken, nth_of_proof, same_proof,
    words_of_proof,
};
pub use mm_store::{
    BatchError, Edit, EditError, Files, Item, ItemKind, Keyword, PieceKey, Place, StoreError,
    TextError, TextFault, TextNumber, Undo, Undos, Walk, Word, WordCursor, WordKind,
    appending_keeps_items, edits_keep_files, edits_keep_units, first_faults_are_within, fits,
    has_expansion, items_stand, nth_word, one_edit, one_meaning, place, texts_are_read_so,
    walks_go_on,
};
pub use names::Names;
pub use same::{
    same_active_pairs, same_but_pairs, same_expression, same_frame, same_mandatory_hypotheses,
    same_mandatory_pairs,
};
pub use sparse::Sparse;

/// The number of a fault of a statement, or of a missing inclusion.
#[derive(Clone, Copy, Debug, PartialEq, Eq)]
pub enum FrameNumber {
    /// The count of symbols is wrong.
    F01,
    /// A `$c` is in a block.
    F02,
    /// A symbol is in a `$c`, `$v` or `$d` twice.
    F03,
    /// A symbol is declared already.
    F04,
    /// A symbol to be declared is a label.
    F05,
    /// The label is a label already.
    F06,
    /// The label is a declared symbol.
    F07,
    /// The typecode is no constant.
    F08,
    /// A symbol of a `$d`, or the second one of a `$f`, is no active variable.
    F09,
    /// A symbol of an expression is neither a constant nor an active variable.
    F10,
    /// A variable of an expression has no active `$f`.
    F11,
    /// The variable of a `$f` has an active `$f` already.
    F12,
    /// An earlier `$f` gave the variable another typecode.
    F13,
    /// The file of an inclusion is missing.
    F14,
}
