//! The verdict on one proof: its decoding, what its labels name, and the check. `mm_machine` runs its steps.
#![tactic(auto)]

mod assertion;
mod checker;
mod checking;
mod citing;
mod citing_laws;
mod decoding;
mod decoding_laws;
mod examples;
mod item_laws;
mod known;
mod labels;
mod letters;
mod program;
mod reading;
mod undecoded;
mod used;
mod words;
mod work;

pub use assertion::{cited_of, loaded_of};
pub use checker::Checker;
pub use checking::check;
pub use citing_laws::cites_tell;
pub use decoding::Decoding;
pub use decoding_laws::{
    cites_rise, decodes_short, decodes_surely, each_is_written, has_number_table, has_one_division,
    labels_are_own, letters_read_on, mandatory_are_active, numbers_are_apart,
    renaming_keeps_decoding, same_cites_same, same_decodes_same, tells_first_fault,
};
pub use examples::{faults_are_read_so, proofs_are_read_so, steps_are_read_so};
pub use item_laws::{
    has_count_at, has_one_count_at, has_one_verdict_at, has_verdict_at, labels_are_a_proof,
    mandatory_labels_mean, proved_is_derived_at, spots_are_in,
};
pub use known::Known;
pub use mm_frame::{
    Base, BatchError, Edit, EditError, Files, Item, ItemKind, Keyword, NamedSymbol, Names,
    PieceKey, Place, PlainWords, Resolved, Statement, StoreError, Symbol, TextError, TextFault,
    TextNumber, Undo, Undos, Walk, Word, WordCursor, WordKind, fits, has_bytes, nth_of_proof,
    nth_word, place, same_proof, words_of_proof,
};
pub use mm_machine::{
    Action, Cited, CodedSymbol, Machine, NumberedSymbol, ProofFault, ProofNumber, ProofStep, Spot,
    Use, Verdict,
};
pub use program::{Program, program_of};
pub use undecoded::Undecoded;
pub use words::{is_close, is_open, is_unknown};
pub use work::{Checked, Work};
