//! Sessions: the files of a database, what is found of each of its items, and edits that run again only the proofs whose
//! view they change.
#![tactic(auto)]

mod answers;
mod checks;
mod cited;
mod citing;
mod finding;
mod keeping;
mod laws;
mod planning;
mod seen;
mod session;
mod tally;
mod unbegun;

pub use answers::KeepError;
pub use finding::{At, Finding};
pub use laws::{
    appending_keeps_findings, axioms_have_themselves, chains_lead_back, has_list_each,
    has_list_of_runs, items_have_findings, one_answer_each, one_list_each, one_list_of_runs,
    proved_is_derivable, proved_rests_on_axioms,
};
pub use mm_proof::{
    Action, Base, BatchError, Checked, Checker, Cited, CodedSymbol, Decoding, Edit, EditError,
    Files, Frame, FrameFault, FrameNumber, Item, ItemKind, Keyword, Machine, Marks, NamedSymbol,
    Names, NumberedSymbol, PieceKey, Place, PlainWords, ProofFault, ProofNumber, ProofStep,
    Resolved, Spot, Statement, StoreError, Symbol, TextError, TextFault, TextNumber, Undecoded,
    Undo, Undos, Use, Verdict, Walk, Word, WordCursor, WordKind, Work, check,
    databases_are_read_so, databases_are_there, edits_keep_files, edits_keep_units,
    files_have_one_database, first_faults_are_within, fits, has_bytes, has_one_verdict_at,
    has_own_labels, items_stand, missing_are_named, names_are_taken, nth_of_proof, nth_word,
    one_edit, one_meaning, place, same_proof, texts_are_read_so, walks_go_on, words_of_proof,
};
pub use session::Session;
pub use tally::Tally;
pub use unbegun::Unbegun;
