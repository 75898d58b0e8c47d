//! The report of a session, and the answers to a script.
#![tactic(auto)]

mod answer;
mod examples;
mod laws;
mod report;
mod script;
mod script_laws;

pub use answer::{fault_name, write_axioms};
pub use examples::{scripts_are_answered_so, sessions_are_told_so};
pub use laws::{clean_is_derived, one_report};
pub use mm_keep::{
    Action, At, Base, BatchError, Checked, Checker, Cited, CodedSymbol, Decoding, Edit, EditError,
    Files, Finding, Frame, FrameFault, FrameNumber, Item, ItemKind, KeepError, Keyword, Machine,
    Marks, NamedSymbol, Names, NumberedSymbol, PieceKey, Place, PlainWords, ProofFault,
    ProofNumber, ProofStep, Resolved, Session, Spot, Statement, StoreError, Symbol, Tally,
    TextError, TextFault, TextNumber, Unbegun, Undecoded, Undo, Undos, Use, Verdict, Walk, Word,
    WordCursor, WordKind, Work, check, databases_are_read_so, edits_keep_units, fits, has_bytes,
    missing_are_named, names_are_taken, nth_of_proof, nth_word, place, same_proof,
    texts_are_read_so, walks_go_on, words_of_proof,
};
pub use mm_script::{
    ReadFailed, Reading, ScriptError, WriteFailed, Writing, commands_leave_nothing, has_reading,
    one_reading, reading_goes_on, scripts_are_read_so,
};
pub use report::{ReportError, write_report};
pub use script::run_script;
pub use script_laws::{answers_begin, has_script_answer, one_script_answer, sessions_are_whole};
