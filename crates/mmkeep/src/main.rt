//! A verifier for Metamath databases.
#![tactic(auto)]

mod adding;
mod arguments;
mod asking;
mod complaints;
mod examples;
mod laws;
mod loading;
mod outcome;
mod performing;
mod program;
mod source;
mod unloaded;

pub use adding::{FileError, add_file, read_all};
pub use arguments::Invocation;
pub use asking::{command, command_of, top_of};
pub use examples::{commands_are_done_so, files_are_loaded_so};
pub use laws::missing_are_lacked;
pub use loading::load_session;
pub use mm_report::{
    Action, At, Base, BatchError, Checked, Checker, Cited, CodedSymbol, Decoding, Edit, EditError,
    Files, Finding, Frame, FrameFault, FrameNumber, Item, ItemKind, KeepError, Keyword, Machine,
    Marks, NamedSymbol, Names, NumberedSymbol, PieceKey, Place, PlainWords, ProofFault,
    ProofNumber, ProofStep, ReadFailed, Reading, Resolved, ScriptError, Session, Spot, Statement,
    StoreError, Symbol, Tally, TextError, TextFault, TextNumber, Unbegun, Undecoded, Undo, Undos,
    Use, Verdict, Walk, Word, WordCursor, WordKind, Work, WriteFailed, Writing, check, fits,
    has_bytes, nth_of_proof, nth_word, place, same_proof, words_of_proof,
};
pub use outcome::{Outcome, status};
pub use performing::{judge, perform};
pub use source::{Source, SystemFiles};
use std::process::ExitCode;
pub use unloaded::Unloaded;

fn main(rt: HostRuntime) -> ExitCode {
    ExitCode::from(status(&program::run(&rt)))
}
