//! What derives what: symbols, frames, the steps of a proof, and the machine that runs them.
//!
//! An expression is a list of symbols. A frame is what citing an assertion needs: its expression, its mandatory hypotheses,
//! and its mandatory pairs. The labels of a proof derive an expression (the Metamath book, section 4.2). The machine runs the
//! steps of a proof over symbols of one type: by name, or by the numbers of names. `run` says what they come to. No code here
//! reads a file or the words of a proof. The spots, and the numbers P01 to P06, P14 and P15, are for crates that do.
#![tactic(auto)]

mod active;
mod apart;
mod citation;
mod four_bytes;
mod gather;
mod kept;
mod lasting;
mod machine;
mod named;
mod numbering_laws;
mod pairs;
mod pattern;
mod run_laws;
mod sets;
mod slots;
mod step;
mod stepping;
mod symbol;
mod taken;
mod variables;
mod verdict_laws;

pub use active::Active;
pub use four_bytes::narrow;
pub use kept::Kept;
pub use lasting::Pattern;
pub use machine::Machine;
pub use named::{Cited, Use};
pub use numbering_laws::{
    numbers_keep_frames, numbers_keep_order, numbers_keep_pairs, numbers_keep_places,
    numbers_name_symbols, numbers_say_the_same,
};
pub use run_laws::{parts_are_run, sure_by_counting};
pub use slots::Slot;
pub use step::{Action, ProofFault, ProofStep};
pub use stepping::{RunOutcome, run};
pub use symbol::{CodedSymbol, NamedSymbol, NumberedSymbol, Symbol};
pub use verdict_laws::{
    derived_weighs_one, derives_at_most_one, has_count, has_one_count, has_one_step_fault,
    has_one_verdict, has_verdict, last_part_is_shortest, machine_reaches, never_turns_and_fails,
    only_mandatory_count, proved_is_derived, renaming_keeps_verdicts, same_proof_same_verdict,
    save_keeps_last_entry, shorter_weighs_less, turns_or_fails,
};

/// The number of a fault of a proof.
#[derive(Clone, Copy, Debug, PartialEq, Eq)]
pub enum ProofNumber {
    /// A label is that of no sound statement before this one.
    P01,
    /// A label is that of a hypothesis that is not active.
    P02,
    /// The list of labels has no `)`.
    P03,
    /// A byte of the letters is no letter.
    P04,
    /// A number is cut short.
    P05,
    /// A number is out of range.
    P06,
    /// The stack has fewer entries than the assertion has mandatory hypotheses.
    P07,
    /// An entry has another typecode than the mandatory `$f`.
    P08,
    /// An entry differs from the mandatory `$e` under the substitution.
    P09,
    /// The expressions for the variables of a mandatory pair share a variable.
    P10,
    /// Two variables, one in each of the expressions for a mandatory pair, are no active pair.
    P11,
    /// The result is too long.
    P12,
    /// There is no entry to save.
    P13,
    /// There is not one entry at the end.
    P14,
    /// The one entry at the end is not the statement.
    P15,
}

/// A place in a proof: a word, and a byte in a word of letters.
#[derive(Clone, Copy, Debug, PartialEq, Eq)]
pub struct Spot {
    /// The number of the word, from 0 at the first word after `$=`; the `$.` has the number after the last.
    pub word: usize,
    /// The number of the byte in the word, from 0; 0 if the word as a whole is meant.
    pub letter: usize,
}

/// The verdict on a proof.
#[derive(Clone, Copy, Debug, PartialEq, Eq)]
pub enum Verdict {
    /// All steps are known, and their expanded labels derive the statement.
    Proved,
    /// The first step that is not known is here, and none before it is at fault.
    Incomplete(Spot),
    /// The proof has this fault here.
    Wrong(ProofNumber, Spot),
}
