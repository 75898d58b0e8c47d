//! The text of a Metamath database: its words, and the lines and columns of its bytes.
//!
//! A text holds printable characters (the bytes 0x21 to 0x7E) and white space: tab, line feed, form feed,
//! carriage return and space. White space separates words. A comment runs from a word `$(` to the next word
//! `$)`; it counts as white space, may be anywhere, does not nest, and holds neither mark in any of its other
//! words. A word outside comments is one of the keywords, or holds no `$` (the Metamath book, section 4.1). A
//! text that keeps these rules has one list of words, which `words` finds; any other has one first fault, which
//! it reports.
//!
//! The words of a database make units: statements, inclusions, and blocks with units inside. `cut` cuts a text
//! into pieces with one unit each, or reports the first fault of its words or units, and `divided_cut` also divides
//! each piece into its statements. An `Edit` says what becomes of a piece of a file.
#![tactic(auto)]

mod cursor;
mod cutting;
mod division;
mod edit;
mod examples;
mod fault;
mod grammar;
mod laws;
mod location;
mod part;
mod pieces;
mod placing;
mod reader;
mod skipping;
mod spelling;
mod standard_words;
mod whole_text;
mod word;

pub use cursor::WordCursor;
pub use cutting::{cut, divided_cut};
pub use edit::Edit;
pub use examples::texts_are_read_so;
pub use fault::{TextError, TextFault, TextNumber};
pub use laws::{
    first_faults_are_within, one_cut, one_division, one_layout, one_meaning, one_unit_fault,
    one_unit_of_cut, parts_are_texts, stretches_stand_alone, words_stand_alone,
};
pub use location::Place;
pub use part::{Part, PartKind};
pub use pieces::{Cut, DividedCut, DividedPiece};
pub use placing::place;
pub use spelling::{could_label, ends_white};
pub use standard_words::standard_words_mean;
pub use whole_text::{nth_word, words};
pub use word::{Keyword, Word, WordKind};
