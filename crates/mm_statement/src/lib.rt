//! Statements: what each item of the files says, from the words of its text.
#![tactic(auto)]

mod examples;
mod laws;
mod plain_words;
mod statement;

pub use examples::databases_are_read_so;
pub use laws::{
    databases_are_there, files_have_one_database, items_are_located, missing_are_named,
    names_are_taken, one_range_says_one,
};
pub use mm_store::{
    Edit, Files, Item, ItemKind, Keyword, Place, TextError, TextFault, TextNumber, Word,
    WordCursor, WordKind, nth_word, place,
};
pub use plain_words::PlainWords;
pub use statement::{
    Statement, has_bytes, is_same_range, nth_of_proof, same_proof, words_of_proof,
};
