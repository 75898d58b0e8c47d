//! Scripts: the streams that they come and go through, and how their commands are read.
#![tactic(auto)]

mod command;
mod edits;
mod entry;
mod error;
mod input;
mod laws;
mod line;
mod read_stream;
mod script_lines;
mod stream;

pub use command::{CommandAt, Complete, EditAt, PendingRange, Question, bytes_of, edit_of};
pub use entry::next_command;
pub use error::ScriptError;
pub use input::Input;
pub use laws::{
    commands_leave_nothing, divisions_agree, has_reading, one_reading, reading_goes_on,
    readings_join, scripts_are_read_so,
};
pub use mm_text::{Edit, Keyword, Place, Word, WordKind, nth_word, place};
pub use read_stream::{ReadFailed, Reading};
pub use stream::{WriteFailed, Writing};
