//! What is printed of files and of sessions.

use crate::cases::Row;
use mm_report::{Files, Session, Writing, write_report};
use std::io;

/// Prints bytes.
fn show(rt: &impl Print, bytes: &[u8]) {
    let mut writing = Writing::new(io::writer(rt));
    let _shown = writing.write_all(bytes);
}

/// Prints a line.
pub(crate) fn say(rt: &impl Print, line: &str) {
    show(rt, line.as_bytes());
    show(rt, b"\n");
}

/// Prints how a call was refused: whether for another reason than memory.
pub(crate) fn tell(rt: &impl Print, code: Option<&'static str>) -> bool {
    say(rt, code.unwrap_or("out of memory"));
    code.is_some()
}

/// Prints the text of a file.
fn show_text(rt: &impl Print, files: &Files, name: &[u8]) {
    match files.text(name) {
        Ok(Some(text)) => show(rt, &text),
        Ok(None) => say(rt, "no file"),
        Err(_) => say(rt, "out of memory"),
    }
}

/// Prints the text of each file of a row, and how many pieces are parked.
pub(crate) fn show_files(rt: &impl Print, files: &Files, row: &Row) {
    for text in row.texts {
        say(rt, "text");
        show_text(rt, files, text.name);
    }
    let _ = println!(rt; "parked {}", files.parked());
}

/// Prints the report of a session.
pub(crate) fn show_report(rt: &impl Print, session: &Session) {
    let mut writing = Writing::new(io::writer(rt));
    let _shown = write_report(session, &mut writing);
}

/// Prints the report of a session, the text of each of its files, and how many pieces are parked.
pub(crate) fn show_session(rt: &impl Print, session: &Session, row: &Row) {
    say(rt, "report");
    show_report(rt, session);
    show_files(rt, session.files(), row);
}

/// Prints what a list of items is, and their labels.
pub(crate) fn show_items(rt: &impl Print, session: &Session, what: &str, items: &[usize]) {
    let _ = println!(rt; "{what} {}", items.len());
    for item in items {
        show(rt, session.label(*item).unwrap_or(b""));
        show(rt, b"\n");
    }
}
