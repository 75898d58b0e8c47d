//! What is answered while all growths are refused.

use crate::asking::ask_for_no_label;
use crate::cases::{Row, Text};
use crate::editing::{do_batch, do_edit};
use crate::marks::{Refused, refuse};
use crate::show::show_report;
use crate::storing::{add, added_with_memory, begin, begun_with_memory, do_and_undo};
use mm_report::{Edit, Files, Session};
use std::mem;

/// A name that no file has.
const NO_NAME: &[u8] = b"z.mm";

/// Asks for what takes no memory while all growths are refused.
pub(crate) fn answer_all_refused(rt: &(impl Print + AllocGlobal), row: &Row) {
    let _ = println!(rt; "== all");
    if let Some(mut files) = added_with_memory(rt, row) {
        ask_files(rt, &mut files, row);
        mem::forget(files);
    }
    begin_nowhere(rt, row);
    if let Some(files) = added_with_memory(rt, row)
        && let Some(mut session) = begun_with_memory(rt, files, row)
    {
        ask_session(rt, &mut session, row);
        mem::forget(session);
    }
}

/// The last piece of the top file put before the one before it; two edits that are refused.
fn edits_of(row: &Row) -> [Edit<'static>; 3] {
    [
        Edit::Move {
            file: row.top,
            at: 7,
            to: 6,
        },
        Edit::Delete {
            file: NO_NAME,
            at: 0,
        },
        Edit::Delete {
            file: row.top,
            at: 8,
        },
    ]
}

/// Asks of files: a move, refusals of edits, and a name that is known.
fn ask_files(rt: &impl Print, files: &mut Files, row: &Row) {
    for edit in edits_of(row) {
        do_and_undo(rt, files, row, &edit, Refused::All);
    }
    let known = Text {
        name: row.top,
        bytes: b"$c",
    };
    add(rt, files, row, &known, Refused::All);
}

/// Begins a session from a file that is not there.
fn begin_nowhere(rt: &(impl Print + AllocGlobal), row: &Row) {
    if let Some(files) = added_with_memory(rt, row) {
        match begin(rt, files, NO_NAME, row, Refused::All) {
            Ok(session) => mem::forget(session),
            Err(files) => mem::forget(files),
        }
    }
}

/// Asks of a session: refusals of edits, alone and at once, and lists for a label that is unknown.
fn ask_session(rt: &impl Print, session: &mut Session, row: &Row) {
    let [_, of_no_file, of_no_piece] = edits_of(row);
    do_edit(rt, session, row, &of_no_file, Refused::All);
    do_edit(rt, session, row, &of_no_piece, Refused::All);
    do_batch(rt, session, row, &[of_no_file, of_no_piece], Refused::All);
    do_batch(rt, session, row, &[of_no_piece, of_no_file], Refused::All);
    ask_for_no_label(rt, session);
}

/// Prints the report of a session while all growths are refused.
pub(crate) fn report_all_refused(rt: &impl Print, session: &Session) {
    refuse(rt, Refused::All);
    show_report(rt, session);
    refuse(rt, Refused::Nothing);
}
