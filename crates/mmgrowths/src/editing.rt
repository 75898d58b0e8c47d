//! Edits of a session.

use crate::cases::Row;
use crate::codes::{batch_code, edit_code};
use crate::marks::{Refused, refuse};
use crate::show::{show_items, show_session, tell};
use mm_report::{Edit, Session, Work};

/// Does the edits of a row, one by one or all at once, each while a growth is refused, and again if memory ran out.
pub(crate) fn try_edits(rt: &impl Print, session: &mut Session, row: &Row) {
    show_session(rt, session, row);
    if row.is_batch {
        if !do_batch(rt, session, row, row.edits, Refused::One) {
            do_batch(rt, session, row, row.edits, Refused::Nothing);
        }
    } else {
        for edit in row.edits {
            if !do_edit(rt, session, row, edit, Refused::One) {
                do_edit(rt, session, row, edit, Refused::Nothing);
            }
        }
    }
}

/// Does an edit, and prints what comes of it: whether there was memory for it.
pub(crate) fn do_edit(
    rt: &impl Print,
    session: &mut Session,
    row: &Row,
    edit: &Edit<'_>,
    refused: Refused,
) -> bool {
    refuse(rt, refused);
    let done = session.edit(edit);
    refuse(rt, Refused::Nothing);
    let is_told = match done {
        Ok(work) => tell_runs(rt, session, &work),
        Err(error) => tell(rt, edit_code(error)),
    };
    show_session(rt, session, row);
    is_told
}

/// Does edits at once, and prints what comes of them: whether there was memory for them.
pub(crate) fn do_batch(
    rt: &impl Print,
    session: &mut Session,
    row: &Row,
    edits: &[Edit<'_>],
    refused: Refused,
) -> bool {
    refuse(rt, refused);
    let done = session.edit_all(edits);
    refuse(rt, Refused::Nothing);
    let is_told = match done {
        Ok(work) => tell_runs(rt, session, &work),
        Err(error) => tell(rt, batch_code(error)),
    };
    show_session(rt, session, row);
    is_told
}

/// Prints the labels of the proofs that were run.
fn tell_runs(rt: &impl Print, session: &Session, work: &Work) -> bool {
    show_items(rt, session, "ran", work.runs());
    true
}
