//! Calls of files, and the beginning of a session over them.

ghost use Rattle.std.specs.Prelude.{◌≡◌, IfErr, IfSome};
ghost use Rattle.mm_report.specs.mm_store.Language.FileFacts.{parked_in};

use crate::cases::{Row, Text};
use crate::codes::{edit_code, store_code};
use crate::marks::{Refused, refuse};
use crate::show::{say, show_files, show_items, tell};
use mm_report::{Edit, Files, Session, Unbegun};
use std::mem;

/// The files of a row, each added while a growth is refused, and again if memory ran out.
pub(crate) fn added(rt: &(impl Print + AllocGlobal), row: &Row) -> Files {
    let mut files = Files::new(rt.alloc());
    for text in row.texts {
        if !add(rt, &mut files, row, text, Refused::One) {
            add(rt, &mut files, row, text, Refused::Nothing);
        }
    }
    files
}

/// Adds a file, and prints what comes of it: whether there was memory for it.
pub(crate) fn add(
    rt: &impl Print,
    files: &mut Files,
    row: &Row,
    text: &Text,
    refused: Refused,
) -> bool {
    refuse(rt, refused);
    let added = files.add(text.name, text.bytes);
    refuse(rt, Refused::Nothing);
    let is_told = match added {
        Ok(()) => tell(rt, Some("added")),
        Err(error) => tell(rt, store_code(error)),
    };
    show_files(rt, files, row);
    is_told
}

/// Does each edit of a row on the files while a growth is refused, and again if memory ran out; and undoes it.
pub(crate) fn try_edits(rt: &impl Print, files: &mut Files, row: &Row) {
    for edit in row.edits {
        if !do_and_undo(rt, files, row, edit, Refused::One) {
            do_and_undo(rt, files, row, edit, Refused::Nothing);
        }
    }
}

/// Does an edit and undoes it, and prints what comes of it: whether there was memory for it.
pub(crate) fn do_and_undo(
    rt: &impl Print,
    files: &mut Files,
    row: &Row,
    edit: &Edit<'_>,
    refused: Refused,
) -> bool {
    refuse(rt, refused);
    let done = files.edit(edit);
    refuse(rt, Refused::Nothing);
    match done {
        Ok(undo) => {
            say(rt, "edited");
            show_files(rt, files, row);
            refuse(rt, Refused::All);
            files.undo(undo);
            refuse(rt, Refused::Nothing);
            say(rt, "undone");
            show_files(rt, files, row);
            true
        }
        Err(error) => {
            let is_told = tell(rt, edit_code(error));
            show_files(rt, files, row);
            is_told
        }
    }
}

/// Begins a session while a growth is refused, and again if memory ran out, over the files that were returned.
pub(crate) fn begun(rt: &(impl Print + AllocGlobal), files: Files, row: &Row) -> Option<Session> {
    match begin(rt, unparked(files)?, row.top, row, Refused::One) {
        Ok(session) => Some(session),
        Err(files) => begun_with_memory(rt, files, row),
    }
}

/// The files, if none of their pieces is parked: this holds of files that were only added, and if edits were undone.
fn unparked(files: Files) -> Option<Files>
    ensures { IfSome result (λ files. parked_in files ≡ 0) }
{
    if files.parked() == 0 {
        Some(files)
    } else {
        mem::forget(files);
        None
    }
}

/// The files of a row, added with ample memory.
pub(crate) fn added_with_memory(rt: &(impl Print + AllocGlobal), row: &Row) -> Option<Files>
    ensures { IfSome result (λ files. parked_in files ≡ 0) }
{
    let mut files = Files::new(rt.alloc());
    for text in row.texts {
        let _added = files.add(text.name, text.bytes);
    }
    unparked(files)
}

/// Begins a session with ample memory.
pub(crate) fn begun_with_memory(
    rt: &(impl Print + AllocGlobal),
    files: Files,
    row: &Row,
) -> Option<Session>
    requires { parked_in files ≡ 0 }
{
    match begin(rt, files, row.top, row, Refused::Nothing) {
        Ok(session) => Some(session),
        Err(files) => {
            mem::forget(files);
            None
        }
    }
}

/// Begins a session, and prints what comes of it: the session, or the files that are returned.
pub(crate) fn begin(
    rt: &(impl Print + AllocGlobal),
    files: Files,
    top: &[u8],
    row: &Row,
    refused: Refused,
) -> Result<Session, Files>
    requires { parked_in files ≡ 0 }
    ensures { IfErr result (λ files. parked_in files ≡ 0) }
{
    refuse(rt, refused);
    let begun = Session::begin(rt.alloc(), files, top);
    refuse(rt, Refused::Nothing);
    match begun {
        Ok((session, work)) => {
            show_items(rt, &session, "ran", work.runs());
            Ok(session)
        }
        Err(unbegun) => {
            let Unbegun { files, fault } = unbegun;
            tell(rt, store_code(fault));
            show_files(rt, &files, row);
            Err(files)
        }
    }
}
