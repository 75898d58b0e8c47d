//! Edits of files that are refused, and some that are done and undone.

ghost use Rattle.std.specs.Prelude.{◌≡◌};

use crate::files::has_text;
use mm_report::{Edit, EditError, Files, TextFault, TextNumber};
use std::mem;

const NAME: &[u8] = b"a.mm";

/// A logic: six pieces.
const LOGIC: &[u8] =
    b"$c wff |- -> ( ) $.\n$v p q $.\nwp $f wff p $.\nwq $f wff q $.\nwi $a wff ( p -> q ) $.\n\
        ${ mi $e |- p $. ma $e |- ( p -> q ) $. mp $a |- q $. $}\n";

/// The same with one piece more, of sixteen bytes.
const LONGER: &[u8] =
    b"$c k $. $( x $)\n$c wff |- -> ( ) $.\n$v p q $.\nwp $f wff p $.\nwq $f wff q $.\nwi $a wff ( p -> q ) $.\n\
        ${ mi $e |- p $. ma $e |- ( p -> q ) $. mp $a |- q $. $}\n";

/// The first byte of a text is that of a statement that is not finished.
const UNFINISHED: TextFault = TextFault {
    number: TextNumber::T07,
    at: 0,
};

/// Whether a file has this many pieces and this text.
fn has(files: &Files, count: usize, text: &[u8]) -> bool {
    files.piece_count(NAME) == Some(count) && has_text(files, NAME, text) == Ok(true)
}

/// Whether an edit is refused for a reason, and the file stays as it was.
fn is_refused(files: &mut Files, edit: &Edit<'_>, reason: EditError) -> bool {
    match files.edit(edit) {
        Ok(undo) => {
            files.settle(undo);
            false
        }
        Err(error) => error == reason && has(files, 6, LOGIC),
    }
}

/// Whether each is refused.
fn are_refused(files: &mut Files, rows: &[(Edit<'_>, EditError)]) -> bool {
    for (edit, reason) in rows {
        if !is_refused(&mut *files, edit, *reason) {
            return false;
        }
    }
    true
}

/// Edits that are refused, with the reasons. A text is put in before the first piece.
const REFUSED: &[(Edit<'static>, EditError)] = &[
    (Edit::Delete { file: NAME, at: 6 }, EditError::NoPiece(6)),
    (
        Edit::Insert {
            file: NAME,
            at: 0,
            text: b"$c a $. $c b $.\n",
        },
        EditError::NotOne(2),
    ),
    (
        Edit::Insert {
            file: NAME,
            at: 0,
            text: b"x $a wff p\n",
        },
        EditError::Text(UNFINISHED),
    ),
    (
        Edit::Insert {
            file: NAME,
            at: 0,
            text: b"",
        },
        EditError::NotOne(0),
    ),
    (
        Edit::Delete {
            file: b"z.mm",
            at: 0,
        },
        EditError::NoFile,
    ),
];

#[test]
fn a_refused_edit_leaves_the_text(rt: HostRuntime) {
    let mut files = Files::new(rt.alloc());
    let added = files.add(NAME, LOGIC).is_ok();
    let refused = are_refused(&mut files, REFUSED);
    mem::forget(files);
    assert!(rt; added && refused);
}

/// Whether the first piece of the longer text is the one that it has more. It is then put back.
fn loses_its_first(files: &mut Files) -> bool
    ensures { files.new ≡ files.old }
{
    match files.edit(&Edit::Delete { file: NAME, at: 0 }) {
        Ok(undo) => {
            let lost = has(files, 6, LOGIC);
            files.undo(undo);
            lost
        }
        Err(_) => false,
    }
}

/// Whether an insertion is done, its piece can be deleted and put back, and is then undone.
fn goes_there_and_back(files: &mut Files) -> bool {
    let insertion = Edit::Insert {
        file: NAME,
        at: 0,
        text: b"$c k $. $( x $)",
    };
    match files.edit(&insertion) {
        Ok(undo) => {
            let done = has(files, 7, LONGER);
            let lost = loses_its_first(files);
            let again = has(files, 7, LONGER);
            files.undo(undo);
            done && lost && again && has(files, 6, LOGIC)
        }
        Err(_) => false,
    }
}

#[test]
fn an_insertion_is_undone(rt: HostRuntime) {
    let mut files = Files::new(rt.alloc());
    let added = files.add(NAME, LOGIC).is_ok();
    let undone = goes_there_and_back(&mut files);
    mem::forget(files);
    assert!(rt; added && undone);
}

/// The first piece with one constant more.
const WIDER: &[u8] = b"$c wff |- -> ( ) k $.\n";

/// The logic with this piece.
const WIDENED: &[u8] =
    b"$c wff |- -> ( ) k $.\n$v p q $.\nwp $f wff p $.\nwq $f wff q $.\nwi $a wff ( p -> q ) $.\n\
        ${ mi $e |- p $. ma $e |- ( p -> q ) $. mp $a |- q $. $}\n";

/// Whether a replaced piece is parked, and no more once the edit is settled.
fn settles_one(files: &mut Files) -> bool {
    let replacement = Edit::Replace {
        file: NAME,
        at: 0,
        text: WIDER,
    };
    match files.edit(&replacement) {
        Ok(undo) => {
            let is_parked = files.parked() == 1;
            files.settle(undo);
            is_parked && files.parked() == 0 && has(files, 6, WIDENED)
        }
        Err(_) => false,
    }
}

#[test]
fn a_replaced_piece_is_parked_until_it_is_settled(rt: HostRuntime) {
    let mut files = Files::new(rt.alloc());
    let added = files.add(NAME, LOGIC).is_ok();
    let settled = settles_one(&mut files);
    mem::forget(files);
    assert!(rt; added && settled);
}
