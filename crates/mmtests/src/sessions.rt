//! What a script does not show of the edits of a session: how many pieces are parked after each.

use mm_report::{Edit, Files, Session};
use std::alloc::Global;
use std::mem;

const NAME: &[u8] = b"a.mm";

/// A logic, and a theorem by its rule: seven pieces.
const LOGIC: &[u8] =
    b"$c wff |- -> ( ) $.\n$v p q $.\nwp $f wff p $.\nwq $f wff q $.\nwi $a wff ( p -> q ) $.\n\
        ${ mi $e |- p $. ma $e |- ( p -> q ) $. mp $a |- q $. $}\n\
        ${ h1 $e |- p $. h2 $e |- ( p -> q ) $. th $p |- q $= wp wq h1 h2 mp $. $}\n";

/// The first piece in its own place.
const ITSELF: Edit<'static> = Edit::Replace {
    file: NAME,
    at: 0,
    text: b"$c wff |- -> ( ) $.\n",
};

/// Whether an edit that puts the first piece in its own place runs nothing, and leaves no piece parked.
fn is_quiet(session: &mut Session) -> bool {
    match session.edit(&ITSELF) {
        Ok(work) => work.runs().is_empty() && session.files().parked() == 0,
        Err(_) => false,
    }
}

/// Whether a hundred such edits do.
fn are_quiet(session: &mut Session) -> bool {
    for _ in 0..100 {
        if !is_quiet(&mut *session) {
            return false;
        }
    }
    true
}

/// Whether a session over the logic begins with one run, and stays quiet. It is not taken apart afterwards.
fn stays_quiet(alloc: Global) -> bool {
    let mut files = Files::new(alloc);
    // No piece of files that were only added is parked.
    if files.add(NAME, LOGIC).is_err() || files.parked() != 0 {
        mem::forget(files);
        return false;
    }
    let mut begun = Session::begin(alloc, files, NAME);
    let stays = match &mut begun {
        Ok((session, work)) => work.runs().len() == 1 && are_quiet(session),
        Err(_) => false,
    };
    mem::forget(begun);
    stays
}

#[test]
fn no_piece_is_parked_after_each_of_a_hundred_edits(rt: HostRuntime) {
    let stays = stays_quiet(rt.alloc());
    assert!(rt; stays);
}
