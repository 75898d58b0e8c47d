//! What the program does not call of files: the text of one.

ghost use Rattle.std.specs.{Prelude.{◌≡◌, ◌↔◌, IfOk, IsTrue, Some}, Option.{option_map}};
ghost use Rattle.mm_report.specs.mm_store.Language.FilesView.{find_file, plain, text_of};

use mm_report::{Files, StoreError};
use std::alloc::AllocError;
use std::mem;

/// Whether there is a file of this name with this text. Tests rest on it, so it is proved, and not only run.
pub fn has_text(files: &Files, name: &[u8], wanted: &[u8]) -> Result<bool, AllocError>
    ensures { IfOk result (λ has. IsTrue has ↔ (option_map text_of (find_file (plain files.now) name.now) ≡ Some wanted.now)) }
{
    match files.text(name)? {
        Some(text) => Ok(text.as_slice() == wanted),
        None => Ok(false),
    }
}

/// Whether the files know no file of a name.
fn know_none(files: &Files, name: &[u8]) -> Result<bool, AllocError> {
    Ok(files.piece_count(name).is_none() && files.text(name)?.is_none())
}

/// Adds two files: one of a piece, with a comment after it, and one without a name, whose text has no line feed at its end.
fn add_two(files: &mut Files) -> Result<(), StoreError> {
    files.add(b"top", b"$c a $.\n$( end $)\n")?;
    files.add(b"", b"$c z $.")
}

/// Whether they hold what was added.
fn tell_two(files: &Files) -> bool {
    files.piece_count(b"top") == Some(1)
        && has_text(files, b"top", b"$c a $.\n$( end $)\n") == Ok(true)
        && has_text(files, b"", b"$c z $.\n") == Ok(true)
        && know_none(files, b"other") == Ok(true)
}

#[test]
fn a_file_has_the_text_that_was_added(rt: HostRuntime) {
    let mut files = Files::new(rt.alloc());
    let added = add_two(&mut files).is_ok();
    let told = tell_two(&files);
    mem::forget(files);
    assert!(rt; added && told);
}
