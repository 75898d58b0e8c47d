//! What the program does not look up in a base, its items and texts: the hypotheses of a frame, and where things are.

ghost use Rattle.std.specs.Prelude.{All};
ghost use Rattle.mm_report.specs.mm_store.Language.FileFacts.{CanBeRead, StandsIn};

use mm_frame::words_of_proof;
use mm_report::{Base, Files, Item, Names, Place, StoreError, Walk, fits, place};
use std::alloc::{AllocError, Global};
use std::mem;

const NAME: &[u8] = b"a.mm";

/// A logic, and an axiom in a block whose hypotheses are a `$e` and then a `$f`.
const LOGIC: &[u8] =
    b"$c wff |- -> ( ) $.\n$v p q $.\nwp $f wff p $.\nwq $f wff q $.\nwi $a wff ( p -> q ) $.\n\
        ${ e1 $e |- p $. $v r $. wr $f wff r $. a3 $a |- r $. $}\nt $p wff p $= wp $.\n";

/// The lines and columns where its items begin.
const PLACES: &[(u64, u64)] = &[
    (1, 1),
    (2, 1),
    (3, 1),
    (4, 1),
    (5, 1),
    (6, 1),
    (6, 4),
    (6, 18),
    (6, 26),
    (6, 41),
    (6, 55),
    (7, 1),
];

/// The hypotheses of the frame of the axiom in the block are in the order of their items, `$f` and `$e` alike.
fn are_in_order(base: &Base) -> bool {
    match base.frame(9) {
        Some(frame) => frame.hypotheses.as_slice() == [2, 6, 8].as_slice(),
        None => false,
    }
}

/// Whether they are so in the base of the logic. What it makes is not taken apart: dropping a base makes a function slow to
/// prove.
fn has_hypotheses(alloc: Global, files: &Files) -> bool {
    let mut names = Names::new(alloc);
    let base = Base::build(alloc, &mut names, files, NAME);
    let ordered = match &base {
        Ok(base) => are_in_order(base),
        Err(_) => false,
    };
    mem::forget(base);
    mem::forget(names);
    ordered
}

/// Whether a statement has a proof of one word.
fn has_one_word(files: &Files, item: &Item) -> bool
    requires { CanBeRead files.now item.now }
{
    let mut proof = words_of_proof(files, item);
    proof.next_word().is_some() && proof.next_word().is_none()
}

/// Where an item begins in the text of its file.
fn place_of(files: &Files, item: &Item) -> Place
    requires read { CanBeRead files.now item.now }
    requires stands { StandsIn files.now item.now }
{
    files.place(item.file, item.piece, item.start)
}

/// Whether the items begin where they have to.
fn begin_so(files: &Files, items: &[Item]) -> bool
    requires read { All (CanBeRead files.now) items.now }
    requires stand { All (StandsIn files.now) items.now }
{
    for (k, item) in items.iter().enumerate() {
        let Place { line, column } = place_of(files, item);
        if PLACES.get(k) != Some(&(line, column)) {
            return false;
        }
    }
    items.len() == PLACES.len()
}

/// Whether the items have their places, and the last one a proof of one word.
fn have_places(files: &Files) -> Result<bool, StoreError> {
    let items = files.statements(NAME)?;
    let placed = match items.last() {
        Some(item) => { begin_so(files, &items) && has_one_word(files, item) }
        None => false,
    };
    mem::forget(items);
    Ok(placed)
}

#[test]
fn a_base_and_its_items_have_their_places(rt: HostRuntime) {
    let mut files = Files::new(rt.alloc());
    let added = files.add(NAME, LOGIC).is_ok();
    let framed = has_hypotheses(rt.alloc(), &files);
    let placed = have_places(&files);
    mem::forget(files);
    assert!(rt; added && framed && placed == Ok(true));
}

/// Whether this name is missing next.
fn is_next(walk: &mut Walk, files: &Files) -> Result<bool, AllocError> {
    match walk.next_missing(files)? {
        Some(name) => Ok(name.as_slice() == b"z.mm".as_slice()),
        None => Ok(false),
    }
}

/// Whether a walk reports the one name that is missing, and no other after it.
fn tells_once(walk: &mut Walk, files: &Files) -> Result<bool, AllocError> {
    Ok(is_next(&mut *walk, files)? && walk.next_missing(files)?.is_none())
}

/// Whether a walk does so.
fn is_told_once(files: &Files) -> bool {
    let mut walk = files.walk(b"t.mm");
    let told = match &mut walk {
        Ok(walk) => tells_once(walk, files) == Ok(true),
        Err(_) => false,
    };
    mem::forget(walk);
    told
}

#[test]
fn a_missing_name_is_told_once(rt: HostRuntime) {
    let mut files = Files::new(rt.alloc());
    let text = b"$[ t.mm $] $[ z.mm $] $[ z.mm $]\n";
    let added = files.add(b"t.mm", text).is_ok();
    let told = is_told_once(&files);
    mem::forget(files);
    assert!(rt; added && told);
}

/// A line and a column.
fn at(line: u64, column: u64) -> Place {
    Place { line, column }
}

#[test]
fn bytes_have_places_and_fit(rt: HostRuntime) {
    let text = b"ab\nc";
    let places = [place(text, 2), place(text, 3), place(text, 4)];
    assert!(rt; places == [at(1, 3), at(2, 1), at(2, 2)]);
    assert!(rt; fits(4294967294, 1) && !fits(4294967295, 1));
}
