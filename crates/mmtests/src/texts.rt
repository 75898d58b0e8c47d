//! What the program does not call of texts: a list of words, a cursor that begins again, and a cut without parts; and how an
//! error is printed.

ghost use Rattle.std.specs.Prelude.{List};
ghost use Rattle.mm_text.specs.{Language.Reading.{HasWords}, declared.word.Word.{Word as Found}};

use bytes::Bytes;
use mm_text::{
    Cut, DividedCut, DividedPiece, Keyword, Part, PartKind, TextError, TextFault, TextNumber, Word,
    WordCursor, WordKind, cut, divided_cut, nth_word, words,
};
use std::alloc::Global;
use std::mem;

fn plain(start: usize, end: usize) -> Word {
    Word {
        kind: WordKind::Plain,
        start,
        end,
    }
}

fn keyword(keyword: Keyword, start: usize, end: usize) -> Word {
    Word {
        kind: WordKind::Keyword(keyword),
        start,
        end,
    }
}

/// The words that a cursor gives, and what it gives after the last; and the first that a cursor gives that began again after
/// the first word.
fn told(text: &[u8]) -> ([Option<Word>; 4], Option<Word>)
    requires { (words : List Found) × HasWords text.now words }
{
    let mut cursor = WordCursor::new(text);
    let first = cursor.next_word();
    let mut other = cursor.again();
    let found = [
        first,
        cursor.next_word(),
        cursor.next_word(),
        cursor.next_word(),
    ];
    (found, other.next_word())
}

/// The words with these numbers, the last of which no word has.
fn numbered(text: &[u8]) -> [Option<Word>; 4]
    requires { (words : List Found) × HasWords text.now words }
{
    [
        nth_word(text, 0),
        nth_word(text, 1),
        nth_word(text, 2),
        nth_word(text, 3),
    ]
}

/// Whether a text has these words, by a list, by a cursor and by their numbers.
fn has_words(alloc: Global, text: &[u8], wanted: [Word; 3]) -> bool {
    let each = [Some(wanted[0]), Some(wanted[1]), Some(wanted[2]), None];
    match words(alloc, text) {
        Ok(found) => {
            found.as_slice() == wanted.as_slice()
                && told(text) == (each, each[1])
                && numbered(text) == each
        }
        Err(_) => false,
    }
}

#[test]
fn finds_the_words_outside_comments(rt: HostRuntime) {
    let wanted = [
        keyword(Keyword::Constants, 8, 10),
        plain(11, 12),
        keyword(Keyword::StatementEnd, 13, 15),
    ];
    assert!(rt; has_words(rt.alloc(), b"$( x $) $c a $.\n", wanted));
}

/// A text with two units, a comment before the second, and a tail.
const TEXT: &[u8] = b"$c a $. $( x $) ${ l $a a $. $} $( y $)";

/// Its first piece, and the part of it.
const FIRST: &[u8] = b"$c a $. ";

const CONSTANTS: &[Part] = &[Part {
    kind: PartKind::Constants,
    start: 0,
    end: 7,
}];

/// Its second piece, and the parts of it.
const SECOND: &[u8] = b"$( x $) ${ l $a a $. $} ";

const BLOCK: &[Part] = &[
    Part {
        kind: PartKind::BlockStart,
        start: 8,
        end: 10,
    },
    Part {
        kind: PartKind::Axiom,
        start: 11,
        end: 20,
    },
    Part {
        kind: PartKind::BlockEnd,
        start: 21,
        end: 23,
    },
];

/// Its tail.
const TAIL: &[u8] = b"$( y $)\n";

/// Whether the pieces and the tail are those of the text.
fn is_cut(found: &Cut) -> bool {
    match found.pieces.as_slice() {
        [first, second] => {
            found.tail.as_slice() == TAIL
                && first.as_slice() == FIRST
                && second.as_slice() == SECOND
        }
        _ => false,
    }
}

#[test]
fn cuts_into_pieces(rt: HostRuntime) {
    let found = cut(rt.alloc(), TEXT);
    let right = match &found {
        Ok(found) => is_cut(found),
        Err(_) => false,
    };
    mem::forget(found);
    assert!(rt; right);
}

/// Whether a piece has this text and these parts.
fn is_divided(piece: &DividedPiece, text: &[u8], parts: &[Part]) -> bool {
    piece.text.as_slice() == text && piece.parts.as_slice() == parts
}

/// Whether the pieces, with their parts, and the tail are those of the text.
fn are_divided(found: &DividedCut) -> bool {
    match found.pieces.as_slice() {
        [first, second] => {
            found.tail.as_slice() == TAIL
                && is_divided(first, FIRST, CONSTANTS)
                && is_divided(second, SECOND, BLOCK)
        }
        _ => false,
    }
}

#[test]
fn cuts_into_pieces_with_parts(rt: HostRuntime) {
    let text = Bytes::from_static(TEXT);
    let found = divided_cut(rt.alloc(), &text);
    let right = match &found {
        Ok(found) => are_divided(found),
        Err(_) => false,
    };
    mem::forget(found);
    mem::forget(text);
    assert!(rt; right);
}

/// Whether an error is printed like this.
fn is_printed(alloc: Global, error: TextError, wanted: &str) -> bool {
    match format!(in alloc; "{error}") {
        Ok(text) => text.as_str() == wanted,
        Err(_) => false,
    }
}

#[test]
fn prints_errors(rt: HostRuntime) {
    let fault = TextFault {
        number: TextNumber::T05,
        at: 3,
    };
    let placed = is_printed(rt.alloc(), TextError::Fault(fault), "T05 at byte 3");
    let told = is_printed(rt.alloc(), TextError::Memory, "out of memory");
    assert!(rt; placed && told);
}
