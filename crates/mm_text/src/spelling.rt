//! How words are spelled.

ghost use Rattle.std.specs.{Prelude.{◌≡◌, ◌<◌, ◌≤◌, ◌↔◌, IfSome, IsTrue, Some, false, length, not, take}, List.{list_all, position, prefix_len}};
ghost use Rattle.mm_text.specs.Language.{Run.{is_white, is_solid, ends_run}, Reading.{is_allowed}, Spelling.{opening, closing}};
ghost use Rattle.mm_text.specs.Code.LeftToRight.{has_dollar, is_dollarless, keyword_at, word_kind, is_mark, holds_mark};
ghost use Rattle.mm_text.specs.declared.word.WordKind.TheVariants as kinds;
ghost use Rattle.mm_text.specs.Language.Cut as pieces;
ghost use Rattle.mm_text.specs.Language.Unit as labels;

use crate::word::{Keyword, WordKind};

/// Whether a byte is a space, a tab, a carriage return, a line feed or a form feed.
#[tactic(auto, unfolding(crate::specs::Language::Run::is_white))]
pub fn is_white_space(byte: u8) -> bool
    ensures { result ≡ is_white byte }
{
    byte <= b' ' && matches!(byte, b' ' | b'\t' | b'\r' | b'\n' | 0x0c)
}

/// Whether a text may hold this byte.
#[tactic(auto, unfolding(crate::specs::Language::Reading::is_allowed, crate::specs::Language::Run::is_white))]
pub fn is_text_byte(byte: u8) -> bool
    ensures { result ≡ is_allowed byte }
{
    matches!(byte, b' '..=b'~') || (matches!(byte, b'\t'..=b'\r') && byte != 0x0b)
}

/// How much white space these bytes begin with.
pub fn white_len(bytes: &[u8]) -> usize
    ensures within { result ≤ length bytes.now }
    ensures value { result ≡ prefix_len is_white bytes.now }
{
    bytes
        .iter()
        .take_while(|byte| is_white_space(**byte))
        .count()
}

/// How many bytes are before the first white space, or before the end.
pub fn run_len(bytes: &[u8]) -> usize
    ensures within { result ≤ length bytes.now }
    ensures value { result ≡ prefix_len is_solid bytes.now }
{
    bytes
        .iter()
        .take_while(|byte| !is_white_space(**byte))
        .count()
}

/// Whether a byte is neither white space nor a `$`. One comparison decides for most bytes.
#[tactic(auto, unfolding(crate::specs::Language::Run::is_white))]
fn is_plain_byte(byte: u8) -> bool
    ensures { result ≡ is_dollarless byte }
{
    byte > b'$' || !(byte == b'$' || is_white_space(byte))
}

/// The length of the run that these bytes begin with, if it has no `$`; 0 if it has one, or if there is no run.
pub fn plain_run_len(bytes: &[u8]) -> usize
    ensures within { result ≤ length bytes.now }
    ensures len { 0 < result → result ≡ prefix_len is_solid bytes.now }
    ensures plain { 0 < result → has_dollar (take result bytes.now) ≡ false }
{
    let mut n = 0;
    while n < bytes.len() && is_plain_byte(bytes[n]) {
        n += 1;
    }
    if n < bytes.len() && bytes[n] == b'$' {
        return 0;
    }
    n
}

/// The keyword that has this byte after its `$`, if there is one.
fn keyword_of(byte: u8) -> Option<Keyword>
    ensures { result ≡ keyword_at byte }
{
    match byte {
        b'{' => Some(Keyword::BlockStart),
        b'}' => Some(Keyword::BlockEnd),
        b'c' => Some(Keyword::Constants),
        b'v' => Some(Keyword::Variables),
        b'f' => Some(Keyword::Floating),
        b'e' => Some(Keyword::Essential),
        b'd' => Some(Keyword::Disjoint),
        b'a' => Some(Keyword::Axiom),
        b'p' => Some(Keyword::Theorem),
        b'.' => Some(Keyword::StatementEnd),
        b'=' => Some(Keyword::ProofStart),
        b'[' => Some(Keyword::InclusionStart),
        b']' => Some(Keyword::InclusionEnd),
        _ => None,
    }
}

/// Whether these bytes begin with white space, or are none.
fn is_end_of_run(bytes: &[u8]) -> bool
    ensures { result ≡ ends_run bytes.now }
{
    match bytes {
        [byte, ..] => is_white_space(*byte),
        [] => true,
    }
}

/// The keyword that these bytes begin with, if it is a whole run. A comment mark is no keyword.
pub fn keyword_run(bytes: &[u8]) -> Option<Keyword>
    ensures within { IfSome result (λ _. 2 ≤ length bytes.now) }
    ensures len { IfSome result (λ _. prefix_len is_solid bytes.now ≡ 2) }
    ensures kind { IfSome result (λ keyword. word_kind (take 2 bytes.now) ≡ Some (kinds.Keyword keyword)) }
{
    match bytes {
        [b'$', byte, behind @ ..] if is_end_of_run(behind) => keyword_of(*byte),
        _ => None,
    }
}

/// What kind of word a run outside comments is: `None` if it has a `$` and is no keyword.
pub fn kind(run: &[u8]) -> Option<WordKind>
    ensures { result ≡ word_kind run.now }
{
    match run {
        [b'$', byte] => keyword_of(*byte).map(WordKind::Keyword),
        _ => {
            if run.contains(&b'$') {
                None
            } else {
                Some(WordKind::Plain)
            }
        }
    }
}

/// Whether a run is the word `$(`, which begins a comment.
pub fn is_opening(run: &[u8]) -> bool
    ensures { IsTrue result ↔ (run.now ≡ opening) }
{
    matches!(run, b"$(")
}

/// Whether a run is the word `$)`, which ends a comment.
pub fn is_closing(run: &[u8]) -> bool
    ensures { IsTrue result ↔ (run.now ≡ closing) }
{
    matches!(run, b"$)")
}

/// Whether these bytes are `$(` or `$)`.
fn is_comment_mark(first: u8, second: u8) -> bool
    ensures { result ≡ is_mark first second }
{
    first == b'$' && (second == b'(' || second == b')')
}

/// Whether `$(` or `$)` is somewhere in a run.
pub fn has_mark(run: &[u8]) -> bool
    ensures { result ≡ holds_mark run.now }
{
    for i in 1..run.len() {
        if is_comment_mark(run[i - 1], run[i]) {
            return true;
        }
    }
    false
}

/// Whether a label may have this byte: a letter, a digit, `-`, `_` or `.`.
#[tactic(auto, unfolding(crate::specs::Language::Unit::is_label_byte))]
fn is_label_byte(byte: u8) -> bool
    ensures { result ≡ labels.is_label_byte byte }
{
    matches!(byte, b'0'..=b'9' | b'A'..=b'Z' | b'a'..=b'z' | b'-' | b'_' | b'.')
}

/// Whether a plain word could be a label: letters, digits, `-`, `_` and `.` alone.
pub fn could_label(word: &[u8]) -> bool
    ensures { result ≡ list_all labels.is_label_byte word.now }
{
    word.iter().all(|byte| is_label_byte(*byte))
}

/// Whether a text ends in white space, so that `cut` adds no line feed; the empty text counts as one that does. It takes no
/// memory.
pub fn ends_white(bytes: &[u8]) -> bool
    ensures { result ≡ pieces.ends_white bytes.now }
{
    match bytes.last() {
        Some(last) => is_white_space(*last),
        None => true,
    }
}
