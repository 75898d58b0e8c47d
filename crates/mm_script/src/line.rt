//! What a line of a script asks for.

ghost use Rattle.std.specs.Prelude.{◌≡◌, ◌≢◌, ◌<◌, ◌^◌, ◌++◌, ◌∷◌, true, false, None, decimal, length, IfSome, List, Option, ℕ};
ghost use Rattle.mm_text.specs.Language.Asked.{Asked};
ghost use Rattle.mm_script.specs.{declared.command.Question.{Question}, Code.{Growing.{IsLineAt, line_bytes}, Lines.{AreNumbers, CutsAt, CutsName, HasNoSpace, SaysEdit, SaysLine}, Stops.{IsOneLine}}};
ghost use Rattle.mm_script.specs.Language.Script.{Command, IsGood, IsGoodEdit, IsName, IsNumber, edit_line, line_of, question_word};

use crate::command::{CommandAt, EditAt, PendingRange, Question};
use crate::script_lines::LineAt;
use itoa::Buffer;
use memchr::memchr;
use std::str;

/// What a line asks for.
#[derive(Drop)]
pub(crate) enum CommandLine {
    /// An edit. Its text, if it has one, is where it has to be: after the line.
    Change(EditAt),
    /// This many edits come after the line.
    Batch(usize),
    /// A command that is no more than the line.
    Alone(CommandAt),
}

/// What comes before the first space, and what after it.
fn cut_at_space(bytes: &[u8]) -> Option<(&[u8], &[u8])>
    ensures some { IfSome result (λ cut. CutsAt bytes.now cut.0.now cut.1.now) }
    ensures none { result ≡ None → HasNoSpace bytes.now }
{
    match memchr(b' ', bytes) {
        Some(at) => Some((&bytes[..at], &bytes[at + 1..])),
        None => None,
    }
}

/// The number that is written like this: in decimal, without sign or leading zeros, at most 4,294,967,295.
fn number(word: &[u8]) -> Option<usize>
    ensures some { IfSome result (λ n. IsNumber n × (word.now ≡ decimal n)) }
    ensures none { result ≡ None → (n : ℕ) → IsNumber n → word.now ≢ decimal n }
{
    let Ok(text) = str::from_utf8(word) else {
        return None;
    };
    let Ok(number) = text.parse::<u32>() else {
        return None;
    };
    if Buffer::new().format(number).as_bytes() == word {
        Some(number as usize)
    } else {
        None
    }
}

/// The two numbers that are written like this, with a space between them.
fn two_numbers(bytes: &[u8]) -> Option<(usize, usize)>
    ensures some { IfSome result (λ both. AreNumbers bytes.now both.0 both.1) }
    ensures none { result ≡ None → (n m : ℕ) → IsNumber n → IsNumber m → bytes.now ≢ decimal n ++ 32 ∷ decimal m }
{
    let (first, second) = cut_at_space(bytes)?;
    Some((number(first)?, number(second)?))
}

/// The name of a file, and what comes after the space behind it.
fn name_and_rest(bytes: &[u8]) -> Option<(&[u8], &[u8])>
    requires { IsOneLine bytes.now }
    ensures some { IfSome result (λ cut. CutsName bytes.now cut.0.now cut.1.now) }
    ensures none { result ≡ None → (name tail : List ℕ) → IsName name → bytes.now ≢ name ++ 32 ∷ tail }
{
    let (name, rest) = cut_at_space(bytes)?;
    if name.is_empty() {
        return None;
    }
    Some((name, rest))
}

/// Whether this is a label or the name of a file: some bytes, without a space.
fn is_name(word: &[u8]) -> bool
    requires { IsOneLine word.now }
    ensures yes { result ≡ true → IsName word.now }
    ensures not { result ≡ false → ¬ IsName word.now }
{
    !word.is_empty() && cut_at_space(word).is_none()
}

/// The edit that a line asks for; none if the line is that of no edit.
pub(crate) fn edit_asked(bytes: &[u8], line: LineAt) -> Option<EditAt>
    requires line { (left : Option (List ℕ)) × IsLineAt bytes.now left line }
    requires few { length bytes.now < 2 ^ 63 }
    ensures some { IfSome result (SaysEdit bytes.now line) }
    ensures none { result ≡ None → (edit : Asked) → IsGoodEdit edit → line_bytes bytes.now line ≢ edit_line edit }
{
    let (word, rest) = cut_at_space(&bytes[line.start..line.end])?;
    let (name, numbers) = name_and_rest(rest)?;
    let start = line.start + word.len() + 1;
    let file = PendingRange {
        start,
        end: start + name.len(),
    };
    if word == b"delete".as_slice() {
        let at = number(numbers)?;
        return Some(EditAt::Delete { file, at });
    }
    let (at, other) = two_numbers(numbers)?;
    if word == b"move".as_slice() {
        return Some(EditAt::Move {
            file,
            at,
            to: other,
        });
    }
    let text = PendingRange {
        start: line.end + 1,
        end: line.end + 1 + other,
    };
    if word == b"insert".as_slice() {
        Some(EditAt::Insert { file, at, text })
    } else if word == b"replace".as_slice() {
        Some(EditAt::Replace { file, at, text })
    } else {
        None
    }
}

/// The question that is asked by this word.
fn question_of(word: &[u8]) -> Option<Question>
    ensures some { IfSome result (λ question. word.now ≡ question_word question) }
    ensures none { result ≡ None → (question : Question) → word.now ≢ question_word question }
{
    match word {
        b"verdict" => Some(Question::Verdict),
        b"axioms" => Some(Question::Axioms),
        b"cites" => Some(Question::Cites),
        b"users" => Some(Question::Users),
        _ => None,
    }
}

/// What a line asks for; none if the line is that of no command.
pub(crate) fn command_asked(bytes: &[u8], line: LineAt) -> Option<CommandLine>
    requires line { (left : Option (List ℕ)) × IsLineAt bytes.now left line }
    requires few { length bytes.now < 2 ^ 63 }
    ensures some { IfSome result (SaysLine bytes.now line) }
    ensures none { result ≡ None → (command : Command) → IsGood command → line_bytes bytes.now line ≢ line_of command }
{
    let text = &bytes[line.start..line.end];
    if text == b"report".as_slice() {
        return Some(CommandLine::Alone(CommandAt::Report));
    }
    let (word, rest) = cut_at_space(text)?;
    if word == b"batch".as_slice() {
        return Some(CommandLine::Batch(number(rest)?));
    }
    let Some(question) = question_of(word) else {
        return Some(CommandLine::Change(edit_asked(bytes, line)?));
    };
    if !is_name(rest) {
        return None;
    }
    let start = line.start + word.len() + 1;
    let label = PendingRange {
        start,
        end: start + rest.len(),
    };
    Some(CommandLine::Alone(CommandAt::Ask(question, label)))
}
