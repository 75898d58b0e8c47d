//! Which words are a command.

ghost use Rattle.std.specs.Prelude.{◌≡◌, Some, None, IfOk, IfSome, IfNone, map, string_bytes};
ghost use Rattle.mmkeep.specs.{Language.Asking.{file_of, given, said, words_of}, declared.arguments.Invocation.{Invocation}};

use crate::arguments::Invocation;
use std::alloc::{AllocError, Global};

/// The command that these words are, those after the program's name: `verify FILE`, `axioms FILE LABEL` or
/// `session FILE`, with any words as FILE and LABEL.
///
/// Takes no memory.
pub fn command<'a>(words: &[&'a str]) -> Option<Invocation<'a>>
    ensures some { IfSome result (λ asked. said words.now ≡ words_of asked) }
    ensures none { result ≡ None → (asked : Invocation) → ¬ (said words.now ≡ words_of asked) }
{
    match words {
        [verb, file] if *verb == "verify" => Some(Invocation::Verify(file)),
        [verb, file, label] if *verb == "axioms" => Some(Invocation::Axioms(file, label)),
        [verb, file] if *verb == "session" => Some(Invocation::Session(file)),
        _ => None,
    }
}

/// These arguments as words.
fn words_in(alloc: Global, arguments: &[String]) -> Result<Vec<&str>, AllocError>
    ensures { IfOk result (λ words. said words.items ≡ map (λ argument. string_bytes argument) arguments.now) }
{
    let mut words = Vec::new(alloc);
    for argument in arguments {
        words.push(argument.as_str())?;
    }
    Ok(words)
}

/// The command that these arguments are, of which the first is the program's name; nothing if they are none.
pub fn command_of(alloc: Global, arguments: &[String]) -> Result<Option<Invocation<'_>>, AllocError>
    ensures some { IfOk result (λ found. IfSome found (λ asked. given arguments.now ≡ words_of asked)) }
    ensures none { IfOk result (λ found. IfNone found ((asked : Invocation) → ¬ (given arguments.now ≡ words_of asked))) }
{
    let words = words_in(alloc, arguments)?;
    match words.as_slice() {
        [_, after @ ..] => Ok(command(after)),
        [] => Ok(None),
    }
}

/// The top file of a command.
pub fn top_of<'a>(command: &Invocation<'a>) -> &'a str
    ensures { result.now ≡ file_of command.now }
{
    match *command {
        Invocation::Verify(top) | Invocation::Axioms(top, _) | Invocation::Session(top) => top,
    }
}
