//! The name that a piece includes.

ghost use Rattle.std.specs.Prelude.{◌≡◌, ℕ, ◌↔◌, IsTrue, List, IfNone, IfSome};
ghost use Rattle.mm_text.specs.{declared.{word.Word.{Word}, part.PartKind.TheVariants.{Inclusion}}, Language.{Reading.{HasWords}, Cut.{HoldsOneUnit}, Part.{HasParts, IsReadable, part_bytes}}};
ghost use Rattle.mm_store.specs.{declared.key.PieceKey.{PieceKey}, Language.FileFacts.{second_word}, Code.Steps.{Includes, IncludesNothing}};

use crate::kept_part::KeptPart;
use mm_text::{Part, PartKind, nth_word};

fn is_inclusion(kind: PartKind) -> bool
    ensures { IsTrue result ↔ (kind ≡ Inclusion) }
{
    matches!(kind, PartKind::Inclusion)
}

/// The bytes of the second word, or none.
fn second_word(text: &[u8]) -> &[u8]
    requires { (words : List Word) × HasWords text.now words }
    ensures { (words : List Word) → HasWords text.now words → result.now ≡ second_word text.now words }
{
    match nth_word(text, 1) {
        Some(word) => &text[word.start..word.end],
        None => &[],
    }
}

/// The second word of a part.
fn named(text: &[u8], part: Part) -> &[u8]
    requires { IsReadable text.now part }
    ensures { (words : List Word) → HasWords (part_bytes text.now part) words → result.now ≡ second_word (part_bytes text.now part) words }
{
    second_word(&text[part.start..part.end])
}

/// The name that a piece includes; `None` if it includes nothing.
pub(crate) fn included_name<'a>(text: &'a [u8], parts: &[KeptPart]) -> Option<&'a [u8]>
    requires unit { HoldsOneUnit text.now }
    requires divided { HasParts text.now parts.now }
    ensures none { IfNone result ((file number : ℕ) (key : PieceKey) → IncludesNothing file number (record { key = key; text = text.now })) }
    ensures some { IfSome result
        (λ name. (file number : ℕ) (key : PieceKey) → Includes file number (record { key = key; text = text.now }) name.now) }
{
    mm_text::parts_are_texts(); // A law: each part of a text of whole units is a text.
    mm_text::words_stand_alone(); // A law: the bytes of a unit are a text with its words.
    if parts.is_empty() {
        return None;
    }
    let part = parts[0].part();
    if !is_inclusion(part.kind) {
        return None;
    }
    Some(named(text, part))
}
