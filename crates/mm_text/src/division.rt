//! The division of pieces into parts.

ghost use Rattle.std.specs.Prelude.{◌≡◌, ◌≤◌, None, [], IfOk, OnOk};
ghost use Rattle.mm_text.specs.{Language.Part.{word_part}, Code.PartReading.{TakesPartWord}};
ghost use Rattle.mm_text.specs.Code.PartReading as reading;

use crate::part::{Part, PartKind};
use crate::word::{Keyword, Word, WordKind};
use std::alloc::{AllocError, Global};

/// The kind of a part after one more of its words.
fn part_kind(kind: PartKind, word: WordKind) -> PartKind
    ensures { result ≡ word_part kind word }
{
    let WordKind::Keyword(keyword) = word else {
        return kind;
    };
    match keyword {
        Keyword::Constants => PartKind::Constants,
        Keyword::Variables => PartKind::Variables,
        Keyword::Disjoint => PartKind::Disjoint,
        Keyword::Floating => PartKind::Floating,
        Keyword::Essential => PartKind::Essential,
        Keyword::Axiom => PartKind::Axiom,
        Keyword::Theorem => PartKind::Theorem,
        Keyword::BlockStart => PartKind::BlockStart,
        Keyword::BlockEnd => PartKind::BlockEnd,
        Keyword::InclusionStart => PartKind::Inclusion,
        Keyword::StatementEnd | Keyword::ProofStart | Keyword::InclusionEnd => kind,
    }
}

/// Whether a part ends with a word.
fn ends_part(word: WordKind) -> bool
    ensures { result ≡ reading.ends_part word }
{
    matches!(
        word,
        WordKind::Keyword(
            Keyword::BlockStart | Keyword::BlockEnd | Keyword::StatementEnd | Keyword::InclusionEnd
        )
    )
}

/// How far the parts of a piece are read.
#[derive(Drop)]
pub struct PartReading {
    /// The parts that have ended.
    parts: Vec<Part>,
    /// The first byte of the part that is being read, if one is.
    first: Option<usize>,
    /// What that part is by its keywords so far.
    kind: PartKind,
}

impl PartReading {
    /// Nothing is read.
    pub fn new(alloc: Global) -> Self
        ensures parts { result.parts.items ≡ [] }
        ensures first { result.first ≡ None }
    {
        PartReading {
            parts: Vec::new(alloc),
            first: None,
            kind: PartKind::Constants,
        }
    }

    /// Adds one more word of the piece that begins at the byte `from` of the text of the word.
    pub fn add(&mut self, from: usize, word: &Word) -> Result<(), AllocError>
        requires behind { from ≤ word.now.start }
        requires some { word.now.start ≤ word.now.end }
        ensures { OnOk result (TakesPartWord self.old from word.now self.new) }
    {
        let start = self.first.unwrap_or(word.start - from);
        self.kind = part_kind(self.kind, word.kind);
        if ends_part(word.kind) {
            self.parts.push(Part {
                kind: self.kind,
                start,
                end: word.end - from,
            })?;
            self.first = None;
        } else {
            self.first = Some(start);
        }
        Ok(())
    }

    /// The parts of the piece, which ends here; after that nothing is read.
    pub fn end_piece(&mut self, alloc: Global) -> Result<Vec<Part>, AllocError>
        ensures parts { IfOk result (λ parts. parts.items ≡ self.old.parts.items) }
        ensures nothing { self.new.parts.items ≡ [] }
        ensures first { self.new.first ≡ None }
    {
        let parts = Vec::from_slice(alloc, &self.parts);
        self.parts.clear();
        self.first = None;
        parts
    }
}
