//! The reading of units from their beginning, word by word.

ghost use Rattle.std.specs.{Prelude.{◌≡◌, ◌↔◌, ℕ, Bool, IsTrue, [], OnOk}, List.{list_all}};
ghost use Rattle.mm_text.specs.{Language.Unit.{is_label_byte}, Code.{UnitReading.{next}, Grammar.{phase_of, level, is_within, blocks_behind, GrammarTakes, EndsAs}}};
ghost use Rattle.mm_text.specs.declared.grammar.Phase.TheVariants as phases;
ghost use Rattle.mm_text.specs.declared.word.WordKind.TheVariants as kinds;

use crate::fault::{TextError, TextFault, TextNumber};
use crate::spelling::could_label;
use crate::word::{Keyword, Word, WordKind};
use std::alloc::{AllocError, Global};

/// What may come next in a sequence of units.
#[derive(Clone, Copy)]
pub enum Phase {
    /// A unit.
    Begin,
    /// The keyword after a label.
    Labelled,
    /// Symbols, or the labels of a proof, and `$.`.
    Symbols,
    /// The symbols of a `$p`, and `$=`.
    Expression,
    /// The name of an inclusion.
    Including,
    /// The `$]` after the name.
    Named,
}

/// How far a reading of units is.
#[derive(Drop)]
pub struct Grammar {
    phase: Phase,
    /// Where the unit that is being read begins, if one is.
    first: usize,
    /// Where the `${` of the open blocks are, the innermost last.
    blocks: Vec<usize>,
}

impl Grammar {
    /// Nothing is read.
    pub fn new(alloc: Global) -> Self
        ensures phase { result.phase ≡ phases.Begin }
        ensures closed { result.blocks.items ≡ [] }
    {
        Grammar {
            phase: Phase::Begin,
            first: 0,
            blocks: Vec::new(alloc),
        }
    }

    /// Whether whole units have been read.
    pub fn is_whole(&self) -> bool
        ensures { IsTrue result ↔ ((self.now.phase ≡ phases.Begin) × (self.now.blocks.items ≡ [])) }
    {
        matches!(self.phase, Phase::Begin) && self.blocks.is_empty()
    }

    /// Whether a plain word makes no difference: the symbols or the proof of a statement are being read.
    pub fn is_within(&self) -> bool
        ensures { result ≡ is_within self.now.phase }
    {
        matches!(self.phase, Phase::Symbols | Phase::Expression)
    }

    /// Reads one more word, with this spelling, or says why no unit has it at this place.
    pub fn read(&mut self, word: &Word, spelling: &[u8]) -> Result<(), TextError>
        ensures { GrammarTakes self.old word.now (list_all is_label_byte spelling.now) result self.new }
    {
        let outside = self.blocks.is_empty();
        let next = match behind(self.phase, outside, word.kind, spelling) {
            Ok(next) => next,
            Err(number) => {
                return Err(TextError::Fault(TextFault {
                    number,
                    at: word.start,
                }));
            }
        };
        open_or_close(&mut self.blocks, word)?;
        if matches!(self.phase, Phase::Begin) {
            self.first = word.start;
        }
        self.phase = next;
        Ok(())
    }

    /// The fault of units that end here, if they are not whole.
    pub fn end(&self) -> Option<TextFault>
        ensures { EndsAs self.now result }
    {
        if !matches!(self.phase, Phase::Begin) {
            return Some(TextFault {
                number: TextNumber::T07,
                at: self.first,
            });
        }
        let start = self.blocks.last()?;
        Some(TextFault {
            number: TextNumber::T08,
            at: *start,
        })
    }
}

/// Notes where a block begins, and forgets it where it ends.
fn open_or_close(blocks: &mut Vec<usize>, word: &Word) -> Result<(), AllocError>
    ensures { OnOk result (blocks.new.items ≡ blocks_behind word.now.kind blocks.old.items word.now.start) }
{
    match word.kind {
        WordKind::Keyword(Keyword::BlockStart) => blocks.push(word.start)?,
        WordKind::Keyword(Keyword::BlockEnd) => {
            blocks.pop();
        }
        _ => {}
    }
    Ok(())
}

/// What comes after a word with this spelling, or the number of the fault if no unit has the word at this place.
///
/// Outside means that no block is open.
fn behind(phase: Phase, outside: bool, kind: WordKind, spelling: &[u8]) -> Result<Phase, TextNumber>
    ensures { result ≡ phase_of (next phase (level outside) kind (list_all is_label_byte spelling.now)) }
{
    match kind {
        WordKind::Plain => behind_plain(phase, spelling),
        WordKind::Keyword(keyword) => behind_keyword(phase, outside, keyword),
    }
}

/// A plain word is looked at only where a unit may begin: there it has to be a label.
fn behind_plain(phase: Phase, spelling: &[u8]) -> Result<Phase, TextNumber>
    ensures { (depth : ℕ) → result ≡ phase_of (next phase depth kinds.Plain (list_all is_label_byte spelling.now)) }
{
    match phase {
        Phase::Begin if could_label(spelling) => Ok(Phase::Labelled),
        Phase::Begin => Err(TextNumber::T11),
        Phase::Symbols => Ok(Phase::Symbols),
        Phase::Expression => Ok(Phase::Expression),
        Phase::Including => Ok(Phase::Named),
        Phase::Labelled | Phase::Named => Err(TextNumber::T06),
    }
}

fn behind_keyword(phase: Phase, outside: bool, keyword: Keyword) -> Result<Phase, TextNumber>
    ensures { (could_label : Bool) → result ≡ phase_of (next phase (level outside) (kinds.Keyword keyword) could_label) }
{
    match (phase, keyword) {
        (Phase::Begin, Keyword::BlockEnd) if outside => Err(TextNumber::T09),
        (Phase::Begin, Keyword::BlockStart | Keyword::BlockEnd) => Ok(Phase::Begin),
        (Phase::Begin, Keyword::InclusionStart) if outside => Ok(Phase::Including),
        (Phase::Begin, Keyword::Constants | Keyword::Variables | Keyword::Disjoint)
        | (Phase::Labelled, Keyword::Floating | Keyword::Essential | Keyword::Axiom)
        | (Phase::Expression, Keyword::ProofStart) => Ok(Phase::Symbols),
        (Phase::Labelled, Keyword::Theorem) => Ok(Phase::Expression),
        (Phase::Symbols, Keyword::StatementEnd) | (Phase::Named, Keyword::InclusionEnd) => {
            Ok(Phase::Begin)
        }
        (Phase::Including, _) => Err(TextNumber::T12),
        (_, Keyword::InclusionStart) => Err(TextNumber::T10),
        _ => Err(TextNumber::T06),
    }
}
