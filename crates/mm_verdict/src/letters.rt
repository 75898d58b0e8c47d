//! The letters of a compressed proof, read in one pass.

ghost use Rattle.std.specs.{Prelude.{◌≡◌, false, ℕ, ◌+◌, ◌-◌, ◌*◌, ◌^◌, ◌<◌, ◌≤◌, min, nat_lt, length, List, slice_get, IfOk, IfErr, Ok}, Option.{ok_or}};
ghost use Rattle.mm_machine.specs.Language.Expansion.{Step};
ghost use Rattle.mm_verdict.specs.{Language.Decoding.{nameable}, Code.{LeftToRight.{read_behind, read_on}, Coded.{TellsSteps, meant_or, meant_steps, LettersGive}, UsedLabels.{AreUseMarks, IsLabelWithin}}};
ghost use Rattle.mm_verdict.specs.Language.Numbers as numbers;

use crate::undecoded::Undecoded;
use crate::used::mark;
use mm_frame::PlainWords;
use mm_machine::{Action, ProofFault, ProofNumber, ProofStep, Spot};
use std::alloc::AllocError;

/// Whether digits in base five are those of a number that is far from the largest one.
fn is_small(digits: usize) -> bool
    ensures { result ≡ nat_lt digits (2 ^ 59) }
{
    digits < 576_460_752_303_423_488
}

/// The digits so far in base five, with one more: no more than the largest number there is, which names nothing.
fn with_digit(digits: usize, worth: usize) -> usize
    requires { worth ≤ 5 }
    ensures { (n : ℕ) → digits ≡ min n (2 ^ 64 - 1) → result ≡ min (5 * n + worth) (2 ^ 64 - 1) }
{
    if is_small(digits) {
        digits * 5 + worth
    } else {
        digits.saturating_mul(5).saturating_add(worth)
    }
}

/// Counted from 0, the number that these digits in base five and this last letter write: no more than the largest there is.
fn value_of(digits: usize, last: usize) -> usize
    requires { last < 20 }
    ensures { result ≡ min (20 * digits + last) (2 ^ 64 - 1) }
{
    if is_small(digits) {
        digits * 20 + last
    } else {
        digits.saturating_mul(20).saturating_add(last)
    }
}

/// What a number, counted from 0, names among the labels and the saves so far.
fn named(labels: usize, saves: usize, digits: usize, last: usize) -> Result<Action, ProofNumber>
    requires few { labels + saves < 2 ^ 64 - 1 }
    requires letter { last < 20 }
    ensures within { IfOk result (IsLabelWithin labels) }
    ensures says { (names : List Step) (n : ℕ) → length names ≡ labels → digits ≡ min n (2 ^ 64 - 1) →
        meant_or names result ≡ ok_or (slice_get (nameable names saves) (20 * n + last)) ProofNumber.P06 }
{
    let value = value_of(digits, last);
    if value < labels {
        Ok(Action::Label(value))
    } else if value - labels < saves {
        Ok(Action::Saved(value - labels))
    } else {
        Err(ProofNumber::P06)
    }
}

/// What a letter that belongs to no number does after these digits.
fn action(digits: usize, byte: u8) -> Result<Action, ProofNumber>
    ensures within { (labels : ℕ) → IfOk result (IsLabelWithin labels) }
    ensures says { (names : List Step) (saves n : ℕ) → numbers.is_last byte ≡ false → digits ≡ min n (2 ^ 64 - 1) →
        meant_or names result ≡ read_behind (nameable names saves) n byte }
{
    match byte {
        b'Z' if digits == 0 => Ok(Action::Save),
        b'?' if digits == 0 => Ok(Action::Unknown),
        b'Z' | b'?' => Err(ProofNumber::P05),
        _ => Err(ProofNumber::P04),
    }
}

/// The steps that letters stand for, and for each label that numbers name whether one of the steps names it.
#[derive(Drop)]
pub struct MarkedSteps {
    pub steps: Vec<ProofStep>,
    pub used: Vec<bool>,
}

/// The letters so far: the steps that they stand for, and digits that wait for the letter after them.
#[derive(Drop)]
pub struct LetterReader {
    /// How many labels numbers name: the mandatory hypotheses and the listed labels.
    labels: usize,
    /// How many of the steps so far are saves.
    saves: usize,
    /// The digits in base five: 0 if there are none, and no more than the largest number there is.
    digits: usize,
    steps: Vec<ProofStep>,
    /// For each label whether one of the steps names it.
    used: Vec<bool>,
    ghost few_labels: { labels < 2 ^ 63 },
    ghost few_saves: { saves ≤ length steps.items },
    ghost marked: { AreUseMarks labels used.items steps.items },
}

impl LetterReader {
    ghost use Rattle.std.specs.Prelude.{[], ◌∷◌, ◌++◌, OnOk};
    ghost use Rattle.mm_verdict.specs.{Language.Letters.{Letter, letters_in}, Code.Reader.{Aim, HasRoom, IsFound, ReadsLetters}};

    /// A reader before the first letter, where numbers name this many labels. It puts the steps and the marks in place of
    /// what the lists have.
    fn new(room: MarkedSteps, labels: usize) -> Result<Self, AllocError>
        requires { labels < 2 ^ 63 }
        ensures labels { IfOk result (λ reader. reader.labels ≡ labels) }
        ensures reads { IfOk result (λ reader. (aim : Aim) (ls : List Letter) → length aim.names ≡ labels
            → aim.total ≡ read_on aim.names aim.close 0 0 ls → ReadsLetters aim reader ls) }
    {
        let mut steps = room.steps;
        steps.clear();
        let mut used = room.used;
        used.clear();
        used.resize(labels, false)?;
        Ok(LetterReader {
            labels,
            saves: 0,
            digits: 0,
            steps,
            used,
        })
    }

    /// The reader with room for the steps of so many letters more.
    fn with_room(self, letters: usize) -> Result<Self, AllocError>
        ensures labels { IfOk result (λ reader. reader.labels ≡ self.labels) }
        ensures room { IfOk result (HasRoom letters) }
        ensures reads { IfOk result (λ reader. (aim : Aim) (ls : List Letter) → ReadsLetters aim self ls → ReadsLetters aim reader ls) }
    {
        let mut reader = self;
        reader.steps.reserve(letters)?;
        Ok(reader)
    }

    /// Adds the step that was found at a letter that is no digit.
    fn add(
        &mut self,
        found: Result<Action, ProofNumber>,
        byte: u8,
        spot: Spot,
    ) -> Result<(), Undecoded>
        requires room { HasRoom 1 self.old }
        requires within { IfOk found (IsLabelWithin self.old.labels) }
        ensures room { OnOk result ((n : ℕ) → HasRoom (n + 1) self.old → HasRoom n self.new) }
        ensures labels { OnOk result (self.new.labels ≡ self.old.labels) }
        ensures ok { OnOk result ((aim : Aim) (ls : List Letter) → IsFound aim self.old byte found
            → ReadsLetters aim self.old (record { byte = byte; spot = spot } ∷ ls) → ReadsLetters aim self.new ls) }
        ensures err { IfErr result (λ e. (aim : Aim) (ls : List Letter) → IsFound aim self.old byte found
            → ReadsLetters aim self.old (record { byte = byte; spot = spot } ∷ ls) → TellsSteps e aim.total) }
    {
        match found {
            Ok(action) => {
                self.steps.push_reserved(ProofStep { action, spot });
                mark(&mut self.used, action);
                self.digits = 0;
                if byte == b'Z' {
                    self.saves += 1;
                }
                Ok(())
            }
            Err(number) => Err(Undecoded::Fault(ProofFault { number, spot })),
        }
    }

    /// Reads one letter. Most letters end a number, so they are looked for first.
    fn read(&mut self, byte: u8, spot: Spot) -> Result<(), Undecoded>
        requires room { HasRoom 1 self.old }
        ensures room { OnOk result ((n : ℕ) → HasRoom (n + 1) self.old → HasRoom n self.new) }
        ensures labels { OnOk result (self.new.labels ≡ self.old.labels) }
        ensures ok { OnOk result ((aim : Aim) (ls : List Letter)
            → ReadsLetters aim self.old (record { byte = byte; spot = spot } ∷ ls) → ReadsLetters aim self.new ls) }
        ensures err { IfErr result (λ e. (aim : Aim) (ls : List Letter)
            → ReadsLetters aim self.old (record { byte = byte; spot = spot } ∷ ls) → TellsSteps e aim.total) }
    {
        let letter = byte.wrapping_sub(b'A');
        if letter < 20 {
            let found = named(self.labels, self.saves, self.digits, usize::from(letter));
            self.add(found, byte, spot)
        } else if letter < 25 {
            self.digits = with_digit(self.digits, usize::from(letter - 19));
            Ok(())
        } else {
            self.add(action(self.digits, byte), byte, spot)
        }
    }

    /// Reads the letters of the word with this number. The reader is moved in and out, so that its counts stay in registers.
    fn read_word(self, n: usize, word: &[u8]) -> Result<Self, Undecoded>
        ensures labels { IfOk result (λ reader. reader.labels ≡ self.labels) }
        ensures ok { IfOk result (λ reader. (aim : Aim) (ls : List Letter)
            → ReadsLetters aim self (letters_in (n, word.now) ++ ls) → ReadsLetters aim reader ls) }
        ensures err { IfErr result (λ e. (aim : Aim) (ls : List Letter) → ReadsLetters aim self (letters_in (n, word.now) ++ ls) → TellsSteps e aim.total) }
    {
        let mut reader = self.with_room(word.len())?;
        for (letter, byte) in word.iter().enumerate() {
            reader.read(*byte, Spot { word: n, letter })?;
        }
        Ok(reader)
    }

    /// The steps, or the fault of digits that no letter follows.
    fn end(self, close: Spot) -> Result<MarkedSteps, Undecoded>
        ensures marks { IfOk result (λ read. AreUseMarks self.labels read.used.items read.steps.items) }
        ensures ok { IfOk result (λ read. (aim : Aim) → aim.close ≡ close → ReadsLetters aim self []
            → aim.total ≡ Ok (meant_steps aim.names read.steps.items)) }
        ensures err { IfErr result (λ e. (aim : Aim) → aim.close ≡ close → ReadsLetters aim self [] → TellsSteps e aim.total) }
    {
        if self.digits == 0 {
            Ok(MarkedSteps {
                steps: self.steps,
                used: self.used,
            })
        } else {
            Err(Undecoded::Fault(ProofFault {
                number: ProofNumber::P05,
                spot: close,
            }))
        }
    }
}

/// The steps of the letters of a proof, with marks for the labels. The letters are the words that are left, and the first
/// of these has the number `from`. Numbers name this many labels, and then the saves. The steps are put in place of what
/// the lists have.
#[inline(never)]
pub fn read_letters(
    room: MarkedSteps,
    words: &mut PlainWords,
    from: usize,
    labels: usize,
) -> Result<MarkedSteps, Undecoded>
    requires few { from + length words.old < 2 ^ 64 }
    requires labels { labels < 2 ^ 63 }
    ensures marks { IfOk result (λ read. AreUseMarks labels read.used.items read.steps.items) }
    ensures ok { IfOk result (λ read. LettersGive labels words.old from (λ names given. given ≡ Ok (meant_steps names read.steps.items))) }
    ensures err { IfErr result (λ e. LettersGive labels words.old from (λ names given. TellsSteps e given)) }
{
    let mut reader = LetterReader::new(room, labels)?;
    let mut n = from;
    while let Some(word) = words.next_word() {
        reader = reader.read_word(n, word)?;
        n += 1;
    }
    reader.end(Spot { word: n, letter: 0 })
}
