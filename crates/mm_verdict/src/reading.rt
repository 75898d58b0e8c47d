//! Decoding: the steps of a proof, or its first fault.

ghost use Rattle.std.specs.Prelude.{◌≡◌, true, false, ◌+◌, List, Ok, IfOk, IfErr, map, length, ◌∷◌, ◌++◌};
ghost use Rattle.mm_machine.specs.Language.{Expansion.{Step}, NamedSteps.{meant}};
ghost use Rattle.mm_frame.specs.Language.{Base.{BaseView, before, said_at, is_framed_at}, Framing.{mandatory_numbers}, Answering.{IsBase}};
ghost use Rattle.mm_verdict.specs.Language.{BaseLabels.{setting_at}, Decoding.{read_word as read_word_lem, is_compressed as is_compressed_lem}, VerdictAt.{decoding_at}};
ghost use Rattle.mm_verdict.specs.{Language.DecodedSteps.{IsEntry, TellsFault, entry_step}, Code.{Judged.{HasProof, IsDecoding, OfProof}, Labels.{InViews, TellsWord}, UsedLabels.{IsLabelWithin}}};
ghost use Rattle.mm_frame.specs.declared.base.Resolved.TheVariants as answers;

use crate::decoding::Decoding;
use crate::decoding_laws::mandatory_are_active;
use crate::labels::{read_label, read_list};
use crate::letters::{MarkedSteps, read_letters};
use crate::undecoded::Undecoded;
use crate::used::mark;
use crate::words::{is_open, is_unknown};
use mm_frame::{Base, PlainWords, Resolved};
use mm_machine::{Action, ProofStep, Spot};
use std::alloc::AllocError;

/// The proof of the item `i` of a base, and what it decodes to.
#[derive(Clone, Copy)]
pub struct DecodedProof<'b, 'a> {
    pub base: &'b Base,
    pub i: usize,
    pub words: &'a PlainWords<'a>,
    pub decoding: &'a Decoding,
}

/// The entries of the mandatory hypotheses, which are the items with these numbers, in place of what a list has.
fn hypotheses(room: Vec<Resolved>, mandatory: &[usize]) -> Result<Vec<Resolved>, AllocError>
    ensures { IfOk result (λ labels. labels.items ≡ map answers.Hypothesis mandatory.now) }
{
    let mut labels = room;
    labels.clear();
    for number in mandatory {
        labels.push(Resolved::Hypothesis(*number))?;
    }
    Ok(labels)
}

/// The numbers of the mandatory hypotheses of the sound assertion with this number.
pub fn mandatory(base: &Base, i: usize) -> &[usize]
    requires { (view : BaseView) × IsBase view base.now × (is_framed_at view i ≡ true) }
    ensures { (view : BaseView) → IsBase view base.now → is_framed_at view i ≡ true → result.now ≡ mandatory_numbers (before view i) (said_at view i) }
{
    let frame = base.frame(i).unwrap();
    &frame.hypotheses
}

/// Decodes the compressed proof of the theorem with the number `i`.
fn decode_compressed(
    base: &Base,
    i: usize,
    proof: &PlainWords,
    room: Decoding,
) -> Result<Decoding, Undecoded>
    requires proof { HasProof base.now i proof.now }
    requires compressed { is_compressed_lem proof.now ≡ true }
    ensures ok { IfOk result (λ d. OfProof base.now i proof.now (IsDecoding base.now i proof.now d)) }
    ensures err { IfErr result (λ e. OfProof base.now i proof.now (λ view. TellsFault e (decoding_at view i))) }
{
    mandatory_are_active(); // A law: mandatory hypotheses are active.
    let Decoding {
        labels,
        used,
        steps,
    } = room;
    let mut labels = hypotheses(labels, mandatory(base, i))?;
    let mut words = proof.again();
    let _open = words.next_word();
    let close = read_list(base, i, &mut words, &mut labels)?;
    let read = read_letters(
        MarkedSteps { steps, used },
        &mut words,
        close + 1,
        labels.len(),
    )?;
    Ok(Decoding {
        labels,
        used: read.used,
        steps: read.steps,
    })
}

/// What the n-th word of a normal proof of the item with the number `i` names, and what it does.
fn read_word(base: &Base, i: usize, word: &[u8], n: usize) -> Result<(Resolved, Action), Undecoded>
    ensures ok { IfOk result (λ read. InViews base.now (λ view. read_word_lem (setting_at view i) word.now ≡ Ok (entry_step view read.0))) }
    ensures within { IfOk result (λ read. IsLabelWithin (n + 1) read.1) }
    ensures action { IfOk result (λ read. (view : BaseView) (before after : List Step) → IsBase view base.now → length before ≡ n →
        meant (before ++ entry_step view read.0 ∷ after) read.1 ≡ entry_step view read.0) }
    ensures entry { IfOk result (λ read. InViews base.now (λ view. IsEntry view i read.0)) }
    ensures err { IfErr result (λ e. InViews base.now (λ view. TellsWord e n (read_word_lem (setting_at view i) word.now))) }
{
    if is_unknown(word) {
        Ok((Resolved::Unknown, Action::Unknown))
    } else {
        Ok((read_label(base, i, word, n)?, Action::Label(n)))
    }
}

/// Decodes the normal proof of the theorem with the number `i`, word by word.
fn decode_normal(
    base: &Base,
    i: usize,
    proof: &PlainWords,
    room: Decoding,
) -> Result<Decoding, Undecoded>
    requires { is_compressed_lem proof.now ≡ false }
    ensures ok { IfOk result (λ d. OfProof base.now i proof.now (IsDecoding base.now i proof.now d)) }
    ensures err { IfErr result (λ e. OfProof base.now i proof.now (λ view. TellsFault e (decoding_at view i))) }
{
    let Decoding {
        mut labels,
        mut used,
        mut steps,
    } = room;
    labels.clear();
    steps.clear();
    used.clear();
    let mut words = proof.again();
    let mut n = 0;
    while let Some(word) = words.next_word() {
        let (label, action) = read_word(base, i, word, n)?;
        labels.push(label)?;
        steps.push(ProofStep {
            action,
            spot: Spot { word: n, letter: 0 },
        })?;
        used.push(false)?;
        mark(&mut used, action);
        n += 1;
    }
    Ok(Decoding {
        labels,
        used,
        steps,
    })
}

/// Whether the words of a proof are those of a compressed one: the first is a `(`.
pub fn is_compressed(proof: &PlainWords) -> bool
    ensures { result ≡ is_compressed_lem proof.now }
{
    let mut words = proof.again();
    match words.next_word() {
        Some(word) => is_open(word),
        None => false,
    }
}

/// Decodes the proof of the theorem with the number `i`, which has these words, and marks the labels that its steps name.
///
/// It reads the words once, in time linear in their bytes, and looks each label up once. The lists of an older decoding
/// are used over again; what they have does not count. After an error nothing is kept.
pub fn decode(
    base: &Base,
    i: usize,
    proof: &PlainWords,
    room: Decoding,
) -> Result<Decoding, Undecoded>
    requires { HasProof base.now i proof.now }
    ensures ok { IfOk result (λ d. OfProof base.now i proof.now (IsDecoding base.now i proof.now d)) }
    ensures err { IfErr result (λ e. OfProof base.now i proof.now (λ view. TellsFault e (decoding_at view i))) }
{
    if is_compressed(proof) {
        decode_compressed(base, i, proof, room)
    } else {
        decode_normal(base, i, proof, room)
    }
}
