//! The labels of a proof.

ghost use Rattle.std.specs.Prelude.{◌≡◌, ◌≤◌, ◌+◌, ℕ, List, Ok, IfOk, IfErr, length};
ghost use Rattle.mm_frame.specs.Language.{Base.{BaseView}, Answering.{IsBase}};
ghost use Rattle.mm_verdict.specs.Language.{BaseLabels.{setting_at}, Decoding.{word_spot, read_label as read_label_lem}, DecodedSteps.{IsEntry, entry_step}};
ghost use Rattle.mm_verdict.specs.Code.{Labels.{TellsWord, FromBegin, IsListed, TellsListed}, Left.{AreLeft}};
ghost use Rattle.mm_verdict.specs.declared.undecoded.Undecoded.TheVariants as errors;

use crate::undecoded::Undecoded;
use crate::words::is_close;
use mm_frame::{Base, PlainWords, Resolved};
use mm_machine::{ProofFault, ProofNumber, Spot};

/// A fault at a word.
fn fault_at(number: ProofNumber, word: usize) -> Undecoded
    ensures { result ≡ errors.Fault (record { number = number; spot = word_spot word }) }
{
    Undecoded::Fault(ProofFault {
        number,
        spot: Spot { word, letter: 0 },
    })
}

/// What the label that is the n-th word means at the item with the number `i`, if it can be used there.
pub fn read_label(base: &Base, i: usize, label: &[u8], n: usize) -> Result<Resolved, Undecoded>
    ensures ok { IfOk result (λ meaning. (view : BaseView) → IsBase view base.now
        → read_label_lem (setting_at view i) label.now ≡ Ok (entry_step view meaning)) }
    ensures entry { IfOk result (λ meaning. (view : BaseView) → IsBase view base.now → IsEntry view i meaning) }
    ensures err { IfErr result (λ e. (view : BaseView) → IsBase view base.now → TellsWord e n (read_label_lem (setting_at view i) label.now)) }
{
    match base.resolve(label, i) {
        Resolved::Hypothesis(j) => Ok(Resolved::Hypothesis(j)),
        Resolved::Assertion(j) => Ok(Resolved::Assertion(j)),
        Resolved::Inactive => Err(fault_at(ProofNumber::P02, n)),
        Resolved::Unknown => Err(fault_at(ProofNumber::P01, n)),
    }
}

/// Reads the list of labels after the `(` of a compressed proof, and adds what they mean to the `labels`. The answer is the
/// number of the first `)`, and the words after it are left. After an error some may have been added.
pub fn read_list(
    base: &Base,
    i: usize,
    words: &mut PlainWords,
    labels: &mut Vec<Resolved>,
) -> Result<usize, Undecoded>
    requires { length words.old ≤ 4294967295 }
    ensures ok { IfOk result (λ n. FromBegin base.now i words.old labels.old.items (λ view mandatory all. IsListed view i mandatory all n labels.new.items)) }
    ensures behind { IfOk result (λ n. (all : List (List ℕ)) → AreLeft all words.old 1 → AreLeft all words.new (n + 1)) }
    ensures few { IfOk result (λ n. n + length words.new ≤ 4294967295) }
    ensures err { IfErr result (λ e. FromBegin base.now i words.old labels.old.items (λ view mandatory all. TellsListed e view i mandatory all)) }
{
    let mut n = 1;
    while let Some(word) = words.next_word() {
        if is_close(word) {
            return Ok(n);
        }
        labels.push(read_label(base, i, word, n)?)?;
        n += 1;
    }
    Err(fault_at(ProofNumber::P03, n))
}
