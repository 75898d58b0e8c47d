//! A proof as the machine runs it.

ghost use Rattle.std.specs.Prelude.{ℕ, List, All, IfErr, IfOk};
ghost use Rattle.mm_machine.specs.Language.{Keys.{key_by_number}, Lasting.{HoldsLasting, IsCited, lasting_of}, NamedSteps.{AreSavedBefore, AreUsesWithin}, NumberedSymbols.{by_code, by_number}};
ghost use Rattle.mm_verdict.specs.Language.{DecodedSteps.{TellsFault}, Loaded.{AreItemsOf, CanBeCited, IsAssertionOf}, Programs.{IsProgramAt}, ReadIn.{HasTheorem, OfTheorem}, VerdictAt.{decoding_at}};

use crate::decoding::Decoding;
use crate::decoding_laws::{decodes_surely, mandatory_are_active};
use crate::known::Known;
use crate::reading::decode;
use crate::undecoded::Undecoded;
use mm_frame::{Base, Files, words_of_proof};
use mm_machine::ProofStep;
use std::alloc::Global;

/// A proof as [`mm_machine::run`] takes it, with symbols by the numbers of their names.
#[derive(Drop)]
pub struct Program<'a> {
    /// What its steps push and cite.
    pub known: Known<'a>,
    /// The steps, in order.
    pub steps: Vec<ProofStep>,
}

/// The proof of the item with the number `i`, a sound `$p` of a base whose items can be read in these files, as a machine runs
/// it. So a caller can run the first steps of a proof; for the verdict there is `check`.
///
/// The error is the first fault of decoding, or out of memory. It takes time near linear in the words of the proof, in the
/// symbols of the items that its labels name and of their hypotheses, and in the number of items before it.
pub fn program_of<'a>(
    alloc: Global,
    files: &Files,
    base: &'a Base,
    i: usize,
) -> Result<Program<'a>, Undecoded>
    requires { (names : List (List ℕ)) × HasTheorem names files.now base.now i }
    ensures holds { IfOk result (λ program. HoldsLasting by_code key_by_number program.known.machine) }
    ensures items { IfOk result (λ program. AreItemsOf base.now (lasting_of by_code program.known.machine)) }
    ensures numbers { IfOk result (λ program. All (λ c. IsAssertionOf base.now c.expression) program.known.cited.items) }
    ensures citable { IfOk result (λ program. All (CanBeCited base.now) program.known.cited.items) }
    ensures cited { IfOk result (λ program. All (IsCited by_number (lasting_of by_code program.known.machine)) program.known.cited.items) }
    ensures within { IfOk result (λ program. AreUsesWithin program.known.machine program.known.cited.items program.known.uses.items) }
    ensures saved { IfOk result (λ program. AreSavedBefore program.steps.items) }
    ensures means { IfOk result (λ program. (names : List (List ℕ)) → OfTheorem names files.now base.now i (λ view. IsProgramAt names view i program)) }
    ensures fault { IfErr result (λ error. (names : List (List ℕ)) → OfTheorem names files.now base.now i (λ view. TellsFault error (decoding_at view i))) }
{
    mandatory_are_active(); // A law: mandatory hypotheses are active.
    decodes_surely(); // A law: what decoding makes sure of.
    let proof = words_of_proof(files, base.item(i));
    let decoding = decode(base, i, &proof, Decoding::new(alloc))?;
    let mut known = Known::new(alloc);
    known.name_all(alloc, base, i, &decoding.labels)?;
    Ok(Program {
        known,
        steps: decoding.steps,
    })
}
