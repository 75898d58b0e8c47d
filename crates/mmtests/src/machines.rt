//! The machine over names and over numbers: it says the same of a proof.

ghost use Rattle.std.specs.Prelude.{◌≡◌, ◌<◌, ℕ, [], List, All, IfOk, OnOk, length, map};
ghost use Rattle.mm_machine.specs.Language.{Frame.{Mandatory}, NumberedSymbols.{by_code, by_number, named_symbol, all_by_number}, CodeLists.{meant_pairs}, Lasting.{HoldsLasting, IsCited, lasting_of}};
ghost use Rattle.mm_machine.specs.Language.{NamedSteps.{AreSavedBefore, AreUsesWithin, IsUseWithin}, Keys.{AreInKeyOrder, key_by_number}};
ghost use Rattle.mmtests.specs.Code.{Spelled.{HasOneKey, key_by_name}, SpelledAssertions.{IsCitedSo}};
ghost use Rattle.mm_verdict.specs.Language.{Loaded.{CanBeCited, HasItem}, ReadIn.{HasTheorem}};

use mm_machine::{
    Active, Cited, Machine, NamedSymbol, NumberedSymbol, ProofStep, RunOutcome, Use,
    numbers_keep_order, run,
};
use mm_verdict::{Base, Files, Known, Names, Program, Undecoded, loaded_of, program_of};
use std::alloc::{AllocError, Global};
use std::mem;

/// The tables of a run over names have this many places: fewer than there are names, so some names share one.
const PLACES: usize = 7;

/// The symbol whose name is one byte, which is its number. The databases here have no 256 names.
fn spelled_symbol(alloc: Global, symbol: &NumberedSymbol) -> Result<NamedSymbol, AllocError>
    ensures means { IfOk result (λ named. named_symbol named ≡ by_number symbol.now) }
    ensures key { IfOk result (λ named. HasOneKey (named_symbol named)) }
{
    let Ok(byte) = u8::try_from(symbol.name) else {
        return Err(AllocError);
    };
    let name = Vec::from_slice(alloc, &[byte])?;
    Ok(NamedSymbol {
        name,
        variable: symbol.variable,
    })
}

/// Each of the symbols.
fn spelled(alloc: Global, symbols: &[NumberedSymbol]) -> Result<Vec<NamedSymbol>, AllocError>
    ensures { IfOk result (λ named. all_by_number symbols.now ≡ map named_symbol named.items) }
{
    let mut named = Vec::new(alloc);
    for symbol in symbols {
        named.push(spelled_symbol(alloc, symbol)?)?;
    }
    Ok(named)
}

/// Each of the pairs.
fn spelled_pairs(
    alloc: Global,
    pairs: &[(NumberedSymbol, NumberedSymbol)],
) -> Result<Vec<(NamedSymbol, NamedSymbol)>, AllocError>
    ensures means { IfOk result (λ named. meant_pairs by_number pairs.now ≡ meant_pairs named_symbol named.items) }
    ensures keys { IfOk result (λ named. All (λ pair. HasOneKey (named_symbol pair.0) × HasOneKey (named_symbol pair.1)) named.items) }
{
    let mut named = Vec::new(alloc);
    for pair in pairs {
        named.push((
            spelled_symbol(alloc, &pair.0)?,
            spelled_symbol(alloc, &pair.1)?,
        ))?;
    }
    Ok(named)
}

/// An assertion that is cited, with its pairs by names.
#[derive(Drop)]
struct NamedAssertion {
    expression: usize,
    hypotheses: Vec<usize>,
    pairs: Vec<(NamedSymbol, NamedSymbol)>,
}

/// An assertion by names.
fn spelled_assertion(
    alloc: Global,
    cited: &Cited<'_, NumberedSymbol>,
) -> Result<NamedAssertion, AllocError>
    ensures { IfOk result (λ named. (lasting : List Mandatory) → IsCited by_number lasting cited.now
        → IsCitedSo lasting named.expression named.hypotheses.items named.pairs.items) }
{
    Ok(NamedAssertion {
        expression: cited.expression,
        hypotheses: Vec::from_slice(alloc, cited.hypotheses)?,
        pairs: spelled_pairs(alloc, cited.pairs)?,
    })
}

/// Each of the assertions.
fn spelled_cited(
    alloc: Global,
    cited: &[Cited<'_, NumberedSymbol>],
) -> Result<Vec<NamedAssertion>, AllocError>
    ensures count { IfOk result (λ named. length named.items ≡ length cited.now) }
    ensures cited { IfOk result (λ named. (lasting : List Mandatory) → All (IsCited by_number lasting) cited.now
        → All (λ n. IsCitedSo lasting n.expression n.hypotheses.items n.pairs.items) named.items) }
{
    let mut named = Vec::new(alloc);
    for k in 0..cited.len() {
        named.push(spelled_assertion(alloc, &cited[k])?)?;
    }
    Ok(named)
}

/// An assertion, as the machine takes it.
fn lent_assertion(named: &NamedAssertion) -> Cited<'_, NamedSymbol>
    ensures { (lasting : List Mandatory) → IsCitedSo lasting named.now.expression named.now.hypotheses.items named.now.pairs.items
        → IsCited named_symbol lasting result }
{
    Cited {
        expression: named.expression,
        hypotheses: &named.hypotheses,
        pairs: &named.pairs,
    }
}

/// The assertions, as the machine takes them.
fn lent_cited(
    alloc: Global,
    named: &[NamedAssertion],
) -> Result<Vec<Cited<'_, NamedSymbol>>, AllocError>
    ensures count { IfOk result (λ lent. length lent.items ≡ length named.now) }
    ensures cited { IfOk result (λ lent. (lasting : List Mandatory)
        → All (λ n. IsCitedSo lasting n.expression n.hypotheses.items n.pairs.items) named.now → All (IsCited named_symbol lasting) lent.items) }
{
    let mut lent = Vec::new(alloc);
    for k in 0..named.len() {
        lent.push(lent_assertion(&named[k]))?;
    }
    Ok(lent)
}

/// Loads the first items of a base, so many of them, into a machine that has none.
fn load_spelled(
    alloc: Global,
    base: &Base,
    count: usize,
    machine: &mut Machine<NamedSymbol>,
) -> Result<(), AllocError>
    requires holds { HoldsLasting named_symbol key_by_name machine.old }
    requires none { lasting_of named_symbol machine.old ≡ [] }
    ensures holds { OnOk result (HoldsLasting named_symbol key_by_name machine.new) }
    ensures items { OnOk result ((j : ℕ) → j < count → HasItem base.now (lasting_of named_symbol machine.new) j) }
    ensures count { OnOk result (length (lasting_of named_symbol machine.new) ≡ count) }
{
    machine.widen(PLACES)?;
    machine.make_places(count)?;
    for n in 0..count {
        let loaded = loaded_of(base, n);
        let expression = spelled(alloc, loaded.1)?;
        let added = machine.load(alloc, n, loaded.0, &expression);
        mem::forget(expression);
        added?;
    }
    Ok(())
}

/// What a run over names needs besides a machine that has the expressions.
#[derive(Drop)]
struct NamedParts {
    cited: Vec<NamedAssertion>,
    /// The active pairs.
    pairs: Vec<(NamedSymbol, NamedSymbol)>,
    statement: Vec<NamedSymbol>,
}

/// What a run over names needs, by what one over numbers has.
fn spelled_parts(
    alloc: Global,
    cited: &[Cited<'_, NumberedSymbol>],
    pairs: &[(NumberedSymbol, NumberedSymbol)],
    statement: &[NumberedSymbol],
) -> Result<NamedParts, AllocError>
    requires { AreInKeyOrder key_by_number (meant_pairs by_number pairs.now) }
    ensures count { IfOk result (λ parts. length parts.cited.items ≡ length cited.now) }
    ensures cited { IfOk result (λ parts. (lasting : List Mandatory) → All (IsCited by_number lasting) cited.now
        → All (λ n. IsCitedSo lasting n.expression n.hypotheses.items n.pairs.items) parts.cited.items) }
    ensures order { IfOk result (λ parts. AreInKeyOrder key_by_name (meant_pairs named_symbol parts.pairs.items)) }
{
    Ok(NamedParts {
        cited: spelled_cited(alloc, cited)?,
        pairs: spelled_pairs(alloc, pairs)?,
        statement: spelled(alloc, statement)?,
    })
}

/// What a run over names comes to, of a proof with these uses and steps, by a machine that has the expressions.
fn run_spelled(
    alloc: Global,
    machine: &mut Machine<NamedSymbol>,
    parts: &NamedParts,
    uses: &[Use],
    steps: &[ProofStep],
) -> Result<RunOutcome, AllocError>
    requires holds { HoldsLasting named_symbol key_by_name machine.old }
    requires cited { All (λ n. IsCitedSo (lasting_of named_symbol machine.old) n.expression n.hypotheses.items n.pairs.items) parts.now.cited.items }
    requires within { All (IsUseWithin (length (lasting_of named_symbol machine.old)) (length parts.now.cited.items)) uses.now }
    requires saved { AreSavedBefore steps.now }
    requires order { AreInKeyOrder key_by_name (meant_pairs named_symbol parts.now.pairs.items) }
{
    let cited = lent_cited(alloc, &parts.cited)?;
    let active = Active::new(&parts.pairs);
    let outcome = run(
        alloc,
        machine,
        &cited,
        uses,
        &active,
        steps,
        &parts.statement,
    );
    mem::forget(cited);
    outcome
}

/// What a run over names comes to, of the steps of a theorem with these active pairs, by a machine without expressions.
fn run_loaded(
    alloc: Global,
    base: &Base,
    machine: &mut Machine<NamedSymbol>,
    program: &Program<'_>,
    pairs: &[(NumberedSymbol, NumberedSymbol)],
    statement: &[NumberedSymbol],
) -> Result<RunOutcome, AllocError>
    requires holds { HoldsLasting named_symbol key_by_name machine.old }
    requires none { lasting_of named_symbol machine.old ≡ [] }
    requires citable { All (CanBeCited base.now) program.now.known.cited.items }
    requires cited { All (IsCited by_number (lasting_of by_code program.now.known.machine)) program.now.known.cited.items }
    requires within { AreUsesWithin program.now.known.machine program.now.known.cited.items program.now.known.uses.items }
    requires saved { AreSavedBefore program.now.steps.items }
    requires order { AreInKeyOrder key_by_number (meant_pairs by_number pairs.now) }
{
    load_spelled(alloc, base, program.known.machine.count(), &mut *machine)?;
    let parts = spelled_parts(alloc, &program.known.cited, pairs, statement)?;
    let outcome = run_spelled(alloc, machine, &parts, &program.known.uses, &program.steps);
    mem::forget(parts);
    outcome
}

/// What a run over names comes to, of the steps of a theorem with these active pairs.
fn run_by_names(
    alloc: Global,
    base: &Base,
    program: &Program<'_>,
    pairs: &[(NumberedSymbol, NumberedSymbol)],
    statement: &[NumberedSymbol],
) -> Result<RunOutcome, AllocError>
    requires citable { All (CanBeCited base.now) program.now.known.cited.items }
    requires cited { All (IsCited by_number (lasting_of by_code program.now.known.machine)) program.now.known.cited.items }
    requires within { AreUsesWithin program.now.known.machine program.now.known.cited.items program.now.known.uses.items }
    requires saved { AreSavedBefore program.now.steps.items }
    requires order { AreInKeyOrder key_by_number (meant_pairs by_number pairs.now) }
{
    let mut machine = Machine::new(alloc);
    let outcome = run_loaded(alloc, base, &mut machine, program, pairs, statement);
    mem::forget(machine);
    outcome
}

/// Whether two runs come to the same.
fn is_same(one: RunOutcome, other: RunOutcome) -> bool {
    match (one, other) {
        (RunOutcome::Proved, RunOutcome::Proved)
        | (RunOutcome::NotOne, RunOutcome::NotOne)
        | (RunOutcome::Other, RunOutcome::Other) => true,
        (RunOutcome::Fault(number, n), RunOutcome::Fault(same, m)) => number == same && n == m,
        (RunOutcome::Unknown(n), RunOutcome::Unknown(m)) => n == m,
        _ => false,
    }
}

/// What a run over numbers comes to, of steps that push and cite what is known.
fn run_known(
    alloc: Global,
    known: &mut Known<'_>,
    pairs: &[(NumberedSymbol, NumberedSymbol)],
    steps: &[ProofStep],
    statement: &[NumberedSymbol],
) -> Result<RunOutcome, AllocError>
    requires holds { HoldsLasting by_code key_by_number known.old.machine }
    requires cited { All (IsCited by_number (lasting_of by_code known.old.machine)) known.old.cited.items }
    requires within { AreUsesWithin known.old.machine known.old.cited.items known.old.uses.items }
    requires saved { AreSavedBefore steps.now }
    requires order { AreInKeyOrder key_by_number (meant_pairs by_number pairs.now) }
{
    let active = Active::new(pairs);
    run(
        alloc,
        &mut known.machine,
        &known.cited,
        &known.uses,
        &active,
        steps,
        statement,
    )
}

/// Whether a run over names comes to the same as one over numbers, for the steps of a theorem with these active pairs.
fn runs_agree(
    alloc: Global,
    base: &Base,
    program: &mut Program<'_>,
    pairs: &[(NumberedSymbol, NumberedSymbol)],
    statement: &[NumberedSymbol],
) -> bool
    requires holds { HoldsLasting by_code key_by_number program.old.known.machine }
    requires citable { All (CanBeCited base.now) program.old.known.cited.items }
    requires cited { All (IsCited by_number (lasting_of by_code program.old.known.machine)) program.old.known.cited.items }
    requires within { AreUsesWithin program.old.known.machine program.old.known.cited.items program.old.known.uses.items }
    requires saved { AreSavedBefore program.old.steps.items }
    requires order { AreInKeyOrder key_by_number (meant_pairs by_number pairs.now) }
{
    let by_names = run_by_names(alloc, base, &*program, pairs, statement);
    let by_numbers = run_known(alloc, &mut program.known, pairs, &program.steps, statement);
    match (by_names, by_numbers) {
        (Ok(one), Ok(other)) => is_same(one, other),
        _ => false,
    }
}

/// Whether a run over names comes to the same as one over numbers, for the proof of an item; so it does if nothing is run.
pub fn agrees(alloc: Global, names: &Names, files: &Files, base: &Base, i: usize) -> bool
    requires { HasTheorem names.now files.now base.now i }
{
    numbers_keep_order(); // A law: pairs in the order of numbers are in the order of keys.
    let Some(pairs) = base.pairs(i) else {
        return false;
    };
    let mut program = program_of(alloc, files, base, i);
    let agree = match &mut program {
        Ok(program) => runs_agree(alloc, base, program, pairs, base.known_expression(i)),
        Err(error) => matches!(*error, Undecoded::Fault(_)),
    };
    mem::forget(program);
    agree
}
