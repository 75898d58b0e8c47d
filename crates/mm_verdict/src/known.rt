//! What checks of a base keep of it: the expressions of its items, as the machine has them.

ghost use Rattle.std.specs.Prelude.{◌≡◌, ◌<◌, false, ℕ, List, All, IsTrue, IfOk, OnOk, length};
ghost use Rattle.mm_frame.specs.{Language.{Answering.{IsBase}, Base.{BaseView, is_framed_at}}, declared.base.Base.{Base as Meant}};
ghost use Rattle.mm_machine.specs.Language.{Frame.{Mandatory}, Keys.{key_by_number}, Lasting.{HoldsLasting, lasting_of}, NumberedSymbols.{by_code}};
ghost use Rattle.mm_verdict.specs.Language.Loaded.{CitesItem, HasHypotheses, HasItem, IsAssertionOf, IsLoaded};
ghost use Rattle.mm_verdict.specs.Code.NamedItems.{AreCited, AreKnownOf, AreNamesOf, HasItems, IsNamedBy, IsOneMore, IsThere, KeepsItems, TakesNothing};
ghost use Rattle.mm_frame.specs.declared.base.Resolved.TheVariants as answers;

use crate::assertion::{cited_of, expression, loaded_of};
use mm_frame::{Base, Resolved};
use mm_machine::{Cited, CodedSymbol, Machine, NumberedSymbol, Use};
use std::alloc::{AllocError, Global};

/// An assertion that takes nothing is pushed as it is, if it has at most this many symbols; a longer one is a fault when it is
/// cited.
const LONGEST_PUSHED: usize = 1_000_000;

/// What labels of proofs push and cite in a base. The expressions are there once for all proofs.
#[derive(Drop)]
pub struct Known<'a> {
    /// The machine. Its lasting expressions are those of items of the base, by their numbers; what has no symbol is not loaded.
    pub machine: Machine<CodedSymbol>,
    /// What each label of the last proof is used for.
    pub uses: Vec<Use>,
    /// The assertions that these cite.
    pub cited: Vec<Cited<'a, NumberedSymbol>>,
    /// For the number of an item a mark: whether a label in use of the last proof names it. Those of other proofs do not count.
    pub marks: Vec<bool>,
}

/// Whether this assertion, which has this number, has no mandatory hypothesis, and is not too long to be pushed.
fn takes_nothing(base: &Base, number: usize, cited: &Cited<'_, NumberedSymbol>) -> bool
    requires { (lasting : List Mandatory) × CitesItem base.now number lasting cited.now }
    ensures { IsTrue result → TakesNothing base.now number }
{
    cited.hypotheses.is_empty() && expression(base, number).len() <= LONGEST_PUSHED
}

/// Loads the items with these numbers that are not loaded. The hypotheses of the assertions among them are loaded.
fn load_each(
    alloc: Global,
    machine: &mut Machine<CodedSymbol>,
    base: &Base,
    numbers: &[usize],
) -> Result<(), AllocError>
    requires items { HasItems base.now machine.old }
    requires within { All (λ n. n < length (lasting_of by_code machine.old)) numbers.now }
    requires hypotheses { All (HasHypotheses base.now (lasting_of by_code machine.old)) numbers.now }
    ensures items { OnOk result (HasItems base.now machine.new) }
    ensures loaded { OnOk result (All (IsLoaded base.now (lasting_of by_code machine.new)) numbers.now) }
    ensures keeps { OnOk result (KeepsItems base.now machine.old machine.new) }
{
    for k in 0..numbers.len() {
        if !machine.is_loaded(numbers[k]) {
            let loaded = loaded_of(base, numbers[k]);
            machine.load(alloc, numbers[k], loaded.0, loaded.1)?;
        }
    }
    Ok(())
}

/// Loads an item, and with an assertion its hypotheses.
fn load(
    alloc: Global,
    machine: &mut Machine<CodedSymbol>,
    base: &Base,
    number: usize,
) -> Result<(), AllocError>
    requires base { (view : BaseView) × IsBase view base.now }
    requires items { HasItems base.now machine.old }
    requires within { number < length (lasting_of by_code machine.old) }
    ensures items { OnOk result (HasItems base.now machine.new) }
    ensures loaded { OnOk result (IsLoaded base.now (lasting_of by_code machine.new) number) }
    ensures keeps { OnOk result (KeepsItems base.now machine.old machine.new) }
{
    if let Some(frame) = base.frame(number) {
        load_each(alloc, &mut *machine, base, &frame.hypotheses)?;
    }
    load_each(alloc, machine, base, &[number])?;
    Ok(())
}

/// Loads what the labels name that is not loaded.
fn load_all(
    alloc: Global,
    machine: &mut Machine<CodedSymbol>,
    base: &Base,
    labels: &[Resolved],
) -> Result<(), AllocError>
    requires items { HasItems base.now machine.old }
    requires labels { All (IsNamedBy base.now (length (lasting_of by_code machine.old))) labels.now }
    ensures items { OnOk result (HasItems base.now machine.new) }
    ensures there { OnOk result (All (IsThere base.now (lasting_of by_code machine.new)) labels.now) }
    ensures keeps { OnOk result (KeepsItems base.now machine.old machine.new) }
{
    for label in labels {
        match *label {
            Resolved::Hypothesis(number) | Resolved::Assertion(number) => {
                if !machine.is_loaded(number) {
                    load(alloc, &mut *machine, base, number)?;
                }
            }
            Resolved::Inactive | Resolved::Unknown => {}
        }
    }
    Ok(())
}

impl<'a> Known<'a> {
    /// Nothing, which takes no memory.
    pub(crate) fn new(alloc: Global) -> Known<'a>
        ensures { (base : Meant) → AreKnownOf base result }
    {
        let machine: Machine<CodedSymbol> = Machine::new(alloc);
        Known {
            machine,
            uses: Vec::new(alloc),
            cited: Vec::new(alloc),
            marks: Vec::new(alloc),
        }
    }

    /// Takes room for variables whose keys are below this number. If it takes more than there was, the expressions are
    /// forgotten.
    pub(crate) fn widen(&mut self, keys: usize) -> Result<(), AllocError>
        requires { HoldsLasting by_code key_by_number self.old.machine }
        ensures { (base : Meant) → AreKnownOf base self.old → AreKnownOf base self.new }
    {
        self.machine.widen(keys)
    }

    /// Forgets all, and keeps the room.
    pub(crate) fn forget(&mut self)
        ensures { (base : Meant) → AreKnownOf base self.new }
    {
        self.machine.forget();
    }

    /// What a label is used for that names the assertion with this number.
    fn cite(&mut self, base: &'a Base, number: usize) -> Result<Use, AllocError>
        requires item { IsAssertionOf base.now number }
        requires loaded { IsLoaded base.now (lasting_of by_code self.old.machine) number }
        requires cited { AreCited base.now self.old }
        ensures { IfOk result (λ used. IsOneMore base.now self.old self.new used (answers.Assertion number)) }
    {
        let cited = cited_of(base, number);
        if takes_nothing(base, number, &cited) {
            return Ok(Use::Lasting(number));
        }
        let place = self.cited.len();
        self.cited.push(cited)?;
        Ok(Use::Assertion(place))
    }

    /// What a label is used for.
    fn name(&mut self, base: &'a Base, label: Resolved) -> Result<Use, AllocError>
        requires entry { (i : ℕ) × IsNamedBy base.now i label }
        requires there { IsThere base.now (lasting_of by_code self.old.machine) label }
        requires cited { AreCited base.now self.old }
        ensures { IfOk result (λ used. IsOneMore base.now self.old self.new used label) }
    {
        match label {
            Resolved::Hypothesis(number) => Ok(Use::Lasting(number)),
            Resolved::Assertion(number) => self.cite(base, number),
            Resolved::Inactive | Resolved::Unknown => Ok(Use::Nothing),
        }
    }

    /// Finds what each of the labels of a proof of item `i` is used for, and loads what they name.
    pub(crate) fn name_all(
        &mut self,
        alloc: Global,
        base: &'a Base,
        i: usize,
        labels: &[Resolved],
    ) -> Result<(), AllocError>
        requires known { AreKnownOf base.now self.old }
        requires labels { All (IsNamedBy base.now i) labels.now }
        ensures { OnOk result (AreNamesOf base.now labels.now self.new) }
    {
        self.machine.make_places(i)?;
        load_all(alloc, &mut self.machine, base, labels)?;
        self.cited.clear();
        self.uses.clear();
        self.uses.reserve(labels.len())?;
        for label in labels {
            let used = self.name(base, *label)?;
            self.uses.push(used)?;
        }
        Ok(())
    }
}
