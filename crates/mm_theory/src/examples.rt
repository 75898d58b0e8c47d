//! Small formal systems worked out by the definitions. The function does nothing; what it promises is the examples.

ghost use Rattle.mm_theory.specs.Language.Examples.{AxiomIsUsed, AxiomsAreNeeded, DummiesAreNeeded, DummiesArePaired, PairsAreNeeded, VariablesAreReplacedAtOnce, VariablesAreTyped};

/// What is provable in small formal systems, and what is not: pairs, dummy variables, their pairs and axioms are needed, and
/// all variables are replaced at once. And the system of a small database.
pub fn systems_are_read_so()
    ensures pairs { PairsAreNeeded }
    ensures dummies { DummiesAreNeeded }
    ensures paired { DummiesArePaired }
    ensures axioms { AxiomsAreNeeded }
    ensures at_once { VariablesAreReplacedAtOnce }
    ensures typed { VariablesAreTyped }
    ensures used { AxiomIsUsed }
{}
