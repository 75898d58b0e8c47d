//! Which pairs of variables were looked up, and what was found.

ghost use Rattle.std.specs.Prelude.{ℕ, List, [], OnOk};
ghost use Rattle.mm_statement.specs.Language.Item as meant;

use std::alloc::{AllocError, Global};
use std::collections::HashMap;

/// What was found when two variables were looked up.
#[derive(Clone, Copy)]
pub struct PairAnswer {
    /// The `$d` with numbers below this one were looked at.
    pub below: usize,
    /// The number of the first active `$d` that had both, if one had.
    pub common: Option<usize>,
}

/// The pairs of variables that were looked up, each with its last answer.
///
/// Of the `$d` that were looked at and have both variables, the first active one stays active longest. As long as it is
/// active, both are an active pair; after that only later `$d` have to be looked at.
#[derive(Drop)]
pub struct PairAnswers {
    /// The last answer, by the numbers of the two names.
    by_names: HashMap<(usize, usize), PairAnswer>,
}

impl PairAnswers {
    ghost use Rattle.mm_frame.specs.Code.KeptAnswers.{IsKnownPair, KnowsAnswers};

    /// No pair was looked up yet. Takes no memory.
    pub fn new(alloc: Global) -> Self
        ensures { (all : List (List ℕ)) → KnowsAnswers all [] result }
    {
        PairAnswers {
            by_names: HashMap::new(alloc),
        }
    }

    /// What was found for the names with these numbers; if they were not looked up yet, nothing was looked at.
    pub fn known(&self, first: usize, second: usize) -> PairAnswer
        ensures { (all : List (List ℕ)) (before : List meant.Said) → KnowsAnswers all before self.now → IsKnownPair all before (first, second) result }
    {
        match self.by_names.get(&(first, second)) {
            Some(answer) => *answer,
            None => PairAnswer {
                below: 0,
                common: None,
            },
        }
    }

    /// Keeps what was found for the names with these numbers.
    pub fn keep(
        &mut self,
        first: usize,
        second: usize,
        answer: PairAnswer,
    ) -> Result<(), AllocError>
        ensures { OnOk result ((all : List (List ℕ)) (before : List meant.Said) → KnowsAnswers all before self.old
            → IsKnownPair all before (first, second) answer → KnowsAnswers all before self.new) }
    {
        self.by_names.insert((first, second), answer)?;
        Ok(())
    }
}
