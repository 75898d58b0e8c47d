//! How many items there are of each kind that a summary counts.

ghost use Rattle.std.specs.Prelude.{◌≡◌, ◌+◌, ◌++◌, ◌∷◌, [], List};
ghost use Rattle.mm_keep.specs.Language.{Findings.{counted, told, AreFew}, Told.{Told, counts}};

use crate::finding::Finding;

/// How many there are: sound `$a`; sound `$p`, and of these the proved, the incomplete and the wrong; and faults.
#[derive(Clone, Copy, Debug, PartialEq, Eq)]
pub struct Tally {
    /// The sound `$a`.
    pub axioms: u64,
    /// The sound `$p`.
    pub theorems: u64,
    /// The sound `$p` whose verdict is Proved.
    pub proved: u64,
    /// The sound `$p` whose verdict is Incomplete.
    pub incomplete: u64,
    /// The sound `$p` whose verdict is Wrong.
    pub wrong: u64,
    /// The items at fault, missing files among them.
    pub faults: u64,
}

impl Tally {
    /// Nothing is counted yet.
    pub fn none() -> Tally
        ensures { counted result ≡ counts [] }
    {
        Tally {
            axioms: 0,
            theorems: 0,
            proved: 0,
            incomplete: 0,
            wrong: 0,
            faults: 0,
        }
    }

    /// Counts what is found of one item more, of at most 4,294,967,295.
    pub fn with(self, finding: &Finding) -> Tally
        requires { (all : List Told) × (counted self ≡ counts all) × AreFew all }
        ensures { (all : List Told) → counted self ≡ counts all → counted result ≡ counts (all ++ told finding.now ∷ []) }
    {
        let mut tally = self;
        match finding {
            Finding::Quiet => (),
            Finding::Axiom => tally.axioms += 1,
            Finding::Proved => {
                tally.theorems += 1;
                tally.proved += 1;
            }
            Finding::Incomplete(_) => {
                tally.theorems += 1;
                tally.incomplete += 1;
            }
            Finding::Wrong(..) => {
                tally.theorems += 1;
                tally.wrong += 1;
            }
            Finding::Fault(..) => tally.faults += 1,
        }
        tally
    }
}
