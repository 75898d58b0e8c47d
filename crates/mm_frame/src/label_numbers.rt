//! Labels with the numbers of their items, found by hash.

ghost use Rattle.std.specs.Prelude.{◌≡◌, ℕ, List, None, Some, IfOk, OnOk, bytes_eq, if◌then◌else◌};
ghost use Rattle.mm_frame.specs.Code.KeptLabels.{label_number};

use crate::codes::code_of;
use std::alloc::{AllocError, Global};
use std::collections::HashMap;

/// Labels, each with the number of an item.
///
/// Nearly all labels that proofs name have few bytes. A short label is kept as the number that its bytes make, so a look-up
/// reads little memory. A longer one is kept by its bytes.
#[derive(Drop)]
pub struct LabelNumbers {
    short: HashMap<u64, usize>,
    long: HashMap<Vec<u8>, usize>,
}

impl LabelNumbers {
    /// No labels, with room for this many that are short.
    #[tactic(auto, unfolding(crate::specs::Code::KeptLabels::label_number))]
    pub fn with_room(alloc: Global, count: usize) -> Result<LabelNumbers, AllocError>
        ensures { IfOk result (λ labels. (label : List ℕ) → label_number labels label ≡ None) }
    {
        let short = HashMap::with_capacity(alloc, count)?;
        Ok(LabelNumbers {
            short,
            long: HashMap::new(alloc),
        })
    }

    /// The number that a label has, if it has one.
    #[tactic(auto, unfolding(crate::specs::Code::KeptLabels::label_number))]
    pub fn get(&self, label: &[u8]) -> Option<usize>
        ensures { result ≡ label_number self.now label.now }
    {
        match code_of(label) {
            Some(code) => self.short.get(&code).copied(),
            None => self.long.get(label).copied(),
        }
    }

    /// Gives a label this number, in the place of the one that it had.
    pub fn insert(&mut self, alloc: Global, label: &[u8], number: usize) -> Result<(), AllocError>
        ensures { OnOk result ((other : List ℕ) → label_number self.new other
            ≡ (if bytes_eq label.now other then Some number else label_number self.old other)) }
    {
        match code_of(label) {
            Some(code) => {
                self.short.insert(code, number)?;
            }
            None => {
                let key = Vec::from_slice(alloc, label)?;
                self.long.insert(key, number)?;
            }
        }
        Ok(())
    }
}
