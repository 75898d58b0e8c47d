//! Formal systems, and what is provable in them: which theorems of a database follow from which of its axioms, by the
//! definitions of the Metamath book.
#![tactic(auto)]

mod examples;
mod laws;

pub use examples::systems_are_read_so;
pub use laws::{
    clean_is_provable, databases_are_systems, provable_acts, provable_adds_nothing,
    provable_by_pairs, proved_is_provable, resting_is_provable,
};
