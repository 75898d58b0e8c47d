//! Why the files of a database are not loaded.

ghost use Rattle.std.specs.Prelude.{◌≡◌};
ghost use Rattle.mmkeep.specs.{declared.unloaded.Unloaded.TheVariants.{Memory}, Language.Status.{outcome_of_unloaded}};

use crate::outcome::Outcome;
use mm_report::Reading;
use std::alloc::AllocError;
use std::io::Read;

/// Why the files of a database are not loaded.
#[derive(Drop)]
pub enum Unloaded<R: Read> {
    /// The top file cannot be opened; or the text of a file has a fault, or is too much.
    Input,
    /// A read of a file failed; this is its reading, which has failed.
    Read(Reading<R>),
    /// Memory ran out.
    Memory,
}

impl<R: Read> From<AllocError> for Unloaded<R> {
    ghost from_gives = { λ _ unloaded. unloaded ≡ Memory };

    fn from(_: AllocError) -> Self {
        Unloaded::Memory
    }
}

impl<R: Read> Unloaded<R> {
    /// What comes of a run whose files are not loaded.
    pub fn outcome(&self) -> Outcome
        ensures { result ≡ outcome_of_unloaded self.now }
    {
        match self {
            Unloaded::Input | Unloaded::Read(_) => Outcome::Input,
            Unloaded::Memory => Outcome::Memory,
        }
    }
}
