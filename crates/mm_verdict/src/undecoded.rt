//! Why a proof was not decoded.

ghost use Rattle.std.specs.Prelude.{◌≡◌};

use mm_machine::ProofFault;
use std::alloc::{AllocError, AllocFailed};
use thiserror::Error;

/// Why a proof was not decoded.
#[derive(Clone, Copy, Debug, PartialEq, Eq, Error)]
pub enum Undecoded {
    /// The proof has this fault, and it is its first.
    #[error("the proof has a fault of decoding")]
    Fault(ProofFault),
    /// There was not enough memory. It says nothing of the proof.
    #[error("out of memory")]
    Memory,
}

impl From<AllocError> for Undecoded {
    ghost use Rattle.mm_verdict.specs.declared.undecoded.Undecoded.TheVariants.{Memory};

    ghost from_gives = { λ _ e. e ≡ Memory };

    fn from(_: AllocError) -> Undecoded {
        Undecoded::Memory
    }
}

impl<T: Drop> From<AllocFailed<T>> for Undecoded {
    ghost use Rattle.mm_verdict.specs.declared.undecoded.Undecoded.TheVariants.{Memory};

    ghost from_gives = { λ _ e. e ≡ Memory };

    fn from(_: AllocFailed<T>) -> Undecoded {
        Undecoded::Memory
    }
}
