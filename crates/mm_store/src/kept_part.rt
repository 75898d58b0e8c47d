//! The parts of pieces, as they are kept.

ghost use Rattle.std.specs.Prelude.{◌≡◌, ◌≤◌, All, IfOk};
ghost use Rattle.mm_text.specs.declared.part.Part.{Part};

use mm_text::{Part, PartKind};
use std::alloc::{AllocError, Global};
use std::marker::Model;

/// A part of a piece. No piece has more than 4,294,967,295 bytes, so that this takes half the room of a `Part`.
#[derive(Clone, Copy)]
pub struct KeptPart {
    kind: PartKind,
    start: u32,
    end: u32,
}

impl Model for KeptPart {
    ghost use Rattle.mm_text.specs.declared.part.Part.{Part};

    ghost Value = { Part };

    ghost view = { λ part. record { kind = part.kind; start = part.start; end = part.end } };

    ghost inverse = { λ part. record { kind = part.kind; start = part.start; end = part.end } };
}

impl KeptPart {
    fn of(part: Part) -> KeptPart
        requires start { part.start ≤ 4294967295 }
        requires end { part.end ≤ 4294967295 }
        ensures { result ≡ part }
    {
        KeptPart {
            kind: part.kind,
            start: part.start as u32,
            end: part.end as u32,
        }
    }

    /// The part itself.
    pub(crate) fn part(self) -> Part
        ensures { result ≡ self }
    {
        Part {
            kind: self.kind,
            start: self.start as usize,
            end: self.end as usize,
        }
    }
}

/// Parts as they are kept, in order.
pub(crate) fn kept_parts(alloc: Global, parts: &[Part]) -> Result<Vec<KeptPart>, AllocError>
    requires starts { All (λ part. part.start ≤ 4294967295) parts.now }
    requires ends { All (λ part. part.end ≤ 4294967295) parts.now }
    ensures { IfOk result (λ kept. kept.items ≡ parts.now) }
{
    let mut kept = Vec::with_capacity(alloc, parts.len())?;
    for part in parts {
        kept.push(KeptPart::of(*part))?;
    }
    Ok(kept)
}
