//! A base whose proofs are checked.

ghost use Rattle.std.specs.Prelude.{◌≡◌};

use crate::decoding::Decoding;
use crate::known::Known;
use mm_frame::Base;
use std::alloc::{AllocError, Global};
use std::marker::Model;

/// Checks proofs of a base, one after another. The expressions of an item are loaded once for all. Its value is the base.
#[derive(Drop)]
pub struct Checker<'a> {
    base: &'a Base,
    /// What is known of it, for all checks.
    pub(crate) known: Known<'a>,
    /// Room for what a proof decodes to. What it has does not count.
    pub(crate) room: Decoding,
}

impl<'a> Model for Checker<'a> {
    ghost use Rattle.mm_frame.specs.declared.base.Base.{Base};

    ghost Value = { Base };

    ghost use Rattle.mm_verdict.specs.Code.KeptChecker.{base_of, AreOfBase};

    ghost view = { base_of };

    ghost invariant = { AreOfBase };
}

impl<'a> Checker<'a> {
    /// Checks proofs of this base. It takes no memory.
    pub fn new(alloc: Global, base: &'a Base) -> Checker<'a>
        ensures { result ≡ base.now }
    {
        Checker {
            base,
            known: Known::new(alloc),
            room: Decoding::new(alloc),
        }
    }

    /// The base.
    pub(crate) fn base(&self) -> &'a Base
        ensures { result.now ≡ self.now }
    {
        self.base
    }

    /// Gives what checks use over again a place for each of this many keys of variables.
    pub(crate) fn widen(&mut self, keys: usize) -> Result<(), AllocError>
        ensures { self.new ≡ self.old }
    {
        self.known.widen(keys)
    }
}
