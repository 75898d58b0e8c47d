//! The lasting expressions of a machine, but for their symbols.

ghost use Rattle.std.specs.Prelude.{◌≡◌, [], OnOk, length};

use crate::kept::Kept;
use crate::slots::Slot;
use crate::variables::Variables;
use std::alloc::{AllocError, Global};

/// A lasting expression: its range of the symbols of all, and its range of the slots of all.
#[derive(Clone, Copy)]
pub struct Pattern {
    /// Where its symbols begin.
    pub start: u32,
    /// Where they end, this place not counted.
    pub end: u32,
    /// Where its slots begin.
    pub first: u32,
    /// Where they end, this place not counted.
    pub last: u32,
    /// It is that of a `$f`.
    pub floating: bool,
}

/// The lasting expressions, which each run can push and cite.
#[derive(Drop)]
pub struct Lasting<S> {
    pub patterns: Vec<Pattern>,
    pub slots: Vec<Slot>,
    /// Their variables, each once. A slot has the number of one of these.
    pub variables: Variables<S>,
    /// Their symbols are below this place.
    pub ground: usize,
}

impl<S: Kept> Lasting<S> {
    /// None. It takes no memory.
    pub fn new(alloc: Global) -> Lasting<S>
        ensures patterns { result.patterns.items ≡ [] }
        ensures variables { result.variables.all.items ≡ [] }
        ensures ground { result.ground ≡ 0 }
    {
        Lasting {
            patterns: Vec::new(alloc),
            slots: Vec::new(alloc),
            variables: Variables::new(alloc),
            ground: 0,
        }
    }

    /// Leaves none. The memory is kept.
    pub fn clear(&mut self)
        ensures patterns { self.new.patterns.items ≡ [] }
        ensures variables { self.new.variables.all.items ≡ [] }
        ensures ground { self.new.ground ≡ 0 }
    {
        self.patterns.clear();
        self.slots.clear();
        self.variables.clear();
        self.ground = 0;
    }

    /// Leaves none, and has this many places for the keys of variables.
    pub fn begin(&mut self, keys: usize) -> Result<(), AllocError>
        ensures places { OnOk result (length self.new.variables.places.items ≡ keys) }
        ensures patterns { self.new.patterns.items ≡ [] }
        ensures variables { self.new.variables.all.items ≡ [] }
        ensures ground { self.new.ground ≡ 0 }
    {
        self.clear();
        self.variables.places.resize(keys, 0)
    }
}
