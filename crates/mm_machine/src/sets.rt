//! Sets of numbers, 64 to a chunk.

ghost use Rattle.std.specs.Prelude.{◌≤◌, OnOk, length};
ghost use Rattle.mm_machine.specs.Code.PairClause.{AddsNumber};

use std::alloc::{AllocError, Global};

/// Some of 64 numbers.
#[derive(Clone, Copy)]
pub struct Chunk {
    /// They are from 64 times this number on.
    pub at: usize,
    /// Bit k is that of the number `64 * at + k`.
    pub bits: u64,
}

/// Sets of numbers, one behind the other, each as chunks of different numbers.
#[derive(Drop)]
pub struct Sets {
    /// The chunks of all sets.
    pub chunks: Vec<Chunk>,
    /// Where the chunk for 64 numbers may be in the last set. What is found by it is compared, so that no answer depends on it.
    places: Vec<usize>,
}

/// Writes a place into a table, which gets more places if it has too few.
#[cold]
fn note(places: &mut Vec<usize>, at: usize, place: usize) -> Result<(), AllocError> {
    while places.len() <= at {
        places.push(0)?;
    }
    places[at] = place;
    Ok(())
}

impl Sets {
    /// None. It takes no memory.
    pub fn new(alloc: Global) -> Sets {
        Sets {
            chunks: Vec::new(alloc),
            places: Vec::new(alloc),
        }
    }

    /// Where the chunk for some 64 numbers may be: past all chunks, if no place is noted.
    fn place_of(&self, at: usize) -> usize {
        if at < self.places.len() {
            self.places[at]
        } else {
            self.chunks.len()
        }
    }

    /// Adds a number to the last set, whose chunks begin at a place.
    pub fn add(&mut self, start: usize, number: usize) -> Result<(), AllocError>
        requires { start ≤ length self.old.chunks.items }
        ensures { OnOk result (AddsNumber start number self.old.chunks.items self.new.chunks.items) }
    {
        let at = number / 64;
        let bits = 1u64 << (number % 64);
        let place = self.place_of(at);
        if place >= start && place < self.chunks.len() && self.chunks[place].at == at {
            self.chunks[place].bits |= bits;
            return Ok(());
        }
        note(&mut self.places, at, self.chunks.len())?;
        self.chunks.push(Chunk { at, bits })?;
        Ok(())
    }
}
