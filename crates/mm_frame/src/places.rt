//! The places of the variables of a frame, by their names.

ghost use Rattle.std.specs.Prelude.{◌≡◌, IfOk, IfSome};
ghost use Rattle.mm_frame.specs.Code.KeptPlaces.{ArePlaces};

use mm_machine::NumberedSymbol;
use std::alloc::{AllocError, Global};
use std::collections::HashMap;

/// The places of some symbols, from 0, by the numbers of their names.
#[derive(Drop)]
pub struct Places {
    places: HashMap<usize, usize>,
}

impl Places {
    ghost use Rattle.mm_frame.specs.Code.KeptPlaces.{place_of};

    /// The places of these symbols: none if a name is there twice.
    pub fn of(alloc: Global, symbols: &[NumberedSymbol]) -> Result<Option<Places>, AllocError>
        ensures { IfOk result (λ places. IfSome places (ArePlaces symbols.now)) }
    {
        let mut places = HashMap::new(alloc);
        for n in 0..symbols.len() {
            let twice = places.insert(symbols[n].name, n)?;
            if twice.is_some() {
                return Ok(None);
            }
        }
        Ok(Some(Places { places }))
    }

    /// The place of the symbol whose name has this number, if it is one of them.
    pub fn place(&self, name: usize) -> Option<usize>
        ensures { result ≡ place_of self.now name }
    {
        self.places.get(&name).copied()
    }
}
