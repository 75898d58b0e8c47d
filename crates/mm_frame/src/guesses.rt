//! Guesses of the numbers of lists, or of items that have them.

use mm_machine::{NumberedSymbol, narrow};
use std::alloc::{AllocError, Global};

/// The most guesses: about as many as the largest databases have different expressions. They find 97 of 100 symbols that
/// occurred in an earlier item.
const MOST_GUESSES: usize = 65_536;

/// Numbers of lists, or of items that have them, each kept at a place that its list gives; another list may give the same
/// place.
///
/// What is guessed is compared, so that no answer depends on it.
#[derive(Drop)]
pub struct ListGuesses {
    numbers: Vec<u32>,
}

impl ListGuesses {
    /// A guess for each of this many items, but not more than the most.
    pub fn with_room(alloc: Global, count: usize) -> Result<ListGuesses, AllocError> {
        let places = count.min(MOST_GUESSES);
        let mut numbers = Vec::with_capacity(alloc, places)?;
        numbers.resize(places, 0)?;
        Ok(ListGuesses { numbers })
    }

    /// No guesses. It takes no memory.
    pub fn none(alloc: Global) -> ListGuesses {
        ListGuesses {
            numbers: Vec::new(alloc),
        }
    }

    /// Where the guess for a list of symbols is kept. It takes time linear in the list.
    pub fn place_of(&self, symbols: &[NumberedSymbol]) -> usize {
        let mut hash: usize = 0;
        for symbol in symbols {
            hash = hash.wrapping_mul(131).wrapping_add(symbol.name);
        }
        self.place(hash)
    }

    /// Where the guess for a list of numbers and one more number is kept. It takes time linear in the list.
    pub fn place_of_numbers(&self, numbers: &[usize], more: usize) -> usize {
        let mut hash = more;
        for number in numbers {
            hash = hash.wrapping_mul(131).wrapping_add(*number);
        }
        self.place(hash)
    }

    /// Where the guess for a list of numbers and one of pairs is kept. It takes time linear in the lists.
    pub fn place_of_pairs(
        &self,
        numbers: &[usize],
        pairs: &[(NumberedSymbol, NumberedSymbol)],
    ) -> usize {
        let mut hash: usize = 0;
        for number in numbers {
            hash = hash.wrapping_mul(131).wrapping_add(*number);
        }
        for pair in pairs {
            hash = hash.wrapping_mul(131).wrapping_add(pair.0.name);
            hash = hash.wrapping_mul(131).wrapping_add(pair.1.name);
        }
        self.place(hash)
    }

    /// Where the guess for a number is kept.
    pub fn place(&self, hash: usize) -> usize {
        let places = self.numbers.len();
        if places == 0 { 0 } else { hash % places }
    }

    /// The guess that is kept at a place.
    pub fn guess(&self, place: usize) -> usize {
        match self.numbers.get(place) {
            Some(number) => *number as usize,
            None => 0,
        }
    }

    /// Keeps a guess, where there is a place for it.
    pub fn keep(&mut self, place: usize, number: usize) {
        if let Ok(number) = narrow(number) {
            if place < self.numbers.len() {
                self.numbers[place] = number;
            }
        }
    }
}
