//! Names of symbols, numbered from 0 in the order in which they come.

ghost use Rattle.std.specs.{Prelude.{◌≡◌, ℕ, List, [], ◌∷◌, ◌++◌, Some, false, IfOk, IfSome, OnErr, length, slice_get, bytes_eq}, List.{list_any}};
ghost use Rattle.mm_machine.specs.Language.Names.{AreDistinct, Begins};
ghost use Rattle.mm_frame.specs.Code.{KeptNames.{IsFoundIn}, Numbers.{IsNameNumber, number_in}};

use crate::codes::code_of;
use indexmap::IndexSet;
use std::alloc::{AllocError, Global};
use std::marker::Model;

/// A short name that was found, and its number.
#[derive(Clone, Copy)]
struct Found {
    /// The code of the name; 0 if none was found.
    code: u64,
    number: usize,
}

/// Names, each once, numbered from 0. A name keeps its number: new ones come after the others.
///
/// Few names make up most of a text, and they are short. So what a look-up of a short name found is kept by the number that
/// its bytes make, and is told without a look-up by hash.
#[derive(Drop)]
pub struct Names {
    names: IndexSet<Vec<u8>>,
    /// The short names that were found last, by their codes: none before the first name.
    found: Vec<Found>,
}

impl Model for Names {
    ghost use Rattle.std.specs.Prelude.{ℕ, List};

    ghost Value = { List (List ℕ) };

    ghost use Rattle.mm_frame.specs.Code.KeptNames.{names_inside, AreKept};

    ghost view = { names_inside };

    ghost invariant = { AreKept };
}

/// How many short names are kept that were found.
const MOST_FOUND: usize = 4096;

/// Where the short name with a code is kept when it is found.
fn place_of(code: u64) -> usize {
    code as usize % MOST_FOUND
}

impl Names {
    /// No names. It takes no memory.
    pub fn new(alloc: Global) -> Names
        ensures { result ≡ [] }
    {
        Names {
            names: IndexSet::new(alloc),
            found: Vec::new(alloc),
        }
    }

    /// How many names there are.
    pub fn count(&self) -> usize
        ensures count { result ≡ length self.now }
        ensures distinct { AreDistinct self.now }
    {
        self.names.len()
    }

    /// No name is there twice.
    pub(crate) fn distinct(&self)
        ensures { AreDistinct self.now }
    {
        let _count = self.names.len();
    }

    /// The number of a name, if it has one.
    pub(crate) fn number(&self, name: &[u8]) -> Option<usize>
        ensures number { result ≡ number_in self.now name.now }
        ensures distinct { AreDistinct self.now }
    {
        self.names.get_index_of(name)
    }

    /// The name with this number; no bytes if there is none.
    pub(crate) fn name(&self, number: usize) -> &[u8]
        ensures { (name : List ℕ) → IsNameNumber self.now number name → result.now ≡ name }
    {
        match self.names.get_index(number) {
            Some(name) => name,
            None => b"",
        }
    }

    /// The number of the name with a code, if it was found last at its place.
    fn number_by(&self, code: u64) -> Option<usize>
        ensures { IfSome result (IsFoundIn self.now code) }
    {
        match self.found.get(place_of(code)) {
            Some(found) if found.code == code => Some(found.number),
            _ => None,
        }
    }

    /// Keeps the number of the name with a code, if there is a place for it.
    fn keep(&mut self, code: u64, number: usize)
        requires { IsFoundIn self.old code number }
        ensures { self.new ≡ self.old }
    {
        let place = place_of(code);
        if place < self.found.len() {
            self.found[place] = Found { code, number };
        }
    }

    /// The number of a name, which it gets if it has none yet. Out of memory leaves the names as they were.
    #[inline(always)]
    pub(crate) fn intern(&mut self, alloc: Global, name: &[u8]) -> Result<usize, AllocError>
        ensures named { IfOk result (λ n. slice_get self.new n ≡ Some name.now) }
        ensures grows { Begins self.old self.new }
        ensures err { OnErr result (self.new ≡ self.old) }
    {
        let Some(code) = code_of(name) else {
            return self.find_or_add(alloc, name);
        };
        if let Some(number) = self.number_by(code) {
            return Ok(number);
        }
        let number = self.find_or_add(alloc, name)?;
        self.keep(code, number);
        Ok(number)
    }

    /// The number of a name, by hash, which it gets if it has none yet.
    fn find_or_add(&mut self, alloc: Global, name: &[u8]) -> Result<usize, AllocError>
        ensures named { IfOk result (λ n. slice_get self.new n ≡ Some name.now) }
        ensures grows { Begins self.old self.new }
        ensures err { OnErr result (self.new ≡ self.old) }
    {
        match self.names.get_index_of(name) {
            Some(number) => Ok(number),
            None => self.add(alloc, name),
        }
    }

    /// Makes places for short names that are found, if there are none.
    fn make_places(&mut self) -> Result<(), AllocError>
        ensures { self.new ≡ self.old }
    {
        if self.found.is_empty() {
            let none = Found { code: 0, number: 0 };
            self.found.resize(MOST_FOUND, none)?;
        }
        Ok(())
    }

    /// Adds a new name after the others.
    fn add(&mut self, alloc: Global, name: &[u8]) -> Result<usize, AllocError>
        requires { list_any (bytes_eq name.now) self.old ≡ false }
        ensures ok { IfOk result (λ n. (n ≡ length self.old) × (self.new ≡ self.old ++ name.now ∷ [])) }
        ensures err { OnErr result (self.new ≡ self.old) }
    {
        self.make_places()?;
        let number = self.names.len();
        let key = Vec::from_slice(alloc, name)?;
        self.names.insert(key)?;
        Ok(number)
    }
}
