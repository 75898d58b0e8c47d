//! What some items have, and others do not, where several items can have the same.

ghost use Rattle.std.specs.{Prelude.{◌≡◌, ◌∷◌, ◌++◌, [], Some, None, IfOk, OnOk, is_some, length, slice_get}, Option.{option_map}};
ghost use Rattle.mm_frame.specs.Code.{KeptShared.{shared_values}, KeptSparse.{value_kept}};

use crate::sparse::Sparse;
use std::alloc::{AllocError, Global};
use std::marker::Model;

/// The element at a place of a list, if there is such a place.
pub fn element_at<T>(list: &[T], i: usize) -> Option<&T>
    ensures { option_map (λ element. element.now) result ≡ slice_get list.now i }
{
    list.get(i)
}

/// A value of each of some items, by the numbers of all items from 0. A value that several items have is kept once.
///
/// To add one more item takes constant time on the average, and so does a look at an item.
#[derive(Drop)]
pub struct Shared<T> {
    values: Vec<T>,
    /// For each item that has a value, where it is.
    places: Sparse,
}

impl<T> Model for Shared<T> {
    ghost use Rattle.mm_frame.specs.Code.KeptShared.{SharedView};

    ghost Value = { SharedView T };

    ghost use Rattle.mm_frame.specs.Code.KeptShared.{shared_inside, ArePlacesWithin};

    ghost view = { shared_inside };

    ghost invariant = { ArePlacesWithin };
}

impl<T: Drop> Shared<T> {
    /// No items, with room for this many, of which some have a value.
    pub fn with_room(alloc: Global, count: usize) -> Result<Shared<T>, AllocError>
        ensures { IfOk result (λ shared. shared_values shared ≡ []) }
    {
        let places = Sparse::with_room(alloc, count)?;
        Ok(Shared {
            values: Vec::new(alloc),
            places,
        })
    }

    /// How many items there are.
    pub fn count(&self) -> usize
        ensures { result ≡ length self.now.places }
    {
        self.places.count()
    }

    /// The value of the item with this number, if it has one.
    pub fn at(&self, number: usize) -> Option<&T>
        ensures { option_map (λ value. value.now) result ≡ value_kept (shared_values self.now) number }
    {
        let place = self.places.at(number)?;
        element_at(&self.values, place)
    }

    /// Where the value of the item with this number is, if it has one. No value is looked at.
    pub fn place(&self, number: usize) -> Option<usize>
        ensures place { result ≡ value_kept self.now.places number }
        ensures some { is_some result ≡ is_some (value_kept (shared_values self.now) number) }
    {
        self.places.at(number)
    }

    /// Adds one more item, which has this value.
    pub fn add(&mut self, value: T) -> Result<(), AllocError>
        ensures { OnOk result (shared_values self.new ≡ shared_values self.old ++ Some value ∷ []) }
    {
        let place = self.values.len();
        self.values.push(value)?;
        self.places.add(Some(place))
    }

    /// Adds one more item, which has what the one with this number has.
    pub fn share(&mut self, number: usize) -> Result<(), AllocError>
        ensures { OnOk result (shared_values self.new ≡ shared_values self.old ++ value_kept (shared_values self.old) number ∷ []) }
    {
        let place = self.places.at(number);
        self.places.add(place)
    }

    /// Adds one more item, which has no value.
    pub fn pass(&mut self) -> Result<(), AllocError>
        ensures { OnOk result (shared_values self.new ≡ shared_values self.old ++ None ∷ []) }
    {
        self.places.add(None)
    }
}
