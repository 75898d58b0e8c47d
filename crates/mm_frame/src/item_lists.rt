//! A list for each item, in one list.

ghost use Rattle.std.specs.Prelude.{◌≡◌, ◌≤◌, [], ◌∷◌, ◌++◌, IfOk, OnOk, length, slice_index_or, slice_range};
ghost use Rattle.mm_frame.specs.Code.KeptLists.{item_list, no_part};

use mm_machine::narrow;
use std::alloc::{AllocError, Global};
use std::marker::Model;

/// A part of a list.
#[derive(Clone, Copy)]
struct Part {
    /// The place of its first element.
    start: u32,
    /// The place after its last one.
    end: u32,
}

/// A list for each item, by the numbers of the items from 0. The elements of all lists lie in one, where several items can have
/// the same.
///
/// To add a list takes time linear in it on the average, and constant time if an earlier item has it; to find one takes
/// constant time.
#[derive(Drop)]
pub struct ItemLists<T> {
    elements: Vec<T>,
    /// For each item, where its list is.
    parts: Vec<Part>,
}

impl<T> Model for ItemLists<T> {
    ghost use Rattle.std.specs.Prelude.{List};

    ghost Value = { List (List T) };

    ghost use Rattle.mm_frame.specs.Code.KeptLists.{lists_inside, ArePartsWithin};

    ghost view = { lists_inside };

    ghost invariant = { ArePartsWithin };
}

/// The part at a place; one of no elements if there is no such place.
fn part_at(parts: &[Part], n: usize) -> Part
    ensures { result ≡ slice_index_or parts.now n no_part }
{
    parts.get(n).copied().unwrap_or(Part { start: 0, end: 0 })
}

/// The elements from one place to another.
fn elements_between<T>(elements: &[T], start: usize, end: usize) -> &[T]
    requires start { start ≤ end }
    requires end { end ≤ length elements.now }
    ensures { result.now ≡ slice_range elements.now start end }
{
    &elements[start..end]
}

impl<T: Copy> ItemLists<T> {
    /// No items, with room for this many, and for so many elements.
    pub fn with_room(
        alloc: Global,
        items: usize,
        elements: usize,
    ) -> Result<ItemLists<T>, AllocError>
        ensures { IfOk result (λ lists. lists ≡ []) }
    {
        let parts = Vec::with_capacity(alloc, items)?;
        Ok(ItemLists {
            elements: Vec::with_capacity(alloc, elements)?,
            parts,
        })
    }

    /// How many items there are.
    pub fn count(&self) -> usize
        ensures { result ≡ length self.now }
    {
        self.parts.len()
    }

    /// The list of the item with this number: no elements if there is no such item.
    pub fn at(&self, number: usize) -> &[T]
        ensures { result.now ≡ item_list self.now number }
    {
        let part = part_at(&self.parts, number);
        elements_between(&self.elements, part.start as usize, part.end as usize)
    }

    /// Adds the list of one more item.
    pub fn add(&mut self, list: &[T]) -> Result<(), AllocError>
        ensures { OnOk result (self.new ≡ self.old ++ list.now ∷ []) }
    {
        let start = narrow(self.elements.len())?;
        self.elements.extend_from_slice(list)?;
        let end = narrow(self.elements.len())?;
        self.parts.push(Part { start, end })?;
        Ok(())
    }

    /// Adds one more item, which has the list of the one with this number.
    pub fn share(&mut self, number: usize) -> Result<(), AllocError>
        ensures { OnOk result (self.new ≡ self.old ++ item_list self.old number ∷ []) }
    {
        let part = part_at(&self.parts, number);
        self.parts.push(part)?;
        Ok(())
    }
}
