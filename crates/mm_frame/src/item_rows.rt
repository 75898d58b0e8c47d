//! The labels and the faults of the items.

ghost use Rattle.std.specs.{Prelude.{◌≡◌, ◌<◌, ◌≤◌, ◌+◌, ◌++◌, ◌∷◌, ℕ, [], Some, None, IfOk, OnOk, false, length, slice_get, slice_index_or}, Option.{option_map}};
ghost use Rattle.mm_frame.specs.Code.KeptRows.{fault_kept, fault_told, row_label, row_fault, is_shown_in, AreRowsKept, rows_of};

use crate::item_lists::ItemLists;
use crate::judge::FrameFault;
use std::alloc::{AllocError, Global};

/// For each item, by its number from 0, its label, if it is one that has a label, and its fault: F14 if it is a missing
/// inclusion.
///
/// To add those of one more item takes time linear in its label on the average; what is kept of an item is found in
/// constant time.
#[derive(Drop)]
pub struct Rows {
    /// The label of each item: no bytes for an item that has none.
    labels: ItemLists<u8>,
    /// For each item, whether it has a label.
    labelled: Vec<bool>,
    /// The faults, up to the last: most often there is none.
    faults: Vec<Option<FrameFault>>,
}

/// Has places for the faults of this many items.
fn fill(faults: &mut Vec<Option<FrameFault>>, count: usize) -> Result<(), AllocError>
    ensures same { OnOk result ((n : ℕ) → fault_kept faults.new.items n ≡ fault_kept faults.old.items n) }
    ensures count { OnOk result (length faults.old.items ≤ count → length faults.new.items ≡ count) }
{
    while faults.len() < count {
        faults.push(None)?;
    }
    Ok(())
}

/// Adds the fault of the item after this many, if it has one.
fn add_fault(
    faults: &mut Vec<Option<FrameFault>>,
    count: usize,
    fault: Option<FrameFault>,
) -> Result<(), AllocError>
    ensures same { OnOk result (length faults.old.items ≤ count → (n : ℕ) → n < count → fault_kept faults.new.items n ≡ fault_kept faults.old.items n) }
    ensures here { OnOk result (length faults.old.items ≤ count → fault_kept faults.new.items count ≡ fault) }
    ensures within { OnOk result (length faults.old.items ≤ count → length faults.new.items ≤ count + 1) }
{
    if fault.is_some() {
        fill(faults, count)?;
        faults.push(fault)?;
    }
    Ok(())
}

/// The fault that is kept at a place, if there is one.
fn kept_fault(faults: &[Option<FrameFault>], n: usize) -> Option<FrameFault>
    ensures { result ≡ fault_kept faults.now n }
{
    match faults.get(n) {
        Some(fault) => *fault,
        None => None,
    }
}

/// Whether there is a label at a place.
fn is_labelled(flags: &[bool], n: usize) -> bool
    ensures { result ≡ slice_index_or flags.now n false }
{
    match flags.get(n) {
        Some(labelled) => *labelled,
        None => false,
    }
}

impl Rows {
    /// No items, with room for this many.
    pub fn with_room(alloc: Global, count: usize) -> Result<Rows, AllocError>
        ensures kept { IfOk result AreRowsKept }
        ensures none { IfOk result (λ rows. rows_of rows ≡ []) }
    {
        let labels = ItemLists::with_room(alloc, count, 0)?;
        let labelled = Vec::with_capacity(alloc, count)?;
        Ok(Rows {
            labels,
            labelled,
            faults: Vec::new(alloc),
        })
    }

    /// How many items there are.
    pub fn count(&self) -> usize
        ensures { result ≡ length (rows_of self.now) }
    {
        self.labels.count()
    }

    /// The label of the item with this number, if there is such an item and it has one.
    pub fn label(&self, n: usize) -> Option<&[u8]>
        requires { AreRowsKept self.now }
        ensures { option_map (λ label. label.now) result ≡ row_label (slice_get (rows_of self.now) n) }
    {
        if !is_labelled(&self.labelled, n) {
            return None;
        }
        Some(self.labels.at(n))
    }

    /// The fault of the item with this number, if there is such an item and it has one.
    pub fn fault(&self, n: usize) -> Option<FrameFault>
        requires { AreRowsKept self.now }
        ensures { fault_told result ≡ row_fault (slice_get (rows_of self.now) n) }
    {
        kept_fault(&self.faults, n)
    }

    /// Whether there is an item with this number that has a label and no fault.
    pub fn is_shown(&self, n: usize) -> bool
        requires { AreRowsKept self.now }
        ensures { result ≡ is_shown_in (slice_get (rows_of self.now) n) }
    {
        if !is_labelled(&self.labelled, n) {
            return false;
        }
        kept_fault(&self.faults, n).is_none()
    }

    /// Adds the label and the fault of one more item.
    pub fn add(&mut self, label: Option<&[u8]>, fault: Option<FrameFault>) -> Result<(), AllocError>
        ensures kept { OnOk result (AreRowsKept self.old → AreRowsKept self.new) }
        ensures more { OnOk result (AreRowsKept self.old
            → rows_of self.new ≡ rows_of self.old ++ (option_map (λ label. label.now) label.entry, fault_told fault) ∷ []) }
    {
        add_fault(&mut self.faults, self.labels.count(), fault)?;
        self.labelled.push(label.is_some())?;
        self.labels.add(label.unwrap_or(&[]))?;
        Ok(())
    }
}
