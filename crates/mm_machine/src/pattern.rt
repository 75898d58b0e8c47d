//! Lasting expressions under the substitution that entries give.

ghost use Rattle.std.specs.Prelude.{◌≡◌, ◌↔◌, ◌≤◌, ◌+◌, ◌-◌, ◌<◌, IsTrue, OnOk, IfOk, MatchOption, drop, take, length, map};
ghost use Rattle.mm_machine.specs.Code.{Flat.{IsEntryWithin, read}, Filling.{IsFillable, pattern_filled}};

use crate::kept::{BLOCK, Kept};
use crate::lasting::Pattern;
use crate::slots::Slot;
use std::alloc::{AllocError, Global};

/// An expression as a range of the flat list of symbols.
#[derive(Clone, Copy)]
pub struct Entry {
    /// Where it begins.
    pub start: usize,
    /// Where it ends, this place not counted.
    pub end: usize,
    /// The symbols from here on belong to no earlier entry.
    pub floor: usize,
}

/// What a variable is given: a range of the flat list of symbols.
#[derive(Clone, Copy)]
pub struct Given {
    /// Where it begins.
    pub start: usize,
    /// Where it ends, this place not counted.
    pub end: usize,
    /// Where the `$f` of the variable is among the mandatory hypotheses of the assertion that gives it.
    pub place: usize,
}

/// Whether a run of constants and what comes behind it have room.
#[inline(always)]
fn have_room(room: usize, constants: usize, given: usize) -> bool
    ensures { IsTrue result ↔ (constants + given ≤ room) }
{
    constants <= room && given <= room - constants
}

/// Puts an expression under the substitution to a place of the flat list, behind all that is there. Answers how many symbols it
/// has, or nothing if there is no room for it and a block of symbols.
#[inline(always)]
pub fn build<S: Kept>(
    alloc: Global,
    all: &mut [S],
    top: usize,
    given: &[Given],
    slots: &[Slot],
    pattern: Pattern,
) -> Result<Option<usize>, AllocError>
    requires top { top + 4 ≤ length all.old }
    requires fillable { IsFillable given.now top slots.now pattern }
    ensures count { length all.new ≡ length all.old }
    ensures below { OnOk result (take top (map S.means all.new) ≡ take top (map S.means all.old)) }
    ensures built { IfOk result (λ found. MatchOption found
        (length all.old < top + length (pattern_filled (map S.means all.old) given.now slots.now pattern) + 4)
        (λ n. (top + n + 4 ≤ length all.old) × (take n (drop top (map S.means all.new))
        ≡ pattern_filled (map S.means all.old) given.now slots.now pattern))) }
{
    let slots = &slots[pattern.first as usize..pattern.last as usize];
    let mut from = pattern.start as usize;
    let mut at = top;
    for n in 0..slots.len() {
        let constants = slots[n].constants as usize;
        let put = given[slots[n].variable as usize];
        let count = put.end - put.start;
        if !have_room(all.len() - at - BLOCK, constants, count) {
            return Ok(None);
        }
        S::copy_on(alloc, &mut *all, at, from, constants)?;
        at += constants;
        S::copy_on(alloc, &mut *all, at, put.start, count)?;
        at += count;
        from += constants + 1;
    }
    let rest = pattern.end as usize - from;
    if rest > all.len() - at - BLOCK {
        return Ok(None);
    }
    S::copy_on(alloc, &mut *all, at, from, rest)?;
    Ok(Some(at + rest - top))
}

/// Whether an entry is an expression under the substitution. Behind all of them there is a block.
#[inline(always)]
pub fn fits<S: Kept>(
    all: &[S],
    entry: Entry,
    given: &[Given],
    slots: &[Slot],
    pattern: Pattern,
) -> bool
    requires room { 4 ≤ length all.now }
    requires entry { IsEntryWithin (length all.now - 4) entry }
    requires fillable { IsFillable given.now (length all.now - 4) slots.now pattern }
    ensures { IsTrue result ↔ (pattern_filled (map S.means all.now) given.now slots.now pattern ≡ read (map S.means all.now) entry) }
{
    let slots = &slots[pattern.first as usize..pattern.last as usize];
    let mut from = pattern.start as usize;
    let mut at = entry.start;
    for n in 0..slots.len() {
        let constants = slots[n].constants as usize;
        let put = given[slots[n].variable as usize];
        let count = put.end - put.start;
        if !have_room(entry.end - at, constants, count) {
            return false;
        }
        if !S::are_same(all, at, all, from, constants) {
            return false;
        }
        at += constants;
        if !S::are_same(all, at, all, put.start, count) {
            return false;
        }
        at += count;
        from += constants + 1;
    }
    let rest = pattern.end as usize - from;
    if rest != entry.end - at {
        return false;
    }
    S::are_same(all, at, all, from, rest)
}
