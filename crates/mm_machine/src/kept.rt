//! What the machine needs of symbols that it keeps in a list.

ghost use Rattle.std.specs.{Prelude.{◌≡◌, ◌<◌, ◌≤◌, ◌+◌, ◌^◌, ◌++◌, ◌↔◌, ℕ, IfOk, OnOk, IsTrue, length, map, take, drop}, Simd.Lanes.{chunk}};
ghost use Rattle.mm_machine.specs.Language.{Frame.{Symbol as Meaning}, Keys.{key_by_number, key_from, key_next}};

use crate::symbol::{CodedSymbol, NamedSymbol, NumberedSymbol, Symbol};
use std::alloc::{AllocError, Global};
use std::simd::u32x4;

/// Symbols are copied and compared in blocks of this many; the last block of a copy goes over the end of what is asked for.
pub const BLOCK: usize = 4;

/// A symbol that the machine keeps in its list.
pub trait Kept: Symbol {
    /// What it is made from: a symbol as bases have it.
    type Listed: Symbol;

    /// The number by which a symbol is looked for.
    ghost key_of: { Meaning → ℕ };

    /// The number by which this symbol is looked for; equal symbols have one number. Look-ups are quick if different symbols
    /// have different numbers.
    fn key(&self) -> usize
        ensures { result ≡ key_of (Self.means self.now) };

    /// The number by which a listed symbol is looked for.
    fn key_of_listed(listed: &Self::Listed) -> usize
        ensures { result ≡ key_of (Self.Listed.means listed.now) };

    /// The symbol that a listed one is.
    fn of(alloc: Global, listed: &Self::Listed) -> Result<Self, AllocError>
        ensures { IfOk result (λ kept. Self.means kept ≡ Self.Listed.means listed.now) };

    /// Whether this is the symbol that a listed one is.
    fn is(&self, listed: &Self::Listed) -> bool
        ensures { IsTrue result ↔ (Self.means self.now ≡ Self.Listed.means listed.now) };

    /// Some symbol, for room that is not in use yet.
    fn blank(alloc: Global) -> Self;

    /// Puts copies of a range of a list to a place behind it. What comes after them in the list is anything then.
    fn copy_on(
        alloc: Global,
        all: &mut [Self],
        to: usize,
        from: usize,
        len: usize,
    ) -> Result<(), AllocError>
        requires order { from + len ≤ to }
        requires room { to + len + 4 ≤ length all.old }
        ensures count { length all.new ≡ length all.old }
        ensures copied { OnOk result (take (to + len) (map Self.means all.new)
            ≡ take to (map Self.means all.old) ++ take len (drop from (map Self.means all.old))) };

    /// Whether ranges of two lists have the same symbols. Behind each there is a block.
    fn are_same(one: &[Self], at: usize, other: &[Self], from: usize, len: usize) -> bool
        requires one { at + len + 4 ≤ length one.now }
        requires other { from + len + 4 ≤ length other.now }
        ensures { IsTrue result
            ↔ (take len (drop at (map Self.means one.now)) ≡ take len (drop from (map Self.means other.now))) };
}

/// Whether a range of a list has listed symbols.
pub fn has_at<S: Kept>(all: &[S], at: usize, listed: &[S::Listed]) -> bool
    requires { at + length listed.now ≤ length all.now }
    ensures { IsTrue result ↔ (take (length listed.now) (drop at (map S.means all.now)) ≡ map S.Listed.means listed.now) }
{
    for n in 0..listed.len() {
        if !all[at + n].is(&listed[n]) {
            return false;
        }
    }
    true
}

/// The next number after some bytes of a name.
fn key_behind(key: usize, byte: u8) -> usize
    requires { key < 2 ^ 32 }
    ensures value { result ≡ key_next key byte }
    ensures within { result < 2 ^ 32 }
{
    (key * 31 + byte as usize) % 4294967296
}

impl Kept for NamedSymbol {
    type Listed = NamedSymbol;

    ghost key_of = { λ symbol. key_from 0 symbol.name };

    fn key(&self) -> usize {
        let mut key = 0;
        for byte in &self.name {
            key = key_behind(key, *byte);
        }
        key
    }

    fn key_of_listed(listed: &NamedSymbol) -> usize {
        listed.key()
    }

    fn of(alloc: Global, listed: &NamedSymbol) -> Result<Self, AllocError> {
        listed.copy(alloc)
    }

    fn is(&self, listed: &NamedSymbol) -> bool {
        self.same(listed)
    }

    fn blank(alloc: Global) -> Self {
        NamedSymbol {
            name: Vec::new(alloc),
            variable: false,
        }
    }

    fn copy_on(
        alloc: Global,
        all: &mut [Self],
        to: usize,
        from: usize,
        len: usize,
    ) -> Result<(), AllocError> {
        for n in 0..len {
            let symbol = all[from + n].copy(alloc)?;
            all[to + n] = symbol;
        }
        Ok(())
    }

    fn are_same(one: &[Self], at: usize, other: &[Self], from: usize, len: usize) -> bool {
        for n in 0..len {
            if !one[at + n].same(&other[from + n]) {
                return false;
            }
        }
        true
    }
}

/// Puts copies of a block of a list to a place in it.
#[inline(always)]
fn block_on(all: &mut [CodedSymbol], to: usize, from: usize)
    requires from { from + 4 ≤ length all.old }
    requires to { to + 4 ≤ length all.old }
    ensures count { length all.new ≡ length all.old }
    ensures copied { take (to + 4) all.new ≡ take to all.old ++ take 4 (drop from all.old) }
{
    let (a, b, c, d) = (all[from], all[from + 1], all[from + 2], all[from + 3]);
    all[to] = a;
    all[to + 1] = b;
    all[to + 2] = c;
    all[to + 3] = d;
}

/// The codes of a block of a list.
#[inline(always)]
fn codes(all: &[CodedSymbol], at: usize) -> u32x4
    requires { at + 4 ≤ length all.now }
    ensures { result ≡ map (λ symbol. symbol.code) (chunk at 4 all.now) }
{
    u32x4::from_array([
        all[at].code,
        all[at + 1].code,
        all[at + 2].code,
        all[at + 3].code,
    ])
}

/// Whether so many symbols at the beginning of blocks of two lists are the same.
#[inline(always)]
fn same_in_block(
    one: &[CodedSymbol],
    at: usize,
    other: &[CodedSymbol],
    from: usize,
    len: usize,
) -> bool
    requires one { at + 4 ≤ length one.now }
    requires other { from + 4 ≤ length other.now }
    requires few { len ≤ 4 }
    ensures { IsTrue result ↔ (take len (drop at one.now) ≡ take len (drop from other.now)) }
{
    let different = codes(one, at).simd_ne(codes(other, from)).to_bitmask();
    different & ((1 << len) - 1) == 0
}

impl Kept for CodedSymbol {
    type Listed = NumberedSymbol;

    ghost key_of = { key_by_number };

    #[inline(always)]
    fn key(&self) -> usize {
        self.name()
    }

    fn key_of_listed(listed: &NumberedSymbol) -> usize {
        listed.name
    }

    #[inline(always)]
    fn of(_alloc: Global, listed: &NumberedSymbol) -> Result<Self, AllocError> {
        CodedSymbol::of(listed)
    }

    fn is(&self, listed: &NumberedSymbol) -> bool {
        self.name() == listed.name && self.is_variable() == listed.variable
    }

    fn blank(_alloc: Global) -> Self {
        CodedSymbol { code: 0 }
    }

    #[inline(always)]
    fn copy_on(
        _alloc: Global,
        all: &mut [Self],
        to: usize,
        from: usize,
        len: usize,
    ) -> Result<(), AllocError> {
        let mut n = 0;
        while n < len {
            block_on(&mut *all, to + n, from + n);
            n += 4;
        }
        Ok(())
    }

    #[inline(always)]
    fn are_same(one: &[Self], at: usize, other: &[Self], from: usize, len: usize) -> bool {
        let mut n = 0;
        while len - n > 4 {
            if !same_in_block(one, at + n, other, from + n, 4) {
                return false;
            }
            n += 4;
        }
        same_in_block(one, at + n, other, from + n, len - n)
    }
}
