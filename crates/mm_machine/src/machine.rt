//! The machine: a stack of expressions and what was saved, as ranges of one flat list of symbols.

ghost use Rattle.std.specs.Prelude.{◌≡◌, ◌≢◌, ◌↔◌, ◌⊎◌, ◌+◌, ◌++◌, ◌∷◌, [], ◌<◌, ◌≤◌, ◌-◌, ℕ, List, All, IsTrue, IfOk, OnOk, MatchBool, MatchOption, Some, length, map, max, take, drop, slice_get, slice_set};
ghost use Rattle.mm_machine.specs.{Code.{Ranges.{AreOrderedRanges, Saves}, Citation.{IsLowestCiting}, PairClause.{IsPairRoom}, Filling.{IsFillable, pattern_filled}}, Language.CodeLists.{meant_pairs}};
ghost use Rattle.mm_machine.specs.Language.{Lasting.{IsCited, cited_frame, lasting_or}, Frame.{Symbol as Meaning, Mandatory}, Steps.{Cites}};

use crate::ProofNumber;
use crate::active::Active;
use crate::citation::citing_fault;
use crate::four_bytes::narrow;
use crate::gather::PairRoom;
use crate::kept::{BLOCK, Kept};
use crate::lasting::{Lasting, Pattern};
use crate::named::Cited;
use crate::pattern::{Entry, Given, build};
use crate::slots::{Slot, put_expression};
use crate::symbol::Symbol;
use crate::taken::Taken;
use std::alloc::{AllocError, Global};

/// The most symbols that the result of an assertion step may have.
const LONGEST_RESULT: usize = 1_000_000;

/// Up to this many symbols, no room is given back.
const MUCH: usize = 65_536;

/// The stack of expressions, and what was saved.
#[derive(Drop)]
pub struct Machine<S> {
    /// The symbols of the lasting expressions, of the stack and of what was saved, and room behind them.
    pub(crate) symbols: Vec<S>,
    /// The room begins here. It has a block of symbols at least.
    pub(crate) top: usize,
    /// The entries, the last one on top.
    pub(crate) stack: Vec<Entry>,
    /// What was saved, in order.
    pub(crate) saved: Vec<Entry>,
    /// The lasting expressions. Their symbols are the first ones.
    pub(crate) lasting: Lasting<S>,
    /// For each variable of these, by its number, what the last assertion gave that has it.
    pub(crate) given: Vec<Given>,
    /// What was saved is below this place.
    pub(crate) kept: usize,
    /// If more symbols than this are in use, results are put in the place of the entries that they are made of.
    most: usize,
    /// What the pair clause keeps in a run.
    pub(crate) pairs: PairRoom<S>,
}

/// Puts an entry in the place of those from a place on.
#[inline(always)]
fn put_entry(stack: &mut Vec<Entry>, below: usize, entry: Entry) -> Result<(), AllocError>
    requires { below ≤ length stack.old.items }
    ensures { OnOk result (stack.new.items ≡ take below stack.old.items ++ entry ∷ []) }
{
    if below < stack.len() {
        stack.truncate(below + 1);
        stack[below] = entry;
        return Ok(());
    }
    stack.push(entry)?;
    Ok(())
}

/// Where the symbols begin that belong to the entries from a place on alone.
fn floor_of(stack: &[Entry], below: usize, kept: usize, count: usize) -> usize
    requires whole { AreOrderedRanges count kept stack.now [] }
    requires in_range { below ≤ length stack.now }
    ensures within { result ≤ count }
    ensures saved { kept ≤ result }
    ensures stays { (i : ℕ) (e : Entry) → i < below → slice_get stack.now i ≡ Some e → (e.end ≤ result) × (e.floor ≤ result) }
{
    if below == stack.len() {
        return count;
    }
    let floor = stack[below].floor;
    if floor < kept { kept } else { floor }
}

/// Gives a list this many symbols, if it has fewer.
#[cold]
fn stretch<S: Kept>(alloc: Global, symbols: &mut Vec<S>, count: usize) -> Result<(), AllocError>
    ensures count { OnOk result (count ≤ length symbols.new.items) }
    ensures grows { OnOk result ((more : List S) × (symbols.new.items ≡ symbols.old.items ++ more)) }
{
    while symbols.len() < count {
        symbols.push(S::blank(alloc))?;
    }
    Ok(())
}

/// Puts copies of symbols to a place before them, where they have room.
#[cold]
fn move_down<S: Kept>(
    alloc: Global,
    all: &mut [S],
    to: usize,
    from: usize,
    count: usize,
) -> Result<(), AllocError>
    requires order { to + count ≤ from }
    requires within { from + count ≤ length all.old }
    ensures count { length all.new ≡ length all.old }
    ensures moved { OnOk result (take (to + count) (map S.means all.new) ≡ take to (map S.means all.old) ++ take count (drop from (map S.means all.old))) }
{
    for n in 0..count {
        let symbol = all[from + n].copy(alloc)?;
        all[to + n] = symbol;
    }
    Ok(())
}

/// Puts an expression under the substitution behind all symbols that are in use, and takes room for it. Answers how many
/// symbols it has, or nothing if they are too many.
#[inline(always)]
fn build_in_room<S: Kept>(
    alloc: Global,
    symbols: &mut Vec<S>,
    top: usize,
    given: &[Given],
    slots: &[Slot],
    pattern: Pattern,
) -> Result<Option<usize>, AllocError>
    requires top { top + 4 ≤ length symbols.old.items }
    requires fillable { IsFillable given.now top slots.now pattern }
    ensures room { OnOk result (top + 4 ≤ length symbols.new.items) }
    ensures below { OnOk result (take top (map S.means symbols.new.items) ≡ take top (map S.means symbols.old.items)) }
    ensures built { IfOk result (λ found. MatchOption found
        (1000000 < length (pattern_filled (map S.means symbols.old.items) given.now slots.now pattern))
        (λ n. (n ≤ 1000000) × (top + n + 4 ≤ length symbols.new.items) × (take n (drop top (map S.means symbols.new.items))
        ≡ pattern_filled (map S.means symbols.old.items) given.now slots.now pattern))) }
{
    loop {
        let room = symbols.len() - top;
        if let Some(count) = build(alloc, &mut *symbols, top, given, slots, pattern)? {
            if count > LONGEST_RESULT {
                return Ok(None);
            }
            return Ok(Some(count));
        }
        if room >= LONGEST_RESULT + BLOCK {
            return Ok(None);
        }
        stretch(alloc, &mut *symbols, top + 2 * room + 1024)?;
    }
}

/// A pattern with these ranges.
fn pattern_from(
    start: usize,
    end: usize,
    first: usize,
    last: usize,
    floating: bool,
) -> Result<Pattern, AllocError>
    ensures { IfOk result (λ p. (p.start ≡ start) × (p.end ≡ end) × (p.first ≡ first) × (p.last ≡ last) × (p.floating ≡ floating)) }
{
    Ok(Pattern {
        start: narrow(start)?,
        end: narrow(end)?,
        first: narrow(first)?,
        last: narrow(last)?,
        floating,
    })
}

/// Has a place for what each of so many variables is given.
fn give_places(given: &mut Vec<Given>, count: usize) -> Result<(), AllocError>
    requires { length given.old.items ≤ count }
    ensures { OnOk result (length given.new.items ≡ count) }
{
    let nothing = Given {
        start: 0,
        end: 0,
        place: 0,
    };
    given.resize(count, nothing)
}

impl<S: Kept> Machine<S> {
    ghost use Rattle.mm_machine.specs.{Language.Lasting.{HoldsLasting, KeepsLasting, lasting_of}, Code.MachineState.{state_of, AreRanges}};

    /// A machine with no lasting expression. It takes no memory. A run begins by itself with nothing on the stack and nothing
    /// saved, so of what a machine has from other runs its lasting expressions alone count.
    pub fn new(alloc: Global) -> Machine<S>
        ensures holds { HoldsLasting S.means S.key_of result }
        ensures lasting { lasting_of S.means result ≡ [] }
    {
        Machine {
            symbols: Vec::new(alloc),
            stack: Vec::new(alloc),
            saved: Vec::new(alloc),
            lasting: Lasting::new(alloc),
            given: Vec::new(alloc),
            top: 0,
            kept: 0,
            most: MUCH,
            pairs: PairRoom::new(alloc),
        }
    }

    /// Takes room for variables whose keys ([`Kept::key`]) are below this number: two numbers for each key. Without it
    /// look-ups are slow, and answers are the same. If it takes more than there was, the lasting expressions are forgotten.
    pub fn widen(&mut self, keys: usize) -> Result<(), AllocError>
        requires { HoldsLasting S.means S.key_of self.old }
        ensures places { OnOk result ((keys ≤ length self.new.lasting.variables.places.items) × (keys ≤ length self.new.pairs.variables.places.items)) }
        ensures holds { HoldsLasting S.means S.key_of self.new }
        ensures lasting { KeepsLasting S.means self.old self.new ⊎ (lasting_of S.means self.new ≡ []) }
        ensures same { keys ≤ length self.old.lasting.variables.places.items → keys ≤ length self.old.pairs.variables.places.items → self.new ≡ self.old }
    {
        let has = self.lasting.variables.places.len() >= keys;
        if has && self.pairs.variables.places.len() >= keys {
            return Ok(());
        }
        self.given.clear();
        self.lasting.begin(keys)?;
        self.pairs.variables.places.resize(keys, 0)?;
        Ok(())
    }

    /// How many lasting expressions there are.
    #[inline(always)]
    pub fn count(&self) -> usize
        ensures { result ≡ length (lasting_of S.means self.now) }
    {
        self.lasting.patterns.len()
    }

    /// Leaves no lasting expression. The memory is kept.
    pub fn forget(&mut self)
        ensures holds { HoldsLasting S.means S.key_of self.new }
        ensures lasting { lasting_of S.means self.new ≡ [] }
    {
        self.lasting.clear();
        self.given.clear();
    }

    /// Makes places for lasting expressions until there are so many: each new one has no symbol until it is loaded.
    /// After out of memory the lasting expressions have to be forgotten.
    pub fn make_places(&mut self, count: usize) -> Result<(), AllocError>
        requires { HoldsLasting S.means S.key_of self.old }
        ensures holds { OnOk result (HoldsLasting S.means S.key_of self.new) }
        ensures count { OnOk result (length (lasting_of S.means self.new) ≡ max count (length (lasting_of S.means self.old))) }
        ensures lasting { OnOk result ((more : List Mandatory) × (lasting_of S.means self.new ≡ lasting_of S.means self.old ++ more)
            × All (λ h. h.expression ≡ []) more) }
    {
        while self.lasting.patterns.len() < count {
            self.lasting.patterns.push(Pattern {
                start: 0,
                end: 0,
                first: 0,
                last: 0,
                floating: false,
            })?;
        }
        Ok(())
    }

    /// Whether the lasting expression with a number has a symbol: it was loaded.
    #[inline(always)]
    pub fn is_loaded(&self, number: usize) -> bool
        requires holds { HoldsLasting S.means S.key_of self.now }
        requires within { number < length (lasting_of S.means self.now) }
        ensures { IsTrue result ↔ ((lasting_or (lasting_of S.means self.now) number).expression ≢ []) }
    {
        let Pattern { start, end, .. } = self.lasting.patterns[number];
        start < end
    }

    /// Loads the lasting expression with a number: that of a `$f`, or another. Each use of it, in each run, is a range. It
    /// takes time and memory for its symbols. After out of memory the lasting expressions have to be forgotten.
    pub fn load(
        &mut self,
        alloc: Global,
        number: usize,
        floating: bool,
        expression: &[S::Listed],
    ) -> Result<(), AllocError>
        requires holds { HoldsLasting S.means S.key_of self.old }
        requires within { number < length (lasting_of S.means self.old) }
        ensures holds { OnOk result (HoldsLasting S.means S.key_of self.new) }
        ensures lasting { OnOk result (lasting_of S.means self.new ≡ slice_set (lasting_of S.means self.old) number
            (record { floating = floating; expression = map S.Listed.means expression.now })) }
    {
        let start = self.lasting.ground;
        let end = start.saturating_add(expression.len());
        stretch(alloc, &mut self.symbols, end)?;
        let first = self.lasting.slots.len();
        put_expression(
            alloc,
            &mut self.symbols,
            start,
            expression,
            &mut self.lasting.variables,
            &mut self.lasting.slots,
        )?;
        let last = self.lasting.slots.len();
        let pattern = pattern_from(start, end, first, last, floating)?;
        self.lasting.patterns[number] = pattern;
        self.lasting.ground = end;
        give_places(&mut self.given, self.lasting.variables.all.len())?;
        Ok(())
    }

    /// Leaves nothing on the stack, and nothing saved; the room that was taken stays.
    pub(crate) fn clear(&mut self, alloc: Global) -> Result<(), AllocError>
        requires { HoldsLasting S.means S.key_of self.old }
        ensures whole { OnOk result (AreRanges S.means S.key_of self.new) }
        ensures stack { OnOk result ((state_of S.means self.new).stack ≡ []) }
        ensures saved { OnOk result ((state_of S.means self.new).saved ≡ []) }
        ensures lasting { OnOk result (KeepsLasting S.means self.old self.new) }
        ensures pairs { OnOk result ((active : List (Meaning × Meaning)) → IsPairRoom S.means S.key_of active self.new.pairs) }
    {
        let ground = self.lasting.ground;
        stretch(alloc, &mut self.symbols, ground.saturating_add(BLOCK))?;
        self.top = ground;
        self.pairs.clear(alloc);
        self.stack.clear();
        self.saved.clear();
        self.kept = ground;
        self.most = ground.saturating_add(MUCH);
        Ok(())
    }

    /// Pushes the lasting expression with a number.
    pub(crate) fn push_lasting(&mut self, number: usize) -> Result<(), AllocError>
        requires whole { AreRanges S.means S.key_of self.old }
        requires in_range { number < length (lasting_of S.means self.old) }
        ensures whole { OnOk result (AreRanges S.means S.key_of self.new) }
        ensures lasting { OnOk result (KeepsLasting S.means self.old self.new) }
        ensures pairs { OnOk result (self.new.pairs ≡ self.old.pairs) }
        ensures stack { OnOk result ((h : _) → slice_get (lasting_of S.means self.old) number ≡ Some h
            → (state_of S.means self.new).stack ≡ (state_of S.means self.old).stack ++ h.expression ∷ []) }
        ensures saved { OnOk result ((state_of S.means self.new).saved ≡ (state_of S.means self.old).saved) }
    {
        let Pattern { start, end, .. } = self.lasting.patterns[number];
        let floor = self.top;
        self.stack.push(Entry {
            start: start as usize,
            end: end as usize,
            floor,
        })?;
        Ok(())
    }

    /// Pushes what was saved under a number.
    pub(crate) fn push_saved(&mut self, number: usize) -> Result<(), AllocError>
        requires whole { AreRanges S.means S.key_of self.old }
        requires in_range { number < length self.old.saved.items }
        ensures whole { OnOk result (AreRanges S.means S.key_of self.new) }
        ensures lasting { OnOk result (KeepsLasting S.means self.old self.new) }
        ensures pairs { OnOk result (self.new.pairs ≡ self.old.pairs) }
        ensures stack { OnOk result ((e : _) → slice_get (state_of S.means self.old).saved number ≡ Some e
            → (state_of S.means self.new).stack ≡ (state_of S.means self.old).stack ++ e ∷ []) }
        ensures saved { OnOk result ((state_of S.means self.new).saved ≡ (state_of S.means self.old).saved) }
    {
        let Entry {
            start,
            end,
            floor: _,
        } = self.saved[number];
        let floor = self.top;
        self.stack.push(Entry { start, end, floor })?;
        Ok(())
    }

    /// Saves the entry on top, by its range. Answers whether there is one.
    pub(crate) fn save(&mut self) -> Result<bool, AllocError>
        requires { AreRanges S.means S.key_of self.old }
        ensures whole { OnOk result (AreRanges S.means S.key_of self.new) }
        ensures lasting { OnOk result (KeepsLasting S.means self.old self.new) }
        ensures pairs { OnOk result (self.new.pairs ≡ self.old.pairs) }
        ensures saves { IfOk result (λ done. MatchBool done (Saves (state_of S.means self.old) (state_of S.means self.new))
            (((state_of S.means self.old).stack ≡ []) × ((state_of S.means self.new) ≡ (state_of S.means self.old)))) }
    {
        let count = self.stack.len();
        if count == 0 {
            return Ok(false);
        }
        let entry = self.stack[count - 1];
        self.saved.push(entry)?;
        if entry.end > self.kept {
            self.kept = entry.end;
        }
        Ok(true)
    }

    /// Puts a result that is behind all in the place of the entries from a place on.
    #[inline(always)]
    fn replace(&mut self, alloc: Global, below: usize, count: usize) -> Result<(), AllocError>
        requires whole { AreRanges S.means S.key_of self.old }
        requires in_range { below ≤ length self.old.stack.items }
        requires room { self.old.top + count + 4 ≤ length self.old.symbols.items }
        ensures whole { OnOk result (AreRanges S.means S.key_of self.new) }
        ensures lasting { OnOk result (KeepsLasting S.means self.old self.new) }
        ensures pairs { OnOk result (self.new.pairs ≡ self.old.pairs) }
        ensures stack { OnOk result ((state_of S.means self.new).stack ≡ take below (state_of S.means self.old).stack
            ++ take count (drop self.old.top (map S.means self.old.symbols.items)) ∷ []) }
        ensures saved { OnOk result ((state_of S.means self.new).saved ≡ (state_of S.means self.old).saved) }
    {
        let floor = floor_of(&self.stack, below, self.kept, self.top);
        let mut start = self.top;
        if start > self.most && count <= start - floor {
            move_down(alloc, &mut self.symbols, floor, start, count)?;
            start = floor;
            self.most = if floor > MUCH { 2 * floor } else { MUCH };
        }
        let end = start + count;
        put_entry(&mut self.stack, below, Entry { start, end, floor })?;
        self.top = end;
        Ok(())
    }

    /// Cites an assertion. Answers the lowest number of what is wrong, if anything is.
    pub(crate) fn cite<'a>(
        &mut self,
        alloc: Global,
        cited: &Cited<'a, S::Listed>,
        active: &Active<'a, S>,
    ) -> Result<Option<ProofNumber>, AllocError>
        requires whole { AreRanges S.means S.key_of self.old }
        requires pairs { IsPairRoom S.means S.key_of (meant_pairs S.Listed.means active.now.pairs.now) self.old.pairs }
        requires cited { IsCited S.Listed.means (lasting_of S.means self.old) cited.now }
        ensures whole { OnOk result (AreRanges S.means S.key_of self.new) }
        ensures lasting { OnOk result (KeepsLasting S.means self.old self.new) }
        ensures pairs { OnOk result (IsPairRoom S.means S.key_of (meant_pairs S.Listed.means active.now.pairs.now) self.new.pairs) }
        ensures cites { IfOk result (λ found. MatchOption found
            (Cites (meant_pairs S.Listed.means active.now.pairs.now) (cited_frame S.Listed.means (lasting_of S.means self.old) cited.now)
            (state_of S.means self.old).stack (state_of S.means self.new).stack)
            (IsLowestCiting (meant_pairs S.Listed.means active.now.pairs.now) (cited_frame S.Listed.means (lasting_of S.means self.old) cited.now)
            (state_of S.means self.old).stack)) }
        ensures saved { OnOk result ((state_of S.means self.new).saved ≡ (state_of S.means self.old).saved) }
    {
        let count = cited.hypotheses.len();
        if self.stack.len() < count {
            return Ok(Some(ProofNumber::P07));
        }
        let below = self.stack.len() - count;
        let taken = Taken {
            symbols: &self.symbols,
            lasting: &self.lasting,
            entries: &self.stack[below..],
            cited,
        };
        if let Some(number) = citing_fault(
            alloc,
            &taken,
            &mut self.given,
            &*active,
            &mut self.pairs,
        )? {
            return Ok(Some(number));
        }
        let built = build_in_room(
            alloc,
            &mut self.symbols,
            self.top,
            &self.given,
            &self.lasting.slots,
            self.lasting.patterns[cited.expression],
        )?;
        let Some(count) = built else {
            return Ok(Some(ProofNumber::P12));
        };
        self.replace(alloc, below, count)?;
        Ok(None)
    }
}
