//! The fault of a statement after the sound items before it.

ghost use Rattle.std.specs.{Prelude.{◌≡◌, ◌<◌, ◌∷◌, ◌++◌, ℕ, true, None, List, [], IfOk, IsTrue, length, map, take, slice_index_or}, Option.{option_map}};
ghost use Rattle.mm_statement.specs.Language.{Item.{Said}, Statement.{kind_of}};
ghost use Rattle.mm_frame.specs.{Language.Sound.{AreSound}, Code.{KeptScope.{ScopeHolds}, KeptSymbols.{symbol_by}, KnownItem.{numbers_of}, SeenNumbers.{HasSeen, has_number}}};
ghost use Rattle.mm_frame.specs.Code.Numbers.{IsNameNumber, AreNameNumbers};
ghost use Rattle.mm_statement.specs.Language.Item as meant;
ghost use Rattle.mm_frame.specs.Code.FaultInOrder as judging;
ghost use Rattle.mm_frame.specs.Language.Sound as sound;

use crate::FrameNumber;
use crate::names::Names;
use crate::scope::Scope;
use mm_machine::NumberedSymbol;
use mm_statement::Statement;
use mm_store::ItemKind;
use std::alloc::{AllocError, Global};
use std::collections::HashSet;

/// A fault of a statement: its number, and the word that it is reported at, counted from 0 in the statement.
#[derive(Clone, Copy, Debug, PartialEq, Eq)]
pub struct FrameFault {
    /// Its number.
    pub number: FrameNumber,
    /// The word that it is reported at, from 0: the label if there is one, else the keyword, is word 0.
    pub word: usize,
}

/// What is wrong with a label.
fn label_fault(names: &Names, scope: &Scope, label: &[u8]) -> Option<FrameNumber>
    ensures { (before : List Said) → AreSound before → ScopeHolds names.now before scope.now → result ≡ judging.label_fault before label.now }
{
    if scope.is_label(label) {
        Some(FrameNumber::F06)
    } else if scope.is_symbol(names, label) {
        Some(FrameNumber::F07)
    } else {
        None
    }
}

/// What is wrong at the first word: a `$c` is in a block, or the label is wrong.
fn front_fault(names: &Names, scope: &Scope, statement: &Statement) -> Option<FrameNumber>
    ensures { (before : List Said) → AreSound before → ScopeHolds names.now before scope.now → result ≡ judging.front_fault before statement.now }
{
    if matches!(statement.kind(), ItemKind::Constants) && scope.is_inside() {
        return Some(FrameNumber::F02);
    }
    label_fault(names, scope, statement.label()?)
}

/// What is wrong with a symbol of a `$c` or `$v`, given by its number: `repeated` says that it occurs earlier in the same
/// statement, and `declared` that it is a symbol already and must not be declared again.
fn declared_fault(
    names: &Names,
    scope: &Scope,
    number: usize,
    repeated: bool,
    declared: bool,
) -> Option<FrameNumber>
    ensures constant { (before : List Said) (item : Said) (n : ℕ) (name : List ℕ) → AreSound before → ScopeHolds names.now before scope.now
        → IsNameNumber names.now number name → repeated ≡ sound.is_repeated item n name → declared ≡ sound.is_declared before name
        → result ≡ judging.constant_fault before item n name }
    ensures variable { (before : List Said) (item : Said) (n : ℕ) (name : List ℕ) → AreSound before → ScopeHolds names.now before scope.now
        → IsNameNumber names.now number name → repeated ≡ sound.is_repeated item n name → declared ≡ sound.is_active_symbol before name
        → result ≡ judging.variable_fault before item n name }
{
    if repeated {
        Some(FrameNumber::F03)
    } else if declared {
        Some(FrameNumber::F04)
    } else if scope.is_label(names.name(number)) {
        Some(FrameNumber::F05)
    } else {
        None
    }
}

/// What is wrong with a symbol of a `$d`, given by its number, if it is known whether the symbol occurs earlier in the
/// same statement.
fn disjoint_fault(scope: &Scope, number: usize, repeated: bool) -> Option<FrameNumber>
    ensures { (all : List (List ℕ)) (before : List Said) (item : Said) (n : ℕ) (name : List ℕ) → AreSound before → ScopeHolds all before scope.now
        → IsNameNumber all number name → repeated ≡ sound.is_repeated item n name → result ≡ judging.disjoint_fault before item n name }
{
    if repeated {
        Some(FrameNumber::F03)
    } else if scope.is_active_variable(number) {
        None
    } else {
        Some(FrameNumber::F09)
    }
}

/// What is wrong with the typecode that has this number.
fn typecode_fault(scope: &Scope, number: usize) -> Option<FrameNumber>
    ensures { (all : List (List ℕ)) (before : List Said) (name : List ℕ) → AreSound before → ScopeHolds all before scope.now → IsNameNumber all number name
        → result ≡ judging.typecode_fault before name }
{
    if !scope.is_constant(number) {
        return Some(FrameNumber::F08);
    }
    None
}

/// What is wrong with the variable of a `$f` that gives it this typecode; both are given by their numbers.
fn typed_fault(scope: &Scope, number: usize, typecode: usize) -> Option<FrameNumber>
    ensures { (all : List (List ℕ)) (before : List Said) (item : Said) (name : List ℕ) → AreSound before → ScopeHolds all before scope.now
        → IsNameNumber all number name → IsNameNumber all typecode (meant.typecode_of item) → result ≡ judging.typed_fault before item name }
{
    if !scope.is_active_variable(number) {
        Some(FrameNumber::F09)
    } else if scope.is_typed(number) {
        Some(FrameNumber::F12)
    } else if scope.is_typed_otherwise(number, typecode) {
        Some(FrameNumber::F13)
    } else {
        None
    }
}

/// What is wrong with the n-th symbol of a `$f`, counted from 0, whose symbols have these numbers.
fn floating_fault(scope: &Scope, numbers: &[usize], n: usize) -> Option<FrameNumber>
    requires { n < length numbers.now }
    ensures { (all : List (List ℕ)) (before : List Said) (item : Said) → AreSound before → ScopeHolds all before scope.now
        → AreNameNumbers all numbers.now item.symbols → result ≡ judging.floating_fault before item n (slice_index_or item.symbols n []) }
{
    match n {
        0 => typecode_fault(scope, numbers[0]),
        1 => typed_fault(scope, numbers[1], numbers[0]),
        _ => Some(FrameNumber::F01),
    }
}

/// What is wrong with the symbol after a typecode that has this number.
fn later_fault(scope: &Scope, number: usize) -> Option<FrameNumber>
    ensures { (all : List (List ℕ)) (before : List Said) (name : List ℕ) → AreSound before → ScopeHolds all before scope.now → IsNameNumber all number name
        → result ≡ judging.later_fault before name }
{
    if scope.may_follow(number) {
        None
    } else if scope.is_active_variable(number) {
        Some(FrameNumber::F11)
    } else {
        Some(FrameNumber::F10)
    }
}

/// What is wrong with the n-th symbol of a `$e`, `$a` or `$p`, counted from 0, which has this number.
fn expression_fault(scope: &Scope, n: usize, number: usize) -> Option<FrameNumber>
    ensures { (all : List (List ℕ)) (before : List Said) (name : List ℕ) → AreSound before → ScopeHolds all before scope.now → IsNameNumber all number name
        → result ≡ judging.expression_fault before n name }
{
    if n == 0 {
        typecode_fault(scope, number)
    } else {
        later_fault(scope, number)
    }
}

/// Whether such a statement has an expression.
fn has_expression(kind: ItemKind) -> bool
    ensures { result ≡ meant.is_expression (kind_of kind) }
{
    matches!(
        kind,
        ItemKind::Essential | ItemKind::Axiom | ItemKind::Theorem
    )
}

/// The first fault among the symbols of a `$e`, `$a` or `$p`, which have these numbers.
fn expression_symbols_fault(
    scope: &Scope,
    statement: &Statement,
    numbers: &[usize],
) -> Option<FrameFault>
    requires count { length numbers.now ≡ length statement.now.symbols }
    requires expression { meant.is_expression statement.now.kind ≡ true }
    ensures { (all : List (List ℕ)) (before : List Said) → AreSound before → ScopeHolds all before scope.now
        → AreNameNumbers all numbers.now statement.now.symbols
        → option_map (λ f. (f.word, f.number)) result ≡ judging.symbols_fault before statement.now }
{
    for n in 0..numbers.len() {
        // Nearly all symbols are right.
        if n > 0 && scope.may_follow(numbers[n]) {
            continue;
        }
        if let Some(number) = expression_fault(scope, n, numbers[n]) {
            let word = statement.symbol_place(n);
            return Some(FrameFault { number, word });
        }
    }
    None
}

/// Whether the symbols of such a statement have to differ.
fn must_differ(kind: ItemKind) -> bool
    ensures { result ≡ judging.must_differ (kind_of kind) }
{
    matches!(
        kind,
        ItemKind::Constants | ItemKind::Variables | ItemKind::Disjoint
    )
}

/// What is wrong with the n-th symbol, counted from 0, of a statement whose symbols have these numbers. For a kind that forbids
/// a symbol twice it is known whether this one occurs earlier in the same statement.
fn symbol_fault(
    names: &Names,
    scope: &Scope,
    statement: &Statement,
    numbers: &[usize],
    n: usize,
    repeated: bool,
) -> Option<FrameNumber>
    requires { n < length numbers.now }
    ensures { (before : List Said) → AreSound before → ScopeHolds names.now before scope.now
        → AreNameNumbers names.now numbers.now statement.now.symbols
        → (judging.must_differ statement.now.kind ≡ true → repeated ≡ sound.is_repeated statement.now n (slice_index_or statement.now.symbols n []))
        → result ≡ judging.symbol_fault before statement.now n (slice_index_or statement.now.symbols n []) }
{
    let number = numbers[n];
    match statement.kind() {
        ItemKind::Constants => {
            let declared = scope.is_declared(number);
            declared_fault(names, scope, number, repeated, declared)
        }
        ItemKind::Variables => {
            let active = scope.is_active_symbol(number);
            declared_fault(names, scope, number, repeated, active)
        }
        ItemKind::Disjoint => disjoint_fault(scope, number, repeated),
        ItemKind::Floating => floating_fault(scope, numbers, n),
        ItemKind::Essential | ItemKind::Axiom | ItemKind::Theorem => {
            expression_fault(scope, n, number)
        }
        ItemKind::BlockStart | ItemKind::BlockEnd | ItemKind::Missing => None,
    }
}

/// Whether the n-th number, counted from 0, is one of those before it.
fn stands_before(numbers: &[usize], n: usize) -> bool
    requires { n < length numbers.now }
    ensures { result ≡ has_number (take n numbers.now) (slice_index_or numbers.now n 0) }
{
    let number = numbers[n];
    for k in 0..n {
        if number == numbers[k] {
            return true;
        }
    }
    false
}

/// Up to this many symbols are compared with one another; more are found by hash.
const FEW_SYMBOLS: usize = 16;

/// Whether the n-th symbol, counted from 0, is one of those before it, if they have to differ: symbols are given by the
/// numbers of their names. If these are kept, those before it are those seen so far, which it joins; else no memory is
/// taken.
fn is_repeated(
    seen: &mut HashSet<usize>,
    numbers: &[usize],
    n: usize,
    differ: bool,
    kept: bool,
) -> Result<bool, AllocError>
    requires { n < length numbers.now }
    ensures { (kept ≡ true → HasSeen (take n numbers.now) seen.old) → IfOk result (λ repeated.
        (differ ≡ true → repeated ≡ has_number (take n numbers.now) (slice_index_or numbers.now n 0))
        × (kept ≡ true → HasSeen (take n numbers.now ++ slice_index_or numbers.now n 0 ∷ []) seen.new)) }
{
    if kept {
        return Ok(!seen.insert(numbers[n])?);
    }
    Ok(differ && stands_before(numbers, n))
}

/// The first fault among the symbols, which have these numbers. Memory is taken if many have to differ.
fn symbols_fault(
    alloc: Global,
    names: &Names,
    scope: &Scope,
    statement: &Statement,
    numbers: &[usize],
) -> Result<Option<FrameFault>, AllocError>
    requires { length numbers.now ≡ length statement.now.symbols }
    ensures { (before : List Said) → AreSound before → ScopeHolds names.now before scope.now
        → AreNameNumbers names.now numbers.now statement.now.symbols
        → IfOk result (λ found. option_map (λ f. (f.word, f.number)) found ≡ judging.symbols_fault before statement.now) }
{
    if has_expression(statement.kind()) {
        return Ok(expression_symbols_fault(scope, statement, numbers));
    }
    let differ = must_differ(statement.kind());
    let kept = differ && numbers.len() > FEW_SYMBOLS;
    let mut seen = HashSet::new(alloc);
    for n in 0..numbers.len() {
        let repeated = is_repeated(&mut seen, numbers, n, differ, kept)?;
        if let Some(number) = symbol_fault(names, scope, statement, numbers, n, repeated) {
            let word = statement.symbol_place(n);
            return Ok(Some(FrameFault { number, word }));
        }
    }
    Ok(None)
}

/// Whether a statement of this kind has too few symbols.
fn is_short(kind: ItemKind, count: usize) -> bool
    ensures { result ≡ sound.is_short (kind_of kind) count }
{
    match kind {
        ItemKind::Disjoint | ItemKind::Floating => count < 2,
        ItemKind::BlockStart | ItemKind::BlockEnd | ItemKind::Missing => false,
        _ => count == 0,
    }
}

/// The fault at the end of a statement with this many symbols: they are too few.
fn end_fault(statement: &Statement, count: usize) -> Option<FrameFault>
    requires { count ≡ length statement.now.symbols }
    ensures { option_map (λ f. (f.word, f.number)) result ≡ sound.fault_or (sound.closing_word statement.now) (judging.end_fault statement.now) None }
{
    if !is_short(statement.kind(), count) {
        return None;
    }
    Some(FrameFault {
        number: FrameNumber::F01,
        word: statement.symbol_place(count),
    })
}

/// The fault of a statement after the sound items of a scope, if it has one: at the first word with a fault, with
/// the lowest number there. An item that is no statement has none. Its symbols have these numbers among the names.
///
/// It reads the words once, in time near linear in them.
pub fn fault_of(
    alloc: Global,
    names: &Names,
    scope: &Scope,
    statement: &Statement,
    numbers: &[usize],
) -> Result<Option<FrameFault>, AllocError>
    requires { length numbers.now ≡ length statement.now.symbols }
    ensures { (before : List Said) → AreSound before → ScopeHolds names.now before scope.now → AreNameNumbers names.now numbers.now statement.now.symbols
        → IfOk result (λ found. option_map (λ f. (f.word, f.number)) found ≡ sound.fault before statement.now) }
{
    if let Some(number) = front_fault(names, scope, statement) {
        return Ok(Some(FrameFault { number, word: 0 }));
    }
    if let Some(fault) = symbols_fault(alloc, names, scope, statement, numbers)? {
        return Ok(Some(fault));
    }
    Ok(end_fault(statement, numbers.len()))
}

/// Whether the n-th symbol of a `$e`, `$a` or `$p`, counted from 0, has no fault, and is a constant or a variable as its name
/// is.
fn is_right(scope: &Scope, n: usize, symbol: NumberedSymbol) -> bool
    ensures fault { IsTrue result → (all : List (List ℕ)) (before : List Said) (name : List ℕ) → AreSound before → ScopeHolds all before scope.now
        → IsNameNumber all symbol.name name → None ≡ judging.expression_fault before n name }
    ensures sort { IsTrue result → symbol ≡ symbol_by scope.now.tables symbol.name }
{
    if n > 0 {
        return scope.may_follow_as(symbol);
    }
    let constant = scope.tables().is_constant(symbol.name);
    if symbol.variable == constant {
        return false;
    }
    expression_fault(scope, n, symbol.name).is_none()
}

/// Whether none of these symbols of a `$e`, `$a` or `$p` has a fault, and each is a constant or a variable as its name is.
fn are_right(scope: &Scope, statement: &Statement, symbols: &[NumberedSymbol]) -> bool
    requires count { length symbols.now ≡ length statement.now.symbols }
    requires expression { meant.is_expression statement.now.kind ≡ true }
    ensures faults { IsTrue result → (all : List (List ℕ)) (before : List Said) → AreSound before → ScopeHolds all before scope.now
        → AreNameNumbers all (numbers_of symbols.now) statement.now.symbols → None ≡ judging.symbols_fault before statement.now }
    ensures sorts { IsTrue result → map (symbol_by scope.now.tables) (numbers_of symbols.now) ≡ symbols.now }
{
    for n in 0..symbols.len() {
        if !is_right(scope, n, symbols[n]) {
            return false;
        }
    }
    true
}

/// Whether a statement is a `$e`, `$a` or `$p` that has no fault after the sound items of a scope. Its symbols are known, and
/// each of them has to be a constant or a variable as its name is.
///
/// It takes no memory, and time near linear in the symbols; no word is read.
pub fn is_sound_as_known(
    names: &Names,
    scope: &Scope,
    statement: &Statement,
    symbols: &[NumberedSymbol],
) -> bool
    requires { length symbols.now ≡ length statement.now.symbols }
    ensures expression { IsTrue result → meant.is_expression statement.now.kind ≡ true }
    ensures fault { IsTrue result → (before : List Said) → AreSound before → ScopeHolds names.now before scope.now
        → AreNameNumbers names.now (numbers_of symbols.now) statement.now.symbols → None ≡ sound.fault before statement.now }
    ensures sorts { IsTrue result → map (symbol_by scope.now.tables) (numbers_of symbols.now) ≡ symbols.now }
{
    if !has_expression(statement.kind()) || symbols.is_empty() {
        return false;
    }
    front_fault(names, scope, statement).is_none() && are_right(scope, statement, symbols)
}
