//! What pushing and citing an item of a base needs.

ghost use Rattle.std.specs.Prelude.{◌≡◌, ◌<◌, List, [], true, false, length};
ghost use Rattle.mm_frame.specs.{Language.{Base.{BaseView, said_at, is_shown_at, is_proof_at}, Answering.{IsBase}}, mm_statement.Language.Item.{is_kind, Floating}};
ghost use Rattle.mm_machine.specs.Language.{Frame.{AreSamePairs, Mandatory}, CodeLists.{meant_pairs}, Keys.{AreInKeyOrder, key_by_number}, NumberedSymbols.{by_number, all_by_number}};
ghost use Rattle.mm_verdict.specs.{Language.Loaded.{CanBeCited, CitesItem, HasCited, IsAssertionOf, IsItemOf, IsLoaded}, Code.NumberedBase.{ByNames, numbered_hypothesis, numbered_setting}};

use mm_frame::{Base, assertions_have_frames};
use mm_machine::{
    Cited, NumberedSymbol, numbers_keep_frames, numbers_keep_order, numbers_keep_pairs,
    numbers_name_symbols,
};

/// The expression of the item with this number, which is one that has an expression.
pub fn expression(base: &Base, number: usize) -> &[NumberedSymbol]
    ensures { ByNames base.now (λ names view. is_shown_at view number ≡ true
        → all_by_number result.now ≡ (numbered_hypothesis names view number).expression) }
{
    numbers_name_symbols(); // A law: symbols by number are those of their names.
    base.known_expression(number)
}

/// The active pairs at the sound theorem with this number.
pub fn active(base: &Base, number: usize) -> &[(NumberedSymbol, NumberedSymbol)]
    requires { (view : BaseView) × IsBase view base.now × (is_proof_at view number ≡ true) }
    ensures same { ByNames base.now (λ names view. is_proof_at view number ≡ true
        → AreSamePairs (meant_pairs by_number result.now) (numbered_setting names view number).active) }
    ensures order { AreInKeyOrder key_by_number (meant_pairs by_number result.now) }
{
    numbers_keep_pairs(); // A law: pairs that are the same by names are so by numbers.
    numbers_keep_order(); // A law: pairs in the order of numbers are in the order of keys.
    base.pairs(number).unwrap()
}

/// What a machine loads of the item with this number: whether it is a `$f`, and its expression; no symbols if it has none.
pub fn loaded_of(base: &Base, number: usize) -> (bool, &[NumberedSymbol])
    ensures item { IsItemOf base.now number (record { floating = result.0; expression = all_by_number result.1.now }) }
    ensures floating { (view : BaseView) → IsBase view base.now → result.0 ≡ is_kind Floating (said_at view number).kind }
    ensures none { (view : BaseView) → IsBase view base.now → is_shown_at view number ≡ false → result.1.now ≡ [] }
{
    numbers_name_symbols(); // A law: symbols by number are those of their names.
    let symbols = base.expression(number).unwrap_or(&[]);
    (base.is_floating(number), symbols)
}

/// The assertion with this number, as each machine cites it that has loaded it and its hypotheses.
pub fn cited_of(base: &Base, number: usize) -> Cited<'_, NumberedSymbol>
    requires { IsAssertionOf base.now number }
    ensures number { result.expression ≡ number }
    ensures frame { CanBeCited base.now result }
    ensures has { (lasting : List Mandatory) → IsLoaded base.now lasting number → HasCited base.now lasting result }
    ensures same { (lasting : List Mandatory) → HasCited base.now lasting result → CitesItem base.now number lasting result }
{
    assertions_have_frames(); // A law: each assertion has a typed frame.
    numbers_keep_frames(); // A law: a frame is typed by numbers, too.
    numbers_keep_pairs(); // A law: pairs that are the same by names are so by numbers.
    let frame = base.frame(number).unwrap();
    Cited {
        expression: number,
        hypotheses: &frame.hypotheses,
        pairs: &frame.pairs,
    }
}
