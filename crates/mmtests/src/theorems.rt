//! Theorems that tests ask for by their labels.

ghost use Rattle.std.specs.Prelude.{◌≡◌, ◌<◌, true, IfSome, length};
ghost use Rattle.mm_proof.specs.mm_frame.Language.{Answering.{IsBase}, Base.{BaseView, is_proof_at}};

use mm_proof::Base;

/// The number of the theorem with a label.
pub fn theorem(base: &Base, label: &[u8]) -> Option<usize>
    ensures { IfSome result (λ i. (view : BaseView) → IsBase view base.now → (i < length view) × (is_proof_at view i ≡ true)) }
{
    let i = base.find(label)?;
    if i < base.count() && base.pairs(i).is_some() {
        Some(i)
    } else {
        None
    }
}
