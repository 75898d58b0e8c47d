//! Numbers that rise.

ghost use Rattle.std.specs.Prelude.{◌≡◌};
ghost use Rattle.mm_frame.specs.Code.LastItems.{IsRising};
ghost use Rattle.mm_frame.specs.Code.PairOrder as paired;

/// Whether a number is one of some that rise.
pub fn is_among(numbers: &[usize], number: usize) -> bool
    ensures { IsRising numbers.now → result ≡ paired.is_among numbers.now number }
{
    numbers.binary_search(&number).is_ok()
}
