//! What an assertion takes when it is cited.

ghost use Rattle.std.specs.Prelude.{◌≡◌, ◌<◌, Some, length, map, slice_get};
ghost use Rattle.mm_machine.specs.{Language.{Frame.{Symbol as Meaning}, Typing.{IsTyping}, Lasting.{IsPattern, lasting_at, pattern_symbols}}, Code.Filling.{AreTaken, frame_taking, variables_of}};

use crate::kept::Kept;
use crate::lasting::{Lasting, Pattern};
use crate::named::Cited;
use crate::pattern::Entry;

/// The entries that an assertion takes, and it.
#[derive(Drop)]
pub struct Taken<'s, 'c, S, L> {
    /// The flat list of symbols.
    pub symbols: &'s [S],
    pub lasting: &'s Lasting<S>,
    pub entries: &'s [Entry],
    pub cited: &'s Cited<'c, L>,
}

/// The mandatory hypothesis at a place.
#[inline(always)]
pub fn hypothesis_at<'s, 'c, S: Kept>(taken: &Taken<'s, 'c, S, S::Listed>, place: usize) -> Pattern
    requires taken { AreTaken S.means S.Listed.means S.key_of taken.now }
    requires within { place < length taken.now.entries.now }
    ensures is { slice_get (frame_taking S.means S.Listed.means taken.now).hypotheses place
        ≡ Some (lasting_at (map S.means taken.now.symbols.now) result) }
    ensures pattern { IsPattern taken.now.lasting.now.ground (map S.means taken.now.symbols.now) (variables_of S.means taken.now)
        taken.now.lasting.now.slots.items result }
{
    taken.lasting.patterns[taken.cited.hypotheses[place]]
}

/// The number of the variable of a `$f`.
#[inline(always)]
pub fn variable_of<'s, 'c, S: Kept>(taken: &Taken<'s, 'c, S, S::Listed>, typing: Pattern) -> usize
    requires pattern { IsPattern taken.now.lasting.now.ground (map S.means taken.now.symbols.now) (variables_of S.means taken.now)
        taken.now.lasting.now.slots.items typing }
    requires typing { IsTyping (pattern_symbols (map S.means taken.now.symbols.now) typing) }
    ensures { (v : Meaning) → slice_get (pattern_symbols (map S.means taken.now.symbols.now) typing) 1 ≡ Some v
        → slice_get (variables_of S.means taken.now) result ≡ Some v }
{
    taken.lasting.slots[typing.first as usize].variable as usize
}
