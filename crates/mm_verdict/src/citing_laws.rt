//! The laws of the words that cite.

ghost use Rattle.mm_verdict.specs.Language.CitingLaws.{CitesNameAssertions, CitesTellAssertions};

use crate::item_laws::mandatory_labels_mean;
use mm_frame::{kept_next, labels_mean};

/// Each word that cites is the label of an assertion, and they are labels of exactly the assertions that decoded steps name.
///
/// For the lists of what is cited, which are read from the words.
pub fn cites_tell()
    ensures each { CitesNameAssertions }
    ensures tell { CitesTellAssertions }
{
    kept_next(); // A law: one more item is judged against the sound ones before it.
    mandatory_labels_mean(); // A law: the label of a mandatory hypothesis means it.
    labels_mean(); // A law: a label is that of a sound item before, or means nothing.
}
