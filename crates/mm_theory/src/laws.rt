//! What is proved of formal systems: each law is the contract of a function.

ghost use Rattle.mm_theory.specs.Language.Laws.{DatabasesAreSystems, FramesAreStatements, ProvableActs, ProvableAddsNothing, CleanIsProvable, ProvableByPairs, ProvedIsProvable, RestingIsProvable};

/// A statement is provable exactly if it is provable by some list of extra pairs, as the book has it.
pub fn provable_by_pairs()
    ensures { ProvableByPairs }
{}

/// What a provable statement says follows wherever it may be cited.
pub fn provable_acts()
    ensures { ProvableActs }
{}

/// Provable statements, added as axioms, make nothing more provable.
pub fn provable_adds_nothing()
    ensures { ProvableAddsNothing }
{}

/// The variables of a database with their copies, and frames of its assertions, are a formal system; and the frame of each
/// sound assertion is a statement of it.
pub fn databases_are_systems()
    ensures systems { DatabasesAreSystems }
    ensures statements { FramesAreStatements }
{
    mm_frame::sound_items_stand(); // A law: sound statements are at their own numbers.
    mm_frame::floats_are_typings(); // A law: a sound `$f` is a constant and a variable.
    mm_frame::floats_agree(); // A law: all sound `$f` of a name give it one typecode.
    mm_frame::assertions_have_frames(); // A law: each variable of a frame has one `$f` there.
    mm_frame::mandatory_stand_before(); // A law: mandatory hypotheses are sound and come before.
}

/// What rests on axioms is provable in the formal system of these axioms.
pub fn resting_is_provable()
    ensures { RestingIsProvable }
{
    mm_frame::sound_items_stand(); // A law: sound statements are at their own numbers.
    mm_frame::floats_are_typings(); // A law: a sound `$f` is a constant and a variable.
    mm_frame::floats_agree(); // A law: all sound `$f` of a name give it one typecode.
    mm_frame::assertions_have_frames(); // A law: each variable of a frame has one `$f` there.
    mm_frame::mandatory_stand_before(); // A law: mandatory hypotheses are sound and come before.
    mm_frame::pairs_are_of_two(); // A law: an active pair is of two variables.
    mm_frame::labels_mean(); // A law: a label is that of a sound item before, or means nothing.
    mm_frame::hypotheses_mean(); // A law: a label means its hypothesis where this is active.
}

/// An assertion is provable from its axioms, if each theorem is proved to which chains of citations lead from it, itself
/// included.
pub fn proved_is_provable()
    ensures { ProvedIsProvable }
{
    mm_keep::proved_rests_on_axioms(); // A law: what is proved rests on its axioms.
    resting_is_provable(); // A law: what rests on axioms is provable from them.
}

/// In a session without a wrong and without an incomplete proof, each assertion is provable from its axioms, as they are
/// answered.
pub fn clean_is_provable()
    ensures { CleanIsProvable }
{
    mm_keep::files_have_one_database(); // A law: files have one database at most.
    mm_keep::chains_lead_back(); // A law: a chain of citations leads to no later item.
    proved_is_provable(); // A law: what is proved from axioms is provable from them.
}
