//! What is proved of soundness, blocks and frames: each law is the contract of a function.

ghost use Rattle.mm_frame.specs.Language.Laws.{ActiveByBlocks, FaultIsFound, HasFaultOrIsSound, HasOneStatementFault, KeptNext, NeverFaultAndSound, PlacesHaveFrames, ReaderIsActive, SoundHasNone};
ghost use Rattle.mm_frame.specs.Language.Laws.{StaysByCounts, AssertionsMean, HasItemOrIsUnknown, HasOwnLabels, ItemsHaveLabels, MandatoryMeans, MandatoryStandBefore, ActiveHypothesesMean, ActiveInBlocks};
ghost use Rattle.mm_frame.specs.Language.Laws.{AssertionsHaveFrames, EndedHypothesesMean, FloatsAgree, FloatsAreTypings, FramesHavePairs, PairsAreOfTwo, SaidAreLabelled, SoundItemsStand};

/// Each label that resolves to an assertion has a frame whose variables are typed once.
pub fn places_have_frames()
    ensures { PlacesHaveFrames }
{}

/// A statement has one fault at most.
pub fn has_one_fault()
    ensures { HasOneStatementFault }
{}

/// A statement has a fault, or is sound.
pub fn has_fault_or_is_sound()
    ensures { HasFaultOrIsSound }
{}

/// A statement is never both at fault and sound.
pub fn never_both()
    ensures { NeverFaultAndSound }
{}

/// The fault that is computed for a statement is its fault.
pub fn fault_is_found()
    ensures { FaultIsFound }
{}

/// No fault is computed exactly for sound statements.
pub fn sound_has_none()
    ensures { SoundHasNone }
{}

/// One more item is judged against the sound ones before it.
pub fn kept_next()
    ensures { KeptNext }
{}

/// Items close no block that was open before them exactly when no beginning of them ends more blocks than it starts.
pub fn stays_by_counts()
    ensures { StaysByCounts }
{}

/// The statements in a stack of scopes are those that are active.
pub fn reader_is_active()
    ensures { ReaderIsActive }
{}

/// A statement is active at a later one exactly when each block that holds it holds the later one.
pub fn active_by_blocks()
    ensures { ActiveByBlocks }
{}

/// Each sound `$f`, `$e`, `$a` and `$p` has a label.
pub fn items_have_labels()
    ensures sound { ItemsHaveLabels }
    ensures said { SaidAreLabelled }
{}

/// Two sound items with one label are one.
pub fn has_own_labels()
    ensures { HasOwnLabels }
{}

/// A mandatory hypothesis of an item is what its label means there.
pub fn mandatory_means()
    ensures { MandatoryMeans }
{}

/// The mandatory hypotheses of an item are sound, come before it, and are those of its frame.
pub fn mandatory_stand_before()
    ensures { MandatoryStandBefore }
{}

/// A label is that of a sound item before the item at which it is read, or means nothing there; and that of an assertion
/// means it.
pub fn labels_mean()
    ensures one { HasItemOrIsUnknown }
    ensures assertions { AssertionsMean }
{}

/// A label that a sound `$f` or `$e` has means it at each later item at which it is active, and at each other later item a
/// hypothesis that is not active.
pub fn hypotheses_mean()
    ensures active { ActiveHypothesesMean }
    ensures ended { EndedHypothesesMean }
{}

/// A statement is active at a later one exactly if each block that holds it holds the later one, where each block that is
/// closed was opened.
pub fn active_in_blocks()
    ensures { ActiveInBlocks }
{}

/// The sound statements with a label are among the sound items, at their own numbers.
pub fn sound_items_stand()
    ensures { SoundItemsStand }
{}

/// A sound `$f` is a typecode, which is a constant, and a variable.
pub fn floats_are_typings()
    ensures { FloatsAreTypings }
{}

/// All sound `$f` of a name give it one typecode.
pub fn floats_agree()
    ensures { FloatsAgree }
{}

/// Each variable in the frame of a sound assertion has one `$f` there, and the active pairs of two such variables are pairs of
/// the frame.
pub fn assertions_have_frames()
    ensures floats { AssertionsHaveFrames }
    ensures pairs { FramesHavePairs }
{}

/// The two variables of an active pair are different.
pub fn pairs_are_of_two()
    ensures { PairsAreOfTwo }
{}
