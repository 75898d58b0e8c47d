//! What is proved of the definitions: each law is the contract of a function.

ghost use Rattle.mm_keep.specs.Language.Laws.{AppendingKeepsFindings, AxiomsHaveThemselves, ChainsLeadBack, ItemsHaveFindings, OneListEach, OneListOfRuns, HasListEach, HasListOfRuns, LabelsAreDecided};
ghost use Rattle.mm_keep.specs.Language.Laws.{ProvedRestsOnAxioms, OneCount, OneFinding, OneLabel, OneTally, OneVerdict, ProvedIsDerivable};

/// Between files before and files after there is one list of runs.
pub fn one_list_of_runs()
    ensures { OneListOfRuns }
{
    mm_proof::files_have_one_database(); // A law: files have one database at most.
}

/// Something is rightly reported of each item of files: so what is promised of findings and tallies can be met, of all files.
pub fn items_have_findings()
    ensures { ItemsHaveFindings }
{
    mm_proof::edits_keep_units(); // A law: after an edit each piece holds one unit.
    mm_proof::items_have_labels(); // A law: each sound `$f`, `$e`, `$a` and `$p` has a label.
    mm_proof::items_are_located(); // A law: items say what the database says, at the same places.
    mm_proof::items_stand(); // A law: each item is where it says.
    mm_proof::has_verdict_at(); // A law: there is a verdict.
    mm_proof::spots_are_in(); // A law: the spot of a verdict is in its proof.
}

/// A session has one answer each: how many items there are, the label of each, what is found of each, the verdict on each
/// assertion, and the tally.
pub fn one_answer_each()
    ensures count { OneCount }
    ensures label { OneLabel }
    ensures finding { OneFinding }
    ensures verdict { OneVerdict }
    ensures tally { OneTally }
{
    mm_proof::files_have_one_database(); // A law: files have one database at most.
    mm_proof::has_own_labels(); // A law: two sound items with one label are one.
    mm_proof::has_one_verdict_at(); // A law: there is one verdict at most.
}

/// Of an assertion there is one list each of what it cites, of what cites it, and of its axioms.
pub fn one_list_each()
    ensures { OneListEach }
{
    mm_proof::files_have_one_database(); // A law: files have one database at most.
    mm_proof::has_own_labels(); // A law: two sound items with one label are one.
}

/// The only axiom of a sound `$a` is itself.
pub fn axioms_have_themselves()
    ensures { AxiomsHaveThemselves }
{}

/// A chain of citations leads to no later item.
pub fn chains_lead_back()
    ensures { ChainsLeadBack }
{}

/// Between files before and files after that give items there is a list of runs: so what is promised of an edit can be met.
pub fn has_list_of_runs()
    ensures { HasListOfRuns }
{}

/// A label is that of an assertion, or of none; and of each assertion there is a list each of what it cites, of what cites it,
/// and of its axioms.
pub fn has_list_each()
    ensures decided { LabelsAreDecided }
    ensures lists { HasListEach }
{
    mm_proof::edits_keep_units(); // A law: after an edit each piece holds one unit.
    mm_proof::items_have_labels(); // A law: each sound `$f`, `$e`, `$a` and `$p` has a label.
    mm_proof::items_are_located(); // A law: items say what the database says, at the same places.
    mm_proof::files_have_one_database(); // A law: files have one database at most.
    mm_proof::has_own_labels(); // A law: two sound items with one label are one.
    mm_proof::cites_tell(); // A law: the words that cite are the labels that steps name.
}

/// If an edit inserts a unit behind all others of the top file, what is found of each earlier item stays as it was: its fault,
/// its verdict, and the places of both.
pub fn appending_keeps_findings()
    ensures { AppendingKeepsFindings }
{
    mm_proof::edits_keep_units(); // A law: after an edit each piece holds one unit.
    mm_proof::items_have_labels(); // A law: each sound `$f`, `$e`, `$a` and `$p` has a label.
    mm_proof::items_are_located(); // A law: items say what the database says, at the same places.
    mm_proof::one_meaning(); // A law: a text has one list of words, or one fault.
    mm_proof::items_stand(); // A law: each item is where it says.
    mm_proof::files_have_one_database(); // A law: files have one database at most.
    mm_proof::has_one_verdict_at(); // A law: there is one verdict at most.
    mm_proof::has_verdict_at(); // A law: there is a verdict.
    mm_proof::spots_are_in(); // A law: the spot of a verdict is in its proof.
    mm_proof::same_view_same_verdict(); // A law: equal views have equal verdicts.
    mm_proof::appending_keeps_items(); // A law: with one more unit at the end, the items of before come first.
}

/// If an item is rightly reported as Proved, some labels derive its statement.
pub fn proved_is_derivable()
    ensures { ProvedIsDerivable }
{
    mm_proof::proved_is_derived_at(); // A law: proved is said exactly if labels derive the statement.
}

/// If each theorem is proved to which chains of citations lead from an assertion, itself included, the assertion rests on its
/// axioms: it is one of them; or labels derive its statement, and each assertion that they mean rests on these axioms.
pub fn proved_rests_on_axioms()
    ensures { ProvedRestsOnAxioms }
{
    mm_proof::proved_is_derived_at(); // A law: proved is said exactly if labels derive the statement.
}
