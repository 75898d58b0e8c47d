//! What is proved of statements: each law is the contract of a function.

ghost use Rattle.mm_statement.specs.Language.Laws.{DatabasesAreThere, DatabasesHaveOneListOfNames, ExpansionsTakeNames, FilesHaveOneDatabase, ItemsAreLocated, LocatedAreItems, MissingAreNamed};
ghost use Rattle.mm_statement.specs.Language.{Laws.{WalksTakeNames}, Statement.{OneRangeSaysOne}};

/// Items that are the same bytes of one piece, read as one kind, say the same.
pub fn one_range_says_one()
    ensures { OneRangeSaysOne }
{
    // A law: a text has one list of words.
    mm_store::one_meaning();
}

/// The items that are kept of files are those of the database of the files, and the other way round: they say the same, and
/// stand at the same places.
pub fn items_are_located()
    ensures located { ItemsAreLocated }
    ensures kept { LocatedAreItems }
{
    mm_store::one_meaning(); // A law: a text has one list of words, or one fault.
    mm_store::stretches_stand_alone(); // A law: bytes from one word to a later one are a text.
    mm_store::items_stand(); // A law: each item is where it says.
}

/// Files have one database at most from a top file on.
pub fn files_have_one_database()
    ensures { FilesHaveOneDatabase }
{
    mm_store::one_meaning(); // A law: a text has one list of words, or one fault.
    mm_store::edits_keep_units(); // A law: after an edit each piece holds one unit.
    mm_store::one_expansion(); // A law: files give one list of items at most.
    items_are_located(); // A law: items say what the database says, at the same places.
}

/// Files each piece of which holds one unit have a database from each top file on that is among them, and from no other.
pub fn databases_are_there()
    ensures { DatabasesAreThere }
{
    mm_store::edits_keep_units(); // A law: after an edit each piece holds one unit.
    mm_store::has_expansion(); // A law: files give items from each top file on.
    mm_store::items_stand(); // A law: each item is where it says.
    items_are_located(); // A law: items say what the database says, at the same places.
}

/// A reference to a missing file in a database names a file that is not there, with one of the names of the database.
pub fn missing_are_named()
    ensures { MissingAreNamed }
{}

/// A database has one list of names: those that a walk through the files takes, in their order.
pub fn names_are_taken()
    ensures one { DatabasesHaveOneListOfNames }
    ensures walk { WalksTakeNames }
    ensures end { ExpansionsTakeNames }
{
    mm_store::one_meaning(); // A law: a text has one list of words, or one fault.
    mm_store::one_division(); // A law: words are divided into units in one way.
    mm_store::stretches_stand_alone(); // A law: bytes from one word to a later one are a text.
    mm_store::edits_keep_units(); // A law: after an edit each piece holds one unit.
    mm_store::walks_go_on(); // A law: a walk goes on among more files.
    databases_are_there(); // A law: files have a database from each top file on.
}
