//! What holds of all files. Each function does nothing; what it promises is the law.

ghost use Rattle.std.specs.{Prelude.{◌≡◌, ◌≢◌, ◌⊎◌, ◌+◌, ◌≤◌, ℕ, All, Contains, List, ◌∷◌, ◌++◌, Some, None, length, map, slice_get}, List.{concat}, Option.{option_map}};
ghost use Rattle.mm_text.specs.Language.{Cut.{ended}, Asked.{Asked, Insert, Replace, Delete, Move, edited_name}};
ghost use Rattle.mm_store.specs.{declared.{item.Item.{Item}, edit.EditError.{EditError, TheVariants.{Memory}}}, Language.Answers.{IsEditError}};
ghost use Rattle.mm_store.specs.Language.FilesView.{File, FileView, FilesView, file_number, files_in, find_file, number_of, plain, text_of, without_keys};
ghost use Rattle.mm_store.specs.Language.{FileFacts.{CanBeRead, HoldsPieces, IsAdded, IsByte, StandsIn}, Appending.{IsAppended}, Edits.{edited, with_members, IsEditOf}, Expansion.{IsExpansion, Placed}};
ghost use Rattle.mm_store.specs.Language.{Holding.{HoldOneEach}, Walking.{IsWalk, StandsBefore, WalkView}, Keyless.{bare, keyless_item}};

/// Files give one list of items at most from a top file on.
pub fn one_expansion()
    ensures { (files : List FileView) (top : List ℕ) (a b : List Item) → IsExpansion files top a → IsExpansion files top b → a ≡ b }
{
    mm_text::one_meaning(); // A law: a text has one list of words, or one fault.
    mm_text::one_division(); // A law: words are divided into units in one way.
}

/// Files each piece of which holds one unit give items from each top file on that is among them.
pub fn has_expansion()
    ensures { (files : FilesView) (top : List ℕ) → HoldOneEach (plain files) → number_of (files_in files) top ≢ None
        → (items : List Item) × IsExpansion (files_in files) top items }
{}

/// If each piece of files holds one unit, the same is true after an edit; and there are files with keys that mean what these
/// mean.
pub fn edits_keep_units()
    ensures units { (edit : Asked) (files after : List File) → HoldOneEach files → IsEditOf edit files after → HoldOneEach after }
    ensures keys { (files : List File) → (view : FilesView) × HoldsPieces view × (plain view ≡ files) }
{
    mm_text::one_unit_of_cut(); // A law: a text that is cut into one piece holds one unit.
}

/// Each item of files can be read, and is where it says.
pub fn items_stand()
    ensures read { (files : FilesView) (top : List ℕ) (items : List Item) → HoldsPieces files → IsExpansion (files_in files) top items
        → All (CanBeRead files) items }
    ensures stand { (files : FilesView) (top : List ℕ) (items : List Item) → IsExpansion (files_in files) top items → All (StandsIn files) items }
{
    mm_text::parts_are_texts(); // A law: each part of a text of whole units is a text.
}

/// The keys of pieces do not matter: files that are the same but for the keys of their pieces give items that are
/// the same but for their keys.
pub fn keys_do_not_matter()
    ensures { (a b : List FileView) (top : List ℕ) (items others : List Item) → map without_keys a ≡ map without_keys b
        → IsExpansion a top items → IsExpansion b top others → map keyless_item items ≡ map keyless_item others }
{
    mm_text::one_meaning(); // A law: a text has one list of words, or one fault.
    mm_text::one_division(); // A law: words are divided into units in one way.
    mm_text::one_cut(); // A law: a text has one cut or one first fault.
}

/// A unit behind all others of the top file: the items of before come first, but for keys; and each file has the pieces that it
/// had before all others.
pub fn appending_keeps_items()
    ensures items { (old new : FilesView) (top : List ℕ) (items others : List Item) → IsAppended top (plain old) (plain new)
        → IsExpansion (files_in old) top items → IsExpansion (files_in new) top others
        → (more : List Item) × (map keyless_item others ≡ map keyless_item items ++ more) }
    ensures files { (name : List ℕ) (old new : List File) → IsAppended name old new → (n : ℕ) (file other : File)
        → slice_get old n ≡ Some file → slice_get new n ≡ Some other → (more : List (List ℕ)) × (other.pieces ≡ file.pieces ++ more) }
{
    mm_text::one_meaning(); // A law: a text has one list of words, or one fault.
    mm_text::one_division(); // A law: words are divided into units in one way.
}

/// A walk goes on among more files.
///
/// If a walk has gone past items of files, it has gone past the same items once a file is added whose name it has
/// not taken; and a walk that stands before a reference stands before the same one then, and before no other. If a walk
/// has come to the end, the items that it has gone past are the expansion of the files without keys; and these are the
/// items that the files give, without keys. An expansion takes one list of names.
pub fn walks_go_on()
    ensures added { (old new : List File) (name text top : List ℕ) (items : List Item) (walk : WalkView) → IsAdded old new name text
        → ¬ Contains walk.names name → IsWalk (bare old) top items walk → IsWalk (bare new) top items walk }
    ensures stands { (old new : List File) (name text : List ℕ) (walk : WalkView) (part : Placed) → IsAdded old new name text
        → StandsBefore (bare old) walk part → StandsBefore (bare new) walk part }
    ensures one { (files : List FileView) (walk : WalkView) (a b : Placed) → StandsBefore files walk a → StandsBefore files walk b → a ≡ b }
    ensures names { (files : List FileView) (top : List ℕ) (items others : List Item) (a : IsExpansion files top items) (b : IsExpansion files top others)
        → a.after ≡ b.after }
    ensures end { (files : FilesView) (top : List ℕ) (items others : List Item) → IsExpansion (files_in files) top items
        → IsExpansion (bare (plain files)) top others → others ≡ map keyless_item items }
{
    mm_text::one_meaning(); // A law: a text has one list of words, or one fault.
    mm_text::one_division(); // A law: words are divided into units in one way.
}

/// A byte of a piece, or the end of the piece, is in the text of its file, or at its end.
pub fn bytes_are_within()
    ensures { (files : FilesView) (number piece at : ℕ) (text : List ℕ) (offset : ℕ) → IsByte files number piece at text offset → offset ≤ length text }
{}

/// The text of a file is its pieces and its tail, joined.
pub fn pieces_join_to_text()
    ensures { (file : File) → text_of file ≡ concat file.pieces ++ file.tail }
{}

/// An edit makes of the members of its file what its kind says; those before and after stay as they were.
///
/// A new member is the text of the edit, which ends in white space; a moved one goes over those between its old
/// place and its new one.
pub fn edits_keep_members()
    ensures insert { (name text : List ℕ) (before behind : List (List ℕ))
        → edited (Insert name (length before) text) (before ++ behind) ≡ before ++ ended text ∷ behind }
    ensures replace { (name text old : List ℕ) (before behind : List (List ℕ))
        → edited (Replace name (length before) text) (before ++ old ∷ behind) ≡ before ++ ended text ∷ behind }
    ensures delete { (name old : List ℕ) (before behind : List (List ℕ))
        → edited (Delete name (length before)) (before ++ old ∷ behind) ≡ before ++ behind }
    ensures down { (name moved : List ℕ) (before middle behind : List (List ℕ))
        → edited (Move name (length before) (length before + length middle)) (before ++ moved ∷ (middle ++ behind)) ≡ before ++ (middle ++ moved ∷ behind) }
    ensures up { (name moved : List ℕ) (before middle behind : List (List ℕ))
        → edited (Move name (length before + length middle) (length before)) (before ++ (middle ++ moved ∷ behind)) ≡ before ++ moved ∷ (middle ++ behind) }
{}

/// An edit keeps the names of all files and their order, and every other file as it was.
///
/// Its own file keeps its name and its tail.
pub fn edits_keep_files()
    ensures names { (edit : Asked) (files after : List File) → IsEditOf edit files after → map (λ file. file.name) after ≡ map (λ file. file.name) files }
    ensures numbers { (edit : Asked) (files after : List File) (name : List ℕ) → IsEditOf edit files after → file_number after name ≡ file_number files name }
    ensures others { (edit : Asked) (files after : List File) (name : List ℕ) → IsEditOf edit files after → name ≢ edited_name edit
        → find_file after name ≡ find_file files name }
    ensures edited { (edit : Asked) (files after : List File) (file : File) → IsEditOf edit files after → find_file files (edited_name edit) ≡ Some file
        → find_file after (edited_name edit) ≡ Some (with_members file (edited edit file.pieces)) }
{}

/// The deletion of a member that was inserted is accepted, and gives the files of before; so is the move of a moved
/// member back to its old place.
pub fn edits_reverse()
    ensures insert { (files between : List File) (name text : List ℕ) (at : ℕ) → IsEditOf (Insert name at text) files between
        → IsEditOf (Delete name at) between files }
    ensures moved { (files between : List File) (name : List ℕ) (at to : ℕ) → IsEditOf (Move name at to) files between
        → IsEditOf (Move name to at) between files }
{}

/// An edit of files gives one list of files, or it is refused for one reason, and never both; out of memory is no
/// such reason.
pub fn one_edit()
    ensures some { (edit : Asked) (files : List File)
        → ((after : List File) × IsEditOf edit files after) ⊎ ((error : EditError) × (error ≢ Memory) × IsEditError edit files error) }
    ensures files { (edit : Asked) (files a b : List File) → IsEditOf edit files a → IsEditOf edit files b → a ≡ b }
    ensures refused { (edit : Asked) (files after : List File) (error : EditError) → IsEditOf edit files after → IsEditError edit files error → error ≡ Memory }
    ensures reason { (edit : Asked) (files : List File) (a b : EditError) → a ≢ Memory → b ≢ Memory
        → IsEditError edit files a → IsEditError edit files b → a ≡ b }
{
    mm_text::one_cut(); // A law: a text has one cut or one first fault.
}

/// The text of a file that was added is the text that it was added with, with a line feed added if that does
/// not end in white space; the other files stay as they were. A text is added in one way.
pub fn added_files_have_their_text()
    ensures text { (old new : List File) (name text : List ℕ) → file_number old name ≡ None → IsAdded old new name text
        → option_map text_of (find_file new name) ≡ Some (ended text) }
    ensures others { (old new : List File) (name text other : List ℕ) → IsAdded old new name text → other ≢ name → find_file new other ≡ find_file old other }
    ensures one { (old a b : List File) (name text : List ℕ) → IsAdded old a name text → IsAdded old b name text → a ≡ b }
{
    mm_text::one_cut(); // A law: a text has one cut or one first fault.
}
