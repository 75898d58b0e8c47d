//! What is proved of the files that are loaded. The function does nothing; what it promises is the law.

ghost use Rattle.std.specs.Prelude.{◌≡◌, ℕ, All, Contains, List, [], None};
ghost use Rattle.mm_report.specs.{mm_statement.Language.{Database.{Refers}, Item.{Missing}}, mm_store.Language.FilesView.{File, file_number}};
ghost use Rattle.mmkeep.specs.Language.Loading.{AreLoaded, GivesFile, KnownFile};

/// A name of the database of loaded files that no file has is one that the source lacks, if the source says of it what it
/// holds. Each reference to a missing file in the database names such a one.
pub fn missing_are_lacked()
    ensures names { (holds : List ℕ → KnownFile) (top : List ℕ) (files : List File) (loaded : AreLoaded holds top files) (name : List ℕ)
        → Contains loaded.database.after name → file_number files name ≡ None → GivesFile (holds name) name [] }
    ensures items { (holds : List ℕ → KnownFile) (top : List ℕ) (files : List File) (loaded : AreLoaded holds top files)
        → All (λ item. item.said.kind ≡ Missing → (name : List ℕ) × Refers item name × GivesFile (holds name) name []) loaded.items }
{
    mm_report::missing_are_named(); // A law: a missing file is one of the names of the database.
}
