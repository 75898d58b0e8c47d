//! The walk through the files, from the top file on, in the order in which they are read.

ghost use Rattle.std.specs.Prelude.{◌≡◌, ℕ, ◌+◌, ◌<◌, ◌≤◌, ◌↔◌, IsTrue, false, List, [], ◌∷◌, ◌++◌, Contains, None, Some, IfErr, IfNone, IfSome, IfOk, IsErrOf, OnOk, OnErr, length, vec_len, vec_capacity};
ghost use Rattle.mm_store.specs.{declared.{item.Item.{Item}, error.StoreError.TheVariants.{NoTop}}, Language.{Answers.{IsExpansionError}, FilesView.{FileView, file_number, files_in, number_of, plain}}};
ghost use Rattle.mm_store.specs.{Language.{Keyless.{bare}, Walking.{WalkView, IsWalk, StopsOnWay, FindsMissing, FindsEnd}}, Code.Gains.{names_in}};
ghost use Rattle.mm_store.specs.Code.Steps.{behind, beginning, first_walk, IsReference, IsStep};

use crate::error::StoreError;
use crate::files::Files;
use crate::key::PieceKey;
use indexmap::IndexSet;
use std::alloc::{AllocError, Global};
use std::marker::Model;

/// A file that the walk has entered and not left: its number, and which of its pieces is next, both from 0.
#[derive(Clone, Copy)]
pub struct Level {
    pub(crate) file: usize,
    pub(crate) piece: usize,
}

impl Model for Level {
    ghost use Rattle.mm_store.specs.Language.Walking.{LevelView};

    ghost Value = { LevelView };

    ghost view = { λ level. record { file = level.file; piece = level.piece } };

    ghost inverse = { λ view. record { file = view.file; piece = view.piece } };
}

/// Where a piece is, and its key.
#[derive(Clone, Copy)]
pub struct PlacedPiece {
    pub(crate) file: usize,
    pub(crate) piece: usize,
    pub(crate) key: PieceKey,
}

/// What a step of the walk comes to.
#[derive(Drop)]
pub enum Step {
    /// Nothing is still to come.
    End,
    /// No items: a file is left or entered, or a name comes once more.
    Nothing,
    /// The items of this piece, one for each part: a piece that includes nothing, or a reference that was reported.
    Items(PlacedPiece),
    /// A reference to a missing file of this name, past which the walk does not go before it is reported.
    Missing(Vec<u8>),
}

/// How far the files are gone through from a top file on, each at its first inclusion, in the order in which they
/// are read. Files can be added while the walk goes on.
///
/// It has the names taken so far, and how far it is in each file that it has entered and not left.
#[derive(Drop)]
pub struct Walk {
    names: IndexSet<Vec<u8>>,
    levels: Vec<Level>,
    told: bool,
}

impl Model for Walk {
    ghost use Rattle.mm_store.specs.Language.Walking.{WalkView};

    ghost Value = { WalkView };

    ghost use Rattle.mm_store.specs.Code.Walked.{walk_view};

    ghost view = { walk_view };
}

/// Goes past the next piece of the innermost file.
fn advance(levels: &mut Vec<Level>)
    requires { (front : List Level) × (level : Level) × (levels.old.items ≡ front ++ level ∷ []) × (level.piece < 18446744073709551615) }
    ensures moved { (front : List Level) (level : Level) → levels.old.items ≡ front ++ level ∷ [] → levels.new.items ≡ front ++ behind level ∷ [] }
    ensures len { vec_len levels.new ≡ vec_len levels.old }
    ensures capacity { vec_capacity levels.old ≤ vec_capacity levels.new }
{
    let last = levels.len() - 1;
    let level = &mut levels[last];
    level.piece += 1;
}

/// Adds a name to the set, which does not have it.
fn take_name(name: &[u8], names: &mut IndexSet<Vec<u8>>) -> Result<(), AllocError>
    requires { ¬ Contains (names_in names.old) name.now }
    ensures ok { OnOk result (names_in names.new ≡ names_in names.old ++ name.now ∷ []) }
    ensures err { OnErr result (names_in names.new ≡ names_in names.old) }
{
    let name = Vec::from_slice(*names.allocator(), name)?;
    names.insert(name)?;
    Ok(())
}

impl Walk {
    /// A walk before the first piece of the file of this number, the top file, whose name is taken.
    pub(crate) fn from_top(alloc: Global, top: &[u8], number: usize) -> Result<Walk, AllocError>
        ensures { IfOk result (λ walk. walk ≡ first_walk top.now number) }
    {
        let mut walk = Walk {
            names: IndexSet::new(alloc),
            levels: Vec::new(alloc),
            told: false,
        };
        walk.begin(top, number)?;
        Ok(walk)
    }

    /// Takes the name of the top file and enters it.
    fn begin(&mut self, top: &[u8], number: usize) -> Result<(), AllocError>
        requires names { self.old.names ≡ [] }
        requires levels { self.old.levels ≡ [] }
        requires untold { self.old.told ≡ false }
        ensures { OnOk result (self.new ≡ first_walk top.now number) }
    {
        take_name(top, &mut self.names)?;
        self.levels.push(Level {
            file: number,
            piece: 0,
        })?;
        Ok(())
    }

    /// The innermost of the files that the walk has entered and not left.
    fn innermost(&self) -> Option<Level>
        ensures none { IfNone result (self.now.levels ≡ []) }
        ensures some { IfSome result (λ level. (front : List Level) × (self.now.levels ≡ front ++ level ∷ [])) }
    {
        self.levels.last().copied()
    }

    /// Whether a name is taken.
    fn has_taken(&self, name: &[u8]) -> bool
        ensures { IsTrue result ↔ Contains self.now.names name.now }
    {
        self.names.contains(name)
    }

    /// Leaves the innermost file.
    fn leave(&mut self)
        ensures { (front : List Level) (level : Level) → self.old.levels ≡ front ++ level ∷ []
            → self.new ≡ record { names = self.old.names; levels = front; told = false } }
    {
        let _ = self.levels.pop();
        self.told = false;
    }

    /// Goes past the next piece of the innermost file.
    fn pass(&mut self)
        requires { (front : List Level) × (level : Level) × (self.old.levels ≡ front ++ level ∷ []) × (level.piece < 18446744073709551615) }
        ensures { (front : List Level) (level : Level) → self.old.levels ≡ front ++ level ∷ []
            → self.new ≡ record { names = self.old.names; levels = front ++ behind level ∷ []; told = false } }
    {
        advance(&mut self.levels);
        self.told = false;
    }

    /// Goes past the next piece of the innermost file, and takes the name that it includes.
    fn pass_inclusion(&mut self, name: &[u8]) -> Result<(), AllocError>
        requires last { (front : List Level) × (level : Level) × (self.old.levels ≡ front ++ level ∷ []) × (level.piece < 18446744073709551615) }
        requires fresh { ¬ Contains self.old.names name.now }
        ensures ok { OnOk result ((front : List Level) (level : Level) → self.old.levels ≡ front ++ level ∷ []
            → self.new ≡ record { names = self.old.names ++ name.now ∷ []; levels = front ++ behind level ∷ []; told = false }) }
        ensures err { OnErr result (self.new ≡ self.old) }
    {
        take_name(name, &mut self.names)?;
        self.pass();
        Ok(())
    }

    /// Goes past the next piece of the innermost file, takes the name that it includes, and enters that file.
    fn enter(&mut self, name: &[u8], number: usize) -> Result<(), AllocError>
        requires last { (front : List Level) × (level : Level) × (self.old.levels ≡ front ++ level ∷ []) × (level.piece < 18446744073709551615) }
        requires fresh { ¬ Contains self.old.names name.now }
        ensures ok { OnOk result ((front : List Level) (level : Level) → self.old.levels ≡ front ++ level ∷ [] → self.new ≡
            record { names = self.old.names ++ name.now ∷ []; levels = (front ++ behind level ∷ []) ++ beginning number ∷ []; told = false }) }
        ensures err { OnErr result (self.new ≡ self.old) }
    {
        self.levels.reserve(1)?;
        take_name(name, &mut self.names)?;
        advance(&mut self.levels);
        let inner = Level {
            file: number,
            piece: 0,
        };
        self.levels.push(inner).unwrap();
        self.told = false;
        Ok(())
    }

    /// A reference to a missing file: it is reported, or gone past if it was reported.
    fn report_missing(&mut self, spot: PlacedPiece, name: &[u8]) -> Result<Step, AllocError>
        requires last { (front : List Level) × (level : Level) × (self.old.levels ≡ front ++ level ∷ []) × (level.piece < 18446744073709551615) }
        requires fresh { ¬ Contains self.old.names name.now }
        ensures ok { IfOk result (λ step. (files : List FileView) → IsReference files self.old.levels spot name.now → number_of files name.now ≡ None
            → IsStep files self.old step self.new) }
        ensures err { OnErr result (self.new ≡ self.old) }
    {
        if self.told {
            self.pass_inclusion(name)?;
            return Ok(Step::Items(spot));
        }
        let name = Vec::from_slice(*self.names.allocator(), name)?;
        self.told = true;
        Ok(Step::Missing(name))
    }

    /// A reference: it is gone past if its name was taken, or its file is entered, or it is missing.
    fn include(&mut self, files: &Files, spot: PlacedPiece, name: &[u8]) -> Result<Step, AllocError>
        requires { IsReference (files_in files.now) self.old.levels spot name.now }
        ensures ok { IfOk result (λ step. IsStep (files_in files.now) self.old step self.new) }
        ensures err { OnErr result (self.new ≡ self.old) }
    {
        if self.has_taken(name) {
            self.pass();
            return Ok(Step::Nothing);
        }
        match files.number_of(name) {
            None => self.report_missing(spot, name),
            Some(number) => {
                self.enter(name, number)?;
                Ok(Step::Nothing)
            }
        }
    }

    /// One step. After out of memory the walk is as before.
    pub(crate) fn step(&mut self, files: &Files) -> Result<Step, AllocError>
        ensures ok { IfOk result (λ step. IsStep (files_in files.now) self.old step self.new) }
        ensures err { OnErr result (self.new ≡ self.old) }
    {
        let level = match self.innermost() {
            None => return Ok(Step::End),
            Some(level) => level,
        };
        let Level { file, piece } = level;
        let key = match files.key_at(file, piece) {
            None => {
                self.leave();
                return Ok(Step::Nothing);
            }
            Some(key) => key,
        };
        let spot = PlacedPiece { file, piece, key };
        match files.included_name(key) {
            None => {
                self.pass();
                Ok(Step::Items(spot))
            }
            Some(name) => self.include(files, spot, name),
        }
    }

    /// The next name to which the files refer and which none of them has, in the order in which they are read: each
    /// name once, at its first reference; `None` if no more come.
    ///
    /// The walk is then right before that reference, and a file of that name may be added before the next call, which
    /// enters it; if none is, the next call goes past the reference. Each call goes on from where the last one
    /// stopped. After out of memory the walk may have gone on, but past no missing name that it did not report: the
    /// next call goes on from there. A walk takes at most 4,294,967,296 names: that of the top file, and one for each
    /// byte of the files.
    pub fn next_missing(&mut self, files: &Files) -> Result<Option<Vec<u8>>, AllocError>
        ensures found { IfOk result (λ found. IfSome found (λ name. (top : List ℕ) (items : List Item)
            → IsWalk (bare (plain files.now)) top items self.old → FindsMissing (bare (plain files.now)) top items self.old self.new name.items)) }
        ensures few { IfOk result (λ found. IfSome found (λ name. (top : List ℕ) (items : List Item)
            → IsWalk (bare (plain files.now)) top items self.old → length self.new.names ≤ 4294967296)) }
        ensures end { IfOk result (λ found. IfNone found ((top : List ℕ) (items : List Item)
            → IsWalk (bare (plain files.now)) top items self.old → FindsEnd (bare (plain files.now)) top items self.old self.new)) }
        ensures err { OnErr result ((top : List ℕ) (items : List Item)
            → IsWalk (bare (plain files.now)) top items self.old → StopsOnWay (bare (plain files.now)) top items self.old self.new) }
    {
        mm_text::one_meaning(); // A law: a text has one list of words, or one fault.
        mm_text::one_division(); // A law: words are divided into units in one way.
        files.hold_units();
        files.stay_small();
        loop {
            match self.step(files)? {
                Step::End => return Ok(None),
                Step::Missing(name) => return Ok(Some(name)),
                Step::Nothing => {}
                Step::Items(_) => {}
            }
        }
    }
}

impl Files {
    /// A walk through the files from the file of the name `top` on, which has gone past nothing.
    ///
    /// `NoTop` comes if no file has the name `top`, before memory is taken; any other error is `Memory`.
    pub fn walk(&self, top: &[u8]) -> Result<Walk, StoreError>
        ensures ok { IfOk result (λ walk. IsWalk (bare (plain self.now)) top.now [] walk) }
        ensures first { IfOk result (λ walk. walk.names ≡ top.now ∷ []) }
        ensures untold { IfOk result (λ walk. walk.told ≡ false) }
        ensures no_top { IsErrOf result NoTop ↔ (file_number (plain self.now) top.now ≡ None) }
        ensures err { IfErr result IsExpansionError }
    {
        self.hold_units();
        self.walk_from_top(top)
    }

    /// A walk before the first piece of the top file.
    pub(crate) fn walk_from_top(&self, top: &[u8]) -> Result<Walk, StoreError>
        ensures ok { IfOk result (λ walk. (number : ℕ) × (file_number (plain self.now) top.now ≡ Some number) × (walk ≡ first_walk top.now number)) }
        ensures no_top { IsErrOf result NoTop ↔ (file_number (plain self.now) top.now ≡ None) }
        ensures no_file { IsErrOf result NoTop ↔ (number_of (files_in self.now) top.now ≡ None) }
        ensures err { IfErr result IsExpansionError }
    {
        match self.number_of(top) {
            None => Err(StoreError::NoTop),
            Some(number) => Ok(Walk::from_top(self.allocator(), top, number)?),
        }
    }
}
