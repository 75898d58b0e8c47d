//! How a base is built.

ghost use Rattle.std.specs.{Prelude.{◌≡◌, ◌↔◌, ◌≤◌, ℕ, List, None, All, IfOk, IfErr, IsErrOf, length}, List.{AllZip}};
ghost use Rattle.mm_store.specs.{Language.{FilesView.{FilesView, files_in, number_of}, FileFacts.{CanBeRead}, Answers.{IsExpansionError}}, declared.error.StoreError.TheVariants.{NoTop}};
ghost use Rattle.mm_statement.specs.Language.Statement.{Says};
ghost use Rattle.mm_machine.specs.Language.Names.{Begins};
ghost use Rattle.mm_frame.specs.Language.{Base.{BaseView, IsOfFiles}, Older.{HasOlder}, Answering.{IsBaseBy, StandsLater}};

use crate::base::Base;
use crate::draft::Draft;
use crate::names::Names;
use crate::older::read_all;
use mm_store::{Files, Item, StoreError};
use std::alloc::{AllocError, Global};

impl Base {
    /// A base of no items.
    fn none(alloc: Global) -> Result<Base, AllocError>
        ensures { IfOk result (λ none. (names : List (List ℕ)) (files : FilesView) → HasOlder names files none) }
    {
        let draft = Draft::with_room(alloc, 0)?;
        Ok(Base {
            items: Vec::new(alloc),
            parts: draft.parts(),
        })
    }

    /// The base of these items of the files, with the help of an older one.
    fn of_items(
        alloc: Global,
        names: &mut Names,
        files: &Files,
        items: Vec<Item>,
        old: &Base,
    ) -> Result<Base, AllocError>
        requires read { All (CanBeRead files.now) items.items }
        requires few { length items.items ≤ 4294967295 }
        requires older { HasOlder names.old files.now old.now }
        ensures base { IfOk result (λ built. (built.items ≡ items.items) × ((base : BaseView) × AllZip (Says files.now) built.items base
            × IsBaseBy names.new base built × StandsLater names.new base built)) }
        ensures grows { Begins names.old names.new }
    {
        let draft = read_all(alloc, names, files, &items, old)?;
        names.distinct();
        Ok(Base {
            items,
            parts: draft.parts(),
        })
    }

    /// Builds the base of the files from a top file on. `NoTop` comes if no file has the name `top`; any other
    /// error is `Memory`. It reads each item once, in time near linear in the texts and in the lists of active pairs.
    /// It makes one such list for each last active `$d` of a sound `$p`.
    ///
    /// A base has numbers in place of names of symbols, and is read through the names as they are afterwards, or through
    /// any that begin with these. New names come after those that were there, also if there is an error.
    pub fn build(
        alloc: Global,
        names: &mut Names,
        files: &Files,
        top: &[u8],
    ) -> Result<Base, StoreError>
        ensures base { IfOk result (λ built. (base : BaseView) × IsOfFiles files.now top.now built.items base × IsBaseBy names.new base built
            × StandsLater names.new base built) }
        ensures grows { Begins names.old names.new }
        ensures no_top { IsErrOf result NoTop ↔ (number_of (files_in files.now) top.now ≡ None) }
        ensures err { IfErr result IsExpansionError }
    {
        let items = files.statements(top)?;
        let none = Base::none(alloc)?;
        Ok(Base::of_items(alloc, names, files, items, &none)?)
    }

    /// Builds the base of the files from a top file on as `build` does, with an older base whose items can still be read. A
    /// `$d`, `$f`, `$e`, `$a` or `$p` may be the same bytes as a sound item of the older base, in the same order. The numbers
    /// of its symbols are then taken from there, and no symbol is read. As long as all items are the same ones, what is sound
    /// is not judged again.
    pub fn rebuild(
        alloc: Global,
        names: &mut Names,
        files: &Files,
        top: &[u8],
        old: &Base,
    ) -> Result<Base, StoreError>
        requires older { HasOlder names.old files.now old.now }
        ensures base { IfOk result (λ built. (base : BaseView) × IsOfFiles files.now top.now built.items base × IsBaseBy names.new base built
            × StandsLater names.new base built) }
        ensures grows { Begins names.old names.new }
        ensures no_top { IsErrOf result NoTop ↔ (number_of (files_in files.now) top.now ≡ None) }
        ensures err { IfErr result IsExpansionError }
    {
        let found = files.statements(top)?;
        Ok(Base::of_items(alloc, names, files, found, old)?)
    }
}
