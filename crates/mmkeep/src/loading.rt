//! Loads the files of a database from a source.

ghost use Rattle.std.specs.{Prelude.{◌≡◌, ◌≢◌, ◌⊎◌, ℕ, None, List, [], IfErr, IfOk, IsErrOf, IsOk, OnOk}, IoError.{error_kind}};
ghost use Rattle.mm_report.specs.mm_store.{Language.{FileFacts.{parked_in}, FilesView.{file_number, plain}}, declared.error.StoreError.TheVariants.{Memory as Lacking}};
ghost use Rattle.mmkeep.specs.declared.unloaded.Unloaded.TheVariants.{Input, Memory};
ghost use Rattle.mmkeep.specs.Code.Loaded.{AddsIfOpened, AddsOpened, HasBegun, HasFile, KeepsFiles, Loads, StopsOpened, TakesFile, TakesTop, unloaded_by};
ghost use Rattle.mmkeep.specs.Language.Loading.{AddsFile, AreLoaded, IsUnloaded, StopsAt, StopsAtTop, StopsLoading};

use crate::adding::{FileError, add_file};
use crate::complaints::{report_file, report_out_of_memory};
use crate::source::Source;
use crate::unloaded::Unloaded;
use mm_report::{
    Files as Database, Reading, Session, StoreError, Walk, names_are_taken, walks_go_on,
};
use std::alloc::AllocError;
use std::io;
use std::io::{ErrorKind, Read};

/// Loads the files of a database from a top file on, and begins a session over them.
///
/// The error is reported, and says why loading stopped, at the top file or at the next of the names to which the files refer.
/// A failed read is returned with its reading.
pub fn load_session<S: Source>(
    rt: &(impl Eprint + AllocGlobal),
    source: &S,
    top: &[u8],
) -> Result<Session, Unloaded<S::Opened>>
    ensures files { IfOk result (λ session. AreLoaded (S.holds source.now) top.now session.files) }
    ensures top { IfOk result (λ session. session.top ≡ top.now) }
    ensures unloaded { IfErr result (IsUnloaded S.Opened.remaining (S.holds source.now) top.now) }
{
    let files = load(rt, source, top)?;
    begin_session(rt, files, top)
}

/// Begins a session over files that have the top file.
fn begin_session<R: Read>(
    rt: &(impl Eprint + AllocGlobal),
    files: Database,
    top: &[u8],
) -> Result<Session, Unloaded<R>>
    requires parked { parked_in files ≡ 0 }
    requires top { HasFile (plain files) top.now }
    ensures files { IfOk result (λ session. session.files ≡ plain files) }
    ensures top { IfOk result (λ session. session.top ≡ top.now) }
    ensures memory { IfErr result (λ unloaded. unloaded ≡ Memory) }
{
    match Session::begin(rt.alloc(), files, top) {
        Ok((session, _)) => Ok(session),
        Err(unbegun) => Err(not_begun(rt, unbegun.fault)),
    }
}

/// The top file and the files that it includes: each name is opened at its first reference, in the order of the
/// expansion, once. A name that cannot be opened stays missing. What keeps a file from being loaded is reported.
fn load<S: Source>(
    rt: &(impl Eprint + AllocGlobal),
    source: &S,
    top: &[u8],
) -> Result<Database, Unloaded<S::Opened>>
    ensures files { IfOk result (λ files. AreLoaded (S.holds source.now) top.now (plain files)) }
    ensures parked { IfOk result (λ files. parked_in files ≡ 0) }
    ensures top { IfOk result (λ files. HasFile (plain files) top.now) }
    ensures unloaded { IfErr result (IsUnloaded S.Opened.remaining (S.holds source.now) top.now) }
{
    let mut files = Database::new(rt.alloc());
    match add_all(rt, source, &mut files, top) {
        Ok(()) => Ok(files),
        Err(unloaded) => Err(unloaded),
    }
}

/// Adds the top file and the files that it includes, if there are no files.
fn add_all<S: Source>(
    rt: &(impl Eprint + AllocGlobal),
    source: &S,
    files: &mut Database,
    top: &[u8],
) -> Result<(), Unloaded<S::Opened>>
    requires { plain files.old ≡ [] }
    ensures files { OnOk result (AreLoaded (S.holds source.now) top.now (plain files.new)) }
    ensures parked { OnOk result (parked_in files.new ≡ parked_in files.old) }
    ensures top { OnOk result (HasFile (plain files.new) top.now) }
    ensures unloaded { IfErr result (IsUnloaded S.Opened.remaining (S.holds source.now) top.now) }
{
    take_top(rt, source, files, top)?;
    match files.walk(top) {
        Ok(mut walk) => add_missing(rt, source, files, &mut walk),
        Err(error) => Err(not_begun(rt, error)),
    }
}

/// Opens the top file, which has to be there, and adds it.
fn take_top<S: Source>(
    rt: &(impl Eprint + AllocGlobal),
    source: &S,
    files: &mut Database,
    top: &[u8],
) -> Result<(), Unloaded<S::Opened>>
    requires { file_number (plain files.old) top.now ≡ None }
    ensures taken { OnOk result (TakesTop (S.holds source.now top.now) (plain files.old) (plain files.new) top.now) }
    ensures parked { OnOk result (parked_in files.new ≡ parked_in files.old) }
    ensures there { OnOk result (HasFile (plain files.new) top.now) }
    ensures refused { IfErr result (StopsAtTop S.Opened.remaining (S.holds source.now top.now) (plain files.old)) }
{
    add_top(rt, files, top, source.open(top))
}

/// Adds the top file, which has to be there.
fn add_top<R: Read + Drop>(
    rt: &(impl Eprint + AllocGlobal),
    files: &mut Database,
    top: &[u8],
    opened: io::Result<R>,
) -> Result<(), Unloaded<R>>
    requires { file_number (plain files.old) top.now ≡ None }
    ensures added { OnOk result (AddsOpened R.remaining opened (plain files.old) (plain files.new) top.now) }
    ensures parked { OnOk result (parked_in files.new ≡ parked_in files.old) }
    ensures there { OnOk result (HasFile (plain files.new) top.now) }
    ensures memory { IfErr opened (λ error. error_kind error ≡ ErrorKind.OutOfMemory → IsErrOf result Memory) }
    ensures unopened { IfErr opened (λ error. error_kind error ≢ ErrorKind.OutOfMemory → IsErrOf result Input) }
    ensures refused { IfErr result (StopsOpened (λ unloaded. (unloaded ≡ Memory) ⊎ (unloaded ≡ Input)) R.remaining opened (plain files.old)) }
{
    match opened {
        Ok(file) => add_opened(rt, files, top, file),
        Err(error) => match error.kind() {
            ErrorKind::OutOfMemory => {
                report_out_of_memory(rt);
                Err(Unloaded::from(AllocError))
            }
            _ => {
                report_file(rt, top, FileError::Read);
                Err(Unloaded::Input)
            }
        },
    }
}

/// Adds the files that are missing, as the walk finds them. It ends, since a walk takes no name twice, and at most one for
/// each byte.
fn add_missing<S: Source>(
    rt: &(impl Eprint + AllocGlobal),
    source: &S,
    files: &mut Database,
    walk: &mut Walk,
) -> Result<(), Unloaded<S::Opened>>
    requires { HasBegun (S.holds source.now) (plain files.old) walk.old }
    ensures loaded { OnOk result ((top : List ℕ) → Loads (S.holds source.now) top 0 (plain files.old) walk.old
        → AreLoaded (S.holds source.now) top (plain files.new)) }
    ensures parked { OnOk result (parked_in files.new ≡ parked_in files.old) }
    ensures kept { OnOk result (KeepsFiles (plain files.old) (plain files.new)) }
    ensures error { IfErr result (λ unloaded. (top : List ℕ) → Loads (S.holds source.now) top 0 (plain files.old) walk.old
        → IsUnloaded S.Opened.remaining (S.holds source.now) top unloaded) }
{
    walks_go_on(); // A law: a walk goes on among more files.
    names_are_taken(); // A law: a database has the names that a walk takes.
    loop {
        files.hold_one_each();
        match walk.next_missing(files) {
            Ok(Some(name)) => take_included(rt, source, files, &name)?,
            Ok(None) => return Ok(()),
            Err(AllocError) => {
                report_out_of_memory(rt);
                return Err(Unloaded::from(AllocError));
            }
        }
    }
}

/// Opens the file of this name, and adds it, if it can be opened.
fn take_included<S: Source>(
    rt: &(impl Eprint + AllocGlobal),
    source: &S,
    files: &mut Database,
    name: &[u8],
) -> Result<(), Unloaded<S::Opened>>
    requires { file_number (plain files.old) name.now ≡ None }
    ensures taken { OnOk result (TakesFile (S.holds source.now name.now) (plain files.old) (plain files.new) name.now) }
    ensures parked { OnOk result (parked_in files.new ≡ parked_in files.old) }
    ensures refused { IfErr result (StopsAt S.Opened.remaining (S.holds source.now name.now) (plain files.old)) }
{
    add_included(rt, files, name, source.open(name))
}

/// Adds an included file, if it was opened; a file that cannot be opened stays missing.
fn add_included<R: Read + Drop>(
    rt: &(impl Eprint + AllocGlobal),
    files: &mut Database,
    name: &[u8],
    opened: io::Result<R>,
) -> Result<(), Unloaded<R>>
    requires { file_number (plain files.old) name.now ≡ None }
    ensures added { OnOk result (AddsIfOpened R.remaining opened (plain files.old) (plain files.new) name.now) }
    ensures parked { OnOk result (parked_in files.new ≡ parked_in files.old) }
    ensures memory { IfErr opened (λ error. error_kind error ≡ ErrorKind.OutOfMemory → IsErrOf result Memory) }
    ensures missing { IfErr opened (λ error. error_kind error ≢ ErrorKind.OutOfMemory → IsOk result) }
    ensures refused { IfErr result (StopsOpened (λ unloaded. unloaded ≡ Memory) R.remaining opened (plain files.old)) }
{
    match opened {
        Ok(file) => add_opened(rt, files, name, file),
        Err(error) => match error.kind() {
            ErrorKind::OutOfMemory => {
                report_out_of_memory(rt);
                Err(Unloaded::from(AllocError))
            }
            _ => Ok(()),
        },
    }
}

/// Adds a file that was opened, under its name.
fn add_opened<R: Read + Drop>(
    rt: &(impl Eprint + AllocGlobal),
    files: &mut Database,
    name: &[u8],
    file: R,
) -> Result<(), Unloaded<R>>
    requires { file_number (plain files.old) name.now ≡ None }
    ensures added { OnOk result (AddsFile (plain files.old) (plain files.new) name.now (R.remaining file)) }
    ensures parked { OnOk result (parked_in files.new ≡ parked_in files.old) }
    ensures refused { IfErr result (StopsLoading R.remaining (plain files.old) (R.remaining file)) }
{
    match add_file(rt.alloc(), files, name, file) {
        (Ok(()), _) => Ok(()),
        (Err(error), reading) => {
            report_file(rt, name, error);
            Err(unloaded(error, reading))
        }
    }
}

/// Why loading stops at a file that is not added, by the reason and the reading of the file.
fn unloaded<R: Read + Drop>(error: FileError, reading: Reading<R>) -> Unloaded<R>
    ensures { result ≡ unloaded_by error reading }
{
    match error {
        FileError::Read => Unloaded::Read(reading),
        FileError::Text(..) | FileError::TooMany => Unloaded::Input,
        FileError::Memory => Unloaded::from(AllocError),
    }
}

/// Files that have the top file are not gone through: no reason is left but memory.
fn not_begun<R: Read>(rt: &impl Eprint, error: StoreError) -> Unloaded<R>
    requires { error ≡ Lacking }
    ensures { result ≡ Memory }
{
    match error {
        StoreError::Memory => {
            report_out_of_memory(rt);
            Unloaded::from(AllocError)
        }
        _ => unreachable!(),
    }
}
