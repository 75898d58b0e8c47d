//! Files that are read and added to those of a database.

ghost use Rattle.std.specs.Prelude.{◌≡◌, ◌⊎◌, ◌↔◌, ℕ, None, List, true, OnErr, OnOk, IfErr, IfOk, IfSome, IsErrOf};
ghost use Rattle.mm_report.specs.mm_store.Language.{Answers.{IsAddError, IsAddErrorIn}, FileFacts.{IsAdded, parked_in}, FilesView.{File, file_number, plain}};
ghost use Rattle.mm_report.specs.mm_script.Language.Stream.{calls_left, cannot_read, unread};
ghost use Rattle.mmkeep.specs.{Code.Loaded.{IsNewNameError}, Language.Loading.{AddsFile, IsFileError, IsTextError, ReadsOn}};
ghost use Rattle.mmkeep.specs.declared.adding.FileError.TheVariants as errors;

use bytes::Bytes;
use mm_report::{Files, Place, ReadFailed, Reading, StoreError, TextNumber, place};
use std::alloc::{AllocError, Global};
use std::io::Read;
use thiserror::Error;

/// Why a file is not added.
#[derive(Clone, Copy, Debug, PartialEq, Eq, Error)]
pub enum FileError {
    /// A read failed, or more were needed than a reading may make.
    #[error("a read failed")]
    Read,
    /// Its text has this fault at this place, and it is its first.
    #[error("the text has a fault: {1:?}")]
    Text(Place, TextNumber),
    /// The files would have more than 4,294,967,295 bytes.
    #[error("more than 4,294,967,295 bytes")]
    TooMany,
    /// There was not enough memory.
    #[error("out of memory")]
    Memory,
}

impl From<ReadFailed> for FileError {
    ghost from_gives = { λ _ e. e ≡ errors.Read };

    fn from(_: ReadFailed) -> Self {
        FileError::Read
    }
}

impl From<AllocError> for FileError {
    ghost from_gives = { λ _ e. e ≡ errors.Memory };

    fn from(_: AllocError) -> Self {
        FileError::Memory
    }
}

/// All bytes that are left to read. The errors are `Read`, if the reading has failed, and `Memory`.
///
/// It reads at most once for each byte that comes, and once more.
pub fn read_all<R: Read>(alloc: Global, reading: &mut Reading<R>) -> Result<Vec<u8>, FileError>
    ensures text { IfOk result (λ text. IfSome (unread R.remaining reading.old) (λ bytes. text.items ≡ bytes)) }
    ensures read { IsErrOf result errors.Read ↔ (cannot_read reading.new ≡ true) }
    ensures calls { ReadsOn R.remaining (unread R.remaining reading.old) (calls_left reading.old) reading.new }
    ensures errors { IfErr result (λ error. (error ≡ errors.Read) ⊎ (error ≡ errors.Memory)) }
{
    let mut text = Vec::new(alloc);
    let mut chunk = [0; 16_384];
    loop {
        let count = reading.read(&mut chunk)?;
        if count == 0 {
            return Ok(text);
        }
        text.extend_from_slice(&chunk[..count])?;
    }
}

/// Reads a file to its end, and adds its text under a name that no file has, after the other files. With the answer it
/// hands back the reading, which is failed exactly if the answer is `Read`.
///
/// The reading may make 4,294,967,295 calls, of which it makes at most one for each byte that comes, and one more. After an
/// error the files are as before.
pub fn add_file<R: Read + Drop>(
    alloc: Global,
    files: &mut Files,
    name: &[u8],
    file: R,
) -> (Result<(), FileError>, Reading<R>)
    requires { file_number (plain files.old) name.now ≡ None }
    ensures added { OnOk result.0 (AddsFile (plain files.old) (plain files.new) name.now (R.remaining file)) }
    ensures parked { OnOk result.0 (parked_in files.new ≡ parked_in files.old) }
    ensures refused { IfErr result.0 (IsFileError (plain files.old) (R.remaining file)) }
    ensures read { IsErrOf result.0 errors.Read ↔ (cannot_read result.1 ≡ true) }
    ensures calls { ReadsOn R.remaining (R.remaining file) 4294967295 result.1 }
    ensures unchanged { OnErr result.0 (files.new ≡ files.old) }
{
    let mut reading = Reading::new(file);
    let added = add_unread(alloc, files, name, &mut reading);
    (added, reading)
}

/// Adds what is left to read under a name that no file has, after the other files.
fn add_unread<R: Read>(
    alloc: Global,
    files: &mut Files,
    name: &[u8],
    reading: &mut Reading<R>,
) -> Result<(), FileError>
    requires { file_number (plain files.old) name.now ≡ None }
    ensures added { OnOk result (AddsFile (plain files.old) (plain files.new) name.now (unread R.remaining reading.old)) }
    ensures parked { OnOk result (parked_in files.new ≡ parked_in files.old) }
    ensures refused { IfErr result (IsFileError (plain files.old) (unread R.remaining reading.old)) }
    ensures read { IsErrOf result errors.Read ↔ (cannot_read reading.new ≡ true) }
    ensures calls { ReadsOn R.remaining (unread R.remaining reading.old) (calls_left reading.old) reading.new }
    ensures unchanged { OnErr result (files.new ≡ files.old) }
{
    match read_all(alloc, reading) {
        Ok(text) => add_text(files, name, &shared(text)?),
        Err(error) => Err(error),
    }
}

/// These bytes, so that pieces can share their memory.
fn shared(bytes: Vec<u8>) -> Result<Bytes, AllocError>
    ensures { IfOk result (λ all. all ≡ bytes.items) }
{
    Ok(Bytes::from_vec(bytes)?)
}

/// Adds a text under a name that no file has.
fn add_text(files: &mut Files, name: &[u8], text: &Bytes) -> Result<(), FileError>
    requires { file_number (plain files.old) name.now ≡ None }
    ensures added { OnOk result (IsAdded (plain files.old) (plain files.new) name.now text.now) }
    ensures parked { OnOk result (parked_in files.new ≡ parked_in files.old) }
    ensures refused { IfErr result (IsTextError (plain files.old) text.now) }
    ensures unchanged { OnErr result (files.new ≡ files.old) }
{
    match files.add_bytes(name, text) {
        Ok(()) => Ok(()),
        Err(error) => Err(reason(text.as_slice(), error)),
    }
}

/// Why a text was not added under a name that no file had, with the place of a fault in it.
fn reason(text: &[u8], error: StoreError) -> FileError
    requires within { IsAddErrorIn text.now error }
    requires new { IsNewNameError error }
    ensures { (before : List File) (name : List ℕ) → IsAddError before name text.now error → IsTextError before text.now result }
{
    match error {
        StoreError::Text(fault) => FileError::Text(place(text, fault.at), fault.number),
        StoreError::TooMany => FileError::TooMany,
        StoreError::Memory => FileError::from(AllocError),
        StoreError::Known | StoreError::NoTop => unreachable!(),
    }
}
