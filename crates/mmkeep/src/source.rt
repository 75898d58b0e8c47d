//! Where the files of a database are opened.

ghost use Rattle.std.specs.{Prelude.{◌≡◌, ℕ, List}, IoError.{error_kind}};
ghost use Rattle.mmkeep.specs.Language.Loading.{KnownFile, Opens, Unknown};

use std::fs::File;
use std::io::{ErrorKind, Read};
use std::rt::Files;
use std::{io, str};

/// Where files are opened by their names.
pub trait Source {
    /// A file that is open.
    type Opened: Read + Drop;

    ghost holds: { Self → List ℕ → KnownFile };

    /// Opens the file of this name.
    fn open(&self, name: &[u8]) -> io::Result<Self::Opened>
        ensures { Opens Self.Opened.remaining (λ error. error_kind error ≡ ErrorKind.OutOfMemory) (holds self.now name.now) result };
}

/// The files of the system, whose names are paths from the current folder. What they hold, only the system knows.
#[derive(Clone, Copy)]
pub struct SystemFiles<'a, R> {
    /// What opens them.
    pub rt: &'a R,
}

impl<R: Files> Source for SystemFiles<'_, R> {
    type Opened = R::File;

    ghost holds = { λ _ _. Unknown };

    fn open(&self, name: &[u8]) -> io::Result<R::File> {
        match str::from_utf8(name) {
            Ok(path) => File::open(self.rt, path),
            Err(_) => Err(io::Error::from(ErrorKind::InvalidFilename)),
        }
    }
}
