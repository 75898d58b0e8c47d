//! What keeps the program from its work, reported by a line on standard error.

ghost use Rattle.std.specs.Prelude.{◌≡◌};
ghost use Rattle.mmkeep.specs.{declared.outcome.Outcome.TheVariants.{Words, Memory}, Language.Status.{outcome_of}};

use crate::adding::FileError;
use crate::outcome::Outcome;
use mm_report::{Place, ScriptError, fault_name};
use std::str;

/// The words of the command line are no command.
pub(crate) fn refuse_arguments(rt: &impl Eprint) -> Outcome
    ensures { result ≡ Words }
{
    let _ = eprintln!(rt; "mmkeep: arguments");
    Outcome::Words
}

/// Memory ran out.
pub(crate) fn report_out_of_memory(rt: &impl Eprint) -> Outcome
    ensures { result ≡ Memory }
{
    let _ = eprintln!(rt; "mmkeep: out of memory");
    Outcome::Memory
}

/// A name as it is printed: that of a file that was to be opened, which is text.
fn path_of(name: &[u8]) -> &str {
    str::from_utf8(name).unwrap_or("")
}

/// A file is not added: it cannot be opened, a read of it failed, its text has a fault, or there are too many bytes; or memory
/// ran out.
pub(crate) fn report_file(rt: &impl Eprint, name: &[u8], error: FileError) {
    let path = path_of(name);
    let _ = match error {
        FileError::Read => eprintln!(rt; "mmkeep: {path}: cannot be read"),
        FileError::Text(Place { line, column }, number) => {
            let code = fault_name(number);
            eprintln!(rt; "mmkeep: {path}:{line}:{column} {code}")
        }
        FileError::TooMany => eprintln!(rt; "mmkeep: S05"),
        FileError::Memory => eprintln!(rt; "mmkeep: out of memory"),
    };
}

/// A script is not answered to its end, or an answer is not written.
pub(crate) fn stop(rt: &impl Eprint, error: ScriptError) -> Outcome
    ensures { result ≡ outcome_of error }
{
    let _ = match error {
        ScriptError::BadLine => eprintln!(rt; "mmkeep: C01"),
        ScriptError::Cut => eprintln!(rt; "mmkeep: C02"),
        ScriptError::Read => eprintln!(rt; "mmkeep: C03"),
        ScriptError::Write => eprintln!(rt; "mmkeep: C04"),
        ScriptError::Memory => eprintln!(rt; "mmkeep: out of memory"),
    };
    Outcome::from(error)
}
