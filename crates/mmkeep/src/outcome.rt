//! How the program ends.

ghost use Rattle.std.specs.Prelude.{◌≡◌};
ghost use Rattle.mmkeep.specs.Language.Status.{status_of, outcome_of};

use mm_report::ScriptError;

/// What came of a run.
#[derive(Clone, Copy, Debug, PartialEq, Eq)]
pub enum Outcome {
    /// Nothing to complain of.
    Clean,
    /// Something wrong was found in the database.
    Findings,
    /// No assertion has the label.
    NoLabel,
    /// A file cannot be read or has a fault.
    Input,
    /// The arguments are no command.
    Words,
    /// Memory ran out.
    Memory,
    /// The script has a bad line or is cut short, or a read or a write failed.
    Stream,
}

/// What comes of a script that is not answered to its end.
impl From<ScriptError> for Outcome {
    ghost from_gives = { λ error outcome. outcome ≡ outcome_of error };

    fn from(error: ScriptError) -> Self {
        match error {
            ScriptError::BadLine | ScriptError::Cut | ScriptError::Read | ScriptError::Write => {
                Outcome::Stream
            }
            ScriptError::Memory => Outcome::Memory,
        }
    }
}

/// The exit status, 0 to 5.
pub fn status(outcome: &Outcome) -> u8
    ensures { result ≡ status_of outcome.now }
{
    match outcome {
        Outcome::Clean => 0,
        Outcome::Findings | Outcome::NoLabel => 1,
        Outcome::Input => 2,
        Outcome::Words => 3,
        Outcome::Memory => 4,
        Outcome::Stream => 5,
    }
}
