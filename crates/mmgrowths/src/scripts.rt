//! Scripts.

use crate::cases::Row;
use crate::codes::script_code;
use crate::marks::{Refused, refuse};
use crate::show::{say, show_session, tell};
use crate::storing::{added_with_memory, begun_with_memory};
use mm_report::{Reading, ScriptError, Session, Writing, run_script};
use std::io::Read;
use std::{io, mem};

/// A reader of bytes.
#[derive(Drop)]
struct Given {
    bytes: &'static [u8],
}

impl Read for Given {
    fn read(&mut self, buf: &mut [u8]) -> io::Result<usize> {
        let count = buf.len().min(self.bytes.len());
        buf[..count].copy_from_slice(&self.bytes[..count]);
        self.bytes = &self.bytes[count..];
        Ok(count)
    }
}

/// Begins a session with ample memory, and runs the script of the row while a growth is refused.
pub(crate) fn try_script(rt: &(impl Print + AllocGlobal), row: &Row) {
    if let Some(files) = added_with_memory(rt, row)
        && let Some(mut session) = begun_with_memory(rt, files, row)
    {
        run_refused(rt, &mut session, row);
        mem::forget(session);
    }
}

/// Runs the script of a row while a growth is refused.
fn run_refused(rt: &(impl Print + AllocGlobal), session: &mut Session, row: &Row) {
    say(rt, "script");
    refuse(rt, Refused::One);
    let ended = run(rt, session, row.script);
    refuse(rt, Refused::Nothing);
    match ended {
        Ok(()) => tell(rt, Some("answered")),
        Err(error) => tell(rt, script_code(error)),
    };
    show_session(rt, session, row);
}

/// Runs a script, and prints its answers.
fn run(
    rt: &(impl Print + AllocGlobal),
    session: &mut Session,
    script: &'static [u8],
) -> Result<(), ScriptError> {
    let mut reading = Reading::new(Given { bytes: script });
    let mut writing = Writing::new(io::writer(rt));
    run_script(rt.alloc(), session, &mut reading, &mut writing)
}
