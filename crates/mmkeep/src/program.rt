//! The program: the words of the command line, and what each command does.

use crate::arguments::Invocation;
use crate::asking::{command_of, top_of};
use crate::complaints::{refuse_arguments, report_out_of_memory, stop};
use crate::loading::load_session;
use crate::outcome::Outcome;
use crate::performing::perform;
use crate::source::SystemFiles;
use mm_report::{Reading, Session, Writing};
use std::io::{BufWriter, ErrorKind, Input};
use std::rt::{Env, Files};
use std::{env, io, mem};

/// Does what the command line asks for.
pub fn run(rt: &(impl Env + Files + Input + Print + Eprint + AllocGlobal)) -> Outcome {
    match arguments_of(rt) {
        Ok(arguments) => run_arguments(rt, &arguments),
        Err(error) if error.kind() == ErrorKind::OutOfMemory => report_out_of_memory(rt),
        // Some word is no text.
        Err(_) => refuse_arguments(rt),
    }
}

/// The words of the command line, of which the first is the program's name.
fn arguments_of(rt: &(impl Env + AllocGlobal)) -> io::Result<Vec<String>> {
    Ok(env::args(rt)?.collect(rt.alloc())?)
}

/// Does what these words ask for.
fn run_arguments(
    rt: &(impl Files + Input + Print + Eprint + AllocGlobal),
    arguments: &[String],
) -> Outcome {
    match command_of(rt.alloc(), arguments) {
        Err(_) => report_out_of_memory(rt),
        Ok(None) => refuse_arguments(rt),
        Ok(Some(command)) => run_command(rt, &command),
    }
}

/// Loads the files of a database, and does a command with them.
fn run_command(
    rt: &(impl Files + Input + Print + Eprint + AllocGlobal),
    command: &Invocation<'_>,
) -> Outcome {
    match load_session(rt, &SystemFiles { rt }, top_of(command).as_bytes()) {
        Err(unloaded) => unloaded.outcome(),
        Ok(mut session) => {
            let outcome = answer_on_streams(rt, &mut session, command);
            // The program ends here: the system takes its memory back at once, and not list by list.
            mem::forget(session);
            outcome
        }
    }
}

/// Does a command with a session, from standard input and on standard output.
fn answer_on_streams(
    rt: &(impl Input + Print + Eprint + AllocGlobal),
    session: &mut Session,
    command: &Invocation<'_>,
) -> Outcome {
    let Ok(out) = BufWriter::new(rt.alloc(), io::writer(rt)) else {
        return report_out_of_memory(rt);
    };
    let mut reading = Reading::new(rt.reader());
    let mut writing = Writing::new(out);
    let ended = perform(rt.alloc(), session, command, &mut reading, &mut writing);
    // A buffer that is dropped would be flushed once more.
    let _ = writing.into_inner().into_parts();
    match ended {
        Ok(outcome) => outcome,
        Err(error) => stop(rt, error),
    }
}
