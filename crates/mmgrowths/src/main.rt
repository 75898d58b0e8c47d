//! A test of sessions that go on after out of memory: each call that can answer it is made while a growth of the heap is
//! refused, and again with ample memory.
//!
//! Nothing here refuses a growth. A library that is loaded before the program does, `tests/memory/refuse.c`, by the lines
//! that are printed before and after each call. Without it each call is made once. What is printed is for
//! `tests/growths/run` to compare: how each call ended, and the report, the files and the parked pieces after it.
#![tactic(auto)]

mod asking;
mod cases;
mod codes;
mod editing;
mod marks;
mod refusing;
mod scripts;
mod show;
mod storing;

use crate::cases::{ROWS, Row};
use std::mem;

fn main(rt: HostRuntime) {
    for row in &ROWS {
        try_row(&rt, row);
    }
    refusing::answer_all_refused(&rt, &ROWS[0]);
}

/// Tries each call on the files of a row.
fn try_row(rt: &(impl Print + AllocGlobal), row: &Row) {
    let _ = println!(rt; "== {}", row.name);
    let mut files = storing::added(rt, row);
    storing::try_edits(rt, &mut files, row);
    if let Some(mut session) = storing::begun(rt, files, row) {
        asking::try_questions(rt, &session, row);
        refusing::report_all_refused(rt, &session);
        editing::try_edits(rt, &mut session, row);
        refusing::report_all_refused(rt, &session);
        mem::forget(session);
    }
    scripts::try_script(rt, row);
}
