//! Questions for lists.

use crate::cases::Row;
use crate::codes::keep_code;
use crate::marks::{Refused, refuse};
use crate::show::{show_items, show_session, tell};
use mm_report::{KeepError, Session};

/// A question for a list of items.
#[derive(Clone, Copy)]
enum Question {
    Cites,
    Users,
    Axioms,
}

/// Asks what the theorem of a row cites, what uses its axiom, and what axioms the theorem rests on: each while a growth is
/// refused, and again if memory ran out.
pub(crate) fn try_questions(rt: &impl Print, session: &Session, row: &Row) {
    try_question(rt, session, Question::Cites, row.theorem, row);
    try_question(rt, session, Question::Users, row.axiom, row);
    try_question(rt, session, Question::Axioms, row.theorem, row);
}

/// Asks while a growth is refused, and again if memory ran out.
fn try_question(rt: &impl Print, session: &Session, question: Question, label: &[u8], row: &Row) {
    if !ask(rt, session, question, label, Refused::One) {
        show_session(rt, session, row);
        ask(rt, session, question, label, Refused::Nothing);
    }
}

/// Asks all three for a label that is unknown, while all growths are refused.
pub(crate) fn ask_for_no_label(rt: &impl Print, session: &Session) {
    ask(rt, session, Question::Cites, b"none", Refused::All);
    ask(rt, session, Question::Users, b"none", Refused::All);
    ask(rt, session, Question::Axioms, b"none", Refused::All);
}

/// Asks, and prints the answer: whether there was memory for it.
fn ask(
    rt: &impl Print,
    session: &Session,
    question: Question,
    label: &[u8],
    refused: Refused,
) -> bool {
    refuse(rt, refused);
    let answer = answer_of(session, question, label);
    refuse(rt, Refused::Nothing);
    match answer {
        Ok(items) => {
            show_items(rt, session, "found", &items);
            true
        }
        Err(error) => tell(rt, keep_code(error)),
    }
}

/// The answer to a question.
fn answer_of(session: &Session, question: Question, label: &[u8]) -> Result<Vec<usize>, KeepError> {
    match question {
        Question::Cites => session.cites(label),
        Question::Users => session.users(label),
        Question::Axioms => session.axioms(label),
    }
}
