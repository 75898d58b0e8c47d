//! The report of a session.

ghost use Rattle.std.specs.{Prelude.{◌≡◌, ◌<◌, ◌++◌, [], true, decimal, length, IfOk, OnOk, OnErr, ℕ, List, unwrap_or}, Io.KnownBytes.{Appends}};
ghost use Rattle.mm_keep.specs.{mm_store.Language.FilesView.{plain}, mm_statement.Language.Item.{Said}, Language.Findings.{counted, told}};
ghost use Rattle.mm_report.specs.Code.{InFiles.{IsInFiles}, Written.{AreAllWritten, FailsWithin}};
ghost use Rattle.mm_report.specs.Language.Report.{code_of, proof_code, place_in, fault_line, incomplete_line, wrong_line, item_line, names_of, summary, IsReport, BeginsReport};
ghost use Rattle.mm_script.specs.Language.Stream.{written, has_failed, Writes};

use itoa::Buffer;
use mm_keep::{
    At, Files, Finding, FrameNumber, ProofNumber, Session, Tally, files_have_one_database,
    items_have_findings,
};
use mm_script::{WriteFailed, Writing};
use std::io::Write;
use thiserror::Error;

/// Why a report is not written in full.
#[derive(Clone, Copy, Debug, PartialEq, Eq, Error)]
pub enum ReportError {
    /// The writing has failed.
    #[error("a write failed")]
    Write,
}

impl From<WriteFailed> for ReportError {
    fn from(_: WriteFailed) -> Self {
        ReportError::Write
    }
}

/// Writes a number in decimal.
pub(crate) fn write_number<W: Write>(number: u64, to: &mut Writing<W>) -> Result<(), WriteFailed>
    ensures { Writes W.contents to.old to.new result (decimal number) }
{
    let mut buffer = Buffer::new();
    to.write_all(buffer.format(number).as_bytes())
}

/// Writes what is counted, and how many there are.
pub(crate) fn write_count<W: Write>(
    counted: &[u8],
    number: u64,
    to: &mut Writing<W>,
) -> Result<(), WriteFailed>
    ensures { Writes W.contents to.old to.new result (counted.now ++ decimal number) }
{
    to.write_all(counted)?;
    write_number(number, to)
}

/// The number of a fault of a statement as it is written.
fn code_of_number(number: FrameNumber) -> &'static [u8]
    ensures { result.now ≡ code_of number }
{
    match number {
        FrameNumber::F01 => b"F01",
        FrameNumber::F02 => b"F02",
        FrameNumber::F03 => b"F03",
        FrameNumber::F04 => b"F04",
        FrameNumber::F05 => b"F05",
        FrameNumber::F06 => b"F06",
        FrameNumber::F07 => b"F07",
        FrameNumber::F08 => b"F08",
        FrameNumber::F09 => b"F09",
        FrameNumber::F10 => b"F10",
        FrameNumber::F11 => b"F11",
        FrameNumber::F12 => b"F12",
        FrameNumber::F13 => b"F13",
        FrameNumber::F14 => b"F14",
    }
}

/// The number of a fault of a proof as it is written.
fn code_of_proof(number: ProofNumber) -> &'static [u8]
    ensures { result.now ≡ proof_code number }
{
    match number {
        ProofNumber::P01 => b"P01",
        ProofNumber::P02 => b"P02",
        ProofNumber::P03 => b"P03",
        ProofNumber::P04 => b"P04",
        ProofNumber::P05 => b"P05",
        ProofNumber::P06 => b"P06",
        ProofNumber::P07 => b"P07",
        ProofNumber::P08 => b"P08",
        ProofNumber::P09 => b"P09",
        ProofNumber::P10 => b"P10",
        ProofNumber::P11 => b"P11",
        ProofNumber::P12 => b"P12",
        ProofNumber::P13 => b"P13",
        ProofNumber::P14 => b"P14",
        ProofNumber::P15 => b"P15",
    }
}

/// Writes a word and what comes after it.
pub(crate) fn write_part<W: Write>(
    word: &[u8],
    behind: &[u8],
    to: &mut Writing<W>,
) -> Result<(), WriteFailed>
    ensures { Writes W.contents to.old to.new result (word.now ++ behind.now) }
{
    to.write_all(word)?;
    to.write_all(behind)
}

/// Writes a place: the name of the file, the line and the column.
fn write_place<W: Write>(files: &Files, at: At, to: &mut Writing<W>) -> Result<(), WriteFailed>
    requires { at.file < length (plain files.now) }
    ensures { Writes W.contents to.old to.new result (place_in (names_of (plain files.now)) at) }
{
    write_part(files.file_name(at.file), b":", to)?;
    write_number(at.line, to)?;
    write_count(b":", at.column, to)
}

/// Writes the line of a fault of a statement.
fn write_fault<W: Write>(
    files: &Files,
    number: FrameNumber,
    at: At,
    word: &[u8],
    to: &mut Writing<W>,
) -> Result<(), WriteFailed>
    requires { at.file < length (plain files.now) }
    ensures { Writes W.contents to.old to.new result (fault_line (names_of (plain files.now)) number (record { at = at; word = word.now })) }
{
    to.write_all(b"fault ")?;
    write_place(files, at, to)?;
    write_part(b" ", code_of_number(number), to)?;
    write_part(b" ", word, to)?;
    to.write_all(b"\n")
}

/// Writes the line of a theorem whose proof is incomplete.
pub(crate) fn write_incomplete<W: Write>(
    files: &Files,
    label: &[u8],
    at: At,
    to: &mut Writing<W>,
) -> Result<(), WriteFailed>
    requires { at.file < length (plain files.now) }
    ensures { Writes W.contents to.old to.new result (incomplete_line (names_of (plain files.now)) label.now at) }
{
    write_part(b"incomplete ", label, to)?;
    to.write_all(b" ")?;
    write_place(files, at, to)?;
    to.write_all(b"\n")
}

/// Writes the line of a theorem whose proof is wrong.
pub(crate) fn write_wrong<W: Write>(
    files: &Files,
    label: &[u8],
    number: ProofNumber,
    at: At,
    to: &mut Writing<W>,
) -> Result<(), WriteFailed>
    requires { at.file < length (plain files.now) }
    ensures { Writes W.contents to.old to.new result (wrong_line (names_of (plain files.now)) label.now number at) }
{
    write_part(b"wrong ", label, to)?;
    to.write_all(b" ")?;
    write_place(files, at, to)?;
    write_part(b" ", code_of_proof(number), to)?;
    to.write_all(b"\n")
}

/// Writes the last line.
fn write_summary<W: Write>(tally: &Tally, to: &mut Writing<W>) -> Result<(), WriteFailed>
    ensures { Writes W.contents to.old to.new result (summary (counted tally.now)) }
{
    write_count(b"axioms ", tally.axioms, to)?;
    write_count(b" theorems ", tally.theorems, to)?;
    write_count(b" proved ", tally.proved, to)?;
    write_count(b" incomplete ", tally.incomplete, to)?;
    write_count(b" wrong ", tally.wrong, to)?;
    write_count(b" faults ", tally.faults, to)?;
    to.write_all(b"\n")
}

/// Writes the line of an item with this label, if it has one.
fn write_line<W: Write>(
    files: &Files,
    label: &[u8],
    finding: &Finding,
    to: &mut Writing<W>,
) -> Result<(), WriteFailed>
    requires { IsInFiles (length (plain files.now)) (told finding.now) }
    ensures { (item : Said) → label.now ≡ unwrap_or item.label []
        → Writes W.contents to.old to.new result (item_line (names_of (plain files.now)) item (told finding.now)) }
{
    match *finding {
        Finding::Incomplete(at) => write_incomplete(files, label, at, to),
        Finding::Wrong(number, at) => write_wrong(files, label, number, at, to),
        Finding::Fault(number, at, word) => write_fault(files, number, at, word, to),
        _ => Ok(()),
    }
}

/// Writes the lines of the items, in order, and answers what they count.
fn write_lines<W: Write>(session: &Session, to: &mut Writing<W>) -> Result<Tally, WriteFailed>
    ensures ok { IfOk result (λ tally. AreAllWritten session.now (written W.contents to.old) (written W.contents to.new) (counted tally)) }
    ensures err { OnErr result (FailsWithin W.contents session.now to.old to.new) }
{
    files_have_one_database(); // A law: files have one database at most.
    items_have_findings(); // A law: something is rightly reported of each item.
    let mut tally = Tally::none();
    for i in 0..session.count() {
        let finding = session.finding(i);
        let label = session.label(i).unwrap_or(&[]);
        write_line(session.files(), label, &finding, to)?;
        tally = tally.with(&finding);
    }
    Ok(tally)
}

/// Writes the report of a session: in the order of its items a line for each fault and for each theorem whose proof is
/// wrong or incomplete, and a line of counts. It takes no memory.
///
/// It fails only if the writing has failed. What went out is then the beginning of the report.
pub fn write_report<W: Write>(
    session: &Session,
    writing: &mut Writing<W>,
) -> Result<(), ReportError>
    ensures report { OnOk result ((bytes : List ℕ) × IsReport session.now bytes
        × Appends (written W.contents writing.old) (written W.contents writing.new) bytes) }
    ensures failed { OnErr result (has_failed writing.new ≡ true) }
    ensures prefix { OnErr result (BeginsReport session.now (written W.contents writing.old) (written W.contents writing.new)) }
{
    let tally = write_lines(session, writing)?;
    write_summary(&tally, writing)?;
    Ok(())
}
