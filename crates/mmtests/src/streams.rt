//! What the program cannot show of streams that fail: a reader with a limited number of calls, and the session after a script
//! that was not answered to its end.

ghost use Rattle.std.specs.Prelude.{◌≤◌};

use mm_report::{Files, Reading, ScriptError, Session, Writing, run_script, write_report};
use std::alloc::Global;
use std::io::{Read, Write};
use std::{io, mem};

/// A reader that gives some bytes a call.
#[derive(Drop)]
struct Given {
    bytes: &'static [u8],
    most: usize,
}

impl Read for Given {
    fn read(&mut self, buf: &mut [u8]) -> io::Result<usize> {
        let count = self.most.min(buf.len()).min(self.bytes.len());
        buf[..count].copy_from_slice(&self.bytes[..count]);
        self.bytes = &self.bytes[count..];
        Ok(count)
    }
}

/// A reader of these bytes, at most this many a call.
fn reader_of(bytes: &'static [u8], most: usize) -> Given {
    Given { bytes, most }
}

/// A writer that fails at one call, counted from 1, if at any, and takes everything before and after it.
#[derive(Drop)]
struct Broken {
    at: usize,
    calls: usize,
    taken: Vec<u8>,
}

impl Write for Broken {
    fn write(&mut self, buf: &[u8]) -> io::Result<usize> {
        self.calls = self.calls.saturating_add(1);
        if self.calls == self.at || self.taken.extend_from_slice(buf).is_err() {
            return Err(io::Error::from(io::ErrorKind::BrokenPipe));
        }
        Ok(buf.len())
    }

    fn flush(&mut self) -> io::Result<()> {
        Ok(())
    }
}

const NAME: &[u8] = b"a.mm";

/// A logic, a theorem by its rule, and one with a compressed proof: eight pieces.
const LOGIC: &[u8] =
    b"$c wff |- -> ( ) $.\n$v p q $.\nwp $f wff p $.\nwq $f wff q $.\nwi $a wff ( p -> q ) $.\n\
        ${ mi $e |- p $. ma $e |- ( p -> q ) $. mp $a |- q $. $}\n\
        ${ h1 $e |- p $. h2 $e |- ( p -> q ) $. th $p |- q $= wp wq h1 h2 mp $. $}\n\
        id $p wff ( ( p -> p ) -> ( p -> p ) ) $= ( wi ) AABZCB $.\n";

/// The report if nothing is wrong.
const CLEAN: &[u8] = b"axioms 2 theorems 2 proved 2 incomplete 0 wrong 0 faults 0\n";

/// The report if the hypotheses of the rule are exchanged.
const BROKEN: &[u8] =
    b"wrong th a.mm:7:67 P09\naxioms 2 theorems 2 proved 1 incomplete 0 wrong 1 faults 0\n";

/// A script that exchanges the hypotheses of the rule: its line ends after 18 bytes, the line feed after its text after
/// 76.
const SCRIPT: &[u8] =
    b"replace a.mm 5 57\n${ ma $e |- ( p -> q ) $. mi $e |- p $. mp $a |- q $. $}\n\nreport\n";

/// What it is answered.
const ANSWERS: &[u8] =
    b"ran 1\nth\nwrong th a.mm:7:67 P09\naxioms 2 theorems 2 proved 1 incomplete 0 wrong 1 faults 0\n";

/// How a script ended, and what it left.
#[derive(Drop)]
struct Ended {
    end: Result<(), ScriptError>,
    answers: Vec<u8>,
    /// The report of the session after it.
    report: Vec<u8>,
}

impl Ended {
    /// Whether it ended like this, with these answers and this report.
    fn is(&self, end: Result<(), ScriptError>, answers: &[u8], report: &[u8]) -> bool {
        self.end == end && self.answers.as_slice() == answers && self.report.as_slice() == report
    }

    /// Whether the edit is done, and the script ended well only if all is answered.
    fn is_done(&self) -> bool {
        self.end.is_ok() == (self.answers.as_slice() == ANSWERS) && self.report.as_slice() == BROKEN
    }
}

/// Runs a script on a session; the write with this number fails.
fn run(alloc: Global, session: &mut Session, reading: &mut Reading<Given>, fails: usize) -> Ended {
    let mut writing = Writing::new(Broken {
        at: fails,
        calls: 0,
        taken: Vec::new(alloc),
    });
    let end = run_script(alloc, session, reading, &mut writing);
    let mut report = Writing::new(Vec::new(alloc));
    let _whole = write_report(session, &mut report);
    Ended {
        end,
        answers: writing.into_inner().taken,
        report: report.into_inner(),
    }
}

/// Runs a script on a session over the logic, which is not taken apart afterwards.
fn ran(alloc: Global, reading: &mut Reading<Given>, fails: usize) -> Option<Ended> {
    let mut files = Files::new(alloc);
    // No piece of files that were only added is parked.
    if files.add(NAME, LOGIC).is_err() || files.parked() != 0 {
        mem::forget(files);
        return None;
    }
    let mut begun = Session::begin(alloc, files, NAME);
    let ended = match &mut begun {
        Ok((session, _)) => Some(run(alloc, session, reading, fails)),
        Err(_) => None,
    };
    mem::forget(begun);
    ended
}

/// Whether a script ends like this, with these answers, and leaves the session as it was.
fn ends(
    alloc: Global,
    reading: &mut Reading<Given>,
    end: Result<(), ScriptError>,
    answers: &[u8],
) -> bool {
    match ran(alloc, reading, 0) {
        Some(ended) => ended.is(end, answers, CLEAN),
        None => false,
    }
}

/// Whether a script that is read so often ends like this, with these answers.
fn ends_within(
    alloc: Global,
    given: Given,
    calls: u32,
    end: Result<(), ScriptError>,
    answers: &[u8],
) -> bool {
    ends(alloc, &mut Reading::within(given, calls), end, answers)
}

/// The read that gives the end counts, too.
#[test]
fn a_script_is_read_as_often_as_it_may(rt: HostRuntime) {
    let line = b"report\n";
    let lines = b"\n\n\n\n\n\n\n\n\n\n";
    let failed = Err(ScriptError::Read);
    let twice = ends_within(rt.alloc(), reader_of(line, 4096), 2, Ok(()), CLEAN);
    let once = ends_within(rt.alloc(), reader_of(line, 4096), 1, failed, CLEAN);
    let eight = ends_within(rt.alloc(), reader_of(lines, 1), 8, failed, b"");
    assert!(rt; twice && once && eight);
}

/// How many bytes four calls give, and which of them fail.
fn counts(reading: &mut Reading<Given>) -> [Option<usize>; 4] {
    let mut chunk = [0; 16];
    [
        reading.read(&mut chunk).ok(),
        reading.read(&mut chunk).ok(),
        reading.read(&mut chunk).ok(),
        reading.read(&mut chunk).ok(),
    ]
}

/// What calls give of a text of eight bytes, three a call, of which this many may be made.
fn counts_within(calls: u32) -> [Option<usize>; 4] {
    counts(&mut Reading::within(reader_of(b"$c k $.\n", 3), calls))
}

/// The fourth call gives the end of the text, if there is one.
#[test]
fn a_text_is_read_as_often_as_it_may(rt: HostRuntime) {
    let (four, three) = (counts_within(4), counts_within(3));
    assert!(rt;
        four == [Some(3), Some(3), Some(2), Some(0)] && three == [Some(3), Some(3), Some(2), None]
    );
}

/// Whether a reading gives a byte, and fails with the next call.
fn fails_next(reading: &mut Reading<Given>) -> bool {
    let mut bytes = [0; 2];
    let new = !reading.failed();
    let first = reading.read(&mut bytes).ok() == Some(1);
    let sound = !reading.failed();
    let second = reading.read(&mut bytes).is_err();
    new && first && sound && second && reading.failed()
}

/// A reading of which one call may be made fails with the second, and the reader within is not called for it.
#[test]
fn a_reading_knows_that_it_failed(rt: HostRuntime) {
    let mut reading = Reading::within(reader_of(b"ab", 1), 1);
    let failed = fails_next(&mut reading);
    let left = reading.into_inner().bytes;
    assert!(rt; failed && left == b"b".as_slice());
}

/// Whether the script, cut at a byte, is refused.
fn is_cut(alloc: Global, n: usize) -> bool
    requires { n ≤ 76 }
{
    let mut reading = Reading::new(reader_of(&SCRIPT[..n], 4096));
    ends(alloc, &mut reading, Err(ScriptError::Cut), b"")
}

/// The script, cut inside the text or right after it.
#[test]
fn a_cut_text_is_not_put_in(rt: HostRuntime) {
    for n in 18..76 {
        assert!(rt; is_cut(rt.alloc(), n), "at byte {n}");
    }
}

/// Whether the edit is done if this write fails, and the script ends well only if all is answered.
fn is_done(alloc: Global, fails: usize) -> bool {
    let mut reading = Reading::new(reader_of(SCRIPT, 4096));
    let ran = ran(alloc, &mut reading, fails);
    let done = match &ran {
        Some(ran) => ran.is_done(),
        None => false,
    };
    mem::forget(ran);
    done
}

#[test]
fn an_edit_is_done_whose_answer_is_not_written(rt: HostRuntime) {
    for fails in 1..48 {
        assert!(rt; is_done(rt.alloc(), fails), "at write {fails}");
    }
}
