//! A text read from its beginning, run by run and word by word.

ghost use Rattle.std.specs.Prelude.{◌≤◌, length};

use crate::fault::{TextFault, TextNumber};
use crate::skipping::dollarless_len;
use crate::spelling::{
    has_mark, is_closing, is_opening, keyword_run, kind, plain_run_len, run_len, white_len,
};
use crate::word::{Word, WordKind};

/// The bytes of a text from `start` to `end`, without white space.
#[derive(Clone, Copy)]
pub struct Span {
    pub start: usize,
    pub end: usize,
}

/// A text that was read up to the byte `from`.
#[derive(Clone, Copy)]
pub struct Reader<'a> {
    text: &'a [u8],
    from: usize,
    ghost in_text: { from ≤ length text.now },
}

impl<'a> Reader<'a> {
    ghost use Rattle.std.specs.Prelude.{◌≡◌, [], IfNone, IfOk};
    ghost use Rattle.mm_text.specs.Code.Reader.{TakesRun, EndsComment, GivesWord, SkipsPlain, runs_at};

    /// A reader at the beginning of a text.
    pub fn new(text: &'a [u8]) -> Self
        ensures text { result.text.now ≡ text.now }
        ensures from { result.from ≡ 0 }
    {
        Reader { text, from: 0 }
    }

    /// Goes on to the next run with a `$`, or to the end, over runs without one.
    pub fn skip_plain(&mut self)
        ensures text { self.new.text.now ≡ self.old.text.now }
        ensures forward { self.old.from ≤ self.new.from }
        ensures skips { SkipsPlain self.old.text.now self.old.from self.new.from }
    {
        self.from += dollarless_len(&self.text[self.from..]);
    }

    /// The next longest sequence of bytes without white space, or `None` at the end of the text.
    #[inline(always)]
    fn next_run(&mut self) -> Option<Span>
        ensures text { self.new.text.now ≡ self.old.text.now }
        ensures forward { self.old.from ≤ self.new.from }
        ensures run { TakesRun self.old.text.now self.old.from result self.new.from }
        ensures stays { IfNone result (self.new.from ≡ self.old.from) }
    {
        let start = self.from + white_len(&self.text[self.from..]);
        let len = run_len(&self.text[start..]);
        if len == 0 {
            return None;
        }
        self.from = start + len;
        Some(Span {
            start,
            end: start + len,
        })
    }

    /// Reads on to the end of the comment that began at `start`.
    fn skip_comment(&mut self, start: usize) -> Result<(), TextFault>
        ensures text { self.new.text.now ≡ self.old.text.now }
        ensures forward { self.old.from ≤ self.new.from }
        ensures end { EndsComment self.old.text.now self.old.from start result self.new.from }
    {
        self.skip_plain();
        while let Some(span) = self.next_run() {
            let bytes = &self.text[span.start..span.end];
            if is_closing(bytes) {
                return Ok(());
            }
            if has_mark(bytes) {
                return Err(TextFault {
                    number: TextNumber::T03,
                    at: span.start,
                });
            }
            self.skip_plain();
        }
        Err(TextFault {
            number: TextNumber::T02,
            at: start,
        })
    }

    /// The next word outside comments, or `None` if there is none before the end of the text. Most words have no `$`,
    /// and are found at once.
    #[inline(always)]
    pub fn next_word(&mut self) -> Result<Option<Word>, TextFault>
        ensures text { self.new.text.now ≡ self.old.text.now }
        ensures word { GivesWord self.old.text.now self.old.from result self.new.from }
        ensures end { IfOk result (λ word. IfNone word (runs_at self.new.text.now self.new.from ≡ [])) }
    {
        let start = self.from + white_len(&self.text[self.from..]);
        let len = plain_run_len(&self.text[start..]);
        if len == 0 {
            return self.other_word(start);
        }
        self.from = start + len;
        Ok(Some(Word {
            kind: WordKind::Plain,
            start,
            end: start + len,
        }))
    }

    /// The next word outside comments, with only white space before `start`. A keyword at `start` is found at once.
    fn other_word(&mut self, start: usize) -> Result<Option<Word>, TextFault>
        requires within { start ≤ length self.old.text.now }
        requires forward { self.old.from ≤ start }
        requires white { runs_at self.old.text.now self.old.from ≡ runs_at self.old.text.now start }
        ensures text { self.new.text.now ≡ self.old.text.now }
        ensures word { GivesWord self.old.text.now self.old.from result self.new.from }
        ensures end { IfOk result (λ word. IfNone word (runs_at self.new.text.now self.new.from ≡ [])) }
    {
        let Some(keyword) = keyword_run(&self.text[start..]) else {
            return self.any_word();
        };
        self.from = start + 2;
        Ok(Some(Word {
            kind: WordKind::Keyword(keyword),
            start,
            end: start + 2,
        }))
    }

    /// The next word outside comments, whatever is before it.
    fn any_word(&mut self) -> Result<Option<Word>, TextFault>
        ensures text { self.new.text.now ≡ self.old.text.now }
        ensures word { GivesWord self.old.text.now self.old.from result self.new.from }
        ensures end { IfOk result (λ word. IfNone word (runs_at self.new.text.now self.new.from ≡ [])) }
    {
        while let Some(span) = self.next_run() {
            let bytes = &self.text[span.start..span.end];
            if is_opening(bytes) {
                self.skip_comment(span.start)?;
                continue;
            }
            if is_closing(bytes) {
                return Err(TextFault {
                    number: TextNumber::T04,
                    at: span.start,
                });
            }
            return match kind(bytes) {
                Some(kind) => Ok(Some(Word {
                    kind,
                    start: span.start,
                    end: span.end,
                })),
                None => Err(TextFault {
                    number: TextNumber::T05,
                    at: span.start,
                }),
            };
        }
        Ok(None)
    }
}
