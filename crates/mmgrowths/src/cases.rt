//! Databases, and the questions on them: the rows of these names under `tests/rows`, and a batch of three edits.

use mm_report::Edit;

/// A file.
#[derive(Clone, Copy)]
pub(crate) struct Text {
    pub(crate) name: &'static [u8],
    pub(crate) bytes: &'static [u8],
}

/// A database, and the questions on it.
#[derive(Clone, Copy)]
pub(crate) struct Row {
    pub(crate) name: &'static str,
    pub(crate) top: &'static [u8],
    pub(crate) texts: &'static [Text],
    /// A theorem, and an axiom, both of them sound.
    pub(crate) theorem: &'static [u8],
    pub(crate) axiom: &'static [u8],
    pub(crate) edits: &'static [Edit<'static>],
    /// Whether a session does the edits at once.
    pub(crate) is_batch: bool,
    /// The edits as a script.
    pub(crate) script: &'static [u8],
}

/// Two theorems on one rule.
const LOGIC: &[u8] =
    b"$c wff |- -> ( ) $.\n$v p q $.\nwp $f wff p $.\nwq $f wff q $.\nwi $a wff ( p -> q ) $.\n\
        ${ mi $e |- p $. ma $e |- ( p -> q ) $. mp $a |- q $. $}\n\
        ${ h1 $e |- p $. h2 $e |- ( p -> q ) $. th $p |- q $= wp wq h1 h2 mp $. $}\n\
        id $p wff ( ( p -> p ) -> ( p -> p ) ) $= ( wi ) AABZCB $.\n";

/// A proof with a number that is too large.
const FAULTY: &[u8] =
    b"$c wff |- -> ( ) $.\n$v p q $.\nwp $f wff p $.\nwq $f wff q $.\nwi $a wff ( p -> q ) $.\n\
        ${ mi $e |- p $. ma $e |- ( p -> q ) $. mp $a |- q $. $}\n\
        id $p wff ( ( p -> p ) -> ( p -> p ) ) $= ( wi ) AABCB $.\n";

/// The rule.
const RULE: &[u8] = b"${ mi $e |- p $. ma $e |- ( p -> q ) $. mp $a |- q $. $}\n";

/// The rule with its hypotheses exchanged.
const EXCHANGED: &[u8] = b"${ ma $e |- ( p -> q ) $. mi $e |- p $. mp $a |- q $. $}\n";

const COMMENTED: &[u8] = b"$( one\ntwo\nthree $)\n$c wff |- -> ( ) $.\n";

/// What the library refuses a growth of, in turn.
pub(crate) const ROWS: [Row; 6] = [
    Row {
        name: "deleted-axiom",
        top: b"a.mm",
        texts: &[Text {
            name: b"a.mm",
            bytes: LOGIC,
        }],
        theorem: b"th",
        axiom: b"mp",
        edits: &[
            Edit::Delete {
                file: b"a.mm",
                at: 5,
            },
            Edit::Insert {
                file: b"a.mm",
                at: 5,
                text: RULE,
            },
        ],
        is_batch: false,
        script: b"delete a.mm 5\nreport\ninsert a.mm 5 57\n\
            ${ mi $e |- p $. ma $e |- ( p -> q ) $. mp $a |- q $. $}\n\nreport\n",
    },
    Row {
        name: "exchanged-hypotheses",
        top: b"a.mm",
        texts: &[Text {
            name: b"a.mm",
            bytes: LOGIC,
        }],
        theorem: b"th",
        axiom: b"mp",
        edits: &[Edit::Replace {
            file: b"a.mm",
            at: 5,
            text: EXCHANGED,
        }],
        is_batch: false,
        script: b"replace a.mm 5 57\n${ ma $e |- ( p -> q ) $. mi $e |- p $. mp $a |- q $. $}\n\nreport\n",
    },
    Row {
        name: "comment-shift",
        top: b"a.mm",
        texts: &[Text {
            name: b"a.mm",
            bytes: FAULTY,
        }],
        theorem: b"id",
        axiom: b"wi",
        edits: &[Edit::Replace {
            file: b"a.mm",
            at: 0,
            text: COMMENTED,
        }],
        is_batch: false,
        script: b"replace a.mm 0 40\n$( one\ntwo\nthree $)\n$c wff |- -> ( ) $.\n\nreport\n",
    },
    Row {
        name: "constant-becomes-variable",
        top: b"k.mm",
        texts: &[Text {
            name: b"k.mm",
            bytes: b"$c wff |- $.\n$c k $.\nax $a |- k $.\nth $p |- k $= ax $.\n",
        }],
        theorem: b"th",
        axiom: b"ax",
        edits: &[
            Edit::Replace {
                file: b"k.mm",
                at: 1,
                text: b"$v k $.\n",
            },
            Edit::Insert {
                file: b"k.mm",
                at: 2,
                text: b"wk $f wff k $.\n",
            },
        ],
        is_batch: false,
        script: b"replace k.mm 1 8\n$v k $.\n\nreport\ninsert k.mm 2 15\nwk $f wff k $.\n\nreport\n",
    },
    Row {
        name: "second-inclusion",
        top: b"t.mm",
        texts: &[
            Text {
                name: b"t.mm",
                bytes: b"$[ b.mm $]\n$[ b.mm $]\n",
            },
            Text {
                name: b"b.mm",
                bytes: FAULTY,
            },
        ],
        theorem: b"id",
        axiom: b"wi",
        edits: &[Edit::Delete {
            file: b"t.mm",
            at: 0,
        }],
        is_batch: false,
        script: b"report\ndelete t.mm 0\nreport\n",
    },
    Row {
        name: "batch-of-three",
        top: b"a.mm",
        texts: &[Text {
            name: b"a.mm",
            bytes: LOGIC,
        }],
        theorem: b"th",
        axiom: b"wi",
        edits: &[
            Edit::Delete {
                file: b"a.mm",
                at: 5,
            },
            Edit::Insert {
                file: b"a.mm",
                at: 5,
                text: EXCHANGED,
            },
            Edit::Move {
                file: b"a.mm",
                at: 7,
                to: 6,
            },
        ],
        is_batch: true,
        script: b"batch 3\ndelete a.mm 5\ninsert a.mm 5 57\n\
            ${ ma $e |- ( p -> q ) $. mi $e |- p $. mp $a |- q $. $}\n\nmove a.mm 7 6\nreport\n",
    },
];
