//! What calls answer of small databases: the verdict of a check, the words that cite, the run and its steps.

ghost use Rattle.mm_verdict.specs.{mm_frame.Language.Base.{BaseView}, Language.ReadIn.{IsReadIn}};

use crate::machines::agrees;
use crate::theorems::theorem;
use mm_machine::{ProofNumber, Spot, Verdict};
use mm_proof::StoreError;
use mm_verdict::{Base, Checked, Files, Names, Work, check};
use std::alloc::{AllocError, Global};
use std::mem;

/// A database in two parts, the label of a theorem of it with the number of its item, and what a check of its proof says:
/// the verdict, the words that cite, and how many steps are done. Between the parts are ways to say the same, if there are
/// any, and a theorem whose proof begins with their labels.
struct Case {
    front: Front,
    ways: usize,
    rest: &'static [u8],
    label: &'static [u8],
    item: usize,
    verdict: Verdict,
    cites: &'static [usize],
    steps: u64,
}

/// What databases begin with. The text is not in the case: so no text is there more than once.
#[derive(Clone, Copy)]
enum Front {
    Formulas,
    Detachment,
    Apart,
    Ways,
    Demo,
    Empty,
}

/// A few formulas.
const FORMULAS: &[u8] =
    b"$c wff |- -> ( ) $.\n$v p q $.\nwp $f wff p $.\nwq $f wff q $.\nwi $a wff ( p -> q ) $.\n";

/// The same, and the rule of detachment.
const DETACHMENT: &[u8] =
    b"$c wff |- -> ( ) $.\n$v p q $.\nwp $f wff p $.\nwq $f wff q $.\nwi $a wff ( p -> q ) $.\n${ mi $e |- p $. ma $e |- ( p -> q ) $. mp $a |- q $. $}\n";

/// A database with a pair of a theorem that is not mandatory for it.
const APART: &[u8] =
    b"$c wff |- $. $v x y z $. wx $f wff x $. wy $f wff y $. wz $f wff z $. ${ $d x y $. a1 $a |- x y $. $} ${ b1 $e |- x y $. b2 $a |- x $. $}\n";

/// A variable; ways to say the same of it come after it.
const WAYS: &[u8] = b"$c wff $. $v p $. wp $f wff p $.\n";

/// The demonstration database of the Metamath book, without its theorem.
const DEMO: &[u8] = b"$c 0 + = -> ( ) term wff |- $.
$v t r s P Q $.
tt $f term t $. tr $f term r $. ts $f term s $. wp $f wff P $. wq $f wff Q $.
tze $a term 0 $. tpl $a term ( t + r ) $. weq $a wff t = r $. wim $a wff ( P -> Q ) $.
a1 $a |- ( t = r -> ( t = s -> r = s ) ) $. a2 $a |- ( t + 0 ) = t $.
${ min $e |- P $. maj $e |- ( P -> Q ) $. mp $a |- Q $. $}
";

/// A variable that may stand for no symbols.
const EMPTY: &[u8] = b"$c |- S $.\n$v x $.\nsx $f S x $.\ne $a S $.\nax $a |- x $.\n";

/// The text that a database begins with.
fn text_of(front: Front) -> &'static [u8] {
    match front {
        Front::Formulas => FORMULAS,
        Front::Detachment => DETACHMENT,
        Front::Apart => APART,
        Front::Ways => WAYS,
        Front::Demo => DEMO,
        Front::Empty => EMPTY,
    }
}

/// What labels of ways are spelled with.
const LETTERS: &[u8; 16] = b"abcdefghijklmnop";

/// Proofs, with what a check of each says.
const CASES: &[Case] = &[
    Case {
        front: Front::Detachment,
        ways: 0,
        rest: b"${ h1 $e |- p $. h2 $e |- ( p -> q ) $. th $p |- q $= wp wq h1 h2 mp $. $}",
        label: b"th",
        item: 13,
        verdict: Verdict::Proved,
        cites: &[4],
        steps: 5,
    },
    Case {
        front: Front::Detachment,
        ways: 0,
        rest: b"id $p wff ( ( p -> p ) -> ( p -> p ) ) $= ( wi ) AABZCB $.",
        label: b"id",
        item: 10,
        verdict: Verdict::Proved,
        cites: &[1],
        steps: 6,
    },
    Case {
        front: Front::Detachment,
        ways: 0,
        rest: b"id $p wff ( ( p -> p ) -> ( p -> p ) ) $= ( wi ) AABCB $.",
        label: b"id",
        item: 10,
        verdict: Verdict::Wrong(ProofNumber::P06, Spot { word: 3, letter: 3 }),
        cites: &[],
        steps: 0,
    },
    Case {
        front: Front::Detachment,
        ways: 0,
        rest: b"id $p wff ( ( p -> p ) -> ( p -> p ) ) $= ( wi ) B? $.",
        label: b"id",
        item: 10,
        verdict: Verdict::Wrong(ProofNumber::P07, Spot { word: 3, letter: 0 }),
        cites: &[1],
        steps: 1,
    },
    Case {
        front: Front::Detachment,
        ways: 0,
        rest: b"id $p wff ( ( p -> p ) -> ( p -> p ) ) $= ( wi ) AAB?B $.",
        label: b"id",
        item: 10,
        verdict: Verdict::Incomplete(Spot { word: 3, letter: 3 }),
        cites: &[1],
        steps: 3,
    },
    Case {
        front: Front::Formulas,
        ways: 0,
        rest: b"t7 $p wff p $= $.",
        label: b"t7",
        item: 5,
        verdict: Verdict::Wrong(ProofNumber::P14, Spot { word: 0, letter: 0 }),
        cites: &[],
        steps: 0,
    },
    Case {
        front: Front::Formulas,
        ways: 0,
        rest: b"t7 $p wff p $= wq $.",
        label: b"t7",
        item: 5,
        verdict: Verdict::Wrong(ProofNumber::P15, Spot { word: 1, letter: 0 }),
        cites: &[],
        steps: 1,
    },
    Case {
        front: Front::Formulas,
        ways: 0,
        rest: b"t $p wff p $= ( wi ) AABZCBZDBZEBZFBZGBZHBZIBZJBZKBZLBZMBZNBZOBZPBZQBZRBZSBZTBZUABZUBBZUCB $.",
        label: b"t",
        item: 5,
        verdict: Verdict::Wrong(
            ProofNumber::P12,
            Spot {
                word: 3,
                letter: 53,
            },
        ),
        cites: &[1],
        steps: 54,
    },
    Case {
        front: Front::Ways,
        ways: 20,
        rest: b") AUA $.",
        label: b"t",
        item: 23,
        verdict: Verdict::Proved,
        cites: &[20],
        steps: 2,
    },
    Case {
        front: Front::Apart,
        ways: 0,
        rest: b"${ $d x z $. t $p |- x $= wx wz wx wz a1 b2 $. $}",
        label: b"t",
        item: 15,
        verdict: Verdict::Proved,
        cites: &[4, 5],
        steps: 6,
    },
    Case {
        front: Front::Apart,
        ways: 0,
        rest: b"t $p |- x $= wx wz wx wz a1 b2 $.",
        label: b"t",
        item: 13,
        verdict: Verdict::Wrong(ProofNumber::P11, Spot { word: 4, letter: 0 }),
        cites: &[4, 5],
        steps: 5,
    },
    Case {
        front: Front::Apart,
        ways: 0,
        rest: b"${ $d z x $. t $p |- x $= wx wx wx wx a1 b2 $. $}",
        label: b"t",
        item: 15,
        verdict: Verdict::Wrong(ProofNumber::P10, Spot { word: 4, letter: 0 }),
        cites: &[4, 5],
        steps: 5,
    },
    Case {
        front: Front::Demo,
        ways: 0,
        rest: b"th1 $p |- t = t $=
tt tze tpl tt weq tt tt weq tt a2 tt tze tpl
tt weq tt tze tpl tt weq tt tt weq wim tt a2
tt tze tpl tt tt a1 mp mp
$.",
        label: b"th1",
        item: 18,
        verdict: Verdict::Proved,
        cites: &[1, 2, 4, 9, 23, 31, 32],
        steps: 34,
    },
    Case {
        front: Front::Detachment,
        ways: 0,
        rest: b"${ h1 $e |- p $. h2 $e |- ( p -> q ) $. th $p |- q $= ( mp ) ABCDE $. $}",
        label: b"th",
        item: 13,
        verdict: Verdict::Proved,
        cites: &[1],
        steps: 5,
    },
    Case {
        front: Front::Detachment,
        ways: 0,
        rest: b"id $p wff ( ( p -> p ) -> ( p -> p ) ) $= ( wi ) AAB ZC B $.",
        label: b"id",
        item: 10,
        verdict: Verdict::Proved,
        cites: &[1],
        steps: 6,
    },
    Case {
        front: Front::Detachment,
        ways: 0,
        rest: b"id $p wff ( ( p -> p ) -> ( p -> p ) ) $= ( wi ) AABU $.",
        label: b"id",
        item: 10,
        verdict: Verdict::Wrong(ProofNumber::P05, Spot { word: 4, letter: 0 }),
        cites: &[],
        steps: 0,
    },
    Case {
        front: Front::Detachment,
        ways: 0,
        rest: b"id $p wff ( ( p -> p ) -> ( p -> p ) ) $= ( wi ) ZA $.",
        label: b"id",
        item: 10,
        verdict: Verdict::Wrong(ProofNumber::P13, Spot { word: 3, letter: 0 }),
        cites: &[],
        steps: 1,
    },
    Case {
        front: Front::Detachment,
        ways: 0,
        rest: b"id $p wff ( ( p -> p ) -> ( p -> p ) ) $= ( wi ) AABa $.",
        label: b"id",
        item: 10,
        verdict: Verdict::Wrong(ProofNumber::P04, Spot { word: 3, letter: 3 }),
        cites: &[],
        steps: 0,
    },
    Case {
        front: Front::Detachment,
        ways: 0,
        rest: b"t7 $p wff p $= ? $.",
        label: b"t7",
        item: 10,
        verdict: Verdict::Incomplete(Spot { word: 0, letter: 0 }),
        cites: &[],
        steps: 0,
    },
    Case {
        front: Front::Detachment,
        ways: 0,
        rest: b"t7 $p wff p $= ? nolabel $.",
        label: b"t7",
        item: 10,
        verdict: Verdict::Wrong(ProofNumber::P01, Spot { word: 1, letter: 0 }),
        cites: &[],
        steps: 0,
    },
    Case {
        front: Front::Detachment,
        ways: 0,
        rest: b"t7 $p wff p $= wp wp $.",
        label: b"t7",
        item: 10,
        verdict: Verdict::Wrong(ProofNumber::P14, Spot { word: 2, letter: 0 }),
        cites: &[],
        steps: 2,
    },
    Case {
        front: Front::Detachment,
        ways: 0,
        rest: b"t $p wff p $= ( wi ) A $.",
        label: b"t",
        item: 10,
        verdict: Verdict::Proved,
        cites: &[],
        steps: 1,
    },
    Case {
        front: Front::Empty,
        ways: 0,
        rest: b"t $p |- $= e ax $.",
        label: b"t",
        item: 5,
        verdict: Verdict::Proved,
        cites: &[0, 1],
        steps: 2,
    },
    Case {
        front: Front::Detachment,
        ways: 0,
        rest: b"sw $p wff ( q -> p ) $= wq wp wi $.",
        label: b"sw",
        item: 10,
        verdict: Verdict::Proved,
        cites: &[2],
        steps: 3,
    },
    Case {
        front: Front::Ways,
        ways: 120,
        rest: b") AUUA $.",
        label: b"t",
        item: 123,
        verdict: Verdict::Proved,
        cites: &[120],
        steps: 2,
    },
    Case {
        front: Front::Ways,
        ways: 120,
        rest: b") AUUB $.",
        label: b"t",
        item: 123,
        verdict: Verdict::Wrong(
            ProofNumber::P06,
            Spot {
                word: 122,
                letter: 3,
            },
        ),
        cites: &[],
        steps: 0,
    },
];

/// How many they are.
const COUNT: usize = CASES.len();

/// Writes as many labels, each of two bytes and with a text after it.
fn write_labels(text: &mut Vec<u8>, count: usize, after: &[u8]) -> Result<(), AllocError> {
    for n in 0..count {
        text.extend_from_slice(&[LETTERS[n / 16 % 16], LETTERS[n % 16]])?;
        text.extend_from_slice(after)?;
    }
    Ok(())
}

/// Writes what stands between the parts of a case.
fn write_ways(text: &mut Vec<u8>, count: usize) -> Result<(), AllocError> {
    if count != 0 {
        write_labels(&mut *text, count, b" $a wff p $.\n")?;
        text.extend_from_slice(b"t $p wff p $= ( ")?;
        write_labels(&mut *text, count, b" ")?;
    }
    Ok(())
}

/// Adds the database of a case.
fn add(alloc: Global, files: &mut Files, case: &Case) -> Result<(), StoreError> {
    let mut text = Vec::from_slice(alloc, text_of(case.front))?;
    write_ways(&mut text, case.ways)?;
    text.extend_from_slice(case.rest)?;
    files.add(b"a.mm", &text)
}

/// Whether a check says this, and the record of the one run says so too.
fn is_told(checked: &Checked, work: &Work, case: &Case) -> bool {
    checked.verdict() == case.verdict
        && checked.cites() == case.cites
        && work.runs() == [case.item].as_slice()
        && work.steps() == case.steps
        && work.room() == 1
}

/// Whether the check of a case says what it has to, and a run over names comes to the same as one over numbers.
fn is_checked(
    alloc: Global,
    names: &Names,
    files: &Files,
    base: &Base,
    case: &Case,
) -> Result<bool, AllocError>
    requires { (view : BaseView) × IsReadIn names.now files.now base.now view }
{
    let Some(i) = theorem(base, case.label) else {
        return Ok(false);
    };
    let mut work = Work::new(alloc, 2)?;
    let checked = check(alloc, names, files, base, i, &mut work);
    let told = match &checked {
        Ok(checked) => is_told(checked, &work, case),
        Err(_) => false,
    };
    mem::forget(checked);
    mem::forget(work);
    Ok(told && agrees(alloc, names, files, base, i))
}

/// Whether it holds of a case. What it makes is not taken apart.
fn holds(alloc: Global, case: &Case) -> bool {
    let mut files = Files::new(alloc);
    let added = add(alloc, &mut files, case).is_ok();
    let mut names = Names::new(alloc);
    let base = Base::build(alloc, &mut names, &files, b"a.mm");
    let holds = match &base {
        Ok(base) => is_checked(alloc, &names, &files, base, case) == Ok(true),
        Err(_) => false,
    };
    mem::forget(base);
    mem::forget(names);
    mem::forget(files);
    added && holds
}

/// How many cases it holds of, before the first of which it does not.
fn right(alloc: Global, cases: &[Case]) -> usize {
    for (n, case) in cases.iter().enumerate() {
        if !holds(alloc, case) {
            return n;
        }
    }
    cases.len()
}

#[test]
fn proofs_are_checked_by_numbers_and_by_names(rt: HostRuntime) {
    let right = right(rt.alloc(), CASES);
    assert!(rt; right == COUNT, "case {right}");
}
