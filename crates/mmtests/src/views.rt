//! Whether two views are the same, of theorems of two databases.

ghost use Rattle.mm_proof.specs.{mm_frame.Language.Base.{BaseView}, mm_verdict.Language.ReadIn.{IsReadIn}};

use crate::theorems::theorem;
use mm_proof::{Base, Files, Names, same_view};
use std::alloc::Global;
use std::mem;

/// Two databases that have a theorem `t`, and whether its view is the same in both.
struct Pair {
    one: &'static [u8],
    other: &'static [u8],
    same: bool,
}

/// The rule of detachment.
const RULE: &[u8] =
    b"$c wff |- -> ( ) $. $v p q $. wp $f wff p $. wq $f wff q $. wi $a wff ( p -> q ) $.
${ mi $e |- p $. ma $e |- ( p -> q ) $. mp $a |- q $. $}
${ h1 $e |- p $. h2 $e |- ( p -> q ) $. t $p |- q $= wp wq h1 h2 mp $. $}";

/// Three variables, of which two are apart in an axiom and two in a theorem.
const APART: &[u8] = b"$c wff |- $. $v x y z $. wx $f wff x $. wy $f wff y $. wz $f wff z $.
${ $d x y $. a1 $a |- x y $. $} ${ b1 $e |- x y $. b2 $a |- x $. $}
${ $d x z $. t $p |- x $= wx wz wx wz a1 b2 $. $}";

/// A proof that names a hypothesis of a block that is closed.
const INACTIVE: &[u8] =
    b"$c wff $. $v p q $. wp $f wff p $. wq $f wff q $. ${ h $e wff p $. $} t $p wff p $= h $.";

const PAIRS: &[Pair] = &[
    // Statements that it does not name, and comments, do not belong to the view.
    Pair {
        one: RULE,
        other: b"$c wff |- -> ( ) $. $c - $. $v p q r $. wr $f wff r $. wp $f wff p $. wq $f wff q $.
${ mi $e |- p $. ma $e |- ( p -> q ) $. mp $a |- q $. $}
${ h1 $e |- p $. h2 $e |- ( p -> q ) $. t $p |- q $= wp wq $( two $) h1 h2 mp $. $} wi $a wff ( p -> q ) $.",
        same: true,
    },
    // A label of a hypothesis does not, its kind and expression do.
    Pair {
        one: b"$c wff $. $v p $. wp $f wff p $. ${ e $e wff p $. t $p wff p $= wp $. $}",
        other: b"$c wff $. $v p $. wp $f wff p $. ${ f $e wff p $. t $p wff p $= wp $. $}",
        same: true,
    },
    Pair {
        one: b"$c wff $. $v p $. wp $f wff p $. ${ e $e wff p $. t $p wff p $= wp $. $}",
        other: b"$c wff $. $v p $. wp $f wff p $. t $p wff p $= wp $.",
        same: false,
    },
    // The hypotheses of an assertion have an order.
    Pair {
        one: RULE,
        other: b"$c wff |- -> ( ) $. $v p q $. wp $f wff p $. wq $f wff q $. wi $a wff ( p -> q ) $.
${ ma $e |- ( p -> q ) $. mi $e |- p $. mp $a |- q $. $}
${ h1 $e |- p $. h2 $e |- ( p -> q ) $. t $p |- q $= wp wq h1 h2 mp $. $}",
        same: false,
    },
    // The same name is a constant in the one, and a variable in the other.
    Pair {
        one: b"$c wff |- $. $c k $. ax $a |- k $. t $p |- k $= ax $.",
        other: b"$c wff |- $. $v k $. wk $f wff k $. ax $a |- k $. t $p |- k $= ax $.",
        same: false,
    },
    // Pairs have no order, and count once.
    Pair {
        one: APART,
        other: b"$c wff |- $. $v x y z $. wx $f wff x $. wy $f wff y $. wz $f wff z $.
${ $d y x $. a1 $a |- x y $. $} ${ b1 $e |- x y $. b2 $a |- x $. $}
${ $d z x $. $d x z $. t $p |- x $= wx wz wx wz a1 b2 $. $}",
        same: true,
    },
    // All active pairs belong to the view, mandatory or not.
    Pair {
        one: APART,
        other: b"$c wff |- $. $v x y z $. wx $f wff x $. wy $f wff y $. wz $f wff z $.
${ $d x y $. a1 $a |- x y $. $} ${ b1 $e |- x y $. b2 $a |- x $. $}
${ $d x y z $. t $p |- x $= wx wz wx wz a1 b2 $. $}",
        same: false,
    },
    // So do the pairs of what is cited.
    Pair {
        one: APART,
        other: b"$c wff |- $. $v x y z $. wx $f wff x $. wy $f wff y $. wz $f wff z $.
${ a1 $a |- x y $. $} ${ b1 $e |- x y $. b2 $a |- x $. $}
${ $d x z $. t $p |- x $= wx wz wx wz a1 b2 $. $}",
        same: false,
    },
    // A hypothesis that is not active is not unknown, and its expression does not count.
    Pair {
        one: INACTIVE,
        other: b"$c wff $. $v p q $. wp $f wff p $. wq $f wff q $. t $p wff p $= h $.",
        same: false,
    },
    Pair {
        one: INACTIVE,
        other: b"$c wff $. $v p q $. wp $f wff p $. wq $f wff q $. ${ h $e wff q $. $} t $p wff p $= h $.",
        same: true,
    },
    // A listed label is named, used or not.
    Pair {
        one: b"$c wff - $. $v p $. wp $f wff p $. n $a wff - p $. t $p wff p $= ( n ) A $.",
        other: b"$c wff - $. $v p $. wp $f wff p $. n $a wff - - p $. t $p wff p $= ( n ) A $.",
        same: false,
    },
    // The words of the proof count, not what they come to.
    Pair {
        one: b"$c wff $. $v p $. wp $f wff p $. t $p wff p $= wp $.",
        other: b"$c wff $. $v p $. wp $f wff p $. t $p wff p $= ( ) A $.",
        same: false,
    },
];

/// How many they are.
const COUNT: usize = PAIRS.len();

/// Whether the views of the theorems are the same or not, as it is wanted.
fn is_compared(names: &Names, files: &Files, one: &Base, other: &Base, same: bool) -> bool
    requires one { (view : BaseView) × IsReadIn names.now files.now one.now view }
    requires other { (view : BaseView) × IsReadIn names.now files.now other.now view }
{
    match (theorem(one, b"t"), theorem(other, b"t")) {
        (Some(i), Some(j)) => same_view(names, files, one, i, other, j) == same,
        _ => false,
    }
}

/// Whether it holds of a pair. What it makes is not taken apart.
fn holds(alloc: Global, pair: &Pair) -> bool {
    let mut files = Files::new(alloc);
    let added = files.add(b"one", pair.one).is_ok() && files.add(b"other", pair.other).is_ok();
    let mut names = Names::new(alloc);
    let one = Base::build(alloc, &mut names, &files, b"one");
    let other = Base::build(alloc, &mut names, &files, b"other");
    let holds = match (&one, &other) {
        (Ok(one), Ok(other)) => is_compared(&names, &files, one, other, pair.same),
        _ => false,
    };
    mem::forget(other);
    mem::forget(one);
    mem::forget(names);
    mem::forget(files);
    added && holds
}

/// How many pairs it holds of, before the first of which it does not.
fn right(alloc: Global, pairs: &[Pair]) -> usize {
    for (n, pair) in pairs.iter().enumerate() {
        if !holds(alloc, pair) {
            return n;
        }
    }
    pairs.len()
}

#[test]
fn views_are_compared(rt: HostRuntime) {
    let right = right(rt.alloc(), PAIRS);
    assert!(rt; right == COUNT, "pair {right}");
}
