//! What the items of files mean, from a top file on.

ghost use Rattle.std.specs.{Prelude.{All, true, false, ◌≡◌, ◌<◌, ◌≤◌, ◌↔◌, ◌&&◌, is_some, Some, None, List, length, ℕ, IfSome, slice_get}, Option.{option_map}};
ghost use Rattle.mm_statement.specs.Language.{Item.{is_labelled}, Statement.{kind_of}};
ghost use Rattle.mm_machine.specs.Language.{Frame.{AreSamePairs}, NumberedSymbols.{symbols_of, kept_pairs, AreInOrder, IsNumbered, IsPairNumbered, ArePairsRead}};
ghost use Rattle.mm_frame.specs.Language.Framing.{active_pairs, expression, mandatory_numbers, resolve};
ghost use Rattle.mm_frame.specs.Language.Base.{BaseView, AreHypotheses, ShareMandatory, before, said_at, fault_at, expression_at, frame_at, is_proof_at, is_framed_at, is_shown_at, is_sound_at};
ghost use Rattle.mm_frame.specs.{Language.{Answering.{HasNumber, IsBase, IsBaseBy, pairs_in_order}, Resolving.{IsCarrier, IsMeaning, IsUpTo, Resolves}}, Code.KeptLists.{item_list}};
ghost use Rattle.mm_frame.specs.Code.KeptBase.{hypotheses_at};
ghost use Rattle.mm_statement.specs.Language.Item as meant;
ghost use Rattle.mm_frame.specs.declared.base.Resolved.TheVariants as answers;

use crate::frame::Frame;
use crate::judge::FrameFault;
use crate::parts::BaseParts;
use crate::shared::element_at;
use mm_machine::NumberedSymbol;
use mm_store::{Item, ItemKind};
use std::marker::Model;

/// The items of files from a top file on, which of them are sound, and the frames of the assertions.
///
/// Items are numbered from 0 in order. To ask a base takes no memory, and constant time; a label is looked
/// up by hash. What a base keeps stands for the items of the files and what they say.
#[derive(Drop)]
pub struct Base {
    pub(crate) items: Vec<Item>,
    pub(crate) parts: BaseParts,
}

impl Model for Base {
    ghost use Rattle.mm_frame.specs.Language.Answering.{BaseAnswers};

    ghost Value = { BaseAnswers };

    ghost use Rattle.mm_frame.specs.Code.BaseInside.{answers_of, KnowsItems};

    ghost view = { answers_of };

    ghost invariant = { KnowsItems };
}

/// Whether items of this kind are `$f`.
fn is_float(kind: ItemKind) -> bool
    ensures { result ≡ meant.is_kind meant.Floating (kind_of kind) }
{
    matches!(kind, ItemKind::Floating)
}

/// What a label means at an item.
#[derive(Clone, Copy, Debug, PartialEq, Eq)]
pub enum Resolved {
    /// The label of the active hypothesis with this number.
    Hypothesis(usize),
    /// The label of the sound assertion with this number.
    Assertion(usize),
    /// The label of a hypothesis that is not active there.
    Inactive,
    /// No label of a sound statement before it.
    Unknown,
}

impl Base {
    /// Whether the item with this number is a sound `$f`, `$e`, `$a` or `$p`.
    fn is_shown(&self, i: usize) -> bool
        ensures { (base : BaseView) → IsBase base self.now → result ≡ (is_sound_at base i && is_labelled (said_at base i).kind) }
    {
        self.parts.rows.is_shown(i)
    }

    /// The symbols that are kept of the item with this number: none if none are kept.
    fn symbols(&self, i: usize) -> &[NumberedSymbol]
        ensures { result.now ≡ item_list self.now.expressions i }
    {
        self.parts.expressions.at(i)
    }

    /// Whether the item with this number is a `$f`.
    pub fn is_floating(&self, i: usize) -> bool
        ensures { (base : BaseView) → IsBase base self.now → result ≡ meant.is_kind meant.Floating (said_at base i).kind }
    {
        match element_at(&self.items, i) {
            Some(item) => is_float(item.kind),
            None => false,
        }
    }

    /// How many items there are: at most 4,294,967,295.
    pub fn count(&self) -> usize
        ensures count { (base : BaseView) → IsBase base self.now → result ≡ length base }
        ensures few { (base : BaseView) → IsBase base self.now → result ≤ 4294967295 }
    {
        self.parts.rows.count()
    }

    /// The item of the files with this number.
    pub fn item(&self, i: usize) -> &Item
        requires { (base : BaseView) × IsBase base self.now × (i < length base) }
        ensures found { slice_get self.now.items i ≡ Some result.now }
        ensures kind { (base : BaseView) → IsBase base self.now → kind_of result.now.kind ≡ (said_at base i).kind }
    {
        &self.items[i]
    }

    /// The label of the item with this number: of a `$f`, `$e`, `$a` or `$p`, be it sound or not.
    pub fn label(&self, i: usize) -> Option<&[u8]>
        ensures { (base : BaseView) → IsBase base self.now → option_map (λ label. label.now) result ≡ (said_at base i).label }
    {
        self.parts.rows.label(i)
    }

    /// The fault of the item with this number, if it has one. A missing inclusion has F14 at its word 1, the name.
    pub fn fault(&self, i: usize) -> Option<FrameFault>
        ensures { (base : BaseView) → IsBase base self.now → option_map (λ f. (f.word, f.number)) result ≡ fault_at base i }
    {
        self.parts.rows.fault(i)
    }

    /// The expression of the item with this number, if it is a sound `$f`, `$e`, `$a` or `$p`.
    pub fn expression(&self, i: usize) -> Option<&[NumberedSymbol]>
        ensures symbols { (names : List (List ℕ)) (base : BaseView) → IsBaseBy names base self.now
            → option_map (λ e. symbols_of names e.now) result ≡ expression_at base i }
        ensures numbered { (names : List (List ℕ)) (base : BaseView) → IsBaseBy names base self.now
            → IfSome result (λ e. All (IsNumbered names) e.now) }
    {
        if self.is_shown(i) {
            Some(self.symbols(i))
        } else {
            None
        }
    }

    /// The symbols that are kept of the item with this number, if it has no fault: those of a `$f`, `$e`, `$a`, `$p` or `$d`.
    pub(crate) fn sound_symbols(&self, i: usize) -> Option<&[NumberedSymbol]>
        ensures sound { (base : BaseView) → IsBase base self.now → is_some result ≡ is_sound_at base i }
        ensures symbols { (names : List (List ℕ)) (base : BaseView) → IsBaseBy names base self.now → meant.is_read (said_at base i).kind ≡ true
            → IfSome result (λ e. symbols_of names e.now ≡ expression (before base i) (said_at base i)) }
        ensures numbered { (names : List (List ℕ)) (base : BaseView) → IsBaseBy names base self.now
            → IfSome result (λ e. All (IsNumbered names) e.now) }
    {
        if self.fault(i).is_some() {
            return None;
        }
        let symbols = self.symbols(i);
        Some(symbols)
    }

    /// The expression of the item with this number, which is known to be a sound `$f`, `$e`, `$a` or `$p`: no look is taken
    /// whether it is.
    pub fn known_expression(&self, i: usize) -> &[NumberedSymbol]
        ensures symbols { (names : List (List ℕ)) (base : BaseView) → IsBaseBy names base self.now → is_shown_at base i ≡ true
            → symbols_of names result.now ≡ expression (before base i) (said_at base i) }
        ensures numbered { (names : List (List ℕ)) (base : BaseView) → IsBaseBy names base self.now → All (IsNumbered names) result.now }
    {
        self.symbols(i)
    }

    /// The frame that is kept of the item with this number, if one is kept; its pairs are in the order of its `$f`.
    pub(crate) fn kept_frame(&self, i: usize) -> Option<&Frame>
        ensures numbers { (base : BaseView) → IsBase base self.now → option_map (λ frame. frame.now.hypotheses.items) result ≡ hypotheses_at base i }
        ensures order { (names : List (List ℕ)) (base : BaseView) → IsBaseBy names base self.now →
            IfSome result (λ frame. ArePairsRead names (pairs_in_order (frame_at base i)) frame.now.pairs.items) }
    {
        self.parts.frames.at(i)
    }

    /// The frame of the item with this number, if it is a sound `$a` or `$p`: its mandatory hypotheses, and its pairs in the
    /// order of its `$f`, each once.
    pub fn frame(&self, i: usize) -> Option<&Frame>
        ensures some { (base : BaseView) → IsBase base self.now → is_some result ≡ is_framed_at base i }
        ensures means { (base : BaseView) → IsBase base self.now → IfSome result (λ frame. AreHypotheses base i frame.now.hypotheses.items) }
        ensures numbers { (base : BaseView) → IsBase base self.now
            → IfSome result (λ frame. frame.now.hypotheses.items ≡ mandatory_numbers (before base i) (said_at base i)) }
        ensures pairs { (names : List (List ℕ)) (base : BaseView) → IsBaseBy names base self.now
            → IfSome result (λ frame. AreSamePairs (kept_pairs names frame.now.pairs.items) (frame_at base i).pairs) }
        ensures numbered { (names : List (List ℕ)) (base : BaseView) → IsBaseBy names base self.now
            → IfSome result (λ frame. All (IsPairNumbered names) frame.now.pairs.items) }
        ensures order { (names : List (List ℕ)) (base : BaseView) → IsBaseBy names base self.now
            → IfSome result (λ frame. ArePairsRead names (pairs_in_order (frame_at base i)) frame.now.pairs.items) }
    {
        self.kept_frame(i)
    }

    /// Whether the item with this number is a sound `$a` or `$p`. Its frame is not looked at.
    fn is_framed(&self, i: usize) -> bool
        ensures { (base : BaseView) → IsBase base self.now → result ≡ is_framed_at base i }
    {
        self.frame_number(i).is_some()
    }

    /// All active pairs at the item with this number, if it is a sound `$p`: its own and those of its scope,
    /// mandatory or not. They are sorted by the numbers of the names, the lower one first, and each is there once.
    pub fn pairs(&self, i: usize) -> Option<&[(NumberedSymbol, NumberedSymbol)]>
        ensures some { (base : BaseView) → IsBase base self.now → is_some result ≡ is_proof_at base i }
        ensures pairs { (names : List (List ℕ)) (base : BaseView) → IsBaseBy names base self.now
            → IfSome result (λ pairs. AreSamePairs (kept_pairs names pairs.now) (active_pairs (before base i))) }
        ensures numbered { (names : List (List ℕ)) (base : BaseView) → IsBaseBy names base self.now
            → IfSome result (λ pairs. All (IsPairNumbered names) pairs.now) }
        ensures order { (base : BaseView) → IsBase base self.now → IfSome result (λ pairs. AreInOrder pairs.now) }
    {
        match self.parts.pair_numbers.at(i) {
            Some(k) => Some(self.parts.pair_lists.list(k)),
            None => None,
        }
    }

    /// The number of the frame of the item with this number, if it is a sound `$a` or `$p`. Those that have one number have the
    /// same mandatory hypotheses and pairs; others may have the same, too.
    pub fn frame_number(&self, i: usize) -> Option<usize>
        ensures some { (base : BaseView) → IsBase base self.now → is_some result ≡ is_framed_at base i }
        ensures number { IfSome result (HasNumber self.now.frame_numbers i) }
        ensures same { (base : BaseView) → IsBase base self.now
            → IfSome result (λ number. (j : ℕ) → HasNumber self.now.frame_numbers j number → ShareMandatory base base i j) }
    {
        self.parts.frames.place(i)
    }

    /// The number of the list of active pairs of the item with this number, if it is a sound `$p`. Those that have one number
    /// have the same active pairs; others may have the same, too.
    pub fn list_number(&self, i: usize) -> Option<usize>
        ensures some { (base : BaseView) → IsBase base self.now → is_some result ≡ is_proof_at base i }
        ensures number { IfSome result (HasNumber self.now.list_numbers i) }
        ensures same { (base : BaseView) → IsBase base self.now
            → IfSome result (λ number. (j : ℕ) → HasNumber self.now.list_numbers j number
            → AreSamePairs (active_pairs (before base i)) (active_pairs (before base j))) }
    {
        self.parts.pair_numbers.at(i)
    }

    /// The number of the sound item that has a label, if one has it, active or not.
    pub fn find(&self, label: &[u8]) -> Option<usize>
        ensures { (base : BaseView) (j : ℕ) → IsBase base self.now → (result ≡ Some j) ↔ IsCarrier base label.now j }
    {
        self.parts.tables.label(label)
    }

    /// What the label of the sound item `j` means at the item `i`.
    pub fn meaning(&self, j: usize, i: usize) -> Resolved
        ensures { (base : BaseView) (label : List ℕ) → IsBase base self.now → IsCarrier base label j → Resolves base i label result }
    {
        if j >= i {
            Resolved::Unknown
        } else if self.is_framed(j) {
            Resolved::Assertion(j)
        } else if self.parts.blocks.is_active_at(j, i) {
            Resolved::Hypothesis(j)
        } else {
            Resolved::Inactive
        }
    }

    /// What the label of the sound assertion `j` means at the item `i`. Nothing is looked at for it.
    pub fn assertion_meaning(&self, j: usize, i: usize) -> Resolved
        ensures { (base : BaseView) (label : List ℕ) → IsBase base self.now → IsCarrier base label j → is_framed_at base j ≡ true
            → Resolves base i label result }
    {
        if j < i {
            Resolved::Assertion(j)
        } else {
            Resolved::Unknown
        }
    }

    /// The first item after the sound hypothesis `j` at which this is active no longer: at the items between the two its
    /// label means it, and from there on a hypothesis that is not active. `None` if it stays active up to the last item.
    pub fn active_until(&self, j: usize) -> Option<usize>
        ensures active { (base : BaseView) (label : List ℕ) (i : ℕ) → IsBase base self.now → IsCarrier base label j → is_framed_at base j ≡ false
            → j < i → IsUpTo i result → Resolves base i label (answers.Hypothesis j) }
        ensures ended { (base : BaseView) (label : List ℕ) (i : ℕ) → IsBase base self.now → IsCarrier base label j → is_framed_at base j ≡ false
            → j < i → (IsUpTo i result → ⊥) → Resolves base i label answers.Inactive }
    {
        self.parts.blocks.active_until(j)
    }

    /// What a label means at the item with this number, by the sound statements before that item alone: a label that
    /// none of them has is unknown there, also the item's own.
    pub fn resolve(&self, label: &[u8], i: usize) -> Resolved
        ensures { (base : BaseView) → IsBase base self.now → IsMeaning base i label.now result (resolve (before base i) label.now) }
    {
        match self.find(label) {
            Some(j) => self.meaning(j, i),
            None => Resolved::Unknown,
        }
    }
}
