//! What holds of every text. Each function does nothing; what it promises is the law.

ghost use Rattle.std.specs.{Prelude.{◌≡◌, ◌<◌, ◌⊎◌, ℕ, true, All, List, [], ◌∷◌, length, map, slice_range}, List.{AllByRecursion, flat_map}};
ghost use Rattle.mm_text.specs.{declared.{word.Word.{Word}, fault.{TextFault.{TextFault}, TextNumber.{TextNumber}}}, Language.{Run.{Run, runs}, Layout.{IsLaidOut}, Reading.{HasWords, IsWordsFault}}};
ghost use Rattle.mm_text.specs.Language.{Cut.{HoldsOneUnit, IsCut, IsFirstFault, end_of_words, ended}, Part.{HasUnits, part_bytes, parts_of, shape_part, token_end, IsReadable}, Stretch.{IsStretch, moved}};
ghost use Rattle.mm_text.specs.Language.Unit.{Token, spellings, tokens_of, Shape, shape_tokens, IsShape, Units, Nothing, Simple, unit_tokens, AreUnits, IsWhole, IsUnitFault};

/// Each text has its words or its fault: one list of words or one fault, and never both.
///
/// So `words` finds the words of each text that has them, and reports the fault only of a text that has none,
/// unless memory runs out.
pub fn one_meaning()
    ensures some { (text : List ℕ) → ((words : List Word) × HasWords text words) ⊎ ((fault : TextFault) × IsWordsFault text fault) }
    ensures words { (text : List ℕ) (a b : List Word) → HasWords text a → HasWords text b → a ≡ b }
    ensures fault { (text : List ℕ) (a b : TextFault) → IsWordsFault text a → IsWordsFault text b → a ≡ b }
    ensures not_both { (text : List ℕ) (words : List Word) (fault : TextFault) → HasWords text words → ¬ IsWordsFault text fault }
{}

/// A text is laid out in one way: white space, a longest sequence of bytes without white space, white space,
/// and so on.
///
/// `words` reads words and the marks of comments in these sequences.
pub fn one_layout()
    ensures laid_out { (text : List ℕ) → IsLaidOut 0 text (runs text) }
    ensures only { (text : List ℕ) (others : List Run) → IsLaidOut 0 text others → runs text ≡ others }
{}

/// A list of words is a sequence of units, or it has one fault of units, at one word; and never both.
///
/// A unit is a statement, an inclusion, or a block of units that are no inclusions.
pub fn one_unit_fault()
    ensures some { (tokens : List Token) → IsWhole tokens ⊎ ((number : TextNumber) × (word : ℕ) × IsUnitFault tokens number word) }
    ensures fault { (tokens : List Token) (a b : TextNumber) (v w : ℕ) → IsUnitFault tokens a v → IsUnitFault tokens b w → (a ≡ b) × (v ≡ w) }
    ensures not_both { (tokens : List Token) (number : TextNumber) (word : ℕ) → IsWhole tokens → ¬ IsUnitFault tokens number word }
{}

/// A list of words is divided into units in one way at most.
pub fn one_division()
    ensures units { (a b : Units) → AreUnits true a → AreUnits true b → unit_tokens a ≡ unit_tokens b → a ≡ b }
    ensures shapes { (a b : List Shape) → AllByRecursion (IsShape true) a → AllByRecursion (IsShape true) b → flat_map shape_tokens a ≡ flat_map shape_tokens b
        → a ≡ b }
{}

/// Each part of a text of whole units has at least one byte, is in the text, and is by itself a text with words.
pub fn parts_are_texts()
    ensures { (text : List ℕ) (units : Units) → HasUnits text units → All (IsReadable text) (parts_of units) }
{}

/// The bytes of a text from its first word to its last are a text with the same words.
///
/// So the bytes of a statement or an inclusion that is the one unit of a text have its words, and no others.
pub fn words_stand_alone()
    ensures words { (text : List ℕ) (first : Word) (more own : List Word) → HasWords text (first ∷ more)
        → HasWords (slice_range text first.start (end_of_words (first ∷ more))) own
        → spellings (slice_range text first.start (end_of_words (first ∷ more))) own ≡ spellings text (first ∷ more) }
    ensures statement { (text : List ℕ) (shape : Shape) (own : List Word) → HasUnits text (Simple shape Nothing)
        → HasWords (part_bytes text (shape_part shape)) own
        → spellings (part_bytes text (shape_part shape)) own ≡ map (λ token. token.bytes) (shape_tokens shape) }
{}

/// The bytes of a text from any of its words to a later one are a text with the words between these, each at the same byte.
pub fn stretches_stand_alone()
    ensures { (text : List ℕ) (all own : List Word) (words : List Token) (first last : Token) → HasWords text all
        → IsStretch (tokens_of text all) words first last → HasWords (slice_range text first.start (token_end last)) own
        → map (moved first.start) (tokens_of (slice_range text first.start (token_end last)) own) ≡ words }
{}

/// A text has one cut or one first fault, and never both.
///
/// So `cut` cuts each text that can be cut, and reports the fault only of a text that cannot, unless memory runs
/// out.
pub fn one_cut()
    ensures some { (text : List ℕ) → ((pieces : List (List ℕ)) × (tail : List ℕ) × IsCut text pieces tail) ⊎ ((fault : TextFault) × IsFirstFault text fault) }
    ensures cut { (text : List ℕ) (a b : List (List ℕ)) (s t : List ℕ) → IsCut text a s → IsCut text b t → (a ≡ b) × (s ≡ t) }
    ensures fault { (text : List ℕ) (a b : TextFault) → IsFirstFault text a → IsFirstFault text b → a ≡ b }
    ensures not_both { (text : List ℕ) (pieces : List (List ℕ)) (tail : List ℕ) (fault : TextFault) → IsCut text pieces tail → ¬ IsFirstFault text fault }
{}

/// The first fault of a text is at one of its bytes.
pub fn first_faults_are_within()
    ensures { (text : List ℕ) (fault : TextFault) → IsFirstFault text fault → fault.at < length text }
{}

/// A text whose cut has one piece holds one unit, and no more.
///
/// This holds of the text as it is cut: with one line feed added, if it does not end in white space. Its unit is that of
/// the piece, with each word at the same byte, so it has the parts of the piece.
pub fn one_unit_of_cut()
    ensures unit { (text piece tail : List ℕ) → IsCut text (piece ∷ []) tail → HoldsOneUnit (ended text) }
    ensures same { (text piece tail : List ℕ) (units : Units) → IsCut text (piece ∷ []) tail → HasUnits (ended text) units → HasUnits piece units }
{}
