//! Words of a proof that are no labels.

ghost use Rattle.std.specs.Prelude.{◌≡◌, codes, bytes_eq};
ghost use Rattle.mm_verdict.specs.Language.Decoding.{is_close as is_closing};

/// Whether a word begins the list of labels of a compressed proof.
pub fn is_open(word: &[u8]) -> bool
    ensures { result ≡ bytes_eq word.now (codes "(") }
{
    matches!(word, b"(")
}

/// Whether a word ends the list of labels of a compressed proof.
pub fn is_close(word: &[u8]) -> bool
    ensures { result ≡ is_closing word.now }
{
    matches!(word, b")")
}

/// Whether a word is a `?`.
pub fn is_unknown(word: &[u8]) -> bool
    ensures { result ≡ bytes_eq word.now (codes "?") }
{
    matches!(word, b"?")
}
