//! Short names and labels as numbers.

ghost use Rattle.std.specs.Prelude.{◌≡◌, true, false, MatchOption};
ghost use Rattle.mm_frame.specs.Code.Codes.{bytes_code, is_coded};

/// The most bytes that have a code.
const MOST_CODED: usize = 9;

/// The number whose digits to the base 128 are these bytes, the first one the lowest, with a 1 on top; none if there
/// are more bytes than it has room for, or one is no ASCII.
pub fn code_of(bytes: &[u8]) -> Option<u64>
    ensures { MatchOption result (is_coded bytes.now ≡ false) (λ code. (is_coded bytes.now ≡ true) × (code ≡ bytes_code bytes.now)) }
{
    if bytes.len() > MOST_CODED {
        return None;
    }
    let mut code = 1;
    let mut left = bytes.len();
    while left > 0 {
        left -= 1;
        let byte = bytes[left];
        if !byte.is_ascii() {
            return None;
        }
        code = code * 128 + u64::from(byte);
    }
    Some(code)
}
