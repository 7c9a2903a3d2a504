//! One line of an input: its first bytes while it is read, and its text.
ghost use Rattle.std.specs.Prelude.{◌≡◌, ℕ, [], ◌∷◌, ◌++◌, List, take};
ghost use Rattle.morris_queries.specs.InputLines.{is_passed_over, text_in};

use arrayvec::ArrayVec;

/// How many bytes of a line are retained: the longest position string, a carriage return after it,
/// and one more, which shows that a line is too long.
pub(crate) const RETAINED: usize = 26;

/// Takes in the next byte of a line, and drops it where all bytes that are retained are there.
pub(crate) fn take_in(line: &mut ArrayVec<u8, RETAINED>, byte: u8)
    ensures { (begun : List ℕ) → line.old.items ≡ take 26 begun → line.new.items ≡ take 26 (begun ++ byte ∷ []) }
{
    if !line.is_full() {
        line.push(byte);
    }
}

/// The text of a line: all of it but a carriage return at its end.
pub(crate) fn text_of(line: &[u8]) -> &[u8]
    ensures { result.now ≡ text_in line.now }
{
    match line.last() {
        Some(b'\r') => &line[..line.len() - 1],
        _ => line,
    }
}

/// Whether a line of this text is passed over: an empty one, or one that begins with `#`.
pub(crate) fn is_passed_over(text: &[u8]) -> bool
    ensures { result ≡ is_passed_over text.now }
{
    matches!(text.first(), None | Some(b'#'))
}
