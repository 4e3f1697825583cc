//! Finding the end of a line or a word, and the fixed words that a text begins with.

ghost use Rattle.std.specs.Prelude.{◌≡◌, ◌++◌, ℕ, List, ◌↔◌, IsTrue, MatchOption};
ghost use Rattle.std.specs.Str.{bytes_eq};
ghost use Rattle.dds_script.specs.Words.{IsFound, is_ascii, is_blank};

/// The place of the first byte that is `mark`.
pub fn find(bytes: &[u8], mark: u8) -> Option<usize>
    ensures { IsFound bytes.now mark result }
{
    for (place, byte) in bytes.iter().enumerate() {
        if *byte == mark {
            return Some(place);
        }
    }
    None
}

/// Whether the two texts are the same.
pub fn same(text: &[u8], other: &[u8]) -> bool
    ensures value { result ≡ bytes_eq text.now other.now }
    ensures same { IsTrue result ↔ (text.now ≡ other.now) }
{
    text == other
}

/// What follows the beginning, where the text begins so.
pub fn after<'a>(text: &'a [u8], beginning: &[u8]) -> Option<&'a [u8]>
    ensures { MatchOption result ((rest : List ℕ) → text.now ≡ beginning.now ++ rest → ⊥) (λ rest. text.now ≡ beginning.now ++ rest.now) }
{
    if text.starts_with(beginning) {
        Some(&text[beginning.len()..])
    } else {
        None
    }
}

/// Whether each byte is ASCII.
pub fn is_ascii(text: &[u8]) -> bool
    ensures { result ≡ is_ascii text.now }
{
    text.iter().all(|byte| *byte < 128)
}

/// Whether the line is empty or begins with `#`.
pub fn is_blank(text: &[u8]) -> bool
    ensures { result ≡ is_blank text.now }
{
    match text {
        [] => true,
        [first, ..] => *first == b'#',
    }
}
