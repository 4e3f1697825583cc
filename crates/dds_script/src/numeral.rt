//! Decimal numbers.

ghost use Rattle.std.specs.Prelude.{◌≡◌, ◌≢◌, ◌<◌, ◌↔◌, IsTrue, length, slice_index};
ghost use Rattle.dds_script.specs.Fields.{IsBelow, IsWithin};
ghost use Rattle.dds_script.specs.Reading.{IsNumber, IsRead};

/// The most events that a line may ask for.
pub const EVENTS: u64 = 1_000_000;

/// The number that the word is, in decimal digits without a leading zero, below `2^64`.
pub fn read_number(word: &[u8]) -> Option<u64>
    ensures { IsRead (IsNumber word.now) result }
{
    if !begins_well(word) {
        return None;
    }
    match str::from_utf8(word) {
        Ok(text) => match text.parse::<u64>() {
            Ok(n) => Some(n),
            Err(_) => None,
        },
        Err(_) => None,
    }
}

fn begins_well(word: &[u8]) -> bool
    ensures { IsTrue result
        ↔ ((0 < length word.now) × (slice_index word.now 0 ≢ 43) × (slice_index word.now 0 ≡ 48 → length word.now ≡ 1)) }
{
    match word {
        [] => false,
        [first] => *first != b'+',
        [first, ..] => *first != b'0' && *first != b'+',
    }
}

/// The number that the word is, below the limit.
pub fn read_below(word: &[u8], limit: u8) -> Option<u8>
    ensures { IsRead (IsBelow limit word.now) result }
{
    match read_number(word) {
        Some(n) => {
            if n < u64::from(limit) {
                Some(n as u8)
            } else {
                None
            }
        }
        None => None,
    }
}

/// The number that the word is, from 1 to the most.
pub fn read_count(word: &[u8], most: u8) -> Option<u8>
    ensures { IsRead (IsWithin 1 most word.now) result }
{
    match read_number(word) {
        Some(n) => {
            if 1 <= n && n <= u64::from(most) {
                Some(n as u8)
            } else {
                None
            }
        }
        None => None,
    }
}

/// The number of events that the word is.
pub fn read_events(word: &[u8]) -> Option<u32>
    ensures { IsRead (IsWithin 0 1000000 word.now) result }
{
    match read_number(word) {
        Some(n) => { if n <= EVENTS { Some(n as u32) } else { None } }
        None => None,
    }
}
