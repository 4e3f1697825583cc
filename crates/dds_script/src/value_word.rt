//! The words for values: `-`, or two hexadecimal digits for each byte.

ghost use Rattle.std.specs.Prelude.{◌≡◌, ◌<◌, ◌≤◌, ◌*◌, ℕ, length, IfOk, option_map};
ghost use Rattle.dds_script.specs.Reading.{IsByte, IsHexText, IsNibble, IsRead, IsValueWord};

use crate::words::same;
use dds_base::memory::Memory;
use dds_base::value::{VALUE_BYTES, Value};
use std::alloc::Global;

/// The value that the word is: `-` for no bytes, and else two lower-case hexadecimal digits for each.
pub fn read_value(alloc: Global, word: &[u8]) -> Result<Option<Value>, Memory>
    ensures { IfOk result (λ value. IsRead (IsValueWord word.now) value) }
{
    if same(word, b"-") {
        return Ok(Value::from_vec(Vec::new(alloc)));
    }
    if word.is_empty() {
        return Ok(None);
    }
    if word.len() > 2 * VALUE_BYTES {
        return Ok(None);
    }
    match read_hexadecimal(alloc, word)? {
        Some(bytes) => Ok(Value::from_vec(bytes)),
        None => Ok(None),
    }
}

fn read_hexadecimal(alloc: Global, word: &[u8]) -> Result<Option<Vec<u8>>, Memory>
    ensures { IfOk result (λ bytes. IsRead (IsHexText word.now) (option_map (λ v. v.items) bytes)) }
{
    if word.len() % 2 == 1 {
        return Ok(None);
    }
    let mut bytes = Vec::with_capacity(alloc, word.len() / 2)?;
    for place in 0..word.len() / 2 {
        match byte_of(word[2 * place], word[2 * place + 1]) {
            Some(byte) => bytes.push(byte)?,
            None => return Ok(None),
        }
    }
    Ok(Some(bytes))
}

fn byte_of(high: u8, low: u8) -> Option<u8>
    ensures { IsRead (IsByte high low) result }
{
    let (Some(first), Some(second)) = (nibble(high), nibble(low)) else {
        return None;
    };
    Some(16 * first + second)
}

/// The number of one hexadecimal digit.
fn nibble(digit: u8) -> Option<u8>
    ensures { IsRead (IsNibble digit) result }
{
    match digit {
        b'0'..=b'9' => Some(digit - b'0'),
        b'a'..=b'f' => Some(digit - b'a' + 10),
        _ => None,
    }
}
