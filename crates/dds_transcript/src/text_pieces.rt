//! The pieces that the lines of the transcript are made of. Each function adds its piece at the end of the text.

ghost use Rattle.std.specs.Prelude.{◌≡◌, ◌++◌, ◌<◌, OnOk};
ghost use Rattle.std.specs.Char.{digit_char};
ghost use Rattle.std.specs.Fmt.{decimal};
ghost use Rattle.dds_script.specs.Text.{brick_text, list_text, name_text};
ghost use Rattle.dds_transcript.specs.Text.{call_text};
ghost use Rattle.dds_script.specs.Words.{hex_text, value_text};

use dds_base::brick_list::BrickList;
use dds_base::memory::Memory;
use dds_base::name::LeafName;
use dds_base::number::{CallNo, CallerNo, NodeNo};
use itoa::Buffer;

pub fn put(text: &mut Vec<u8>, words: &[u8]) -> Result<(), Memory>
    ensures { OnOk result (text.new.items ≡ text.old.items ++ words.now) }
{
    text.extend_from_slice(words)?;
    Ok(())
}

pub fn put_number(text: &mut Vec<u8>, number: u64) -> Result<(), Memory>
    ensures { OnOk result (text.new.items ≡ text.old.items ++ decimal number) }
{
    let mut digits = Buffer::new();
    put(text, digits.format(number).as_bytes())
}

pub fn put_brick(text: &mut Vec<u8>, brick: NodeNo) -> Result<(), Memory>
    ensures { OnOk result (text.new.items ≡ text.old.items ++ brick_text brick) }
{
    put(text, b"b")?;
    put_number(text, u64::from(brick.number()))
}

pub fn put_name(text: &mut Vec<u8>, name: LeafName) -> Result<(), Memory>
    ensures { OnOk result (text.new.items ≡ text.old.items ++ name_text name) }
{
    put_number(text, u64::from(name.bits()))?;
    put(text, b"/")?;
    put_number(text, u64::from(name.depth()))
}

pub fn put_call(text: &mut Vec<u8>, caller: CallerNo, call: CallNo) -> Result<(), Memory>
    ensures { OnOk result (text.new.items ≡ text.old.items ++ call_text caller call) }
{
    put_number(text, u64::from(caller.number()))?;
    put(text, b".")?;
    put_number(text, u64::from(call.0))
}

pub fn put_list(text: &mut Vec<u8>, list: BrickList) -> Result<(), Memory>
    ensures { OnOk result (text.new.items ≡ text.old.items ++ list_text list) }
{
    put_number(text, u64::from(list.at(0).number()))?;
    for place in 1..list.len() {
        put(text, b",")?;
        put_number(text, u64::from(list.at(place).number()))?;
    }
    Ok(())
}

pub fn put_value(text: &mut Vec<u8>, value: &[u8]) -> Result<(), Memory>
    ensures { OnOk result (text.new.items ≡ text.old.items ++ value_text value.now) }
{
    if value.is_empty() {
        return put(text, b"-");
    }
    put_hexadecimal(text, value)
}

fn put_hexadecimal(text: &mut Vec<u8>, bytes: &[u8]) -> Result<(), Memory>
    ensures { OnOk result (text.new.items ≡ text.old.items ++ hex_text bytes.now) }
{
    for byte in bytes {
        text.push(digit(*byte / 16))?;
        text.push(digit(*byte % 16))?;
    }
    Ok(())
}

/// The lower-case hexadecimal digit of a number.
fn digit(number: u8) -> u8
    requires { number < 16 }
    ensures { result ≡ digit_char number }
{
    if number < 10 {
        b'0' + number
    } else {
        b'a' - 10 + number
    }
}
