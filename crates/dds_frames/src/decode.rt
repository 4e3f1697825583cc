//! Reading the frame at the front of some bytes.

ghost use Rattle.std.specs.Prelude.{◌≡◌, ◌==◌, ◌-◌, if◌then◌else◌, ℕ, IfOk, ◌≤◌, ◌+◌, ◌^◌, ◌<◌, length, take, drop};
ghost use Rattle.dds_frames.specs.Frame.{decoded, framed, versioned, whole, DecodesAs, Spells};
ghost use Rattle.dds_letters.specs.declared.letter.Letter.{Letter};
ghost use Rattle.dds_frames.specs.declared.fault.FrameFault.TheVariants.{Short, BadField};
ghost use Rattle.dds_frames.specs.Fields.{letter_at};

use crate::fault::{FieldFault, FrameFault};
use crate::fields::Fields;
use crate::tag::Tag;
use byteorder::{BigEndian, ByteOrder};
use dds_letters::letter::Letter;
use std::alloc::Global;

/// The version of the frames that are read and written.
pub const VERSION: u8 = 2;

/// The most bytes that follow a frame's length.
pub const FRAME_BYTES: usize = 67_108_864;

/// A letter that was read, where no bytes of its frame are left.
fn all_read(letter: Letter, left: usize, end: usize) -> Result<(Letter, usize), FrameFault>
    requires { left ≤ end }
    ensures { result ≡ (if left == 0 then Ok (letter, end) else Err (BadField (end - left))) }
{
    if left > 0 {
        return Err(FrameFault::BadField { at: end - left });
    }
    Ok((letter, end))
}

/// A letter of this kind, whose fields are all of these bytes, in a frame that ends at this place.
fn whole(alloc: Global, tag: Tag, bytes: &[u8], end: usize) -> Result<(Letter, usize), FrameFault>
    requires { length bytes.now ≤ end }
    ensures { DecodesAs result (whole end (letter_at tag bytes.now)) }
{
    let mut fields = Fields::new(bytes);
    match fields.letter(alloc, tag) {
        Err(FieldFault::Memory) => Err(FrameFault::Memory),
        Err(FieldFault::Refused { left }) => Err(FrameFault::BadField { at: end - left }),
        Ok(letter) => all_read(letter, fields.left(), end),
    }
}

/// The version, the tag and the fields.
#[tactic(auto, unfolding(crate::specs::Frame::versioned))]
fn versioned(alloc: Global, bytes: &[u8], end: usize) -> Result<(Letter, usize), FrameFault>
    requires { length bytes.now ≤ end }
    ensures { DecodesAs result (versioned end bytes.now) }
{
    match bytes {
        [version, tag, fields @ ..] => {
            if *version != VERSION {
                return Err(FrameFault::BadTag { at: 4 });
            }
            match Tag::of(*tag) {
                None => Err(FrameFault::BadTag { at: 5 }),
                Some(tag) => whole(alloc, tag, fields, end),
            }
        }
        _ => Err(FrameFault::Short),
    }
}

#[tactic(auto, unfolding(crate::specs::Frame::framed))]
fn framed(alloc: Global, input: &[u8], len: usize) -> Result<(Letter, usize), FrameFault>
    requires long { 4 ≤ length input.now }
    requires number { len < 2 ^ 32 }
    ensures exact { DecodesAs result (framed len input.now) }
    ensures waits { framed len input.now ≡ Err Short → result ≡ Err Short }
{
    if len < 2 || len > FRAME_BYTES {
        return Err(FrameFault::BadLength { at: 0 });
    }
    let end = 4 + len;
    if input.len() < end {
        return Err(FrameFault::Short);
    }
    versioned(alloc, &input[4..end], end)
}

#[tactic(auto, unfolding(crate::specs::Frame::decoded))]
fn read(alloc: Global, input: &[u8]) -> Result<(Letter, usize), FrameFault>
    ensures exact { DecodesAs result (decoded input.now) }
    ensures waits { decoded input.now ≡ Err Short → result ≡ Err Short }
{
    if input.len() < 4 {
        return Err(FrameFault::Short);
    }
    framed(alloc, input, BigEndian::read_u32(input) as usize)
}

/// The letter at the front of the input, and where its frame ends.
pub fn decode(alloc: Global, input: &[u8]) -> Result<(Letter, usize), FrameFault>
    // Each fault, and where it is.
    ensures exact { DecodesAs result (decoded input.now) }
    // A field's fault stands in the frame, behind the tag.
    ensures place { (at : ℕ) → result ≡ Err (BadField at) → (6 ≤ at) × (at ≤ length input.now) }
    // No memory is needed to see that bytes are missing.
    ensures waits { decoded input.now ≡ Err Short → result ≡ Err Short }
    // What is read was spelled so.
    ensures spelled { IfOk result (λ read. (read.1 ≤ length input.now) × Spells (take read.1 input.now) read.0) }
    // What is spelled is read, unless memory runs out.
    ensures only { (letter : Letter) (end : ℕ) → end ≤ length input.now → Spells (take end input.now) letter → DecodesAs result (Ok (letter, end)) }
{
    read(alloc, input)
}
