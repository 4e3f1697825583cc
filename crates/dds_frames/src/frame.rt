//! A letter's frame as it was written.

ghost use Rattle.std.specs.Prelude.{◌≡◌};

use bytes::BytesMut;
use std::marker::Model;

/// The bytes of one letter's frame.
#[derive(Drop)]
pub struct Frame {
    bytes: BytesMut,
}

impl Model for Frame {
    ghost use Rattle.std.specs.Prelude.{ℕ, List};

    ghost Value = { List ℕ };

    ghost view = { λ a. a.bytes.items };
}

impl Frame {
    pub(crate) fn of(bytes: BytesMut) -> Frame
        ensures { result ≡ bytes.items }
    {
        Frame { bytes }
    }

    pub fn as_slice(&self) -> &[u8]
        ensures { result.now ≡ self.now }
    {
        self.bytes.as_slice()
    }
}
