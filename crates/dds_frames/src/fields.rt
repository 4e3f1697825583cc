//! Reading the fields of a frame, from left to right.

ghost use Rattle.std.specs.Prelude.{◌≡◌, ◌≤◌, ◌==◌, length};
ghost use Rattle.dds_frames.specs.Reading.{ReadsAs, number_at};
ghost use Rattle.dds_frames.specs.Parts.{value_at};

use crate::fault::FieldFault;
use byteorder::{BigEndian, ByteOrder};
use dds_base::value::{VALUE_BYTES, Value};
use std::alloc::Global;
use std::marker::Model;

/// The bytes of a frame that are left to read.
#[derive(Drop)]
pub(crate) struct Fields<'a> {
    rest: &'a [u8],
}

impl<'a> Model for Fields<'a> {
    ghost use Rattle.std.specs.Prelude.{ℕ, List};

    ghost Value = { List ℕ };

    ghost view = { λ a. a.rest.now };
}

impl<'a> Fields<'a> {
    pub(crate) fn new(rest: &'a [u8]) -> Fields<'a>
        ensures { result ≡ rest.now }
    {
        Fields { rest }
    }

    /// How many bytes are left.
    pub(crate) fn left(&self) -> usize
        ensures { result ≡ length self.now }
    {
        self.rest.len()
    }

    #[tactic(auto, unfolding(crate::specs::Reading::number_at))]
    pub(crate) fn number_1(&mut self) -> Result<u8, FieldFault>
        ensures { ReadsAs result self.new (number_at 1 self.old) }
    {
        if self.rest.is_empty() {
            return Err(FieldFault::Refused { left: 0 });
        }
        let number = self.rest[0];
        self.rest = &self.rest[1..];
        Ok(number)
    }

    #[tactic(auto, unfolding(crate::specs::Reading::number_at))]
    pub(crate) fn number_2(&mut self) -> Result<u16, FieldFault>
        ensures { ReadsAs result self.new (number_at 2 self.old) }
    {
        let left = self.rest.len();
        if left < 2 {
            return Err(FieldFault::Refused { left });
        }
        let number = BigEndian::read_u16(self.rest);
        self.rest = &self.rest[2..];
        Ok(number)
    }

    #[tactic(auto, unfolding(crate::specs::Reading::number_at))]
    pub(crate) fn number_4(&mut self) -> Result<u32, FieldFault>
        ensures { ReadsAs result self.new (number_at 4 self.old) }
    {
        let left = self.rest.len();
        if left < 4 {
            return Err(FieldFault::Refused { left });
        }
        let number = BigEndian::read_u32(self.rest);
        self.rest = &self.rest[4..];
        Ok(number)
    }

    #[tactic(auto, unfolding(crate::specs::Reading::number_at))]
    pub(crate) fn number_8(&mut self) -> Result<u64, FieldFault>
        ensures { ReadsAs result self.new (number_at 8 self.old) }
    {
        let left = self.rest.len();
        if left < 8 {
            return Err(FieldFault::Refused { left });
        }
        let number = BigEndian::read_u64(self.rest);
        self.rest = &self.rest[8..];
        Ok(number)
    }

    /// A value is copied only once its bytes are known to be there.
    #[tactic(auto, unfolding(crate::specs::Reading::tested_at, crate::specs::Parts::value_at))]
    pub(crate) fn value(&mut self, alloc: Global) -> Result<Value, FieldFault>
        ensures { ReadsAs result self.new (value_at self.old) }
    {
        let left = self.left();
        let len = usize::from(self.number_2()?);
        if len > VALUE_BYTES || self.rest.len() < len {
            return Err(FieldFault::Refused { left });
        }
        let (bytes, rest) = self.rest.split_at(len);
        self.rest = rest;
        match Value::of(alloc, bytes) {
            Ok(value) => Ok(value),
            Err(_) => Err(FieldFault::Memory),
        }
    }
}
