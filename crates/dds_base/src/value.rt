//! A value of the table: at most 60,000 bytes.

ghost use Rattle.std.specs.Prelude.{◌≡◌, ◌<◌, ◌≤◌, ◌↔◌, IsTrue, IfOk, length, nat_le, nat_lt, if◌then◌else◌};
ghost use Rattle.std.specs.declared.alloc.AllocError.{AllocError};
ghost use Rattle.dds_base.specs.Value.{IsValueOf};

use crate::memory::Memory;
use std::alloc::Global;
use std::marker::Model;

/// The most bytes of a value.
pub const VALUE_BYTES: usize = 60_000;

/// The bytes that a key is bound to.
#[derive(Debug, Drop)]
pub struct Value {
    bytes: Vec<u8>,
}

impl Model for Value {
    ghost use Rattle.std.specs.Prelude.{ℕ, List, ◌≤◌, length};

    ghost Value = { List ℕ };

    ghost view = { λ a. a.bytes.items };

    ghost invariant = { λ a. length a.bytes.items ≤ 60000 };
}

/// Why bytes are no value: there are `len` of them, above 60,000; or no memory.
#[derive(Clone, Copy, Debug, PartialEq, Eq)]
pub enum ValueFault {
    TooLong { len: usize },
    Memory,
}

impl Value {
    pub fn of(alloc: Global, bytes: &[u8]) -> Result<Value, ValueFault>
        ensures { IsValueOf bytes.now result }
    {
        if bytes.len() > VALUE_BYTES {
            return Err(ValueFault::TooLong { len: bytes.len() });
        }
        match Vec::from_slice(alloc, bytes) {
            Ok(bytes) => Ok(Value { bytes }),
            Err(_) => Err(ValueFault::Memory),
        }
    }

    /// The value of these bytes; `None` where there are more than 60,000. Takes no memory.
    pub fn from_vec(bytes: Vec<u8>) -> Option<Value>
        ensures { result ≡ (if nat_le (length bytes.items) 60000 then Some bytes.items else None) }
    {
        if bytes.len() > VALUE_BYTES {
            None
        } else {
            Some(Value { bytes })
        }
    }

    pub fn bytes(&self) -> &[u8]
        ensures value { result.now ≡ self.now }
        ensures range { length result.now ≤ 60000 }
    {
        self.bytes.as_slice()
    }

    pub fn copy(&self) -> Result<Value, Memory>
        ensures { IfOk result (λ v. v ≡ self.now) }
    {
        Ok(Value {
            bytes: self.bytes.clone()?,
        })
    }

    pub fn same(&self, other: &Value) -> bool
        ensures { IsTrue result ↔ (self.now ≡ other.now) }
    {
        self.bytes.as_slice() == other.bytes.as_slice()
    }
}
