//! Names of partitions: a leaf of the trie over key bits, from the least significant bit.

ghost use Rattle.std.specs.Prelude.{◌≡◌, ℕ, ◌<◌, ◌≤◌, ◌^◌, ◌↔◌, ◌&&◌, IsTrue, nat_lt, nat_le, if◌then◌else◌};
ghost use Rattle.dds_base.specs.Name.{Name, covers, overlaps, SharesAKey};

use std::marker::Model;

/// The deepest that the trie goes.
pub const DEPTH: u8 = 16;

/// A partition: the keys whose `depth` lowest bits are `bits`.
#[derive(Clone, Copy, PartialEq, Eq, PartialOrd, Ord, Debug)]
pub struct LeafName {
    bits: u16,
    depth: u8,
}

impl Model for LeafName {
    ghost use Rattle.std.specs.Prelude.{◌<◌, ◌≤◌, ◌^◌};
    ghost use Rattle.dds_base.specs.Name.{Name};

    ghost Value = { Name };

    ghost view = { λ a. record { bits = a.bits; depth = a.depth } };

    ghost invariant = { λ a. (a.depth ≤ 16) × (a.bits < 2 ^ a.depth) };

    ghost inverse = { λ n. record { bits = n.bits; depth = n.depth } };
}

impl LeafName {
    /// `None` where the depth is above 16 or `bits` has more than `depth` bits.
    pub fn of(bits: u16, depth: u8) -> Option<LeafName>
        ensures { result
            ≡ (if nat_le depth 16 && nat_lt bits (2 ^ depth) then
            Some record { bits = bits; depth = depth }
            else
            None) }
    {
        if depth <= DEPTH && u32::from(bits) < 1u32 << depth {
            Some(LeafName { bits, depth })
        } else {
            None
        }
    }

    pub fn bits(&self) -> u16
        ensures value { result ≡ self.now.bits }
        ensures range { result < 2 ^ self.now.depth }
    {
        self.bits
    }

    pub fn depth(&self) -> u8
        ensures value { result ≡ self.now.depth }
        ensures range { result ≤ 16 }
    {
        self.depth
    }

    /// Whether the key's lowest bits are this name's.
    pub fn covers(&self, key: u64) -> bool
        ensures { result ≡ covers self.now key }
    {
        key % (1u64 << self.depth) == u64::from(self.bits)
    }

    /// Whether some key is covered by both.
    pub fn overlaps(&self, other: &LeafName) -> bool
        ensures value { result ≡ overlaps self.now other.now }
        ensures key { IsTrue result ↔ SharesAKey self.now other.now }
    {
        let shorter = self.depth.min(other.depth);
        let mask = 1u32 << shorter;
        u32::from(self.bits) % mask == u32::from(other.bits) % mask
    }
}
