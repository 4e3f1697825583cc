//! Writing a page, one field after another.

ghost use Rattle.std.specs.Prelude.{◌≡◌, ◌+◌, ◌^◌, ◌<◌, ◌≤◌, ◌++◌, ◌∷◌, [], length};
ghost use Rattle.dds_pages.specs.Fields.{spelled, padded};

use byteorder::{BigEndian, ByteOrder};
use std::marker::Model;

/// A page whose first bytes were written; the others are zero.
#[derive(Drop)]
pub struct PageWriter {
    page: [u8; 4_096],
    at: usize,
}

impl Model for PageWriter {
    ghost use Rattle.std.specs.Prelude.{ℕ, List, take};
    ghost use Rattle.dds_pages.specs.Fields.{IsWritten};

    ghost Value = { List ℕ };

    ghost view = { λ a. take a.at a.page };

    ghost invariant = { λ a. IsWritten a.page a.at };
}

impl PageWriter {
    /// Nothing was written.
    pub fn new() -> PageWriter
        ensures { result ≡ [] }
    {
        PageWriter {
            page: [0; 4_096],
            at: 0,
        }
    }

    /// Forgets what was written.
    pub fn clear(&mut self)
        ensures { self.new ≡ [] }
    {
        self.page[..self.at].fill(0);
        self.at = 0;
    }

    /// Writes some bytes.
    pub fn put(&mut self, bytes: &[u8])
        requires { length self.old + length bytes.now ≤ 4096 }
        ensures written { self.new ≡ self.old ++ bytes.now }
        ensures len { length self.new ≡ length self.old + length bytes.now }
    {
        let end = self.at + bytes.len();
        self.page[self.at..end].copy_from_slice(bytes);
        self.at = end;
    }

    /// Writes a number in a byte.
    #[tactic(auto, unfolding(crate::specs::Fields::spelled))]
    pub fn put_byte(&mut self, number: u8)
        requires { length self.old + 1 ≤ 4096 }
        ensures written { self.new ≡ self.old ++ spelled 1 number }
        ensures len { length self.new ≡ length self.old + 1 }
    {
        self.put(&[number]);
    }

    /// Writes a number in 2 bytes.
    #[tactic(auto, unfolding(crate::specs::Fields::spelled))]
    pub fn put_2(&mut self, number: u16)
        requires { length self.old + 2 ≤ 4096 }
        ensures written { self.new ≡ self.old ++ spelled 2 number }
        ensures len { length self.new ≡ length self.old + 2 }
    {
        self.put(&number.to_be_bytes());
    }

    /// Writes a number in 4 bytes.
    #[tactic(auto, unfolding(crate::specs::Fields::spelled))]
    pub fn put_4(&mut self, number: u32)
        requires { length self.old + 4 ≤ 4096 }
        ensures written { self.new ≡ self.old ++ spelled 4 number }
        ensures len { length self.new ≡ length self.old + 4 }
    {
        self.put(&number.to_be_bytes());
    }

    /// Writes a number in 8 bytes.
    #[tactic(auto, unfolding(crate::specs::Fields::spelled))]
    pub fn put_8(&mut self, number: u64)
        requires { length self.old + 8 ≤ 4096 }
        ensures written { self.new ≡ self.old ++ spelled 8 number }
        ensures len { length self.new ≡ length self.old + 8 }
    {
        self.put(&number.to_be_bytes());
    }

    /// The page as it is so far.
    pub fn page(&self) -> &[u8; 4_096]
        ensures { result.now ≡ padded self.now }
    {
        &self.page
    }

    /// The page.
    pub fn finish(self) -> [u8; 4_096]
        ensures { result ≡ padded self }
    {
        self.page
    }
}
