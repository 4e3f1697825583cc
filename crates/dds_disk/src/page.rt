//! A page in memory.

ghost use Rattle.std.specs.Prelude.{◌≡◌, length, IfOk};

use dds_base::memory::Memory;
use std::alloc::Global;
use std::marker::Model;

/// 4,096 bytes.
#[derive(Debug, Drop)]
pub struct Page {
    bytes: Vec<u8>,
}

impl Model for Page {
    ghost use Rattle.std.specs.Prelude.{ℕ, List, ◌≡◌, length};

    ghost Value = { List ℕ };

    ghost view = { λ a. a.bytes.items };

    ghost invariant = { λ a. length a.bytes.items ≡ 4096 };
}

impl Page {
    pub fn of(alloc: Global, bytes: &[u8; 4_096]) -> Result<Page, Memory>
        ensures { IfOk result (λ page. page ≡ bytes.now) }
    {
        Ok(Page {
            bytes: Vec::from_slice(alloc, bytes)?,
        })
    }

    /// Copies the bytes to `into`.
    pub fn copy_to(&self, into: &mut [u8; 4_096])
        ensures { into.new ≡ self.now }
    {
        into.copy_from_slice(self.bytes.as_slice());
    }
}
