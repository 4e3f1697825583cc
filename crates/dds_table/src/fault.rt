//! Why a call of a store did nothing more.

ghost use Rattle.dds_table.specs.declared.fault.LiftFault.TheVariants.{Memory as NoRoom};
ghost use Rattle.std.specs.Prelude.{◌≡◌};

use dds_base::memory::Memory;
pub use dds_chains::fault::TableFault;

/// Why a table of version 1 was not lifted: its disk failed, and that disk's count of faults rose; a page isn't one of
/// such a table; a call of the store failed; or there was no memory for what was read.
#[derive(Clone, Copy, Debug, PartialEq, Eq)]
pub enum LiftFault {
    Old,
    Page { page: u64 },
    Store(TableFault),
    Memory,
}

impl From<Memory> for LiftFault {
    ghost from_gives = { λ _ e. e ≡ NoRoom };

    fn from(_: Memory) -> LiftFault {
        LiftFault::Memory
    }
}
