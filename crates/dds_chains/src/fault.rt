//! Why a call did nothing more.

ghost use Rattle.dds_chains.specs.declared.fault.TableFault.TheVariants.{Memory as NoMemory};
ghost use Rattle.std.specs.Prelude.{◌≡◌};

use dds_base::memory::Memory;

/// The disk failed, and its count of faults rose; or a page isn't one that a disk could give that
/// keeps what is written to it; or there was no memory, or no number for a further page.
#[derive(Clone, Copy, Debug, PartialEq, Eq)]
pub enum TableFault {
    Disk,
    Page { page: u64 },
    Memory,
}

impl From<Memory> for TableFault {
    ghost from_gives = { λ _ e. e ≡ NoMemory };

    fn from(_: Memory) -> TableFault {
        TableFault::Memory
    }
}
