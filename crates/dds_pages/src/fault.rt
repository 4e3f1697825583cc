//! Why a page is refused.

ghost use Rattle.dds_pages.specs.declared.fault.PageFault.TheVariants.{Memory as NoMemory};
ghost use Rattle.std.specs.Prelude.{◌≡◌};

use dds_base::memory::Memory;

/// How many bytes a page has.
pub const PAGE_BYTES: usize = 4_096;

/// The number that stands for no page, in a place for a page's number.
pub const NO_PAGE: u64 = u64::MAX;

/// The bytes are not such a page: `at` is the first byte of the first field that isn't accepted.
/// Or there was no memory for what the page says.
#[derive(Clone, Copy, Debug, PartialEq, Eq)]
pub enum PageFault {
    NotAPage { at: usize },
    Memory,
}

impl From<Memory> for PageFault {
    ghost from_gives = { λ _ e. e ≡ NoMemory };

    fn from(_: Memory) -> PageFault {
        PageFault::Memory
    }
}
