//! Why bytes are not read.

ghost use Rattle.std.specs.Prelude.{◌≡◌};
ghost use Rattle.dds_frames.specs.declared.fault.FieldFault.TheVariants.{Memory as NoMemory};

use dds_base::memory::Memory;

/// Why bytes give no letter: there are too few yet; or the frame's length, its version or tag, or a field is not
/// accepted, from the byte `at` on; or no memory.
#[derive(Clone, Copy, Debug, PartialEq, Eq)]
pub enum FrameFault {
    Short,
    BadLength { at: usize },
    BadTag { at: usize },
    BadField { at: usize },
    Memory,
}

/// Why a field could not be read: so many bytes of the frame were left at the first that is refused, or no memory.
#[derive(Clone, Copy, Debug, PartialEq, Eq)]
pub(crate) enum FieldFault {
    Refused { left: usize },
    Memory,
}

impl From<Memory> for FieldFault {
    ghost from_gives = { λ _ e. e ≡ NoMemory };

    fn from(_: Memory) -> FieldFault {
        FieldFault::Memory
    }
}
