//! Why a command ended.

ghost use Rattle.std.specs.Prelude.{◌≡◌};
ghost use Rattle.dds_ends.specs.End.{status_of};

use dds_script::script_error::ScriptFault;

/// Why a command ended. `Finished`: the source was read to its end, and the whole output was written. `Usage`: the words
/// are no command. `TooLong`: the source gives more than the limits. `ReadFault`: the source failed. `Script`: a line of
/// the script isn't accepted. `WriteFault`: the sink failed. `Memory`: there was no memory.
#[derive(Clone, Copy, PartialEq, Eq, Debug)]
pub enum End {
    Finished,
    Usage,
    TooLong,
    ReadFault,
    Script(ScriptFault),
    WriteFault,
    Memory,
}

impl End {
    /// The status of the program.
    pub fn status(self) -> u8
        ensures { result ≡ status_of self }
    {
        match self {
            End::Finished => 0,
            End::Usage => 1,
            End::Script(_) => 2,
            End::ReadFault => 3,
            End::WriteFault => 4,
            End::Memory => 5,
            End::TooLong => 7,
        }
    }
}
