//! The command `step`: its words, and the limits of a script.

ghost use Rattle.std.specs.Prelude.{◌≡◌, ◌↔◌, IsTrue};
ghost use Rattle.dds_ends.specs.End.{IsStepCommand, IsWritten};

use crate::end::End;
use dds_base::sink::Sink;
use dds_transcript::report_line::ReportLine;
use dds_transcript::write_lines::{WriteEnd, write_lines};
use std::alloc::Global;

/// The most bytes of a script.
pub const BYTES: usize = 8_388_608;

/// The most lines of a script.
pub const LINES: usize = 20_000;

/// Whether the words are the command `step`.
pub fn is_step(words: &[String]) -> bool
    ensures { IsTrue result ↔ IsStepCommand words.now }
{
    match words {
        [word] => word.as_str() == "step",
        _ => false,
    }
}

/// Writes the lines of a transcript.
pub fn write_transcript<K: Sink>(alloc: Global, lines: &[ReportLine], sink: &mut K) -> End
    ensures { IsWritten lines.now (K.written sink.old) (K.faults sink.old) (K.written sink.new) (K.faults sink.new) result }
{
    match write_lines(alloc, lines, sink) {
        Ok(()) => End::Finished,
        Err(WriteEnd::Failed) => End::WriteFault,
        Err(WriteEnd::Memory) => End::Memory,
    }
}
