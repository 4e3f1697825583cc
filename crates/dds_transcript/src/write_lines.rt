//! Writing the transcript to a sink.

ghost use Rattle.std.specs.Prelude.{◌≡◌, ◌≤◌, OnOk, OnErr};
ghost use Rattle.dds_base.specs.Outside.{Added, AddedPart, Rose};
ghost use Rattle.dds_transcript.specs.Text.{report_text};
ghost use Rattle.dds_transcript.specs.Writing.{IsMoved, RoseWhereFailed};

use crate::line_text::put_line;
use crate::report_line::ReportLine;
use dds_base::memory::{Failed, Memory};
use dds_base::sink::{Sink, write_all};
use std::alloc::Global;

/// Why not all lines were written: a call of the sink failed, or there was no memory.
#[derive(Clone, Copy, PartialEq, Eq, Debug)]
pub enum WriteEnd {
    Failed,
    Memory,
}

/// As much text as is gathered before it is written.
const PIECE: usize = 8192;

/// Writes the text of the lines, in pieces of some 8 KiB. After an error a beginning of the text was written.
pub fn write_lines<K: Sink>(
    alloc: Global,
    lines: &[ReportLine],
    sink: &mut K,
) -> Result<(), WriteEnd>
    ensures whole { OnOk result (Added (K.written sink.old) (report_text lines.now) (K.written sink.new)) }
    ensures part { OnErr result (AddedPart (K.written sink.old) (report_text lines.now) (K.written sink.new)) }
    ensures rose { RoseWhereFailed result (K.faults sink.old) (K.faults sink.new) }
    ensures never_falls { K.faults sink.old ≤ K.faults sink.new }
{
    let mut text = Vec::new(alloc);
    for line in lines {
        match put_line(&mut text, line) {
            Ok(()) => {}
            Err(Memory) => return Err(WriteEnd::Memory),
        }
        match write_full(&mut text, sink) {
            Ok(()) => {}
            Err(Failed) => return Err(WriteEnd::Failed),
        }
    }
    match write_all(sink, text.as_slice()) {
        Ok(()) => Ok(()),
        Err(Failed) => Err(WriteEnd::Failed),
    }
}

/// Writes the text and empties it, where it is long enough.
fn write_full<K: Sink>(text: &mut Vec<u8>, sink: &mut K) -> Result<(), Failed>
    ensures moved { OnOk result (IsMoved (K.written sink.old) text.old.items text.new.items (K.written sink.new)) }
    ensures part { OnErr result (AddedPart (K.written sink.old) text.old.items (K.written sink.new)) }
    ensures rose { OnErr result (Rose (K.faults sink.old) (K.faults sink.new)) }
    ensures never_falls { K.faults sink.old ≤ K.faults sink.new }
{
    if text.len() < PIECE {
        return Ok(());
    }
    match write_all(sink, text.as_slice()) {
        Ok(()) => {
            text.clear();
            Ok(())
        }
        Err(Failed) => Err(Failed),
    }
}
