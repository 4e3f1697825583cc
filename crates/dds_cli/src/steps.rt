//! `dds step`: reads a script, runs it, and writes its transcript.

ghost use Rattle.std.specs.Prelude.{◌≡◌, ◌≤◌, IfOk, length};
ghost use Rattle.dds_walk.specs.Walk.{transcript};
ghost use Rattle.dds_ends.specs.End.{status_of};
ghost use Rattle.dds_cli.specs.Ended.{IsEndOf, IsRunOf, IsRunWhole};
ghost use Rattle.dds_cli.specs.Ending.{IsEndOfScript, IsEndOfBytes};

use crate::ended::Ended;
use dds_base::memory::Memory;
use dds_base::sink::Sink;
use dds_base::source::{ReadEnd, Source, read_all};
use dds_client_view::laws::{clients_see_one_history, quiet_lines_are_answered};
use dds_ends::command::{BYTES, LINES, is_step, write_transcript};
use dds_ends::end::End;
use dds_law_config::laws::run_stands;
use dds_script::opening::Script;
use dds_script::read_script::read_script;
use dds_script::script_error::ScriptError;
use dds_walk::reports::{Walked, walk_script};
use std::alloc::Global;

/// Carries out a command. The words are to be the one word `step`; then the source gives a script, which is run, and the
/// sink takes its transcript. It always returns.
pub fn run_steps<S: Source, K: Sink>(
    alloc: Global,
    words: &[String],
    source: &mut S,
    sink: &mut K,
) -> Ended
    ensures status { result.status ≡ status_of result.end }
    ensures end { IsEndOf words.now
        (record { left = S.left source.old; source_faults = S.faults source.old; written = K.written sink.old; sink_faults = K.faults sink.old })
        (record { left = S.left source.new; source_faults = S.faults source.new; written = K.written sink.new; sink_faults = K.faults sink.new })
        result.journal result.end }
    ensures whole { IsRunWhole words.now
        (record { left = S.left source.old; source_faults = S.faults source.old; written = K.written sink.old; sink_faults = K.faults sink.old })
        (record { left = S.left source.new; source_faults = S.faults source.new; written = K.written sink.new; sink_faults = K.faults sink.new })
        result.end }
{
    run_command(alloc, words, source, sink)
}

/// Carries out a command, as above.
fn run_command<S: Source, K: Sink>(
    alloc: Global,
    words: &[String],
    source: &mut S,
    sink: &mut K,
) -> Ended
    ensures status { result.status ≡ status_of result.end }
    ensures end { IsEndOf words.now
        (record { left = S.left source.old; source_faults = S.faults source.old; written = K.written sink.old; sink_faults = K.faults sink.old })
        (record { left = S.left source.new; source_faults = S.faults source.new; written = K.written sink.new; sink_faults = K.faults sink.new })
        result.journal result.end }
{
    if !is_step(words) {
        return Ended::early(alloc, End::Usage);
    }
    match read_all(alloc, source, BYTES, LINES) {
        Ok(bytes) => run_bytes(alloc, bytes.as_slice(), sink),
        Err(ReadEnd::TooLong) => Ended::early(alloc, End::TooLong),
        Err(ReadEnd::Failed) => Ended::early(alloc, End::ReadFault),
        Err(ReadEnd::Memory) => Ended::early(alloc, End::Memory),
    }
}

/// Runs the script that these bytes are, and writes its transcript.
fn run_bytes<K: Sink>(alloc: Global, bytes: &[u8], sink: &mut K) -> Ended
    requires { length bytes.now ≤ BYTES }
    ensures status { result.status ≡ status_of result.end }
    ensures end { IsEndOfBytes bytes.now (K.written sink.old) (K.faults sink.old) (K.written sink.new) (K.faults sink.new) result.journal result.end }
{
    match read_script(alloc, bytes) {
        Ok(script) => run_script(alloc, &script, sink),
        Err(ScriptError::Fault(fault)) => Ended::early(alloc, End::Script(fault)),
        Err(ScriptError::Memory) => Ended::early(alloc, End::Memory),
    }
}

/// Runs a script, and writes its transcript.
fn run_script<K: Sink>(alloc: Global, script: &Script, sink: &mut K) -> Ended
    ensures status { result.status ≡ status_of result.end }
    ensures end { IsEndOfScript script.now (K.written sink.old) (K.faults sink.old) (K.written sink.new) (K.faults sink.new) result.journal result.end }
{
    match run(alloc, script) {
        Ok(Walked { journal, lines }) => {
            Ended::with(write_transcript(alloc, lines.as_slice(), sink), journal)
        }
        Err(Memory) => Ended::early(alloc, End::Memory),
    }
}

/// Runs a script. The laws say what is so of every run, since each opening keeps what they ask of it.
fn run(alloc: Global, script: &Script) -> Result<Walked, Memory>
    ensures ran { IfOk result (λ ran. IsRunOf script.now ran.journal) }
    ensures lines { IfOk result (λ ran. ran.lines.items ≡ transcript script.now ran.journal) }
{
    let _ranges = script.opening().ranges();
    run_stands();
    clients_see_one_history();
    quiet_lines_are_answered();
    walk_script(alloc, script)
}
