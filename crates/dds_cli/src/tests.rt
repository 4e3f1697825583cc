//! The longest value, the limits, a failing source and a failing sink; what scripts print the examples show.

use crate::steps::run_steps;
use dds_base::memory_sink::MemorySink;
use dds_base::memory_source::MemorySource;
use dds_ends::end::End;
use dds_script::script_error::{ScriptFault, ScriptKind};
use std::alloc::Global;
use std::test::Fail;

/// The calls of the source and of the sink that fail. The sink takes ten bytes in a call.
type Faults = (&'static [u64], &'static [u64]);

/// How `step` ends on this script, and whether it writes this text; `None` where there is no memory.
fn outcome(alloc: Global, script: &[u8], faults: Faults, text: &[u8]) -> Option<(End, bool)> {
    let mut source = MemorySource::new(alloc, script, faults.0).ok()?;
    let mut sink = MemorySink::new(alloc, faults.1, 10, 1 << 20).ok()?;
    let words = vec![in alloc; String::from_str(alloc, "step").ok()?].ok()?;
    let ended = run_steps(alloc, words.as_slice(), &mut source, &mut sink);
    Some((ended.end, sink.written() == text))
}

/// Scripts, what fails, how the command ends, and the text that it writes.
const ENDS: [(&str, Faults, End, &str); 3] = [
    (
        "cluster 1 1 1\nleaf 0/0 0\n0 get 5\nquiet\n",
        (&[], &[]),
        End::Finished,
        "0.0 absent\nquiet 4\nhistory 1\nend\n",
    ),
    (
        "cluster 1 1 1\nleaf 0/0 0\n0 get 5\nquiet\n",
        (&[], &[1]),
        End::WriteFault,
        "0.0 absent",
    ),
    ("cluster 1 ", (&[1], &[]), End::ReadFault, ""),
];

#[test]
fn tells_a_fault(rt: HostRuntime) {
    for (script, faults, end, text) in &ENDS {
        let found = outcome(rt.alloc(), script.as_bytes(), *faults, text.as_bytes());
        assert_eq!(rt; found, Some((*end, true)));
    }
}

/// A text with so many bytes a5 in hexadecimal digits.
fn with_hex(alloc: Global, before: &str, bytes: usize, after: &str) -> Option<Vec<u8>> {
    let mut text = Vec::new(alloc);
    text.extend_from_slice(before.as_bytes()).ok()?;
    for _ in 0..bytes {
        text.extend_from_slice(b"a5").ok()?;
    }
    text.extend_from_slice(after.as_bytes()).ok()?;
    Some(text)
}

/// How a script ends that puts and gets a value of this many bytes, and whether it writes this text.
fn large_outcome(alloc: Global, bytes: usize, text: &[u8]) -> Option<(End, bool)> {
    let before = "cluster 1 1 1\nleaf 0/0 0\n0 put 5 ";
    let script = with_hex(alloc, before, bytes, "\nquiet\n0 get 5\nquiet\n")?;
    outcome(alloc, script.as_slice(), (&[], &[]), text)
}

/// The transcript of a value of 60,000 bytes.
fn large_text(alloc: Global) -> Option<Vec<u8>> {
    let before = "0.0 done new\nquiet 8\n0.1 value ";
    with_hex(alloc, before, 60_000, "\nquiet 4\nhistory 2\nend\n")
}

#[test]
fn takes_the_longest_value(rt: HostRuntime) -> Result<(), Fail> {
    let alloc = rt.alloc();
    let text = large_text(alloc).ok_or("no memory")?;
    let found = large_outcome(alloc, 60_000, text.as_slice());
    assert_eq!(rt; found, Some((End::Finished, true)));
    let (line, kind) = (3, ScriptKind::Value);
    let refused = End::Script(ScriptFault { line, kind });
    assert_eq!(rt; large_outcome(alloc, 60_001, b""), Some((refused, true)));
    Ok(())
}

#[test]
fn refuses_too_many_lines(rt: HostRuntime) {
    let script = [b'\n'; 20_001];
    let found = outcome(rt.alloc(), &script, (&[], &[]), b"");
    assert_eq!(rt; found, Some((End::TooLong, true)));
}
