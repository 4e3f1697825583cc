//! Tables of scripts with their faults, and of lines.

use dds_base::number::{NodeNo, Stamp};
use dds_script::ranges::{LineFault, Ranges};
use dds_script::read_line::read_line;
use dds_script::read_script::read_script;
use dds_script::script_error::ScriptKind::{Cover, Form, NoEnd, Number, Place, Value};
use dds_script::script_error::{ScriptError, ScriptFault, ScriptKind};
use std::alloc::Global;
use std::test::Fail;

/// Scripts, and how many lines each has.
const SCRIPTS: [(&str, usize); 6] = [
    ("cluster 1 1 1\nleaf 0/0 0\n", 0),
    (
        "\n# first\ncluster 1 1 1\n\n#\nleaf 0/0 0\n\n# body\nquiet\n\n#\n",
        3,
    ),
    (
        "cluster 64 16 64\nleaf 0/1 63,0\nleaf 3/2 1\n#\nleaf 1/2 2,1\nold 15 0/16 7\n\nold 0 65535/16 0,1,2,3,4,5,6,7\n63 get 5\n",
        1,
    ),
    (
        "cluster 2 1 1\nleaf 0/0 0\n0 get 0\n0 remove 18446744073709551615\n0 put 5 -\n0 put 5 00ff\n0 swap 5 - aa\n",
        5,
    ),
    (
        "cluster 2 1 1\nleaf 0/0 0\nstop b1\nstop l0\njoin b1 0/0 b0\nsplit b0 65535/16\nshow b1\n",
        5,
    ),
    (
        "cluster 2 2 1\nleaf 0/0 0\npick fifo\npick newest\npick seed 0\nevents 0\nevents 1000000\nquiet\npost l1\ntake b1 l0\n",
        8,
    ),
];

/// Bytes that are no script, the line of their fault and its kind.
const OPENINGS: [(&str, u32, ScriptKind); 20] = [
    ("", 1, Place),
    ("\n#\n", 3, Place),
    ("quiet\n", 1, Place),
    ("0 put x g\n", 1, Place),
    ("show l0\n", 1, Form),
    ("leaf 0/0 0\n", 1, Place),
    ("cluster 0 1 1\n", 1, Number),
    ("cluster 65 1 1\n", 1, Number),
    ("cluster 1 17 1\n", 1, Number),
    ("cluster 1 1 65\n", 1, Number),
    ("cluster 1 1 1\n", 2, Cover),
    ("cluster 1 1 1\n\nquiet\n", 3, Cover),
    ("cluster 1 1 1\nold 0 0/0 0\n", 2, Cover),
    ("cluster 1 1 1\nleaf 0/1 0\n0 get 4\n", 3, Cover),
    ("cluster 1 1 1\nleaf 0/1 0\n0 get x\n", 3, Number),
    ("cluster 1 1 1\nleaf 0/1 0\n\n", 4, Cover),
    ("cluster 1 1 1\nleaf 0/1 0\nleaf 2/2 0\n", 3, Cover),
    ("cluster 1 1 1\nleaf 0/0 0\nquiet\nleaf 0/0 0\n", 4, Place),
    ("cluster 1 1 1\nleaf 0/0 0\nquiet\nold 0 0/0 0\n", 4, Place),
    (
        "cluster 1 1 1\nleaf 0/0 0\nold 0 0/0 0\nleaf 0/0 0\n",
        4,
        Place,
    ),
];

/// Third lines that aren't accepted behind `cluster 2 1 1` and `leaf 0/0 0,1`.
const THIRD_LINES: [(&str, ScriptKind); 47] = [
    ("0 get 5", NoEnd),
    ("0  get 5\n", Form),
    ("0\tget 5\n", Form),
    ("0 get 5 \n", Form),
    ("0 get \n", Form),
    ("0 put 5 \n", Form),
    (" 0 get 5\n", Form),
    ("0 put 5\n", Form),
    ("show l0\n", Form),
    ("show l\n", Form),
    ("pick oldest\n", Form),
    ("quiet 1\n", Form),
    ("0 swap 5 - - -\n", Form),
    ("# caf\u{e9}\n", Form),
    ("0 put 5 \u{e9}\n", Form),
    ("cluster 1 1 1\n", Place),
    ("cluster x 1 1\n", Place),
    ("0 get 05\n", Number),
    ("0 get +5\n", Number),
    ("0 get 18446744073709551616\n", Number),
    ("1 get 5\n", Number),
    ("0 put x g\n", Number),
    ("pick get 5\n", Number),
    ("split get 5\n", Number),
    ("stop b2\n", Number),
    ("stop l1\n", Number),
    ("stop 0\n", Number),
    ("show b2\n", Number),
    ("join l0 0/0 b1\n", Number),
    ("join b0 0/0 l0\n", Number),
    ("split b0 2/1\n", Number),
    ("split b0 0/17\n", Number),
    ("events 1000001\n", Number),
    ("pick seed -\n", Number),
    ("leaf 0/0 2\n", Number),
    ("leaf 0/0 0,\n", Number),
    ("leaf 0/0 0,0,0,0,0,0,0,0,0\n", Number),
    ("old 0 0/0 2\n", Number),
    ("old 1 0/0 0\n", Number),
    ("0 put 5 0\n", Value),
    ("0 put 5 AA\n", Value),
    ("0 put 5 0g\n", Value),
    ("0 swap 5 - abc\n", Value),
    ("0 swap 5 -- aa\n", Value),
    ("leaf 1/1 0\n", Cover),
    ("leaf 0/0 0,0\n", Cover),
    ("old 0 0/0 1,1\n", Cover),
];

/// How many lines the script has, or its fault; `None` where it is too long for a test, or there is no memory.
fn outcome(alloc: Global, script: &str) -> Option<Result<usize, ScriptFault>> {
    let bytes = script.as_bytes();
    if bytes.len() > 1000 {
        return None;
    }
    match read_script(alloc, bytes) {
        Ok(script) => Some(Ok(script.lines().len())),
        Err(ScriptError::Fault(fault)) => Some(Err(fault)),
        Err(ScriptError::Memory) => None,
    }
}

#[test]
fn accepts_the_forms(rt: HostRuntime) {
    for (script, lines) in &SCRIPTS {
        assert_eq!(rt; outcome(rt.alloc(), script), Some(Ok(*lines)), "{script}");
    }
}

/// The line of the script's fault, and its kind.
fn fault_of(alloc: Global, script: &str) -> Option<(u32, ScriptKind)> {
    match outcome(alloc, script)? {
        Ok(_) => None,
        Err(fault) => Some((fault.line, fault.kind)),
    }
}

#[test]
fn refuses_openings(rt: HostRuntime) {
    for (script, line, kind) in &OPENINGS {
        assert_eq!(rt;
            fault_of(rt.alloc(), script),
            Some((*line, *kind)),
            "{script}"
        );
    }
}

/// The fault of the script with this third line.
fn fault_with(alloc: Global, line: &str) -> Option<(u32, ScriptKind)> {
    let mut script = String::from_str(alloc, "cluster 2 1 1\nleaf 0/0 0,1\n").ok()?;
    script.push_str(line).ok()?;
    fault_of(alloc, script.as_str())
}

#[test]
fn refuses_a_third_line(rt: HostRuntime) {
    for (line, kind) in &THIRD_LINES {
        assert_eq!(rt; fault_with(rt.alloc(), line), Some((3, *kind)), "{line}");
    }
}

/// What is kept of the last leaf and of the last stale leaf: the epoch, the stamp and the one before.
fn last_leaves(alloc: Global) -> Option<[(u64, Stamp, Stamp); 2]> {
    let bytes = b"cluster 2 2 1\nleaf 0/1 0\nleaf 1/1 1\nold 1 0/0 1\nold 0 0/0 0\nold 1 1/1 0\n";
    let script = read_script(alloc, bytes).ok()?;
    let leaf = script.opening().leaves().last()?;
    let old = script.opening().old().last()?;
    Some([
        (leaf.epoch, leaf.stamp, leaf.prev),
        (old.epoch, old.stamp, old.prev),
    ])
}

#[test]
fn keeps_the_leaves(rt: HostRuntime) -> Result<(), Fail> {
    let opened = Stamp::opening(1);
    let made = Stamp::made_by(NodeNo::library(1).ok_or("no library")?, 1);
    let wanted = [(1, opened, opened), (0, made, made)];
    assert_eq!(rt; last_leaves(rt.alloc()), Some(wanted));
    Ok(())
}

/// Lines, and the fault of each; `None` where it has none.
const LINES: [(&str, Option<LineFault>); 7] = [
    ("cluster 2 1 1", Some(LineFault::Form)),
    ("leaf 0/0 0", Some(LineFault::Form)),
    ("old 0 0/0 0", Some(LineFault::Form)),
    ("", None),
    ("0 get 5", None),
    ("0 get x", Some(LineFault::Number)),
    ("0 put 5 x", Some(LineFault::Value)),
];

fn line_fault(alloc: Global, line: &str) -> Option<LineFault> {
    let ranges = Ranges {
        bricks: 2,
        libraries: 1,
        callers: 1,
    };
    read_line(alloc, line.as_bytes(), &ranges).err()
}

#[test]
fn reads_one_line(rt: HostRuntime) {
    for (line, fault) in &LINES {
        assert_eq!(rt; line_fault(rt.alloc(), line), *fault, "{line}");
    }
}
