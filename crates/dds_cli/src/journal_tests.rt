//! What journals of scripts are: runs, with the histories and the calls written out here.

use dds_base::number::{CallNo, CallerNo, NodeNo};
use dds_base::op::Reply;
use dds_cluster::step::{Journal, Step};
use dds_ends::command::BYTES;
use dds_script::opening::Script;
use dds_script::read_script::read_script;
use dds_transcript::line_text::line_text;
use dds_transcript::report_line::ReportLine;
use dds_walk::reports::walk_script;
use dds_world::runs::{CallPlace, calls, history, is_run};
use std::alloc::Global;
use std::test::Fail;

/// Scripts, the entries of their histories as answers, and their calls with the places of their inputs and of their
/// answers; both are parted by `;`.
const JOURNALS: [(&str, &str, &str); 5] = [
    (
        "cluster 1 1 1\nleaf 0/0 0\n0 put 5 6869\nquiet\n0 get 5\nquiet\n0 remove 5\nquiet\n0 get 5\nquiet\n",
        "0.0 done new;0.1 value 6869;0.2 done old;0.3 absent;",
        "0-8 0.0 done new;9-13 0.1 value 6869;14-22 0.2 done old;23-27 0.3 absent;",
    ),
    (
        "cluster 2 2 2\nleaf 0/0 0,1\n0 put 7 aa\n1 put 7 bb\nquiet\n",
        "0.0 done new;",
        "0-29 0.0 done new;1-33 1.0 again lock b0;",
    ),
    (
        "cluster 2 3 5\nleaf 0/0 0,1\n0 put 7 aa\nevents 8\npost l0\ntake b0 l0\n4 get 7\npost l1\ntake b0 l1\n\
        post b0\npost b0\ntake l1 b0\nstop b0\nstop l0\nquiet\n1 get 7\nquiet\n",
        "0.0 done new;4.0 value aa;1.0 value aa;",
        "0- open;11-16 4.0 value aa;36-40 1.0 value aa;",
    ),
    (
        "cluster 1 1 1\nleaf 0/0 0\n0 put 7 aa\nevents 4\nstop b0\nquiet\n0 get 7\nquiet\n",
        "",
        "0-9 0.0 lost 0/0;10-10 0.1 again stopped b0;",
    ),
    (
        "cluster 2 1 1\nleaf 0/0 0\n0 put 7 aa\nquiet\njoin b1 0/0 b0\nevents 2\n0 put 7 bb\nquiet\nstop b0\nquiet\n0 get 7\nquiet\n",
        "0.0 done new;0.2 value aa;",
        "0-8 0.0 done new;12-28 0.1 again lease b0;38-46 0.2 value aa;",
    ),
];

fn script_of(alloc: Global, text: &str) -> Result<Script, Fail> {
    let bytes = text.as_bytes();
    if bytes.len() > BYTES {
        return Err("a script of that length")?;
    }
    match read_script(alloc, bytes) {
        Ok(script) => Ok(script),
        Err(_) => Err("a script")?,
    }
}

/// Adds an answer as the transcript has it.
fn put_answer(
    alloc: Global,
    text: &mut Vec<u8>,
    caller: CallerNo,
    call: CallNo,
    reply: &Reply,
) -> Result<(), Fail> {
    let reply = reply.copy()?;
    let line = ReportLine::Answer {
        caller,
        call,
        reply,
    };
    text.extend_from_slice(line_text(alloc, &line)?.bytes())?;
    Ok(())
}

/// The history's entries as answers.
fn history_text(alloc: Global, script: &Script, journal: &Journal) -> Result<Vec<u8>, Fail> {
    let mut text = Vec::new(alloc);
    for entry in &history(alloc, script.opening(), journal)? {
        put_answer(alloc, &mut text, entry.caller, entry.call, &entry.reply)?;
        text.push(b';')?;
    }
    Ok(text)
}

/// Adds the place of the input, a line, and the place of the answer and the answer.
fn put_call(alloc: Global, text: &mut Vec<u8>, place: &CallPlace) -> Result<(), Fail> {
    text.extend_from_slice(place.asked.to_string(alloc)?.as_bytes())?;
    text.push(b'-')?;
    match (&place.answered, &place.reply) {
        (Some(answered), Some(reply)) => {
            text.extend_from_slice(answered.to_string(alloc)?.as_bytes())?;
            text.push(b' ')?;
            put_answer(alloc, text, place.caller, place.call, reply)
        }
        _ => Ok(text.extend_from_slice(b" open")?),
    }
}

fn calls_text(alloc: Global, script: &Script, journal: &Journal) -> Result<Vec<u8>, Fail> {
    let mut text = Vec::new(alloc);
    for place in &calls(alloc, script.opening(), journal)? {
        put_call(alloc, &mut text, place)?;
        text.push(b';')?;
    }
    Ok(text)
}

/// Whether the script's journal is a run, and its entries and its calls.
fn told(alloc: Global, text: &str) -> Result<(bool, Vec<u8>, Vec<u8>), Fail> {
    let script = script_of(alloc, text)?;
    let journal = walk_script(alloc, &script)?.journal;
    let is_run = is_run(alloc, script.opening(), &journal)?;
    let entries = history_text(alloc, &script, &journal)?;
    Ok((is_run, entries, calls_text(alloc, &script, &journal)?))
}

#[test]
fn journals_have_these_histories_and_calls(rt: HostRuntime) -> Result<(), Fail> {
    for (text, entries, calls) in &JOURNALS {
        let found = told(rt.alloc(), text)?;
        assert!(rt; found.0, "{text}");
        assert!(rt; found.1.as_slice() == entries.as_bytes(), "{text}");
        assert!(rt; found.2.as_slice() == calls.as_bytes(), "{text}");
    }
    Ok(())
}

/// Whether a post from an empty outbox is a run, and how many entries its history has.
fn empty_post(alloc: Global) -> Result<(bool, usize), Fail> {
    let script = script_of(alloc, "cluster 1 1 1\nleaf 0/0 0\n")?;
    let node = NodeNo::brick(0).ok_or("a brick")?;
    let mut journal = Journal::new(alloc);
    journal.push(Step::Post { node })?;
    let is_run = is_run(alloc, script.opening(), &journal)?;
    Ok((is_run, history(alloc, script.opening(), &journal)?.len()))
}

#[test]
fn a_post_from_an_empty_outbox_is_no_run(rt: HostRuntime) -> Result<(), Fail> {
    assert_eq!(rt; empty_post(rt.alloc())?, (false, 0));
    Ok(())
}
