//! Lines of the transcript and their texts.

use dds_base::brick_list::BrickList;
use dds_base::memory_sink::MemorySink;
use dds_base::name::LeafName;
use dds_base::number::{CallNo, CallerNo, NodeNo};
use dds_base::op::{Met, OrderReply, Reply};
use dds_base::value::Value;
use dds_transcript::line_text::line_text;
use dds_transcript::report_line::{Counted, OrderKind, ReportLine};
use dds_transcript::write_lines::write_lines;
use std::alloc::Global;
use std::test::Fail;

fn answer(reply: Reply) -> ReportLine {
    ReportLine::Answer {
        caller: CallerNo::of(3).unwrap(),
        call: CallNo(12),
        reply,
    }
}

/// The answers of calls, and the text of each.
fn answers(alloc: Global) -> Option<[(ReportLine, &'static str); 11]> {
    let (brick, name) = (NodeNo::brick(63)?, LeafName::of(2, 3)?);
    let (lease, stopped) = (Met::Lease { brick }, Met::Stopped { brick });
    let (two, none) = (Value::of(alloc, b"hi").ok()?, Value::of(alloc, b"").ok()?);
    Some([
        (answer(Reply::Value(two)), "3.12 value 6869"),
        (answer(Reply::Value(none)), "3.12 value -"),
        (answer(Reply::Absent), "3.12 absent"),
        (answer(Reply::Done { was: true }), "3.12 done old"),
        (answer(Reply::Done { was: false }), "3.12 done new"),
        (answer(Reply::Swapped { done: true }), "3.12 swapped yes"),
        (answer(Reply::Swapped { done: false }), "3.12 swapped no"),
        (answer(Reply::Again(lease)), "3.12 again lease b63"),
        (answer(Reply::Again(stopped)), "3.12 again stopped b63"),
        (answer(Reply::Full { brick }), "3.12 full b63"),
        (answer(Reply::Lost { name }), "3.12 lost 2/3"),
    ])
}

fn order(kind: OrderKind, reply: OrderReply) -> ReportLine {
    ReportLine::OrderAnswer {
        kind,
        brick: NodeNo::brick(1).unwrap(),
        reply,
    }
}

/// The answers of orders, and the text of each.
fn order_answers() -> Option<[(ReportLine, &'static str); 4]> {
    let (join, split, brick) = (OrderKind::Join, OrderKind::Split, NodeNo::brick(0)?);
    let (done, there) = (OrderReply::Done, OrderReply::AlreadyThere);
    let lock = OrderReply::Refused(Met::Lock { brick });
    let stale = OrderReply::Refused(Met::Stale { brick });
    Some([
        (order(join, done), "join b1 done"),
        (order(join, there), "join b1 alreadythere"),
        (order(join, stale), "join b1 refused stale b0"),
        (order(split, lock), "split b1 refused lock b0"),
    ])
}

/// The other lines, and the text of each.
fn others() -> Option<[(ReportLine, &'static str); 14]> {
    let (brick, caller, call) = (NodeNo::brick(0)?, CallerNo::of(0)?, CallNo(1));
    let (name, list) = (LeafName::of(0, 1)?, BrickList::of(&[0, 1])?);
    let (kind, what) = (OrderKind::Join, Counted::Calls);
    let (epoch, pairs) = (2, 20);
    let leaf = ReportLine::BrickLeaf {
        brick,
        name,
        epoch,
        pairs,
        list,
    };
    Some([
        (ReportLine::Busy { caller, call }, "0.1 busy"),
        (ReportLine::OpenCall { caller, call }, "open 0.1"),
        (ReportLine::OpenOrder { kind, brick }, "open join b0"),
        (ReportLine::Quiet { events: 8 }, "quiet 8"),
        (ReportLine::Loud, "loud 1000000"),
        (ReportLine::Events { events: 3 }, "events 3"),
        (ReportLine::NoPost, "post no"),
        (ReportLine::NoTake, "take no"),
        (ReportLine::BrickStopped { brick }, "b0 stopped"),
        (ReportLine::BrickUp { brick, pending: 7 }, "b0 up pending 7"),
        (leaf, "b0 leaf 0/1 epoch 2 pairs 20 list 0,1"),
        (ReportLine::History { entries: 4 }, "history 4"),
        (ReportLine::Count { what, number: 12 }, "calls 12"),
        (ReportLine::End, "end"),
    ])
}

fn has_text(alloc: Global, line: &ReportLine, text: &str) -> bool {
    match line_text(alloc, line) {
        Ok(found) => found.bytes() == text.as_bytes(),
        Err(_) => false,
    }
}

/// The first text that isn't its line's.
fn wrong(alloc: Global, cases: &[(ReportLine, &'static str)]) -> Option<&'static str> {
    for (line, text) in cases {
        if !has_text(alloc, line, text) {
            return Some(*text);
        }
    }
    None
}

#[test]
fn lines_have_these_texts(rt: HostRuntime) -> Result<(), Fail> {
    let answers = answers(rt.alloc()).ok_or("no memory")?;
    assert_eq!(rt; wrong(rt.alloc(), &answers), None);
    let orders = order_answers().ok_or("no brick")?;
    assert_eq!(rt; wrong(rt.alloc(), &orders), None);
    let others = others().ok_or("no brick")?;
    assert_eq!(rt; wrong(rt.alloc(), &others), None);
    Ok(())
}

#[test]
fn writes_lines(rt: HostRuntime) -> Result<(), Fail> {
    let mut sink = MemorySink::new(rt.alloc(), &[], 4, 12)?;
    let lines = [ReportLine::NoPost, ReportLine::End];
    assert_eq!(rt; write_lines(rt.alloc(), &lines, &mut sink), Ok(()));
    assert_eq!(rt; sink.written(), b"post no\nend\n".as_slice());
    Ok(())
}
