//! The text of a line of the transcript. Each function adds its text at the end of what is there.

ghost use Rattle.std.specs.Prelude.{◌≡◌, ◌++◌, IfOk, OnOk};
ghost use Rattle.std.specs.Fmt.{decimal};
ghost use Rattle.dds_transcript.specs.Text.{counted_text, leaf_text, line_text, met_text, order_reply_text, order_text, reply_text, up_text, words_text};

use crate::report_line::{Counted, OrderKind, ReportLine};
use crate::text_pieces::{put, put_brick, put_call, put_list, put_name, put_number, put_value};
use dds_base::brick_list::BrickList;
use dds_base::memory::Memory;
use dds_base::name::LeafName;
use dds_base::number::NodeNo;
use dds_base::op::{Met, OrderReply, Reply};
use std::alloc::Global;
use std::marker::Model;

/// The bytes of a text.
#[derive(Debug, Drop)]
pub struct Text {
    bytes: Vec<u8>,
}

impl Model for Text {
    ghost use Rattle.std.specs.Prelude.{ℕ, List};

    ghost Value = { List ℕ };

    ghost view = { λ a. a.bytes.items };
}

impl Text {
    pub fn bytes(&self) -> &[u8]
        ensures { result.now ≡ self.now }
    {
        self.bytes.as_slice()
    }
}

/// The bytes of one line, without its LF.
pub fn line_text(alloc: Global, line: &ReportLine) -> Result<Text, Memory>
    ensures { IfOk result (λ text. text ≡ words_text line.now) }
{
    let mut bytes = Vec::new(alloc);
    put_words(&mut bytes, line)?;
    Ok(Text { bytes })
}

/// Adds the line's text with its LF.
pub fn put_line(text: &mut Vec<u8>, line: &ReportLine) -> Result<(), Memory>
    ensures { OnOk result (text.new.items ≡ text.old.items ++ line_text line.now) }
{
    put_words(text, line)?;
    put(text, b"\n")
}

fn put_words(text: &mut Vec<u8>, line: &ReportLine) -> Result<(), Memory>
    ensures { OnOk result (text.new.items ≡ text.old.items ++ words_text line.now) }
{
    match line {
        ReportLine::Answer {
            caller,
            call,
            reply,
        } => {
            put_call(text, *caller, *call)?;
            put(text, b" ")?;
            put_reply(text, reply)
        }
        ReportLine::Busy { caller, call } => {
            put_call(text, *caller, *call)?;
            put(text, b" busy")
        }
        ReportLine::OrderAnswer { kind, brick, reply } => {
            put_order(text, *kind, *brick)?;
            put(text, b" ")?;
            put_order_reply(text, *reply)
        }
        ReportLine::Quiet { events } => put_count(text, b"quiet ", *events),
        ReportLine::Loud => put(text, b"loud 1000000"),
        ReportLine::Events { events } => put_count(text, b"events ", *events),
        ReportLine::NoPost => put(text, b"post no"),
        ReportLine::NoTake => put(text, b"take no"),
        ReportLine::BrickStopped { brick } => {
            put_brick(text, *brick)?;
            put(text, b" stopped")
        }
        ReportLine::BrickUp { brick, pending } => put_up(text, *brick, *pending),
        ReportLine::BrickLeaf {
            brick,
            name,
            epoch,
            pairs,
            list,
        } => {
            put_brick(text, *brick)?;
            put(text, b" ")?;
            put_leaf(text, *name, *epoch, *pairs, *list)
        }
        ReportLine::OpenCall { caller, call } => {
            put(text, b"open ")?;
            put_call(text, *caller, *call)
        }
        ReportLine::OpenOrder { kind, brick } => {
            put(text, b"open ")?;
            put_order(text, *kind, *brick)
        }
        ReportLine::History { entries } => put_count(text, b"history ", *entries),
        ReportLine::Count { what, number } => {
            put_counted(text, *what)?;
            put_count(text, b" ", *number)
        }
        ReportLine::End => put(text, b"end"),
    }
}

fn put_count(text: &mut Vec<u8>, words: &[u8], number: u64) -> Result<(), Memory>
    ensures { OnOk result (text.new.items ≡ text.old.items ++ (words.now ++ decimal number)) }
{
    put(text, words)?;
    put_number(text, number)
}

fn put_up(text: &mut Vec<u8>, brick: NodeNo, pending: u64) -> Result<(), Memory>
    ensures { OnOk result (text.new.items ≡ text.old.items ++ up_text brick pending) }
{
    put_brick(text, brick)?;
    put_count(text, b" up pending ", pending)
}

fn put_leaf(
    text: &mut Vec<u8>,
    name: LeafName,
    epoch: u64,
    pairs: u64,
    list: BrickList,
) -> Result<(), Memory>
    ensures { OnOk result (text.new.items ≡ text.old.items ++ leaf_text name epoch pairs list) }
{
    put(text, b"leaf ")?;
    put_name(text, name)?;
    put_count(text, b" epoch ", epoch)?;
    put_count(text, b" pairs ", pairs)?;
    put(text, b" list ")?;
    put_list(text, list)
}

fn put_reply(text: &mut Vec<u8>, reply: &Reply) -> Result<(), Memory>
    ensures { OnOk result (text.new.items ≡ text.old.items ++ reply_text reply.now) }
{
    match reply {
        Reply::Value(value) => {
            put(text, b"value ")?;
            put_value(text, value.bytes())
        }
        Reply::Absent => put(text, b"absent"),
        Reply::Done { was: true } => put(text, b"done old"),
        Reply::Done { was: false } => put(text, b"done new"),
        Reply::Swapped { done: true } => put(text, b"swapped yes"),
        Reply::Swapped { done: false } => put(text, b"swapped no"),
        Reply::Again(met) => {
            put(text, b"again ")?;
            put_met(text, *met)
        }
        Reply::Full { brick } => {
            put(text, b"full ")?;
            put_brick(text, *brick)
        }
        Reply::Lost { name } => {
            put(text, b"lost ")?;
            put_name(text, *name)
        }
    }
}

fn put_met(text: &mut Vec<u8>, met: Met) -> Result<(), Memory>
    ensures { OnOk result (text.new.items ≡ text.old.items ++ met_text met) }
{
    match met {
        Met::Lease { brick } => {
            put(text, b"lease ")?;
            put_brick(text, brick)
        }
        Met::Lock { brick } => {
            put(text, b"lock ")?;
            put_brick(text, brick)
        }
        Met::Stale { brick } => {
            put(text, b"stale ")?;
            put_brick(text, brick)
        }
        Met::Stopped { brick } => {
            put(text, b"stopped ")?;
            put_brick(text, brick)
        }
    }
}

fn put_order(text: &mut Vec<u8>, kind: OrderKind, brick: NodeNo) -> Result<(), Memory>
    ensures { OnOk result (text.new.items ≡ text.old.items ++ order_text kind brick) }
{
    match kind {
        OrderKind::Join => {
            put(text, b"join ")?;
            put_brick(text, brick)
        }
        OrderKind::Split => {
            put(text, b"split ")?;
            put_brick(text, brick)
        }
    }
}

fn put_order_reply(text: &mut Vec<u8>, reply: OrderReply) -> Result<(), Memory>
    ensures { OnOk result (text.new.items ≡ text.old.items ++ order_reply_text reply) }
{
    match reply {
        OrderReply::Done => put(text, b"done"),
        OrderReply::Refused(met) => {
            put(text, b"refused ")?;
            put_met(text, met)
        }
        OrderReply::GroupFull => put(text, b"groupfull"),
        OrderReply::AlreadyThere => put(text, b"alreadythere"),
        OrderReply::NoSource => put(text, b"nosource"),
        OrderReply::OrderOpen => put(text, b"orderopen"),
        OrderReply::Deepest => put(text, b"deepest"),
        OrderReply::NotServing => put(text, b"notserving"),
        OrderReply::Worn => put(text, b"worn"),
        OrderReply::Stopped => put(text, b"stopped"),
    }
}

fn put_counted(text: &mut Vec<u8>, what: Counted) -> Result<(), Memory>
    ensures { OnOk result (text.new.items ≡ text.old.items ++ counted_text what) }
{
    put(text, counted_word(what))
}

fn counted_word(what: Counted) -> &'static [u8]
    ensures { result.now ≡ counted_text what }
{
    match what {
        Counted::Calls => b"calls",
        Counted::Done => b"done",
        Counted::Value => b"value",
        Counted::Absent => b"absent",
        Counted::Again => b"again",
        Counted::Full => b"full",
        Counted::Lost => b"lost",
        Counted::Open => b"open",
        Counted::Steps => b"steps",
        Counted::History => b"history",
    }
}
