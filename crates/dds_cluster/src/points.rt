//! The entries that a brick's points may become.

ghost use Rattle.std.specs.Prelude.{◌≡◌, [], IfOk, option_to_list};
ghost use Rattle.dds_history.specs.Map.{found};
ghost use Rattle.dds_cluster.specs.Turn.{read_by, update_by, point_made, points_made};

use crate::trace::Made;
use dds_base::items::Items;
use dds_base::memory::Memory;
use dds_base::number::TxnNo;
use dds_base::op::{Op, Reply};
use dds_base::pending::Pending;
use dds_base::value::Value;
use dds_history::entry::Entry;
use dds_history::table::reply_with;
use dds_letters::letter::Letter;
use dds_states::turn::{Point, PointList};
use std::alloc::Global;

/// What a turn's points may become, where the brick handled this letter.
pub fn points_made(
    alloc: Global,
    at: u64,
    letter: &Letter,
    points: PointList,
) -> Result<Items<Made>, Memory>
    ensures { IfOk result (λ list. list ≡ points_made at letter.now points) }
{
    let mut list = Items::new(alloc);
    for point in points.into_vec() {
        if let Some(made) = point_made(at, letter, point) {
            list.push(made)?;
        }
    }
    Ok(list)
}

fn point_made(at: u64, letter: &Letter, point: Point) -> Option<Made>
    ensures { option_to_list result ≡ point_made at letter.now point }
{
    match point {
        Point::Read { txn, value } => read_by(at, txn, value, letter),
        Point::Applied { pending, was } => Some(update_by(at, was, pending)),
    }
}

fn read_by(at: u64, txn: TxnNo, value: Option<Value>, letter: &Letter) -> Option<Made>
    ensures { option_to_list result ≡ read_by at txn value letter.now }
{
    match letter {
        Letter::Get {
            txn: _,
            caller,
            call,
            key,
            name: _,
            stamp: _,
        } => Some(Made {
            place: at,
            txn,
            entry: Entry {
                caller: *caller,
                call: *call,
                op: Op::Get { key: *key },
                reply: found(value),
            },
        }),
        Letter::Prepare { .. }
        | Letter::Commit { .. }
        | Letter::Abort { .. }
        | Letter::Push { .. }
        | Letter::MapAsk { .. }
        | Letter::Got { .. }
        | Letter::Vote { .. }
        | Letter::Applied { .. }
        | Letter::Aborted { .. }
        | Letter::MapTell { .. }
        | Letter::Help { .. }
        | Letter::Query { .. }
        | Letter::Status { .. }
        | Letter::Outcome { .. }
        | Letter::Lease { .. }
        | Letter::Granted { .. }
        | Letter::LeaseRefused { .. }
        | Letter::Release { .. }
        | Letter::CopyAsk { .. }
        | Letter::CopyPart { .. }
        | Letter::Install { .. }
        | Letter::Installed { .. }
        | Letter::Notice => None,
    }
}

fn found(value: Option<Value>) -> Reply
    ensures { result ≡ found value }
{
    match value {
        None => Reply::Absent,
        Some(value) => Reply::Value(value),
    }
}

fn update_by(at: u64, was: bool, pending: Pending) -> Made
    ensures { result ≡ update_by at was pending }
{
    let op = pending.op.into_op();
    let reply = reply_with(&op, was);
    Made {
        place: at,
        txn: pending.txn,
        entry: Entry {
            caller: pending.caller,
            call: pending.call,
            op,
            reply,
        },
    }
}
