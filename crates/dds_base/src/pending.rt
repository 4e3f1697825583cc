//! A transaction that a brick has prepared, and what a brick says of a transaction.

use crate::brick_list::BrickList;
use crate::number::{CallNo, CallerNo, TxnNo};
use crate::update::Update;

/// An update that a brick has prepared and neither applied nor aborted, with the members that prepare it. Its key is
/// locked.
#[derive(Debug, Drop)]
pub struct Pending {
    pub txn: TxnNo,
    pub caller: CallerNo,
    pub call: CallNo,
    pub op: Update,
    pub list: BrickList,
}

/// A brick's status of a transaction.
#[derive(Clone, Copy, PartialEq, Eq, Debug)]
pub enum TxnStatus {
    NotPrepared,
    Prepared,
    Committed,
    Aborted,
}
