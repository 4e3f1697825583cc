//! The entries of a history.

use dds_base::number::{CallNo, CallerNo};
use dds_base::op::{Op, Reply};

/// One operation of one call with its reply, at its place in the one history of the map.
#[derive(Debug, Drop)]
pub struct Entry {
    pub caller: CallerNo,
    pub call: CallNo,
    pub op: Op,
    pub reply: Reply,
}
