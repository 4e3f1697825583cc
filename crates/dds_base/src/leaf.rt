//! A leaf of the partition map: a partition with its replica group.

use crate::brick_list::BrickList;
use crate::name::LeafName;
use crate::number::Stamp;

/// A partition and its replica group, as one maker put it together. `epoch` is 1 for an opening leaf, 0 for a stale
/// one, and one more than its predecessor's else. `prev` is the predecessor's stamp.
#[derive(Clone, Copy, PartialEq, Eq, Debug)]
pub struct Leaf {
    pub name: LeafName,
    pub epoch: u64,
    pub stamp: Stamp,
    pub prev: Stamp,
    pub list: BrickList,
}
