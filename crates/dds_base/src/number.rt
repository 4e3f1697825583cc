//! Numbers of nodes, callers, calls, transactions and leaves, each kept in its range by its type.

ghost use Rattle.std.specs.Prelude.{◌≡◌, ◌+◌, ◌<◌, ◌≤◌, ◌↔◌, IsTrue, nat_lt, if◌then◌else◌};
ghost use Rattle.dds_base.specs.Number.{is_maker};

use std::marker::Model;

/// The most bricks of a cluster; the numbers of bricks are below it.
pub const BRICKS: u8 = 64;

/// The most libraries of a cluster.
pub const LIBRARIES: u8 = 16;

/// The most callers of a cluster; their numbers are below it.
pub const CALLERS: u8 = 64;

/// The maker of an opening leaf's stamp: no node.
pub const NO_MAKER: u8 = 255;

/// A node: 0 to 63 are bricks, 64 to 79 are the libraries 0 to 15.
#[derive(Clone, Copy, PartialEq, Eq, PartialOrd, Ord, Debug)]
pub struct NodeNo {
    number: u8,
}

impl Model for NodeNo {
    ghost use Rattle.std.specs.Prelude.{ℕ, ◌<◌};

    ghost Value = { ℕ };

    ghost view = { λ a. a.number };

    ghost invariant = { λ a. a.number < 80 };

    ghost inverse = { λ n. record { number = n } };
}

impl NodeNo {
    /// The node of this number; `None` where it is above 79.
    pub fn of(number: u8) -> Option<NodeNo>
        ensures { result ≡ (if nat_lt number 80 then Some number else None) }
    {
        if number < BRICKS + LIBRARIES {
            Some(NodeNo { number })
        } else {
            None
        }
    }

    /// Brick `n`; `None` where `n` is above 63.
    pub fn brick(n: u8) -> Option<NodeNo>
        ensures { result ≡ (if nat_lt n 64 then Some n else None) }
    {
        if n < BRICKS {
            Some(NodeNo { number: n })
        } else {
            None
        }
    }

    /// Library `n`; `None` where `n` is above 15.
    pub fn library(n: u8) -> Option<NodeNo>
        ensures { result ≡ (if nat_lt n 16 then Some (64 + n) else None) }
    {
        if n < LIBRARIES {
            Some(NodeNo { number: BRICKS + n })
        } else {
            None
        }
    }

    pub fn number(&self) -> u8
        ensures value { result ≡ self.now }
        ensures range { result < 80 }
    {
        self.number
    }

    pub fn is_brick(&self) -> bool
        ensures { IsTrue result ↔ (self.now < 64) }
    {
        self.number < BRICKS
    }
}

/// A caller: 0 to 63.
#[derive(Clone, Copy, PartialEq, Eq, PartialOrd, Ord, Debug)]
pub struct CallerNo {
    number: u8,
}

impl Model for CallerNo {
    ghost use Rattle.std.specs.Prelude.{ℕ, ◌<◌};

    ghost Value = { ℕ };

    ghost view = { λ a. a.number };

    ghost invariant = { λ a. a.number < 64 };

    ghost inverse = { λ n. record { number = n } };
}

impl CallerNo {
    /// Caller `n`; `None` where `n` is above 63.
    pub fn of(n: u8) -> Option<CallerNo>
        ensures { result ≡ (if nat_lt n 64 then Some n else None) }
    {
        if n < CALLERS {
            Some(CallerNo { number: n })
        } else {
            None
        }
    }

    pub fn number(&self) -> u8
        ensures value { result ≡ self.now }
        ensures range { result < 64 }
    {
        self.number
    }
}

/// A caller's call, counted from 0 over its call lines.
#[derive(Clone, Copy, PartialEq, Eq, PartialOrd, Ord, Debug)]
pub struct CallNo(pub u32);

/// An attempt of a call: the library that made it and that library's number of the attempt, from 0.
#[derive(Clone, Copy, PartialEq, Eq, PartialOrd, Ord, Debug)]
pub struct TxnNo {
    library: NodeNo,
    number: u64,
}

impl Model for TxnNo {
    ghost use Rattle.std.specs.Prelude.{◌≤◌};
    ghost use Rattle.dds_base.specs.Number.{Txn};

    ghost Value = { Txn };

    ghost view = { λ a. record { library = a.library; number = a.number } };

    ghost invariant = { λ a. 64 ≤ a.library };

    ghost inverse = { λ t. record { library = t.library; number = t.number } };
}

impl TxnNo {
    pub fn new(library: NodeNo, number: u64) -> TxnNo
        requires { 64 ≤ library }
        ensures { result ≡ record { library = library; number = number } }
    {
        TxnNo { library, number }
    }

    pub fn library(&self) -> NodeNo
        ensures value { result ≡ self.now.library }
        ensures range { 64 ≤ result }
    {
        self.library
    }

    pub fn number(&self) -> u64
        ensures { result ≡ self.now.number }
    {
        self.number
    }
}

/// Who made a leaf, and which of the leaves that this node made it is. Leaves with equal names and stamps are equal.
#[derive(Clone, Copy, PartialEq, Eq, PartialOrd, Ord, Debug)]
pub struct Stamp {
    maker: u8,
    count: u64,
}

impl Model for Stamp {
    ghost use Rattle.std.specs.Prelude.{◌<◌, ◌≡◌, ◌⊎◌};
    ghost use Rattle.dds_base.specs.Number.{StampOf};

    ghost Value = { StampOf };

    ghost view = { λ a. record { maker = a.maker; count = a.count } };

    ghost invariant = { λ a. (a.maker < 80) ⊎ (a.maker ≡ 255) };

    ghost inverse = { λ t. record { maker = t.maker; count = t.count } };
}

impl Stamp {
    /// A stamp of the node that made the leaf.
    pub fn made_by(maker: NodeNo, count: u64) -> Stamp
        ensures { result ≡ record { maker = maker; count = count } }
    {
        Stamp {
            maker: maker.number(),
            count,
        }
    }

    /// The stamp of opening leaf `count`.
    pub fn opening(count: u64) -> Stamp
        ensures { result ≡ record { maker = 255; count = count } }
    {
        Stamp {
            maker: NO_MAKER,
            count,
        }
    }

    /// A stamp of this maker; `None` where it is neither a node's number nor 255, the maker of an opening leaf.
    pub fn of(maker: u8, count: u64) -> Option<Stamp>
        ensures { result ≡ (if is_maker maker then Some record { maker = maker; count = count } else None) }
    {
        if maker < BRICKS + LIBRARIES || maker == NO_MAKER {
            Some(Stamp { maker, count })
        } else {
            None
        }
    }

    pub fn maker(&self) -> u8
        ensures value { result ≡ self.now.maker }
        ensures range { IsTrue (is_maker result) }
    {
        self.maker
    }

    pub fn count(&self) -> u64
        ensures { result ≡ self.now.count }
    {
        self.count
    }
}
