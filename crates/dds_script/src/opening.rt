//! The opening of a script, and the script as a whole.

ghost use Rattle.std.specs.Prelude.{◌≡◌, ◌^◌, ◌<◌, IfOk, length};
ghost use Rattle.std.specs.List.{AllByRecursion};
ghost use Rattle.dds_script.specs.Opening.{IsOpening, IsScript, first_leaf, first_opening, ranges_of};
ghost use Rattle.dds_script.specs.Ranges.{IsInRanges};

use crate::line::{Line, LineList};
use crate::ranges::Ranges;
use dds_base::brick_list::BrickList;
use dds_base::items::Items;
use dds_base::leaf::Leaf;
use dds_base::memory::Memory;
use dds_base::name::LeafName;
use dds_base::number::Stamp;
use std::alloc::Global;
use std::marker::Model;

/// Leaves in the order of their lines.
pub type LeafList = Items<Leaf>;

/// How a cluster begins: how many bricks, libraries and callers it has, its leaves, and the stale leaves of libraries.
#[derive(Debug, Drop)]
pub struct Opening {
    ranges: Ranges,
    leaves: LeafList,
    old: LeafList,
}

impl Model for Opening {
    ghost use Rattle.dds_script.specs.Opening.{OpeningOf, IsOpening};

    ghost Value = { OpeningOf };

    ghost view = { λ a. record { bricks = a.ranges.bricks; libraries = a.ranges.libraries; callers = a.ranges.callers; leaves = a.leaves; old = a.old } };

    ghost invariant = { λ a. IsOpening record {
      bricks = a.ranges.bricks;
      libraries = a.ranges.libraries;
      callers = a.ranges.callers;
      leaves = a.leaves;
      old = a.old;
    } };
}

impl Opening {
    /// Takes no memory.
    pub fn of(ranges: Ranges, leaves: LeafList, old: LeafList) -> Opening
        requires { IsOpening record { bricks = ranges.bricks; libraries = ranges.libraries; callers = ranges.callers; leaves = leaves; old = old } }
        ensures { result
            ≡ record { bricks = ranges.bricks; libraries = ranges.libraries; callers = ranges.callers; leaves = leaves; old = old } }
    {
        Opening {
            ranges,
            leaves,
            old,
        }
    }

    pub fn bricks(&self) -> u8
        ensures value { result ≡ self.now.bricks }
        ensures kept { IsOpening self.now }
    {
        self.ranges.bricks
    }

    pub fn libraries(&self) -> u8
        ensures value { result ≡ self.now.libraries }
        ensures kept { IsOpening self.now }
    {
        self.ranges.libraries
    }

    pub fn callers(&self) -> u8
        ensures value { result ≡ self.now.callers }
        ensures kept { IsOpening self.now }
    {
        self.ranges.callers
    }

    pub fn ranges(&self) -> Ranges
        ensures value { result ≡ ranges_of self.now }
        ensures kept { IsOpening self.now }
    {
        self.ranges
    }

    pub fn leaves(&self) -> &[Leaf]
        ensures value { result.now ≡ self.now.leaves }
        ensures kept { IsOpening self.now }
    {
        self.leaves.as_slice()
    }

    /// The stale leaves; the library of each is the maker in its stamp.
    pub fn old(&self) -> &[Leaf]
        ensures value { result.now ≡ self.now.old }
        ensures kept { IsOpening self.now }
    {
        self.old.as_slice()
    }
}

/// An opening and the lines behind it.
#[derive(Debug, Drop)]
pub struct Script {
    opening: Opening,
    lines: LineList,
}

impl Model for Script {
    ghost use Rattle.dds_script.specs.Opening.{ScriptOf, IsScript};

    ghost Value = { ScriptOf };

    ghost view = { λ a. record { opening = a.opening; lines = a.lines } };

    ghost invariant = { λ a. IsScript record { opening = a.opening; lines = a.lines } };
}

impl Script {
    /// Takes no memory.
    pub fn of(opening: Opening, lines: LineList) -> Script
        requires few { length lines < 2 ^ 32 }
        requires ranges { AllByRecursion (IsInRanges (ranges_of opening)) lines }
        ensures { result ≡ record { opening = opening; lines = lines } }
    {
        Script { opening, lines }
    }

    pub fn opening(&self) -> &Opening
        ensures value { result.now ≡ self.now.opening }
        ensures kept { IsScript self.now }
    {
        &self.opening
    }

    pub fn lines(&self) -> &[Line]
        ensures value { result.now ≡ self.now.lines }
        ensures kept { IsScript self.now }
    {
        self.lines.as_slice()
    }
}

/// One brick, one library, one caller, and one leaf that covers every key.
pub fn first_opening(alloc: Global) -> Result<Opening, Memory>
    ensures { IfOk result (λ opening. opening ≡ first_opening) }
{
    let mut leaves = LeafList::new(alloc);
    leaves.push(first_leaf())?;
    let ranges = Ranges {
        bricks: 1,
        libraries: 1,
        callers: 1,
    };
    Ok(Opening::of(ranges, leaves, LeafList::new(alloc)))
}

fn first_leaf() -> Leaf
    ensures { result ≡ first_leaf }
{
    Leaf {
        name: LeafName::of(0, 0).unwrap(),
        epoch: 1,
        stamp: Stamp::opening(0),
        prev: Stamp::opening(0),
        list: BrickList::of(&[0]).unwrap(),
    }
}
