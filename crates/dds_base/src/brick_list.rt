//! The members of a replica group: at most eight bricks, each once, in an array.

ghost use Rattle.std.specs.Prelude.{◌≡◌, ◌==◌, false, ◌<◌, ◌≤◌, ◌++◌, [], ◌∷◌, IsTrue, length, slice_index, if◌then◌else◌};
ghost use Rattle.dds_base.specs.BrickList.{is_brick_list, are_bricks, has};

use crate::number::{BRICKS, NodeNo};
use std::marker::Model;

/// The most members of a list.
pub const MEMBERS: usize = 8;

/// A list of at most eight numbers, in an array whose unused places are 0.
#[derive(Clone, Copy, PartialEq, Eq, PartialOrd, Ord, Debug)]
struct ShortList {
    items: [u8; 8],
    len: usize,
}

impl Model for ShortList {
    ghost use Rattle.std.specs.Prelude.{ℕ, List, ◌-◌, ◌++◌, take, length, replicate};
    ghost use Rattle.dds_base.specs.ShortList.{IsPadded, padded, unpadded};

    ghost Value = { List ℕ };

    ghost view = { λ a. take a.len a.items };

    ghost invariant = { λ a. IsPadded a.items a.len };

    ghost inverse = { λ xs. record { items = xs ++ replicate (8 - length xs) 0; len = length xs } };

    ghost inverse_ok = { λ a h. λ i. record { items = padded a.items a.len h i; len = unpadded a.items a.len h i } };
}

impl ShortList {
    fn new() -> ShortList
        ensures { result ≡ [] }
    {
        ShortList {
            items: [0; 8],
            len: 0,
        }
    }

    fn push(&mut self, number: u8)
        requires { length self.old < 8 }
        ensures { self.new ≡ self.old ++ number ∷ [] }
    {
        self.items[self.len] = number;
        self.len += 1;
    }

    fn len(&self) -> usize
        ensures value { result ≡ length self.now }
        ensures range { result ≤ 8 }
    {
        self.len
    }

    fn at(&self, place: usize) -> u8
        requires { place < length self.now }
        ensures { result ≡ slice_index self.now place }
    {
        self.items[place]
    }
}

/// A replica group: 1 to 8 bricks, each once, in an order that the protocol uses.
#[derive(Clone, Copy, PartialEq, Eq, PartialOrd, Ord, Debug)]
pub struct BrickList {
    members: ShortList,
}

impl Model for BrickList {
    ghost use Rattle.std.specs.Prelude.{ℕ, List, IsTrue};
    ghost use Rattle.dds_base.specs.BrickList.{is_brick_list};

    ghost Value = { List ℕ };

    ghost view = { λ a. a.members };

    ghost invariant = { λ a. IsTrue (is_brick_list a.members) };

    ghost inverse = { λ xs. record { members = xs } };
}

impl BrickList {
    /// `None` where there are none or more than 8, a number is above 63, or one stands twice.
    pub fn of(bricks: &[u8]) -> Option<BrickList>
        ensures { result ≡ (if is_brick_list bricks.now then Some bricks.now else None) }
    {
        if bricks.is_empty() || bricks.len() > MEMBERS || !are_bricks(bricks) {
            return None;
        }
        Some(BrickList {
            members: short_list(bricks),
        })
    }

    pub fn len(&self) -> usize
        ensures value { result ≡ length self.now }
        ensures range { (0 < result) × (result ≤ 8) }
        ensures bricks { IsTrue (are_bricks self.now) }
    {
        self.members.len()
    }

    pub fn at(&self, place: usize) -> NodeNo
        requires { place < length self.now }
        ensures value { result ≡ slice_index self.now place }
        ensures brick { result < 64 }
    {
        brick_at(self.members, place)
    }
}

/// Some members of a replica group, in its order: at most 8 bricks, each once.
#[derive(Clone, Copy, PartialEq, Eq, PartialOrd, Ord, Debug)]
pub struct LiveList {
    members: ShortList,
}

impl Model for LiveList {
    ghost use Rattle.std.specs.Prelude.{ℕ, List, IsTrue};
    ghost use Rattle.dds_base.specs.BrickList.{are_bricks};

    ghost Value = { List ℕ };

    ghost view = { λ a. a.members };

    ghost invariant = { λ a. IsTrue (are_bricks a.members) };

    ghost inverse = { λ xs. record { members = xs } };
}

impl LiveList {
    pub fn new() -> LiveList
        ensures { result ≡ [] }
    {
        LiveList {
            members: ShortList::new(),
        }
    }

    /// Adds a brick behind the others.
    pub fn push(&mut self, brick: NodeNo)
        requires room { length self.old < 8 }
        requires brick { brick < 64 }
        requires new { has self.old brick ≡ false }
        ensures { self.new ≡ self.old ++ brick ∷ [] }
    {
        self.members.push(brick.number());
    }

    /// The same members as a replica group; `None` where there are none.
    pub fn group(&self) -> Option<BrickList>
        ensures { result ≡ (if length self.now == 0 then None else Some self.now) }
    {
        if self.members.len() == 0 {
            return None;
        }
        Some(BrickList {
            members: self.members,
        })
    }

    pub fn len(&self) -> usize
        ensures value { result ≡ length self.now }
        ensures range { result ≤ 8 }
        ensures bricks { IsTrue (are_bricks self.now) }
    {
        self.members.len()
    }

    pub fn at(&self, place: usize) -> NodeNo
        requires { place < length self.now }
        ensures value { result ≡ slice_index self.now place }
        ensures brick { result < 64 }
    {
        brick_at(self.members, place)
    }
}

fn brick_at(members: ShortList, place: usize) -> NodeNo
    requires within { place < length members }
    requires bricks { IsTrue (are_bricks members) }
    ensures value { result ≡ slice_index members place }
    ensures brick { result < 64 }
{
    NodeNo::brick(members.at(place)).unwrap()
}

fn short_list(numbers: &[u8]) -> ShortList
    requires { length numbers.now ≤ 8 }
    ensures { result ≡ numbers.now }
{
    let mut list = ShortList::new();
    for number in numbers {
        list.push(*number);
    }
    list
}

fn are_bricks(numbers: &[u8]) -> bool
    ensures { result ≡ are_bricks numbers.now }
{
    for (place, number) in numbers.iter().enumerate() {
        if *number >= BRICKS || has(&numbers[place + 1..], *number) {
            return false;
        }
    }
    true
}

fn has(numbers: &[u8], wanted: u8) -> bool
    ensures { result ≡ has numbers.now wanted }
{
    for number in numbers {
        if *number == wanted {
            return true;
        }
    }
    false
}
