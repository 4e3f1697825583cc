//! The outbox: letters with their receivers, first in, first out.

ghost use Rattle.std.specs.Prelude.{◌≡◌, ◌++◌, [], ◌∷◌, drop, slice_get, OnOk, OnErr};

use crate::letter::Letter;
use dds_base::memory::Memory;
use dds_base::number::NodeNo;
use std::alloc::Global;
use std::collections::VecDeque;
use std::marker::Model;

/// Letters that wait, each with its receiver, in the order of sending.
#[derive(Drop)]
pub struct Outbox {
    letters: VecDeque<(NodeNo, Letter)>,
}

impl Model for Outbox {
    ghost use Rattle.std.specs.Prelude.{ℕ, List};
    ghost use Rattle.dds_letters.specs.declared.letter.Letter.{Letter};
    ghost use Rattle.dds_base.specs.declared.number.NodeNo.{NodeNo};

    ghost Value = { List (NodeNo × Letter) };

    ghost view = { λ a. a.letters.items };
}

impl Outbox {
    /// Takes no memory.
    pub fn new(alloc: Global) -> Outbox
        ensures { result ≡ [] }
    {
        Outbox {
            letters: VecDeque::new(alloc),
        }
    }

    pub fn push(&mut self, to: NodeNo, letter: Letter) -> Result<(), Memory>
        ensures ok { OnOk result (self.new ≡ self.old ++ (to, letter) ∷ []) }
        ensures err { OnErr result (self.new ≡ self.old) }
    {
        self.letters.push_back((to, letter))?;
        Ok(())
    }

    /// The first letter and its receiver; `None` exactly where the outbox is empty.
    pub fn pop(&mut self) -> Option<(NodeNo, Letter)>
        ensures first { result ≡ slice_get self.old 0 }
        ensures rest { self.new ≡ drop 1 self.old }
    {
        self.letters.pop_front()
    }

    /// Takes all letters of another outbox, behind its own.
    pub fn append(&mut self, mut other: Outbox) -> Result<(), Memory>
        ensures ok { OnOk result (self.new ≡ self.old ++ other) }
    {
        self.letters.append(&mut other.letters)?;
        Ok(())
    }
}
