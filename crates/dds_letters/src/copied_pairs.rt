//! The pairs of one letter of a copy.

ghost use Rattle.std.specs.Prelude.{◌≡◌, ◌<◌, ◌≤◌, ◌++◌, [], ◌∷◌, IsTrue, IfOk, OnOk, OnErr, length, None, take};
ghost use Rattle.dds_base.specs.Place.{is_after, last_key, rise_after};

use dds_base::memory::Memory;
use dds_base::pair::{Pair, PairList};
use std::alloc::Global;
use std::marker::Model;

/// The most pairs of a letter.
pub const COPIED: usize = 32;

/// At most 32 pairs whose places rise strictly. Contracts see the list.
#[derive(Debug, Drop)]
pub struct CopiedPairs {
    pairs: PairList,
}

impl Model for CopiedPairs {
    ghost use Rattle.std.specs.Prelude.{List, ◌≤◌, IsTrue, length, None};
    ghost use Rattle.dds_base.specs.declared.pair.Pair.{Pair};
    ghost use Rattle.dds_base.specs.Place.{rise_after};

    ghost Value = { List Pair };

    ghost view = { λ a. a.pairs };

    ghost invariant = { λ a. (length a.pairs ≤ 32) × IsTrue (rise_after None a.pairs) };
}

impl CopiedPairs {
    /// Takes no memory.
    pub fn new(alloc: Global) -> CopiedPairs
        ensures { result ≡ [] }
    {
        CopiedPairs {
            pairs: PairList::new(alloc),
        }
    }

    /// Adds a pair behind the others, whose place is after theirs.
    pub fn push(&mut self, pair: Pair) -> Result<(), Memory>
        requires room { length self.old < 32 }
        requires rises { IsTrue (is_after (last_key None self.old) pair.key) }
        ensures ok { OnOk result (self.new ≡ self.old ++ pair ∷ []) }
        ensures err { OnErr result (self.new ≡ self.old) }
    {
        self.pairs.push(pair)?;
        Ok(())
    }

    pub fn as_slice(&self) -> &[Pair]
        ensures value { result.now ≡ self.now }
        ensures short { length result.now ≤ 32 }
        ensures rises { IsTrue (rise_after None result.now) }
    {
        self.pairs.as_slice()
    }

    pub fn copy(&self, alloc: Global) -> Result<CopiedPairs, Memory>
        ensures { IfOk result (λ copied. copied ≡ self.now) }
    {
        let pairs = copy_of(alloc, self.pairs.as_slice())?;
        Ok(CopiedPairs { pairs })
    }
}

fn copy_of(alloc: Global, pairs: &[Pair]) -> Result<PairList, Memory>
    ensures { IfOk result (λ copied. copied ≡ pairs.now) }
{
    let mut copied = PairList::new(alloc);
    for place in 0..pairs.len() {
        copied.push(pairs[place].copy()?)?;
    }
    Ok(copied)
}
