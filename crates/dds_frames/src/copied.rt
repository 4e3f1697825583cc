//! Reading the pairs of a copy.

ghost use Rattle.std.specs.Prelude.{◌≡◌, ◌<◌, ◌≤◌, [], length, IsTrue, IfOk};
ghost use Rattle.dds_base.specs.Place.{is_after};
ghost use Rattle.dds_frames.specs.Reading.{ReadsAs, tested_at};
ghost use Rattle.dds_frames.specs.Parts.{pair_at, pairs_from, pairs_at};

use crate::fault::FieldFault;
use crate::fields::Fields;
use dds_base::pair::Pair;
use dds_base::place::is_before;
use dds_letters::copied_pairs::{COPIED, CopiedPairs};
use std::alloc::Global;

impl<'a> Fields<'a> {
    /// A key whose place is after that of another, if there is one.
    #[tactic(auto, unfolding(crate::specs::Reading::tested_at))]
    fn key_after(&mut self, after: Option<u64>) -> Result<u64, FieldFault>
        ensures value { ReadsAs result self.new (tested_at 8 (is_after after) self.old) }
        ensures rises { IfOk result (λ key. IsTrue (is_after after key)) }
    {
        let left = self.left();
        let key = self.number_8()?;
        if !is_after(after, key) {
            return Err(FieldFault::Refused { left });
        }
        Ok(key)
    }

    #[tactic(auto, unfolding(crate::specs::Parts::pair_at))]
    fn pair(&mut self, alloc: Global, after: Option<u64>) -> Result<Pair, FieldFault>
        ensures value { ReadsAs result self.new (pair_at after self.old) }
        ensures rises { IfOk result (λ pair. IsTrue (is_after after pair.key)) }
    {
        let key = self.key_after(after)?;
        let value = self.value(alloc)?;
        Ok(Pair { key, value })
    }

    /// So many pairs, in rising places.
    fn pairs_from(&mut self, alloc: Global, n: usize) -> Result<CopiedPairs, FieldFault>
        requires { n ≤ 32 }
        ensures { ReadsAs result self.new (pairs_from n [] self.old) }
    {
        let mut pairs = CopiedPairs::new(alloc);
        let mut after = None;
        for _pair in 0..n {
            let pair = self.pair(alloc, after)?;
            after = Some(pair.key);
            pairs.push(pair)?;
        }
        Ok(pairs)
    }

    #[tactic(auto, unfolding(crate::specs::Reading::tested_at, crate::specs::Parts::pairs_at))]
    pub(crate) fn pairs(&mut self, alloc: Global) -> Result<CopiedPairs, FieldFault>
        ensures { ReadsAs result self.new (pairs_at self.old) }
    {
        let left = self.left();
        let n = usize::from(self.number_2()?);
        if n > COPIED {
            return Err(FieldFault::Refused { left });
        }
        self.pairs_from(alloc, n)
    }
}

/// Whether a key's place is after that of another, if there is one.
fn is_after(after: Option<u64>, key: u64) -> bool
    ensures { result ≡ is_after after key }
{
    match after {
        None => true,
        Some(other) => is_before(other, key),
    }
}
