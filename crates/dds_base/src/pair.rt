//! A key with its value.

ghost use Rattle.std.specs.Prelude.{◌≡◌, IfOk};

use crate::items::Items;
use crate::memory::Memory;
use crate::value::Value;

/// A key and what it is bound to.
#[derive(Debug, Drop)]
pub struct Pair {
    pub key: u64,
    pub value: Value,
}

pub type PairList = Items<Pair>;

impl Pair {
    pub fn copy(&self) -> Result<Pair, Memory>
        ensures { IfOk result (λ pair. pair ≡ self.now) }
    {
        Ok(Pair {
            key: self.key,
            value: self.value.copy()?,
        })
    }
}
