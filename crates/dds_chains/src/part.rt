//! The pairs of a table, one part after another in the order of their places.

ghost use Rattle.std.specs.Prelude.{◌≡◌, ℕ, ◌+◌, ◌-◌, ◌<◌, ◌≤◌, ◌^◌, List, ◌∷◌, [], Some, None, length, get_or, IfOk, IfErr, OnOk, IsErrOf};
ghost use Rattle.dds_base.specs.Outside.{Rose};
ghost use Rattle.dds_disk.specs.Pages.{Pages};
ghost use Rattle.dds_chains.specs.Content.{content};
ghost use Rattle.dds_base.specs.Place.{bucket as bucket_no};
ghost use Rattle.dds_chains.specs.Index.{IsTable, IsIndex};
ghost use Rattle.dds_chains.specs.Answers.{IsNoPage};
ghost use Rattle.dds_chains.specs.Lawful.{IsTableRefused};
ghost use Rattle.dds_chains.specs.Part.{earlier, in_chain, has_key, IsNext, IsPart};
ghost use Rattle.dds_base.specs.Place.{is_after};
ghost use Rattle.dds_base.specs.Place.{is_before};

use crate::fault::TableFault;
use crate::pairs::get;
use crate::space::Space;
use crate::table::{Chains, Slot};
use dds_base::pair::{Pair, PairList};
use dds_base::place::{is_after, is_before};
use dds_disk::disk::Disk;

/// Some pairs that follow one another in place, and whether none follow them.
#[derive(Drop)]
pub struct Part {
    pub pairs: PairList,
    pub last: bool,
}

/// The first of two keys in place, of which the first may be missing, after another.
fn earlier(best: Option<u64>, after: Option<u64>, key: u64) -> Option<u64>
    ensures { result ≡ earlier best after key }
{
    if !is_after(after, key) {
        return best;
    }
    match best {
        None => Some(key),
        Some(old) => Some(if is_before(key, old) { key } else { old }),
    }
}

/// The first key of a chain in place after another.
fn least(slots: &[Slot], after: Option<u64>) -> Option<u64>
    ensures { IsNext (in_chain slots.now) after result }
{
    let mut best = None;
    'slots: for slot in slots {
        best = earlier(best, after, slot.key);
    }
    best
}

/// The first key of a table in place after another.
fn next_key(table: &Chains, after: Option<u64>) -> Option<u64>
    requires { IsIndex table.now }
    ensures { IsNext (has_key table.now) after result }
{
    'buckets: for bucket in 0..table.buckets.len() {
        let slots = &table.buckets[bucket];
        let found = least(slots.as_slice(), after);
        if found.is_some() {
            return found;
        }
    }
    None
}

/// Reads the pairs next in place.
pub fn read_part<D: Disk>(
    space: &mut Space<D>,
    table: &Chains,
    start: Option<u64>,
    most: usize,
) -> Result<Part, TableFault>
    requires { IsIndex table.now }
    ensures same { D.pages space.new.cache.disk ≡ D.pages space.old.cache.disk }
    ensures told { (a : Pages) → D.pages space.old.cache.disk ≡ Some a → IsTable a table.now →
        IfOk result (λ part. IsPart (content a table.now.root) start most part.pairs part.last) }
    ensures most { IfOk result (λ part. length part.pairs ≤ most) }
    ensures lawful { (a : Pages) → D.pages space.old.cache.disk ≡ Some a → IsTable a table.now → IfErr result IsNoPage }
    ensures refused { IfErr result (IsTableRefused space.new.cache.kept table.now.buckets.items) }
    ensures free { space.new.free.items ≡ space.old.free.items }
    ensures fresh { space.new.fresh ≡ space.old.fresh }
    ensures rose { IsErrOf result TableFault.Disk → Rose (D.faults space.old.cache.disk) (D.faults space.new.cache.disk) }
    ensures steady { OnOk result (D.faults space.new.cache.disk ≡ D.faults space.old.cache.disk) }
    ensures never_falls { D.faults space.old.cache.disk ≤ D.faults space.new.cache.disk }
{
    let mut pairs = PairList::new(space.alloc);
    let mut after = start;
    'pairs: for _pair in 0..most {
        let key = match next_key(table, after) {
            Some(key) => key,
            None => return Ok(Part { pairs, last: true }),
        };
        let value = match get(space, table, key) {
            Ok(Some(value)) => value,
            Ok(None) => return Ok(Part { pairs, last: true }),
            Err(fault) => return Err(fault),
        };
        pairs.push(Pair { key, value })?;
        after = Some(key);
    }
    match next_key(table, after) {
        None => Ok(Part { pairs, last: true }),
        Some(_) => Ok(Part { pairs, last: false }),
    }
}
