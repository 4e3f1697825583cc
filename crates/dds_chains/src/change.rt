//! Binding and unbinding a key of a table.

ghost use Rattle.std.specs.Prelude.{◌≡◌, ℕ, ◌+◌, ◌<◌, ◌≤◌, Some, false, IsTrue, IfOk, IfErr, OnOk, IsErrOf, None, ◌==◌, ◌||◌, ◌&&◌, not};
ghost use Rattle.std.specs.FinMap.{insert, remove as without, contains_key};
ghost use Rattle.dds_base.specs.Name.{covers};
ghost use Rattle.dds_base.specs.Outside.{Rose};
ghost use Rattle.dds_disk.specs.Pages.{Pages};
ghost use Rattle.dds_chains.specs.Content.{content};
ghost use Rattle.dds_chains.specs.Index.{IsTable, IsIndex, table_uses, vacant};
ghost use Rattle.dds_chains.specs.Answers.{IsNoPage, Changed};
ghost use Rattle.dds_chains.specs.Part.{has_key};
ghost use Rattle.dds_chains.specs.Lawful.{IsTableRefused, WherePage};

use crate::fault::TableFault;
use crate::pairs::add_pair;
use crate::removal::remove_pair;
use crate::space::Space;
use crate::table::{Chains, place_of};
use dds_base::value::Value;
use dds_disk::disk::Disk;

/// Binds a key to a value; whether it was bound before.
pub fn bind<D: Disk>(
    space: &mut Space<D>,
    table: &mut Chains,
    key: u64,
    value: &Value,
) -> Result<bool, TableFault>
    requires index { IsIndex table.old }
    requires covers { IsTrue (covers table.old.name key) }
    requires single { (n : ℕ) → vacant n space.old.free.items space.old.fresh + table_uses n table.old ≤ 1 }
    ensures index { OnOk result (IsIndex table.new) }
    ensures name { OnOk result (table.new.name ≡ table.old.name) }
    ensures root { OnOk result (table.new.root ≡ table.old.root) }
    ensures number { OnOk result ((n : ℕ) → vacant n space.new.free.items space.new.fresh + table_uses n table.new
        ≡ vacant n space.old.free.items space.old.fresh + table_uses n table.old) }
    ensures told { (a : Pages) → D.pages space.old.cache.disk ≡ Some a → IsTable a table.old →
        (contains_key (content a table.old.root) key ≡ false → table.old.len < 16384) →
        OnOk result (Changed a space.old.free.items space.old.fresh table.old (D.pages space.new.cache.disk) table.new
        (insert (content a table.old.root) key value.now)) }
    ensures known { IfOk result (λ was. was ≡ has_key table.old key) }
    ensures keys { OnOk result ((q : ℕ) → has_key table.new q ≡ (key == q || has_key table.old q)) }
    ensures was { (a : Pages) → D.pages space.old.cache.disk ≡ Some a → IsTable a table.old →
        IfOk result (λ was. was ≡ contains_key (content a table.old.root) key) }
    ensures lawful { (a : Pages) → D.pages space.old.cache.disk ≡ Some a → IsTable a table.old → IfErr result IsNoPage }
    ensures refused { IfErr result (IsTableRefused space.new.cache.kept table.old.buckets.items) }
    ensures stays { IfErr result (WherePage (table.new ≡ table.old)) }
    ensures untold { D.pages space.old.cache.disk ≡ None → D.pages space.new.cache.disk ≡ None }
    ensures rose { IsErrOf result TableFault.Disk → Rose (D.faults space.old.cache.disk) (D.faults space.new.cache.disk) }
    ensures steady { OnOk result (D.faults space.new.cache.disk ≡ D.faults space.old.cache.disk) }
    ensures never_falls { D.faults space.old.cache.disk ≤ D.faults space.new.cache.disk }
{
    match place_of(table.chain(key), key) {
        None => {
            add_pair(space, table, key, value)?;
            Ok(false)
        }
        Some(place) => {
            remove_pair(space, table, key, place)?;
            add_pair(space, table, key, value)?;
            Ok(true)
        }
    }
}

/// Unbinds a key; whether it was bound before.
pub fn unbind<D: Disk>(
    space: &mut Space<D>,
    table: &mut Chains,
    key: u64,
) -> Result<bool, TableFault>
    requires index { IsIndex table.old }
    requires single { (n : ℕ) → vacant n space.old.free.items space.old.fresh + table_uses n table.old ≤ 1 }
    ensures index { OnOk result (IsIndex table.new) }
    ensures name { OnOk result (table.new.name ≡ table.old.name) }
    ensures root { OnOk result (table.new.root ≡ table.old.root) }
    ensures number { OnOk result ((n : ℕ) → vacant n space.new.free.items space.new.fresh + table_uses n table.new
        ≡ vacant n space.old.free.items space.old.fresh + table_uses n table.old) }
    ensures told { (a : Pages) → D.pages space.old.cache.disk ≡ Some a → IsTable a table.old →
        OnOk result (Changed a space.old.free.items space.old.fresh table.old (D.pages space.new.cache.disk) table.new
        (without (content a table.old.root) key)) }
    ensures known { IfOk result (λ was. was ≡ has_key table.old key) }
    ensures keys { OnOk result ((q : ℕ) → has_key table.new q ≡ (not (key == q) && has_key table.old q)) }
    ensures was { (a : Pages) → D.pages space.old.cache.disk ≡ Some a → IsTable a table.old →
        IfOk result (λ was. was ≡ contains_key (content a table.old.root) key) }
    ensures lawful { (a : Pages) → D.pages space.old.cache.disk ≡ Some a → IsTable a table.old → IfErr result IsNoPage }
    ensures refused { IfErr result (IsTableRefused space.new.cache.kept table.old.buckets.items) }
    ensures stays { IfErr result (WherePage (table.new ≡ table.old)) }
    ensures untold { D.pages space.old.cache.disk ≡ None → D.pages space.new.cache.disk ≡ None }
    ensures rose { IsErrOf result TableFault.Disk → Rose (D.faults space.old.cache.disk) (D.faults space.new.cache.disk) }
    ensures steady { OnOk result (D.faults space.new.cache.disk ≡ D.faults space.old.cache.disk) }
    ensures never_falls { D.faults space.old.cache.disk ≤ D.faults space.new.cache.disk }
{
    match place_of(table.chain(key), key) {
        None => Ok(false),
        Some(place) => {
            remove_pair(space, table, key, place)?;
            Ok(true)
        }
    }
}
