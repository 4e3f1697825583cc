//! A table of version 1 on another disk becomes a table of a store.

ghost use Rattle.std.specs.Prelude.{◌≡◌, ◌≤◌, Some, None, true, false, IsTrue, IfOk, IfErr, OnOk, OnErr, IsErrOf, length};
ghost use Rattle.std.specs.FinMap.{len as size};
ghost use Rattle.dds_base.specs.Outside.{Rose};
ghost use Rattle.dds_disk.specs.Pages.{Pages};
ghost use Rattle.dds_chains.specs.Answers.{IsNoPage};
ghost use Rattle.dds_table.specs.Lawful.{IsRefused as IsPageRefused};
ghost use Rattle.dds_table.specs.Store.{has_table, maps_of, map_named, with_map, Holds};
ghost use Rattle.dds_table.specs.Old.{AreCovered};
ghost use Rattle.dds_table.specs.Lift.{map_of, Lifted, IsRefused, IsStores, Keeps};

use crate::fault::{LiftFault, TableFault};
use crate::store::Store;
use crate::walk::read_all;
use dds_base::name::LeafName;
use dds_base::pair::Pair;
use dds_disk::disk::Disk;

impl<D: Disk> Store<D> {
    /// Reads the table of version 1 that another disk has at a root page, and puts its pairs into an empty table; says
    /// how many there are. The whole table is read before the first pair is put.
    pub fn lift<E: Disk>(
        &mut self,
        name: LeafName,
        old: &mut E,
        root: u64,
    ) -> Result<u32, LiftFault>
        requires live { self.old.failed ≡ false }
        requires there { IsTrue (has_table self.old.tables name) }
        requires empty { (a : Pages) → D.pages self.old.cache.disk ≡ Some a → size (map_named (maps_of a self.old.tables) name) ≡ 0 }
        ensures told { (a p : Pages) → D.pages self.old.cache.disk ≡ Some a → E.pages old.old ≡ Some p →
            IfOk result (λ count. Lifted p name root count (D.pages self.new.cache.disk) self.new.tables (maps_of a self.old.tables)) }
        ensures page { (p : Pages) → E.pages old.old ≡ Some p → IsRefused p name root result }
        ensures tables { OnOk result (self.new.tables ≡ self.old.tables) }
        ensures ok { OnOk result (self.new.failed ≡ false) }
        ensures err { IfErr result (λ fault. Keeps fault self.new.failed (self.new ≡ self.old)) }
        ensures old { E.pages old.new ≡ E.pages old.old }
        ensures lawful { (a : Pages) → D.pages self.old.cache.disk ≡ Some a → IfErr result (IsStores IsNoPage) }
        ensures refused { IfErr result (IsStores (IsPageRefused self.new.cache.kept self.new.slots)) }
        ensures untold { D.pages self.old.cache.disk ≡ None → D.pages self.new.cache.disk ≡ None }
        ensures old_rose { IsErrOf result LiftFault.Old → Rose (E.faults old.old) (E.faults old.new) }
        ensures rose { IfErr result (IsStores (λ fault. fault ≡ TableFault.Disk → Rose (D.faults self.old.cache.disk) (D.faults self.new.cache.disk))) }
        ensures steady { OnOk result (D.faults self.new.cache.disk ≡ D.faults self.old.cache.disk) }
        ensures old_steady { OnOk result (E.faults old.new ≡ E.faults old.old) }
        ensures never_falls { D.faults self.old.cache.disk ≤ D.faults self.new.cache.disk }
        ensures old_never_falls { E.faults old.old ≤ E.faults old.new }
    {
        let pairs = match read_all(self.alloc(), old, name, root) {
            Ok(pairs) => pairs,
            Err(fault) => return Err(fault),
        };
        match self.put_all(name, pairs.as_slice()) {
            Ok(()) => Ok(pairs.len() as u32),
            Err(fault) => Err(LiftFault::Store(fault)),
        }
    }

    /// Puts pairs into an empty table.
    fn put_all(&mut self, name: LeafName, pairs: &[Pair]) -> Result<(), TableFault>
        requires live { self.old.failed ≡ false }
        requires there { IsTrue (has_table self.old.tables name) }
        requires empty { (a : Pages) → D.pages self.old.cache.disk ≡ Some a → size (map_named (maps_of a self.old.tables) name) ≡ 0 }
        requires covered { AreCovered name pairs.now }
        requires few { length pairs.now ≤ 16384 }
        ensures told { (a : Pages) → D.pages self.old.cache.disk ≡ Some a →
            OnOk result (Holds (D.pages self.new.cache.disk) self.new.tables (with_map (maps_of a self.old.tables) name (map_of pairs.now))) }
        ensures tables { OnOk result (self.new.tables ≡ self.old.tables) }
        ensures ok { OnOk result (self.new.failed ≡ false) }
        ensures err { OnErr result (self.new.failed ≡ true) }
        ensures lawful { (a : Pages) → D.pages self.old.cache.disk ≡ Some a → IfErr result IsNoPage }
        ensures refused { IfErr result (IsPageRefused self.new.cache.kept self.new.slots) }
        ensures untold { D.pages self.old.cache.disk ≡ None → D.pages self.new.cache.disk ≡ None }
        ensures rose { IsErrOf result TableFault.Disk → Rose (D.faults self.old.cache.disk) (D.faults self.new.cache.disk) }
        ensures steady { OnOk result (D.faults self.new.cache.disk ≡ D.faults self.old.cache.disk) }
        ensures never_falls { D.faults self.old.cache.disk ≤ D.faults self.new.cache.disk }
    {
        'putting: for pair in pairs {
            self.put(name, pair.key, &pair.value)?;
        }
        Ok(())
    }
}
