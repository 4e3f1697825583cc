//! A table becomes the tables of its name's two halves.

ghost use Rattle.std.specs.Prelude.{◌≡◌, ◌<◌, ◌≤◌, ◌++◌, ◌∷◌, [], Some, None, true, false, IsTrue, IfErr, OnOk, OnErr, IsErrOf};
ghost use Rattle.std.specs.FinMap.{get, len as size};
ghost use Rattle.dds_base.specs.Outside.{Rose};
ghost use Rattle.dds_disk.specs.Pages.{Pages};
ghost use Rattle.dds_groups.specs.Names.{low_half, high_half};
ghost use Rattle.dds_chains.specs.Answers.{IsNoPage};
ghost use Rattle.dds_table.specs.Lawful.{IsRefused};
ghost use Rattle.dds_table.specs.Store.{names, has_table, maps_of, map_named, without_table, Holds};
ghost use Rattle.dds_table.specs.Split.{covered, halves_of, put_covered, moved, IsTurn, HasRoom, IsParted};

use crate::fault::TableFault;
use crate::store::Store;
use dds_base::name::LeafName;
use dds_base::value::Value;
use dds_disk::disk::Disk;
use dds_groups::halves::{high_half, low_half};

impl<D: Disk> Store<D> {
    /// Splits a table: in its place come the tables of its name's two halves, each with the pairs
    /// whose keys it covers. Each pair of the table comes to just one of them.
    pub fn split(&mut self, name: LeafName) -> Result<(), TableFault>
        requires live { self.old.failed ≡ false }
        requires there { IsTrue (has_table self.old.tables name) }
        requires depth { name.depth < 16 }
        requires low { has_table self.old.tables (low_half name) ≡ false }
        requires high { has_table self.old.tables (high_half name) ≡ false }
        ensures told { (a : Pages) → D.pages self.old.cache.disk ≡ Some a →
            OnOk result (Holds (D.pages self.new.cache.disk) self.new.tables (maps_of a (without_table self.old.tables name)
            ++ halves_of name (covered (map_named (maps_of a self.old.tables) name) (low_half name))
            (covered (map_named (maps_of a self.old.tables) name) (high_half name)))) }
        ensures parted { (a : Pages) → D.pages self.old.cache.disk ≡ Some a →
            IsParted (map_named (maps_of a self.old.tables) name) (covered (map_named (maps_of a self.old.tables) name) (low_half name))
            (covered (map_named (maps_of a self.old.tables) name) (high_half name)) }
        ensures names { OnOk result (names self.new.tables ≡ names (without_table self.old.tables name) ++ low_half name ∷ high_half name ∷ []) }
        ensures ok { OnOk result (self.new.failed ≡ false) }
        ensures err { OnErr result (self.new.failed ≡ true) }
        ensures lawful { (a : Pages) → D.pages self.old.cache.disk ≡ Some a → IfErr result IsNoPage }
        ensures refused { IfErr result (IsRefused self.new.cache.kept self.new.slots) }
        ensures untold { D.pages self.old.cache.disk ≡ None → D.pages self.new.cache.disk ≡ None }
        ensures rose { IsErrOf result TableFault.Disk → Rose (D.faults self.old.cache.disk) (D.faults self.new.cache.disk) }
        ensures steady { OnOk result (D.faults self.new.cache.disk ≡ D.faults self.old.cache.disk) }
        ensures never_falls { D.faults self.old.cache.disk ≤ D.faults self.new.cache.disk }
    {
        self.keys_are_covered(name);
        self.add(low_half(name))?;
        self.add(high_half(name))?;
        let most = self.len(name);
        'turns: for _turn in 0..most {
            self.move_first(name)?;
        }
        self.drop_table(name);
        Ok(())
    }

    /// Moves the first pair of a table to the half that covers its key, if a pair is left.
    fn move_first(&mut self, name: LeafName) -> Result<(), TableFault>
        requires live { self.old.failed ≡ false }
        requires there { IsTrue (has_table self.old.tables name) }
        requires low { IsTrue (has_table self.old.tables (low_half name)) }
        requires high { IsTrue (has_table self.old.tables (high_half name)) }
        requires depth { name.depth < 16 }
        requires room { (a : Pages) → D.pages self.old.cache.disk ≡ Some a → HasRoom (maps_of a self.old.tables) name }
        ensures told { (a : Pages) → D.pages self.old.cache.disk ≡ Some a →
            OnOk result (IsTurn (D.pages self.new.cache.disk) self.new.tables (maps_of a self.old.tables) name) }
        ensures tables { OnOk result (self.new.tables ≡ self.old.tables) }
        ensures ok { OnOk result (self.new.failed ≡ false) }
        ensures err { OnErr result (self.new.failed ≡ true) }
        ensures lawful { (a : Pages) → D.pages self.old.cache.disk ≡ Some a → IfErr result IsNoPage }
        ensures refused { IfErr result (IsRefused self.new.cache.kept self.new.slots) }
        ensures untold { D.pages self.old.cache.disk ≡ None → D.pages self.new.cache.disk ≡ None }
        ensures rose { IsErrOf result TableFault.Disk → Rose (D.faults self.old.cache.disk) (D.faults self.new.cache.disk) }
        ensures steady { OnOk result (D.faults self.new.cache.disk ≡ D.faults self.old.cache.disk) }
        ensures never_falls { D.faults self.old.cache.disk ≤ D.faults self.new.cache.disk }
    {
        let part = self.part(name, None, 1)?;
        if part.pairs.is_empty() {
            return Ok(());
        }
        let pair = part.pairs.at(0);
        self.move_pair(name, pair.key, &pair.value)
    }

    /// Moves a pair of a table to the half that covers its key.
    fn move_pair(&mut self, name: LeafName, key: u64, value: &Value) -> Result<(), TableFault>
        requires live { self.old.failed ≡ false }
        requires there { IsTrue (has_table self.old.tables name) }
        requires low { IsTrue (has_table self.old.tables (low_half name)) }
        requires high { IsTrue (has_table self.old.tables (high_half name)) }
        requires depth { name.depth < 16 }
        requires room { (a : Pages) → D.pages self.old.cache.disk ≡ Some a → HasRoom (maps_of a self.old.tables) name }
        requires bound { (a : Pages) → D.pages self.old.cache.disk ≡ Some a → get (map_named (maps_of a self.old.tables) name) key ≡ Some value.now }
        ensures told { (a : Pages) → D.pages self.old.cache.disk ≡ Some a →
            OnOk result (Holds (D.pages self.new.cache.disk) self.new.tables (moved (maps_of a self.old.tables) name key value.now)) }
        ensures tables { OnOk result (self.new.tables ≡ self.old.tables) }
        ensures ok { OnOk result (self.new.failed ≡ false) }
        ensures err { OnErr result (self.new.failed ≡ true) }
        ensures lawful { (a : Pages) → D.pages self.old.cache.disk ≡ Some a → IfErr result IsNoPage }
        ensures refused { IfErr result (IsRefused self.new.cache.kept self.new.slots) }
        ensures untold { D.pages self.old.cache.disk ≡ None → D.pages self.new.cache.disk ≡ None }
        ensures rose { IsErrOf result TableFault.Disk → Rose (D.faults self.old.cache.disk) (D.faults self.new.cache.disk) }
        ensures steady { OnOk result (D.faults self.new.cache.disk ≡ D.faults self.old.cache.disk) }
        ensures never_falls { D.faults self.old.cache.disk ≤ D.faults self.new.cache.disk }
    {
        self.remove(name, key)?;
        self.put_covered(low_half(name), key, value)?;
        self.put_covered(high_half(name), key, value)
    }

    /// Binds a key in a table whose name covers it; does nothing where the name doesn't.
    fn put_covered(&mut self, name: LeafName, key: u64, value: &Value) -> Result<(), TableFault>
        requires live { self.old.failed ≡ false }
        requires there { IsTrue (has_table self.old.tables name) }
        requires room { (a : Pages) → D.pages self.old.cache.disk ≡ Some a → size (map_named (maps_of a self.old.tables) name) < 16384 }
        ensures told { (a : Pages) → D.pages self.old.cache.disk ≡ Some a →
            OnOk result (Holds (D.pages self.new.cache.disk) self.new.tables (put_covered (maps_of a self.old.tables) name key value.now)) }
        ensures tables { OnOk result (self.new.tables ≡ self.old.tables) }
        ensures ok { OnOk result (self.new.failed ≡ false) }
        ensures err { OnErr result (self.new.failed ≡ true) }
        ensures lawful { (a : Pages) → D.pages self.old.cache.disk ≡ Some a → IfErr result IsNoPage }
        ensures refused { IfErr result (IsRefused self.new.cache.kept self.new.slots) }
        ensures untold { D.pages self.old.cache.disk ≡ None → D.pages self.new.cache.disk ≡ None }
        ensures rose { IsErrOf result TableFault.Disk → Rose (D.faults self.old.cache.disk) (D.faults self.new.cache.disk) }
        ensures steady { OnOk result (D.faults self.new.cache.disk ≡ D.faults self.old.cache.disk) }
        ensures never_falls { D.faults self.old.cache.disk ≤ D.faults self.new.cache.disk }
    {
        if name.covers(key) {
            self.put(name, key, value)?;
        }
        Ok(())
    }
}
