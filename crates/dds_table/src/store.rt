//! A store of tables by their names.

ghost use Rattle.std.specs.Prelude.{◌≡◌, ℕ, ◌+◌, ◌<◌, ◌≤◌, ◌++◌, ◌∷◌, [], Some, None, true, false, is_some, IsTrue, IfOk, IfErr, OnOk};
ghost use Rattle.std.specs.Prelude.{OnErr, IsErrOf, IfSome, length, vec_capacity, ◌==◌, ◌||◌, ◌&&◌, not};
ghost use Rattle.std.specs.FinMap.{empty, get, insert, remove as without, contains_key, len as size};
ghost use Rattle.dds_base.specs.Name.{Name, covers, overlaps, same_name};
ghost use Rattle.dds_base.specs.Outside.{Rose};
ghost use Rattle.dds_disk.specs.Pages.{Pages};
ghost use Rattle.dds_chains.specs.Answers.{IsNoPage};
ghost use Rattle.dds_chains.specs.Part.{IsPart};
ghost use Rattle.dds_table.specs.Split.{KeysAreOf};
ghost use Rattle.dds_table.specs.Store.{StoreState, named, names, place_named, has_table, maps_of, map_named, with_map, without_table, without_slots, Holds};
ghost use Rattle.dds_chains.specs.Lawful.{WherePage};
ghost use Rattle.dds_table.specs.Lawful.{IsRefused, knows};

use crate::fault::TableFault;
use crate::places::{find, forget, note, place_in};
use dds_base::memory::Memory;
use dds_base::name::LeafName;
use dds_base::value::Value;
use dds_chains::change::{bind, unbind};
use dds_chains::pairs::{create, get};
use dds_chains::part::{Part, read_part};
use dds_chains::removal::reclaim;
use dds_chains::space::Space;
use dds_chains::table::Chains;
use dds_disk::disk::Disk;
use std::alloc::Global;
use std::collections::BTreeMap;
use std::marker::Model;

/// Tables on one disk, by their names. A store of which a call failed is used no more.
#[derive(Drop)]
pub struct Store<D: Disk> {
    space: Space<D>,
    tables: Vec<Chains>,
    places: BTreeMap<LeafName, usize>,
    dropped: Vec<Chains>,
    failed: bool,
}

impl<D: Disk> Model for Store<D> {
    ghost use Rattle.std.specs.Prelude.{vec_capacity};
    ghost use Rattle.dds_table.specs.Store.{StoreState, store_code, named, slots_of, IsStore, Unless};
    ghost use Rattle.dds_table.specs.Places.{IsPlaced};

    ghost Value = { StoreState D };

    ghost coded = { store_code D.code };

    ghost view = { λ a. record { cache = a.space.cache; tables = named a.tables.items; slots = slots_of a.tables.items; failed = a.failed } };

    ghost invariant = { λ a. Unless a.failed
        (IsStore (D.pages a.space.cache.disk) a.space.free.items a.space.fresh a.tables.items a.dropped.items (vec_capacity a.dropped))
        × Unless a.failed (IsPlaced a.places (named a.tables.items)) };
}

impl<D: Disk> Store<D> {
    /// Makes a store without tables. Where it answers `Memory`, the disk was dropped.
    pub fn new(alloc: Global, disk: D) -> Result<Store<D>, Memory>
        ensures disk { IfOk result (λ store. store.cache.disk ≡ disk) }
        ensures tables { IfOk result (λ store. store.tables ≡ []) }
        ensures slots { IfOk result (λ store. store.slots ≡ []) }
        ensures live { IfOk result (λ store. store.failed ≡ false) }
    {
        Ok(Store {
            space: Space::new(alloc, disk)?,
            tables: Vec::new(alloc),
            places: BTreeMap::new(alloc),
            dropped: Vec::new(alloc),
            failed: false,
        })
    }

    /// Gives the disk back.
    pub fn into_disk(self) -> D
        ensures { result ≡ self.cache.disk }
    {
        let Store {
            space,
            tables: _,
            places: _,
            dropped: _,
            failed: _,
        } = self;
        space.into_disk()
    }

    pub(crate) fn alloc(&self) -> Global {
        self.space.alloc
    }

    /// Adds an empty table.
    pub fn add(&mut self, name: LeafName) -> Result<(), TableFault>
        requires live { self.old.failed ≡ false }
        ensures told { (a : Pages) → D.pages self.old.cache.disk ≡ Some a →
            OnOk result (Holds (D.pages self.new.cache.disk) self.new.tables (maps_of a self.old.tables ++ (name, empty) ∷ [])) }
        ensures names { OnOk result (names self.new.tables ≡ names self.old.tables ++ name ∷ []) }
        ensures ok { OnOk result (self.new.failed ≡ false) }
        ensures err { OnErr result (self.new.failed ≡ true) }
        ensures lawful { IfErr result IsNoPage }
        ensures untold { D.pages self.old.cache.disk ≡ None → D.pages self.new.cache.disk ≡ None }
        ensures rose { IsErrOf result TableFault.Disk → Rose (D.faults self.old.cache.disk) (D.faults self.new.cache.disk) }
        ensures steady { OnOk result (D.faults self.new.cache.disk ≡ D.faults self.old.cache.disk) }
        ensures never_falls { D.faults self.old.cache.disk ≤ D.faults self.new.cache.disk }
    {
        self.failed = true;
        reclaim(&mut self.space, &mut self.dropped)?;
        let table = create(&mut self.space, name)?;
        reserve(&mut self.dropped, self.tables.len() + 1)?;
        note(&mut self.places, self.tables.as_slice(), name)?;
        push(&mut self.tables, table)?;
        self.failed = false;
        Ok(())
    }

    /// Whether there is a table of this name.
    pub fn has(&self, name: LeafName) -> bool
        ensures { result ≡ has_table self.now.tables name }
    {
        if self.failed {
            return find(self.tables.as_slice(), &name).is_some();
        }
        self.places.contains_key(&name)
    }

    /// How many pairs a table has. Takes no memory.
    pub fn len(&self, name: LeafName) -> usize
        requires live { self.now.failed ≡ false }
        requires there { IsTrue (has_table self.now.tables name) }
        ensures told { (a : Pages) → D.pages self.now.cache.disk ≡ Some a → result ≡ size (map_named (maps_of a self.now.tables) name) }
        ensures most { result ≤ 16384 }
    {
        let place = place_in(&self.places, self.tables.as_slice(), &name);
        let table = &self.tables[place];
        table.len as usize
    }

    /// The law that a table has only keys that its name covers. Does nothing.
    pub fn keys_are_covered(&self, name: LeafName)
        requires live { self.now.failed ≡ false }
        ensures { (a : Pages) → D.pages self.now.cache.disk ≡ Some a → KeysAreOf name (map_named (maps_of a self.now.tables) name) }
    {
        let _tables = self.tables.len();
    }

    /// The value of a key.
    pub fn get(&mut self, name: LeafName, key: u64) -> Result<Option<Value>, TableFault>
        requires live { self.old.failed ≡ false }
        requires there { IsTrue (has_table self.old.tables name) }
        ensures told { (a : Pages) → D.pages self.old.cache.disk ≡ Some a →
            IfOk result (λ value. value ≡ get (map_named (maps_of a self.old.tables) name) key) }
        ensures pages { D.pages self.new.cache.disk ≡ D.pages self.old.cache.disk }
        ensures tables { self.new.tables ≡ self.old.tables }
        ensures slots { self.new.slots ≡ self.old.slots }
        ensures ok { OnOk result (self.new.failed ≡ false) }
        ensures err { OnErr result (self.new.failed ≡ true) }
        ensures lawful { (a : Pages) → D.pages self.old.cache.disk ≡ Some a → IfErr result IsNoPage }
        ensures refused { IfErr result (IsRefused self.new.cache.kept self.new.slots) }
        ensures known { IfOk result (λ value. is_some value ≡ knows self.old.tables self.old.slots name key) }
        ensures rose { IsErrOf result TableFault.Disk → Rose (D.faults self.old.cache.disk) (D.faults self.new.cache.disk) }
        ensures steady { OnOk result (D.faults self.new.cache.disk ≡ D.faults self.old.cache.disk) }
        ensures never_falls { D.faults self.old.cache.disk ≤ D.faults self.new.cache.disk }
    {
        self.failed = true;
        let place = place_in(&self.places, self.tables.as_slice(), &name);
        let value = match get(&mut self.space, &self.tables[place], key) {
            Ok(value) => value,
            Err(fault) => return Err(fault),
        };
        self.failed = false;
        Ok(value)
    }

    /// Reads the pairs that follow a key in the order of places, at most so many: a key's place is
    /// its bucket, and then the key.
    pub fn part(
        &mut self,
        name: LeafName,
        after: Option<u64>,
        most: usize,
    ) -> Result<Part, TableFault>
        requires live { self.old.failed ≡ false }
        requires there { IsTrue (has_table self.old.tables name) }
        ensures told { (a : Pages) → D.pages self.old.cache.disk ≡ Some a →
            IfOk result (λ part. IsPart (map_named (maps_of a self.old.tables) name) after most part.pairs part.last) }
        ensures most { IfOk result (λ part. length part.pairs ≤ most) }
        ensures pages { D.pages self.new.cache.disk ≡ D.pages self.old.cache.disk }
        ensures tables { self.new.tables ≡ self.old.tables }
        ensures slots { self.new.slots ≡ self.old.slots }
        ensures ok { OnOk result (self.new.failed ≡ false) }
        ensures err { OnErr result (self.new.failed ≡ true) }
        ensures lawful { (a : Pages) → D.pages self.old.cache.disk ≡ Some a → IfErr result IsNoPage }
        ensures refused { IfErr result (IsRefused self.new.cache.kept self.new.slots) }
        ensures rose { IsErrOf result TableFault.Disk → Rose (D.faults self.old.cache.disk) (D.faults self.new.cache.disk) }
        ensures steady { OnOk result (D.faults self.new.cache.disk ≡ D.faults self.old.cache.disk) }
        ensures never_falls { D.faults self.old.cache.disk ≤ D.faults self.new.cache.disk }
    {
        self.failed = true;
        let place = place_in(&self.places, self.tables.as_slice(), &name);
        let part = match read_part(&mut self.space, &self.tables[place], after, most) {
            Ok(part) => part,
            Err(fault) => return Err(fault),
        };
        self.failed = false;
        Ok(part)
    }

    /// Drops a table with its pairs. It makes no call of the disk and takes no memory: the table's
    /// pages are taken back by a later call that wants pages.
    pub fn drop_table(&mut self, name: LeafName)
        requires live { self.old.failed ≡ false }
        requires there { IsTrue (has_table self.old.tables name) }
        ensures { self.new ≡ record self.old { tables = without_table self.old.tables name; slots = without_slots self.old.tables self.old.slots name } }
    {
        let place = place_in(&self.places, self.tables.as_slice(), &name);
        let table = self.tables.remove(place);
        forget(&mut self.places, self.tables.as_slice(), &name, place);
        drop_into(&mut self.dropped, table);
    }

    /// Binds a key to a value; whether it was bound before.
    pub fn put(&mut self, name: LeafName, key: u64, value: &Value) -> Result<bool, TableFault>
        requires live { self.old.failed ≡ false }
        requires there { IsTrue (has_table self.old.tables name) }
        requires covers { IsTrue (covers name key) }
        requires room { (a : Pages) → D.pages self.old.cache.disk ≡ Some a → contains_key (map_named (maps_of a self.old.tables) name) key ≡ false →
            size (map_named (maps_of a self.old.tables) name) < 16384 }
        ensures told { (a : Pages) → D.pages self.old.cache.disk ≡ Some a →
            OnOk result (Holds (D.pages self.new.cache.disk) self.new.tables
            (with_map (maps_of a self.old.tables) name (insert (map_named (maps_of a self.old.tables) name) key value.now))) }
        ensures tables { OnOk result (self.new.tables ≡ self.old.tables) }
        ensures was { (a : Pages) → D.pages self.old.cache.disk ≡ Some a →
            IfOk result (λ was. was ≡ contains_key (map_named (maps_of a self.old.tables) name) key) }
        ensures ok { OnOk result (self.new.failed ≡ false) }
        ensures err { OnErr result (self.new.failed ≡ true) }
        ensures lawful { (a : Pages) → D.pages self.old.cache.disk ≡ Some a → IfErr result IsNoPage }
        ensures refused { IfErr result (IsRefused self.new.cache.kept self.old.slots) }
        ensures stays { IfErr result (WherePage (self.new.slots ≡ self.old.slots)) }
        ensures known { IfOk result (λ was. was ≡ knows self.old.tables self.old.slots name key) }
        ensures keys { OnOk result ((q : ℕ) → knows self.new.tables self.new.slots name q ≡ (key == q || knows self.old.tables self.old.slots name q)) }
        ensures untold { D.pages self.old.cache.disk ≡ None → D.pages self.new.cache.disk ≡ None }
        ensures rose { IsErrOf result TableFault.Disk → Rose (D.faults self.old.cache.disk) (D.faults self.new.cache.disk) }
        ensures steady { OnOk result (D.faults self.new.cache.disk ≡ D.faults self.old.cache.disk) }
        ensures never_falls { D.faults self.old.cache.disk ≤ D.faults self.new.cache.disk }
    {
        self.failed = true;
        reclaim(&mut self.space, &mut self.dropped)?;
        let place = place_in(&self.places, self.tables.as_slice(), &name);
        let was = match bind(&mut self.space, &mut self.tables[place], key, value) {
            Ok(was) => was,
            Err(fault) => return Err(fault),
        };
        self.failed = false;
        Ok(was)
    }

    /// Unbinds a key; whether it was bound before.
    pub fn remove(&mut self, name: LeafName, key: u64) -> Result<bool, TableFault>
        requires live { self.old.failed ≡ false }
        requires there { IsTrue (has_table self.old.tables name) }
        ensures told { (a : Pages) → D.pages self.old.cache.disk ≡ Some a →
            OnOk result (Holds (D.pages self.new.cache.disk) self.new.tables
            (with_map (maps_of a self.old.tables) name (without (map_named (maps_of a self.old.tables) name) key))) }
        ensures tables { OnOk result (self.new.tables ≡ self.old.tables) }
        ensures was { (a : Pages) → D.pages self.old.cache.disk ≡ Some a →
            IfOk result (λ was. was ≡ contains_key (map_named (maps_of a self.old.tables) name) key) }
        ensures ok { OnOk result (self.new.failed ≡ false) }
        ensures err { OnErr result (self.new.failed ≡ true) }
        ensures lawful { (a : Pages) → D.pages self.old.cache.disk ≡ Some a → IfErr result IsNoPage }
        ensures refused { IfErr result (IsRefused self.new.cache.kept self.old.slots) }
        ensures stays { IfErr result (WherePage (self.new.slots ≡ self.old.slots)) }
        ensures known { IfOk result (λ was. was ≡ knows self.old.tables self.old.slots name key) }
        ensures keys { OnOk result ((q : ℕ) → knows self.new.tables self.new.slots name q ≡ (not (key == q) && knows self.old.tables self.old.slots name q)) }
        ensures untold { D.pages self.old.cache.disk ≡ None → D.pages self.new.cache.disk ≡ None }
        ensures rose { IsErrOf result TableFault.Disk → Rose (D.faults self.old.cache.disk) (D.faults self.new.cache.disk) }
        ensures steady { OnOk result (D.faults self.new.cache.disk ≡ D.faults self.old.cache.disk) }
        ensures never_falls { D.faults self.old.cache.disk ≤ D.faults self.new.cache.disk }
    {
        self.failed = true;
        let place = place_in(&self.places, self.tables.as_slice(), &name);
        let was = match unbind(&mut self.space, &mut self.tables[place], key) {
            Ok(was) => was,
            Err(fault) => return Err(fault),
        };
        self.failed = false;
        Ok(was)
    }
}

/// Makes room for more tables.
fn reserve(tables: &mut Vec<Chains>, more: usize) -> Result<(), Memory>
    ensures items { tables.new.items ≡ tables.old.items }
    ensures room { OnOk result (length tables.new.items + more ≤ vec_capacity tables.new) }
{
    tables.reserve(more)?;
    Ok(())
}

/// Adds a table behind the others, for which there is room.
fn drop_into(tables: &mut Vec<Chains>, table: Chains)
    requires { length tables.old.items < vec_capacity tables.old }
    ensures items { tables.new.items ≡ tables.old.items ++ table ∷ [] }
    ensures capacity { vec_capacity tables.old ≤ vec_capacity tables.new }
{
    let _ = tables.push(table);
}

/// Adds a table behind the others.
fn push(tables: &mut Vec<Chains>, table: Chains) -> Result<(), Memory>
    ensures { OnOk result (tables.new.items ≡ tables.old.items ++ table ∷ []) }
{
    tables.push(table)?;
    Ok(())
}
