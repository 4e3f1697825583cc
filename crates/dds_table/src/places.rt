//! Where the tables of a store stand, by their names.

ghost use Rattle.std.specs.Prelude.{◌≡◌, ℕ, ◌+◌, ◌<◌, ◌≤◌, ◌++◌, ◌∷◌, ◌&&◌, [], not, Some, None, IsTrue, OnOk, IfSome, length, take, if◌then◌else◌};
ghost use Rattle.std.specs.BTreeMap as tree;
ghost use Rattle.dds_base.specs.Name.{Name, same_name};
ghost use Rattle.dds_table.specs.Store.{named, place_named, has_table};
ghost use Rattle.dds_table.specs.Places.{name_cmp, IsPlaced, old_place, is_from, stands_at};

use dds_base::memory::Memory;
use dds_base::name::LeafName;
use dds_chains::table::Chains;
use std::collections::BTreeMap;

/// Whether both names are the same.
fn is_same(a: &LeafName, b: &LeafName) -> bool
    ensures { result ≡ same_name a.now b.now }
{
    a.bits() == b.bits() && a.depth() == b.depth()
}

/// The place of the table of a name. Looks at each table.
pub(crate) fn find(tables: &[Chains], name: &LeafName) -> Option<usize>
    ensures value { result ≡ place_named (named tables.now) name.now }
    ensures within { IfSome result (λ place. place < length tables.now) }
{
    for (place, table) in tables.iter().enumerate() {
        if is_same(&table.name, name) {
            return Some(place);
        }
    }
    None
}

/// The place of the table of a name that is there.
pub(crate) fn place_in(
    places: &BTreeMap<LeafName, usize>,
    tables: &[Chains],
    name: &LeafName,
) -> usize
    requires placed { IsPlaced places.now (named tables.now) }
    requires there { IsTrue (has_table (named tables.now) name.now) }
    ensures value { place_named (named tables.now) name.now ≡ Some result }
    ensures within { result < length tables.now }
{
    let _tables = tables.len();
    match places.get(name) {
        Some(place) => *place,
        None => 0,
    }
}

/// Notes the place of a table that is to come behind the others, if it is the first of its name.
pub(crate) fn note(
    places: &mut BTreeMap<LeafName, usize>,
    tables: &[Chains],
    name: LeafName,
) -> Result<(), Memory>
    requires { IsPlaced places.old (named tables.now) }
    ensures { (root : ℕ) → OnOk result (IsPlaced places.new (named tables.now ++ (name, root) ∷ [])) }
{
    if places.contains_key(&name) {
        return Ok(());
    }
    places.insert(name, tables.len())?;
    Ok(())
}

/// Whether the place of a name is this one or one behind it.
fn is_from(places: &BTreeMap<LeafName, usize>, name: &LeafName, at: usize) -> bool
    ensures { result ≡ is_from at (tree.get name_cmp places.now name.now) }
{
    match places.get(name) {
        Some(place) => *place >= at,
        None => false,
    }
}

/// Gives a name another place, if its place is at least `at`. Takes no memory: the name has its place.
fn move_to(places: &mut BTreeMap<LeafName, usize>, name: LeafName, at: usize, place: usize)
    ensures { (n : Name) → tree.get name_cmp places.new n
        ≡ (if same_name name n && is_from at (tree.get name_cmp places.old n) then Some place else tree.get name_cmp places.old n) }
{
    if is_from(places, &name, at) {
        let _ = places.insert(name, place);
    }
}

/// Whether the table at a name's place is of that name.
fn stands(places: &BTreeMap<LeafName, usize>, tables: &[Chains], name: &LeafName) -> bool
    ensures { result ≡ stands_at (named tables.now) name.now (tree.get name_cmp places.now name.now) }
{
    let Some(place) = places.get(name) else {
        return false;
    };
    match tables.get(*place) {
        Some(table) => is_same(&table.name, name),
        None => false,
    }
}

/// Forgets a name whose place has no table of that name.
fn forget_stale(places: &mut BTreeMap<LeafName, usize>, tables: &[Chains], name: &LeafName)
    ensures { (n : Name) → tree.get name_cmp places.new n
        ≡ (if same_name name.now n && not (stands_at (named tables.now) name.now (tree.get name_cmp places.old name.now)) then None else tree.get name_cmp
        places.old n) }
{
    if !stands(places, tables, name) {
        places.remove(name);
    }
}

/// Moves the places behind a table that was taken out up by one, and forgets its name, if it has no further table.
pub(crate) fn forget(
    places: &mut BTreeMap<LeafName, usize>,
    tables: &[Chains],
    name: &LeafName,
    at: usize,
)
    requires placed { (n : Name) → tree.get name_cmp places.old n ≡ old_place (named tables.now) at name.now n }
    requires within { at ≤ length tables.now }
    requires first { place_named (take at (named tables.now)) name.now ≡ None }
    ensures { IsPlaced places.new (named tables.now) }
{
    let mut place = tables.len();
    'moving: while place > at {
        place -= 1;
        let table = &tables[place];
        move_to(places, table.name, at, place);
    }
    forget_stale(places, tables, name);
}
