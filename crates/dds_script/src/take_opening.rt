//! Taking the words of a line of the opening.

ghost use Rattle.std.specs.Prelude.{◌≡◌, ◌<◌, Some, [], ◌∷◌, codes, IfOk};
ghost use Rattle.dds_script.specs.Grammar.{AreTaken, IsGate, takes_old};
ghost use Rattle.dds_script.specs.Opening.{opening_leaf, stale_at, stale_leaf};
ghost use Rattle.dds_script.specs.Sound.{AreRangesRead, IsSound};

use crate::group_word::{Group, read_group};
use crate::leaves::{cover_all, meets};
use crate::node_words::read_name;
use crate::numeral::{read_below, read_count};
use crate::place::Place;
use crate::ranges::Ranges;
use crate::reader::Reader;
use crate::script_error::ScriptKind;
use dds_base::brick_list::BrickList;
use dds_base::leaf::Leaf;
use dds_base::memory::Memory;
use dds_base::name::LeafName;
use dds_base::number::{NodeNo, Stamp};
use std::alloc::Global;

/// What is wrong where the opening is to end here, if it may not.
pub(crate) fn unopened(reader: &Reader) -> Option<ScriptKind>
    requires { IsSound reader.now }
    ensures { IsGate reader.now result }
{
    match reader.place {
        Place::BeforeCluster => Some(ScriptKind::Place),
        Place::Leaves => {
            if cover_all(reader.leaves.as_slice()) {
                None
            } else {
                Some(ScriptKind::Cover)
            }
        }
        Place::Old => None,
        Place::Body => None,
    }
}

/// Takes the words of `cluster B L C`.
pub(crate) fn take_cluster(
    reader: &mut Reader,
    bricks: &[u8],
    libraries: &[u8],
    callers: &[u8],
) -> Option<ScriptKind>
    ensures { AreTaken reader.old (codes "cluster" ∷ bricks.now ∷ libraries.now ∷ callers.now ∷ []) reader.new result }
{
    let Place::BeforeCluster = reader.place else {
        return Some(ScriptKind::Place);
    };
    let Some(ranges) = read_ranges(bricks, libraries, callers) else {
        return Some(ScriptKind::Number);
    };
    reader.place = Place::Leaves;
    reader.ranges = ranges;
    None
}

fn read_ranges(bricks: &[u8], libraries: &[u8], callers: &[u8]) -> Option<Ranges>
    ensures { AreRangesRead bricks.now libraries.now callers.now result }
{
    match (
        read_count(bricks, 64),
        read_count(libraries, 16),
        read_count(callers, 64),
    ) {
        (Some(bricks), Some(libraries), Some(callers)) => Some(Ranges {
            bricks,
            libraries,
            callers,
        }),
        _ => None,
    }
}

/// Takes the words of `leaf NAME LIST`.
pub(crate) fn take_leaf(
    alloc: Global,
    reader: &mut Reader,
    name_word: &[u8],
    list_word: &[u8],
) -> Result<Option<ScriptKind>, Memory>
    requires { IsSound reader.old }
    ensures { IfOk result (λ kind. AreTaken reader.old (codes "leaf" ∷ name_word.now ∷ list_word.now ∷ []) reader.new kind) }
{
    let Place::Leaves = reader.place else {
        return Ok(Some(ScriptKind::Place));
    };
    let Some(name) = read_name(name_word) else {
        return Ok(Some(ScriptKind::Number));
    };
    let list = match read_group(alloc, list_word, reader.ranges.bricks)? {
        Group::Wrong => return Ok(Some(ScriptKind::Number)),
        Group::Twice => return Ok(Some(ScriptKind::Cover)),
        Group::Bricks(list) => list,
    };
    if meets(reader.leaves.as_slice(), &name) {
        return Ok(Some(ScriptKind::Cover));
    }
    let number = reader.leaves.len() as u64;
    reader.leaves.push(opening_leaf(number, name, list))?;
    Ok(None)
}

fn opening_leaf(number: u64, name: LeafName, list: BrickList) -> Leaf
    ensures { result ≡ opening_leaf number name list }
{
    Leaf {
        name,
        epoch: 1,
        stamp: Stamp::opening(number),
        prev: Stamp::opening(number),
        list,
    }
}

/// Takes the words of `old LIBRARY NAME LIST`.
pub(crate) fn take_old(
    alloc: Global,
    reader: &mut Reader,
    library: &[u8],
    name: &[u8],
    list: &[u8],
) -> Result<Option<ScriptKind>, Memory>
    requires { IsSound reader.old }
    ensures { IfOk result (λ kind. AreTaken reader.old (codes "old" ∷ library.now ∷ name.now ∷ list.now ∷ []) reader.new kind) }
{
    if !takes_old(reader.place) {
        return Ok(Some(ScriptKind::Place));
    }
    let (Some(library), Some(name)) = (
        read_below(library, reader.ranges.libraries),
        read_name(name),
    ) else {
        return Ok(Some(ScriptKind::Number));
    };
    let list = match read_group(alloc, list, reader.ranges.bricks)? {
        Group::Wrong => return Ok(Some(ScriptKind::Number)),
        Group::Twice => return Ok(Some(ScriptKind::Cover)),
        Group::Bricks(list) => list,
    };
    if let Some(kind) = unopened(reader) {
        return Ok(Some(kind));
    }
    let number = stale_at(library, reader.stale.as_slice());
    reader.stale.push(stale_leaf(library, number, name, list))?;
    reader.place = Place::Old;
    Ok(None)
}

fn takes_old(place: Place) -> bool
    ensures { result ≡ takes_old place }
{
    match place {
        Place::BeforeCluster => false,
        Place::Leaves => true,
        Place::Old => true,
        Place::Body => false,
    }
}

fn stale_at(library: u8, old: &[Leaf]) -> u64
    requires { library < 16 }
    ensures { result ≡ stale_at library old.now }
{
    old.iter()
        .filter(|leaf| leaf.stamp.maker() == 64 + library)
        .count() as u64
}

fn stale_leaf(library: u8, number: u64, name: LeafName, list: BrickList) -> Leaf
    requires { library < 16 }
    ensures { result ≡ stale_leaf library number name list }
{
    let maker = NodeNo::library(library).unwrap();
    Leaf {
        name,
        epoch: 0,
        stamp: Stamp::made_by(maker, number),
        prev: Stamp::made_by(maker, number),
        list,
    }
}
