//! The sorted list of entries.

ghost use Rattle.std.specs.Prelude.{◌≡◌, ◌-◌, ◌<◌, ◌==◌, ◌&&◌, [], length, nat_lt, slice_index_or, IfSome, OnOk, OnErr};
ghost use Rattle.std.specs.List.{prefix_len};
ghost use Rattle.dds_agenda.specs.declared.entry.Entry.{Entry};
ghost use Rattle.dds_agenda.specs.Agenda.{IsOrdered, exchanged, precedes, put, ranked, take_out, take_some};

use crate::entry::Entry;
use dds_base::items::Items;
use dds_base::memory::Memory;
use std::alloc::Global;
use std::marker::Model;

/// Entries, kept in their order. Contracts see the list.
#[derive(Drop)]
pub struct Agenda {
    entries: Items<Entry>,
}

impl Model for Agenda {
    ghost use Rattle.std.specs.Prelude.{List};
    ghost use Rattle.dds_agenda.specs.Agenda.{IsOrdered};
    ghost use Rattle.dds_agenda.specs.declared.entry.Entry.{Entry};

    ghost Value = { List Entry };

    ghost view = { λ a. a.entries };

    ghost invariant = { λ a. IsOrdered a.entries };
}

impl Agenda {
    /// Takes no memory.
    pub fn new(alloc: Global) -> Agenda
        ensures { result ≡ [] }
    {
        Agenda {
            entries: Items::new(alloc),
        }
    }

    /// Puts an entry at its place, which a binary search finds.
    pub fn insert(&mut self, entry: Entry) -> Result<(), Memory>
        ensures ok { OnOk result (self.new ≡ put entry self.old) }
        ensures err { OnErr result (self.new ≡ self.old) }
    {
        let place = place_for(self.entries.as_slice(), &entry);
        self.entries.insert(place, entry)
    }

    /// Takes an entry out, where it is there.
    pub fn remove(&mut self, entry: &Entry)
        ensures entries { self.new ≡ take_out entry.now self.old }
        ensures order { IsOrdered self.old }
    {
        let place = place_for(self.entries.as_slice(), entry);
        if place >= self.entries.len() {
            return;
        }
        if entry.precedes(self.entries.at(place)) {
            return;
        }
        self.entries.remove(place);
    }

    /// Takes an entry out, where there is one, and puts another in.
    pub fn exchange(&mut self, old: Option<Entry>, new: Option<Entry>) -> Result<(), Memory>
        ensures entries { OnOk result (self.new ≡ exchanged old new self.old) }
        ensures order { IfSome old (λ entry. IsOrdered self.old) }
    {
        self.remove_some(old);
        match new {
            Some(entry) => self.insert(entry),
            None => Ok(()),
        }
    }

    fn remove_some(&mut self, entry: Option<Entry>)
        ensures entries { self.new ≡ take_some entry self.old }
        ensures order { IfSome entry (λ entry. IsOrdered self.old) }
    {
        if let Some(entry) = entry {
            self.remove(&entry);
        }
    }

    pub fn len(&self) -> usize
        ensures { result ≡ length self.now }
    {
        self.entries.len()
    }

    /// The entry of a rank, which is how many entries have lesser numbers. `None` also where the rank lies between those
    /// of two entries, the lesser of which has its number in common with others.
    pub fn ranked(&self, rank: usize) -> Option<Entry>
        ensures entry { result ≡ ranked self.now rank }
        ensures order { IsOrdered self.now }
    {
        ranked(self.entries.as_slice(), rank)
    }
}

/// How many entries stand before an entry.
fn place_for(entries: &[Entry], entry: &Entry) -> usize
    requires { IsOrdered entries.now }
    ensures { result ≡ prefix_len (λ x. precedes x entry.now) entries.now }
{
    entries.partition_point(|x| x.precedes(entry))
}

fn ranked(entries: &[Entry], rank: usize) -> Option<Entry>
    requires { IsOrdered entries.now }
    ensures { result ≡ ranked entries.now rank }
{
    if rank >= entries.len() {
        return None;
    }
    if is_repeated(entries, rank) {
        return None;
    }
    Some(entries[rank])
}

/// Whether the entry at a place has its number in common with the one before it.
fn is_repeated(entries: &[Entry], place: usize) -> bool
    requires { place < length entries.now }
    ensures { (d : Entry) → result ≡ (nat_lt 0 place && ((slice_index_or entries.now (place - 1) d).number == (slice_index_or entries.now place d).number)) }
{
    place > 0 && entries[place - 1].number == entries[place].number
}
