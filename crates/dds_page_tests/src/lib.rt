//! Tests of the storage: disks, their cache, pages, and the tables of a store.
#![tactic(auto)]

#[cfg(test)]
mod acts;
#[cfg(test)]
mod cache;
#[cfg(test)]
mod disks;
#[cfg(test)]
mod lifting;
#[cfg(test)]
mod pages;
#[cfg(test)]
mod table;
#[cfg(test)]
mod table_disks;
