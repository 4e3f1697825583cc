//! The words for nodes and partitions.

ghost use Rattle.std.specs.Prelude.{◌≤◌, ◌<◌};
ghost use Rattle.dds_script.specs.Fields.{AreNameParts, IsBrickWord, IsLibraryWord, IsNameWord, IsNodeWord};
ghost use Rattle.dds_script.specs.Ranges.{IsRanges};
ghost use Rattle.dds_script.specs.Reading.{IsRead};

use crate::numeral::{read_below, read_number};
use crate::ranges::Ranges;
use crate::words::{after, find};
use dds_base::name::{DEPTH, LeafName};
use dds_base::number::NodeNo;

/// The brick that the word is: `b` and its number.
pub fn read_brick(word: &[u8], bricks: u8) -> Option<NodeNo>
    requires { bricks ≤ 64 }
    ensures { IsRead (IsBrickWord bricks word.now) result }
{
    match after(word, b"b") {
        Some(rest) => match read_below(rest, bricks) {
            Some(n) => NodeNo::brick(n),
            None => None,
        },
        None => None,
    }
}

/// The library that the word is: `l` and its number.
fn read_library(word: &[u8], libraries: u8) -> Option<NodeNo>
    requires { libraries ≤ 16 }
    ensures { IsRead (IsLibraryWord libraries word.now) result }
{
    match after(word, b"l") {
        Some(rest) => match read_below(rest, libraries) {
            Some(n) => NodeNo::library(n),
            None => None,
        },
        None => None,
    }
}

/// The node that the word is.
pub fn read_node(word: &[u8], ranges: &Ranges) -> Option<NodeNo>
    requires { IsRanges ranges.now }
    ensures { IsRead (IsNodeWord ranges.now word.now) result }
{
    match read_brick(word, ranges.bricks) {
        Some(brick) => Some(brick),
        None => read_library(word, ranges.libraries),
    }
}

/// The partition's name that the word is: its bits, `/` and its depth.
pub fn read_name(word: &[u8]) -> Option<LeafName>
    ensures { IsRead (IsNameWord word.now) result }
{
    match find(word, b'/') {
        Some(place) => read_parts(&word[..place], &word[place + 1..]),
        None => None,
    }
}

fn read_parts(bits: &[u8], depth: &[u8]) -> Option<LeafName>
    ensures { IsRead (AreNameParts bits.now depth.now) result }
{
    match (read_number(bits), read_below(depth, DEPTH + 1)) {
        (Some(bits), Some(depth)) => {
            if bits < 65_536 {
                LeafName::of(bits as u16, depth)
            } else {
                None
            }
        }
        _ => None,
    }
}
