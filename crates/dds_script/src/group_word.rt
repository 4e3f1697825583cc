//! The words for replica groups.

ghost use Rattle.std.specs.Prelude.{◌≤◌, IfOk};
ghost use Rattle.dds_script.specs.Sound.{IsGroupRead};

use crate::list_word::read_list;
use dds_base::brick_list::BrickList;
use dds_base::memory::Memory;
use std::alloc::Global;

/// What a word for a list of bricks is: no such list, one in which a brick stands twice, or a group.
#[derive(Clone, Copy, PartialEq, Eq, Debug)]
pub enum Group {
    Wrong,
    Twice,
    Bricks(BrickList),
}

/// The group that the word lists.
pub fn read_group(alloc: Global, word: &[u8], bricks: u8) -> Result<Group, Memory>
    requires { bricks ≤ 64 }
    ensures { IfOk result (λ group. IsGroupRead bricks word.now group) }
{
    match read_list(alloc, word, bricks)? {
        Some(list) => match BrickList::of(list.as_slice()) {
            Some(group) => Ok(Group::Bricks(group)),
            None => Ok(Group::Twice),
        },
        None => Ok(Group::Wrong),
    }
}
