//! The words for lists of bricks.

ghost use Rattle.std.specs.Prelude.{IfOk, option_map};
ghost use Rattle.dds_script.specs.Fields.{IsListWord};
ghost use Rattle.dds_script.specs.Reading.{IsRead};

use crate::cuts::cut_first;
use crate::numeral::read_below;
use dds_base::brick_list::MEMBERS;
use dds_base::memory::Memory;
use std::alloc::Global;

/// The bricks that the word lists: one to eight numbers with commas between them. One may stand there twice.
pub fn read_list(alloc: Global, word: &[u8], bricks: u8) -> Result<Option<Vec<u8>>, Memory>
    ensures { IfOk result (λ list. IsRead (IsListWord bricks word.now) (option_map (λ v. v.items) list)) }
{
    let mut list = Vec::new(alloc);
    let mut left = Some(word);
    'reading: while let Some(text) = left {
        if list.len() == MEMBERS {
            return Ok(None);
        }
        let (first, rest) = cut_first(text, b',');
        match read_below(first, bricks) {
            Some(brick) => list.push(brick)?,
            None => return Ok(None),
        }
        left = rest;
    }
    Ok(Some(list))
}
