//! Reading the words of each form behind the opening.

ghost use Rattle.std.specs.Prelude.{◌≡◌, [], ◌∷◌, codes};
ghost use Rattle.dds_script.specs.Forms.{begins_with_l};
ghost use Rattle.dds_script.specs.Lines.{AreRead};
ghost use Rattle.dds_script.specs.Ranges.{IsRanges};

use crate::line::{Line, Picker};
use crate::node_words::{read_brick, read_name, read_node};
use crate::numeral::{read_events, read_number};
use crate::ranges::{LineFault, Ranges};
use crate::words::same;

pub(crate) fn read_stop(ranges: &Ranges, node: &[u8]) -> Result<Line, LineFault>
    requires { IsRanges ranges.now }
    ensures { AreRead ranges.now (codes "stop" ∷ node.now ∷ []) result }
{
    match read_node(node, ranges) {
        Some(node) => Ok(Line::Stop { node }),
        None => Err(LineFault::Number),
    }
}

pub(crate) fn read_post(ranges: &Ranges, node: &[u8]) -> Result<Line, LineFault>
    requires { IsRanges ranges.now }
    ensures { AreRead ranges.now (codes "post" ∷ node.now ∷ []) result }
{
    match read_node(node, ranges) {
        Some(node) => Ok(Line::Post { node }),
        None => Err(LineFault::Number),
    }
}

pub(crate) fn read_take(ranges: &Ranges, node: &[u8], from: &[u8]) -> Result<Line, LineFault>
    requires { IsRanges ranges.now }
    ensures { AreRead ranges.now (codes "take" ∷ node.now ∷ from.now ∷ []) result }
{
    match (read_node(node, ranges), read_node(from, ranges)) {
        (Some(node), Some(from)) => Ok(Line::Take { node, from }),
        _ => Err(LineFault::Number),
    }
}

pub(crate) fn read_show(ranges: &Ranges, brick: &[u8]) -> Result<Line, LineFault>
    requires { IsRanges ranges.now }
    ensures { AreRead ranges.now (codes "show" ∷ brick.now ∷ []) result }
{
    if begins_with_l(brick) {
        return Err(LineFault::Form);
    }
    match read_brick(brick, ranges.bricks) {
        Some(brick) => Ok(Line::Show { brick }),
        None => Err(LineFault::Number),
    }
}

fn begins_with_l(word: &[u8]) -> bool
    ensures { result ≡ begins_with_l word.now }
{
    match word {
        [] => false,
        [first, ..] => *first == b'l',
    }
}

pub(crate) fn read_events_line(ranges: &Ranges, count: &[u8]) -> Result<Line, LineFault>
    ensures { AreRead ranges.now (codes "events" ∷ count.now ∷ []) result }
{
    match read_events(count) {
        Some(count) => Ok(Line::Events(count)),
        None => Err(LineFault::Number),
    }
}

pub(crate) fn read_picker(ranges: &Ranges, picker: &[u8]) -> Result<Line, LineFault>
    ensures { AreRead ranges.now (codes "pick" ∷ picker.now ∷ []) result }
{
    if same(picker, b"fifo") {
        return Ok(Line::Pick(Picker::Fifo));
    }
    if same(picker, b"newest") {
        return Ok(Line::Pick(Picker::Newest));
    }
    Err(LineFault::Form)
}

pub(crate) fn read_seed(ranges: &Ranges, seed: &[u8]) -> Result<Line, LineFault>
    ensures { AreRead ranges.now (codes "pick" ∷ codes "seed" ∷ seed.now ∷ []) result }
{
    match read_number(seed) {
        Some(seed) => Ok(Line::Pick(Picker::Seed(seed))),
        None => Err(LineFault::Number),
    }
}

pub(crate) fn read_split(ranges: &Ranges, brick: &[u8], name: &[u8]) -> Result<Line, LineFault>
    requires { IsRanges ranges.now }
    ensures { AreRead ranges.now (codes "split" ∷ brick.now ∷ name.now ∷ []) result }
{
    match (read_brick(brick, ranges.bricks), read_name(name)) {
        (Some(brick), Some(name)) => Ok(Line::Split { brick, name }),
        _ => Err(LineFault::Number),
    }
}

pub(crate) fn read_join(
    ranges: &Ranges,
    brick: &[u8],
    name: &[u8],
    via: &[u8],
) -> Result<Line, LineFault>
    requires { IsRanges ranges.now }
    ensures { AreRead ranges.now (codes "join" ∷ brick.now ∷ name.now ∷ via.now ∷ []) result }
{
    match (
        read_brick(brick, ranges.bricks),
        read_name(name),
        read_brick(via, ranges.bricks),
    ) {
        (Some(brick), Some(name), Some(via)) => Ok(Line::Join { brick, name, via }),
        _ => Err(LineFault::Number),
    }
}
