//! Reading the words of calls.

ghost use Rattle.std.specs.Prelude.{[], ◌∷◌, codes, Some};
ghost use Rattle.dds_script.specs.Lines.{AreReadAs};
ghost use Rattle.dds_script.specs.Ranges.{IsRanges};
ghost use Rattle.dds_script.specs.declared.form.Form.TheVariants as form;

use crate::line::Line;
use crate::numeral::{read_below, read_number};
use crate::ranges::{LineFault, Ranges};
use crate::value_word::read_value;
use dds_base::number::CallerNo;
use dds_base::op::Op;
use std::alloc::Global;

pub(crate) fn read_get(ranges: &Ranges, caller: &[u8], key: &[u8]) -> Result<Line, LineFault>
    requires { IsRanges ranges.now }
    ensures { AreReadAs ranges.now (Some form.Get) (caller.now ∷ codes "get" ∷ key.now ∷ []) result }
{
    match (read_below(caller, ranges.callers), read_number(key)) {
        (Some(caller), Some(key)) => Ok(Line::Call {
            caller: CallerNo::of(caller).unwrap(),
            op: Op::Get { key },
        }),
        _ => Err(LineFault::Number),
    }
}

pub(crate) fn read_remove(ranges: &Ranges, caller: &[u8], key: &[u8]) -> Result<Line, LineFault>
    requires { IsRanges ranges.now }
    ensures { AreReadAs ranges.now (Some form.Remove) (caller.now ∷ codes "remove" ∷ key.now ∷ []) result }
{
    match (read_below(caller, ranges.callers), read_number(key)) {
        (Some(caller), Some(key)) => Ok(Line::Call {
            caller: CallerNo::of(caller).unwrap(),
            op: Op::Remove { key },
        }),
        _ => Err(LineFault::Number),
    }
}

pub(crate) fn read_put(
    alloc: Global,
    ranges: &Ranges,
    caller: &[u8],
    key: &[u8],
    value: &[u8],
) -> Result<Line, LineFault>
    requires { IsRanges ranges.now }
    ensures { AreReadAs ranges.now (Some form.Put) (caller.now ∷ codes "put" ∷ key.now ∷ value.now ∷ []) result }
{
    let (Some(caller), Some(key)) = (read_below(caller, ranges.callers), read_number(key)) else {
        return Err(LineFault::Number);
    };
    match read_value(alloc, value) {
        Ok(Some(value)) => Ok(Line::Call {
            caller: CallerNo::of(caller).unwrap(),
            op: Op::Put { key, value },
        }),
        Ok(None) => Err(LineFault::Value),
        Err(_) => Err(LineFault::Memory),
    }
}

pub(crate) fn read_swap(
    alloc: Global,
    ranges: &Ranges,
    caller: &[u8],
    key: &[u8],
    expected: &[u8],
    value: &[u8],
) -> Result<Line, LineFault>
    requires { IsRanges ranges.now }
    ensures { AreReadAs ranges.now (Some form.Swap) (caller.now ∷ codes "swap" ∷ key.now ∷ expected.now ∷ value.now ∷ []) result }
{
    let (Some(caller), Some(key)) = (read_below(caller, ranges.callers), read_number(key)) else {
        return Err(LineFault::Number);
    };
    match (read_value(alloc, expected), read_value(alloc, value)) {
        (Ok(Some(expected)), Ok(Some(value))) => Ok(Line::Call {
            caller: CallerNo::of(caller).unwrap(),
            op: Op::Swap {
                key,
                expected,
                value,
            },
        }),
        (Err(_), _) => Err(LineFault::Memory),
        (_, Err(_)) => Err(LineFault::Memory),
        _ => Err(LineFault::Value),
    }
}
