//! Reading a whole script, in one pass over its bytes.

ghost use Rattle.std.specs.Prelude.{◌≡◌, ◌<◌, ◌≤◌, ◌^◌, [], length, IfOk, IfErr};
ghost use Rattle.dds_script.specs.Grammar.{Accepts, IsNoScript, IsOpened, IsReadTo, IsScriptError, script_of};
ghost use Rattle.dds_script.specs.Opening.{ScriptOf};
ghost use Rattle.dds_script.specs.Sound.{IsSound};

use crate::opening::{Opening, Script};
use crate::reader::Reader;
use crate::script_error::{ScriptError, ScriptFault, ScriptKind};
use crate::take_line::take_text;
use crate::take_opening::unopened;
use crate::words::find;
use dds_base::memory::Memory;
use std::alloc::Global;

/// The script that the bytes are, or the first line that is not accepted.
pub fn read_script(alloc: Global, bytes: &[u8]) -> Result<Script, ScriptError>
    requires { length bytes.now < 2 ^ 31 }
    ensures script { IfOk result (λ script. Accepts bytes.now script) }
    ensures one { IfOk result (λ script. (other : ScriptOf) → Accepts bytes.now other → other ≡ script) }
    ensures error { IfErr result (λ error. IsScriptError bytes.now error) }
    ensures none { IfErr result (λ error. IsNoScript bytes.now error) }
{
    read_whole(alloc, bytes)
}

fn read_whole(alloc: Global, bytes: &[u8]) -> Result<Script, ScriptError>
    requires { length bytes.now < 2 ^ 31 }
    ensures script { IfOk result (λ script. Accepts bytes.now script) }
    ensures error { IfErr result (λ error. IsScriptError bytes.now error) }
{
    match read_lines(alloc, bytes) {
        Ok(reader) => Ok(script_of(reader)),
        Err(error) => Err(error),
    }
}

fn script_of(reader: Reader) -> Script
    requires sound { IsSound reader }
    requires opened { IsOpened reader.place reader }
    requires few { length reader.lines < 2 ^ 32 }
    ensures { result ≡ script_of reader }
{
    let opening = Opening::of(reader.ranges, reader.leaves, reader.stale);
    Script::of(opening, reader.lines)
}

fn read_lines(alloc: Global, bytes: &[u8]) -> Result<Reader, ScriptError>
    requires { length bytes.now < 2 ^ 31 }
    ensures read { IfOk result (λ reader. IsReadTo bytes.now [] reader) }
    ensures opened { IfOk result (λ reader. IsOpened reader.place reader) }
    ensures error { IfErr result (λ error. IsScriptError bytes.now error) }
{
    let mut reader = Reader::new(alloc);
    let mut number = 1u32;
    let mut rest = bytes;
    'reading: while !rest.is_empty() {
        let Some(end) = find(rest, b'\n') else {
            return Err(fault(number, ScriptKind::NoEnd));
        };
        match take_text(alloc, &mut reader, &rest[..end]) {
            Ok(None) => {}
            Ok(Some(kind)) => return Err(fault(number, kind)),
            Err(Memory) => return Err(ScriptError::Memory),
        }
        rest = &rest[end + 1..];
        number += 1;
    }
    match unopened(&reader) {
        None => Ok(reader),
        Some(kind) => Err(fault(number, kind)),
    }
}

fn fault(line: u32, kind: ScriptKind) -> ScriptError
    ensures { result ≡ ScriptError.Fault record { line = line; kind = kind } }
{
    ScriptError::Fault(ScriptFault { line, kind })
}
