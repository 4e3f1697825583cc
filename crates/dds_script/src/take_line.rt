//! Taking one line of a script.

ghost use Rattle.std.specs.Prelude.{◌≡◌, Bool, [], ◌∷◌, IfOk};
ghost use Rattle.dds_script.specs.Cutting.{IsCut};
ghost use Rattle.dds_script.specs.Fields.{IsLineOf};
ghost use Rattle.dds_script.specs.Forms.{form_of};
ghost use Rattle.dds_script.specs.Grammar.{AreTaken, IsTaken, after_blank};
ghost use Rattle.dds_script.specs.Lines.{AreRight};
ghost use Rattle.dds_script.specs.Sound.{IsBehind, IsSound, late};
ghost use Rattle.dds_script.specs.Words.{words};

use crate::cuts::{Words, cut_words};
use crate::line::Line;
use crate::place::Place;
use crate::ranges::LineFault;
use crate::read_line::read_cut;
use crate::reader::Reader;
use crate::script_error::ScriptKind;
use crate::take_opening::{take_cluster, take_leaf, take_old, unopened};
use crate::words::{is_ascii, is_blank, same};
use dds_base::memory::Memory;
use std::alloc::Global;

/// Takes a line: nothing is answered where it is accepted, and else its first kind of fault.
pub(crate) fn take_text(
    alloc: Global,
    reader: &mut Reader,
    text: &[u8],
) -> Result<Option<ScriptKind>, Memory>
    requires { IsSound reader.old }
    ensures { IfOk result (λ kind. IsTaken reader.old text.now reader.new kind) }
{
    if !is_ascii(text) {
        return Ok(Some(ScriptKind::Form));
    }
    if is_blank(text) {
        take_blank(reader)?;
        return Ok(None);
    }
    take_words(alloc, reader, text)
}

fn take_blank(reader: &mut Reader) -> Result<(), Memory>
    ensures { IfOk result (λ done. reader.new ≡ after_blank reader.old.place reader.old) }
{
    match reader.place {
        Place::BeforeCluster => Ok(()),
        Place::Leaves => Ok(()),
        Place::Old => Ok(()),
        Place::Body => reader.lines.push(Line::Nothing),
    }
}

/// Takes the words of a line.
fn take_words(alloc: Global, reader: &mut Reader, text: &[u8]) -> Result<Option<ScriptKind>, Memory>
    requires { IsSound reader.old }
    ensures { IfOk result (λ kind. AreTaken reader.old (words text.now) reader.new kind) }
{
    let cut = cut_words(text);
    match cut {
        Words::Three(a, b, c) => {
            if same(a, b"leaf") {
                return take_leaf(alloc, reader, b, c);
            }
            take_line(alloc, reader, text, cut)
        }
        Words::Four(a, b, c, d) => {
            if same(a, b"cluster") {
                return Ok(take_cluster(reader, b, c, d));
            }
            if same(a, b"old") {
                return take_old(alloc, reader, b, c, d);
            }
            take_line(alloc, reader, text, cut)
        }
        _ => take_line(alloc, reader, text, cut),
    }
}

/// Takes the words of a line that is none of the opening.
fn take_line(
    alloc: Global,
    reader: &mut Reader,
    text: &[u8],
    cut: Words<'_>,
) -> Result<Option<ScriptKind>, Memory>
    requires sound { IsSound reader.old }
    requires cut { IsCut (words text.now) cut }
    requires behind { IsBehind (form_of (words text.now)) }
    ensures { IfOk result (λ kind. AreTaken reader.old (words text.now) reader.new kind) }
{
    match read_cut(alloc, &reader.ranges, text, cut) {
        Ok(line) => put_line(reader, text, line),
        Err(LineFault::Form) => Ok(Some(ScriptKind::Form)),
        Err(LineFault::Number) => Ok(Some(late(reader.place, ScriptKind::Number))),
        Err(LineFault::Value) => Ok(Some(late(reader.place, ScriptKind::Value))),
        Err(LineFault::Memory) => Err(Memory),
    }
}

/// The kind of fault of a line behind the opening whose words are wrong.
fn late(place: Place, kind: ScriptKind) -> ScriptKind
    ensures { result ≡ late place kind }
{
    match place {
        Place::BeforeCluster => ScriptKind::Place,
        _ => kind,
    }
}

/// Puts a line behind the others.
fn put_line(reader: &mut Reader, text: &[u8], line: Line) -> Result<Option<ScriptKind>, Memory>
    requires sound { IsSound reader.old }
    requires line { IsLineOf reader.old.ranges (words text.now) line }
    requires right { AreRight reader.old.ranges (form_of (words text.now)) (words text.now) }
    ensures { IfOk result (λ kind. AreTaken reader.old (words text.now) reader.new kind) }
{
    if let Some(kind) = unopened(reader) {
        return Ok(Some(kind));
    }
    reader.lines.push(line)?;
    reader.place = Place::Body;
    Ok(None)
}
