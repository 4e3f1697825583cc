//! Reading one line behind the opening.

ghost use Rattle.std.specs.Prelude.{◌≡◌, ◌&&◌, [], ◌∷◌, List, ℕ, IfErr, codes};
ghost use Rattle.std.specs.Str.{bytes_eq};
ghost use Rattle.dds_script.specs.Cutting.{IsCut};
ghost use Rattle.dds_script.specs.Lines.{AreRead, IsLineAnswer, IsNoLine};
ghost use Rattle.dds_script.specs.Ranges.{IsRanges};
ghost use Rattle.dds_script.specs.Words.{words};

use crate::call_words::{read_get, read_put, read_remove, read_swap};
use crate::cuts::{Words, cut_words};
use crate::line::Line;
use crate::line_words::{
    read_events_line, read_join, read_picker, read_post, read_seed, read_show, read_split,
    read_stop, read_take,
};
use crate::ranges::{LineFault, Ranges};
use crate::words::{is_ascii, is_blank, same};
use std::alloc::Global;

/// The line that the words are, which stand without an LF; the lines of an opening are none of these.
pub fn read_line(alloc: Global, words: &[u8], ranges: &Ranges) -> Result<Line, LineFault>
    requires { IsRanges ranges.now }
    ensures answer { IsLineAnswer ranges.now words.now result }
    ensures none { IfErr result (λ fault. IsNoLine ranges.now words.now fault) }
{
    read_text(alloc, words, ranges)
}

fn read_text(alloc: Global, text: &[u8], ranges: &Ranges) -> Result<Line, LineFault>
    requires { IsRanges ranges.now }
    ensures { IsLineAnswer ranges.now text.now result }
{
    if !is_ascii(text) {
        return Err(LineFault::Form);
    }
    if is_blank(text) {
        return Ok(Line::Nothing);
    }
    read_words(alloc, ranges, text)
}

/// The line that the words of the text are.
fn read_words(alloc: Global, ranges: &Ranges, text: &[u8]) -> Result<Line, LineFault>
    requires { IsRanges ranges.now }
    ensures { AreRead ranges.now (words text.now) result }
{
    read_cut(alloc, ranges, text, cut_words(text))
}

/// The line that the words of the text are, which was cut into them.
pub(crate) fn read_cut(
    alloc: Global,
    ranges: &Ranges,
    text: &[u8],
    cut: Words<'_>,
) -> Result<Line, LineFault>
    requires ranges { IsRanges ranges.now }
    requires cut { IsCut (words text.now) cut }
    ensures { AreRead ranges.now (words text.now) result }
{
    match cut {
        Words::One(a) => read_one(a, ranges),
        Words::Two(a, b) => read_two(ranges, a, b),
        Words::Three(a, b, c) => read_three(ranges, a, b, c),
        Words::Four(a, b, c, d) => read_four(alloc, ranges, a, b, c, d),
        Words::Five(a, b, c, d, e) => read_five(alloc, ranges, a, b, c, d, e),
        Words::More => Err(LineFault::Form),
    }
}

fn read_one(a: &[u8], ranges: &Ranges) -> Result<Line, LineFault>
    ensures { AreRead ranges.now (a.now ∷ []) result }
{
    if same(a, b"quiet") {
        Ok(Line::Quiet)
    } else {
        Err(LineFault::Form)
    }
}

fn read_two(ranges: &Ranges, a: &[u8], b: &[u8]) -> Result<Line, LineFault>
    requires { IsRanges ranges.now }
    ensures { AreRead ranges.now (a.now ∷ b.now ∷ []) result }
{
    if same(a, b"stop") {
        return read_stop(ranges, b);
    }
    if same(a, b"pick") {
        return read_picker(ranges, b);
    }
    if same(a, b"events") {
        return read_events_line(ranges, b);
    }
    if same(a, b"post") {
        return read_post(ranges, b);
    }
    if same(a, b"show") {
        return read_show(ranges, b);
    }
    Err(LineFault::Form)
}

fn read_three(ranges: &Ranges, a: &[u8], b: &[u8], c: &[u8]) -> Result<Line, LineFault>
    requires { IsRanges ranges.now }
    ensures { AreRead ranges.now (a.now ∷ b.now ∷ c.now ∷ []) result }
{
    if same(a, b"leaf") {
        return Err(LineFault::Form);
    }
    if same(a, b"split") {
        return read_split(ranges, b, c);
    }
    if same(a, b"take") {
        return read_take(ranges, b, c);
    }
    if is_seed(a, b) {
        return read_seed(ranges, c);
    }
    if same(b, b"get") {
        return read_get(ranges, a, c);
    }
    if same(b, b"remove") {
        return read_remove(ranges, a, c);
    }
    Err(LineFault::Form)
}

fn is_seed(a: &[u8], b: &[u8]) -> bool
    ensures { result ≡ (bytes_eq a.now (codes "pick") && bytes_eq b.now (codes "seed")) }
{
    same(a, b"pick") && same(b, b"seed")
}

fn read_four(
    alloc: Global,
    ranges: &Ranges,
    a: &[u8],
    b: &[u8],
    c: &[u8],
    d: &[u8],
) -> Result<Line, LineFault>
    requires { IsRanges ranges.now }
    ensures { AreRead ranges.now (a.now ∷ b.now ∷ c.now ∷ d.now ∷ []) result }
{
    if same(a, b"cluster") {
        return Err(LineFault::Form);
    }
    if same(a, b"old") {
        return Err(LineFault::Form);
    }
    if same(a, b"join") {
        return read_join(ranges, b, c, d);
    }
    if same(b, b"put") {
        return read_put(alloc, ranges, a, c, d);
    }
    Err(LineFault::Form)
}

fn read_five(
    alloc: Global,
    ranges: &Ranges,
    a: &[u8],
    b: &[u8],
    c: &[u8],
    d: &[u8],
    e: &[u8],
) -> Result<Line, LineFault>
    requires { IsRanges ranges.now }
    ensures { AreRead ranges.now (a.now ∷ b.now ∷ c.now ∷ d.now ∷ e.now ∷ []) result }
{
    if same(b, b"swap") {
        return read_swap(alloc, ranges, a, c, d, e);
    }
    Err(LineFault::Form)
}
