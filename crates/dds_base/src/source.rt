//! Sources of bytes, and reading one to its end within limits.

ghost use Rattle.std.specs.Prelude.{◌≡◌, ℕ, ◌-◌, ◌^◌, ◌<◌, ◌≤◌, Option, List, length, take, IfOk, OnOk, OnErr, IsErrOf};
ghost use Rattle.dds_base.specs.declared.source.ReadEnd.TheVariants.{Memory as NoMemory};
ghost use Rattle.dds_base.specs.Outside.{Took, IsEnded, Rose, TookPast, TookWithin, line_ends, one_more};

use crate::memory::Failed;
use std::alloc::{AllocError, Global};

/// How many bytes `read_all` asks for at a time.
const PIECE: usize = 65_536;

/// Gives bytes one piece after another, as a file does. What is left may be told to callers'
/// proofs or not.
pub trait Source {
    // The bytes that are left to give, where they are told. No call changes whether they are.
    ghost left: { Self → Option (List ℕ) };

    // How many calls failed. At its last value, 2^64 - 1, the count may stay.
    ghost faults: { Self → ℕ };

    /// Puts the next bytes at the front of `into` and answers how many they are. For a piece with
    /// room, 0 is the end. `Failed` says that this call failed; a later one may succeed.
    fn read(&mut self, into: &mut [u8]) -> Result<usize, Failed>
        ensures within { IfOk result (λ n. n ≤ length into.new) }
        ensures taken { IfOk result (λ n. Took (left self.old) (take n into.new) (left self.new)) }
        ensures end { IfOk result (λ n. n ≡ 0 → 0 < length into.new → IsEnded (left self.new)) }
        ensures kept { OnErr result (left self.new ≡ left self.old) }
        ensures rose { OnErr result (Rose (faults self.old) (faults self.new)) }
        ensures never_falls { faults self.old ≤ faults self.new };
}

/// A source that is lent is a source.
impl<S: Source> Source for &mut S {
    ghost left = { λ source. S.left source.now };

    ghost faults = { λ source. S.faults source.now };

    fn read(&mut self, into: &mut [u8]) -> Result<usize, Failed> {
        Source::read(&mut **self, into)
    }
}

/// Why a source was not read to its end.
#[derive(Clone, Copy, Debug, PartialEq, Eq)]
pub enum ReadEnd {
    /// It gave more bytes or more line ends than the limits allow.
    TooLong,
    /// A call of it failed before a limit was passed.
    Failed,
    /// There was no memory for the bytes.
    Memory,
}

impl From<AllocError> for ReadEnd {
    ghost from_gives = { λ _ e. e ≡ NoMemory };

    fn from(_: AllocError) -> ReadEnd {
        ReadEnd::Memory
    }
}

/// Gives a count of faults or of calls after one more. It stays at its last value, `u64::MAX`.
pub fn one_more(count: u64) -> u64
    ensures value { result ≡ one_more count }
    ensures rose { Rose count result }
    ensures never_falls { count ≤ result }
{
    if count < u64::MAX { count + 1 } else { count }
}

/// Counts the line ends, which are the bytes 10.
fn count_line_ends(piece: &[u8]) -> usize
    ensures value { result ≡ line_ends piece.now }
    ensures within { result ≤ length piece.now }
{
    piece.iter().filter(|byte| **byte == 10).count()
}

/// Makes the place that pieces are read into.
fn new_buffer(alloc: Global) -> Result<Vec<u8>, AllocError>
    ensures { IfOk result (λ buffer. 0 < length buffer.items) }
{
    vec![in alloc; 0u8; PIECE]
}

/// Reads the source to its end by way of `buffer`, as `read_all` says.
fn read_by<S: Source>(
    alloc: Global,
    source: &mut S,
    buffer: &mut [u8],
    most_bytes: usize,
    most_lines: usize,
) -> Result<Vec<u8>, ReadEnd>
    requires bytes_fit { most_bytes < 2 ^ 32 }
    requires room { 0 < length buffer.old }
    ensures all { IfOk result (λ text. Took (S.left source.old) text.items (S.left source.new)) }
    ensures ended { OnOk result (IsEnded (S.left source.new)) }
    ensures short { IfOk result (λ text. length text.items ≤ most_bytes) }
    ensures few { IfOk result (λ text. line_ends text.items ≤ most_lines) }
    ensures too_long { IsErrOf result ReadEnd.TooLong → TookPast (S.left source.old) most_bytes most_lines (S.left source.new) }
    ensures failed { IsErrOf result ReadEnd.Failed → TookWithin (S.left source.old) most_bytes most_lines (S.left source.new) }
    ensures rose { IsErrOf result ReadEnd.Failed → Rose (S.faults source.old) (S.faults source.new) }
    ensures never_falls { S.faults source.old ≤ S.faults source.new }
{
    let mut text = Vec::new(alloc);
    let mut lines = 0usize;
    'reading: loop {
        let n = match source.read(buffer) {
            Ok(n) => n,
            Err(Failed) => return Err(ReadEnd::Failed),
        };
        if n == 0 {
            return Ok(text);
        }
        let piece = &buffer[..n];
        let ends = count_line_ends(piece);
        if n > most_bytes - text.len() {
            return Err(ReadEnd::TooLong);
        }
        if ends > most_lines - lines {
            return Err(ReadEnd::TooLong);
        }
        text.extend_from_slice(piece)?;
        lines += ends;
    }
}

/// Reads the source to its end, and gives all bytes that it gave. It stops at the first piece that
/// passes `most_bytes` bytes or `most_lines` line ends, and at the first failed call. A line end
/// is the byte 10.
pub fn read_all<S: Source>(
    alloc: Global,
    source: &mut S,
    most_bytes: usize,
    most_lines: usize,
) -> Result<Vec<u8>, ReadEnd>
    requires { most_bytes < 2 ^ 32 }
    ensures all { IfOk result (λ text. Took (S.left source.old) text.items (S.left source.new)) }
    ensures ended { OnOk result (IsEnded (S.left source.new)) }
    ensures short { IfOk result (λ text. length text.items ≤ most_bytes) }
    ensures few { IfOk result (λ text. line_ends text.items ≤ most_lines) }
    ensures too_long { IsErrOf result ReadEnd.TooLong → TookPast (S.left source.old) most_bytes most_lines (S.left source.new) }
    ensures failed { IsErrOf result ReadEnd.Failed → TookWithin (S.left source.old) most_bytes most_lines (S.left source.new) }
    ensures rose { IsErrOf result ReadEnd.Failed → Rose (S.faults source.old) (S.faults source.new) }
    ensures never_falls { S.faults source.old ≤ S.faults source.new }
{
    let mut buffer = new_buffer(alloc)?;
    read_by(alloc, source, buffer.as_mut_slice(), most_bytes, most_lines)
}
