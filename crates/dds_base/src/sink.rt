//! Sinks of bytes, and writing a whole text to one.

ghost use Rattle.std.specs.Prelude.{◌≡◌, ℕ, ◌-◌, ◌<◌, ◌≤◌, Option, List, length, take, IfOk, OnOk, OnErr};
ghost use Rattle.dds_base.specs.Outside.{Added, AddedPart, Rose};

use crate::memory::Failed;

/// Takes bytes one piece after another, as a file does. What was written may be told to callers'
/// proofs or not.
pub trait Sink {
    // The bytes written so far, where they are told. No call changes whether they are.
    ghost written: { Self → Option (List ℕ) };

    // How many calls failed. At its last value, 2^64 - 1, the count may stay.
    ghost faults: { Self → ℕ };

    /// Takes some of the first bytes of the piece and answers how many they are: at least one,
    /// unless the piece is empty. `Failed` says that this call failed; a later one may succeed.
    fn write(&mut self, piece: &[u8]) -> Result<usize, Failed>
        ensures within { IfOk result (λ n. n ≤ length piece.now) }
        ensures some { IfOk result (λ n. 0 < length piece.now → 0 < n) }
        ensures added { IfOk result (λ n. Added (written self.old) (take n piece.now) (written self.new)) }
        ensures kept { OnErr result (written self.new ≡ written self.old) }
        ensures rose { OnErr result (Rose (faults self.old) (faults self.new)) }
        ensures never_falls { faults self.old ≤ faults self.new };
}

/// A sink that is lent is a sink.
impl<K: Sink> Sink for &mut K {
    ghost written = { λ sink. K.written sink.now };

    ghost faults = { λ sink. K.faults sink.now };

    fn write(&mut self, piece: &[u8]) -> Result<usize, Failed> {
        Sink::write(&mut **self, piece)
    }
}

/// Writes the whole text, in as many calls as the sink needs, and stops at the first failed call.
/// After `Failed` a beginning of the text was written, perhaps all or none of it.
pub fn write_all<K: Sink>(sink: &mut K, text: &[u8]) -> Result<(), Failed>
    ensures whole { OnOk result (Added (K.written sink.old) text.now (K.written sink.new)) }
    ensures part { OnErr result (AddedPart (K.written sink.old) text.now (K.written sink.new)) }
    ensures rose { OnErr result (Rose (K.faults sink.old) (K.faults sink.new)) }
    ensures never_falls { K.faults sink.old ≤ K.faults sink.new }
{
    let mut at = 0usize;
    'writing: while at < text.len() {
        match sink.write(&text[at..]) {
            Ok(n) => at += n,
            Err(Failed) => return Err(Failed),
        }
    }
    Ok(())
}
