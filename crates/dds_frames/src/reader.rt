//! Reading letters from a stream that comes in pieces.

ghost use Rattle.std.specs.Prelude.{◌≡◌, ◌≢◌, ◌++◌, List, [], None, Err, Ok, IfOk, IfSome, OnOk, OnErr};
ghost use Rattle.dds_frames.specs.declared.fault.FrameFault.TheVariants.{Short};
ghost use Rattle.dds_frames.specs.Spelling.{AreBytes};
ghost use Rattle.dds_frames.specs.Frame.{decoded, frame};
ghost use Rattle.dds_frames.specs.Letters.{IsInRange};
ghost use Rattle.dds_frames.specs.Reader.{Held, IsNext, Event, IsReading, AreTold, fed, told};

use crate::decode::decode;
use crate::fault::FrameFault;
use bytes::BytesMut;
use dds_base::memory::Memory;
use dds_letters::letter::Letter;
use std::alloc::Global;
use std::marker::Model;

/// Bytes of a stream, of which whole frames are taken from the front. A frame's fields are read once all of them are
/// there, and a taken frame is only skipped, so bytes that come one by one cost no more than together.
#[derive(Drop)]
pub struct FrameReader {
    alloc: Global,
    held: BytesMut,
    fault: Option<FrameFault>,
}

impl Model for FrameReader {
    ghost use Rattle.dds_frames.specs.Reader.{Held, FaultStands};

    ghost Value = { Held };

    ghost view = { λ a. record { bytes = a.held.items; fault = a.fault } };

    ghost invariant = { λ a. FaultStands a.held.items a.fault };
}

impl FrameReader {
    /// Takes no memory.
    pub fn new(alloc: Global) -> FrameReader
        ensures { result ≡ record { bytes = []; fault = None } }
    {
        FrameReader {
            alloc,
            held: BytesMut::new(alloc),
            fault: None,
        }
    }

    /// Adds the next bytes of the stream.
    pub fn feed(&mut self, piece: &[u8]) -> Result<(), Memory>
        ensures ok { OnOk result (self.new ≡ record { bytes = self.old.bytes ++ piece.now; fault = self.old.fault }) }
        ensures err { OnErr result (self.new ≡ self.old) }
    {
        self.held.extend_from_slice(piece)?;
        Ok(())
    }

    /// The next letter; `None` where its frame is not whole yet. Where the bytes are no frame, the same fault is answered
    /// from then on.
    pub fn next(&mut self) -> Result<Option<Letter>, FrameFault>
        ensures next { IsNext self.old result self.new }
        // A letter's frame is taken from the front.
        ensures letter { IfOk result (λ answer. IfSome answer (λ letter. IsInRange letter × (self.old.bytes ≡ frame letter ++ self.new.bytes))) }
        // None is answered exactly where the bytes are no whole frame yet.
        ensures none { result ≡ Ok None → decoded self.old.bytes ≡ Err Short }
        ensures waits { decoded self.old.bytes ≡ Err Short → result ≡ Ok None }
        ensures kept { IfSome self.old.fault (λ fault. result ≡ Err fault) }
        ensures never { result ≢ Err Short }
    {
        if let Some(fault) = self.fault {
            return Err(fault);
        }
        match decode(self.alloc, self.held.as_slice()) {
            Ok((letter, end)) => {
                self.held.advance(end);
                Ok(Some(letter))
            }
            Err(FrameFault::Short) => Ok(None),
            Err(FrameFault::Memory) => Err(FrameFault::Memory),
            Err(fault) => {
                self.fault = Some(fault);
                Err(fault)
            }
        }
    }
}

/// What any reader does: the letters answered are those whose frames, one behind another, are the beginning of the
/// bytes given, in whatever pieces they came; and the rest is what it holds.
pub fn readings_are_spelled()
    ensures { (events : List Event) (held : Held) → AreBytes (fed events) → IsReading (record { bytes = []; fault = None }) events held →
        AreTold (fed events) (told events) held }
{}
