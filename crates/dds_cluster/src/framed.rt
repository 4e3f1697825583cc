//! A message on a link, whose letter is a frame of bytes. Contracts see the message.

ghost use Rattle.std.specs.Prelude.{◌≡◌, IfOk};
ghost use Rattle.dds_frames.specs.Frame.{Spells};
ghost use Rattle.dds_cluster.specs.Framed.{letter_of};

use crate::step::Message;
use dds_base::memory::Memory;
use dds_base::number::NodeNo;
use dds_frames::decode::decode;
use dds_frames::encode::encode;
use dds_frames::frame::Frame;
use dds_letters::letter::Letter;
use std::alloc::Global;
use std::marker::Model;

/// A message as it travels.
#[derive(Drop)]
pub struct Framed {
    number: u64,
    to: NodeNo,
    frame: Frame,
}

impl Model for Framed {
    ghost use Rattle.dds_frames.specs.Frame.{Spells};
    ghost use Rattle.dds_cluster.specs.Framed.{letter_of};
    ghost use Rattle.dds_cluster.specs.declared.step.Message.{Message};
    ghost use Rattle.dds_cluster.specs.contracts.step.Message as message;

    ghost Value = { Message };

    ghost coded = { message.the_row.coded };

    ghost view = { λ a. record { number = a.number; to = a.to; letter = letter_of a.frame } };

    ghost invariant = { λ a. Spells a.frame (letter_of a.frame) };
}

impl Framed {
    /// Writes the message's letter as a frame.
    pub fn of(alloc: Global, message: &Message) -> Result<Framed, Memory>
        ensures { IfOk result (λ framed. framed ≡ message.now) }
    {
        let frame = encode(alloc, &message.letter)?;
        Ok(Framed {
            number: message.number,
            to: message.to,
            frame,
        })
    }

    /// The number of the message's letter.
    pub fn number(&self) -> u64
        ensures { result ≡ self.now.number }
    {
        self.number
    }

    /// Reads the frame's letter.
    pub fn letter(&self, alloc: Global) -> Result<Letter, Memory>
        ensures { IfOk result (λ letter. letter ≡ self.now.letter) }
    {
        match decode(alloc, self.frame.as_slice()) {
            Ok((letter, _)) => Ok(letter),
            Err(_) => Err(Memory),
        }
    }
}
