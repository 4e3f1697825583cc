//! Writing a letter as a frame.

ghost use Rattle.std.specs.Prelude.{◌≡◌, ◌+◌, ◌-◌, ◌<◌, ◌≤◌, ◌^◌, ◌++◌, ℕ, List, length, drop, IfOk, OnOk};
ghost use Rattle.dds_letters.specs.declared.letter.Letter.{Letter};
ghost use Rattle.dds_frames.specs.Letters.{tag_of, IsInRange};
ghost use Rattle.dds_frames.specs.Frame.{frame, Spells};

use crate::decode::VERSION;
use crate::frame::Frame;
use crate::tag::Tag;
use crate::writer::FrameWriter;
use dds_base::memory::Memory;
use dds_letters::letter::Letter;
use std::alloc::Global;

/// The letter's one spelling.
#[tactic(auto, unfolding(crate::specs::Frame::frame))]
pub fn encode(alloc: Global, letter: &Letter) -> Result<Frame, Memory>
    ensures { IfOk result (λ frame. Spells frame letter.now) }
{
    let mut frame = FrameWriter::new(alloc)?;
    frame.number_4(0)?;
    frame.number_1(VERSION)?;
    frame.number_1(tag_of(letter).number())?;
    frame.fields(letter)?;
    frame.set_length();
    Ok(frame.finish())
}

/// What two letters' spellings have to do with each other: the front of some bytes spells one letter at most. So no
/// spelling is the beginning of another letter's, and each letter has its own.
pub fn spellings_are_apart()
    ensures front { (a b : Letter) (x y : List ℕ) → IsInRange a → IsInRange b → frame a ++ x ≡ frame b ++ y → (a ≡ b) × (x ≡ y) }
    ensures one { (a b : List ℕ) (letter : Letter) → Spells a letter → Spells b letter → a ≡ b }
{}

fn tag_of(letter: &Letter) -> Tag
    ensures { result ≡ tag_of letter.now }
{
    match letter {
        Letter::Get { .. } => Tag::Get,
        Letter::Prepare { .. } => Tag::Prepare,
        Letter::Commit { .. } => Tag::Commit,
        Letter::Abort { .. } => Tag::Abort,
        Letter::Push { .. } => Tag::Push,
        Letter::MapAsk { .. } => Tag::MapAsk,
        Letter::Got { .. } => Tag::Got,
        Letter::Vote { .. } => Tag::Vote,
        Letter::Applied { .. } => Tag::Applied,
        Letter::Aborted { .. } => Tag::Aborted,
        Letter::MapTell { .. } => Tag::MapTell,
        Letter::Help { .. } => Tag::Help,
        Letter::Query { .. } => Tag::Query,
        Letter::Status { .. } => Tag::Status,
        Letter::Outcome { .. } => Tag::Outcome,
        Letter::Lease { .. } => Tag::Lease,
        Letter::Granted { .. } => Tag::Granted,
        Letter::LeaseRefused { .. } => Tag::LeaseRefused,
        Letter::Release { .. } => Tag::Release,
        Letter::CopyAsk { .. } => Tag::CopyAsk,
        Letter::CopyPart { .. } => Tag::CopyPart,
        Letter::Install { .. } => Tag::Install,
        Letter::Installed { .. } => Tag::Installed,
        Letter::Notice => Tag::Notice,
    }
}
