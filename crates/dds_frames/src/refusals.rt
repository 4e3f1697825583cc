//! Reading leaves, and what bricks answer by them.

ghost use Rattle.std.specs.Prelude.{◌≡◌};
ghost use Rattle.dds_frames.specs.Reading.{ReadsAs};
ghost use Rattle.dds_frames.specs.Parts.{leaf_at, maybe_leaf_at, refusal_at, denial_at, answer_at, ballot_at, wanted_at};

use crate::fault::FieldFault;
use crate::fields::Fields;
use dds_base::leaf::Leaf;
use dds_letters::refusal::{Answer, Ballot, Denial, Refusal, Wanted};
use std::alloc::Global;

impl<'a> Fields<'a> {
    #[tactic(auto, unfolding(crate::specs::Parts::leaf_at))]
    pub(crate) fn leaf(&mut self) -> Result<Leaf, FieldFault>
        ensures { ReadsAs result self.new (leaf_at self.old) }
    {
        let name = self.name()?;
        let epoch = self.number_8()?;
        let stamp = self.stamp()?;
        let prev = self.stamp()?;
        let list = self.group()?;
        Ok(Leaf {
            name,
            epoch,
            stamp,
            prev,
            list,
        })
    }

    #[tactic(auto, unfolding(crate::specs::Parts::maybe_leaf_at))]
    pub(crate) fn maybe_leaf(&mut self) -> Result<Option<Leaf>, FieldFault>
        ensures { ReadsAs result self.new (maybe_leaf_at self.old) }
    {
        let left = self.left();
        match self.number_1()? {
            0 => Ok(None),
            1 => Ok(Some(self.leaf()?)),
            _ => Err(FieldFault::Refused { left }),
        }
    }

    #[tactic(auto, unfolding(crate::specs::Parts::refusal_at))]
    pub(crate) fn refusal(&mut self) -> Result<Refusal, FieldFault>
        ensures { ReadsAs result self.new (refusal_at self.old) }
    {
        let left = self.left();
        match self.number_1()? {
            1 => Ok(Refusal::Lease),
            2 => Ok(Refusal::Lock),
            3 => Ok(Refusal::Stale {
                leaf: self.maybe_leaf()?,
            }),
            _ => Err(FieldFault::Refused { left }),
        }
    }

    #[tactic(auto, unfolding(crate::specs::Parts::denial_at))]
    fn denial(&mut self) -> Result<Denial, FieldFault>
        ensures { ReadsAs result self.new (denial_at self.old) }
    {
        let left = self.left();
        match self.number_1()? {
            1 => Ok(Denial::Refused(Refusal::Lease)),
            2 => Ok(Denial::Refused(Refusal::Lock)),
            3 => Ok(Denial::Refused(Refusal::Stale {
                leaf: self.maybe_leaf()?,
            })),
            4 => Ok(Denial::Full),
            _ => Err(FieldFault::Refused { left }),
        }
    }

    #[tactic(auto, unfolding(crate::specs::Parts::answer_at))]
    pub(crate) fn answer(&mut self, alloc: Global) -> Result<Answer, FieldFault>
        ensures { ReadsAs result self.new (answer_at self.old) }
    {
        let left = self.left();
        match self.number_1()? {
            0 => Ok(Answer::Absent),
            1 => Ok(Answer::Value(self.value(alloc)?)),
            2 => Ok(Answer::Refused(self.refusal()?)),
            _ => Err(FieldFault::Refused { left }),
        }
    }

    #[tactic(auto, unfolding(crate::specs::Parts::ballot_at))]
    pub(crate) fn ballot(&mut self) -> Result<Ballot, FieldFault>
        ensures { ReadsAs result self.new (ballot_at self.old) }
    {
        let left = self.left();
        match self.number_1()? {
            0 => Ok(Ballot::Yes),
            1 => Ok(Ballot::No(self.denial()?)),
            _ => Err(FieldFault::Refused { left }),
        }
    }

    #[tactic(auto, unfolding(crate::specs::Parts::wanted_at))]
    pub(crate) fn wanted(&mut self) -> Result<Wanted, FieldFault>
        ensures { ReadsAs result self.new (wanted_at self.old) }
    {
        let left = self.left();
        match self.number_1()? {
            0 => Ok(Wanted::Name(self.name()?)),
            1 => Ok(Wanted::Leaf(self.leaf()?)),
            _ => Err(FieldFault::Refused { left }),
        }
    }
}
