//! Writing leaves, what bricks answer by them, and the pairs of a copy.

ghost use Rattle.std.specs.Prelude.{◌≡◌, ◌≤◌, ◌<◌, ◌^◌, ◌++◌, length, IsTrue, None, OnOk};
ghost use Rattle.std.specs.List.{flat_map};
ghost use Rattle.dds_base.specs.Place.{rise_after};
ghost use Rattle.dds_frames.specs.Ranges.{IsGroup, IsLeaf, IfThere, IsRefusal, IsDenial, IsAnswer, IsBallot, IsWanted, IsPair, ArePairs, AreCopied};
ghost use Rattle.dds_frames.specs.Spelling.{number_bytes, group_bytes, leaf_bytes, maybe_leaf_bytes, refusal_bytes, denial_bytes};
ghost use Rattle.dds_frames.specs.Spelling.{answer_bytes, ballot_bytes, wanted_bytes, pair_bytes, pairs_bytes};

use crate::writer::FrameWriter;
use dds_base::brick_list::BrickList;
use dds_base::leaf::Leaf;
use dds_base::memory::Memory;
use dds_base::pair::Pair;
use dds_letters::copied_pairs::CopiedPairs;
use dds_letters::refusal::{Answer, Ballot, Denial, Refusal, Wanted};

impl FrameWriter {
    fn bricks(&mut self, list: &BrickList) -> Result<(), Memory>
        ensures { OnOk result (self.new ≡ self.old ++ flat_map (number_bytes 1) list.now) }
    {
        for place in 0..list.len() {
            self.number_1(list.at(place).number())?;
        }
        Ok(())
    }

    #[tactic(auto, unfolding(crate::specs::Spelling::group_bytes))]
    pub(crate) fn group(&mut self, list: &BrickList) -> Result<(), Memory>
        ensures written { OnOk result (self.new ≡ self.old ++ group_bytes list.now) }
        ensures range { OnOk result (IsGroup list.now) }
    {
        self.number_1(list.len() as u8)?;
        self.bricks(list)
    }

    #[tactic(auto, unfolding(crate::specs::Spelling::leaf_bytes))]
    pub(crate) fn leaf(&mut self, leaf: &Leaf) -> Result<(), Memory>
        ensures written { OnOk result (self.new ≡ self.old ++ leaf_bytes leaf.now) }
        ensures range { OnOk result (IsLeaf leaf.now) }
    {
        self.name(leaf.name)?;
        self.number_8(leaf.epoch)?;
        self.stamp(leaf.stamp)?;
        self.stamp(leaf.prev)?;
        self.group(&leaf.list)
    }

    #[tactic(auto, unfolding(crate::specs::Spelling::maybe_leaf_bytes))]
    pub(crate) fn maybe_leaf(&mut self, leaf: &Option<Leaf>) -> Result<(), Memory>
        ensures written { OnOk result (self.new ≡ self.old ++ maybe_leaf_bytes leaf.now) }
        ensures range { OnOk result (IfThere IsLeaf leaf.now) }
    {
        match leaf {
            None => self.number_1(0),
            Some(leaf) => {
                self.number_1(1)?;
                self.leaf(leaf)
            }
        }
    }

    #[tactic(auto, unfolding(crate::specs::Spelling::refusal_bytes))]
    pub(crate) fn refusal(&mut self, refusal: &Refusal) -> Result<(), Memory>
        ensures written { OnOk result (self.new ≡ self.old ++ refusal_bytes refusal.now) }
        ensures range { OnOk result (IsRefusal refusal.now) }
    {
        match refusal {
            Refusal::Lease => self.number_1(1),
            Refusal::Lock => self.number_1(2),
            Refusal::Stale { leaf } => {
                self.number_1(3)?;
                self.maybe_leaf(leaf)
            }
        }
    }

    #[tactic(auto, unfolding(crate::specs::Spelling::denial_bytes))]
    fn denial(&mut self, denial: &Denial) -> Result<(), Memory>
        ensures written { OnOk result (self.new ≡ self.old ++ denial_bytes denial.now) }
        ensures range { OnOk result (IsDenial denial.now) }
    {
        match denial {
            Denial::Refused(refusal) => self.refusal(refusal),
            Denial::Full => self.number_1(4),
        }
    }

    #[tactic(auto, unfolding(crate::specs::Spelling::answer_bytes))]
    pub(crate) fn answer(&mut self, answer: &Answer) -> Result<(), Memory>
        ensures written { OnOk result (self.new ≡ self.old ++ answer_bytes answer.now) }
        ensures range { OnOk result (IsAnswer answer.now) }
    {
        match answer {
            Answer::Absent => self.number_1(0),
            Answer::Value(value) => {
                self.number_1(1)?;
                self.value(value)
            }
            Answer::Refused(refusal) => {
                self.number_1(2)?;
                self.refusal(refusal)
            }
        }
    }

    #[tactic(auto, unfolding(crate::specs::Spelling::ballot_bytes))]
    pub(crate) fn ballot(&mut self, ballot: &Ballot) -> Result<(), Memory>
        ensures written { OnOk result (self.new ≡ self.old ++ ballot_bytes ballot.now) }
        ensures range { OnOk result (IsBallot ballot.now) }
    {
        match ballot {
            Ballot::Yes => self.number_1(0),
            Ballot::No(denial) => {
                self.number_1(1)?;
                self.denial(denial)
            }
        }
    }

    #[tactic(auto, unfolding(crate::specs::Spelling::wanted_bytes))]
    pub(crate) fn wanted(&mut self, wanted: &Wanted) -> Result<(), Memory>
        ensures written { OnOk result (self.new ≡ self.old ++ wanted_bytes wanted.now) }
        ensures range { OnOk result (IsWanted wanted.now) }
    {
        match wanted {
            Wanted::Name(name) => {
                self.number_1(0)?;
                self.name(*name)
            }
            Wanted::Leaf(leaf) => {
                self.number_1(1)?;
                self.leaf(leaf)
            }
        }
    }

    #[tactic(auto, unfolding(crate::specs::Spelling::pair_bytes))]
    fn pair(&mut self, pair: &Pair) -> Result<(), Memory>
        ensures written { OnOk result (self.new ≡ self.old ++ pair_bytes pair.now) }
        ensures range { OnOk result (IsPair pair.now) }
    {
        self.number_8(pair.key)?;
        self.value(&pair.value)
    }

    fn each_pair(&mut self, pairs: &[Pair]) -> Result<(), Memory>
        ensures written { OnOk result (self.new ≡ self.old ++ flat_map pair_bytes pairs.now) }
        ensures range { OnOk result (ArePairs pairs.now) }
    {
        for pair in pairs {
            self.pair(pair)?;
        }
        Ok(())
    }

    #[tactic(auto, unfolding(crate::specs::Spelling::pairs_bytes))]
    pub(crate) fn pairs(&mut self, pairs: &CopiedPairs) -> Result<(), Memory>
        ensures written { OnOk result (self.new ≡ self.old ++ pairs_bytes pairs.now) }
        ensures range { OnOk result (AreCopied pairs.now) }
    {
        let pairs = pairs.as_slice();
        self.number_2(pairs.len() as u16)?;
        self.each_pair(pairs)
    }
}
