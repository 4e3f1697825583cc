//! Reading a replica group.

ghost use Rattle.std.specs.Prelude.{◌≡◌, ◌<◌, ◌≤◌, ◌&&◌, [], false, length, not, nat_lt, IfOk};
ghost use Rattle.dds_base.specs.BrickList.{has};
ghost use Rattle.dds_frames.specs.Reading.{ReadsAs, tested_at};
ghost use Rattle.dds_frames.specs.Parts.{bricks_at, group_at};

use crate::fault::FieldFault;
use crate::fields::Fields;
use dds_base::brick_list::{BrickList, LiveList, MEMBERS};
use dds_base::number::NodeNo;

impl<'a> Fields<'a> {
    /// A brick that is none of these.
    #[tactic(auto, unfolding(crate::specs::Reading::tested_at))]
    fn other_brick(&mut self, bricks: &LiveList) -> Result<NodeNo, FieldFault>
        ensures value { ReadsAs result self.new (tested_at 1 (λ b. nat_lt b 64 && not (has bricks.now b)) self.old) }
        ensures brick { IfOk result (λ brick. brick < 64) }
        ensures other { IfOk result (λ brick. has bricks.now brick ≡ false) }
    {
        let left = self.left();
        let number = self.number_1()?;
        if has(bricks, number) {
            return Err(FieldFault::Refused { left });
        }
        NodeNo::brick(number).ok_or(FieldFault::Refused { left })
    }

    /// So many bricks, none of which stands twice.
    fn bricks(&mut self, n: usize) -> Result<LiveList, FieldFault>
        requires { n ≤ 8 }
        ensures value { ReadsAs result self.new (bricks_at n [] self.old) }
        ensures len { IfOk result (λ bricks. length bricks ≡ n) }
    {
        let mut bricks = LiveList::new();
        for _brick in 0..n {
            let brick = self.other_brick(&bricks)?;
            bricks.push(brick);
        }
        Ok(bricks)
    }

    #[tactic(auto, unfolding(crate::specs::Reading::tested_at, crate::specs::Parts::group_at))]
    pub(crate) fn group(&mut self) -> Result<BrickList, FieldFault>
        ensures { ReadsAs result self.new (group_at self.old) }
    {
        let left = self.left();
        let n = usize::from(self.number_1()?);
        if n == 0 || n > MEMBERS {
            return Err(FieldFault::Refused { left });
        }
        let bricks = self.bricks(n)?;
        bricks.group().ok_or(FieldFault::Refused { left })
    }
}

/// Whether a brick of this number is among these.
fn has(bricks: &LiveList, number: u8) -> bool
    ensures { result ≡ has bricks.now number }
{
    for place in 0..bricks.len() {
        if bricks.at(place).number() == number {
            return true;
        }
    }
    false
}
