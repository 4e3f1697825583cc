//! Reading the kinds of fields.

ghost use Rattle.std.specs.Prelude.{◌≡◌, ◌≤◌, ◌^◌, ◌&&◌, nat_le, nat_lt, if◌then◌else◌, IfOk};
ghost use Rattle.dds_base.specs.Number.{is_maker};
ghost use Rattle.dds_base.specs.Op.{is_get};
ghost use Rattle.dds_frames.specs.declared.fault.FieldFault.TheVariants.{Refused};
ghost use Rattle.dds_frames.specs.Reading.{ReadsAs, tested_at};
ghost use Rattle.dds_frames.specs.Parts.{flag_at, txn_at, caller_at, call_at, name_at, stamp_at, leaf_at, maybe_leaf_at, after_at, update_at, status_at};

use crate::fault::FieldFault;
use crate::fields::Fields;
use dds_base::leaf::Leaf;
use dds_base::name::{DEPTH, LeafName};
use dds_base::number::{BRICKS, CallNo, CallerNo, LIBRARIES, NO_MAKER, NodeNo, Stamp, TxnNo};
use dds_base::op::Op;
use dds_base::pending::TxnStatus;
use dds_base::update::Update;
use std::alloc::Global;

impl<'a> Fields<'a> {
    #[tactic(auto, unfolding(crate::specs::Parts::flag_at))]
    pub(crate) fn flag(&mut self) -> Result<bool, FieldFault>
        ensures { ReadsAs result self.new (flag_at self.old) }
    {
        let left = self.left();
        match self.number_1()? {
            0 => Ok(false),
            1 => Ok(true),
            _ => Err(FieldFault::Refused { left }),
        }
    }

    #[tactic(auto, unfolding(crate::specs::Reading::tested_at))]
    fn library(&mut self) -> Result<NodeNo, FieldFault>
        ensures value { ReadsAs result self.new (tested_at 1 (λ n. nat_le 64 n && nat_lt n 80) self.old) }
        ensures range { IfOk result (λ library. 64 ≤ library) }
    {
        let left = self.left();
        let number = self.number_1()?;
        if number < BRICKS {
            return Err(FieldFault::Refused { left });
        }
        NodeNo::of(number).ok_or(FieldFault::Refused { left })
    }

    #[tactic(auto, unfolding(crate::specs::Parts::txn_at))]
    pub(crate) fn txn(&mut self) -> Result<TxnNo, FieldFault>
        ensures { ReadsAs result self.new (txn_at self.old) }
    {
        let library = self.library()?;
        let number = self.number_8()?;
        Ok(TxnNo::new(library, number))
    }

    #[tactic(auto, unfolding(crate::specs::Reading::tested_at, crate::specs::Parts::caller_at))]
    pub(crate) fn caller(&mut self) -> Result<CallerNo, FieldFault>
        ensures { ReadsAs result self.new (caller_at self.old) }
    {
        let left = self.left();
        CallerNo::of(self.number_1()?).ok_or(FieldFault::Refused { left })
    }

    #[tactic(auto, unfolding(crate::specs::Parts::call_at))]
    pub(crate) fn call(&mut self) -> Result<CallNo, FieldFault>
        ensures { ReadsAs result self.new (call_at self.old) }
    {
        Ok(CallNo(self.number_4()?))
    }

    #[tactic(auto, unfolding(crate::specs::Reading::tested_at))]
    fn depth(&mut self) -> Result<u8, FieldFault>
        ensures { ReadsAs result self.new (tested_at 1 (λ d. nat_le d 16) self.old) }
    {
        let left = self.left();
        let depth = self.number_1()?;
        if depth > DEPTH {
            return Err(FieldFault::Refused { left });
        }
        Ok(depth)
    }

    #[tactic(auto, unfolding(crate::specs::Parts::name_at, crate::specs::Reading::tested_at))]
    pub(crate) fn name(&mut self) -> Result<LeafName, FieldFault>
        ensures { ReadsAs result self.new (name_at self.old) }
    {
        let depth = self.depth()?;
        let left = self.left();
        let bits = self.number_2()?;
        LeafName::of(bits, depth).ok_or(FieldFault::Refused { left })
    }

    #[tactic(auto, unfolding(crate::specs::Parts::stamp_at, crate::specs::Reading::tested_at))]
    pub(crate) fn stamp(&mut self) -> Result<Stamp, FieldFault>
        ensures { ReadsAs result self.new (stamp_at self.old) }
    {
        let left = self.left();
        let maker = self.number_1()?;
        if !is_maker(maker) {
            return Err(FieldFault::Refused { left });
        }
        let count = self.number_8()?;
        Stamp::of(maker, count).ok_or(FieldFault::Refused { left })
    }

    #[tactic(auto, unfolding(crate::specs::Parts::after_at))]
    pub(crate) fn after(&mut self) -> Result<Option<u64>, FieldFault>
        ensures { ReadsAs result self.new (after_at self.old) }
    {
        let left = self.left();
        match self.number_1()? {
            0 => Ok(None),
            1 => Ok(Some(self.number_8()?)),
            _ => Err(FieldFault::Refused { left }),
        }
    }

    #[tactic(auto, unfolding(crate::specs::Parts::status_at))]
    pub(crate) fn status(&mut self) -> Result<TxnStatus, FieldFault>
        ensures { ReadsAs result self.new (status_at self.old) }
    {
        let left = self.left();
        match self.number_1()? {
            0 => Ok(TxnStatus::NotPrepared),
            1 => Ok(TxnStatus::Prepared),
            2 => Ok(TxnStatus::Committed),
            3 => Ok(TxnStatus::Aborted),
            _ => Err(FieldFault::Refused { left }),
        }
    }

    #[tactic(auto, unfolding(crate::specs::Parts::update_at))]
    pub(crate) fn update(&mut self, alloc: Global) -> Result<Update, FieldFault>
        ensures { ReadsAs result self.new (update_at self.old) }
    {
        let left = self.left();
        match self.number_1()? {
            1 => {
                let key = self.number_8()?;
                let value = self.value(alloc)?;
                update_of(Op::Put { key, value }, left)
            }
            2 => update_of(
                Op::Remove {
                    key: self.number_8()?,
                },
                left,
            ),
            3 => {
                let key = self.number_8()?;
                let expected = self.value(alloc)?;
                let value = self.value(alloc)?;
                update_of(
                    Op::Swap {
                        key,
                        expected,
                        value,
                    },
                    left,
                )
            }
            _ => Err(FieldFault::Refused { left }),
        }
    }
}

/// An operation that is no get.
fn update_of(op: Op, left: usize) -> Result<Update, FieldFault>
    ensures { result ≡ (if is_get op then Err (Refused left) else Ok op) }
{
    Update::of(op).ok_or(FieldFault::Refused { left })
}

/// Whether a stamp may have this maker.
fn is_maker(maker: u8) -> bool
    ensures { result ≡ is_maker maker }
{
    maker < BRICKS + LIBRARIES || maker == NO_MAKER
}
