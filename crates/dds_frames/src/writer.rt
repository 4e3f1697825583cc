//! Writing the fields of a frame, one behind another.

ghost use Rattle.std.specs.Prelude.{◌≡◌, ◌≤◌, ◌<◌, ◌^◌, ◌++◌, ◌-◌, [], length, drop, OnOk, IfOk};
ghost use Rattle.dds_frames.specs.Ranges.{IsTxn, IsCaller, IsCall, IsName, IsStamp, IsValue, IfThere, IsWord, IsUpdate};
ghost use Rattle.dds_frames.specs.Spelling.{number_bytes, flag_bytes, txn_bytes, name_bytes, stamp_bytes, value_bytes, after_bytes, update_bytes, status_bytes};

use crate::frame::Frame;
use byteorder::{BigEndian, ByteOrder};
use bytes::{BufMut, BytesMut};
use dds_base::memory::Memory;
use dds_base::name::LeafName;
use dds_base::number::{CallNo, CallerNo, Stamp, TxnNo};
use dds_base::op::Op;
use dds_base::pending::TxnStatus;
use dds_base::update::Update;
use dds_base::value::Value;
use std::alloc::Global;
use std::marker::Model;

/// The bytes for which a writer has room at first: those of most letters without a value.
const ROOM: usize = 64;

/// Bytes that are written at their end.
#[derive(Drop)]
pub(crate) struct FrameWriter {
    bytes: BytesMut,
}

impl Model for FrameWriter {
    ghost use Rattle.std.specs.Prelude.{ℕ, List};

    ghost Value = { List ℕ };

    ghost view = { λ a. a.bytes.items };
}

impl FrameWriter {
    pub(crate) fn new(alloc: Global) -> Result<FrameWriter, Memory>
        ensures { IfOk result (λ writer. writer ≡ []) }
    {
        Ok(FrameWriter {
            bytes: BytesMut::with_capacity(alloc, ROOM)?,
        })
    }

    /// Writes over the first 4 bytes how many bytes follow them.
    #[tactic(auto, unfolding(crate::specs::Spelling::number_bytes))]
    pub(crate) fn set_length(&mut self)
        requires long { 4 ≤ length self.old }
        requires few { length self.old < 2 ^ 32 }
        ensures { self.new ≡ number_bytes 4 (length self.old - 4) ++ drop 4 self.old }
    {
        let len = self.bytes.len() - 4;
        BigEndian::write_u32(self.bytes.as_mut_slice(), len as u32);
    }

    pub(crate) fn finish(self) -> Frame
        ensures { result ≡ self }
    {
        Frame::of(self.bytes)
    }

    #[tactic(auto, unfolding(crate::specs::Spelling::number_bytes))]
    pub(crate) fn number_1(&mut self, number: u8) -> Result<(), Memory>
        ensures { OnOk result (self.new ≡ self.old ++ number_bytes 1 number) }
    {
        self.bytes.put_u8(number)?;
        Ok(())
    }

    #[tactic(auto, unfolding(crate::specs::Spelling::number_bytes))]
    pub(crate) fn number_2(&mut self, number: u16) -> Result<(), Memory>
        ensures { OnOk result (self.new ≡ self.old ++ number_bytes 2 number) }
    {
        self.bytes.put_u16(number)?;
        Ok(())
    }

    #[tactic(auto, unfolding(crate::specs::Spelling::number_bytes))]
    pub(crate) fn number_4(&mut self, number: u32) -> Result<(), Memory>
        ensures { OnOk result (self.new ≡ self.old ++ number_bytes 4 number) }
    {
        self.bytes.put_u32(number)?;
        Ok(())
    }

    #[tactic(auto, unfolding(crate::specs::Spelling::number_bytes))]
    pub(crate) fn number_8(&mut self, number: u64) -> Result<(), Memory>
        ensures { OnOk result (self.new ≡ self.old ++ number_bytes 8 number) }
    {
        self.bytes.put_u64(number)?;
        Ok(())
    }

    #[tactic(auto, unfolding(crate::specs::Spelling::flag_bytes))]
    pub(crate) fn flag(&mut self, flag: bool) -> Result<(), Memory>
        ensures { OnOk result (self.new ≡ self.old ++ flag_bytes flag) }
    {
        if flag {
            self.number_1(1)
        } else {
            self.number_1(0)
        }
    }

    #[tactic(auto, unfolding(crate::specs::Spelling::txn_bytes))]
    pub(crate) fn txn(&mut self, txn: TxnNo) -> Result<(), Memory>
        ensures written { OnOk result (self.new ≡ self.old ++ txn_bytes txn) }
        ensures range { OnOk result (IsTxn txn) }
    {
        self.number_1(txn.library().number())?;
        self.number_8(txn.number())
    }

    pub(crate) fn caller(&mut self, caller: CallerNo) -> Result<(), Memory>
        ensures written { OnOk result (self.new ≡ self.old ++ number_bytes 1 caller) }
        ensures range { OnOk result (IsCaller caller) }
    {
        self.number_1(caller.number())
    }

    pub(crate) fn call(&mut self, call: CallNo) -> Result<(), Memory>
        ensures written { OnOk result (self.new ≡ self.old ++ number_bytes 4 call.0) }
        ensures range { OnOk result (IsCall call) }
    {
        self.number_4(call.0)
    }

    #[tactic(auto, unfolding(crate::specs::Spelling::name_bytes))]
    pub(crate) fn name(&mut self, name: LeafName) -> Result<(), Memory>
        ensures written { OnOk result (self.new ≡ self.old ++ name_bytes name) }
        ensures range { OnOk result (IsName name) }
    {
        self.number_1(name.depth())?;
        self.number_2(name.bits())
    }

    #[tactic(auto, unfolding(crate::specs::Spelling::stamp_bytes))]
    pub(crate) fn stamp(&mut self, stamp: Stamp) -> Result<(), Memory>
        ensures written { OnOk result (self.new ≡ self.old ++ stamp_bytes stamp) }
        ensures range { OnOk result (IsStamp stamp) }
    {
        self.number_1(stamp.maker())?;
        self.number_8(stamp.count())
    }

    #[tactic(auto, unfolding(crate::specs::Spelling::value_bytes))]
    pub(crate) fn value(&mut self, value: &Value) -> Result<(), Memory>
        ensures written { OnOk result (self.new ≡ self.old ++ value_bytes value.now) }
        ensures range { OnOk result (IsValue value.now) }
    {
        let bytes = value.bytes();
        self.number_2(bytes.len() as u16)?;
        self.bytes.put_slice(bytes)?;
        Ok(())
    }

    #[tactic(auto, unfolding(crate::specs::Spelling::after_bytes))]
    pub(crate) fn after(&mut self, after: Option<u64>) -> Result<(), Memory>
        ensures written { OnOk result (self.new ≡ self.old ++ after_bytes after) }
        ensures range { OnOk result (IfThere IsWord after) }
    {
        match after {
            None => self.number_1(0),
            Some(key) => {
                self.number_1(1)?;
                self.number_8(key)
            }
        }
    }

    #[tactic(auto, unfolding(crate::specs::Spelling::status_bytes))]
    pub(crate) fn status(&mut self, status: TxnStatus) -> Result<(), Memory>
        ensures { OnOk result (self.new ≡ self.old ++ status_bytes status) }
    {
        match status {
            TxnStatus::NotPrepared => self.number_1(0),
            TxnStatus::Prepared => self.number_1(1),
            TxnStatus::Committed => self.number_1(2),
            TxnStatus::Aborted => self.number_1(3),
        }
    }

    #[tactic(auto, unfolding(crate::specs::Spelling::update_bytes))]
    pub(crate) fn update(&mut self, update: &Update) -> Result<(), Memory>
        ensures written { OnOk result (self.new ≡ self.old ++ update_bytes update.now) }
        ensures range { OnOk result (IsUpdate update.now) }
    {
        match update.op() {
            Op::Get { key: _ } => Ok(()),
            Op::Put { key, value } => {
                self.number_1(1)?;
                self.number_8(*key)?;
                self.value(value)
            }
            Op::Remove { key } => {
                self.number_1(2)?;
                self.number_8(*key)
            }
            Op::Swap {
                key,
                expected,
                value,
            } => {
                self.number_1(3)?;
                self.number_8(*key)?;
                self.value(expected)?;
                self.value(value)
            }
        }
    }
}
