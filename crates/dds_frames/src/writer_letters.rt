//! Writing the fields of a letter.

ghost use Rattle.std.specs.Prelude.{◌≡◌, ◌++◌, ◌<◌, ◌^◌, OnOk};
ghost use Rattle.dds_frames.specs.Ranges.{IsTxn, IsCaller, IsCall, IsName, IsStamp};
ghost use Rattle.dds_frames.specs.Spelling.{◌⧺◌, number_bytes, txn_bytes, name_bytes, stamp_bytes};
ghost use Rattle.dds_frames.specs.Letters.{field_bytes, IsInRange};

use crate::writer::FrameWriter;
use dds_base::memory::Memory;
use dds_base::name::LeafName;
use dds_base::number::{CallNo, CallerNo, Stamp, TxnNo};
use dds_letters::letter::Letter;

impl FrameWriter {
    /// The fields that name a call's attempt.
    fn attempt(&mut self, txn: TxnNo, caller: CallerNo, call: CallNo) -> Result<(), Memory>
        ensures written { OnOk result (self.new ≡ self.old ++ (txn_bytes txn ⧺ number_bytes 1 caller ⧺ number_bytes 4 call.0)) }
        ensures range { OnOk result (IsTxn txn × (IsCaller caller × IsCall call)) }
    {
        self.txn(txn)?;
        self.caller(caller)?;
        self.call(call)
    }

    /// The fields that name the leaf that a library used.
    fn used(&mut self, name: LeafName, stamp: Stamp) -> Result<(), Memory>
        ensures written { OnOk result (self.new ≡ self.old ++ (name_bytes name ⧺ stamp_bytes stamp)) }
        ensures range { OnOk result (IsName name × IsStamp stamp) }
    {
        self.name(name)?;
        self.stamp(stamp)
    }

    pub(crate) fn fields(&mut self, letter: &Letter) -> Result<(), Memory>
        ensures written { OnOk result (self.new ≡ self.old ++ field_bytes letter.now) }
        ensures range { OnOk result (IsInRange letter.now) }
    {
        match letter {
            Letter::Get {
                txn,
                caller,
                call,
                key,
                name,
                stamp,
            } => {
                self.attempt(*txn, *caller, *call)?;
                self.number_8(*key)?;
                self.used(*name, *stamp)
            }
            Letter::Prepare {
                txn,
                caller,
                call,
                below,
                name,
                stamp,
                list,
                op,
            } => {
                self.attempt(*txn, *caller, *call)?;
                self.number_8(*below)?;
                self.used(*name, *stamp)?;
                self.group(list)?;
                self.update(op)
            }
            Letter::Commit { txn } => self.txn(*txn),
            Letter::Abort { txn } => self.txn(*txn),
            Letter::Push { leaf } => self.leaf(leaf),
            Letter::MapAsk {
                txn,
                caller,
                call,
                key,
            } => {
                self.attempt(*txn, *caller, *call)?;
                self.number_8(*key)
            }
            Letter::Got { txn, answer } => {
                self.txn(*txn)?;
                self.answer(answer)
            }
            Letter::Vote { txn, vote } => {
                self.txn(*txn)?;
                self.ballot(vote)
            }
            Letter::Applied { txn, was } => {
                self.txn(*txn)?;
                self.flag(*was)
            }
            Letter::Aborted { txn } => self.txn(*txn),
            Letter::MapTell { txn, leaf } => {
                self.txn(*txn)?;
                self.maybe_leaf(leaf)
            }
            Letter::Help { txn, list } => {
                self.txn(*txn)?;
                self.group(list)
            }
            Letter::Query { txn, list } => {
                self.txn(*txn)?;
                self.group(list)
            }
            Letter::Status { txn, status } => {
                self.txn(*txn)?;
                self.status(*status)
            }
            Letter::Outcome { txn, commit } => {
                self.txn(*txn)?;
                self.flag(*commit)
            }
            Letter::Lease { order, what } => {
                self.number_8(*order)?;
                self.wanted(what)
            }
            Letter::Granted { order, leaf } => {
                self.number_8(*order)?;
                self.leaf(leaf)
            }
            Letter::LeaseRefused { order, refusal } => {
                self.number_8(*order)?;
                self.refusal(refusal)
            }
            Letter::Release { order, name } => {
                self.number_8(*order)?;
                self.name(*name)
            }
            Letter::CopyAsk { order, name, after } => {
                self.number_8(*order)?;
                self.name(*name)?;
                self.after(*after)
            }
            Letter::CopyPart { order, last, pairs } => {
                self.number_8(*order)?;
                self.flag(*last)?;
                self.pairs(pairs)
            }
            Letter::Install { order, leaf } => {
                self.number_8(*order)?;
                self.leaf(leaf)
            }
            Letter::Installed { order, name } => {
                self.number_8(*order)?;
                self.name(*name)
            }
            Letter::Notice => Ok(()),
        }
    }
}
