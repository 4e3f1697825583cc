//! An operation that changes the map.

ghost use Rattle.std.specs.Prelude.{◌≡◌, false, Some, None, IfOk, if◌then◌else◌};
ghost use Rattle.dds_base.specs.Op.{is_get, the_key};

use crate::memory::Memory;
use crate::op::Op;
use std::marker::Model;

/// An operation that is no get. Contracts see the operation.
#[derive(Debug, Drop)]
pub struct Update {
    op: Op,
}

impl Model for Update {
    ghost use Rattle.std.specs.Prelude.{◌≡◌, false};
    ghost use Rattle.dds_base.specs.declared.op.Op.{Op};
    ghost use Rattle.dds_base.specs.Op.{is_get};

    ghost Value = { Op };

    ghost view = { λ a. a.op };

    ghost invariant = { λ a. is_get a.op ≡ false };
}

impl Update {
    /// `None` where the operation is a get.
    pub fn of(op: Op) -> Option<Update>
        ensures { result ≡ (if is_get op then None else Some op) }
    {
        if op.is_get() {
            None
        } else {
            Some(Update { op })
        }
    }

    pub fn op(&self) -> &Op
        ensures value { result.now ≡ self.now }
        ensures update { is_get result.now ≡ false }
    {
        &self.op
    }

    pub fn into_op(self) -> Op
        ensures value { result ≡ self }
        ensures update { is_get result ≡ false }
    {
        self.op
    }

    pub fn key(&self) -> u64
        ensures { result ≡ the_key self.now }
    {
        self.op.key()
    }

    pub fn copy(&self) -> Result<Update, Memory>
        ensures { IfOk result (λ update. update ≡ self.now) }
    {
        Ok(Update {
            op: self.op.copy()?,
        })
    }
}
