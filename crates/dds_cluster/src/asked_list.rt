//! The calls of a run.

ghost use Rattle.std.specs.Prelude.{◌≡◌, ◌++◌, [], ◌∷◌, OnOk, OnErr};
ghost use Rattle.dds_cluster.specs.Lists.{is_asked};

use crate::keyed::Keyed;
use crate::trace::Asked;
use dds_base::memory::Memory;
use dds_base::number::{CallNo, CallerNo};
use std::alloc::Global;
use std::marker::Model;

/// A call's caller and its number among the caller's.
#[derive(Clone, Copy, PartialEq, Eq, PartialOrd, Ord, Debug)]
pub struct CallName {
    pub caller: CallerNo,
    pub call: CallNo,
}

/// Calls in the order of their making, with the set of their names. Contracts see the list.
#[derive(Drop)]
pub struct AskedList {
    calls: Keyed<Asked, CallName>,
}

impl Model for AskedList {
    ghost use Rattle.std.specs.Prelude.{List};
    ghost use Rattle.dds_cluster.specs.Keyed.{AreKeys};
    ghost use Rattle.dds_cluster.specs.Lists.{is_call_of, call_cmp};
    ghost use Rattle.dds_cluster.specs.declared.trace.Asked.{Asked};

    ghost Value = { List Asked };

    ghost view = { λ a. a.calls.items };

    ghost invariant = { λ a. AreKeys call_cmp (λ name x. is_call_of name.caller name.call x) a.calls.items a.calls.rising.items a.calls.others };
}

impl AskedList {
    /// Takes no memory.
    pub fn new(alloc: Global) -> AskedList
        ensures { result ≡ [] }
    {
        AskedList {
            calls: Keyed::new(alloc),
        }
    }

    pub fn push(&mut self, asked: Asked) -> Result<(), Memory>
        ensures ok { OnOk result (self.new ≡ self.old ++ asked ∷ []) }
        ensures err { OnErr result (self.new ≡ self.old) }
    {
        let name = CallName {
            caller: asked.caller,
            call: asked.call,
        };
        self.calls.push(asked, Some(name))
    }

    /// Whether a call was made.
    pub fn is_asked(&self, caller: CallerNo, call: CallNo) -> bool
        ensures { result ≡ is_asked self.now caller call }
    {
        self.calls.has(&CallName { caller, call })
    }

    pub fn as_slice(&self) -> &[Asked]
        ensures { result.now ≡ self.now }
    {
        self.calls.items.as_slice()
    }
}
