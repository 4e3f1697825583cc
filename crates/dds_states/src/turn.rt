//! What a turn of a node gives besides its new state.

ghost use Rattle.std.specs.Prelude.{◌≡◌, [], ◌∷◌, IfOk};
ghost use Rattle.dds_states.specs.Turn.{no_out, letters_out, reply_out, both, read_of};

use dds_base::items::Items;
use dds_base::memory::Memory;
use dds_base::number::{CallNo, CallerNo, NodeNo, TxnNo};
use dds_base::op::{OrderReply, Reply};
use dds_base::pending::Pending;
use dds_base::value::Value;
use dds_letters::letter::Letter;
use dds_letters::outbox::Outbox;
use std::alloc::Global;

/// A moment that may become an entry of the history: a brick read a key for a get, or applied an update that was pending
/// there. `was` is the update's flag: of a swap, whether the key was bound to the expected bytes, and else whether it was
/// there.
#[derive(Debug, Drop)]
pub enum Point {
    Read { txn: TxnNo, value: Option<Value> },
    Applied { pending: Pending, was: bool },
}

/// An answer: of a call, or of an order. Where the answer is what a get read, `read` is the attempt that read it.
#[derive(Debug, Drop)]
pub enum Replied {
    Call {
        read: Option<TxnNo>,
        caller: CallerNo,
        call: CallNo,
        reply: Reply,
    },
    Order(OrderReply),
}

/// The attempt that read what a get is answered: none where the answer is no get's result.
pub fn read_of(txn: TxnNo, reply: &Reply) -> Option<TxnNo>
    ensures { result ≡ read_of txn reply.now }
{
    match reply {
        Reply::Value(_) | Reply::Absent => Some(txn),
        Reply::Done { was: _ } | Reply::Swapped { done: _ } => None,
        Reply::Again(_) | Reply::Full { brick: _ } | Reply::Lost { name: _ } => None,
    }
}

pub type PointList = Items<Point>;

pub type ReplyList = Items<Replied>;

/// The letters that a turn sends, its points in the order of noting, and its answers.
#[derive(Drop)]
pub struct CoreTurn {
    pub letters: Outbox,
    pub points: PointList,
    pub replies: ReplyList,
}

impl CoreTurn {
    /// A turn that gives nothing; takes no memory.
    pub fn new(alloc: Global) -> CoreTurn
        ensures { result ≡ no_out }
    {
        CoreTurn {
            letters: Outbox::new(alloc),
            points: Items::new(alloc),
            replies: Items::new(alloc),
        }
    }

    /// A turn that sends one letter.
    pub fn letter(alloc: Global, to: NodeNo, letter: Letter) -> Result<CoreTurn, Memory>
        ensures { IfOk result (λ turn. turn ≡ letters_out ((to, letter) ∷ [])) }
    {
        let mut letters = Outbox::new(alloc);
        letters.push(to, letter)?;
        Ok(CoreTurn::letters(alloc, letters))
    }

    /// A turn that sends letters; takes no memory.
    pub fn letters(alloc: Global, letters: Outbox) -> CoreTurn
        ensures { result ≡ letters_out letters }
    {
        CoreTurn {
            letters,
            points: Items::new(alloc),
            replies: Items::new(alloc),
        }
    }

    /// A turn that answers.
    pub fn reply(alloc: Global, reply: Replied) -> Result<CoreTurn, Memory>
        ensures { IfOk result (λ turn. turn ≡ reply_out reply) }
    {
        let mut replies = ReplyList::new(alloc);
        replies.push(reply)?;
        Ok(CoreTurn {
            letters: Outbox::new(alloc),
            points: Items::new(alloc),
            replies,
        })
    }

    /// What this turn gives, and then what the next one gives.
    pub fn with(self, next: CoreTurn) -> Result<CoreTurn, Memory>
        ensures { IfOk result (λ turn. turn ≡ both self next) }
    {
        let CoreTurn {
            mut letters,
            mut points,
            mut replies,
        } = self;
        letters.append(next.letters)?;
        points.append(next.points)?;
        replies.append(next.replies)?;
        Ok(CoreTurn {
            letters,
            points,
            replies,
        })
    }
}
