//! The laws, as contracts of functions that do nothing.

ghost use Rattle.dds_copies.specs.Ends.{JoinsEndWithTheTable};
ghost use Rattle.dds_copies.specs.Frozen.{BoundJoinsAreFrozen, JoinsCopyFrozen};
ghost use Rattle.dds_copies.specs.Law.{CopyingKeepsTheTable};
ghost use Rattle.dds_copies.specs.Outside.{JoinsCopyOn};
ghost use Rattle.dds_copies.specs.Runs.{JoinsCopyTheTable, ServersHold, ValuesAreHeld};
ghost use Rattle.dds_copies.specs.Sources.{SourcesSendTheTable};
ghost use Rattle.dds_copies.specs.Turns.{TurnsKeepCopies, TurnsTellNext};

/// Of each table, each state of a brick and each order: where a source holds the table under a join's name, it answers with the next part of
/// the table's pairs; a part that comes keeps what was copied a beginning of them, and all of them behind the last one, and so does an
/// operation on another key; and at its end the join's brick holds the table there.
pub fn copying_keeps_the_table()
    ensures { CopyingKeepsTheTable }
{}

/// In each world of each run, with stops, splits and joins, of each brick: where its open join has copied a table's pairs under the join's
/// name, the brick holds the table there when it serves the leaf that the join made.
pub fn joins_end_with_the_table()
    ensures { JoinsEndWithTheTable }
{}

/// In each world of each run, with stops, splits and joins, of each brick that holds the table but for what is pending: at a CopyAsk for the
/// pairs behind the last one that a join has copied it sends the next part of the table's pairs under the join's name, or nothing.
pub fn sources_send_the_table()
    ensures { SourcesSendTheTable }
{}

/// Of each table, each state of a brick, each letter and each order that comes: where what its open join has copied is the table's, and what
/// it hears of its source is the next part, what its open join has copied is the table's behind its turn, and what it asks for is what follows.
pub fn turns_keep_what_is_copied()
    ensures { TurnsKeepCopies }
{}

/// Of each table, each state of a brick, each letter and each order that comes, and each join of another brick: where a letter of that join
/// asks for the next part, and the brick holds the table under the join's name if it answers, it tells that join the next part, or nothing.
pub fn turns_tell_what_is_next()
    ensures { TurnsTellNext }
{}

/// Of each cluster's nodes and what is on its way between them: points that are reads, or of keys outside the name of each bound join, keep what
/// open joins have copied, and so does a node that stops.
pub fn joins_copy_on()
    ensures { JoinsCopyOn }
{}

/// In each world of each run, with stops, splits and joins, at whose places orders and their members talk as the table of conversations says: what
/// each live brick's open join has copied is a beginning of what the points left under its name, and all of it while the join installs; a part on
/// its way to it is the next one, and what it asks of a live source is what follows. At each step of such a run a brick that serves the leaf that
/// its own join made has what the points left of each key that it comes to cover.
pub fn joins_copy_the_table()
    ensures { JoinsCopyTheTable }
{}

/// Of each such run: the points, reads that no answer used among them, are legal, and so is the history; and each live brick has for each key of its
/// leaves what the points left, or, where a transaction is pending on it, what they left before that one's point.
pub fn values_are_held()
    ensures { ValuesAreHeld }
{}

/// Of each such run: who serves a key has for it what the history left, or what its points left before that of the transaction pending on it.
pub fn servers_hold_the_history()
    ensures { ServersHold }
{}

/// Of each such run: each live brick that serves a key under the name of a join that installs, or copies from a brick that lives or from which it has
/// pairs or a part on its way, has given the join its lease, and has no key there pending; and no step behind which a join is so changes what the
/// points left under its name.
pub fn bound_joins_are_frozen()
    ensures { BoundJoinsAreFrozen }
{}

/// Of each such run: while a join installs, or copies from a brick that lives or from which a part of what it copies was ever on its way, each
/// brick that serves a key under its name has given it the lease, and has no key there pending; what it copied is the history's; and no step
/// changes the history's pairs there.
pub fn joins_copy_frozen()
    ensures { JoinsCopyFrozen }
{}
