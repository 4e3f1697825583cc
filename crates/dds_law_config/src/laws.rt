//! The laws, as contracts of functions that do nothing.

ghost use Rattle.dds_law_config.specs.Law.{AllRunsStand, FixedRunsStand, KeptMembersLoseNothing};
ghost use Rattle.dds_law_config.specs.Values.{BoundJoinsStayFrozen, JoinsAlwaysCopy, ValuesAreKept};
ghost use Rattle.dds_world.specs.Quiet.{QuietAnswers};

/// Of every run of every opening, whatever its interleaving of calls, stops, splits and joins: its calls stand in one legal history of one map;
/// each answer other than a result has its cause; and the nine facts of reached worlds hold after each beginning of it.
pub fn run_stands()
    ensures { AllRunsStand }
{}

/// In each run of each opening, with stops, splits and joins, that has come to a world in which nothing is on its way: each call whose library
/// lives was answered, live libraries have no open call, and live bricks have nothing pending, no lease, no open order, nothing that they resolve
/// and no question that they put off.
pub fn quiet_answers()
    ensures { QuietAnswers }
{}

/// No call is answered Lost where of each committing update's list a member lives, as long as the update is open.
pub fn kept_members_lose_nothing()
    ensures { KeptMembersLoseNothing }
{}

/// Where nothing stops, no call is answered Lost, or Again since a brick stopped, whatever orders there are.
pub fn fixed_stands()
    ensures { FixedRunsStand }
{}

/// In each run of each opening, with stops, splits and joins: the points, reads that no answer used among them, are a legal history of one
/// map, and so is the history; and each live brick has for each key of its leaves what the points left, or, where a transaction is pending
/// on it, what they left before that one's point.
pub fn values_are_kept()
    ensures { ValuesAreKept }
{}

/// In each world of each run: what each live brick's open join has copied is a beginning of what the points left under its name, and all of
/// it while the join installs; a part on its way to it is the next one, and what it asks of a live source is what follows. At each step a
/// brick that serves the leaf that its own join made has what the points left of each key that it comes to cover.
pub fn joins_always_copy()
    ensures { JoinsAlwaysCopy }
{}

/// In each run: each live brick that serves a key under the name of a join that installs, or copies from a brick that lives or from which it
/// has pairs or a part on its way, has given the join its lease, and has no key there pending; and no step behind which a join is so changes
/// what the points left under its name.
pub fn bound_joins_stay_frozen()
    ensures { BoundJoinsStayFrozen }
{}
