//! The laws, as contracts of functions that do nothing.

ghost use Rattle.dds_order_runs.specs.Group.{GroupsAreShared};
ghost use Rattle.dds_order_runs.specs.Law.{GrantedMembersHold, JoinersStayUnlisted, MembersAlwaysAnswer, OrdersAlwaysTalk};

/// In each world of each run, with stops, splits and joins: each two bricks talk about orders by the table of conversations.
pub fn orders_always_talk()
    ensures { OrdersAlwaysTalk }
{}

/// In each world of each run, of each live brick's open order that has its leaf, and each live member that granted it: the member has
/// given the lease of the order's name to the brick, and has the order's leaf under that name, or, where the order installs, that leaf or
/// what was made, and what was made where the order doesn't wait for it.
pub fn granted_members_hold()
    ensures { GrantedMembersHold }
{}

/// In each world of each run, with stops, splits and joins, wherever a leaf stands that isn't one of the opening's stale ones: each live brick
/// of its list has leaves of its own over all of its keys, or its open join made the leaf and has it installed.
pub fn members_answer()
    ensures { MembersAlwaysAnswer }
{}

/// In each world of each run, wherever such a leaf stands: where it has the name of a live brick's open join that has no leaf yet, it doesn't
/// list that brick.
pub fn joiners_stay_unlisted()
    ensures { JoinersStayUnlisted }
{}

/// In each world of each run, with stops, splits and joins: bricks that serve a key list each other; a leaf lists the live members of the
/// leaf that it came from; and what is pending at a live brick is of a key that the brick serves, and lists the live members of the leaf
/// over it.
pub fn groups_are_shared()
    ensures { GroupsAreShared }
{}
