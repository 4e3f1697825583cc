//! The laws, as the contracts of functions that do nothing.

ghost use Rattle.dds_books.specs.Calls.{CallsAreBooked};
ghost use Rattle.dds_books.specs.Law.{AttemptsAreListed, NodesArePlaced};

/// In each run the open calls of a library have different attempts and callers, and each prepare on its way says a bound
/// that is at most its own attempt's number and those of its library's open calls.
pub fn calls_are_booked()
    ensures { CallsAreBooked }
{}

/// In each run the numbers in states and letters are of nodes of the cluster, of the kind that the letter is for, so that a
/// letter comes to the node that it is for; attempts are of libraries that have made them; and who is waited for by an open
/// call is some of its members, at least one, none known as stopped.
pub fn nodes_are_placed()
    ensures { NodesArePlaced }
{}

/// In each run there is a book that has of each attempt of an open call, and of each Get and Prepare on its way, its call, its
/// operation and the list that it asked.
pub fn attempts_are_listed()
    ensures { AttemptsAreListed }
{}
