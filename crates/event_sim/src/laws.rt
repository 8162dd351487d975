//! Laws of chosen events.
ghost use Rattle.event_sim.specs.Laws.{
  ChainIsOne,
  EventsCount,
  FollowingIsBy,
  OrdersAreBelow,
  PendingIsOne,
  SettlingIsOne,
  SettlingIsThere,
};

use crate::Chooser;

/// There is one list of the pending nets by rising number.
pub fn pending_is_one()
    ensures { PendingIsOne }
{}

/// Two chains of as many events from one state, chosen by one order that is a function, are the same.
pub fn chain_is_one()
    ensures { ChainIsOne }
{}

/// From one state an order that is a function has at most one settling, with one answer.
pub fn settling_is_one()
    ensures { SettlingIsOne }
{}

/// From each list of values a function that answers below the count has a settling.
pub fn settling_is_there()
    ensures { SettlingIsThere }
{}

/// Where all answers of a chooser are those of a function, the chains and the settlings that it
/// chooses are those of the function.
pub fn following_is_by<F: Fn(u64, u64) -> u64>(chooser: &Chooser<F>)
    ensures { FollowingIsBy (F.post chooser.now.pick) }
{}

/// Each of the orders `first`, `last` and `seeded` answers below each count of at least 1.
pub fn orders_are_below()
    ensures { OrdersAreBelow }
{}

/// Events leave one value per net, and the step counts them modulo 2^64.
pub fn events_count()
    ensures { EventsCount }
{}
