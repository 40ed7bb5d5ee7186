//! Laws of work sets.
ghost use Rattle.plan_laws.specs.Kept.{EmptyIsInOrder, KeptIsInOrder};

/// The empty work set of a cluster is in order.
pub fn empty_is_in_order()
    ensures { EmptyIsInOrder }
{}

/// A work set in order is in order again once a part that it tells was read and is held.
pub fn kept_is_in_order()
    ensures { KeptIsInOrder }
{}
