//! Laws of orders.
ghost use Rattle.plan_rules.specs.Laws.{AllLookedAtIsHeld, OrdersGoOn};
ghost use Rattle.plan_rules.specs.Examples.{ExamplesHold};
ghost use Rattle.plan_rules.specs.Matched.{MatchedLooksAreOwn};

/// Behind steps that are passed an order is what follows; a part that they want is wanted, and a check of them that
/// fails ends it.
pub fn orders_go_on()
    ensures { OrdersGoOn }
{}

/// What was looked at where no part is wanted is held.
pub fn all_looked_at_is_held()
    ensures { AllLookedAtIsHeld }
{}

/// Where all entries that are held are true of a flat memory, and a final matches it, all that the final looked at is
/// the flat memory's own.
pub fn matched_looks_are_own()
    ensures { MatchedLooksAreOwn }
{}

/// One example of each procedure: what is held, and what is wanted next.
pub fn examples_hold()
    ensures { ExamplesHold }
{}
