// Laws, each proved as a clause of a function that does nothing.
ghost use Rattle.action_graph.specs.Fitness.{PlansAreFit};
ghost use Rattle.action_graph.specs.GraphLaws.{OneOrder, OrdersKeepNeeds, ReachedIsLeast};
ghost use Rattle.action_graph.specs.PlanLaws.{OnePlan, PlansKeepOrder, SameIsDone};

/// There is one order of the same members at most, and none where the order stops.
pub fn order_is_one()
    ensures { OneOrder }
{}

/// In an order each member stands once, and what it needs stands before it.
pub fn needs_come_first()
    ensures { OrdersKeepNeeds }
{}

/// A view is the least set that is closed as it is.
pub fn reached_is_least()
    ensures { ReachedIsLeast }
{}

/// In a plan the last installed entry leaves first; each install stands once, and behind its needs among the installs.
pub fn plans_keep_order()
    ensures { PlansKeepOrder }
{}

/// There is one plan of a change at most, and none where its order stops.
pub fn plan_is_one()
    ensures { OnePlan }
{}

/// Where each name has the same version in the switch and in the target, and nothing is built once more, nothing is done.
pub fn same_is_done()
    ensures { SameIsDone }
{}

/// The plan of a change is fit where an entry and a member of one name and version are the same: what stays is in the target and has
/// no edge to what leaves or comes, and each need of an install stays or stands before it.
pub fn plans_are_fit()
    ensures { PlansAreFit }
{}
