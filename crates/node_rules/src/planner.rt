ghost use Rattle.std.specs.Prelude.{◌≡◌, ℕ, IfOk};
ghost use Rattle.nfs_proto.specs.declared.call.Call.{Call as Called};
ghost use Rattle.nfs_proto.specs.declared.stamp.Stamp.{Stamp as Moment};
ghost use Rattle.rpc_msg.specs.declared.cred.Cred.{Cred as Caller};
ghost use Rattle.node_cache.specs.declared.held.Held.{Held as WorkSet};
ghost use Rattle.plan_forms.specs.declared.plan.Plan.{Plan as Planned};
ghost use Rattle.plan_rules.specs.Orders.{wanted};
ghost use Rattle.plan_rules.specs.Works.{IsWorkSet};
ghost use Rattle.node_rules.specs.Plans.{IsServed, IsSound, IsWantTold, want_of};

use nfs_proto::{Call, Stamp};
use node_cache::{Held, NoMemory};
use plan_forms::Plan;
use rpc_msg::Cred;
use std::alloc::Global;

/// How calls are planned: a type without values that chooses the plan of every call.
pub trait Planner {
    /// What may be planned for a call of the arrival with this number at this moment, over what is held.
    ghost plans: { WorkSet → Called → Caller → Moment → ℕ → Planned → Type 0 };

    /// What is next for a call that needs the file system, over a work set in order: it needs the first part that it
    /// wants and that is not held, or else this is its final minitransaction, whose reads can be answered.
    fn plan(
        alloc: Global,
        call: &Call,
        cred: &Cred,
        now: Stamp,
        arrival: u32,
        held: &Held,
    ) -> Result<Plan, NoMemory>
        requires work { IsWorkSet held.now }
        requires served { IsServed held.now.geometry call.now }
        ensures wanted { IfOk result (λ p. want_of p ≡ wanted held.now arrival call.now cred.now) }
        ensures told { IfOk result (IsWantTold held.now) }
        ensures sound { IfOk result IsSound }
        ensures planned { IfOk result (plans held.now call.now cred.now now arrival) };
}
