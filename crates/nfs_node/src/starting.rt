//! How a minitransaction is begun.
ghost use Rattle.std.specs.Prelude.{◌≡◌, [], ◌∷◌, Some, None, map, IfOk, OnOk};
ghost use Rattle.mini_tx.specs.Minitransactions.{place_of};
ghost use Rattle.node_rules.specs.declared.output.Output.TheVariants as output;
ghost use Rattle.node_rules.specs.Begin.{GoesNext, IsStarted, begun_by, fresh};
ghost use Rattle.node_rules.specs.Order.{IsInOrder, IsStockInOrder, IsWorkInOrder};
ghost use Rattle.node_rules.specs.Plans.{IsServed, read_sizes};
ghost use Rattle.nfs_node.specs.Gathers.{IsBegun, IsGathered, IsReady};

use mini_tx::{Mini, Numbers};
use node_cache::{Cache, Geometry, Held, NoMemory};
use node_parts::{places, sizes, take, written};
use node_rules::{Arrival, Attempt, NodeState, Output, Outputs, Pending, Planner, Running, Work};
use plan_forms::Plan;
use plan_parts::fetch;
use std::alloc::Global;

/// Where none runs any more, the arrival that came first starts, if any waits.
pub(crate) fn start_next<P: Planner>(
    alloc: Global,
    state: &mut NodeState,
) -> Result<Outputs, NoMemory>
    requires idle { state.old.running ≡ None }
    requires order { IsInOrder state.old }
    ensures next { IfOk result (GoesNext P.plans state.old state.new) }
    ensures order { OnOk result (IsInOrder state.new) }
{
    match state.waiting.pop() {
        Some(arrival) => {
            let work = fresh(alloc, state.geometry, arrival)?;
            let output = start::<P>(alloc, state, work)?;
            only(alloc, output)
        }
        None => Ok(Outputs::new(alloc)),
    }
}

/// Nothing but this.
pub(crate) fn only(alloc: Global, output: Output) -> Result<Outputs, NoMemory>
    ensures { IfOk result (λ outputs. outputs ≡ output ∷ []) }
{
    let mut outputs = Outputs::new(alloc);
    outputs.push(output)?;
    Ok(outputs)
}

/// An arrival as it starts.
pub(crate) fn fresh(alloc: Global, geometry: Geometry, arrival: Arrival) -> Result<Work, NoMemory>
    ensures { IfOk result (λ work. work ≡ fresh geometry arrival) }
{
    Ok(Work {
        arrival,
        held: Held::new(alloc, geometry)?,
        failures: 0,
    })
}

/// Goes on with an arrival: what it wants is moved from the cache while it is there, and then a minitransaction is begun,
/// which fetches what is wanted next or is the final one.
pub(crate) fn start<P: Planner>(
    alloc: Global,
    state: &mut NodeState,
    work: Work,
) -> Result<Output, NoMemory>
    requires idle { state.old.running ≡ None }
    requires order { IsInOrder state.old }
    requires work { IsWorkInOrder state.old.geometry state.old.cache work }
    ensures started { IfOk result (IsStarted P.plans state.old work state.new) }
    ensures order { OnOk result (IsInOrder state.new) }
{
    let mut work = work;
    let plan = gather::<P>(alloc, &work.arrival, &mut work.held, &mut state.cache)?;
    begin(alloc, state, work, plan)
}

// What is wanted is moved from the cache into a work set while it is there; the answer is what is planned then.
fn gather<P: Planner>(
    alloc: Global,
    arrival: &Arrival,
    held: &mut Held,
    cache: &mut Cache,
) -> Result<Plan, NoMemory>
    requires served { IsServed held.old.geometry arrival.now.call }
    requires order { IsStockInOrder held.old.geometry (record { held = held.old; cache = cache.old }) }
    ensures { IfOk result (IsGathered P.plans arrival.entry.now (record { held = held.old; cache = cache.old }) (record { held = held.new; cache = cache.new })) }
{
    match P::plan(
        alloc,
        &arrival.call,
        &arrival.cred,
        arrival.now,
        arrival.id,
        held,
    )? {
        Plan::Need(want) => {
            if take(alloc, want, held, cache)? {
                gather::<P>(alloc, arrival, held, cache)
            } else {
                Ok(Plan::Need(want))
            }
        }
        Plan::Final {
            mini,
            answer,
            made,
            changed,
        } => Ok(Plan::Final {
            mini,
            answer,
            made,
            changed,
        }),
    }
}

// Begins what is planned.
fn begin(alloc: Global, state: &mut NodeState, work: Work, plan: Plan) -> Result<Output, NoMemory>
    requires { IsReady work.held plan }
    ensures { IfOk result (IsBegun state.old work plan state.new) }
{
    match plan {
        Plan::Need(want) => {
            let mini = fetch(alloc, &want, &work.held)?;
            launch(alloc, state, work, mini, None, Attempt::Fetch(want))
        }
        Plan::Final {
            mini,
            answer,
            made,
            changed,
        } => {
            let written = written(alloc, mini.items().as_slice())?;
            let pending = Pending {
                answer,
                changed,
                written,
            };
            launch(alloc, state, work, mini, made, Attempt::Final(pending))
        }
    }
}

// A minitransaction runs for an arrival.
fn launch(
    alloc: Global,
    state: &mut NodeState,
    work: Work,
    mini: Mini,
    made: Option<(u32, u32)>,
    attempt: Attempt,
) -> Result<Output, NoMemory>
    ensures output { IfOk result (λ o. o ≡ output.Start work.arrival.id mini made) }
    ensures state { OnOk result (state.new ≡ record state.old { running = Some (record { work = work; attempt = attempt; places = map place_of mini; sizes = read_sizes mini }) }) }
{
    let id = work.arrival.id;
    let places = places(alloc, mini.items().as_slice())?;
    let sizes = sizes(alloc, mini.items().as_slice())?;
    state.running = Some(Running {
        work,
        attempt,
        places,
        sizes,
    });
    Ok(Output::Start { id, mini, made })
}
