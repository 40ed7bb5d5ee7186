//! What the events of a node do to all that it has.
ghost use Rattle.std.specs.Prelude.{◌≡◌, [], ◌∷◌, Some, None, IsSome, IfOk, OnOk};
ghost use Rattle.fs_rules.specs.Statuses.{stale};
ghost use Rattle.nfs_proto.specs.declared.answer.Answer.TheVariants as answer;
ghost use Rattle.nfs_proto.specs.Answers.{answer_spelling};
ghost use Rattle.rpc_msg.specs.Messages.{accepted};
ghost use Rattle.node_rules.specs.declared.output.Output.TheVariants as output;
ghost use Rattle.nfs_service.specs.Reply.{heard};
ghost use Rattle.node_rules.specs.declared.running.Running.{Running as Runs};
ghost use Rattle.node_rules.specs.Order.{IsInOrder};
ghost use Rattle.node_rules.specs.Plans.{IsServed};
ghost use Rattle.node_rules.specs.Steps.{Arrives, IsEnded, IsGivenUp};
ghost use Rattle.nfs_node.specs.Gathers.{GoesNextAfter, IsAdmitted};
ghost use Rattle.nfs_node.specs.Progress.{IsOutcomeOf};

use crate::ending::ended;
use crate::next::Next;
use crate::starting::{fresh, only, start, start_next};
use fs_checks::Status;
use nfs_proto::{Answer, Stamp};
use nfs_service::{Request, needs_files, reply_to};
use node_cache::NoMemory;
use node_rules::{Arrival, Cause, NodeState, Output, Outputs, Planner, Why};
use plan_laws::kept_is_in_order;
use std::alloc::Global;
use tx_coord::Outcome;

/// A datagram comes.
pub(crate) fn hear<P: Planner>(
    alloc: Global,
    state: &mut NodeState,
    id: u32,
    now: Stamp,
    bytes: &[u8],
) -> Result<Outputs, NoMemory>
    requires { IsInOrder state.old }
    ensures exact { IfOk result (Arrives P.plans state.old id now (heard bytes.now) state.new) }
    ensures order { OnOk result (IsInOrder state.new) }
{
    let request = Request::read(alloc, bytes)?;
    let needs = needs_files(state.geometry, &request);
    match request {
        Request::Silent => only(
            alloc,
            Output::Dropped {
                id,
                why: Why::Silent,
            },
        ),
        Request::Told(bytes) => only(alloc, Output::Reply { id, bytes }),
        Request::Asked { xid, call, cred } => {
            if needs {
                let arrival = Arrival {
                    id,
                    now,
                    xid,
                    call,
                    cred,
                };
                admit::<P>(alloc, state, arrival)
            } else {
                refuse(alloc, id, xid)
            }
        }
    }
}

// A handle is none of this cluster.
fn refuse(alloc: Global, id: u32, xid: u32) -> Result<Outputs, NoMemory>
    ensures { IfOk result (λ outputs. outputs ≡ output.Reply id (accepted xid (answer_spelling (answer.Fault stale))) ∷ []) }
{
    let bytes = reply_to(alloc, xid, &Answer::Fault(Status::STALE.0))?;
    only(alloc, Output::Reply { id, bytes })
}

// A call of the file system is dropped where too many wait, waits where one runs, and else starts.
fn admit<P: Planner>(
    alloc: Global,
    state: &mut NodeState,
    arrival: Arrival,
) -> Result<Outputs, NoMemory>
    requires order { IsInOrder state.old }
    requires served { IsServed state.old.geometry arrival.call }
    ensures admitted { IfOk result (IsAdmitted P.plans state.old arrival state.new) }
    ensures order { OnOk result (IsInOrder state.new) }
{
    if state.waiting.is_full() {
        return only(
            alloc,
            Output::Dropped {
                id: arrival.id,
                why: Why::Full,
            },
        );
    }
    if state.running.is_some() {
        state.waiting.push(arrival);
        return Ok(Outputs::new(alloc));
    }
    let work = fresh(alloc, state.geometry, arrival)?;
    let output = start::<P>(alloc, state, work)?;
    only(alloc, output)
}

/// The minitransaction that runs ended.
pub(crate) fn end<P: Planner>(
    alloc: Global,
    state: &mut NodeState,
    outcome: &Outcome,
) -> Result<Outputs, NoMemory>
    requires runs { IsSome state.old.running }
    requires fits { (r : Runs) → state.old.running ≡ Some r → IsOutcomeOf r outcome.now }
    requires order { IsInOrder state.old }
    ensures exact { IfOk result (IsEnded P.plans state.old outcome.now state.new) }
    ensures order { OnOk result (IsInOrder state.new) }
{
    kept_is_in_order();
    let running = state.running.take().unwrap();
    match ended(alloc, running, outcome, &mut state.cache)? {
        Next::GoesOn(work) => {
            let output = start::<P>(alloc, state, work)?;
            only(alloc, output)
        }
        Next::Ends(output) => end_with::<P>(alloc, state, output),
    }
}

/// The arrival that runs is given up.
pub(crate) fn give_up<P: Planner>(alloc: Global, state: &mut NodeState) -> Result<Outputs, NoMemory>
    requires runs { IsSome state.old.running }
    requires order { IsInOrder state.old }
    ensures exact { IfOk result (IsGivenUp P.plans state.old state.new) }
    ensures order { OnOk result (IsInOrder state.new) }
{
    let running = state.running.take().unwrap();
    let retry = Output::Retry {
        id: running.work.arrival.id,
        cause: Cause::Unreached,
    };
    end_with::<P>(alloc, state, retry)
}

// This is told, and the next one starts.
fn end_with<P: Planner>(
    alloc: Global,
    state: &mut NodeState,
    output: Output,
) -> Result<Outputs, NoMemory>
    requires idle { state.old.running ≡ None }
    requires order { IsInOrder state.old }
    ensures next { IfOk result (GoesNextAfter P.plans output state.old state.new) }
    ensures order { OnOk result (IsInOrder state.new) }
{
    let mut outputs = only(alloc, output)?;
    outputs.append(start_next::<P>(alloc, state)?)?;
    Ok(outputs)
}
