ghost use Rattle.std.specs.Prelude.{◌≡◌, [], true, false, None, is_some, IfOk, OnErr};
ghost use Rattle.fs_rules.specs.Geometry.{IsWithinLimits};
ghost use Rattle.node_rules.specs.Stock.{empty_cache};

use crate::serving;
use nfs_proto::Stamp;
use node_cache::{Cache, Geometry, NoMemory};
use node_rules::{NodeState, Outputs, Planner, Waiting};
use std::alloc::Global;
use std::marker::{Model, PhantomData};
use tx_coord::Outcome;

/// An NFS node, since its start. A contract sees all that it has, and whether memory ran out in a call.
#[derive(Drop)]
pub struct Node<P> {
    alloc: Global,
    number: u32,
    state: NodeState,
    spent: bool,
    planner: PhantomData<P>,
}

impl<P> Model for Node<P> {
    ghost use Rattle.std.specs.Prelude.{◌≡◌, false};
    ghost use Rattle.nfs_node.specs.Calls.{Machine};

    ghost Value = { Machine };

    ghost use Rattle.node_rules.specs.Order.{IsInOrder};

    ghost view = { λ n. record { number = n.number; state = n.state; is_spent = n.spent } };

    ghost invariant = { λ n. n.spent ≡ false → IsInOrder n.state };
}

impl<P: Planner> Node<P> {
    ghost use Rattle.std.specs.Prelude.{IsSome, Some};
    ghost use Rattle.nfs_service.specs.Reply.{heard};
    ghost use Rattle.node_rules.specs.declared.running.Running.{Running as Runs};
    ghost use Rattle.node_rules.specs.Steps.{Arrives, IsEnded, IsGivenUp};
    ghost use Rattle.nfs_node.specs.Calls.{Makes};
    ghost use Rattle.nfs_node.specs.Progress.{IsOutcomeOf};

    /// The node with this number at its start, in a cluster of this size: nothing runs or waits, and nothing is cached.
    /// [`NoMemory`] where its places find no memory.
    pub fn new(alloc: Global, n: u32, geometry: Geometry) -> Result<Node<P>, NoMemory>
        requires { IsWithinLimits geometry }
        ensures { IfOk result (λ node. node ≡ record {
          number = n;
          state = record { geometry = geometry; cache = empty_cache; running = None; waiting = [] };
          is_spent = false;
        }) }
    {
        Ok(Node {
            alloc,
            number: n,
            state: NodeState {
                geometry,
                cache: Cache::new(alloc)?,
                running: None,
                waiting: Waiting::new(alloc)?,
            },
            spent: false,
            planner: PhantomData,
        })
    }

    /// Its number. It takes no memory.
    pub fn number(&self) -> u32
        ensures { result ≡ self.now.number }
    {
        self.number
    }

    /// Whether an arrival runs. It takes no memory.
    pub fn busy(&self) -> bool
        ensures { result ≡ is_some self.now.state.running }
    {
        self.state.running.is_some()
    }

    /// A datagram comes, as the arrival with this number, at this moment. What is not answered is dropped, and what needs no
    /// file system is answered at once. A call of the file system is dropped where [`MAX_WAITING`](crate::MAX_WAITING) others
    /// wait; it waits where one runs, and else starts. [`NoMemory`]: memory ran out, now or in an earlier call, and this and
    /// every further call that can say so does.
    pub fn arrive(&mut self, id: u32, now: Stamp, bytes: &[u8]) -> Result<Outputs, NoMemory>
        ensures exact { IfOk result (Makes (λ old new outputs. Arrives P.plans old id now (heard bytes.now) new outputs) self.old self.new) }
        ensures spent { OnErr result (self.new.is_spent ≡ true) }
    {
        if self.spent {
            return Err(NoMemory);
        }
        self.spent = true;
        let outputs = serving::hear::<P>(self.alloc, &mut self.state, id, now, bytes)?;
        self.spent = false;
        Ok(outputs)
    }

    /// The minitransaction that was begun last ended so. What it fetched is held, and the arrival goes on; what the final one
    /// read is answered; and where it failed the arrival is tried anew, or is not tried any more once eight have failed. When
    /// an arrival ends the next one starts. [`NoMemory`]: memory ran out, now or in an earlier call.
    pub fn outcome(&mut self, outcome: &Outcome) -> Result<Outputs, NoMemory>
        requires runs { IsSome self.old.state.running }
        requires fits { (r : Runs) → self.old.state.running ≡ Some r → IsOutcomeOf r outcome.now }
        ensures exact { IfOk result (Makes (λ old new outputs. IsEnded P.plans old outcome.now new outputs) self.old self.new) }
        ensures spent { OnErr result (self.new.is_spent ≡ true) }
    {
        if self.spent {
            return Err(NoMemory);
        }
        self.spent = true;
        let outputs = serving::end::<P>(self.alloc, &mut self.state, outcome)?;
        self.spent = false;
        Ok(outputs)
    }

    /// The arrival that runs is given up: how its minitransaction ends is not known, and it is never tried again. The next one
    /// starts. [`NoMemory`]: memory ran out, now or in an earlier call.
    pub fn give_up(&mut self) -> Result<Outputs, NoMemory>
        requires runs { IsSome self.old.state.running }
        ensures exact { IfOk result (Makes (λ old new outputs. IsGivenUp P.plans old new outputs) self.old self.new) }
        ensures spent { OnErr result (self.new.is_spent ≡ true) }
    {
        if self.spent {
            return Err(NoMemory);
        }
        self.spent = true;
        let outputs = serving::give_up::<P>(self.alloc, &mut self.state)?;
        self.spent = false;
        Ok(outputs)
    }
}
