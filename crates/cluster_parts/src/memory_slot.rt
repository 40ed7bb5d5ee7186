ghost use Rattle.std.specs.Prelude.{◌≡◌, true, IfOk};
ghost use Rattle.cluster_parts.specs.Slots.{FallsBy};

use crate::delivered::{DownCause, Handled};
use crate::granting::may_grant;
use disk_model::Disk;
use mem_node::{MemNode, NodeFault};
use mini_tx::{Actor, Message, TxId};
use sfs_base::NoMemory;

/// The place of a memory node in a cluster: the memory node, which runs or is down.
#[derive(Drop)]
pub struct MemorySlot<D: Disk> {
    pub(crate) node: MemNode<D>,
    pub(crate) is_down: bool,
}

impl<D: Disk> MemorySlot<D> {
    ghost use Rattle.std.specs.Prelude.{◌<◌, ℕ, List, Some, None, false, is_none};
    ghost use Rattle.link_model.specs.Links.{numbered};
    ghost use Rattle.mini_tx.specs.declared.posted.Posted.{Posted};
    ghost use Rattle.mem_rules.specs.declared.setup.Setup.{Setup};
    ghost use Rattle.mem_rules.specs.Fit.{IsFitMessage, IsOfCluster, IsOfTransactions};
    ghost use Rattle.mem_node.specs.Node.{node_disk_of, setup_of, shut_of};
    ghost use Rattle.gate_log.specs.Log.{end_of};
    ghost use Rattle.mem_node.specs.Node.{log_of};
    ghost use Rattle.story_rules.specs.MemoryNodes.{MemoryNode};
    ghost use Rattle.story_rules.specs.Story.{Up};
    ghost use Rattle.cluster_laws.specs.Reactions.{may_grant};
    ghost use Rattle.mem_rules.specs.Memory.{vote_of};
    ghost use Rattle.cluster_parts.specs.Slots.{Answers, IsAt, RestsAt, is_down_in, node_in, setup_at, site_after, state_at};

    /// The place of a memory node that runs. It takes no memory.
    pub fn new(node: MemNode<D>) -> MemorySlot<D>
        ensures node { node_in result ≡ node }
        ensures up { is_down_in result ≡ false }
    {
        MemorySlot {
            node,
            is_down: false,
        }
    }

    /// Whether it is down. It takes no memory.
    pub fn is_down(&self) -> bool
        ensures { result ≡ is_down_in self.now }
    {
        self.is_down
    }

    /// Its disk. It takes no memory.
    pub fn into_disk(self) -> D
        ensures { result ≡ node_disk_of (node_in self) }
    {
        self.node.stop()
    }

    /// How far the closed gate of its log lies from the log's start, in bytes. It takes no memory.
    pub fn log_bytes(&self) -> u64
        ensures { result ≡ end_of (log_of (node_in self.now)) }
    {
        self.node.log_bytes()
    }

    /// The identifier that a message may make it grant anew. It takes no memory.
    pub fn may_grant(&self, message: &Message) -> Option<TxId>
        requires { IsFitMessage (setup_at self.now) message.now }
        ensures { result ≡ may_grant (state_at self.now) message.now }
    {
        let id = may_grant(message)?;
        if self.is_unvoted(id) { Some(id) } else { None }
    }

    /// Whether it has no vote on an identifier.
    fn is_unvoted(&self, id: TxId) -> bool
        requires { id.coord < (setup_at self.now).geometry.nodes }
        ensures { result ≡ is_none (vote_of (state_at self.now) id) }
    {
        self.node.vote(id).is_none()
    }

    /// What it does with a message, which may be sent to it: its answer leaves only once its entry is safe. It
    /// goes down where its disk fails or its log is full. [`NoMemory`]: there is no memory, or its disk is
    /// starved.
    pub fn handle(&mut self, from: Actor, message: &Message) -> Result<Handled, NoMemory>
        requires sender { IsOfCluster (setup_at self.old).geometry from }
        requires fit { IsFitMessage (setup_at self.old) message.now }
        requires built { IsOfTransactions message.now }
        ensures site { IfOk result (λ handled. (s : Setup) (n : MemoryNode) (k : ℕ) → IsAt s self.old (Up n)
            → IsAt s self.new (site_after k n message.now handled)) }
        ensures answer { IfOk result (λ handled. (s : Setup) (n : MemoryNode) → IsAt s self.old (Up n)
            → Answers n message.now handled) }
        ensures rests { IfOk result (λ handled. (s : Setup) (n : MemoryNode) (k : ℕ) (posted : List Posted) (p : Posted)
            → IsAt s self.old (Up n) → numbered posted k ≡ Some p → p.message ≡ message.now
            → RestsAt D.tells D.history D.health s posted self.old (Up n)
            → RestsAt D.tells D.history D.health s posted self.new (site_after k n message.now handled)) }
    {
        match self.node.handle(from, message) {
            Ok(answer) => Ok(Handled::Answered(answer)),
            Err(fault) => self.fall(fault),
        }
    }

    /// It goes down where its disk failed or its log was full. [`NoMemory`]: there is no memory, or its disk is
    /// starved.
    fn fall(&mut self, fault: NodeFault) -> Result<Handled, NoMemory>
        ensures { IfOk result (λ handled. FallsBy fault handled × (self.new ≡ record self.old { is_down = true })) }
    {
        let cause = cause_of(fault)?;
        if self.node.starved() {
            return Err(NoMemory);
        }
        self.is_down = true;
        Ok(Handled::Fell(cause))
    }
}

/// Why a memory node goes down. [`NoMemory`]: it does not.
fn cause_of(fault: NodeFault) -> Result<DownCause, NoMemory>
    ensures { IfOk result (λ cause. FallsBy fault (Handled.Fell cause)) }
{
    match fault {
        NodeFault::Full => Ok(DownCause::Full),
        NodeFault::Down | NodeFault::Other | NodeFault::Damaged { .. } => Ok(DownCause::Fault),
        NodeFault::NoMemory => Err(NoMemory),
    }
}
