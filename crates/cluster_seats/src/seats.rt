ghost use Rattle.std.specs.Prelude.{◌≡◌, ◌<◌, ◌^◌, [], ◌∷◌, ◌++◌, length, slice_get, Some, IfOk, OnOk, OnErr};
ghost use Rattle.tx_coord.specs.State.{Free, Machine, shown};
ghost use Rattle.tx_coord.specs.Rules.{begun, cleared, given_up, heard, resent};
ghost use Rattle.cluster_seats.specs.Seats.{Becomes, Steps, nodes_in};

use mini_tx::{Message, Mini};
use sfs_base::NoMemory;
use std::alloc::Global;
use tx_coord::{Coordinator, Outbox, TxState};

/// The coordinators of the NFS nodes, by their numbers.
#[derive(Debug, Drop)]
pub struct Seats {
    pub(crate) nodes: Vec<Coordinator>,
}

impl Seats {
    /// No node yet. It takes no memory.
    pub fn new(alloc: Global) -> Seats
        ensures { nodes_in result ≡ [] }
    {
        Seats {
            nodes: Vec::new(alloc),
        }
    }

    /// The coordinator of the next node. [`NoMemory`]: all is as before.
    pub fn push(&mut self, node: Coordinator) -> Result<(), NoMemory>
        ensures ok { OnOk result (nodes_in self.new ≡ nodes_in self.old ++ node ∷ []) }
        ensures err { OnErr result (nodes_in self.new ≡ nodes_in self.old) }
    {
        self.nodes.push(node)?;
        Ok(())
    }

    /// How many nodes there are. It takes no memory.
    pub fn len(&self) -> usize
        ensures { result ≡ length (nodes_in self.now) }
    {
        self.nodes.len()
    }

    /// What a node is at. It takes no memory.
    pub fn state(&self, n: u32) -> &TxState
        requires { n < length (nodes_in self.now) }
        ensures { (c : Machine) → slice_get (nodes_in self.now) n ≡ Some c → result.now ≡ shown c.state.phase }
    {
        self.nodes[n as usize].state()
    }

    /// A node begins a minitransaction: it is idle, and fewer than 2^62 have begun since its start.
    /// [`NoMemory`]: memory ran out, now or in an earlier call.
    pub fn begin(&mut self, n: u32, mini: Mini) -> Result<Outbox, NoMemory>
        requires there { n < length (nodes_in self.old) }
        requires idle { (c : Machine) → slice_get (nodes_in self.old) n ≡ Some c → c.state.phase ≡ Free }
        requires few { (c : Machine) → slice_get (nodes_in self.old) n ≡ Some c → c.state.begun < 2 ^ 62 }
        ensures { IfOk result (Steps (λ s. begun s mini) n (nodes_in self.old) (nodes_in self.new)) }
    {
        let node = &mut self.nodes[n as usize];
        node.begin(mini)
    }

    /// A node hears a message of a memory node. [`NoMemory`]: memory ran out, now or in an earlier call.
    pub fn hear(&mut self, n: u32, from: u32, message: &Message) -> Result<Outbox, NoMemory>
        requires { n < length (nodes_in self.old) }
        ensures { IfOk result (Steps (λ s. heard s from message.now) n (nodes_in self.old) (nodes_in self.new)) }
    {
        let node = &mut self.nodes[n as usize];
        node.hear(from, message)
    }

    /// What a node posts again. [`NoMemory`]: memory ran out, now or in an earlier call.
    pub fn resend(&self, n: u32) -> Result<Outbox, NoMemory>
        requires { n < length (nodes_in self.now) }
        ensures { IfOk result (λ posts. (c : Machine) → slice_get (nodes_in self.now) n ≡ Some c → posts ≡ resent c.state) }
    {
        self.nodes[n as usize].resend()
    }

    /// A node gives up what runs. It takes no memory.
    pub fn give_up(&mut self, n: u32)
        requires { n < length (nodes_in self.old) }
        ensures { Becomes given_up n (nodes_in self.old) (nodes_in self.new) }
    {
        let node = &mut self.nodes[n as usize];
        node.give_up();
    }

    /// The outcome of a node was taken. It takes no memory.
    pub fn clear(&mut self, n: u32)
        requires { n < length (nodes_in self.old) }
        ensures { Becomes cleared n (nodes_in self.old) (nodes_in self.new) }
    {
        let node = &mut self.nodes[n as usize];
        node.clear();
    }
}
