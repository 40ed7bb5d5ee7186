use cluster_parts::{Handled, MemorySlot};
use disk_model::Disk;
use mini_tx::{Actor, Message, TxId};
use sfs_base::NoMemory;
use std::alloc::Global;

/// The memory nodes of a cluster, by their numbers.
#[derive(Drop)]
pub struct Memories<D: Disk> {
    pub(crate) slots: Vec<MemorySlot<D>>,
}

impl<D: Disk> Memories<D> {
    ghost use Rattle.std.specs.Prelude.{◌≡◌, ◌<◌, ◌++◌, [], ◌∷◌, ℕ, List, length, slice_get, slice_set, option_to_list, Some, IfOk, IfErr, IfNone, OnOk, OnErr};
    ghost use Rattle.link_model.specs.Links.{numbered};
    ghost use Rattle.mini_tx.specs.declared.geometry.Geometry4.{Geometry4};
    ghost use Rattle.mini_tx.specs.declared.posted.Posted.{Posted};
    ghost use Rattle.mem_rules.specs.Fit.{IsFitMessage, IsOfCluster, IsOfTransactions};
    ghost use Rattle.gate_log.specs.Log.{end_of};
    ghost use Rattle.mem_node.specs.Node.{log_of};
    ghost use Rattle.story_rules.specs.MemoryNodes.{MemoryNode};
    ghost use Rattle.story_rules.specs.Story.{Site, Up};
    ghost use Rattle.cluster_laws.specs.Reactions.{may_grant};
    ghost use Rattle.cluster_parts.specs.declared.memory_slot.MemorySlot.{MemorySlot as Slot};
    ghost use Rattle.cluster_parts.specs.Slots.{Answers, is_down_in, node_in, setup_at, site_after, state_at};
    ghost use Rattle.cluster_memories.specs.Memories.{AreAt, AreRested, MayBeSent, slots_in};

    /// No memory node yet. It takes no memory.
    pub fn new(alloc: Global) -> Memories<D>
        ensures { slots_in result ≡ [] }
    {
        Memories {
            slots: Vec::new(alloc),
        }
    }

    /// The next memory node. A refused call hands it back: there is no memory, and all is as before.
    pub fn push(&mut self, slot: MemorySlot<D>) -> Result<(), MemorySlot<D>>
        ensures ok { OnOk result (slots_in self.new ≡ slots_in self.old ++ slot ∷ []) }
        ensures err { OnErr result (slots_in self.new ≡ slots_in self.old) }
        ensures back { IfErr result (λ refused. refused ≡ slot) }
    {
        match self.slots.push(slot) {
            Ok(()) => Ok(()),
            Err(refused) => Err(refused.value),
        }
    }

    /// Takes the last memory node away, where there is one. It takes no memory.
    pub fn pop(&mut self) -> Option<MemorySlot<D>>
        ensures last { slots_in self.old ≡ slots_in self.new ++ option_to_list result }
        ensures none { IfNone result (slots_in self.old ≡ []) }
    {
        self.slots.pop()
    }

    /// How many there are. It takes no memory.
    pub fn len(&self) -> usize
        ensures { result ≡ length (slots_in self.now) }
    {
        self.slots.len()
    }

    /// Whether a memory node is down. It takes no memory.
    pub fn is_down(&self, m: u32) -> bool
        requires { m < length (slots_in self.now) }
        ensures { (slot : _) → slice_get (slots_in self.now) m ≡ Some slot → result ≡ is_down_in slot }
    {
        self.slots[m as usize].is_down()
    }

    /// How far the closed gate of a memory node's log lies from the log's start, in bytes. It takes no memory.
    pub fn log_bytes(&self, m: u32) -> u64
        requires { m < length (slots_in self.now) }
        ensures { (slot : _) → slice_get (slots_in self.now) m ≡ Some slot → result ≡ end_of (log_of (node_in slot)) }
    {
        self.slots[m as usize].log_bytes()
    }

    /// The identifier that a message may make a memory node grant anew. It takes no memory.
    pub fn may_grant(&self, m: u32, message: &Message) -> Option<TxId>
        requires there { m < length (slots_in self.now) }
        requires fit { (slot : _) → slice_get (slots_in self.now) m ≡ Some slot → IsFitMessage (setup_at slot) message.now }
        ensures { (slot : _) → slice_get (slots_in self.now) m ≡ Some slot → result ≡ may_grant (state_at slot) message.now }
    {
        self.slots[m as usize].may_grant(message)
    }

    /// What a memory node does with a message, which may be sent to it. [`NoMemory`]: there is no memory, or its
    /// disk is starved.
    pub fn handle(&mut self, m: u32, from: Actor, message: &Message) -> Result<Handled, NoMemory>
        requires there { m < length (slots_in self.old) }
        requires fit { (slot : _) → slice_get (slots_in self.old) m ≡ Some slot → MayBeSent (setup_at slot) from message.now }
        ensures at { IfOk result (λ handled. (g : Geometry4) (sites : List Site) (n : MemoryNode) (k : ℕ)
            → AreAt g (slots_in self.old) sites → slice_get sites m ≡ Some (Up n)
            → AreAt g (slots_in self.new) (slice_set sites m (site_after k n message.now handled))) }
        ensures answer { IfOk result (λ handled. (g : Geometry4) (sites : List Site) (n : MemoryNode)
            → AreAt g (slots_in self.old) sites → slice_get sites m ≡ Some (Up n) → Answers n message.now handled) }
        ensures rests { IfOk result (λ handled. (g : Geometry4) (sites : List Site) (n : MemoryNode) (k : ℕ) (posted : List Posted) (p : Posted)
            → AreAt g (slots_in self.old) sites → slice_get sites m ≡ Some (Up n) → numbered posted k ≡ Some p → p.message ≡ message.now
            → AreRested D.tells D.history D.health g posted (slots_in self.old) sites
            → AreRested D.tells D.history D.health g posted (slots_in self.new) (slice_set sites m (site_after k n message.now handled))) }
    {
        let slot = &mut self.slots[m as usize];
        slot.handle(from, message)
    }
}
