ghost use Rattle.std.specs.Prelude.{◌≡◌};

use crate::first::first_seats;
use cluster_calls::{Counted, Delivered, Parts};
use cluster_format::{ClusterFault, format as format_memories, give_back};
use cluster_parts::Book;
use cluster_seats::TxState;
use disk_model::{Disk, Shelf};
use link_model::Link;
use mini_tx::{Actor, Geometry4, Mini, Posted, TxId};
use sfs_base::NoMemory;
use std::alloc::Global;

/// How many messages are posted in the life of a cluster at the most.
const MAX_MESSAGES: u64 = 1 << 62;

/// A cluster of NFS nodes and memory nodes, and the link between them. After a call has answered [`NoMemory`] each
/// call that can answer so does, and nothing more is known of its story.
#[derive(Drop)]
pub struct Cluster<D: Disk, L: Link> {
    pub(crate) parts: Parts<D, Counted<L>>,
    pub(crate) spent: bool,
}

impl<D: Disk, L: Link> Cluster<D, L> {
    ghost use Rattle.std.specs.Prelude.{◌<◌, ◌^◌, ◌↔◌, suc, true, ℕ, IsTrue, None, Some, IfOk, IfSome, IfNone, OnOk, length, slice_get, false};
    ghost use Rattle.mini_tx.specs.declared.posted.Posted.{Posted as PostedOn};
    ghost use Rattle.mini_tx.specs.Minitransactions.{refusal};
    ghost use Rattle.link_model.specs.Links.{IsLeast};
    ghost use Rattle.mem_rules.specs.Fit.{IsOfCluster};
    ghost use Rattle.gate_log.specs.Log.{end_of};
    ghost use Rattle.mem_node.specs.Node.{log_of};
    ghost use Rattle.story_rules.specs.Story.{Story};
    ghost use Rattle.story_rules.specs.Steps.{message_at};
    ghost use Rattle.story_laws.specs.Acts.{Begins, Clears, Delivers, GivesUp, Resends};
    ghost use Rattle.cluster_parts.specs.Slots.{node_in};
    ghost use Rattle.cluster_steps.specs.Live.{how_of};
    ghost use Rattle.cluster_calls.specs.Known.{image_bytes};
    ghost use Rattle.sinfonia.specs.Clusters.{Does, IsIdle, IsKnown, RestsOn, RunsIn, StandsFor, TellsOf, geometry_in, is_spent, link_in, memories_in};

    /// A node that is idle begins a minitransaction, which is one of this cluster. [`NoMemory`]: memory ran out, now or
    /// in an earlier call.
    pub fn begin(&mut self, n: u32, mini: Mini) -> Result<(), NoMemory>
        requires known { IsKnown L.stands self.old }
        requires there { n < (geometry_in self.old).nodes }
        requires mini { refusal mini (geometry_in self.old).memories (image_bytes (geometry_in self.old)) ≡ None }
        requires idle { (story : Story) → StandsFor L.stands self.old story → IsIdle story n }
        requires life { (story : Story) → StandsFor L.stands self.old story → length story.posted < 2 ^ 62 }
        ensures geometry { geometry_in self.new ≡ geometry_in self.old }
        ensures does { OnOk result (Does D.tells D.history D.health L.stands self.old self.new (Begins n mini)) }
        ensures stands { OnOk result ((story : Story) × StandsFor L.stands self.new story) }
        ensures known { IsKnown L.stands self.new }
    {
        if self.spent {
            return Err(NoMemory);
        }
        self.spent = true;
        self.parts.begin(n, mini)?;
        self.spent = false;
        Ok(())
    }

    /// Delivers the message of this number, which is there, to its receiver. Nothing stops in it: `stop` is none.
    /// [`NoMemory`]: memory ran out, now or in an earlier call, or the receiver's disk is starved.
    pub fn deliver(&mut self, k: u64, stop: Option<u32>) -> Result<Delivered, NoMemory>
        requires known { IsKnown L.stands self.old }
        requires stop { stop ≡ None }
        requires there { is_spent self.old ≡ false → (p : PostedOn) × ((L.shown (link_in self.old)).there k ≡ Some p) }
        requires life { (story : Story) → StandsFor L.stands self.old story → length story.posted < 2 ^ 62 }
        ensures geometry { geometry_in self.new ≡ geometry_in self.old }
        ensures does { IfOk result (λ delivered. Does D.tells D.history D.health L.stands self.old self.new (Delivers k (how_of delivered))) }
        ensures stands { OnOk result ((story : Story) × StandsFor L.stands self.new story) }
        ensures known { IsKnown L.stands self.new }
    {
        let _none = stop;
        if self.spent {
            return Err(NoMemory);
        }
        self.spent = true;
        let went = self.parts.deliver(k)?;
        self.spent = false;
        Ok(went.delivered)
    }

    /// A node posts again what was not answered: `prepare` where the vote is missing, decisions where `done` is.
    /// [`NoMemory`]: memory ran out, now or in an earlier call.
    pub fn resend(&mut self, n: u32) -> Result<(), NoMemory>
        requires known { IsKnown L.stands self.old }
        requires there { n < (geometry_in self.old).nodes }
        requires life { (story : Story) → StandsFor L.stands self.old story → length story.posted < 2 ^ 62 }
        ensures geometry { geometry_in self.new ≡ geometry_in self.old }
        ensures does { OnOk result (Does D.tells D.history D.health L.stands self.old self.new (Resends n)) }
        ensures stands { OnOk result ((story : Story) × StandsFor L.stands self.new story) }
        ensures known { IsKnown L.stands self.new }
    {
        if self.spent {
            return Err(NoMemory);
        }
        self.spent = true;
        self.parts.resend(n)?;
        self.spent = false;
        Ok(())
    }

    /// A node gives up what runs: its outcome is unknown. It takes no memory.
    pub fn give_up(&mut self, n: u32)
        requires known { (story : Story) × StandsFor L.stands self.old story }
        requires there { n < (geometry_in self.old).nodes }
        ensures geometry { geometry_in self.new ≡ geometry_in self.old }
        ensures does { Does D.tells D.history D.health L.stands self.old self.new (GivesUp n) }
        ensures stands { (story : Story) × StandsFor L.stands self.new story }
    {
        self.parts.give_up(n);
    }

    /// The outcome of a node was taken, and it is idle. It takes no memory.
    pub fn clear(&mut self, n: u32)
        requires known { (story : Story) × StandsFor L.stands self.old story }
        requires there { n < (geometry_in self.old).nodes }
        ensures geometry { geometry_in self.new ≡ geometry_in self.old }
        ensures does { Does D.tells D.history D.health L.stands self.old self.new (Clears n) }
        ensures stands { (story : Story) × StandsFor L.stands self.new story }
    {
        self.parts.clear(n);
    }

    /// What a node is at. It takes no memory.
    pub fn state(&self, n: u32) -> &TxState
        requires known { (story : Story) × StandsFor L.stands self.now story }
        requires there { n < (geometry_in self.now).nodes }
        ensures { (story : Story) → StandsFor L.stands self.now story → TellsOf story n result.now }
    {
        self.parts.state(n)
    }

    /// Whether a node may begin a minitransaction: its last outcome was let go. It takes no memory.
    pub fn is_idle(&self, n: u32) -> bool
        requires known { (story : Story) × StandsFor L.stands self.now story }
        requires there { n < (geometry_in self.now).nodes }
        ensures { result ≡ true → (story : Story) → StandsFor L.stands self.now story → IsIdle story n }
    {
        matches!(self.parts.state(n), TxState::Idle)
    }

    /// The history: the changes that are committed, oldest first. It takes no memory.
    pub fn committed(&self) -> &[TxId]
        ensures { (story : Story) → StandsFor L.stands self.now story → result.now ≡ story.committed }
    {
        self.parts.committed()
    }

    /// How many messages were posted. It takes no memory.
    pub fn posted(&self) -> u64
        ensures { (story : Story) → StandsFor L.stands self.now story → result ≡ length story.posted }
    {
        self.parts.link().posted()
    }

    /// Whether more messages may be posted: fewer than 2^62 were. It takes no memory.
    pub fn has_room(&self) -> bool
        ensures { result ≡ true → (story : Story) → StandsFor L.stands self.now story → length story.posted < 2 ^ 62 }
    {
        self.posted() < MAX_MESSAGES
    }

    /// The message of this number, where it can be delivered. It takes no memory.
    pub fn message(&self, k: u64) -> Option<&Posted>
        ensures none { IfNone result ((L.shown (link_in self.now)).there k ≡ None) }
        ensures some { IfSome result (λ posted. (L.shown (link_in self.now)).there k ≡ Some posted.now) }
    {
        self.parts.link().peek(k)
    }

    /// Lets a message wait no more, and tells whether it was posted. It can still be delivered where the link keeps
    /// it. It takes no memory.
    pub fn lose(&mut self, k: u64) -> bool
        ensures geometry { geometry_in self.new ≡ geometry_in self.old }
        ensures same { (story : Story) → StandsFor L.stands self.old story → StandsFor L.stands self.new story }
        ensures posted { (story : Story) → StandsFor L.stands self.old story → IsTrue result ↔ ((0 < k) × (k < suc (length story.posted))) }
        ensures memories { memories_in self.new ≡ memories_in self.old }
    {
        self.parts.lose(k)
    }

    /// The least number of a message that waits: it was posted, and neither delivered nor lost. It takes no memory.
    pub fn lowest(&self) -> Option<u64>
        ensures least { IfSome result (IsLeast (L.shown (link_in self.now))) }
        ensures none { IfNone result ((k : ℕ) → (L.shown (link_in self.now)).waits k ≡ false) }
    {
        self.parts.link().lowest()
    }

    /// Whether an actor of the cluster runs. It takes no memory.
    pub fn running(&self, who: Actor) -> bool
        requires known { (story : Story) × StandsFor L.stands self.now story }
        requires there { IsOfCluster (geometry_in self.now) who }
        ensures { (story : Story) → StandsFor L.stands self.now story → RunsIn story who result }
    {
        match who {
            Actor::Memory(m) => self.parts.runs(m),
            Actor::Node(_) | Actor::Manager => true,
        }
    }

    /// How far the closed gate of a memory node's log lies from the log's start, in bytes. It takes no memory.
    pub fn log_bytes(&self, m: u32) -> u64
        requires known { (story : Story) × StandsFor L.stands self.now story }
        requires there { m < (geometry_in self.now).memories }
        ensures { (slot : _) → slice_get (memories_in self.now) m ≡ Some slot → result ≡ end_of (log_of (node_in slot)) }
    {
        self.parts.log_bytes(m)
    }
}

impl<D: Disk + Drop, L: Link + Drop> Cluster<D, L> {
    ghost use Rattle.std.specs.Prelude.{◌<◌, ◌≤◌, ℕ, [], true, Some, IfOk, IfErr, OnErr, length, slice_get};
    ghost use Rattle.disk_model.specs.Shelf.{IsAtRest};
    ghost use Rattle.mem_rules.specs.Fit.{IsSetup};
    ghost use Rattle.mem_node.specs.Node.{node_disk_of};
    ghost use Rattle.cluster_parts.specs.Slots.{node_in};
    ghost use Rattle.cluster_memories.specs.Memories.{setup_for};
    ghost use Rattle.cluster_format.specs.Formats.{GivesBack, HasFailed, IsGivenBack, IsHeld, shelves_of};
    ghost use Rattle.sinfonia.specs.Clusters.{RestsOn, StandsFor, geometry_in, memories_in};
    ghost use Rattle.sinfonia.specs.First.{first_story};

    /// Formats a cluster: the memory nodes have the fresh images, on the disks of their numbers, and all nodes have
    /// started. Nothing was posted on the link, and nothing is pending on these disks. A refused call has given every
    /// disk back that it took. [`ClusterFault::Failed`]: the shelf failed, or a disk. [`ClusterFault::Damaged`]: a disk
    /// does not have what was written. [`ClusterFault::NoMemory`]: there is no memory, or a disk is starved.
    pub fn format<H: Shelf<D = D>>(
        alloc: Global,
        shelf: &mut H,
        link: L,
        geometry: Geometry4,
    ) -> Result<Cluster<D, L>, ClusterFault>
        requires geometry { IsSetup (setup_for geometry 0) }
        requires link { L.stands link [] }
        requires rest { H.tells shelf.old → (m : ℕ) (disk : _) → m < geometry.memories → H.disks shelf.old m ≡ Some disk
            → IsAtRest D.history D.health disk }
        ensures stands { IfOk result (λ cluster. StandsFor L.stands cluster (first_story geometry)) }
        ensures rests { IfOk result (λ cluster. H.tells shelf.old → RestsOn D.tells D.history D.health cluster (first_story geometry)) }
        ensures geometry { IfOk result (λ cluster. geometry_in cluster ≡ geometry) }
        ensures held { IfOk result (λ cluster. IsHeld (shelves_of H.tells H.disks H.is_taken H.faults) D.tells shelf.old shelf.new
            (memories_in cluster)) }
        ensures given_back { OnErr result (IsGivenBack (shelves_of H.tells H.disks H.is_taken H.faults) shelf.old shelf.new) }
        ensures cause { IfErr result (λ fault. (m : ℕ)
            × HasFailed (shelves_of H.tells H.disks H.is_taken H.faults) D.health m shelf.old shelf.new fault) }
    {
        let Ok(seats) = first_seats(alloc, geometry.nodes) else {
            return Err(ClusterFault::NoMemory);
        };
        match format_memories(alloc, shelf, geometry) {
            Ok(memories) => Ok(Cluster {
                parts: Parts::new(
                    alloc,
                    geometry,
                    memories,
                    seats,
                    Book::new(alloc),
                    Counted::new(link),
                ),
                spent: false,
            }),
            Err(fault) => Err(fault),
        }
    }

    /// Gives the disk of each memory node back. It takes no memory.
    pub fn stop<H: Shelf<D = D>>(self, shelf: &mut H)
        requires held { (j : ℕ) → j < length (memories_in self) → H.is_taken shelf.old j ≡ true }
        requires own { H.tells shelf.old → (j : ℕ) (slot : _) → slice_get (memories_in self) j ≡ Some slot
            → D.tells (node_disk_of (node_in slot)) }
        requires few { length (memories_in self) ≤ 8 }
        ensures { GivesBack (shelves_of H.tells H.disks H.is_taken H.faults) (length (memories_in self)) shelf.old shelf.new }
    {
        give_back(shelf, self.parts.into_memories());
    }
}
