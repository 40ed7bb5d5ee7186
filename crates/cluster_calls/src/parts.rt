ghost use Rattle.std.specs.Prelude.{◌≡◌};

use crate::giving::give;
use cluster_memories::Memories;
use cluster_parts::Book;
use cluster_seats::{Seats, TxState};
use cluster_steps::Went;
use disk_model::Disk;
use link_model::Link;
use mini_tx::{Geometry4, Mini, Posted, TxId};
use sfs_base::NoMemory;
use std::alloc::Global;

/// The parts of a cluster: memory nodes, the nodes' coordinators, what is counted, and the link.
#[derive(Drop)]
pub struct Parts<D: Disk, L: Link> {
    pub(crate) alloc: Global,
    pub(crate) geometry: Geometry4,
    pub(crate) memories: Memories<D>,
    pub(crate) seats: Seats,
    pub(crate) book: Book,
    pub(crate) link: L,
}

impl<D: Disk, L: Link> Parts<D, L> {
    ghost use Rattle.std.specs.Prelude.{◌<◌, ◌↔◌, ◌^◌, suc, not, IsTrue, None, Some, IfOk, OnOk, length, slice_get};
    ghost use Rattle.mini_tx.specs.declared.posted.Posted.{Posted as PostedOn};
    ghost use Rattle.mini_tx.specs.Minitransactions.{refusal};
    ghost use Rattle.tx_coord.specs.State.{Free, Machine, shown};
    ghost use Rattle.story_rules.specs.Story.{Story};
    ghost use Rattle.story_rules.specs.Steps.{message_at};
    ghost use Rattle.story_laws.specs.Acts.{Begins, Clears, Delivers, GivesUp, Resends};
    ghost use Rattle.gate_log.specs.Log.{end_of};
    ghost use Rattle.mem_node.specs.Node.{log_of};
    ghost use Rattle.cluster_parts.specs.Books.{history_of};
    ghost use Rattle.cluster_parts.specs.Slots.{is_down_in, node_in};
    ghost use Rattle.cluster_memories.specs.Memories.{slots_in};
    ghost use Rattle.cluster_seats.specs.Seats.{nodes_in};
    ghost use Rattle.cluster_steps.specs.Live.{how_of};
    ghost use Rattle.cluster_calls.specs.Known.{image_bytes, vote_at};
    ghost use Rattle.cluster_calls.specs.Parts.{Do, Stands, book_of, geometry_of, link_of, memories_of, nodes_of};

    /// These parts. It takes no memory.
    pub fn new(
        alloc: Global,
        geometry: Geometry4,
        memories: Memories<D>,
        seats: Seats,
        book: Book,
        link: L,
    ) -> Parts<D, L>
        ensures geometry { geometry_of result ≡ geometry }
        ensures memories { memories_of result ≡ slots_in memories }
        ensures nodes { nodes_of result ≡ nodes_in seats }
        ensures book { book_of result ≡ book }
        ensures link { link_of result ≡ link }
    {
        Parts {
            alloc,
            geometry,
            memories,
            seats,
            book,
            link,
        }
    }

    /// Delivers the message of this number, which is there. [`NoMemory`]: there is no memory, or the receiver's
    /// disk is starved.
    pub fn deliver(&mut self, k: u64) -> Result<Went, NoMemory>
        requires there { (p : PostedOn) × ((L.shown (link_of self.old)).there k ≡ Some p) }
        requires life { (L.shown (link_of self.old)).count < 2 ^ 62 }
        requires known { (story : Story) × Stands L.stands self.old story }
        ensures geometry { geometry_of self.new ≡ geometry_of self.old }
        ensures does { IfOk result (λ went. Do D.tells D.history D.health L.stands self.old self.new (Delivers k (how_of went.delivered))) }
        ensures vote { IfOk result (λ went. (story : Story) → Stands L.stands self.old story
            → went.vote ≡ vote_at story (message_at story k) (how_of went.delivered)) }
    {
        match self.link.get(k)? {
            Some(posted) => give(
                &mut self.memories,
                &mut self.seats,
                &mut self.book,
                &mut self.link,
                &posted,
            ),
            None => unreachable!(),
        }
    }

    /// A node that is idle begins a minitransaction, which is one of this cluster. [`NoMemory`]: there is no memory.
    pub fn begin(&mut self, n: u32, mini: Mini) -> Result<(), NoMemory>
        requires there { n < length (nodes_of self.old) }
        requires idle { (c : Machine) → slice_get (nodes_of self.old) n ≡ Some c → c.state.phase ≡ Free }
        requires few { (c : Machine) → slice_get (nodes_of self.old) n ≡ Some c → c.state.begun < 2 ^ 62 }
        requires mini { refusal mini (geometry_of self.old).memories (image_bytes (geometry_of self.old)) ≡ None }
        requires life { (L.shown (link_of self.old)).count < 2 ^ 62 }
        requires known { (story : Story) × Stands L.stands self.old story }
        ensures geometry { geometry_of self.new ≡ geometry_of self.old }
        ensures does { OnOk result (Do D.tells D.history D.health L.stands self.old self.new (Begins n mini)) }
    {
        cluster_steps::begin(
            self.alloc,
            &mut self.seats,
            &mut self.book,
            &mut self.link,
            n,
            mini,
        )
    }

    /// A node posts again what was not answered. [`NoMemory`]: there is no memory.
    pub fn resend(&mut self, n: u32) -> Result<(), NoMemory>
        requires there { n < length (nodes_of self.old) }
        requires life { (L.shown (link_of self.old)).count < 2 ^ 62 }
        ensures geometry { geometry_of self.new ≡ geometry_of self.old }
        ensures does { OnOk result (Do D.tells D.history D.health L.stands self.old self.new (Resends n)) }
    {
        cluster_steps::resend(&self.seats, &mut self.link, n)
    }

    /// A node gives up what runs. It takes no memory.
    pub fn give_up(&mut self, n: u32)
        requires { n < length (nodes_of self.old) }
        ensures geometry { geometry_of self.new ≡ geometry_of self.old }
        ensures does { Do D.tells D.history D.health L.stands self.old self.new (GivesUp n) }
    {
        self.seats.give_up(n);
    }

    /// The outcome of a node was taken. It takes no memory.
    pub fn clear(&mut self, n: u32)
        requires { n < length (nodes_of self.old) }
        ensures geometry { geometry_of self.new ≡ geometry_of self.old }
        ensures does { Do D.tells D.history D.health L.stands self.old self.new (Clears n) }
    {
        self.seats.clear(n);
    }

    /// What a node is at. It takes no memory.
    pub fn state(&self, n: u32) -> &TxState
        requires { n < length (nodes_of self.now) }
        ensures { (c : Machine) → slice_get (nodes_of self.now) n ≡ Some c → result.now ≡ shown c.state.phase }
    {
        self.seats.state(n)
    }

    /// The history, oldest first. It takes no memory.
    pub fn committed(&self) -> &[TxId]
        ensures { result.now ≡ history_of (book_of self.now) }
    {
        self.book.committed()
    }

    /// The link. It takes no memory.
    pub fn link(&self) -> &L
        ensures { result.now ≡ link_of self.now }
    {
        &self.link
    }

    /// Lets a message wait no more, and tells whether it was posted. It takes no memory.
    pub fn lose(&mut self, k: u64) -> bool
        ensures geometry { geometry_of self.new ≡ geometry_of self.old }
        ensures memories { memories_of self.new ≡ memories_of self.old }
        ensures same { (story : Story) → Stands L.stands self.old story → Stands L.stands self.new story }
        ensures posted { (story : Story) → Stands L.stands self.old story
            → IsTrue result ↔ ((0 < k) × (k < suc (length story.posted))) }
    {
        self.link.lose(k)
    }

    /// Whether a memory node runs. It takes no memory.
    pub fn runs(&self, m: u32) -> bool
        requires { m < length (memories_of self.now) }
        ensures { (slot : _) → slice_get (memories_of self.now) m ≡ Some slot → result ≡ not (is_down_in slot) }
    {
        !self.memories.is_down(m)
    }

    /// How far the closed gate of a memory node's log lies from the log's start, in bytes. It takes no memory.
    pub fn log_bytes(&self, m: u32) -> u64
        requires { m < length (memories_of self.now) }
        ensures { (slot : _) → slice_get (memories_of self.now) m ≡ Some slot → result ≡ end_of (log_of (node_in slot)) }
    {
        self.memories.log_bytes(m)
    }
}

impl<D: Disk, L: Link + Drop> Parts<D, L> {
    ghost use Rattle.cluster_memories.specs.Memories.{slots_in};
    ghost use Rattle.cluster_calls.specs.Parts.{memories_of};

    /// The memory nodes. It takes no memory.
    pub fn into_memories(self) -> Memories<D>
        ensures { slots_in result ≡ memories_of self }
    {
        self.memories
    }
}
