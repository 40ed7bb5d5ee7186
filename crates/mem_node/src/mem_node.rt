ghost use Rattle.std.specs.Prelude.{◌≡◌, false, None};
ghost use Rattle.gate_log.specs.Log.{has_failed};

use crate::fresh_node::{fresh_node, lay_fresh};
use crate::load::read_stored;
use crate::load_log::load_log;
use crate::node_fault::NodeFault;
use crate::shut::Shut;
use disk_model::{Disk, Stop};
use gate_log::Log;
use mem_rules::{Memory, Reaction, Setup, names_are_typed};
use mini_tx::{Actor, Entry, Message, TxId, Vote, write_entry};
use std::alloc::Global;

/// A memory node: a participant with its redo log.
#[derive(Drop)]
pub struct MemNode<D: Disk> {
    pub(crate) alloc: Global,
    pub(crate) memory: Memory,
    pub(crate) log: Log<D>,
    /// Why it answers nothing until it is loaded again.
    pub(crate) shut: Option<Shut>,
    ghost ready: { shut ≡ None → has_failed log ≡ false },
}

impl<D: Disk> MemNode<D> {
    ghost use Rattle.std.specs.Prelude.{◌≤◌, ◌&&◌, [], ◌∷◌, Some, IfOk, IfErr, OnOk, IsErrOf};
    ghost use Rattle.disk_model.specs.Calls.{IsReady};
    ghost use Rattle.disk_model.specs.Crash.{LeavesOnly};
    ghost use Rattle.disk_model.specs.Health.{Fell, IsLive, Passed, Speaks};
    ghost use Rattle.mem_node.specs.Format.{IsFresh, IsFormatting, IsFormatFault, IsFreshFault};
    ghost use Rattle.mini_tx.specs.FreshImages.{fresh_image};
    ghost use Rattle.mem_rules.specs.State.{opened};
    ghost use Rattle.node_disk.specs.Header.{IsFormatted};
    ghost use Rattle.mem_node.specs.Disk.{IsLoadFault, IsBroken};
    ghost use Rattle.mini_tx.specs.EntryGrammar.{FitsEntry};
    ghost use Rattle.std.specs.Prelude.{◌<◌};
    ghost use Rattle.std.specs.Option.{option_copied};
    ghost use Rattle.mem_rules.specs.Fit.{IsSetup, IsFit, IsFitMessage, IsOfCluster, IsOfTransactions};
    ghost use Rattle.mem_rules.specs.Memory.{vote_of};
    ghost use Rattle.mem_rules.specs.Reactions.{IsFitNext};
    ghost use Rattle.mem_rules.specs.Rules.{react};
    ghost use Rattle.mem_node.specs.Fault.{shut_fault};
    ghost use Rattle.gate_log.specs.Log.{end_of};
    ghost use Rattle.mem_node.specs.Node.{log_of, setup_of, node_state_of, node_of, node_disk_of, shut_of, IsOnDisk, Handles};

    /// Formats the disk of a memory node: the fresh image, the header and a log without entries, between a
    /// mark that is taken away before and set after them, each step safe before the next. A crash in it
    /// leaves a disk that is as it was but for its mark, one that is not formatted, or a fresh one. Nothing
    /// may be pending on the disk. [`NodeFault::Down`]: the disk failed. [`NodeFault::NoMemory`]: there is
    /// no memory, and the disk is as it was.
    pub fn format(alloc: Global, disk: &mut D, setup: Setup) -> Result<(), NodeFault>
        requires { IsSetup setup }
        ensures fresh { OnOk result (IsReady D.tells D.history D.health disk.old
            → IsFresh setup (D.history disk.new).now.content × IsReady D.tells D.history D.health disk.new) }
        ensures any_moment { IsReady D.tells D.history D.health disk.old
            → LeavesOnly (D.history disk.old) (D.history disk.new)
            (IsFormatting setup (D.history disk.old).now.content) }
        ensures still { Speaks D.tells D.health disk.old → D.tells disk.new }
        ensures refused { IfErr result (λ fault. IsFormatFault fault
            (Fell 8 (D.health disk.old) (D.health disk.new)) (disk.new ≡ disk.old)) }
        ensures passed { OnOk result (Passed 8 (D.health disk.old) (D.health disk.new)) }
        ensures live { OnOk result (IsLive 8 (D.health disk.old)) }
    {
        lay_fresh(alloc, disk, setup)
    }

    /// Formats the disk of a memory node, and gives the memory node: it has the fresh image, and no record.
    /// Nothing may be pending on the disk. A refused call hands the disk back. [`NodeFault::Down`]: the disk
    /// failed. [`NodeFault::Damaged`]: the disk does not have what was written. [`NodeFault::NoMemory`]: there is no memory.
    pub fn fresh(alloc: Global, disk: D, setup: Setup) -> Result<MemNode<D>, (NodeFault, D)>
        requires { IsSetup setup }
        ensures state { IfOk result (λ node. node_state_of node
            ≡ opened setup.geometry.nodes (fresh_image setup.geometry setup.index)) }
        ensures setup { IfOk result (λ node. setup_of node ≡ setup) }
        ensures running { IfOk result (λ node. shut_of node ≡ None) }
        ensures sound { IfOk result (λ node. IsReady D.tells D.history D.health disk
            → IsOnDisk D.tells D.history D.health node) }
        ensures told { IfErr result (λ refusal. Speaks D.tells D.health disk → D.tells refusal.1) }
        ensures refused { IfErr result (λ refusal. IsFreshFault refusal.0
            (Fell 8 (D.health disk) (D.health refusal.1))) }
    {
        fresh_node(alloc, disk, setup)
    }

    /// The memory node of this disk: its stored image, with all that its log made of it. Nothing may be
    /// pending on the disk. A refused call hands the disk back. [`NodeFault::Down`]: the disk failed.
    /// [`NodeFault::Other`]: the disk is not formatted, or its header is that of another memory node or
    /// cluster. [`NodeFault::Damaged`]: the log is damaged, or has an entry that is none or that this
    /// memory node cannot have written behind those before it; `at` is the place of the first such gate. [`NodeFault::NoMemory`]: there is no memory.
    pub fn load(alloc: Global, disk: D, setup: Setup) -> Result<MemNode<D>, (NodeFault, D)>
        requires { IsSetup setup }
        // It has what the log that is found makes of the stored image.
        ensures sound { IfOk result (λ node. IsReady D.tells D.history D.health disk
            → IsOnDisk D.tells D.history D.health node) }
        ensures setup { IfOk result (λ node. setup_of node ≡ setup) }
        ensures running { IfOk result (λ node. shut_of node ≡ None) }
        ensures refused { IfErr result (λ refusal. IsLoadFault refusal.0
            (Fell 0 (D.health disk) (D.health refusal.1)) (Passed 0 (D.health disk) (D.health refusal.1))
            (Speaks D.tells D.health disk → IsFormatted setup (D.history disk).now.content → ⊥)
            (λ at. IsReady D.tells D.history D.health disk → IsBroken setup (D.history disk).now.content at)) }

        // The disk is as it was, so a crash at any moment leaves what it left before.
        ensures same { IfOk result (λ node. Speaks D.tells D.health disk
            → D.tells (node_disk_of node) × (D.history (node_disk_of node) ≡ D.history disk)) }
        ensures same_err { IfErr result (λ refusal. Speaks D.tells D.health disk
            → D.tells refusal.1 × (D.history refusal.1 ≡ D.history disk)) }
        ensures passed { IfOk result (λ node. Passed 0 (D.health disk) (D.health (node_disk_of node))) }
        ensures live { OnOk result (IsLive 0 (D.health disk)) }
    {
        let mut disk = disk;
        match read_stored(alloc, &mut disk, setup) {
            Ok(stored) => load_log(alloc, disk, setup, stored),
            Err(fault) => Err((fault, disk)),
        }
    }

    /// The disk. It takes no memory.
    pub fn stop(self) -> D
        ensures { result ≡ node_disk_of self }
    {
        self.log.into_disk()
    }

    /// Whether the disk once found no memory. It takes no memory.
    pub fn starved(&self) -> bool
        ensures { result ≡ (D.health (node_disk_of self.now)).is_starved }
    {
        self.log.starved()
    }

    /// How far the closed gate of its log lies from the log's start, in bytes. It takes no memory.
    pub fn log_bytes(&self) -> u64
        ensures { result ≡ end_of (log_of self.now) }
    {
        self.log.len()
    }

    /// The vote on an identifier of which a record is kept, or which is the floor of its coordinator. It takes
    /// no memory.
    pub fn vote(&self, id: TxId) -> Option<&Vote>
        requires { id.coord < (setup_of self.now).geometry.nodes }
        ensures { option_copied result ≡ vote_of (node_state_of self.now) id }
    {
        self.memory.vote(id)
    }

    /// What the memory node does with a message (`docs/PROMISES.md`, "A memory node"): its answer, where it
    /// has one. An answer that has an entry leaves only once that entry is safe. The message and its sender
    /// are of this cluster, and the message is none about cuts. One that is for another actor changes nothing
    /// and has no answer. [`NodeFault::Down`]: the disk failed. [`NodeFault::Full`]: the entry would end past
    /// the log's limit. After these two the same is answered until the memory node is loaded again.
    /// [`NodeFault::NoMemory`]: there is no memory; nothing was done, and all is as before.
    pub fn handle(&mut self, from: Actor, message: &Message) -> Result<Option<Message>, NodeFault>
        requires sender { IsOfCluster (setup_of self.old).geometry from }
        requires fit { IsFitMessage (setup_of self.old) message.now }
        requires built { IsOfTransactions message.now }
        ensures answer { IfOk result (λ answer. answer ≡ (react (node_of self.old) message.now).answer) }
        ensures handled { Handles D.tells D.history D.health self.old self.new
            (react (node_of self.old) message.now).entry result }
        ensures shut { (shut : _) → shut_of self.old ≡ Some shut
            → IsErrOf result (shut_fault shut) × (self.new ≡ self.old) }
    {
        let _from = from;
        if let Some(shut) = self.shut {
            return Err(shut.fault());
        }
        let reaction = self.memory.react(message)?;
        self.carry_out(reaction)
    }

    /// Appends the entry of a reaction, and gives its answer once the entry is safe.
    fn carry_out(&mut self, reaction: Reaction) -> Result<Option<Message>, NodeFault>
        requires running { shut_of self.old ≡ None }
        requires fit { IsFitNext (setup_of self.old) (node_state_of self.old) reaction.entry }
        ensures answer { IfOk result (λ answer. answer ≡ reaction.answer) }
        ensures handled { Handles D.tells D.history D.health self.old self.new reaction.entry result }
    {
        let Reaction { entry, answer } = reaction;
        match entry {
            Some(entry) => self.log_entry(entry, answer),
            None => Ok(answer),
        }
    }

    /// Appends an entry, takes it once it is safe, and then gives the answer. The memory that it will need is
    /// taken before. Where the log refuses it, nothing more is answered.
    fn log_entry(
        &mut self,
        entry: Entry,
        answer: Option<Message>,
    ) -> Result<Option<Message>, NodeFault>
        requires running { shut_of self.old ≡ None }
        requires fit { IsFit (setup_of self.old) (node_state_of self.old) entry }
        requires spelled { FitsEntry entry }
        ensures answer { IfOk result (λ given. given ≡ answer) }
        ensures handled { Handles D.tells D.history D.health self.old self.new (Some entry) result }
    {
        names_are_typed(&entry);
        let room = self.memory.reserve(&entry)?;
        let bytes = write_entry(self.alloc, &entry)?;
        if let Err(fault) = self.log.append(&bytes) {
            self.shut = Shut::by(fault);
            return Err(NodeFault::from(fault));
        }
        self.memory.settle(entry, room);
        Ok(answer)
    }
}

impl<D: Disk> MemNode<Stop<D>> {
    ghost use Rattle.std.specs.Prelude.{◌≢◌, ◌↔◌, Some, IsTrue};
    ghost use Rattle.disk_model.specs.Stop.{left_of};
    ghost use Rattle.mem_node.specs.Node.{log_of, node_disk_of, node_of, setup_of, shut_of};

    /// From now on this many writes and syncs pass to the disk below, or all of them. It takes no memory.
    pub fn stop_after(&mut self, calls: Option<u32>)
        requires { left_of (node_disk_of self.old) ≢ Some 0 }
        ensures node { node_of self.new ≡ node_of self.old }
        ensures setup { setup_of self.new ≡ setup_of self.old }
        ensures shut { shut_of self.new ≡ shut_of self.old }
        ensures log { log_of self.new
            ≡ record (log_of self.old) { disk = record (node_disk_of self.old) { left = calls } } }
    {
        self.log.stop_after(calls);
    }

    /// Whether the stated number of writes and syncs has returned, so that calls are refused until the
    /// disk is restarted. It takes no memory.
    pub fn stopped(&self) -> bool
        ensures { IsTrue result ↔ (left_of (node_disk_of self.now) ≡ Some 0) }
    {
        self.log.stopped()
    }
}
