use crate::start_choice::StartChoice;
use mini_tx::Actor;
use sfs_base::Bytes;

/// An event of a schedule, a line each.
#[derive(Clone, Debug, PartialEq, Eq, Drop)]
pub enum Event {
    /// The first line: how many nodes, memory nodes, blocks of each memory node and inodes of each
    /// memory node the cluster has.
    Cluster {
        nodes: u32,
        memories: u32,
        blocks: u32,
        inodes: u32,
    },
    /// A datagram comes to a node at a moment, in seconds and microseconds.
    Arrive {
        node: u32,
        sec: u32,
        usec: u32,
        bytes: Bytes,
    },
    /// Message `k` is handled by its receiver. With a stop, that is a memory node, which stops just after so many of
    /// its writes and syncs.
    Deliver {
        k: u64,
        stop: Option<u32>,
    },
    /// So many times the least message that is neither delivered nor lost is delivered, if there is one.
    Drain {
        count: u32,
    },
    /// Message `k` is left out by drains.
    Lose {
        k: u64,
    },
    /// A node ends what it runs, or the manager its backup.
    GiveUp {
        who: Actor,
    },
    /// A node or the manager posts its unanswered messages again.
    Resend {
        who: Actor,
    },
    /// An actor loses all that is not on its disk.
    Crash {
        who: Actor,
    },
    /// An actor starts from its disk. Of a memory node's disk the choice says what it holds; others take
    /// [`StartChoice::Old`].
    Start {
        who: Actor,
        choice: StartChoice,
    },
    /// The manager asks a memory node what it keeps.
    Sweep {
        memory: u32,
    },
    /// A memory node writes a checkpoint.
    Checkpoint {
        memory: u32,
    },
    /// A backup begins.
    Backup,
    /// The archive of a backup is read and mounted.
    Show {
        number: u32,
    },
    /// The schedule ends.
    End,
}
