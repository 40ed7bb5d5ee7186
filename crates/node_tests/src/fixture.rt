//! What the tests of a memory node share.
ghost use Rattle.std.specs.Prelude.{◌≡◌, ◌<◌, IfOk};
ghost use Rattle.node_tests.specs.Fixture.{pair, AreFitItems};
ghost use Rattle.mem_node.specs.Node.{setup_of};
ghost use Rattle.mem_rules.specs.Fit.{IsFitMessage, IsOfTransactions};

use disk_model::{Calls, Disk, PlanDisk};
use mem_node::{MemNode, NodeFault, Setup};
use mini_tx::{
    Actor, Bytes, Geometry4, Item, Message, NoMemory, Numbers, Placed, PlacedItem, Reads, TxId,
    Vote,
};
use std::alloc::Global;

/// The first memory node of a cluster of two. Its one block begins at 12288.
pub(crate) const SETUP: Setup = Setup {
    geometry: Geometry4 {
        nodes: 2,
        memories: 2,
        blocks: 1,
        inodes: 1,
    },
    index: 0,
};

/// Where its block begins.
const BLOCK_AT: u32 = 12_288;

/// The identifier with this number of the first start of a node.
pub(crate) fn id_of(coord: u32, seq: u64) -> TxId
    ensures { result.coord ≡ coord }
{
    TxId {
        coord,
        boot: 1,
        seq,
    }
}

/// A disk that was never written.
pub(crate) fn blank(alloc: Global) -> PlanDisk {
    PlanDisk::new(alloc, Calls::new(alloc))
}

/// A formatted disk.
pub(crate) fn formatted(alloc: Global) -> Result<PlanDisk, NodeFault> {
    let mut disk = blank(alloc);
    MemNode::format(alloc, &mut disk, SETUP)?;
    Ok(disk)
}

/// The memory node of this disk. Where it is refused the disk is let go.
pub(crate) fn loaded<D: Disk + Drop>(alloc: Global, disk: D) -> Result<MemNode<D>, NodeFault>
    ensures { IfOk result (λ node. setup_of node ≡ pair) }
{
    match MemNode::load(alloc, disk, SETUP) {
        Ok(node) => Ok(node),
        Err((fault, _disk)) => Err(fault),
    }
}

/// What a test asks a memory node to vote on.
#[derive(Clone, Copy, Debug)]
pub(crate) enum Ask {
    /// The first four bytes of the superblock.
    ReadMark,
    /// The first byte of the block.
    ReadBlock,
    /// 7 into the first byte of the block.
    WriteSeven,
}

/// Its items.
fn items_of(alloc: Global, ask: Ask) -> Result<Placed, NoMemory>
    ensures { IfOk result AreFitItems }
{
    let mut items = Placed::new(alloc);
    match ask {
        Ask::ReadMark => items.push(PlacedItem {
            place: 0,
            item: Item::Read {
                memory: 0,
                at: 0,
                length: 4,
            },
        })?,
        Ask::ReadBlock => items.push(PlacedItem {
            place: 0,
            item: Item::Read {
                memory: 0,
                at: BLOCK_AT,
                length: 1,
            },
        })?,
        Ask::WriteSeven => items.push(PlacedItem {
            place: 0,
            item: Item::Write {
                memory: 0,
                at: BLOCK_AT,
                bytes: Bytes::from_slice(alloc, &[7])?,
            },
        })?,
    }
    Ok(items)
}

/// The memory node's answer to a prepare of which both memory nodes are participants.
pub(crate) fn prepare<D: Disk>(
    alloc: Global,
    node: &mut MemNode<D>,
    id: TxId,
    ask: Ask,
) -> Result<Option<Message>, NodeFault>
    requires setup { setup_of node.old ≡ pair }
    requires known { id.coord < 2 }
    ensures { setup_of node.new ≡ pair }
{
    let message = Message::Prepare {
        id,
        participants: Numbers::from_slice(alloc, &[0, 1])?,
        items: items_of(alloc, ask)?,
    };
    node.handle(Actor::Node(0), &message)
}

/// Its answer to a message that names an identifier, or to `list`.
pub(crate) fn tell<D: Disk>(
    node: &mut MemNode<D>,
    message: &Message,
) -> Result<Option<Message>, NodeFault>
    requires setup { setup_of node.old ≡ pair }
    requires fit { IsFitMessage pair message.now }
    requires built { IsOfTransactions message.now }
    ensures { setup_of node.new ≡ pair }
{
    node.handle(Actor::Manager, message)
}

/// That it votes so.
pub(crate) fn voted(id: TxId, vote: Vote) -> Option<Message> {
    Some(Message::Voted { id, vote })
}

/// The vote of a read that found these bytes.
pub(crate) fn granted(alloc: Global, bytes: &[u8]) -> Result<Vote, NoMemory> {
    let mut reads = Reads::new(alloc);
    reads.push(Bytes::from_slice(alloc, bytes)?)?;
    Ok(Vote::Granted(reads))
}
