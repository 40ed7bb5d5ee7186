//! What a load finds after each kind of entry, where the disk stopped after each number of its calls, with each
//! choice of what is there of the bytes that were not safe yet.
ghost use Rattle.std.specs.Prelude.{◌≡◌, ◌≢◌, Some};
ghost use Rattle.disk_model.specs.Stop.{left_of};
ghost use Rattle.node_tests.specs.Fixture.{pair};
ghost use Rattle.mem_node.specs.Node.{node_disk_of, setup_of};

use crate::fixture::{Ask, formatted, id_of, loaded, prepare, tell};
use disk_model::{Choice, Disk, Stop};
use mem_node::{MemNode, NodeFault};
use mini_tx::{Message, TxId};
use std::alloc::Global;
use std::test::*;

/// A step that appends an entry.
#[derive(Clone, Copy, Debug)]
enum Step {
    /// A Granted vote of two participants: its record is kept.
    Vote,
    /// A vote on the byte that another one locks.
    LockedVote,
    /// The record is committed.
    Commit,
    /// The decided record is forgotten.
    Forget,
    /// An unseen identifier is forced to abort.
    Ask,
}

/// The identifier of the record.
fn record() -> TxId
    ensures { result.coord ≡ 0 }
{
    id_of(0, 1)
}

/// Takes the step.
fn take<D: Disk>(
    alloc: Global,
    node: &mut MemNode<D>,
    step: Step,
) -> Result<Option<Message>, NodeFault>
    requires setup { setup_of node.old ≡ pair }
    ensures { setup_of node.new ≡ pair }
{
    match step {
        Step::Vote => prepare(alloc, node, record(), Ask::WriteSeven),
        Step::LockedVote => prepare(alloc, node, id_of(1, 1), Ask::ReadBlock),
        Step::Commit => tell(
            node,
            &Message::Decide {
                id: record(),
                commit: true,
            },
        ),
        Step::Forget => tell(node, &Message::Forget { id: record() }),
        Step::Ask => tell(node, &Message::Ask { id: record() }),
    }
}

/// Takes the steps that come before it.
fn take_earlier<D: Disk>(alloc: Global, node: &mut MemNode<D>, step: Step) -> Result<(), NodeFault>
    requires setup { setup_of node.old ≡ pair }
    ensures { setup_of node.new ≡ pair }
{
    match step {
        Step::Vote | Step::Ask => {}
        Step::LockedVote | Step::Commit => {
            take(alloc, node, Step::Vote)?;
        }
        Step::Forget => {
            take(alloc, node, Step::Vote)?;
            take(alloc, node, Step::Commit)?;
        }
    }
    Ok(())
}

/// Whether a load finds the entry of a step, where so many calls passed in it.
fn is_found(alloc: Global, step: Step, calls: u32, choice: Choice) -> Result<bool, NodeFault> {
    let mut node = loaded(alloc, Stop::new(formatted(alloc)?))?;
    take_earlier(alloc, &mut node, step)?;
    let before = node.log_bytes();
    if node.stopped() {
        return Err(NodeFault::Down);
    }
    node.stop_after(Some(calls));
    let _answer = take(alloc, &mut node, step);
    let mut disk = node.stop();
    disk.restart(choice)?;
    Ok(loaded(alloc, disk)?.log_bytes() > before)
}

/// That for each choice: the old bytes, the new ones, and zeros and ones in their places.
fn found(alloc: Global, step: Step, calls: u32) -> Result<[bool; 4], NodeFault> {
    Ok([
        is_found(alloc, step, calls, Choice::Old)?,
        is_found(alloc, step, calls, Choice::New)?,
        is_found(alloc, step, calls, Choice::Fill(0))?,
        is_found(alloc, step, calls, Choice::Fill(1))?,
    ])
}

/// That where one call passed, two, three, and all four.
fn table(alloc: Global, step: Step) -> Result<[[bool; 4]; 4], NodeFault> {
    Ok([
        found(alloc, step, 1)?,
        found(alloc, step, 2)?,
        found(alloc, step, 3)?,
        found(alloc, step, 4)?,
    ])
}

/// Each step has this table: the entry and its length are written and safe, then its gate.
const TABLE: [[bool; 4]; 4] = [
    [false, false, false, false],
    [false, false, false, false],
    [false, true, false, true],
    [true, true, true, true],
];

#[test]
fn a_load_finds_the_entry_once_its_gate_may_be_there(rt: HostRuntime) -> Result<(), Fail> {
    let alloc = rt.alloc();
    assert_eq!(rt; table(alloc, Step::Vote)?, TABLE);
    assert_eq!(rt; table(alloc, Step::LockedVote)?, TABLE);
    assert_eq!(rt; table(alloc, Step::Commit)?, TABLE);
    assert_eq!(rt; table(alloc, Step::Forget)?, TABLE);
    assert_eq!(rt; table(alloc, Step::Ask)?, TABLE);
    Ok(())
}
