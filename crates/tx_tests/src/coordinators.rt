use mini_tx::{Item, MiniFault, Vote};
use sfs_base::Seq;
use std::alloc::Global;
use std::test::*;
use tx_coord::{Coordinator, Message, Mini, NoMemory, Outcome, TxId, TxState};

const ID: TxId = TxId {
    coord: 3,
    boot: 5,
    seq: 1,
};

// Reads a byte of a memory node.
fn read_of(memory: u32) -> Item {
    Item::Read {
        memory,
        at: 0,
        length: 1,
    }
}

// A coordinator that runs a minitransaction, which reads a byte of each of two memory nodes.
fn begun(alloc: Global) -> Result<Coordinator, MiniFault> {
    let mut items = Seq::new(alloc);
    items.push(read_of(0))?;
    items.push(read_of(1))?;
    let mini = Mini::new(alloc, items, 2, 1)?;
    let mut coordinator = Coordinator::new(alloc, 3, 5);
    coordinator.begin(mini)?;
    Ok(coordinator)
}

// A vote with one byte, or one that is not Granted.
fn vote(alloc: Global, granted: bool) -> Result<Message, NoMemory> {
    let vote = if granted {
        let mut reads = Seq::new(alloc);
        reads.push(Seq::from_slice(alloc, &[7])?)?;
        Vote::Granted(reads)
    } else {
        Vote::Locked { holder: ID }
    };
    Ok(Message::Voted { id: ID, vote })
}

#[test]
fn votes_of_two_participants_decide(rt: HostRuntime) -> Result<(), Fail> {
    let granted = vote(rt.alloc(), true)?;
    let mut coordinator = begun(rt.alloc())?;
    assert_eq!(rt; coordinator.hear(1, &granted)?.len(), 0);
    assert_eq!(rt; coordinator.hear(1, &granted)?.len(), 0);
    assert_eq!(rt; coordinator.hear(0, &granted)?.len(), 2);
    assert!(rt; matches!(coordinator.state(), TxState::Done(Outcome::Committed(_))));
    Ok(())
}

#[test]
fn a_decision_is_told_until_all_are_through(rt: HostRuntime) -> Result<(), Fail> {
    let alloc = rt.alloc();
    let done = Message::Done { id: ID };
    let mut coordinator = begun(alloc)?;
    assert_eq!(rt; coordinator.resend()?.len(), 2);
    coordinator.hear(1, &vote(alloc, false)?)?;
    coordinator.clear();
    assert_eq!(rt; coordinator.resend()?.len(), 2);
    assert_eq!(rt; coordinator.hear(0, &done)?.len(), 0);
    assert_eq!(rt; coordinator.resend()?.len(), 1);
    assert_eq!(rt; coordinator.hear(1, &done)?.len(), 2);
    assert_eq!(rt; coordinator.resend()?.len(), 0);
    coordinator.give_up();
    assert_eq!(rt; coordinator.state(), &TxState::Idle);
    Ok(())
}
