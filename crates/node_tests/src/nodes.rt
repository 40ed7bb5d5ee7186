use crate::fixture::{Ask, blank, formatted, granted, id_of, loaded, prepare, tell, voted};
use mem_node::NodeFault;
use mini_tx::{KeptId, KeptIds, Message, NoMemory, Numbers, Reads, TxId, Vote};
use std::alloc::Global;
use std::test::*;

/// That it keeps these records, each of both memory nodes.
fn kept(alloc: Global, ids: &[TxId]) -> Result<Option<Message>, NoMemory> {
    let mut list = KeptIds::new(alloc);
    for id in ids {
        list.push(KeptId {
            id: *id,
            participants: Numbers::from_slice(alloc, &[0, 1])?,
        })?;
    }
    Ok(Some(Message::Kept {
        ids: list,
        cut: None,
    }))
}

#[test]
fn a_write_is_prepared_locked_and_committed(rt: HostRuntime) -> Result<(), Fail> {
    let alloc = rt.alloc();
    let (write, read) = (id_of(0, 1), id_of(1, 1));
    let mut node = loaded(alloc, formatted(alloc)?)?;
    let wrote = prepare(alloc, &mut node, write, Ask::WriteSeven)?;
    assert_eq!(rt; wrote, voted(write, Vote::Granted(Reads::new(alloc))));
    let locked = prepare(alloc, &mut node, read, Ask::ReadBlock)?;
    assert_eq!(rt; locked, voted(read, Vote::Locked { holder: write }));
    assert_eq!(rt; tell(&mut node, &Message::List)?, kept(alloc, &[write])?);
    let done = tell(
        &mut node,
        &Message::Decide {
            id: write,
            commit: true,
        },
    )?;
    assert_eq!(rt; done, Some(Message::Done { id: write }));
    let later = id_of(1, 2);
    let found = prepare(alloc, &mut node, later, Ask::ReadBlock)?;
    assert_eq!(rt; found, voted(later, granted(alloc, &[7])?));
    assert_eq!(rt; tell(&mut node, &Message::Forget { id: write })?, None);
    let mut node = loaded(alloc, node.stop())?;
    assert_eq!(rt; tell(&mut node, &Message::List)?, kept(alloc, &[later])?);
    Ok(())
}

#[test]
fn what_is_asked_about_unseen_is_forced_to_abort(rt: HostRuntime) -> Result<(), Fail> {
    let alloc = rt.alloc();
    let (unseen, seen) = (id_of(0, 2), id_of(1, 1));
    let mut node = loaded(alloc, formatted(alloc)?)?;
    let abort = tell(&mut node, &Message::Ask { id: unseen })?;
    assert_eq!(rt;
        abort,
        Some(Message::Answer {
            id: unseen,
            ok: false
        })
    );
    let mut node = loaded(alloc, node.stop())?;
    let forced = prepare(alloc, &mut node, unseen, Ask::WriteSeven)?;
    assert_eq!(rt; forced, voted(unseen, Vote::Forced { floor: unseen }));
    prepare(alloc, &mut node, seen, Ask::ReadMark)?;
    let ok = tell(&mut node, &Message::Ask { id: seen })?;
    assert_eq!(rt; ok, Some(Message::Answer { id: seen, ok: true }));
    Ok(())
}

#[test]
fn a_disk_that_was_never_formatted_is_refused(rt: HostRuntime) -> Result<(), Fail> {
    let alloc = rt.alloc();
    assert_eq!(rt; loaded(alloc, blank(alloc)).err(), Some(NodeFault::Other));
    Ok(())
}

#[test]
fn a_vote_is_told_by_its_identifier(rt: HostRuntime) -> Result<(), Fail> {
    let alloc = rt.alloc();
    let mut node = loaded(alloc, formatted(alloc)?)?;
    prepare(alloc, &mut node, id_of(0, 1), Ask::WriteSeven)?;
    assert!(rt; !node.starved());
    assert!(rt; node.vote(id_of(0, 1)).is_some());
    Ok(())
}

#[test]
fn faults_are_printed_in_words(rt: HostRuntime) -> Result<(), Fail> {
    let damaged = NodeFault::Damaged { at: 6 };
    assert_eq!(rt;
        format!(in rt.alloc(); "{damaged}")?.as_str(),
        "the log is damaged at 6"
    );
    Ok(())
}
