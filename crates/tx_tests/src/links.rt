use link_model::{Actor, Link, LocalLink, Posted, SimLink};
use mini_tx::{Message, TxId};
use std::test::*;

// A message about a minitransaction of node 0 with this number.
fn ask(seq: u64) -> Message {
    Message::Ask {
        id: TxId {
            coord: 0,
            boot: 1,
            seq,
        },
    }
}

#[test]
fn messages_of_a_simulated_link_stay(rt: HostRuntime) -> Result<(), Fail> {
    let mut link = SimLink::new(rt.alloc());
    assert_eq!(rt; link.lowest(), None);
    assert_eq!(rt; link.post(Actor::Manager, Actor::Memory(0), ask(1))?, 1);
    assert_eq!(rt; link.post(Actor::Manager, Actor::Memory(1), ask(2))?, 2);
    let first = Posted {
        from: Actor::Manager,
        to: Actor::Memory(0),
        message: ask(1),
    };
    assert_eq!(rt; link.peek(1), Some(&first));
    assert!(rt; link.get(1)? == Some(first));
    assert_eq!(rt; link.lowest(), Some(2));
    assert!(rt; link.get(1)?.is_some());
    assert!(rt; link.get(3)?.is_none());
    assert!(rt; link.lose(2));
    assert!(rt; !link.lose(3));
    assert_eq!(rt; link.lowest(), None);
    assert!(rt; link.get(2)?.is_some());
    Ok(())
}

#[test]
fn a_local_link_gives_each_message_once(rt: HostRuntime) -> Result<(), Fail> {
    let mut link = LocalLink::new(rt.alloc());
    assert_eq!(rt; link.post(Actor::Manager, Actor::Memory(0), ask(1))?, 1);
    assert_eq!(rt; link.post(Actor::Manager, Actor::Memory(0), ask(2))?, 2);
    assert!(rt; link.lose(2));
    assert_eq!(rt; link.lowest(), Some(1));
    assert!(rt; link.get(2)?.is_some());
    assert!(rt; link.get(2)?.is_none());
    assert!(rt; link.get(1)?.is_some());
    assert!(rt; link.peek(1).is_none());
    assert_eq!(rt; link.lowest(), None);
    Ok(())
}
