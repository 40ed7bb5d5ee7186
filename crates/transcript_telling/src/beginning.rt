//! An event that begins.
ghost use Rattle.std.specs.Prelude.{◌≡◌, ◌+◌, ◌<◌, ◌^◌, [], OnOk};
ghost use Rattle.transcript_book.specs.Sayings.{AreSaid};
ghost use Rattle.transcript_telling.specs.Tellings.{begun_by, came_by, delivered_by, opened_by};

use crate::tell::fall;
use event_text::Event;
use nfs_proto::Stamp;
use sfs_base::{Bytes, NoMemory};
use std::alloc::Global;
use transcript_book::Said;
use transcript_facts::{Facts, Now};
use transcript_rules::Arrival;

/// The next event begins: so much of the schedule is used up with it, and no line stands under it. It takes no memory.
pub fn begin(alloc: Global, facts: &mut Facts, taken: usize, drained: u32, now: Now)
    requires { facts.old.under + 1 < 2 ^ 64 }
    ensures begins { facts.new ≡ opened_by facts.old taken drained now facts.new.said }
    ensures none { AreSaid [] facts.new.said }
{
    facts.taken = taken;
    facts.drained = drained;
    facts.event = now;
    facts.under += 1;
    facts.said = Said::new(alloc);
}

/// What an event does by itself. [`NoMemory`]: there is no memory for it, and what is told is not said.
pub fn happen(facts: &mut Facts, event: &Event) -> Result<(), NoMemory>
    ensures { OnOk result (facts.new ≡ begun_by facts.old event.now) }
{
    match event {
        Event::Arrive {
            node,
            sec,
            usec,
            bytes,
        } => come(
            facts,
            *node,
            Stamp {
                sec: *sec,
                usec: *usec,
            },
            bytes,
        )?,
        Event::Deliver { k, .. } => deliver(facts, *k),
        Event::Lose { k } => facts.mail.leave_out(*k),
        Event::Crash { who } => fall(facts, *who)?,
        Event::Start { who, .. } => facts.down.rise(*who),
        Event::Backup => facts.backups.begin()?,
        Event::Cluster { .. }
        | Event::Drain { .. }
        | Event::GiveUp { .. }
        | Event::Resend { .. }
        | Event::Sweep { .. }
        | Event::Checkpoint { .. }
        | Event::Show { .. }
        | Event::End => (),
    }
    Ok(())
}

// Message `k` is delivered.
fn deliver(facts: &mut Facts, k: u64)
    ensures { facts.new ≡ delivered_by facts.old k }
{
    facts.mail.deliver(k, facts.under, facts.down.as_slice());
}

// A datagram comes to a node.
fn come(facts: &mut Facts, node: u32, moment: Stamp, bytes: &Bytes) -> Result<(), NoMemory>
    ensures { OnOk result (facts.new ≡ came_by facts.old node moment bytes.now) }
{
    facts.arrivals.arrive(Arrival {
        node,
        moment,
        bytes: bytes.clone()?,
        points: facts.points,
        under: facts.under,
        point: None,
        ended: None,
    })
}
