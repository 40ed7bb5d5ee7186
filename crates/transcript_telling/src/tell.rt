//! The lines under an event.
ghost use Rattle.std.specs.Prelude.{◌≡◌, ◌∷◌, ◌++◌, ◌+◌, ◌<◌, ◌≤◌, ◌^◌, [], OnOk};
ghost use Rattle.std.specs.List.{All};
ghost use Rattle.transcript_rules.specs.declared.post.Post.{Post as APost};
ghost use Rattle.transcript_rules.specs.Book.{with_numbered};
ghost use Rattle.transcript_rules.specs.Next.{retried_as, with_end, with_point};
ghost use Rattle.transcript_telling.specs.Tellings.{Notes, ended_by, fallen_by, posted_by, resends, told_by};

use line_text::{Line, RetryWhy, SentKind};
use mini_tx::Actor;
use sfs_base::NoMemory;
use transcript_facts::{Facts, Now};
use transcript_rules::{Ended, Post};

/// A line stands under the event, and tells what it does; what it makes of the trees, and what lines of a listing are owed,
/// is told elsewhere. [`NoMemory`]: there is no memory for it, and what is told is not said.
pub fn note(facts: &mut Facts, line: &Line) -> Result<(), NoMemory>
    requires posts { All (λ (p : APost). p.under ≤ facts.old.under) facts.old.mail }
    requires points { facts.old.points + 1 < 2 ^ 64 }
    ensures { OnOk result (Notes facts.old line.now facts.new) }
{
    facts.said.say(line)?;
    tell(facts, line)
}

// What a line under an event, or the last line, tells by itself.
fn tell(facts: &mut Facts, line: &Line) -> Result<(), NoMemory>
    requires posts { All (λ (p : APost). p.under ≤ facts.old.under) facts.old.mail }
    requires points { facts.old.points + 1 < 2 ^ 64 }
    ensures { OnOk result (facts.new ≡ told_by facts.old line.now) }
{
    match line {
        Line::Down { who, .. } => fall(facts, *who)?,
        Line::Point { point, arrival, .. } => tell_point(facts, *point, u64::from(*arrival)),
        Line::Sent {
            from,
            to,
            words,
            ..
        } => tell_sent(facts, *from, *to, *words)?,
        Line::Reply { arrival, .. } => end(facts, u64::from(*arrival), Ended::Replied),
        Line::Retry { arrival, why } => end(facts, u64::from(*arrival), retried_as(*why)),
        Line::Dropped { arrival, .. } => end(facts, u64::from(*arrival), Ended::Dropped),
        Line::Cut { number, at } => facts.backups.cut(u64::from(*number), *at),
        Line::BackupDone { number } => facts.backups.end(u64::from(*number)),
        Line::RetryBackup { number, .. } => facts.backups.give_up(u64::from(*number)),
        Line::Refused { .. } | Line::End => facts.closed = true,
        Line::DoArrive { .. }
        | Line::DoEvent(_)
        | Line::Lost { .. }
        | Line::Mounted { .. }
        | Line::Listed(_)
        | Line::MountFailed { .. }
        | Line::MountBad { .. } => (),
    }
    Ok(())
}

/// An actor goes down. [`NoMemory`]: there is no memory for it, and what is told is not said.
pub(crate) fn fall(facts: &mut Facts, who: Actor) -> Result<(), NoMemory>
    ensures { OnOk result (facts.new ≡ fallen_by facts.old who) }
{
    facts.down.fall(who)?;
    match who {
        Actor::Node(node) => facts.arrivals.node_down(node),
        Actor::Memory(_) => (),
        Actor::Manager => facts.backups.give_up(facts.backups.len() as u64),
    }
    Ok(())
}

// An arrival made the next change.
fn tell_point(facts: &mut Facts, point: u64, arrival: u64)
    requires { facts.old.points + 1 < 2 ^ 64 }
    ensures { facts.new ≡ record facts.old { points = facts.old.points + 1; arrivals = with_numbered facts.old.arrivals arrival (with_point point) } }
{
    facts.points += 1;
    facts.arrivals.change(arrival, point);
}

// A message is posted.
fn tell_sent(facts: &mut Facts, from: Actor, to: Actor, words: SentKind) -> Result<(), NoMemory>
    requires { All (λ (p : APost). p.under ≤ facts.old.under) facts.old.mail }
    ensures { OnOk result (facts.new ≡ posted_by facts.old from to words) }
{
    facts.mail.post(Post {
        from,
        to,
        words,
        under: facts.under,
        again: resends(facts.event),
        waits: true,
        heard: 0,
    })
}

// Whether messages are posted again.
fn resends(now: Now) -> bool
    ensures { result ≡ resends now }
{
    matches!(now, Now::Resend)
}

// An arrival ends so.
fn end(facts: &mut Facts, number: u64, how: Ended)
    ensures { facts.new ≡ ended_by facts.old number how }
{
    facts.arrivals.end(number, how);
}

// How an arrival ends that has no reply after it ran.
fn retried_as(why: RetryWhy) -> Ended
    ensures { result ≡ retried_as why }
{
    match why {
        RetryWhy::Unreached => Ended::GivenUp,
        _ => Ended::Retried,
    }
}
