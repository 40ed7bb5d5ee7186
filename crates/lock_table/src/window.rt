ghost use Rattle.std.specs.Prelude.{◌≡◌, ◌<◌, ◌≤◌, length};
ghost use Rattle.lock_table.specs.Order.{least_among};
ghost use Rattle.lock_table.specs.Spans.{hull};
ghost use Rattle.lock_table.specs.Locked.{IsLine, IsEndedBy, IsBegunBy, IsWindow};

use crate::lock::Lock;
use crate::order::lesser;
use crate::span::Span;
use mini_tx::TxId;

/// How many locks end at a place or before it.
fn ended_by(locks: &[Lock], place: u64) -> usize
    requires { IsLine locks.now }
    ensures place { IsEndedBy locks.now place result }
    ensures bound { result ≤ length locks.now }
{
    locks.partition_point(|lock| lock.span.end <= place)
}

/// How many locks begin before a place.
fn begun_by(locks: &[Lock], place: u64) -> usize
    requires { IsLine locks.now }
    ensures place { IsBegunBy locks.now place result }
    ensures bound { result ≤ length locks.now }
{
    locks.partition_point(|lock| lock.span.at < place)
}

/// Which locks have places of a span: from the first number on, and below the second.
pub(crate) fn window(locks: &[Lock], span: Span) -> (usize, usize)
    requires line { IsLine locks.now }
    requires some { span.at < span.end }
    ensures { IsWindow locks.now span result.0 result.1 }
{
    (ended_by(locks, span.at), begun_by(locks, span.end))
}

/// From the first place of a span and these locks to the last.
pub(crate) fn hull(span: Span, locks: &[Lock]) -> Span
    ensures { result ≡ hull span locks.now }
{
    let mut whole = span;
    for lock in locks {
        whole = whole.joined(lock.span);
    }
    whole
}

/// The least of an identifier and the holders of these locks.
pub(crate) fn least_among(least: Option<TxId>, locks: &[Lock]) -> Option<TxId>
    ensures { result ≡ least_among least locks.now }
{
    let mut found = least;
    for lock in locks {
        found = Some(lesser(found, lock.holder));
    }
    found
}
