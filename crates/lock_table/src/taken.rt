ghost use Rattle.std.specs.Prelude.{◌≡◌, ◌≤◌, ◌<◌, ◌+◌, vec_len, vec_capacity};
ghost use Rattle.lock_table.specs.Locked.{IsLine, IsLeft, IsTakenOut, IsSpanFreeFor, IsSpanLocked};

use crate::lock::Lock;
use crate::span::Span;
use crate::window::{hull, window};
use mini_tx::TxId;

/// Drops so many locks from a number on.
fn remove_all(locks: &mut Vec<Lock>, from: usize, count: usize)
    requires { from + count ≤ vec_len locks.old }
    ensures left { IsLeft locks.old.items locks.new.items from count }
    ensures fewer { vec_len locks.new ≤ vec_len locks.old }
    ensures capacity { vec_capacity locks.new ≡ vec_capacity locks.old }
{
    for _ in 0..count {
        locks.remove(from);
    }
}

/// Takes out the locks that have places of a span. Gives the number at which they stood, and the span from
/// the first place of it and them to the last.
pub(crate) fn take_out(locks: &mut Vec<Lock>, span: Span) -> (usize, Span)
    requires line { IsLine locks.old.items }
    requires some { span.at < span.end }
    ensures taken { IsTakenOut locks.old.items locks.new.items span result.0 result.1 }
    ensures line { IsLine locks.new.items }
    ensures bound { result.0 ≤ vec_len locks.new }
    ensures fewer { vec_len locks.new ≤ vec_len locks.old }
    ensures capacity { vec_capacity locks.new ≡ vec_capacity locks.old }
{
    let (from, to) = window(locks, span);
    let hull = hull(span, &locks[from..to]);
    remove_all(locks, from, to - from);
    (from, hull)
}

/// Locks a span for an identifier; no other locks a place of it. There is room for it.
pub(crate) fn lock_one(locks: &mut Vec<Lock>, holder: TxId, span: Span)
    requires line { IsLine locks.old.items }
    requires some { span.at < span.end }
    requires free { IsSpanFreeFor locks.old.items holder span }
    requires room { vec_len locks.old < vec_capacity locks.old }
    ensures line { IsLine locks.new.items }
    ensures locked { IsSpanLocked locks.old.items locks.new.items holder span }
    ensures more { vec_len locks.new ≤ vec_len locks.old + 1 }
    ensures capacity { vec_capacity locks.old ≤ vec_capacity locks.new }
{
    let (at, span) = take_out(locks, span);
    let inserted = locks.insert(at, Lock { holder, span });
    inserted.unwrap();
}
