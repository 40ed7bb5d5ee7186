ghost use Rattle.std.specs.Prelude.{◌≤◌, ◌+◌, All, length, vec_len, vec_capacity};
ghost use Rattle.lock_table.specs.Order.{IsLeastIn};
ghost use Rattle.lock_table.specs.Spans.{IsNonempty};
ghost use Rattle.lock_table.specs.Locked.{IsLine, Blocks, IsFreeFor, IsWhole, IsLockedBeside, IsFreed};

use crate::lock::Lock;
use crate::span::Span;
use crate::taken::{lock_one, take_out};
use crate::window::{least_among, window};
use mini_tx::{Range, TxId};

/// The least identifier that locks a place of these ranges.
pub(crate) fn least_holder(locks: &[Lock], ranges: &[Range]) -> Option<TxId>
    requires line { IsLine locks.now }
    requires some { All IsNonempty ranges.now }
    ensures { IsLeastIn (Blocks locks.now ranges.now) result }
{
    let mut least = None;
    for range in ranges {
        let (from, to) = window(locks, Span::of(*range));
        least = least_among(least, &locks[from..to]);
    }
    least
}

/// Locks ranges for an identifier; no other locks a place of them. There is room for them.
pub(crate) fn lock_all(locks: &mut Vec<Lock>, holder: TxId, ranges: &[Range])
    requires line { IsLine locks.old.items }
    requires some { All IsNonempty ranges.now }
    requires free { IsFreeFor locks.old.items holder ranges.now }
    requires room { vec_len locks.old + length ranges.now ≤ vec_capacity locks.old }
    ensures line { IsLine locks.new.items }
    ensures locked { IsLockedBeside locks.old.items locks.new.items holder ranges.now }
{
    for range in ranges {
        lock_one(locks, holder, Span::of(*range));
    }
}

/// Frees the places that an identifier locks, which are those of these ranges.
pub(crate) fn free_all(locks: &mut Vec<Lock>, holder: TxId, ranges: &[Range])
    requires line { IsLine locks.old.items }
    requires some { All IsNonempty ranges.now }
    requires free { IsFreeFor locks.old.items holder ranges.now }
    requires whole { IsWhole locks.old.items holder ranges.now }
    ensures line { IsLine locks.new.items }
    ensures freed { IsFreed locks.old.items locks.new.items holder }
{
    let _holder = holder;
    for range in ranges {
        take_out(locks, Span::of(*range));
    }
}
