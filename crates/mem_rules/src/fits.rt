ghost use Rattle.std.specs.Prelude.{◌≡◌, ◌<◌, ◌≤◌, ◌↔◌, ℕ, ◌^◌, length, All, IsTrue, IfSome, IfNone};
ghost use Rattle.mem_rules.specs.Fit.{IsInside, IsWriteInside, IsRangeInside, IsCovered, IsIn};

use mini_tx::{Range, WriteAt};

/// Whether so many bytes from a place on are some, and end within the image.
fn is_inside(size: usize, at: u32, bytes: usize) -> bool
    ensures { IsTrue result ↔ IsInside size at bytes }
{
    let at = at as usize;
    bytes >= 1 && at <= size && bytes <= size - at
}

/// Whether all writes lie within an image of this size.
pub(crate) fn lie_inside(size: usize, writes: &[WriteAt]) -> bool
    ensures { IsTrue result ↔ All (IsWriteInside size) writes.now }
{
    writes
        .iter()
        .all(|write| is_inside(size, write.at, write.bytes.len()))
}

/// Whether all ranges do.
pub(crate) fn ranges_lie_inside(size: usize, ranges: &[Range]) -> bool
    ensures { IsTrue result ↔ All (IsRangeInside size) ranges.now }
{
    ranges
        .iter()
        .all(|range| is_inside(size, range.at, range.length as usize))
}

/// Whether all numbers lie below a limit.
pub(crate) fn are_below(limit: u32, numbers: &[u32]) -> bool
    ensures { IsTrue result ↔ All (λ n. n < limit) numbers.now }
{
    numbers.iter().all(|number| *number < limit)
}

/// The end of a range that has this place; None exactly where none has it.
fn end_of_range_at(ranges: &[Range], place: usize) -> Option<usize>
    requires { place < 2 ^ 33 }
    ensures some { IfSome result (λ end. (place < end) × ((p : ℕ) → place ≤ p → p < end → IsIn ranges.now p)) }
    ensures none { IfNone result (IsIn ranges.now place → ⊥) }
{
    for range in ranges {
        let start = range.at as usize;
        let end = start + range.length as usize;
        if start <= place && place < end {
            return Some(end);
        }
    }
    None
}

/// Whether each byte of a write lies in one of the ranges.
fn is_covered(ranges: &[Range], write: &WriteAt) -> bool
    requires { length write.now.bytes < 2 ^ 32 }
    ensures { IsTrue result ↔ IsCovered ranges.now write.now }
{
    let start = write.at as usize;
    let end = start + write.bytes.len();
    let mut place = start;
    for _place in start..end {
        if place >= end {
            return true;
        }
        match end_of_range_at(ranges, place) {
            Some(next) => place = next,
            None => return false,
        }
    }
    true
}

/// Whether each byte of all writes does.
pub(crate) fn are_covered(ranges: &[Range], writes: &[WriteAt]) -> bool
    requires { All (λ (w : _). length w.bytes < 2 ^ 32) writes.now }
    ensures { IsTrue result ↔ All (IsCovered ranges.now) writes.now }
{
    for write in writes {
        if !is_covered(ranges, write) {
            return false;
        }
    }
    true
}
