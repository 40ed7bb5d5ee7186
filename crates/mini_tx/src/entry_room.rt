use crate::entry::Entry;
use crate::limits::{ID_BYTES, NUMBER_BYTES};
use crate::vote::{Reads, Vote};
use crate::write_at::Writes;

/// The most bytes of an entry beside what its lists and runs of bytes hold: its kind, its identifier, a vote
/// that names another, and four counts or lengths.
const MAX_FIXED_BYTES: usize = 2 * ID_BYTES + 6 * NUMBER_BYTES;

/// The bytes of a range: two numbers.
const RANGE_BYTES: usize = 2 * NUMBER_BYTES;

/// Room for an entry: what is spelled of it fits.
pub(crate) fn room_for(entry: &Entry) -> usize {
    let lists = match entry {
        Entry::Single { vote, writes, .. } => room_for_vote(vote).saturating_add(room_for_writes(
            writes,
        )),
        Entry::Prepared {
            participants,
            vote,
            ranges,
            writes,
            ..
        } => room_for_numbers(participants.len())
            .saturating_add(room_for_ranges(ranges.len()))
            .saturating_add(room_for_vote(vote))
            .saturating_add(room_for_writes(writes)),
        Entry::Refused { vote, .. } | Entry::Floor { vote, .. } => room_for_vote(vote),
        Entry::Decided { .. } | Entry::Forgotten { .. } | Entry::Cut { .. } => 0,
    };
    lists.saturating_add(MAX_FIXED_BYTES)
}

fn room_for_numbers(count: usize) -> usize {
    count.saturating_mul(NUMBER_BYTES)
}

fn room_for_ranges(count: usize) -> usize {
    count.saturating_mul(RANGE_BYTES)
}

fn room_for_vote(vote: &Vote) -> usize {
    match vote {
        Vote::Granted(reads) => room_for_reads(reads),
        Vote::Mismatch { kept, .. } => room_for_bytes(kept.len()),
        Vote::Locked { .. } | Vote::Forced { .. } | Vote::Held { .. } => 0,
    }
}

fn room_for_reads(reads: &Reads) -> usize {
    let mut room = 0usize;
    for bytes in reads.as_slice() {
        room = room.saturating_add(room_for_bytes(bytes.len()));
    }
    room
}

fn room_for_writes(writes: &Writes) -> usize {
    let mut room = 0usize;
    for write in writes.as_slice() {
        room = room
            .saturating_add(NUMBER_BYTES)
            .saturating_add(room_for_bytes(write.bytes.len()));
    }
    room
}

// Room for bytes with their length before them and what fills them up behind.
fn room_for_bytes(length: usize) -> usize {
    length.saturating_add(2 * NUMBER_BYTES)
}
