ghost use Rattle.std.specs.Prelude.{◌≡◌, ◌+◌, ◌^◌, ◌<◌, ◌≤◌, ◌↔◌, length, IsTrue, IfOk};
ghost use Rattle.gate_log.specs.Append.{sealed};

use sfs_base::NoMemory;
use std::alloc::Global;

/// How many bytes of its disk a log has: its closed gate lies below that distance from its start.
pub const MAX_LOG_BYTES: u64 = 1 << 32;

/// A gate that opens an entry.
pub(crate) const OPEN: u8 = 1;

/// A gate that ends the log. Any other byte than [`OPEN`] does.
const CLOSED: u8 = 0;

/// The bytes of a gate.
const GATE_BYTES: usize = 1;

/// The bytes of the length of an entry, which is a word.
const LENGTH_BYTES: usize = 4;

/// The bytes before an entry: its gate and its length.
pub(crate) const HEADER_BYTES: u64 = 5;

/// Whether the gate behind an entry of this length would lie past the limit, where the gate before it
/// lies at this distance from the start.
pub(crate) fn is_full(end: u64, length: u64) -> bool
    requires { end < 2 ^ 32 }
    ensures { IsTrue result ↔ (2 ^ 32 ≤ end + 5 + length) }
{
    // The entry's end may lie past the last number of a u64, so the room is compared.
    let room = MAX_LOG_BYTES - end;
    room <= HEADER_BYTES || length >= room - HEADER_BYTES
}

/// What is written behind a gate: the length of an entry, the entry and a closed gate.
pub(crate) fn seal(alloc: Global, entry: &[u8]) -> Result<Vec<u8>, NoMemory>
    requires { length entry.now < 2 ^ 32 }
    ensures { IfOk result (λ bytes. bytes.items ≡ sealed entry.now) }
{
    let mut bytes = Vec::with_capacity(alloc, LENGTH_BYTES + entry.len() + GATE_BYTES)?;
    bytes.extend_from_slice(&(entry.len() as u32).to_be_bytes())?;
    bytes.extend_from_slice(entry)?;
    bytes.push(CLOSED)?;
    Ok(bytes)
}
