ghost use Rattle.std.specs.Prelude.{◌≡◌, ◌≤◌, [], length, IfOk, OnOk};
ghost use Rattle.disk_model.specs.Calls.{IsReady};
ghost use Rattle.disk_model.specs.Crash.{LeavesOnly};
ghost use Rattle.disk_model.specs.Health.{Hands};
ghost use Rattle.node_disk.specs.Format.{IsLaying, IsDone, front_bytes};

use crate::first_page::{FORMATTED, HEADER_AT, MARK_AT, header};
use crate::lay::lay;
use disk_model::Disk;
use gate_log::write_through;
use mem_rules::Setup;
use sfs_base::{Failed, NoMemory};
use std::alloc::Global;

/// The mark of a disk that is not formatted.
const UNFORMATTED: u8 = 0;

/// The front of the first page: a selector that names the first half, zeros, and the header.
pub fn front(alloc: Global, setup: Setup) -> Result<Vec<u8>, NoMemory>
    ensures { IfOk result (λ bytes. bytes.items ≡ front_bytes setup) }
{
    let mut bytes = vec![in alloc; 0; HEADER_AT as usize]?;
    bytes.extend_from_slice(&header(alloc, setup)?)?;
    Ok(bytes)
}

/// Takes the mark away, writes the front of the first page, the image and a log without entries, and sets
/// the mark, each step safe before the next.
pub fn write_node<D: Disk>(disk: &mut D, front: &[u8], image: &[u8]) -> Result<(), Failed>
    requires front { length front.now ≤ 128 }
    requires image { length image.now ≤ 69214208 }
    ensures hands { Hands D.tells D.health 8 disk.old disk.new result }
    ensures ok { OnOk result (IsReady D.tells D.history D.health disk.old
        → IsDone front.now image.now (D.history disk.new).now) }
    ensures any_moment { IsReady D.tells D.history D.health disk.old
        → LeavesOnly (D.history disk.old) (D.history disk.new)
        (IsLaying (D.history disk.old).now.content front.now image.now) }
{
    write_through(disk, MARK_AT, &[UNFORMATTED])?;
    lay(disk, front, image)?;
    write_through(disk, MARK_AT, &[FORMATTED])
}
