ghost use Rattle.std.specs.Prelude.{◌≡◌, ◌≢◌, ◌⊎◌, ◌≤◌, ◌<◌, ◌+◌, ◌^◌, ◌∷◌, [], length, OnOk};
ghost use Rattle.disk_model.specs.Crash.{LeavesOnly, put, written, settled};
ghost use Rattle.disk_model.specs.Health.{Hands, Speaks};
ghost use Rattle.node_disk.specs.Lay.{IsUnmarked, IsBeside, is_laid};

use crate::half::{FIRST_IMAGE_AT, FIRST_LOG_AT};
use disk_model::Disk;
use sfs_base::Failed;

/// The gate of a log without entries.
const CLOSED: u8 = 0;

/// Writes bytes beside the mark of a disk that is not formatted.
fn write_beside<D: Disk>(disk: &mut D, at: u64, from: &[u8]) -> Result<(), Failed>
    requires fits { at + length from.now < 2 ^ 64 }
    requires beside { IsBeside at (length from.now) }
    ensures hands { Hands D.tells D.health 1 disk.old disk.new result }
    ensures ok { OnOk result (Speaks D.tells D.health disk.old
        → (D.history disk.new).now ≡ written (D.history disk.old).now at from.now) }
    ensures unmarked { OnOk result (Speaks D.tells D.health disk.old
        → IsUnmarked (D.history disk.old).now → IsUnmarked (D.history disk.new).now) }
    ensures any_moment { Speaks D.tells D.health disk.old → IsUnmarked (D.history disk.old).now
        → LeavesOnly (D.history disk.old) (D.history disk.new) (λ image. image 128 ≢ 1) }
{
    disk.write(at, from)
}

/// Makes what was written beside the mark safe.
fn sync_beside<D: Disk>(disk: &mut D) -> Result<(), Failed>
    ensures hands { Hands D.tells D.health 1 disk.old disk.new result }
    ensures ok { OnOk result (Speaks D.tells D.health disk.old
        → (D.history disk.new).now ≡ settled (D.history disk.old).now.content) }
    ensures any_moment { Speaks D.tells D.health disk.old → IsUnmarked (D.history disk.old).now
        → LeavesOnly (D.history disk.old) (D.history disk.new) (λ image. image 128 ≢ 1) }
{
    disk.sync()
}

/// Writes the front of the first page, the image and a log without entries beside the mark, and makes them
/// safe.
pub(crate) fn lay<D: Disk>(disk: &mut D, front: &[u8], image: &[u8]) -> Result<(), Failed>
    requires front { length front.now ≤ 128 }
    requires image { length image.now ≤ 69214208 }
    ensures hands { Hands D.tells D.health 4 disk.old disk.new result }
    ensures ok { OnOk result (Speaks D.tells D.health disk.old → IsUnmarked (D.history disk.old).now
        → (D.history disk.new).now ≡ settled (is_laid (D.history disk.old).now.content front.now image.now)) }
    ensures any_moment { Speaks D.tells D.health disk.old → IsUnmarked (D.history disk.old).now
        → LeavesOnly (D.history disk.old) (D.history disk.new) (λ image. image 128 ≢ 1) }
{
    write_beside(disk, 0, front)?;
    write_beside(disk, FIRST_IMAGE_AT, image)?;
    write_beside(disk, FIRST_LOG_AT, &[CLOSED])?;
    sync_beside(disk)
}
