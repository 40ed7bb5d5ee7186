ghost use Rattle.std.specs.Prelude.{◌≡◌, ◌+◌, ◌^◌, ◌<◌, length, OnOk};
ghost use Rattle.disk_model.specs.Crash.{MayLeave, LeavesOnly, put, touched, settled};
ghost use Rattle.disk_model.specs.Health.{Hands, Speaks, count_after};

use disk_model::Disk;
use sfs_base::Failed;

/// Writes these bytes and makes them safe, in two calls. At any moment of it a crash leaves every byte
/// outside their range as it is.
pub fn write_through<D: Disk>(disk: &mut D, at: u64, from: &[u8]) -> Result<(), Failed>
    requires { at + length from.now < 2 ^ 64 }
    ensures hands { Hands D.tells D.health 2 disk.old disk.new result }
    ensures calls { OnOk result ((D.health disk.new).calls ≡ count_after 2 (D.health disk.old).calls) }
    ensures ok { OnOk result (Speaks D.tells D.health disk.old
        → (D.history disk.new).now ≡ settled (put (D.history disk.old).now.content at from.now)) }
    ensures any_moment { Speaks D.tells D.health disk.old → LeavesOnly (D.history disk.old) (D.history disk.new)
        (MayLeave (touched (D.history disk.old).now at (length from.now))) }
{
    disk.write(at, from)?;
    disk.sync()
}
