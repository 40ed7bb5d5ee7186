ghost use Rattle.std.specs.Prelude.{◌≡◌};
ghost use Rattle.fs_rules.specs.Statuses.{first_failure};
ghost use Rattle.fs_rules.specs.Making.{new_checks};
ghost use Rattle.fs_checks.specs.Verdict.{verdict};

use crate::MAX_FILE_BYTES;
use crate::set::is_set;
use crate::status::Status;
use fs_rules::Sattr;

/// What one unit of a mode's type counts, and how many types there are.
const MODE_TYPE: u32 = 4_096;

const MODE_TYPES: u32 = 16;

/// The type of a regular file in a mode.
const REGULAR_TYPE: u32 = 8;

/// The checks of what CREATE sets of a new file (RFC 1094, section 2.2.10).
///
/// # Errors
///
/// [`Status::NXIO`] where a mode is set whose type is another than none and that of a regular file, and
/// [`Status::FBIG`] where a size is set that is too large.
#[tactic(auto, unfolding(fs_rules::specs::Statuses::first_failure))]
pub fn check_new(set: &Sattr) -> Result<(), Status>
    ensures { result ≡ verdict (first_failure (new_checks set.now)) }
{
    let kind = set.mode / MODE_TYPE % MODE_TYPES;
    if is_set(set.mode) && !(kind == 0 || kind == REGULAR_TYPE) {
        return Err(Status::NXIO);
    }
    if is_set(set.size) && set.size > MAX_FILE_BYTES {
        return Err(Status::FBIG);
    }
    Ok(())
}
