ghost use Rattle.std.specs.Prelude.{◌≡◌, ◌≤◌, ◌||◌, nat_lt, false, OnOk};
ghost use Rattle.fs_rules.specs.Statuses.{fails_where, fbig, nospc};
ghost use Rattle.fs_checks.specs.Verdict.{verdict};

use crate::status::Status;

/// The most links of a file.
pub const MAX_LINKS: u32 = 32_000;

/// The most slots of a directory: one chaining block refers to so many blocks.
pub const MAX_SLOTS: usize = 7_650;

/// That no change number that would rise has its last value.
///
/// # Errors
///
/// [`Status::FBIG`] where one has.
pub fn check_rises(is_spent: bool) -> Result<(), Status>
    ensures exact { result ≡ verdict (fails_where fbig is_spent) }
    ensures rises { OnOk result (is_spent ≡ false) }
{
    if is_spent {
        return Err(Status::FBIG);
    }
    Ok(())
}

/// That a file may have so many links, and a directory so many slots.
///
/// # Errors
///
/// [`Status::NOSPC`] where one would have more than [`MAX_LINKS`] or [`MAX_SLOTS`].
pub fn check_counts(links: u32, slots: usize) -> Result<(), Status>
    ensures exact { result ≡ verdict (fails_where nospc (nat_lt 32000 links || nat_lt 7650 slots)) }
    ensures few { OnOk result ((links ≤ 32000) × (slots ≤ 7650)) }
{
    if links > MAX_LINKS || slots > MAX_SLOTS {
        return Err(Status::NOSPC);
    }
    Ok(())
}

/// That so many blocks are free.
///
/// # Errors
///
/// [`Status::NOSPC`] where they are fewer.
pub fn check_room(free: usize, rise: usize) -> Result<(), Status>
    ensures { result ≡ verdict (fails_where nospc (nat_lt free rise)) }
{
    if free < rise {
        return Err(Status::NOSPC);
    }
    Ok(())
}
