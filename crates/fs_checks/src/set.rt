ghost use Rattle.std.specs.Prelude.{◌≡◌};
ghost use Rattle.fs_rules.specs.Attributes.{is_set, is_moment_set, chosen, chosen_moment, is_server_time, sets_attributes, sets_something};
ghost use Rattle.fs_rules.specs.Making.{unset, size_alone};

use fs_rules::{Sattr, Stamp};

/// A number that is not set (RFC 1094, section 2.3.6).
const UNSET: u32 = u32::MAX;

/// The microseconds of a moment that stands for the moment of the call.
const SERVER_TIME: u32 = 1_000_000;

/// The values of a mode that are no type.
pub(crate) const MODE_VALUES: u32 = 4_096;

/// Whether a number is set.
pub fn is_set(value: u32) -> bool
    ensures { result ≡ is_set value }
{
    value != UNSET
}

/// Whether a moment is set.
pub(crate) fn is_moment_set(moment: Stamp) -> bool
    ensures { result ≡ is_moment_set moment }
{
    is_set(moment.sec) || is_set(moment.usec)
}

/// A number that is set, else another.
pub fn chosen(value: u32, other: u32) -> u32
    ensures { result ≡ chosen value other }
{
    if is_set(value) { value } else { other }
}

/// A moment that is set, else another.
pub fn chosen_moment(moment: Stamp, other: Stamp) -> Stamp
    ensures { result ≡ chosen_moment moment other }
{
    if is_moment_set(moment) { moment } else { other }
}

/// Whether a moment stands for that of the call.
pub(crate) fn is_server_time(moment: Stamp) -> bool
    ensures { result ≡ is_server_time moment }
{
    moment.usec == SERVER_TIME
}

/// Whether anything beside the size is set.
pub(crate) fn sets_attributes(set: &Sattr) -> bool
    ensures { result ≡ sets_attributes set.now }
{
    is_set(set.mode)
        || is_set(set.uid)
        || is_set(set.gid)
        || is_moment_set(set.atime)
        || is_moment_set(set.mtime)
}

/// Whether anything is set.
pub fn sets_something(set: &Sattr) -> bool
    ensures { result ≡ sets_something set.now }
{
    sets_attributes(set) || is_set(set.size)
}

/// Nothing is set.
pub fn nothing_set() -> Sattr
    ensures { result ≡ unset }
{
    let moment = Stamp {
        sec: UNSET,
        usec: UNSET,
    };
    Sattr {
        mode: UNSET,
        uid: UNSET,
        gid: UNSET,
        size: UNSET,
        atime: moment,
        mtime: moment,
    }
}

/// The size that is set, and nothing else.
pub fn size_alone(set: &Sattr) -> Sattr
    ensures { result ≡ size_alone set.now }
{
    Sattr {
        size: set.size,
        ..nothing_set()
    }
}
