ghost use Rattle.std.specs.Prelude.{◌≡◌, ◌<◌};
ghost use Rattle.sfs_xdr.specs.Items as items;

use crate::UNIT;

/// How many bytes fill `n` bytes up to a multiple of four.
pub(crate) fn padding_of(n: usize) -> usize
    ensures exact { result ≡ items.padding_of n }
    ensures small { result < 4 }
{
    (UNIT - n % UNIT) % UNIT
}
