ghost use Rattle.std.specs.Prelude.{◌≡◌};
ghost use Rattle.nfs_proto.specs.Answers.{is_fault};

/// The status of a result that is none (RFC 1094, section 2.3.1).
pub(crate) const OK: u32 = 0;

/// Whether this is a status other than OK (RFC 1094, section 2.3.1): one that [`Answer::Fault`](crate::Answer::Fault) may
/// hold where it is written.
pub fn is_fault(status: u32) -> bool
    ensures { result ≡ is_fault status }
{
    matches!(
        status,
        1 | 2 | 5 | 6 | 13 | 17 | 19 | 20 | 21 | 27 | 28 | 30 | 63 | 66 | 69 | 70 | 99
    )
}
