ghost use Rattle.std.specs.Prelude.{◌≡◌};
ghost use Rattle.mem_rules.specs.Identifiers.{cut_precedes};

use mini_tx::CutId;

/// Whether a cut comes before another.
pub(crate) fn is_earlier(cut: CutId, other: CutId) -> bool
    ensures { result ≡ cut_precedes cut other }
{
    cut.boot < other.boot || cut.boot == other.boot && cut.seq < other.seq
}
