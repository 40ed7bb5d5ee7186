ghost use Rattle.std.specs.Prelude.{◌≡◌, Some};
ghost use Rattle.lock_table.specs.Order.{precedes, is_same, least_of};

use mini_tx::TxId;

/// Whether an identifier comes before another.
pub fn is_before(id: TxId, other: TxId) -> bool
    ensures { result ≡ precedes id other }
{
    id.coord < other.coord
        || id.coord == other.coord
            && (id.boot < other.boot || id.boot == other.boot && id.seq < other.seq)
}

/// Whether two identifiers are the same.
pub fn are_equal(id: TxId, other: TxId) -> bool
    ensures { result ≡ is_same id other }
{
    id.coord == other.coord && id.boot == other.boot && id.seq == other.seq
}

/// The first of both in the order of identifiers.
pub(crate) fn lesser(least: Option<TxId>, id: TxId) -> TxId
    ensures { Some result ≡ least_of least id }
{
    match least {
        Some(least) => { if is_before(id, least) { id } else { least } }
        None => id,
    }
}
