ghost use Rattle.std.specs.Prelude.{◌≡◌, IfOk};
ghost use Rattle.tx_coord.specs.Rules.{first_read, gathered as gathered_from, less_read, next_read, without_first};

use crate::grant::Grant;
use mini_tx::{Bytes, Item, NoMemory, Reads};
use sfs_base::Seq;
use std::alloc::Global;

/// Takes the first read of a vote that is left; it is empty where none is.
fn take_first(alloc: Global, grant: &mut Grant) -> Bytes
    ensures gives { result ≡ first_read grant.old }
    ensures leaves { grant.new ≡ without_first grant.old }
{
    match grant.reads.next() {
        Some(read) => read,
        None => Seq::new(alloc),
    }
}

/// Takes the next read of a memory node.
fn take_read(alloc: Global, grants: &mut [Grant], memory: u32) -> Bytes
    ensures gives { result ≡ next_read memory grants.old }
    ensures leaves { grants.new ≡ less_read memory grants.old }
{
    for index in 0..grants.len() {
        let grant = &mut grants[index];
        if grant.memory == memory {
            return take_first(alloc, grant);
        }
    }
    Seq::new(alloc)
}

/// The bytes of the read items, in the order of the items, out of the votes: none of them is copied.
pub(crate) fn gathered(alloc: Global, grants: Seq<Grant>, items: &[Item]) -> Result<Reads, NoMemory>
    ensures { IfOk result (λ reads. reads ≡ gathered_from grants items.now) }
{
    let mut grants = grants.into_vec();
    let mut reads = Seq::new(alloc);
    for item in items {
        if let Item::Read { memory, .. } = item {
            reads.push(take_read(alloc, &mut grants, *memory))?;
        }
    }
    Ok(reads)
}
