ghost use Rattle.std.specs.Prelude.{◌≡◌, ◌≤◌, ◌<◌, ◌^◌, ◌↔◌, ℕ, [], length, vec_len, IsTrue, IfOk, IfErr, OnOk};
ghost use Rattle.disk_model.specs.Crash.{Holds};
ghost use Rattle.disk_model.specs.Health.{Fell, Hands, IsLive, Passed, Speaks};
ghost use Rattle.disk_model.specs.LogBytes.{log_bytes};
ghost use Rattle.node_disk.specs.Header.{IsFormatted};
ghost use Rattle.mem_rules.specs.Fit.{IsSetup, size_of};
ghost use Rattle.mem_node.specs.Disk.{IsLoadFault, IsReplayFault, IsUnfit, Makes};
ghost use Rattle.node_disk.specs.Half.{half_of, image_at};
ghost use Rattle.mem_rules.specs.Memory.{state_of, setup_in};

use crate::node_fault::NodeFault;
use crate::replay::replay;
use disk_model::{Disk, Entries};
use gate_log::Side;
use mem_rules::{Memory, Setup};
use node_disk::{FORMATTED, HEADER_AT, MARK_AT, SELECTOR_AT, header, image_at, image_bytes};
use sfs_base::Failed;
use std::alloc::Global;

/// Whether the disk is formatted, for this memory node of this cluster.
fn is_formatted<D: Disk>(alloc: Global, disk: &mut D, setup: Setup) -> Result<bool, NodeFault>
    ensures told { IfOk result (λ formatted. Speaks D.tells D.health disk.old
        → IsTrue formatted ↔ IsFormatted setup (D.history disk.old).now.content) }
    ensures refused { IfErr result (λ fault. IsLoadFault fault
        (Fell 0 (D.health disk.old) (D.health disk.new)) (Passed 0 (D.health disk.old) (D.health disk.new))
        ⊥ (λ at. ⊥)) }
    ensures still { Speaks D.tells D.health disk.old → D.tells disk.new }
    ensures kept { Speaks D.tells D.health disk.old → D.history disk.new ≡ D.history disk.old }
    ensures passed { OnOk result (Passed 0 (D.health disk.old) (D.health disk.new)) }
    ensures live { OnOk result (IsLive 0 (D.health disk.old)) }
{
    let wanted = header(alloc, setup)?;
    let mut found = [0; 32];
    disk.read(HEADER_AT, &mut found)?;
    let mut mark = [0; 1];
    disk.read(MARK_AT, &mut mark)?;
    Ok(is_mark(&found, &wanted, mark[0]))
}

/// The half of the disk that is in use.
fn half_in_use<D: Disk>(disk: &mut D) -> Result<Side, Failed>
    ensures hands { Hands D.tells D.health 0 disk.old disk.new result }
    ensures kept { Speaks D.tells D.health disk.old → D.history disk.new ≡ D.history disk.old }
    ensures found { IfOk result (λ half. Speaks D.tells D.health disk.old
        → half_of (D.history disk.old).now.content ≡ half) }
{
    let mut selector = [0; 1];
    disk.read(SELECTOR_AT, &mut selector)?;
    Ok(Side::of(selector[0]))
}

/// What is stored of a memory node beside its log: which half of the disk is in use, and the image there.
#[derive(Drop)]
pub(crate) struct Stored {
    pub(crate) half: Side,
    pub(crate) image: Vec<u8>,
}

/// What is stored on this memory node's disk.
pub(crate) fn read_stored<D: Disk>(
    alloc: Global,
    disk: &mut D,
    setup: Setup,
) -> Result<Stored, NodeFault>
    requires { IsSetup setup }
    ensures formatted { OnOk result (Speaks D.tells D.health disk.old
        → IsFormatted setup (D.history disk.old).now.content) }
    ensures half { IfOk result (λ stored. Speaks D.tells D.health disk.old
        → half_of (D.history disk.old).now.content ≡ stored.half) }
    ensures image { IfOk result (λ stored. Speaks D.tells D.health disk.old
        → Holds (D.history disk.old).now.content (image_at setup stored.half) stored.image.items) }
    ensures sized { IfOk result (λ stored. vec_len stored.image ≡ size_of setup) }
    ensures refused { IfErr result (λ fault. IsLoadFault fault
        (Fell 0 (D.health disk.old) (D.health disk.new)) (Passed 0 (D.health disk.old) (D.health disk.new))
        (Speaks D.tells D.health disk.old → IsFormatted setup (D.history disk.old).now.content → ⊥) (λ at. ⊥)) }
    ensures still { Speaks D.tells D.health disk.old → D.tells disk.new }
    ensures kept { Speaks D.tells D.health disk.old → D.history disk.new ≡ D.history disk.old }
    ensures passed { OnOk result (Passed 0 (D.health disk.old) (D.health disk.new)) }
    ensures live { OnOk result (IsLive 0 (D.health disk.old)) }
{
    if !is_formatted(alloc, disk, setup)? {
        return Err(NodeFault::Other);
    }
    let half = half_in_use(disk)?;
    let mut image = vec![in alloc; 0; image_bytes(setup) as usize]?;
    disk.read(image_at(setup, half), &mut image)?;
    Ok(Stored { half, image })
}

/// What the entries of a log that begins at this place make of the stored image.
pub(crate) fn taken(
    alloc: Global,
    setup: Setup,
    image: Vec<u8>,
    base: u64,
    entries: &Entries,
) -> Result<Memory, NodeFault>
    requires setup { IsSetup setup }
    requires sized { vec_len image ≡ size_of setup }
    requires base { base ≤ 2 ^ 33 }
    requires within { length (log_bytes entries.now) < 2 ^ 32 }
    ensures made { IfOk result (λ memory. Makes setup image.items entries.now (state_of memory)) }
    ensures setup { IfOk result (λ memory. setup_in memory ≡ setup) }
    ensures refused { IfErr result (λ fault. IsReplayFault fault (IsUnfit setup base image.items entries.now)) }
{
    let mut memory = Memory::opened(alloc, setup, image)?;
    replay(alloc, &mut memory, base, entries.as_slice())?;
    Ok(memory)
}

/// Whether the wanted header was found, and the mark of a formatted disk.
fn is_mark(found: &[u8], wanted: &[u8], mark: u8) -> bool
    ensures { IsTrue result ↔ ((found.now ≡ wanted.now) × (mark ≡ 1)) }
{
    mark == FORMATTED && found == wanted
}
