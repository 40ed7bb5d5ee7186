ghost use Rattle.std.specs.Prelude.{◌≡◌, ◌≤◌, ◌<◌, ◌-◌, ◌^◌, length, min, OnOk, IfOk};
ghost use Rattle.disk_model.specs.Health.{IsLive, Speaks};
ghost use Rattle.gate_log.specs.Scan.{Reads};

use crate::layout::HEADER_BYTES;
use crate::log_fault::LogFault;
use disk_model::Disk;
use std::alloc::Global;

/// How many bytes are read at once.
const PIECE_BYTES: u64 = 1 << 16;

/// A piece of a disk that was read.
#[derive(Drop)]
pub(crate) struct Window {
    /// The place of its first byte.
    at: u64,
    bytes: Vec<u8>,
}

impl Window {
    ghost use Rattle.gate_log.specs.Window.{seen_from, IsCurrent};

    /// Reads the piece that begins at this place, as far as the limit.
    pub(crate) fn read<D: Disk>(
        alloc: Global,
        disk: &mut D,
        place: u64,
        limit: u64,
    ) -> Result<Window, LogFault>
        requires { place < limit }
        ensures reads { Reads D.tells D.history D.health disk.old disk.new (λ at. ⊥) result }
        ensures live { OnOk result (IsLive 0 (D.health disk.old)) }
        ensures reached { IfOk result (λ window. min 5 (limit - place) ≤ length (seen_from window place)) }
        ensures current { IfOk result (λ window. Speaks D.tells D.health disk.old
            → IsCurrent (D.history disk.old).now.content window) }
    {
        let count = PIECE_BYTES.min(limit - place) as usize;
        let mut bytes = vec![in alloc; 0; count]?;
        disk.read(place, &mut bytes)?;
        Ok(Window { at: place, bytes })
    }

    /// What was read from this place on.
    pub(crate) fn from(&self, place: u64) -> &[u8]
        ensures { result.now ≡ seen_from self.now place }
    {
        let bytes = self.bytes.as_slice();
        if self.at <= place {
            let skipped = (place - self.at).min(bytes.len() as u64);
            &bytes[skipped as usize..]
        } else {
            &bytes[..0]
        }
    }

    /// Reads the piece that begins at this place, where less of it was read than a header, or as much as
    /// there is before the limit.
    pub(crate) fn reach<D: Disk>(
        &mut self,
        alloc: Global,
        disk: &mut D,
        place: u64,
        limit: u64,
    ) -> Result<(), LogFault>
        requires { place < limit }
        ensures reads { Reads D.tells D.history D.health disk.old disk.new (λ at. ⊥) result }
        ensures reached { OnOk result (min 5 (limit - place) ≤ length (seen_from self.new place)) }
        ensures current { OnOk result (Speaks D.tells D.health disk.old
            → IsCurrent (D.history disk.old).now.content self.old
            → IsCurrent (D.history disk.old).now.content self.new) }
    {
        let wanted = HEADER_BYTES.min(limit - place);
        if (self.from(place).len() as u64) < wanted {
            *self = Window::read(alloc, disk, place, limit)?;
        }
        Ok(())
    }
}
