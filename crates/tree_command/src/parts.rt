ghost use Rattle.std.specs.Prelude.{◌≡◌, length, IfOk};
ghost use Rattle.fs_image.specs.Places.{layout_of};
ghost use Rattle.fs_layout.specs.Places.{image_size};
ghost use Rattle.fs_rules.specs.Geometry.{IsWithinLimits};
ghost use Rattle.tree_command.specs.Counts.{CountsReads};
ghost use Rattle.tree_command.specs.Reading.{ReadsParts};

use crate::image::read_image;
use crate::stop::Stop;
use fs_layout::Layout;
use fs_rules::Geometry;
use mini_tx::Parts;
use schedule_text::Source;
use std::alloc::Global;

/// The images of a cluster, one after another; `None` where the input ends before the last one does.
pub(crate) fn read_parts<S: Source>(
    alloc: Global,
    input: &mut S,
    geometry: &Geometry,
) -> Result<Option<Parts>, Stop>
    requires { IsWithinLimits geometry.now }
    ensures counts { CountsReads (S.faults input.old) (S.faults input.new) result }
    ensures parts { IfOk result (ReadsParts (S.left input.old) (S.left input.new) geometry.now) }
{
    let size = image_bytes(geometry);
    let mut parts = Parts::new(alloc);
    for _ in 0..geometry.memories {
        let Some(image) = read_image(alloc, input, size)? else {
            return Ok(None);
        };
        parts.push(image)?;
    }
    Ok(Some(parts))
}

// How many bytes the image of a memory node has.
fn image_bytes(geometry: &Geometry) -> usize
    requires { IsWithinLimits geometry.now }
    ensures { result ≡ image_size (layout_of geometry.now) }
{
    let layout = Layout {
        blocks: geometry.blocks,
        inodes: geometry.inodes,
    };
    layout.image_bytes() as usize
}
