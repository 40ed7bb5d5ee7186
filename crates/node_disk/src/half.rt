ghost use Rattle.std.specs.Prelude.{◌≡◌, ◌≤◌};
ghost use Rattle.mem_rules.specs.Fit.{IsSetup, size_of};
ghost use Rattle.node_disk.specs.Half.{image_at, log_at};

use fs_layout::Layout;
use gate_log::Side;
use mem_rules::Setup;

/// The place of the image of the first half.
pub(crate) const FIRST_IMAGE_AT: u64 = 4096;

/// The place of the log of the first half.
pub(crate) const FIRST_LOG_AT: u64 = 1 << 32;

/// The place of the log of the second half.
const SECOND_LOG_AT: u64 = 1 << 33;

/// The place of the image of a half.
pub fn image_at(setup: Setup, half: Side) -> u64
    requires { IsSetup setup }
    ensures { result ≡ image_at setup half }
{
    match half {
        Side::First => FIRST_IMAGE_AT,
        Side::Second => FIRST_IMAGE_AT + u64::from(image_bytes(setup)),
    }
}

/// The place of the log of a half.
pub fn log_at(half: Side) -> u64
    ensures { result ≡ log_at half }
{
    match half {
        Side::First => FIRST_LOG_AT,
        Side::Second => SECOND_LOG_AT,
    }
}

/// The bytes of an image.
pub fn image_bytes(setup: Setup) -> u32
    requires { IsSetup setup }
    ensures size { result ≡ size_of setup }
    ensures small { result ≤ 69214208 }
{
    Layout {
        blocks: setup.geometry.blocks,
        inodes: setup.geometry.inodes,
    }
    .image_bytes()
}
