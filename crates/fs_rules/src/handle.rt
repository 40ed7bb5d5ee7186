ghost use Rattle.std.specs.Prelude.{◌≡◌};
ghost use Rattle.fs_rules.specs.Handle.{handle, number_in};

use fs_layout::write_handle;
use nfs_proto::Handle;

/// The handle of the file with this number and generation (`docs/FORMATS.md`, "Handles").
pub fn handle_of(number: u32, generation: u32) -> Handle
    ensures { result.0 ≡ handle number generation }
{
    Handle(write_handle(number, generation))
}

/// The number at the place of the file's number.
pub fn number_at(handle: &Handle) -> u32
    ensures { result ≡ number_in handle.now.0 }
{
    let bytes = &handle.0;
    u32::from_be_bytes([bytes[4], bytes[5], bytes[6], bytes[7]])
}
