ghost use Rattle.sfs_base.specs.Reading.{IsBytes};
ghost use Rattle.fs_rules.specs.Respond.{HasBytes};

use fs_rules::Call;

/// What the types make sure of: the names, the data and the path of a call are bytes. It does nothing.
pub(crate) fn call_bytes(call: &Call)
    ensures { HasBytes call.now }
{
    match call {
        Call::Write { bytes, .. } => are_bytes(bytes.as_slice()),
        Call::Lookup { name, .. }
        | Call::Create { name, .. }
        | Call::Remove { name, .. }
        | Call::Link { name, .. }
        | Call::MakeDir { name, .. }
        | Call::RemoveDir { name, .. } => are_bytes(name.as_slice()),
        Call::Rename {
            from_name,
            to_name,
            ..
        } => {
            are_bytes(from_name.as_slice());
            are_bytes(to_name.as_slice());
        }
        Call::SymLink { name, path, .. } => {
            are_bytes(name.as_slice());
            are_bytes(path.as_slice());
        }
        _ => {}
    }
}

fn are_bytes(bytes: &[u8])
    ensures { IsBytes bytes.now }
{}
