ghost use Rattle.std.specs.Prelude.{◌≡◌, ◌++◌, IfOk, OnOk};
ghost use Rattle.nfs_proto.specs.Arguments.{IsFit, arguments_spelling};

use crate::call::Call;
use crate::handle::Handle;
use crate::limits::{MAX_DATA_BYTES, MAX_NAME_BYTES, MAX_PATH_BYTES};
use crate::sattr::Sattr;
use sfs_base::NoMemory;
use sfs_xdr::{Codec, Text, Writer, write_words};
use std::alloc::Global;

type Name = Text<MAX_NAME_BYTES>;

type Path = Text<MAX_PATH_BYTES>;

type Data = Text<MAX_DATA_BYTES>;

/// The arguments of a call, spelled (RFC 1094, section 2.2). Its names and paths have at most
/// [`MAX_NAME_BYTES`] and [`MAX_PATH_BYTES`], and its data at most [`MAX_DATA_BYTES`].
pub fn write_args(alloc: Global, call: &Call) -> Result<Vec<u8>, NoMemory>
    requires { IsFit call.now }
    ensures { IfOk result (λ bytes. bytes.items ≡ arguments_spelling call.now) }
{
    let mut writer = Writer::new(alloc);
    write_arguments(call, &mut writer)?;
    Ok(writer.finish())
}

// Writes the arguments of a call, in their order.
fn write_arguments(call: &Call, writer: &mut Writer) -> Result<(), NoMemory>
    requires { IsFit call.now }
    ensures { OnOk result (writer.new ≡ writer.old ++ arguments_spelling call.now) }
{
    match call {
        Call::Null | Call::Root | Call::WriteCache => Ok(()),
        Call::GetAttr { file } => Handle::write(file, writer),
        Call::SetAttr { file, set } => {
            Handle::write(file, writer)?;
            Sattr::write(set, writer)
        }
        Call::Lookup { dir, name } => {
            Handle::write(dir, writer)?;
            Name::write(name, writer)
        }
        Call::ReadLink { file } => Handle::write(file, writer),
        Call::Read {
            file,
            offset,
            count,
            total,
        } => {
            Handle::write(file, writer)?;
            write_words(writer, &[*offset, *count, *total])
        }
        Call::Write {
            file,
            begin,
            offset,
            total,
            bytes,
        } => {
            Handle::write(file, writer)?;
            write_words(writer, &[*begin, *offset, *total])?;
            Data::write(bytes, writer)
        }
        Call::Create { dir, name, set } => {
            Handle::write(dir, writer)?;
            Name::write(name, writer)?;
            Sattr::write(set, writer)
        }
        Call::Remove { dir, name } => {
            Handle::write(dir, writer)?;
            Name::write(name, writer)
        }
        Call::Rename {
            from,
            from_name,
            to,
            to_name,
        } => {
            Handle::write(from, writer)?;
            Name::write(from_name, writer)?;
            Handle::write(to, writer)?;
            Name::write(to_name, writer)
        }
        Call::Link { file, dir, name } => {
            Handle::write(file, writer)?;
            Handle::write(dir, writer)?;
            Name::write(name, writer)
        }
        Call::SymLink {
            dir,
            name,
            path,
            set,
        } => {
            Handle::write(dir, writer)?;
            Name::write(name, writer)?;
            Path::write(path, writer)?;
            Sattr::write(set, writer)
        }
        Call::MakeDir { dir, name, set } => {
            Handle::write(dir, writer)?;
            Name::write(name, writer)?;
            Sattr::write(set, writer)
        }
        Call::RemoveDir { dir, name } => {
            Handle::write(dir, writer)?;
            Name::write(name, writer)
        }
        Call::ReadDir { dir, cookie, count } => {
            Handle::write(dir, writer)?;
            write_words(writer, &[*cookie, *count])
        }
        Call::StatFs { file } => Handle::write(file, writer),
    }
}
