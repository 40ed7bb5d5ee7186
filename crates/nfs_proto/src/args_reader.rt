ghost use Rattle.std.specs.Prelude.{◌≡◌, Ok, Err, IfOk};
ghost use Rattle.sfs_xdr.specs.declared.item_fault.ItemFault.TheVariants.{Malformed as malformed};
ghost use Rattle.nfs_proto.specs.Arguments.{get_attr_of, set_attr_of, lookup_of, read_link_of, read_of, write_of, create_of, remove_of, rename_of, link_of, sym_link_of, make_dir_of, remove_dir_of, read_dir_of, stat_fs_of, arguments_of, args_of};
ghost use Rattle.sfs_xdr.specs.declared.arg_fault.ArgFault.TheVariants as fault;

use crate::call::Call;
use crate::handle::Handle;
use crate::limits::{LAST_PROCEDURE, MAX_DATA_BYTES, MAX_NAME_BYTES, MAX_PATH_BYTES};
use crate::sattr::Sattr;
use sfs_xdr::{ArgFault, Codec, ItemFault, Reader, Text};
use std::alloc::Global;

type Name = Text<MAX_NAME_BYTES>;

type Path = Text<MAX_PATH_BYTES>;

type Data = Text<MAX_DATA_BYTES>;

/// Reads the arguments of a procedure. `NoProcedure` exactly where its number is above
/// [`LAST_PROCEDURE`]; `Garbage` exactly where the bytes begin with no arguments of it.
pub fn read_args(alloc: Global, procedure: u32, args: &[u8]) -> Result<Call, ArgFault>
    ensures found { IfOk result (λ call. args_of procedure args.now ≡ Ok call) }
    ensures no_procedure { result ≡ Err fault.NoProcedure → args_of procedure args.now ≡ Err fault.NoProcedure }
    ensures garbage { result ≡ Err fault.Garbage → args_of procedure args.now ≡ Err fault.Garbage }
{
    if procedure > LAST_PROCEDURE {
        return Err(ArgFault::NoProcedure);
    }
    let mut reader = Reader::new(args);
    match read_arguments(alloc, procedure, &mut reader) {
        Ok(call) => Ok(call),
        Err(fault) => Err(ArgFault::from(fault)),
    }
}

// Reads the arguments of a procedure that is there.
#[tactic(auto, unfolding(crate::specs::Arguments::arguments_of, crate::specs::Arguments::null_of, crate::specs::Arguments::root_of, crate::specs::Arguments::write_cache_of))]
fn read_arguments(alloc: Global, procedure: u32, reader: &mut Reader) -> Result<Call, ItemFault>
    ensures found { IfOk result (λ call. arguments_of procedure reader.old ≡ Ok (call, reader.new)) }
    ensures malformed { result ≡ Err malformed → arguments_of procedure reader.old ≡ Err tt }
{
    match procedure {
        0 => Ok(Call::Null),
        1 => read_get_attr(alloc, reader),
        2 => read_set_attr(alloc, reader),
        3 => Ok(Call::Root),
        4 => read_lookup(alloc, reader),
        5 => read_read_link(alloc, reader),
        6 => read_read(alloc, reader),
        7 => Ok(Call::WriteCache),
        8 => read_write(alloc, reader),
        9 => read_create(alloc, reader),
        10 => read_remove(alloc, reader),
        11 => read_rename(alloc, reader),
        12 => read_link(alloc, reader),
        13 => read_sym_link(alloc, reader),
        14 => read_make_dir(alloc, reader),
        15 => read_remove_dir(alloc, reader),
        16 => read_read_dir(alloc, reader),
        17 => read_stat_fs(alloc, reader),
        _ => Err(ItemFault::Malformed),
    }
}

#[tactic(auto, unfolding(crate::specs::Arguments::get_attr_of))]
fn read_get_attr(alloc: Global, reader: &mut Reader) -> Result<Call, ItemFault>
    ensures found { IfOk result (λ call. get_attr_of reader.old ≡ Ok (call, reader.new)) }
    ensures malformed { result ≡ Err malformed → get_attr_of reader.old ≡ Err tt }
{
    Ok(Call::GetAttr {
        file: Handle::read(alloc, reader)?,
    })
}

#[tactic(auto, unfolding(crate::specs::Arguments::set_attr_of))]
fn read_set_attr(alloc: Global, reader: &mut Reader) -> Result<Call, ItemFault>
    ensures found { IfOk result (λ call. set_attr_of reader.old ≡ Ok (call, reader.new)) }
    ensures malformed { result ≡ Err malformed → set_attr_of reader.old ≡ Err tt }
{
    Ok(Call::SetAttr {
        file: Handle::read(alloc, reader)?,
        set: Sattr::read(alloc, reader)?,
    })
}

#[tactic(auto, unfolding(crate::specs::Arguments::lookup_of))]
fn read_lookup(alloc: Global, reader: &mut Reader) -> Result<Call, ItemFault>
    ensures found { IfOk result (λ call. lookup_of reader.old ≡ Ok (call, reader.new)) }
    ensures malformed { result ≡ Err malformed → lookup_of reader.old ≡ Err tt }
{
    Ok(Call::Lookup {
        dir: Handle::read(alloc, reader)?,
        name: Name::read(alloc, reader)?,
    })
}

#[tactic(auto, unfolding(crate::specs::Arguments::read_link_of))]
fn read_read_link(alloc: Global, reader: &mut Reader) -> Result<Call, ItemFault>
    ensures found { IfOk result (λ call. read_link_of reader.old ≡ Ok (call, reader.new)) }
    ensures malformed { result ≡ Err malformed → read_link_of reader.old ≡ Err tt }
{
    Ok(Call::ReadLink {
        file: Handle::read(alloc, reader)?,
    })
}

#[tactic(auto, unfolding(crate::specs::Arguments::read_of))]
fn read_read(alloc: Global, reader: &mut Reader) -> Result<Call, ItemFault>
    ensures found { IfOk result (λ call. read_of reader.old ≡ Ok (call, reader.new)) }
    ensures malformed { result ≡ Err malformed → read_of reader.old ≡ Err tt }
{
    Ok(Call::Read {
        file: Handle::read(alloc, reader)?,
        offset: u32::read(alloc, reader)?,
        count: u32::read(alloc, reader)?,
        total: u32::read(alloc, reader)?,
    })
}

#[tactic(auto, unfolding(crate::specs::Arguments::write_of))]
fn read_write(alloc: Global, reader: &mut Reader) -> Result<Call, ItemFault>
    ensures found { IfOk result (λ call. write_of reader.old ≡ Ok (call, reader.new)) }
    ensures malformed { result ≡ Err malformed → write_of reader.old ≡ Err tt }
{
    Ok(Call::Write {
        file: Handle::read(alloc, reader)?,
        begin: u32::read(alloc, reader)?,
        offset: u32::read(alloc, reader)?,
        total: u32::read(alloc, reader)?,
        bytes: Data::read(alloc, reader)?,
    })
}

#[tactic(auto, unfolding(crate::specs::Arguments::create_of))]
fn read_create(alloc: Global, reader: &mut Reader) -> Result<Call, ItemFault>
    ensures found { IfOk result (λ call. create_of reader.old ≡ Ok (call, reader.new)) }
    ensures malformed { result ≡ Err malformed → create_of reader.old ≡ Err tt }
{
    Ok(Call::Create {
        dir: Handle::read(alloc, reader)?,
        name: Name::read(alloc, reader)?,
        set: Sattr::read(alloc, reader)?,
    })
}

#[tactic(auto, unfolding(crate::specs::Arguments::remove_of))]
fn read_remove(alloc: Global, reader: &mut Reader) -> Result<Call, ItemFault>
    ensures found { IfOk result (λ call. remove_of reader.old ≡ Ok (call, reader.new)) }
    ensures malformed { result ≡ Err malformed → remove_of reader.old ≡ Err tt }
{
    Ok(Call::Remove {
        dir: Handle::read(alloc, reader)?,
        name: Name::read(alloc, reader)?,
    })
}

#[tactic(auto, unfolding(crate::specs::Arguments::rename_of))]
fn read_rename(alloc: Global, reader: &mut Reader) -> Result<Call, ItemFault>
    ensures found { IfOk result (λ call. rename_of reader.old ≡ Ok (call, reader.new)) }
    ensures malformed { result ≡ Err malformed → rename_of reader.old ≡ Err tt }
{
    Ok(Call::Rename {
        from: Handle::read(alloc, reader)?,
        from_name: Name::read(alloc, reader)?,
        to: Handle::read(alloc, reader)?,
        to_name: Name::read(alloc, reader)?,
    })
}

#[tactic(auto, unfolding(crate::specs::Arguments::link_of))]
fn read_link(alloc: Global, reader: &mut Reader) -> Result<Call, ItemFault>
    ensures found { IfOk result (λ call. link_of reader.old ≡ Ok (call, reader.new)) }
    ensures malformed { result ≡ Err malformed → link_of reader.old ≡ Err tt }
{
    Ok(Call::Link {
        file: Handle::read(alloc, reader)?,
        dir: Handle::read(alloc, reader)?,
        name: Name::read(alloc, reader)?,
    })
}

#[tactic(auto, unfolding(crate::specs::Arguments::sym_link_of))]
fn read_sym_link(alloc: Global, reader: &mut Reader) -> Result<Call, ItemFault>
    ensures found { IfOk result (λ call. sym_link_of reader.old ≡ Ok (call, reader.new)) }
    ensures malformed { result ≡ Err malformed → sym_link_of reader.old ≡ Err tt }
{
    Ok(Call::SymLink {
        dir: Handle::read(alloc, reader)?,
        name: Name::read(alloc, reader)?,
        path: Path::read(alloc, reader)?,
        set: Sattr::read(alloc, reader)?,
    })
}

#[tactic(auto, unfolding(crate::specs::Arguments::make_dir_of))]
fn read_make_dir(alloc: Global, reader: &mut Reader) -> Result<Call, ItemFault>
    ensures found { IfOk result (λ call. make_dir_of reader.old ≡ Ok (call, reader.new)) }
    ensures malformed { result ≡ Err malformed → make_dir_of reader.old ≡ Err tt }
{
    Ok(Call::MakeDir {
        dir: Handle::read(alloc, reader)?,
        name: Name::read(alloc, reader)?,
        set: Sattr::read(alloc, reader)?,
    })
}

#[tactic(auto, unfolding(crate::specs::Arguments::remove_dir_of))]
fn read_remove_dir(alloc: Global, reader: &mut Reader) -> Result<Call, ItemFault>
    ensures found { IfOk result (λ call. remove_dir_of reader.old ≡ Ok (call, reader.new)) }
    ensures malformed { result ≡ Err malformed → remove_dir_of reader.old ≡ Err tt }
{
    Ok(Call::RemoveDir {
        dir: Handle::read(alloc, reader)?,
        name: Name::read(alloc, reader)?,
    })
}

#[tactic(auto, unfolding(crate::specs::Arguments::read_dir_of))]
fn read_read_dir(alloc: Global, reader: &mut Reader) -> Result<Call, ItemFault>
    ensures found { IfOk result (λ call. read_dir_of reader.old ≡ Ok (call, reader.new)) }
    ensures malformed { result ≡ Err malformed → read_dir_of reader.old ≡ Err tt }
{
    Ok(Call::ReadDir {
        dir: Handle::read(alloc, reader)?,
        cookie: u32::read(alloc, reader)?,
        count: u32::read(alloc, reader)?,
    })
}

#[tactic(auto, unfolding(crate::specs::Arguments::stat_fs_of))]
fn read_stat_fs(alloc: Global, reader: &mut Reader) -> Result<Call, ItemFault>
    ensures found { IfOk result (λ call. stat_fs_of reader.old ≡ Ok (call, reader.new)) }
    ensures malformed { result ≡ Err malformed → stat_fs_of reader.old ≡ Err tt }
{
    Ok(Call::StatFs {
        file: Handle::read(alloc, reader)?,
    })
}
