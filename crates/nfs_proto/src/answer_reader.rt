ghost use Rattle.std.specs.Prelude.{◌≡◌, Ok, Err, IfOk};
ghost use Rattle.sfs_xdr.specs.declared.item_fault.ItemFault.TheVariants.{Malformed as malformed};
ghost use Rattle.nfs_proto.specs.Answers.{answer_of, result_of, status_of, body_of, found_of, part_of, names_of, space_of, entries_item};
ghost use Rattle.sfs_xdr.specs.declared.arg_fault.ArgFault.TheVariants as fault;

use crate::answer::Answer;
use crate::dir_entry::{DirEntries, DirEntry};
use crate::fattr::Fattr;
use crate::form::Form;
use crate::handle::Handle;
use crate::limits::{MAX_DATA_BYTES, MAX_PATH_BYTES};
use crate::status::{OK, is_fault};
use sfs_base::Seq;
use sfs_xdr::{ArgFault, Codec, ItemFault, Reader, Text};
use std::alloc::Global;

type Path = Text<MAX_PATH_BYTES>;

type Data = Text<MAX_DATA_BYTES>;

/// Reads the result of a procedure. `NoProcedure` exactly where its number is above the last one;
/// `Garbage` exactly where the bytes begin with no result of it.
pub fn read_answer(alloc: Global, procedure: u32, bytes: &[u8]) -> Result<Answer, ArgFault>
    ensures found { IfOk result (λ answer. answer_of procedure bytes.now ≡ Ok answer) }
    ensures no_procedure { result ≡ Err fault.NoProcedure → answer_of procedure bytes.now ≡ Err fault.NoProcedure }
    ensures garbage { result ≡ Err fault.Garbage → answer_of procedure bytes.now ≡ Err fault.Garbage }
{
    let Some(form) = Form::of(procedure) else {
        return Err(ArgFault::NoProcedure);
    };
    let mut reader = Reader::new(bytes);
    match read_result(alloc, form, &mut reader) {
        Ok(answer) => Ok(answer),
        Err(fault) => Err(ArgFault::from(fault)),
    }
}

// Reads a result of this form.
#[tactic(auto, unfolding(crate::specs::Answers::empty_of))]
fn read_result(alloc: Global, form: Form, reader: &mut Reader) -> Result<Answer, ItemFault>
    ensures found { IfOk result (λ answer. result_of form reader.old ≡ Ok (answer, reader.new)) }
    ensures malformed { result ≡ Err malformed → result_of form reader.old ≡ Err tt }
{
    match form {
        Form::Nothing => Ok(Answer::Empty),
        Form::Plain
        | Form::Attr
        | Form::Found
        | Form::Path
        | Form::Part
        | Form::Names
        | Form::Space => read_status(alloc, form, reader),
    }
}

// Reads a status, and behind OK the rest.
#[tactic(auto, unfolding(crate::specs::Answers::status_of))]
fn read_status(alloc: Global, form: Form, reader: &mut Reader) -> Result<Answer, ItemFault>
    ensures found { IfOk result (λ answer. status_of form reader.old ≡ Ok (answer, reader.new)) }
    ensures malformed { result ≡ Err malformed → status_of form reader.old ≡ Err tt }
{
    let status = u32::read(alloc, reader)?;
    if status == OK {
        return read_body(alloc, form, reader);
    }
    if is_fault(status) {
        Ok(Answer::Fault(status))
    } else {
        Err(ItemFault::Malformed)
    }
}

// Reads what stands behind the status OK.
#[tactic(auto, unfolding(crate::specs::Answers::plain_of, crate::specs::Answers::attr_of, crate::specs::Answers::path_of))]
fn read_body(alloc: Global, form: Form, reader: &mut Reader) -> Result<Answer, ItemFault>
    ensures found { IfOk result (λ answer. body_of form reader.old ≡ Ok (answer, reader.new)) }
    ensures malformed { result ≡ Err malformed → body_of form reader.old ≡ Err tt }
{
    match form {
        Form::Nothing => Err(ItemFault::Malformed),
        Form::Plain => Ok(Answer::Plain),
        Form::Attr => Ok(Answer::Attr(Fattr::read(alloc, reader)?)),
        Form::Found => read_found(alloc, reader),
        Form::Path => Ok(Answer::Path(Path::read(alloc, reader)?)),
        Form::Part => read_part(alloc, reader),
        Form::Names => read_names(alloc, reader),
        Form::Space => read_space(alloc, reader),
    }
}

#[tactic(auto, unfolding(crate::specs::Answers::found_of))]
fn read_found(alloc: Global, reader: &mut Reader) -> Result<Answer, ItemFault>
    ensures found { IfOk result (λ answer. found_of reader.old ≡ Ok (answer, reader.new)) }
    ensures malformed { result ≡ Err malformed → found_of reader.old ≡ Err tt }
{
    Ok(Answer::Found {
        file: Handle::read(alloc, reader)?,
        attr: Fattr::read(alloc, reader)?,
    })
}

#[tactic(auto, unfolding(crate::specs::Answers::part_of))]
fn read_part(alloc: Global, reader: &mut Reader) -> Result<Answer, ItemFault>
    ensures found { IfOk result (λ answer. part_of reader.old ≡ Ok (answer, reader.new)) }
    ensures malformed { result ≡ Err malformed → part_of reader.old ≡ Err tt }
{
    Ok(Answer::Part {
        attr: Fattr::read(alloc, reader)?,
        bytes: Data::read(alloc, reader)?,
    })
}

#[tactic(auto, unfolding(crate::specs::Answers::names_of))]
fn read_names(alloc: Global, reader: &mut Reader) -> Result<Answer, ItemFault>
    ensures found { IfOk result (λ answer. names_of reader.old ≡ Ok (answer, reader.new)) }
    ensures malformed { result ≡ Err malformed → names_of reader.old ≡ Err tt }
{
    Ok(Answer::Names {
        entries: read_entries(alloc, reader)?,
        eof: bool::read(alloc, reader)?,
    })
}

#[tactic(auto, unfolding(crate::specs::Answers::space_of))]
fn read_space(alloc: Global, reader: &mut Reader) -> Result<Answer, ItemFault>
    ensures found { IfOk result (λ answer. space_of reader.old ≡ Ok (answer, reader.new)) }
    ensures malformed { result ≡ Err malformed → space_of reader.old ≡ Err tt }
{
    Ok(Answer::Space {
        tsize: u32::read(alloc, reader)?,
        bsize: u32::read(alloc, reader)?,
        blocks: u32::read(alloc, reader)?,
        bfree: u32::read(alloc, reader)?,
        bavail: u32::read(alloc, reader)?,
    })
}

// Reads names of a directory, of which there are fewer than bytes.
fn read_entries(alloc: Global, reader: &mut Reader) -> Result<DirEntries, ItemFault>
    ensures found { IfOk result (λ entries. entries_item reader.old ≡ Ok (entries, reader.new)) }
    ensures malformed { result ≡ Err malformed → entries_item reader.old ≡ Err tt }
{
    let most = reader.rest().len();
    let mut entries = Seq::new(alloc);
    for _ in 0..most {
        if !bool::read(alloc, reader)? {
            return Ok(entries);
        }
        entries.push(DirEntry::read(alloc, reader)?)?;
    }
    Err(ItemFault::Malformed)
}
