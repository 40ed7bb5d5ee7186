ghost use Rattle.std.specs.Prelude.{◌≡◌, ◌==◌, [], ◌∷◌, ◌++◌, if◌then◌else◌, IfOk};
ghost use Rattle.std.specs.Option.{option_map_or};
ghost use Rattle.nfs_proto.specs.declared.answer.Answer.TheVariants.{Fault, Found};
ghost use Rattle.fs_rules.specs.Arguments.{is_dots};
ghost use Rattle.fs_rules.specs.Handle.{handle, number_in};
ghost use Rattle.fs_rules.specs.Statuses.{noent, stale};
ghost use Rattle.plan_rules.specs.Names.{name_steps, target};
ghost use Rattle.plan_rules.specs.Orders.{lookup_steps};
ghost use Rattle.plan_looks.specs.Goes.{Goes};
ghost use Rattle.plan_looks.specs.Live.{IsLive};
ghost use Rattle.read_laws.specs.Answers.{fattr_by, found_by, lookup_by};
ghost use Rattle.plan_read.specs.Lookup.{behind_search, directory_steps};

use fs_checks::{Status, is_dot, is_dot_dot};
use fs_layout::Attrs;
use fs_rules::{Cred, SEARCH, handle_of};
use nfs_proto::{Answer, Handle};
use node_cache::Held;
use plan_content::{fattr_of, ready};
use plan_forms::Reading;
use plan_looks::{LiveFile, Looks, Stop, look_file, look_name, look_record};
use std::alloc::Global;

/// The kind in the record of a number that no file has.
const FREE: u32 = 0;

/// LOOKUP: the file that a name names (RFC 1094, section 2.2.5).
pub(crate) fn lookup(
    alloc: Global,
    held: &Held,
    looks: &mut Looks,
    dir: &Handle,
    name: &[u8],
    cred: &Cred,
) -> Result<Reading, Stop>
    ensures goes { Goes held.now (directory_steps held.now dir.now.0 name.now cred.now ++ lookup_steps held.now (number_in dir.now.0) name.now) looks.old looks.new result }
    ensures gives { IfOk result (λ r. r ≡ lookup_by held.now (number_in dir.now.0) name.now) }
{
    let live = look_directory(held, looks, dir, name, cred)?;
    let answer = look_up(held, looks, dir, live, name)?;
    Ok(ready(alloc, answer))
}

// The directory that a handle names, where the caller may look a name up in it.
fn look_directory(
    held: &Held,
    looks: &mut Looks,
    dir: &Handle,
    name: &[u8],
    cred: &Cred,
) -> Result<LiveFile, Stop>
    ensures goes { Goes held.now (directory_steps held.now dir.now.0 name.now cred.now) looks.old looks.new result }
    ensures gives { IfOk result (IsLive held.now dir.now.0) }
{
    let live = look_file(held, looks, dir)?;
    live.facts.check_named(name, Status::NOENT, cred, SEARCH)?;
    Ok(live)
}

// What is answered of the file that a name names in a directory.
fn look_up(
    held: &Held,
    looks: &mut Looks,
    dir: &Handle,
    live: LiveFile,
    name: &[u8],
) -> Result<Answer, Stop>
    requires { IsLive held.now dir.now.0 live }
    ensures goes { Goes held.now (lookup_steps held.now (number_in dir.now.0) name.now) looks.old looks.new result }
    ensures gives { IfOk result (λ a. a ≡ option_map_or (found_by held.now) (target held.now (number_in dir.now.0) name.now) (Fault noent)) }
{
    let found = look_target(held, looks, dir, live, name)?;
    look_found(held, looks, found)
}

// The number of the file that a name names in a directory: "." is itself, and ".." its parent.
fn look_target(
    held: &Held,
    looks: &mut Looks,
    dir: &Handle,
    live: LiveFile,
    name: &[u8],
) -> Result<Option<u32>, Stop>
    requires { IsLive held.now dir.now.0 live }
    ensures goes { Goes held.now (if is_dots name.now then [] else name_steps held.now (number_in dir.now.0) name.now) looks.old looks.new result }
    ensures gives { IfOk result (λ m. m ≡ target held.now (number_in dir.now.0) name.now) }
{
    if is_dot(name) {
        return Ok(Some(live.number));
    }
    if is_dot_dot(name) {
        return Ok(Some(live.attrs.parent));
    }
    look_name(held, looks, live.number, &live.attrs, name)
}

// What is answered of the file with a number that was found.
fn look_found(held: &Held, looks: &mut Looks, found: Option<u32>) -> Result<Answer, Stop>
    ensures goes { Goes held.now (behind_search found) looks.old looks.new result }
    ensures gives { IfOk result (λ a. a ≡ option_map_or (found_by held.now) found (Fault noent)) }
{
    match found {
        Some(number) => {
            let attrs = look_record(held, looks, number)?;
            Ok(found_by(number, *attrs))
        }
        None => Err(Stop::Refused(Status::NOENT)),
    }
}

// What a client is told of the file with this number and record: a number that no file has is stale.
fn found_by(number: u32, attrs: Attrs) -> Answer
    ensures { result ≡ (if attrs.kind == 0 then Fault stale else Found (record { 0 = handle number attrs.generation }) (fattr_by number attrs)) }
{
    if attrs.kind == FREE {
        return Answer::Fault(Status::STALE.0);
    }
    Answer::Found {
        file: handle_of(number, attrs.generation),
        attr: fattr_of(number, attrs),
    }
}
