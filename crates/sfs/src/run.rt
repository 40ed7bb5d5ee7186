ghost use Rattle.std.specs.Prelude.{◌≡◌, ◌↔◌, ℕ, None, map, string_bytes};
ghost use Rattle.make_command.specs.Made.{made_text};
ghost use Rattle.sfs.specs.declared.status.Status.TheVariants as status;
ghost use Rattle.sfs.specs.Command.{asked};
ghost use Rattle.sfs.specs.Run.{Causes, Checks, Makes, Ran, TellsTree, Transcribes, status_of};

use crate::command::Command;
use crate::replay::replay_schedule;
use crate::status::Status;
use check_command::{Found, check_texts};
use line_stream::Stop;
use make_command::make_schedule;
use schedule_text::{Sink, Source};
use std::alloc::Global;
use tree_command::write_tree;

/// Runs the program for these words of its command line. For `replay` it reads a schedule from `input` and writes
/// its transcript to `output`, line by line; for `tree` it reads the images of a cluster and writes the listing of
/// their tree; for `check` it reads a schedule and a transcript behind it, and writes whether that is legal; for `make
/// SEED COUNT` it writes the schedule of that number. All other words are [`Status::Usage`],
/// and touch neither stream. The definitions are those of docs/PROMISES.md, "The headline".
pub fn run<S: Source, K: Sink>(
    alloc: Global,
    words: &[String],
    input: &mut S,
    output: &mut K,
) -> Status
    ensures usage { (result ≡ status.Usage) ↔ (asked (map string_bytes words.now) ≡ None) }
    ensures ran { Ran (asked (map string_bytes words.now)) (S.left input.old) (S.left input.new) (K.held output.old) (K.held output.new) result }
    ensures causes { Causes (S.faults input.old) (S.faults input.new) (K.faults output.old) (K.faults output.new) result }
{
    match Command::of(words) {
        None => Status::Usage,
        Some(Command::Replay) => replay(alloc, input, output),
        Some(Command::Tree) => list_tree(alloc, input, output),
        Some(Command::Check) => check(alloc, input, output),
        Some(Command::Make { seed, count }) => make(alloc, seed, count, output),
    }
}

// The command `replay`.
fn replay<S: Source, K: Sink>(alloc: Global, input: &mut S, output: &mut K) -> Status
    ensures transcript { Transcribes (S.left input.old) (S.left input.new) (K.held output.old) (K.held output.new) result }
    ensures causes { Causes (S.faults input.old) (S.faults input.new) (K.faults output.old) (K.faults output.new) result }
{
    match replay_schedule(alloc, input, output) {
        Ok(ending) => Status::from(ending),
        Err(stop) => Status::from(stop),
    }
}

// The command `tree`.
fn list_tree<S: Source, K: Sink>(alloc: Global, input: &mut S, output: &mut K) -> Status
    ensures listing { TellsTree (S.left input.old) (K.held output.old) (K.held output.new) result }
    ensures causes { Causes (S.faults input.old) (S.faults input.new) (K.faults output.old) (K.faults output.new) result }
{
    match write_tree(alloc, input, output) {
        Ok(tree_command::Ending::Listed) => Status::Done,
        Ok(tree_command::Ending::Refused) => Status::Refused,
        Err(tree_command::Stop::ReadFault) => Status::ReadFault,
        Err(tree_command::Stop::WriteFault) => Status::WriteFault,
        Err(tree_command::Stop::NoMemory) => Status::NoMemory,
    }
}

// The command `check`.
fn check<S: Source, K: Sink>(alloc: Global, input: &mut S, output: &mut K) -> Status
    ensures found { Checks (S.left input.old) (K.held output.old) (K.held output.new) result }
    ensures causes { Causes (S.faults input.old) (S.faults input.new) (K.faults output.old) (K.faults output.new) result }
{
    match check_texts(alloc, input, output) {
        Ok(found) => status_of(found),
        Err(Stop::ReadFault) => Status::ReadFault,
        Err(Stop::WriteFault) => Status::WriteFault,
        Err(Stop::NoMemory) => Status::NoMemory,
    }
}

// How a run ends that found this.
fn status_of(found: Found) -> Status
    ensures { result ≡ status_of found }
{
    match found {
        Found::Holds => Status::Done,
        Found::Fails { .. } => Status::Differs,
        Found::Refused { .. } => Status::Refused,
    }
}

// The command `make`.
fn make<K: Sink>(alloc: Global, seed: u64, count: u32, output: &mut K) -> Status
    ensures made { Makes (made_text seed count) (K.held output.old) (K.held output.new) result }
    ensures causes { (read : ℕ) → Causes read read (K.faults output.old) (K.faults output.new) result }
{
    match make_schedule(alloc, seed, count, output) {
        Ok(()) => Status::Done,
        Err(why) => Status::from(why),
    }
}
