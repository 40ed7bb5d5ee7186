//! The program `sfs`: it replays a schedule of arrivals over one plain file system, and writes the
//! transcript.
//!
//! - [`run`]: the words of the command line, an input and an output, to a status; `command`: what the words ask for.
//! - `replay`, `turn`, `ending`: the turns of a replay; `transcript`: what it writes.
//! - `world`, `events`, `step`: the plain world, and what an event makes of it.
//! - `status`: how a run ends.
//! - `standard_input`, `standard_output`: the streams of the process.
#![tactic(auto)]

ghost use Rattle.std.specs.Prelude.{◌≡◌};
ghost use Rattle.std.specs.Process.{exit_status};
ghost use Rattle.sfs.specs.Status.{code_of};

mod command;
mod ending;
mod events;
mod replay;
mod run;
mod standard_input;
mod standard_output;
mod status;
mod step;
mod transcript;
mod turn;
mod world;

use crate::run::run;
use crate::standard_input::StandardInput;
use crate::standard_output::StandardOutput;
use crate::status::Status;
use std::env;
use std::io::ErrorKind;
use std::process::ExitCode;

fn main(rt: HostRuntime) -> ExitCode {
    let status = run_words(&rt);
    exit_code(&rt, status)
}

// How the process ends with this status: its number, and its words on standard error but for Done. Where
// standard error fails too, the exit status is all that is left to tell.
fn exit_code<R: Eprint>(rt: &R, status: Status) -> ExitCode
    ensures { exit_status result ≡ code_of status }
{
    if status != Status::Done {
        let _ = eprintln!(rt; "sfs: {status}");
    }
    ExitCode::from(status.code())
}

// Runs the program for the words behind its name. Words that are not UTF-8 are none that it knows.
fn run_words(rt: &HostRuntime) -> Status {
    let words = match env::args(rt) {
        Ok(words) => words,
        Err(error) if error.kind() == ErrorKind::OutOfMemory => return Status::NoMemory,
        Err(_) => return Status::Usage,
    };
    let words: Vec<String> = match words.skip(1).collect(rt.alloc()) {
        Ok(words) => words,
        Err(_) => return Status::NoMemory,
    };
    let mut input = StandardInput::new(rt.stdin());
    let mut output = StandardOutput::new(rt.stdout());
    run(rt.alloc(), words.as_slice(), &mut input, &mut output)
}
