ghost use Rattle.std.specs.Prelude.{◌≡◌, bytes_eq, None, IfOk, IfErr};
ghost use Rattle.fs_rules.specs.Handle.{handle, number_in};
ghost use Rattle.fs_rules.specs.Statuses.{stale};
ghost use Rattle.plan_rules.specs.Orders.{handle_steps};
ghost use Rattle.plan_looks.specs.Goes.{Goes};
ghost use Rattle.plan_looks.specs.Live.{IsLive, IsLiveBy, file_by};

use crate::looks::{Looks, look_record};
use crate::stop::Stop;
use fs_checks::{Facts, Status};
use fs_layout::Attrs;
use fs_rules::{Handle, handle_of, number_at};
use node_cache::Held;

/// A live file that a handle names: its number, its record and the facts that this tells.
#[derive(Clone, Copy, Debug, PartialEq, Eq)]
pub struct LiveFile {
    pub number: u32,
    pub attrs: Attrs,
    pub facts: Facts,
}

/// Looks at the record of the file that a handle names, and checks that the file lives and the handle is its own.
///
/// # Errors
///
/// [`Stop::Need`] where the record is not held, [`Status::STALE`] where it is that of no such file.
pub fn look_file(held: &Held, looks: &mut Looks, handle: &Handle) -> Result<LiveFile, Stop>
    ensures goes { Goes held.now (handle_steps held.now handle.now.0) looks.old looks.new result }
    ensures gives { IfOk result (IsLive held.now handle.now.0) }
{
    let attrs = *look_record(held, looks, number_at(handle))?;
    Ok(live_by(attrs, handle)?)
}

// The file that a handle names, by the record of its number.
fn live_by(attrs: Attrs, handle: &Handle) -> Result<LiveFile, Status>
    ensures found { IfOk result (IsLiveBy handle.now.0 attrs) }
    ensures stale { IfErr result (λ s. s.0 ≡ stale) }
    ensures none { IfErr result (λ s. file_by handle.now.0 attrs ≡ None) }
{
    match Facts::of_record(&attrs) {
        Some(facts) => {
            if is_of(handle, facts.generation) {
                Ok(LiveFile {
                    number: number_at(handle),
                    attrs,
                    facts,
                })
            } else {
                Err(Status::STALE)
            }
        }
        None => Err(Status::STALE),
    }
}

// Whether a handle is that of its number with this generation.
fn is_of(given: &Handle, generation: u32) -> bool
    ensures { result ≡ bytes_eq given.now.0 (handle (number_in given.now.0) generation) }
{
    given.0 == handle_of(number_at(given), generation).0
}
