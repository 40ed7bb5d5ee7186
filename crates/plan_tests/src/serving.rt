ghost use Rattle.std.specs.Prelude.{◌≡◌, ℕ, List, Some, IsTrue, Ok, IfOk};
ghost use Rattle.std.specs.List.{list_all};
ghost use Rattle.fs_rules.specs.Geometry.{IsWithinLimits};
ghost use Rattle.plan_forms.specs.Forms.{AreReadsFor};
ghost use Rattle.plan_read.specs.Readings.{IsReading};
ghost use Rattle.plan_rules.specs.Fetched.{AreReads, fetched};
ghost use Rattle.plan_rules.specs.Works.{IsTold, IsWorkSet};
ghost use Rattle.want_laws.specs.Laws.{HasNumbers};
ghost use Rattle.plan_tests.specs.Within.{fits, is_within};

use fs_rules::{Cred, number_at};
use mini_tx::{Bytes, Item, Mini, Reads, perform};
use nfs_proto::{Answer, Call, Stamp};
use node_cache::{Geometry, Held, NoMemory, Want};
use plan_laws::empty_is_in_order;
use plan_parts::is_number;
use plan_read::{AnswerForm, KeepFault, Plan, fetch, keep, plan};
use std::alloc::Global;

/// One node and one memory node, with eight blocks and eight inodes.
pub const SMALL: Geometry = Geometry {
    nodes: 1,
    memories: 1,
    blocks: 8,
    inodes: 8,
};

/// What a step of a call came to.
#[derive(Debug, Drop)]
pub enum Step {
    /// This part was read, and is held now.
    Held(Want),
    /// What was read of this part is unfit; the first record or block that is lies there.
    Damaged { want: Want, memory: u32, at: u32 },
    /// A comparison did not match, or an item lies outside of the memory.
    Stale,
    /// The answer to the call.
    Answered(Answer),
}

/// Takes a call over a flat memory a step further: it reads the part that the call wants next and holds it, or performs its
/// final minitransaction and makes the answer.
pub fn serve(
    alloc: Global,
    call: &Call,
    cred: &Cred,
    held: &mut Held,
    flat: &mut [Bytes],
) -> Result<Step, NoMemory>
    requires work { IsWorkSet held.old }
    requires call { IsReading call.now }
    ensures { IsWorkSet held.new }
{
    if !has_numbers(&held.geometry, call) {
        return Ok(Step::Stale);
    }
    let now = Stamp { sec: 0, usec: 0 };
    match plan(alloc, call, cred, now, 0, held)? {
        Plan::Need(want) => hold(alloc, want, held, flat),
        Plan::Final { mini, answer, .. } => answer_of(alloc, &mini, answer, flat),
    }
}

/// Takes a call over a flat memory so many steps further, or up to one that holds no part.
pub fn run(
    alloc: Global,
    call: &Call,
    cred: &Cred,
    held: &mut Held,
    flat: &mut [Bytes],
    steps: u32,
) -> Result<Step, NoMemory>
    requires work { IsWorkSet held.old }
    requires call { IsReading call.now }
    ensures { IsWorkSet held.new }
{
    if steps == 0 {
        return Ok(Step::Stale);
    }
    match serve(alloc, call, cred, held, flat)? {
        Step::Held(_) => run(alloc, call, cred, held, flat, steps - 1),
        other => Ok(other),
    }
}

/// The empty work set of a small cluster.
pub fn nothing_held(alloc: Global) -> Result<Held, NoMemory>
    ensures { IfOk result IsWorkSet }
{
    empty(alloc, SMALL)
}

/// The empty work set of a cluster.
pub fn empty(alloc: Global, geometry: Geometry) -> Result<Held, NoMemory>
    requires { IsWithinLimits geometry }
    ensures { IfOk result IsWorkSet }
{
    empty_is_in_order();
    Held::new(alloc, geometry)
}

// Whether the handle of a call that reads has a number of this cluster.
fn has_numbers(geometry: &Geometry, call: &Call) -> bool
    ensures { IsTrue result → HasNumbers geometry.now call.now }
{
    match call {
        Call::GetAttr { file } => is_number(geometry, number_at(file)),
        Call::Lookup { dir, .. } => is_number(geometry, number_at(dir)),
        Call::ReadLink { file } => is_number(geometry, number_at(file)),
        Call::Read { file, .. } => is_number(geometry, number_at(file)),
        Call::ReadDir { dir, .. } => is_number(geometry, number_at(dir)),
        Call::StatFs { file } => is_number(geometry, number_at(file)),
        _ => false,
    }
}

// Reads a part, and holds it.
fn hold(alloc: Global, want: Want, held: &mut Held, flat: &mut [Bytes]) -> Result<Step, NoMemory>
    requires work { IsWorkSet held.old }
    requires told { IsTold held.old want }
    ensures { IsWorkSet held.new }
{
    let mini = fetch(alloc, &want, held)?;
    match granted(alloc, &mini, flat)? {
        Some(reads) => kept(alloc, want, &reads, held),
        None => Ok(Step::Stale),
    }
}

// Holds what was read of a part.
fn kept(alloc: Global, want: Want, reads: &Reads, held: &mut Held) -> Result<Step, NoMemory>
    requires work { IsWorkSet held.old }
    requires told { IsTold held.old want }
    requires reads { AreReads (fetched held.old want) reads.now }
    ensures { IsWorkSet held.new }
{
    match keep(alloc, &want, reads, held) {
        Ok(()) => Ok(Step::Held(want)),
        Err(KeepFault::Damaged { memory, at }) => Ok(Step::Damaged { want, memory, at }),
        Err(KeepFault::NoMemory) => Err(NoMemory),
    }
}

// Performs a final minitransaction, and makes the answer.
fn answer_of(
    alloc: Global,
    mini: &Mini,
    form: AnswerForm,
    flat: &mut [Bytes],
) -> Result<Step, NoMemory>
    requires { (rs : List (List ℕ)) → AreReads mini.now rs → AreReadsFor form rs }
{
    match granted(alloc, mini, flat)? {
        Some(reads) => Ok(Step::Answered(form.finish(alloc, &reads)?)),
        None => Ok(Step::Stale),
    }
}

// What a minitransaction reads, where it matches.
fn granted(alloc: Global, mini: &Mini, flat: &mut [Bytes]) -> Result<Option<Reads>, NoMemory>
    ensures { (rs : List (List ℕ)) → result ≡ Ok (Some rs) → AreReads mini.now rs }
{
    if !are_within(mini.items().as_slice(), flat) {
        return Ok(None);
    }
    perform(alloc, mini, flat)
}

// Whether all items lie within the memory.
fn are_within(items: &[Item], flat: &[Bytes]) -> bool
    ensures { result ≡ list_all (is_within flat.now) items.now }
{
    items.iter().all(|item| is_within(item, flat))
}

// Whether an item lies within what its memory node holds.
fn is_within(item: &Item, flat: &[Bytes]) -> bool
    ensures { result ≡ is_within flat.now item.now }
{
    match item {
        Item::Compare { memory, at, bytes } => fits(flat, *memory, *at, bytes.len()),
        Item::Read { memory, at, length } => fits(flat, *memory, *at, *length as usize),
        Item::Write { memory, at, bytes } => fits(flat, *memory, *at, bytes.len()),
    }
}

// Whether a memory node is there and holds so many bytes from a place on.
fn fits(flat: &[Bytes], memory: u32, at: u32, len: usize) -> bool
    ensures { result ≡ fits flat.now memory at len }
{
    match flat.get(memory as usize) {
        Some(image) => image.len() >= at as usize && image.len() - at as usize >= len,
        None => false,
    }
}
