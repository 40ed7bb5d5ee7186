//! What moves from the cache into a work set.
ghost use Rattle.std.specs.Prelude.{◌≡◌, ◌≤◌, nat_le, length, position, insert, IfOk, OnOk, OnErr};
ghost use Rattle.std.specs.List.{position_or_len};
ghost use Rattle.node_cache.specs.declared.want.Want.TheVariants as want;
ghost use Rattle.plan_parts.specs.Entries.{is_number_at};
ghost use Rattle.plan_rules.specs.Fetched.{put_entry};
ghost use Rattle.plan_rules.specs.Works.{IsTold, IsWorkSet};
ghost use Rattle.node_rules.specs.Stock.{with_entry};
ghost use Rattle.node_parts.specs.Moves.{IsGone, Moves};

use node_cache::{Cache, Entry, Held, HeldEntries, NoMemory, Want};
use plan_parts::put_maps;
use std::alloc::Global;
use std::mem;

/// What is wanted goes from the cache into a work set, and the answer is whether it was there: the entry of a file whose
/// record is wanted, or a map. [`NoMemory`]: it may be lost.
pub fn take(alloc: Global, want: Want, held: &mut Held, cache: &mut Cache) -> Result<bool, NoMemory>
    requires work { IsWorkSet held.old }
    requires told { IsTold held.old want }
    ensures moves { IfOk result (λ was. Moves (record { held = held.old; cache = cache.old }) want was (record { held = held.new; cache = cache.new })) }
    ensures gone { OnOk result (IsGone want cache.new) }
{
    match want {
        Want::Inode(number) => take_file(alloc, number, held, cache),
        Want::Chain(_, _) | Want::Slots(_, _) => Ok(false),
        Want::Map(memory) => Ok(take_map(memory, held, cache)),
    }
}

// The entry of a file. None of this file is left, since no two are of one.
#[tactic(auto, using(crate::proofs::MoveLemmas::none_left))]
fn take_file(
    alloc: Global,
    number: u32,
    held: &mut Held,
    cache: &mut Cache,
) -> Result<bool, NoMemory>
    ensures moves { IfOk result (λ was. Moves (record { held = held.old; cache = cache.old }) (want.Inode number) was (record { held = held.new; cache = cache.new })) }
    ensures gone { OnOk result (IsGone (want.Inode number) cache.new) }
{
    let _ = cache.len();
    match cache.get(number) {
        Some(entry) => {
            hold(alloc, held, entry)?;
            Ok(true)
        }
        None => Ok(false),
    }
}

// The maps of a memory node.
fn take_map(memory: u32, held: &mut Held, cache: &mut Cache) -> bool
    requires work { IsWorkSet held.old }
    requires told { IsTold held.old (want.Map memory) }
    ensures { Moves (record { held = held.old; cache = cache.old }) (want.Map memory) result (record { held = held.new; cache = cache.new }) }
{
    match cache.get_map(memory) {
        Some(maps) => {
            put_maps(held, memory, maps);
            true
        }
        None => false,
    }
}

// Holds an entry. On [`NoMemory`] the work set is as before.
fn hold(alloc: Global, held: &mut Held, entry: Entry) -> Result<(), NoMemory>
    ensures ok { OnOk result (held.new ≡ with_entry held.old entry) }
    ensures err { OnErr result (held.new ≡ held.old) }
{
    put_entry(alloc, &mut held.entries, entry)
}

// Puts an entry in its place, or in that of the one of its number.
fn put_entry(alloc: Global, entries: &mut HeldEntries, entry: Entry) -> Result<(), NoMemory>
    ensures ok { OnOk result (entries.new ≡ put_entry entry entries.old) }
    ensures err { OnErr result (entries.new ≡ entries.old) }
{
    let at = place_of(entries.as_slice(), entry.number);
    if is_there(entries.as_slice(), at, entry.number) {
        entries.replace(at, entry);
        Ok(())
    } else {
        insert(alloc, entries, at, entry)
    }
}

// The place of the first entry whose number is not below this one.
fn place_of(entries: &[Entry], number: u32) -> usize
    ensures exact { result ≡ position_or_len (λ e. nat_le number e.number) entries.now }
    ensures inside { result ≤ length entries.now }
{
    match first_from(entries, number) {
        Some(at) => at,
        None => entries.len(),
    }
}

// Where the first such entry is, if there is one.
fn first_from(entries: &[Entry], number: u32) -> Option<usize>
    ensures { result ≡ position (λ e. nat_le number e.number) entries.now }
{
    entries.iter().position(|entry| is_from(entry, number))
}

// Whether the number of an entry is not below this one.
fn is_from(entry: &Entry, number: u32) -> bool
    ensures { result ≡ nat_le number entry.now.number }
{
    number <= entry.number
}

// Whether the entry at a place has this number.
fn is_there(entries: &[Entry], at: usize, number: u32) -> bool
    ensures { result ≡ is_number_at number entries.now at }
{
    match entries.get(at) {
        Some(entry) => entry.number == number,
        None => false,
    }
}

// Puts an entry at a place, before those from there on.
fn insert(alloc: Global, entries: &mut HeldEntries, at: usize, entry: Entry) -> Result<(), NoMemory>
    requires { at ≤ length entries.old }
    ensures ok { OnOk result (entries.new ≡ insert entries.old at entry) }
    ensures err { OnErr result (entries.new ≡ entries.old) }
{
    let mut items = mem::replace(entries, HeldEntries::new(alloc)).into_vec();
    let inserted = items.insert(at, entry);
    *entries = HeldEntries::from(items);
    match inserted {
        Ok(()) => Ok(()),
        Err(_refused) => Err(NoMemory),
    }
}
