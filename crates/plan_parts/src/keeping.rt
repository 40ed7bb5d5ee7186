ghost use Rattle.std.specs.Prelude.{◌≡◌, ◌≤◌, ◌<◌, ℕ, List, [], ◌∷◌, ◌++◌, nat_eq, nat_le, length, position, insert, IsSome, OnOk, OnErr};
ghost use Rattle.std.specs.List.{position_or_len};
ghost use Rattle.node_cache.specs.Cached.{held_of};
ghost use Rattle.plan_parts.specs.Entries.{is_number_at};
ghost use Rattle.node_cache.specs.declared.entry.Entry.{Entry};
ghost use Rattle.plan_rules.specs.Fetched.{changed_in, put_entry, with_chain, with_group, with_maps, with_record};

use crate::lookup::is_of;
use fs_layout::Attrs;
use node_cache::{Bytes, Chains, Entry, Groups, Held, HeldChain, HeldEntries, HeldGroup, NoMemory};
use std::alloc::Global;
use std::mem;

/// Holds the record of the file with this number, and nothing else of this file. On [`NoMemory`] all is as before.
pub fn put_record(alloc: Global, held: &mut Held, number: u32, attrs: Attrs) -> Result<(), NoMemory>
    ensures ok { OnOk result (held.new ≡ with_record held.old number attrs) }
    ensures err { OnErr result (held.new ≡ held.old) }
{
    let entry = Entry {
        number,
        attrs,
        chains: Chains::new(alloc),
        groups: Groups::new(alloc),
    };
    put_entry(alloc, &mut held.entries, entry)
}

// Puts an entry in its place, or in that of the one of its number.
fn put_entry(alloc: Global, entries: &mut HeldEntries, entry: Entry) -> Result<(), NoMemory>
    ensures ok { OnOk result (entries.new ≡ put_entry entry entries.old) }
    ensures err { OnErr result (entries.new ≡ entries.old) }
{
    let at = place_of(entries.as_slice(), entry.number);
    if is_there(entries.as_slice(), at, entry.number) {
        entries.replace(at, entry);
        Ok(())
    } else {
        insert(alloc, entries, at, entry)
    }
}

// The place of the first entry whose number is not below this one.
fn place_of(entries: &[Entry], number: u32) -> usize
    ensures exact { result ≡ position_or_len (λ e. nat_le number e.number) entries.now }
    ensures inside { result ≤ length entries.now }
{
    match first_from(entries, number) {
        Some(at) => at,
        None => entries.len(),
    }
}

// Where the first such entry is, if there is one.
fn first_from(entries: &[Entry], number: u32) -> Option<usize>
    ensures { result ≡ position (λ e. nat_le number e.number) entries.now }
{
    entries.iter().position(|entry| is_from(entry, number))
}

// Whether the number of an entry is not below this one.
fn is_from(entry: &Entry, number: u32) -> bool
    ensures { result ≡ nat_le number entry.now.number }
{
    number <= entry.number
}

// Whether the entry at a place has this number.
fn is_there(entries: &[Entry], at: usize, number: u32) -> bool
    ensures { result ≡ is_number_at number entries.now at }
{
    match entries.get(at) {
        Some(entry) => entry.number == number,
        None => false,
    }
}

// Puts an entry at a place, before those from there on.
fn insert(alloc: Global, entries: &mut HeldEntries, at: usize, entry: Entry) -> Result<(), NoMemory>
    requires { at ≤ length entries.old }
    ensures ok { OnOk result (entries.new ≡ insert entries.old at entry) }
    ensures err { OnErr result (entries.new ≡ entries.old) }
{
    let mut items = mem::replace(entries, HeldEntries::new(alloc)).into_vec();
    let inserted = items.insert(at, entry);
    *entries = HeldEntries::from(items);
    match inserted {
        Ok(()) => Ok(()),
        Err(_refused) => Err(NoMemory),
    }
}

/// Holds a chaining block beside what is held of its file. On [`NoMemory`] all is as before.
pub fn push_chain(
    alloc: Global,
    held: &mut Held,
    number: u32,
    chain: HeldChain,
) -> Result<(), NoMemory>
    requires { IsSome (held_of number held.old.entries) }
    ensures ok { OnOk result (held.new ≡ with_chain held.old number chain) }
    ensures err { OnErr result (held.new ≡ held.old) }
{
    add_chain(alloc, &mut held.entries, number, chain)
}

// Adds a chaining block to the entry of this number.
fn add_chain(
    alloc: Global,
    entries: &mut HeldEntries,
    number: u32,
    chain: HeldChain,
) -> Result<(), NoMemory>
    requires { IsSome (held_of number entries.old) }
    ensures ok { OnOk result (entries.new ≡ changed_in number (λ e. record e { chains = e.chains ++ chain ∷ [] }) entries.old) }
    ensures err { OnErr result (entries.new ≡ entries.old) }
{
    let at = place_with(entries.as_slice(), number);
    let mut items = mem::replace(entries, HeldEntries::new(alloc)).into_vec();
    let pushed = extend_chains(&mut items[at], chain);
    *entries = HeldEntries::from(items);
    pushed
}

// Adds a chaining block to an entry.
fn extend_chains(entry: &mut Entry, chain: HeldChain) -> Result<(), NoMemory>
    ensures ok { OnOk result (entry.new ≡ record entry.old { chains = entry.old.chains ++ chain ∷ [] }) }
    ensures err { OnErr result (entry.new ≡ entry.old) }
{
    entry.chains.push(chain)
}

/// Holds a group of slots beside what is held of its directory. On [`NoMemory`] all is as before.
pub fn push_group(
    alloc: Global,
    held: &mut Held,
    number: u32,
    group: HeldGroup,
) -> Result<(), NoMemory>
    requires { IsSome (held_of number held.old.entries) }
    ensures ok { OnOk result (held.new ≡ with_group held.old number group) }
    ensures err { OnErr result (held.new ≡ held.old) }
{
    add_group(alloc, &mut held.entries, number, group)
}

// Adds a group of slots to the entry of this number.
fn add_group(
    alloc: Global,
    entries: &mut HeldEntries,
    number: u32,
    group: HeldGroup,
) -> Result<(), NoMemory>
    requires { IsSome (held_of number entries.old) }
    ensures ok { OnOk result (entries.new ≡ changed_in number (λ e. record e { groups = e.groups ++ group ∷ [] }) entries.old) }
    ensures err { OnErr result (entries.new ≡ entries.old) }
{
    let at = place_with(entries.as_slice(), number);
    let mut items = mem::replace(entries, HeldEntries::new(alloc)).into_vec();
    let pushed = extend_groups(&mut items[at], group);
    *entries = HeldEntries::from(items);
    pushed
}

// Adds a group of slots to an entry.
fn extend_groups(entry: &mut Entry, group: HeldGroup) -> Result<(), NoMemory>
    ensures ok { OnOk result (entry.new ≡ record entry.old { groups = entry.old.groups ++ group ∷ [] }) }
    ensures err { OnErr result (entry.new ≡ entry.old) }
{
    entry.groups.push(group)
}

// The place of the entry of this number, which is there.
fn place_with(entries: &[Entry], number: u32) -> usize
    requires { IsSome (held_of number entries.now) }
    ensures exact { result ≡ position_or_len (λ e. nat_eq number e.number) entries.now }
    ensures inside { result < length entries.now }
{
    first_of(entries, number).unwrap()
}

// Where the entry of this number is, if there is one.
fn first_of(entries: &[Entry], number: u32) -> Option<usize>
    ensures { result ≡ position (λ e. nat_eq number e.number) entries.now }
{
    entries.iter().position(|entry| is_of(entry, number))
}

/// Holds the maps of a memory node. It takes no memory.
pub fn put_maps(held: &mut Held, memory: u32, maps: Bytes)
    requires { memory < length held.old.maps }
    ensures { held.new ≡ with_maps held.old memory maps }
{
    held.maps.replace(memory as usize, Some(maps));
}
