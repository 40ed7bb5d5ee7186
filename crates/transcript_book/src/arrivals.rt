//! The datagrams that came.
ghost use Rattle.std.specs.Prelude.{◌≡◌, ℕ, ◌+◌, ◌==◌, ◌&&◌, ◌<◌, ◌≤◌, nat_lt, List, [], ◌∷◌, ◌++◌, not, false, length, map, slice_get, filter, Option, Some, None, true, OnOk, OnErr, IfSome, IfNone, count_by};
ghost use Rattle.std.specs.Option.{option_copied};
ghost use Rattle.transcript_rules.specs.declared.arrival.Arrival.{Arrival as AnArrival};
ghost use Rattle.transcript_book.specs.declared.open.Open.{Open as AnOpen};
ghost use Rattle.transcript_rules.specs.Book.{numbered, with_numbered, is_open, first_open};
ghost use Rattle.transcript_rules.specs.Next.{lost_at, with_end, with_point};
ghost use Rattle.transcript_rules.specs.Cause.{is_open_before};
ghost use Rattle.transcript_book.specs.Opens.{opens, open_of, first_of, is_before};

use crate::open::Open;
use sfs_base::NoMemory;
use std::alloc::Global;
use std::marker::Model;
use transcript_rules::{Arrival, Ended};

/// The datagrams that came, numbered from 1. A contract sees the list of them.
#[derive(Debug, Drop)]
pub struct Arrivals {
    told: Vec<Arrival>,
    // Those that run or wait at their nodes, so that the others are not looked at.
    going: Vec<Open>,
}

impl Model for Arrivals {
    ghost use Rattle.std.specs.Prelude.{◌≡◌, List};
    ghost use Rattle.transcript_rules.specs.declared.arrival.Arrival.{Arrival as AnArrival};
    ghost use Rattle.transcript_rules.specs.contracts.arrival.Arrival.{the_row};
    ghost use Rattle.transcript_book.specs.Opens.{opens};

    ghost Value = { List AnArrival };

    ghost view = { λ a. a.told.items };

    ghost invariant = { λ a. a.going.items ≡ opens 1 a.told.items };
}

impl Arrivals {
    /// No arrival. It takes no memory.
    #[tactic(auto, unfolding(crate::specs::Opens::opens))]
    pub fn new(alloc: Global) -> Arrivals
        ensures { result ≡ [] }
    {
        Arrivals {
            told: Vec::new(alloc),
            going: Vec::new(alloc),
        }
    }

    /// How many came.
    pub fn len(&self) -> usize
        ensures { result ≡ length self.now }
    {
        self.told.len()
    }

    /// Arrival `number`; `None` exactly where none has this number.
    pub fn get(&self, number: u64) -> Option<&Arrival>
        ensures { option_copied result ≡ numbered self.now number }
    {
        if number == 0 || number > self.told.len() as u64 {
            return None;
        }
        Some(&self.told[(number - 1) as usize])
    }

    /// One more, which has not ended. [`NoMemory`]: there is no memory for it, and whether it came is not said.
    pub fn arrive(&mut self, arrival: Arrival) -> Result<(), NoMemory>
        requires { arrival.ended ≡ None }
        ensures ok { OnOk result (self.new ≡ self.old ++ arrival ∷ []) }
    {
        let number = next_number(&self.told);
        self.going.reserve(1)?;
        let open = open_of(number, &arrival);
        self.told.push(arrival)?;
        self.going.push(open)?;
        Ok(())
    }

    /// Arrival `number` ends so. Nothing changes where none has this number.
    pub fn end(&mut self, number: u64, how: Ended)
        ensures { self.new ≡ with_numbered self.old number (with_end how) }
    {
        if let Some(index) = place_of(&self.told, number) {
            end_at(&mut self.told, index, how);
            without_number(&mut self.going, number);
        }
    }

    /// Arrival `number` made the change `point`. Nothing changes where none has this number.
    pub fn change(&mut self, number: u64, point: u64)
        ensures { self.new ≡ with_numbered self.old number (with_point point) }
    {
        if let Some(index) = place_of(&self.told, number) {
            change_at(&mut self.told, index, point);
        }
    }

    /// A node goes down, and what ran or waited there is lost. It looks at every arrival.
    pub fn node_down(&mut self, node: u32)
        ensures { self.new ≡ map (lost_at node) self.old }
    {
        lose_at(&mut self.told, node);
        without_node(&mut self.going, node);
    }

    /// The least number of changes that stood before an arrival which has not ended, and at most `points`.
    pub fn least_points(&self, points: u64) -> u64
        ensures bound { result ≤ points }
        ensures each { (a : AnArrival) (k : ℕ) → numbered self.now k ≡ Some a → a.ended ≡ None
            → result ≤ a.points }
    {
        least_points(&self.going, points)
    }

    /// The least number of changes that stood before an arrival other than `number` which has not ended, and at most
    /// `points`.
    pub fn least_points_beside(&self, number: u64, points: u64) -> u64
        ensures bound { result ≤ points }
        ensures each { (a : AnArrival) (k : ℕ) → numbered self.now k ≡ Some a → a.ended ≡ None → (k ≡ number → ⊥)
            → result ≤ a.points }
    {
        least_points_beside(&self.going, number, points)
    }

    /// The arrival that runs at a node: the earliest that has not ended; `None` exactly where there is none.
    pub fn running_at(&self, node: u32) -> Option<u64>
        ensures { result ≡ first_open node 1 self.now }
    {
        first_at(&self.going, node)
    }

    /// How many that run or wait at a node came before the event `now`.
    pub fn open_before(&self, node: u32, now: u64) -> usize
        ensures { result ≡ count_by (is_open_before node now) self.now }
    {
        before_at(&self.going, node, now)
    }
}

fn next_number(told: &[Arrival]) -> u64
    ensures { result ≡ length told.now + 1 }
{
    told.len() as u64 + 1
}

fn open_of(number: u64, arrival: &Arrival) -> Open
    ensures { result ≡ open_of number arrival.now }
{
    Open {
        number,
        node: arrival.node,
        points: arrival.points,
        under: arrival.under,
    }
}

// The place of arrival `number`.
fn place_of(told: &[Arrival], number: u64) -> Option<usize>
    ensures some { IfSome result (λ index. (index < length told.now) × (number ≡ index + 1)) }
    ensures none { IfNone result (0 < number → number ≤ length told.now → ⊥) }
{
    if number > 0 && number <= told.len() as u64 {
        Some((number - 1) as usize)
    } else {
        None
    }
}

fn end_at(told: &mut Vec<Arrival>, index: usize, how: Ended)
    requires { index < length told.old.items }
    ensures { told.new.items ≡ with_numbered told.old.items (index + 1) (with_end how) }
{
    told[index].ended = Some(how);
}

fn change_at(told: &mut Vec<Arrival>, index: usize, point: u64)
    requires { index < length told.old.items }
    ensures { told.new.items ≡ with_numbered told.old.items (index + 1) (with_point point) }
{
    told[index].point = Some(point);
}

fn without_number(going: &mut Vec<Open>, number: u64)
    ensures { going.new.items ≡ filter (λ (o : AnOpen). not (o.number == number)) going.old.items }
{
    going.retain(|one| one.number != number);
}

// What ran or waited at a node ends as lost.
fn lose_at(told: &mut Vec<Arrival>, node: u32)
    ensures { told.new.items ≡ map (lost_at node) told.old.items }
{
    let count = count(told);
    for index in 0..count {
        lose_one_at(told, index, node);
    }
}

fn count(told: &[Arrival]) -> usize
    ensures { result ≡ length told.now }
{
    told.len()
}

fn lose_one_at(told: &mut Vec<Arrival>, index: usize, node: u32)
    requires { index < length told.old.items }
    ensures { told.new.items ≡ with_numbered told.old.items (index + 1) (lost_at node) }
{
    lose(&mut told[index], node);
}

fn lose(arrival: &mut Arrival, node: u32)
    ensures { arrival.new ≡ lost_at node arrival.old }
{
    if arrival.node == node && arrival.ended.is_none() {
        arrival.ended = Some(Ended::Lost);
    }
}

fn without_node(going: &mut Vec<Open>, node: u32)
    ensures { going.new.items ≡ filter (λ (o : AnOpen). not (o.node == node)) going.old.items }
{
    going.retain(|one| one.node != node);
}

// The least number of changes that stood before one of these, and at most so many.
fn least_points(going: &[Open], points: u64) -> u64
    ensures bound { result ≤ points }
    ensures each { (k : ℕ) (o : AnOpen) → slice_get going.now k ≡ Some o → result ≤ o.points }
{
    let mut least = points;
    for one in going {
        if one.points < least {
            least = one.points;
        }
    }
    least
}

// The least number of changes that stood before one of these, but for this one, and at most so many.
fn least_points_beside(going: &[Open], number: u64, points: u64) -> u64
    ensures bound { result ≤ points }
    ensures each { (k : ℕ) (o : AnOpen) → slice_get going.now k ≡ Some o → (o.number ≡ number → ⊥) → result ≤ o.points }
{
    let mut least = points;
    for one in going {
        if one.number != number && one.points < least {
            least = one.points;
        }
    }
    least
}

// The first of some at a node.
fn first_at(going: &[Open], node: u32) -> Option<u64>
    ensures { result ≡ first_of node going.now }
{
    for one in going {
        if one.node == node {
            return Some(one.number);
        }
    }
    None
}

// How many of some at a node came before this event.
fn before_at(going: &[Open], node: u32, now: u64) -> usize
    ensures { result ≡ count_by (is_before node now) going.now }
{
    going
        .iter()
        .filter(|one| one.node == node && one.under < now)
        .count()
}
