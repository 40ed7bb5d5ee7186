//! A queue of messages as the calls of a link.

ghost use Rattle.std.specs.Prelude.{◌≡◌, ◌<◌, ◌+◌, ℕ, List, Option, None, Some, ◌∷◌, ◌≤◌, IsTrue, false, length, slice_get, option_map, IfSome, IfNone};
ghost use Rattle.mini_tx.specs.declared.posted.Posted.{Posted as PostedOn};
ghost use Rattle.link_model.specs.Links.{IsAlike, IsPassed};
ghost use Rattle.std.specs.Option.{option_map_or};
ghost use Rattle.link_model.specs.declared.place.Place.{Place as PlaceOf};
ghost use Rattle.link_model.specs.Places.{over};
ghost use Rattle.link_model.specs.Slots.{AreOf, IsFirstBut, IsFirstSlot, changed_at, index_of, slot_of, there_at};
ghost use Rattle.link_model.specs.Local.{shown_in, slots_in, stands_for};
ghost use Rattle.link_model.specs.SlotLemmas.{sound_of};

use crate::link::Link;
use crate::local_link::LocalLink;
use crate::place::Place;
use mini_tx::{Actor, Message, Posted};
use sfs_base::NoMemory;
use std::collections::VecDeque;

impl Link for LocalLink {
    ghost shown = { shown_in };

    ghost stands = { stands_for };

    fn post(&mut self, from: Actor, to: Actor, message: Message) -> Result<u64, NoMemory> {
        let posted = Posted { from, to, message };
        self.slots.push_back(Some(Place {
            posted,
            waits: true,
        }))?;
        Ok(self.gone + self.slots.len() as u64)
    }

    fn get(&mut self, k: u64) -> Result<Option<Posted>, NoMemory> {
        match self.index(k) {
            Some(index) => {
                let given = self.take(k, index);
                self.let_go();
                self.let_go();
                Ok(given)
            }
            None => Ok(None),
        }
    }

    fn peek(&self, k: u64) -> Option<&Posted> {
        let index = self.index(k)?;
        match &self.slots[index] {
            Some(place) => Some(&place.posted),
            None => None,
        }
    }

    fn lose(&mut self, k: u64) -> bool {
        if let Some(index) = self.index(k) {
            self.pass(k, index);
        }
        0 < k && k <= self.gone + self.slots.len() as u64
    }

    fn lowest(&self) -> Option<u64> {
        if self.first < self.slots.len() {
            Some(self.gone + self.first as u64 + 1)
        } else {
            None
        }
    }

    ghost sound = { λ l posted is. sound_of posted l.gone (slots_in l) is };
}

impl LocalLink {
    // Where the message of this number lies, if there is a slot for it.
    fn index(&self, k: u64) -> Option<usize>
        ensures some { IfSome result (λ i. (index_of self.now.gone k ≡ Some i) × (i < length (slots_in self.now))) }
        ensures none { IfNone result (slot_of self.now.gone (slots_in self.now) k ≡ None) }
    {
        if k <= self.gone {
            return None;
        }
        let index = (k - self.gone - 1) as usize;
        if index < self.slots.len() {
            Some(index)
        } else {
            None
        }
    }

    // Takes message `k`, which lies at this index, out.
    fn take(&mut self, k: u64, index: usize) -> Option<Posted>
        requires at { index_of self.old.gone k ≡ Some index }
        requires there { index < length (slots_in self.old) }
        ensures given { result ≡ (shown_in self.old).there k }
        ensures passed { IsPassed k (shown_in self.old) (shown_in self.new) }
        ensures stands { (posted : List PostedOn) → AreOf posted self.old.gone (slots_in self.old) → AreOf posted self.new.gone (slots_in self.new) }
    {
        let given = take_at(&mut self.slots, index);
        self.first = first_after(&self.slots, self.first, index);
        given.map(|place| place.posted)
    }

    // Message `k`, which lies at this index, waits no more.
    fn pass(&mut self, k: u64, index: usize)
        requires at { index_of self.old.gone k ≡ Some index }
        requires there { index < length (slots_in self.old) }
        ensures there { (shown_in self.new).there k ≡ (shown_in self.old).there k }
        ensures passed { IsPassed k (shown_in self.old) (shown_in self.new) }
        ensures stands { (posted : List PostedOn) → AreOf posted self.old.gone (slots_in self.old) → AreOf posted self.new.gone (slots_in self.new) }
    {
        lose_at(&mut self.slots, index);
        self.first = first_after(&self.slots, self.first, index);
    }

    // Lets the first slot go where its message was given.
    fn let_go(&mut self)
        ensures alike { IsAlike (shown_in self.old) (shown_in self.new) }
        ensures stands { (posted : List PostedOn) → AreOf posted self.old.gone (slots_in self.old) → AreOf posted self.new.gone (slots_in self.new) }
    {
        if begins_given(&self.slots) {
            drop_first(&mut self.slots);
            self.gone += 1;
            self.first -= 1;
        }
    }
}

// Whether the message of the first slot was given.
fn begins_given(slots: &VecDeque<Option<Place>>) -> bool
    ensures { IsTrue result → slice_get slots.now.items 0 ≡ Some None }
{
    match slots.front() {
        Some(slot) => slot.is_none(),
        None => false,
    }
}

// Takes the first slot away, whose message was given.
fn drop_first(slots: &mut VecDeque<Option<Place>>)
    requires { slice_get slots.old.items 0 ≡ Some None }
    ensures { slots.old.items ≡ None ∷ slots.new.items }
{
    let _given = slots.pop_front();
}

// Takes the message of a slot out.
fn take_at(slots: &mut VecDeque<Option<Place>>, index: usize) -> Option<Place>
    requires { index < length slots.old.items }
    ensures given { result ≡ there_at slots.old.items index }
    ensures slots { slots.new.items ≡ changed_at slots.old.items index None }
{
    slots[index].take()
}

// The message of a slot waits no more.
fn lose_at(slots: &mut VecDeque<Option<Place>>, index: usize)
    requires { index < length slots.old.items }
    ensures { slots.new.items ≡ changed_at slots.old.items index (option_map over (there_at slots.old.items index)) }
{
    if let Some(place) = &mut slots[index] {
        place.waits = false;
    }
}

// The first slot that waits, where the one with this index does no more.
fn first_after(slots: &VecDeque<Option<Place>>, first: usize, index: usize) -> usize
    requires { IsFirstBut slots.now.items first index }
    ensures { IsFirstSlot slots.now.items result }
{
    if first == index {
        first_from(slots, first)
    } else {
        first
    }
}

// The first slot that waits, from one on before which none does.
fn first_from(slots: &VecDeque<Option<Place>>, from: usize) -> usize
    requires within { from ≤ length slots.now.items }
    requires passed { (i : ℕ) (p : PlaceOf) → i < from → there_at slots.now.items i ≡ Some p → p.waits ≡ false }
    ensures { IsFirstSlot slots.now.items result }
{
    for index in from..slots.len() {
        if waits(&slots[index]) {
            return index;
        }
    }
    slots.len()
}

fn waits(slot: &Option<Place>) -> bool
    ensures { result ≡ option_map_or (λ (p : PlaceOf). p.waits) slot.now false }
{
    match slot {
        Some(place) => place.waits,
        None => false,
    }
}
