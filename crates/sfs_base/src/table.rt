ghost use Rattle.std.specs.Prelude.{◌≡◌, ℕ, ◌-◌, ◌^◌, ◌<◌, ◌≤◌, ◌==◌, None, slice_get, IfOk, OnOk, OnErr, IsSome, IfSome, OnSome, IfNone};
ghost use Rattle.std.specs.Option.{option_copied};
ghost use Rattle.std.specs.FinMap as map;
ghost use Rattle.std.specs.Map.Iter.{ShowsInOrder, deref_pair};

use crate::no_memory::NoMemory;
use std::alloc::Global;
use std::collections::BTreeMap;
use std::collections::btree_map::Iter;
use std::marker::Model;
use std::mem;

/// A finite table: a value at some of the numbers below 2^32. A contract sees the finite map.
#[derive(Debug, Drop)]
pub struct Table<V> {
    entries: BTreeMap<u32, V>,
}

impl<V> Model for Table<V> {
    ghost use Rattle.std.specs.Ordering.{nat_cmp};
    ghost use Rattle.std.specs.Coded.{coded_ℕ};
    ghost use Rattle.std.specs.FinMap as map;

    ghost Value = { map.FinMap nat_cmp V };

    ghost coded = { map.code coded_ℕ V.code };

    ghost use Rattle.std.specs.BTreeMap.{IsOrdered};

    ghost view = { λ t. map.from_entries t.entries.entries };

    ghost invariant = { λ t. IsOrdered nat_cmp t.entries };
}

impl<V> Table<V> {
    /// The table with no value. It takes no memory.
    pub fn new(alloc: Global) -> Table<V>
        ensures { result ≡ map.empty }
    {
        Table {
            entries: BTreeMap::new(alloc),
        }
    }

    /// The value at a number, if there is one.
    pub fn get(&self, at: u32) -> Option<&V>
        ensures { option_copied result ≡ map.get self.now at }
    {
        self.entries.get(&at)
    }

    /// How many values there are.
    pub fn len(&self) -> usize
        ensures len { result ≡ map.len self.now }
        ensures small { result < 2 ^ 63 }
    {
        self.entries.len()
    }

    /// Whether there is no value.
    pub fn is_empty(&self) -> bool
        ensures { result ≡ (map.len self.now == 0) }
    {
        self.len() == 0
    }

    /// The entries in ascending order of their numbers.
    pub fn iter(&self) -> Iter<'_, u32, V>
        ensures entries { result ≡ map.entries self.now }
        ensures runs { ShowsInOrder (deref_pair {K = ℕ} {X = V}) }
    {
        self.entries.iter()
    }

    /// The least number at or above `at` that has a value, if there is one.
    pub fn next_from(&self, at: u32) -> Option<u32>
        ensures there { IfSome result (λ next. (at ≤ next) × IsSome (map.get self.now next)) }
        ensures least { IfSome result (λ next. (q : ℕ) → at ≤ q → q < next → map.get self.now q ≡ None) }
        ensures none { IfNone result ((q : ℕ) → at ≤ q → map.get self.now q ≡ None) }
    {
        let (next, _) = self.entries.range(at..).next()?;
        let next = *next;
        Some(next)
    }

    /// The greatest number with a value, if there is one.
    pub fn last_key(&self) -> Option<u32>
        ensures { result ≡ slice_get (map.keys self.now) (map.len self.now - 1) }
    {
        let (at, _) = self.entries.last_key_value()?;
        let at = *at;
        Some(at)
    }

    /// Puts a value at a number, and gives the one that stood there. On [`NoMemory`] the table is as before.
    pub fn insert(&mut self, at: u32, value: V) -> Result<Option<V>, NoMemory>
    where
        V: Drop,
        ensures before { IfOk result (λ before. before ≡ map.get self.old at) }
        ensures ok { OnOk result (self.new ≡ map.insert self.old at value) }
        ensures err { OnErr result (self.new ≡ self.old) }
        ensures absent { OnErr result (map.get self.old at ≡ None) }
    {
        Ok(self.entries.insert(at, value)?)
    }

    /// Puts a value at a number that has one, and gives the one that stood there. It takes no memory.
    ///
    /// Where the number has no value the table is as before, and the answer is `None`.
    pub fn replace(&mut self, at: u32, value: V) -> Option<V>
    where
        V: Drop,
        ensures before { result ≡ map.get self.old at }
        ensures some { OnSome result (self.new ≡ map.insert self.old at value) }
        ensures none { IfNone result (self.new ≡ self.old) }
    {
        let stood = self.entries.get_mut(&at)?;
        Some(mem::replace(stood, value))
    }

    /// Takes the value at a number out, if there is one. It takes no memory.
    pub fn remove(&mut self, at: u32) -> Option<V>
        ensures before { result ≡ map.get self.old at }
        ensures removed { self.new ≡ map.remove self.old at }
    {
        self.entries.remove(&at)
    }
}
