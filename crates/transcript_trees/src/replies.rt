ghost use Rattle.std.specs.Prelude.{◌≡◌, ◌+◌, ◌<◌, ◌≤◌, ◌∷◌, ◌++◌, [], length, None, Some, OnOk, IfSome, IfNone, slice_get};
ghost use Rattle.std.specs.Option.{option_copied};
ghost use Rattle.transcript_rules.specs.Book.{numbered, with_numbered};
ghost use Rattle.transcript_trees.specs.Kept.{is_given, is_reply, with_reply};

use sfs_base::{Bytes, NoMemory};
use std::alloc::Global;
use std::marker::Model;

/// The replies that were made with the changes of arrivals, with a place for each arrival. A contract sees the list of
/// them.
#[derive(Debug, Drop)]
pub struct Replies {
    made: Vec<Option<Bytes>>,
}

impl Model for Replies {
    ghost use Rattle.std.specs.Prelude.{ℕ, List, Option};

    ghost Value = { List (Option (List ℕ)) };

    ghost view = { λ r. r.made.items };
}

impl Replies {
    /// No arrival. It takes no memory.
    pub fn new(alloc: Global) -> Replies
        ensures { result ≡ [] }
    {
        Replies {
            made: Vec::new(alloc),
        }
    }

    /// An arrival more, which has made no change. [`NoMemory`]: there is no memory for it.
    pub fn come(&mut self) -> Result<(), NoMemory>
        ensures { OnOk result (self.new ≡ self.old ++ None ∷ []) }
    {
        self.made.push(None)?;
        Ok(())
    }

    /// The reply of arrival `number` is made. Nothing changes where none has this number.
    pub fn make(&mut self, number: u64, reply: Bytes)
        ensures { self.new ≡ with_numbered self.old number (with_reply reply) }
    {
        if let Some(index) = place_of(self.made.len(), number) {
            make_at(&mut self.made, index, reply);
        }
    }

    /// Whether these are the bytes of the reply that was made for arrival `number`.
    pub fn is(&self, number: u64, bytes: &Bytes) -> bool
        ensures { result ≡ is_given bytes.now (numbered self.now number) }
    {
        if number == 0 || number > self.made.len() as u64 {
            return false;
        }
        is_reply(bytes, self.made[(number - 1) as usize].as_ref())
    }
}

// The place of arrival or backup `number` of so many.
pub(crate) fn place_of(count: usize, number: u64) -> Option<usize>
    ensures some { IfSome result (λ index. (index < count) × (number ≡ index + 1)) }
    ensures none { IfNone result (0 < number → number ≤ count → ⊥) }
{
    if number > 0 && number <= count as u64 {
        Some((number - 1) as usize)
    } else {
        None
    }
}

fn make_at(made: &mut Vec<Option<Bytes>>, index: usize, reply: Bytes)
    requires { index < length made.old.items }
    ensures { made.new.items ≡ with_numbered made.old.items (index + 1) (with_reply reply) }
{
    made[index] = Some(reply);
}

// Whether there is a reply, and it has these bytes.
fn is_reply(bytes: &Bytes, reply: Option<&Bytes>) -> bool
    ensures { result ≡ is_reply bytes.now (option_copied reply.entry) }
{
    match reply {
        Some(reply) => reply.as_slice() == bytes.as_slice(),
        None => false,
    }
}
