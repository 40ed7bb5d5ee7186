ghost use Rattle.std.specs.Prelude.{◌≡◌};
ghost use Rattle.cluster_notes.specs.Notes.{Noted};

use crate::look::Look;
use mini_tx::TxId;
use sfs_base::NoMemory;
use std::alloc::Global;
use std::marker::Model;

/// What is noted of the minitransaction that a node began last.
#[derive(Debug, Drop)]
pub struct Note {
    id: TxId,
    /// Its votes have entries.
    logged: bool,
    /// How long the history was just before its last vote with an entry was cast.
    entered: u64,
    looks: Vec<Look>,
    /// How long the history was just before the look that was counted.
    counted: u64,
}

impl Model for Note {
    ghost Value = { Noted };

    ghost view = { λ n. record {
      id = n.id;
      logged = n.logged;
      entered = n.entered;
      looks = n.looks.items;
      counted = n.counted;
    } };
}

impl Note {
    ghost use Rattle.std.specs.Prelude.{◌++◌, ◌∷◌, [], OnOk, if◌then◌else◌};
    ghost use Rattle.cluster_notes.specs.Notes.{cast_of, fresh, heard, look_at, voted, with_look};

    /// Nothing was voted on this identifier yet. It takes no memory.
    pub fn new(alloc: Global, id: TxId, logged: bool) -> Note
        ensures { result ≡ fresh id logged }
    {
        Note {
            id,
            logged,
            entered: 0,
            looks: Vec::new(alloc),
            counted: 0,
        }
    }

    /// A minitransaction of this identifier was begun. It takes no memory.
    pub fn begin(&mut self, id: TxId, logged: bool)
        ensures { self.new ≡ fresh id logged }
    {
        self.id = id;
        self.logged = logged;
        self.entered = 0;
        self.looks.clear();
        self.counted = 0;
    }

    /// A Granted vote on an identifier left by this message, with a new entry or without one. [`NoMemory`]: there
    /// is no memory.
    pub fn vote(&mut self, id: TxId, entered: bool, look: Look) -> Result<(), NoMemory>
        ensures { OnOk result (self.new ≡ voted id entered look self.old) }
    {
        if !id.is_same(self.id) {
            return Ok(());
        }
        if entered {
            self.entered = look.at;
        }
        self.add(look)
    }

    /// One look more, where votes have no entries. [`NoMemory`]: nothing is added.
    fn add(&mut self, look: Look) -> Result<(), NoMemory>
        ensures { OnOk result (self.new ≡ with_look look self.old) }
    {
        if !self.logged {
            self.looks.push(look)?;
        }
        Ok(())
    }

    /// The look of this message was counted. It takes no memory.
    pub fn hear(&mut self, message: u64)
        ensures { self.new ≡ heard message self.old }
    {
        self.counted = place_of(&self.looks, message);
    }

    /// How long the history was just before its last counted vote was cast. It takes no memory.
    pub fn cast(&self) -> u64
        ensures { result ≡ cast_of self.now }
    {
        if self.logged {
            self.entered
        } else {
            self.counted
        }
    }
}

ghost use Rattle.cluster_notes.specs.Notes.{look_at};

/// How long the history was at the look of this message; 0 where there is none.
fn place_of(looks: &[Look], message: u64) -> u64
    ensures { result ≡ look_at looks.now message }
{
    for look in looks {
        if look.message == message {
            return look.at;
        }
    }
    0
}
