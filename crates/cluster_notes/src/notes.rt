use crate::look::Look;
use crate::note::Note;
use mini_tx::TxId;
use sfs_base::NoMemory;
use std::alloc::Global;

/// A note for each node, by its number.
#[derive(Debug, Drop)]
pub struct Notes {
    pub(crate) notes: Vec<Note>,
}

impl Notes {
    ghost use Rattle.std.specs.Prelude.{◌≡◌, ◌<◌, ◌≤◌, ◌++◌, [], ◌∷◌, OnOk, OnErr, Some, length, slice_get, slice_set};
    ghost use Rattle.cluster_notes.specs.Notes.{Noted, cast_of, fresh, heard, voted};
    ghost use Rattle.cluster_notes.specs.Kept.{notes_in};

    /// No note yet. It takes no memory.
    pub fn new(alloc: Global) -> Notes
        ensures { notes_in result ≡ [] }
    {
        Notes {
            notes: Vec::new(alloc),
        }
    }

    /// The note of the next node. [`NoMemory`]: all is as before.
    pub fn push(&mut self, note: Note) -> Result<(), NoMemory>
        ensures ok { OnOk result (notes_in self.new ≡ notes_in self.old ++ note ∷ []) }
        ensures err { OnErr result (notes_in self.new ≡ notes_in self.old) }
    {
        self.notes.push(note)?;
        Ok(())
    }

    /// How many nodes there are. It takes no memory.
    pub fn len(&self) -> usize
        ensures { result ≡ length (notes_in self.now) }
    {
        self.notes.len()
    }

    /// A node began a minitransaction. It takes no memory.
    pub fn begin(&mut self, n: u32, id: TxId, logged: bool)
        requires { n < length (notes_in self.old) }
        ensures { notes_in self.new ≡ slice_set (notes_in self.old) n (fresh id logged) }
    {
        let note = &mut self.notes[n as usize];
        note.begin(id, logged);
    }

    /// A Granted vote left by this message, with a new entry or without one. [`NoMemory`]: there is no memory.
    pub fn vote(&mut self, id: TxId, entered: bool, look: Look) -> Result<(), NoMemory>
        requires { id.coord < length (notes_in self.old) }
        ensures { OnOk result ((note : Noted) → slice_get (notes_in self.old) id.coord ≡ Some note
            → notes_in self.new ≡ slice_set (notes_in self.old) id.coord (voted id entered look note)) }
    {
        let note = &mut self.notes[id.coord as usize];
        note.vote(id, entered, look)
    }

    /// A node has ended what ran by this message. It takes no memory.
    pub fn hear(&mut self, n: u32, message: u64)
        requires { n < length (notes_in self.old) }
        ensures { (note : Noted) → slice_get (notes_in self.old) n ≡ Some note
            → notes_in self.new ≡ slice_set (notes_in self.old) n (heard message note) }
    {
        let note = &mut self.notes[n as usize];
        note.hear(message);
    }

    /// How long the history was just before the last counted vote of a node's outcome was cast. It takes no memory.
    pub fn cast(&self, n: u32) -> u64
        requires { n < length (notes_in self.now) }
        ensures { (note : Noted) → slice_get (notes_in self.now) n ≡ Some note → result ≡ cast_of note }
    {
        self.notes[n as usize].cast()
    }
}
