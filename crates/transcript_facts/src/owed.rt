ghost use Rattle.std.specs.Prelude.{◌≡◌, ◌++◌, [], None, option_to_list};
ghost use Rattle.std.specs.Vec.Iter.{into_iter_items};
ghost use Rattle.transcript_facts.specs.Facts.{is_nil};

use fs_listing::Listing;
use sfs_base::Bytes;
use std::alloc::Global;
use std::marker::Model;
use std::vec::IntoIter;

/// The lines of a listing that are still to come. A contract sees the list of them.
#[derive(Drop)]
pub struct Owed {
    lines: IntoIter<Bytes, Global>,
}

impl Model for Owed {
    ghost use Rattle.std.specs.Prelude.{ℕ, List};
    ghost use Rattle.std.specs.Vec.Iter.{into_iter_items};

    ghost Value = { List (List ℕ) };

    ghost view = { λ o. into_iter_items o.lines };
}

impl Owed {
    /// No line. It takes no memory.
    pub fn none(alloc: Global) -> Owed
        ensures { result ≡ [] }
    {
        Owed {
            lines: Vec::new(alloc).into_iter(),
        }
    }

    /// The lines of a listing. It takes no memory.
    pub fn of(listing: Listing) -> Owed
        ensures { result ≡ listing }
    {
        Owed {
            lines: listing.into_vec().into_iter(),
        }
    }

    /// Whether there is no line.
    pub fn is_empty(&self) -> bool
        ensures { result ≡ is_nil self.now }
    {
        self.lines.len() == 0
    }

    /// Takes the first line; `None` exactly where there is none.
    pub fn take(&mut self) -> Option<Bytes>
        ensures items { self.old ≡ option_to_list result ++ self.new }
        ensures last { result ≡ None → self.new ≡ [] }
    {
        self.lines.next()
    }
}
