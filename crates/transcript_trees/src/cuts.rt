ghost use Rattle.std.specs.Prelude.{◌≡◌, ◌+◌, ◌<◌, ◌≤◌, ◌∷◌, ◌++◌, [], length, None, Some, OnOk, IfOk};
ghost use Rattle.transcript_rules.specs.Book.{numbered, with_numbered};
ghost use Rattle.transcript_trees.specs.Kept.{lines_of, lines_of_cut, with_tree};

use crate::replies::place_of;
use fs_tree::{Listing, Tree};
use sfs_base::NoMemory;
use std::alloc::Global;

/// The trees of the cuts of backups, with a place for each backup.
#[derive(Debug, Drop)]
pub struct Cuts {
    pub trees: Vec<Option<Tree>>,
}

impl Cuts {
    /// No backup. It takes no memory.
    pub fn new(alloc: Global) -> Cuts
        ensures { result.trees.items ≡ [] }
    {
        Cuts {
            trees: Vec::new(alloc),
        }
    }

    /// A backup more, which has no cut. [`NoMemory`]: there is no memory for it.
    pub fn begin(&mut self) -> Result<(), NoMemory>
        ensures { OnOk result (self.new.trees.items ≡ self.old.trees.items ++ None ∷ []) }
    {
        self.trees.push(None)?;
        Ok(())
    }

    /// The cut of backup `number` is this tree. Nothing changes where none has this number.
    pub fn keep(&mut self, number: u64, tree: Tree)
        ensures { self.new.trees.items ≡ with_numbered self.old.trees.items number (with_tree tree) }
    {
        if let Some(index) = place_of(self.trees.len(), number) {
            keep_at(&mut self.trees, index, tree);
        }
    }

    /// The lines of the listing of the cut of backup `number`; none where it has no cut. [`NoMemory`]: there is no
    /// memory for them.
    pub fn listing(&self, alloc: Global, number: u64) -> Result<Listing, NoMemory>
        ensures { IfOk result (λ lines. lines ≡ lines_of (numbered self.now.trees.items number)) }
    {
        if number == 0 || number > self.trees.len() as u64 {
            return Ok(Listing::new(alloc));
        }
        listing_of(alloc, &self.trees[(number - 1) as usize])
    }
}

fn keep_at(trees: &mut Vec<Option<Tree>>, index: usize, tree: Tree)
    requires { index < length trees.old.items }
    ensures { trees.new.items ≡ with_numbered trees.old.items (index + 1) (with_tree tree) }
{
    trees[index] = Some(tree);
}

// The lines of the listing of a tree, if there is one.
fn listing_of(alloc: Global, tree: &Option<Tree>) -> Result<Listing, NoMemory>
    ensures { IfOk result (λ lines. lines ≡ lines_of_cut tree.now) }
{
    match tree {
        Some(tree) => tree.listing(),
        None => Ok(Listing::new(alloc)),
    }
}
