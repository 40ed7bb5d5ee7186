ghost use Rattle.std.specs.Prelude.{◌≡◌, ◌<◌, true, slice_index};
ghost use Rattle.fs_rules.specs.declared.plain_tree.PlainTree.{PlainTree};
ghost use Rattle.fs_decisions.specs.Given.{is_given, AllAreGiven};

use fs_rules::{MAX_INODES, MAX_MEMORIES};

/// How many numbers of each memory node, from its lowest one on, a file has or had: among them only a freed
/// one can be free.
#[derive(Clone, Copy, Debug, PartialEq, Eq)]
pub struct GivenNumbers {
    counts: [u32; MAX_MEMORIES as usize],
}

impl GivenNumbers {
    /// No number was given.
    pub fn none() -> GivenNumbers
        ensures { (t : PlainTree) → AllAreGiven t result.counts }
    {
        GivenNumbers {
            counts: [0; MAX_MEMORIES as usize],
        }
    }

    /// How many numbers of a memory node.
    pub fn of_memory(&self, memory: u32) -> u32
        requires { memory < 8 }
        ensures { result ≡ slice_index self.now.counts memory }
    {
        self.counts[memory as usize]
    }

    /// Counts a number that was given to a file, where it is the next one of its memory node.
    pub fn count(&mut self, number: u32)
        ensures { (t : PlainTree) → AllAreGiven t self.old.counts → is_given t number ≡ true → AllAreGiven t self.new.counts }
    {
        let Some(place) = number.checked_sub(1) else {
            return;
        };
        let memory = (place / MAX_INODES) as usize;
        if memory < self.counts.len() && self.counts[memory] == place % MAX_INODES {
            self.counts[memory] += 1;
        }
    }
}
