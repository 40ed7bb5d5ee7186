ghost use Rattle.std.specs.Prelude.{◌≡◌, ℕ, ◌+◌, ◌-◌, ◌≤◌, ◌<◌, List, [], ◌∷◌, length, drop, ◌^◌, Some, slice_get, IfOk, OnOk};
ghost use Rattle.fs_rules.specs.declared.plain_tree.PlainTree.{PlainTree as APlainTree};
ghost use Rattle.nfs_service.specs.Reply.{AsksFit};

use arrival_outcome::Outcome;
use fs_tree::{Stamp, Tree};
use nfs_service::Request;
use sfs_base::NoMemory;
use std::alloc::Global;

/// The last trees of a transcript.
#[derive(Debug, Drop)]
pub struct Trees {
    /// These trees, the last of them last.
    pub kept: Vec<Tree>,
    /// How many changes stand before the first of them.
    pub oldest: u64,
}

impl Trees {
    ghost use Rattle.transcript_trees.specs.Trees.{AreKept, Answers, Changes};

    /// The opening tree alone. [`NoMemory`]: there is no memory for it.
    pub fn new(alloc: Global, tree: Tree) -> Result<Trees, NoMemory>
        ensures kept { IfOk result (AreKept (tree ∷ [])) }
        ensures oldest { IfOk result (λ t. t.oldest ≡ 0) }
    {
        let mut kept = Vec::new(alloc);
        kept.push(tree)?;
        Ok(Trees { kept, oldest: 0 })
    }

    /// A tree of its own like the last one. [`NoMemory`]: there is no memory for it.
    pub fn copy_last(&self) -> Result<Tree, NoMemory>
        requires { 0 < length self.now.kept.items }
        ensures { (trees : List APlainTree) → AreKept trees self.now
            → IfOk result (λ t. slice_get trees (length trees - 1) ≡ Some t) }
    {
        self.kept[self.kept.len() - 1].copy()
    }

    /// What the arrival with this number and moment is answered in the tree after `at` changes; `None` exactly where that
    /// tree is not kept. [`NoMemory`]: there is no memory for it, and what is kept is not said.
    pub fn answer(
        &mut self,
        alloc: Global,
        at: u64,
        request: Request,
        number: u32,
        moment: Stamp,
    ) -> Result<Option<Outcome>, NoMemory>
        requires { AsksFit request }
        ensures answers { (trees : List APlainTree) → AreKept trees self.old
            → IfOk result (Answers trees self.old.oldest at request number moment self.new) }
        ensures oldest { self.new.oldest ≡ self.old.oldest }
    {
        if at < self.oldest || at - self.oldest >= self.kept.len() as u64 {
            return Ok(None);
        }
        let index = (at - self.oldest) as usize;
        Ok(Some(Outcome::of(alloc, &mut self.kept[index], request, number, moment)?))
    }

    /// How many changes stand before the tree that comes next.
    pub fn end(&self) -> u64
        requires { self.now.oldest + length self.now.kept.items < 2 ^ 64 }
        ensures { result ≡ self.now.oldest + length self.now.kept.items }
    {
        self.oldest + self.kept.len() as u64
    }

    /// Carries out the change of the arrival with this number and moment, where trees before `keep` are needed no more.
    /// [`NoMemory`]: there is no memory for it, and what is kept is not said.
    pub fn step(
        &mut self,
        alloc: Global,
        keep: u64,
        request: Request,
        number: u32,
        moment: Stamp,
    ) -> Result<Outcome, NoMemory>
        requires fits { AsksFit request }
        requires there { 0 < length self.old.kept.items }
        requires small { self.old.oldest + length self.old.kept.items < 2 ^ 64 }
        requires keep { keep ≤ self.old.oldest + length self.old.kept.items }
        ensures step { (trees : List APlainTree) → AreKept trees self.old
            → IfOk result (Changes trees request number moment self.new) }
        ensures oldest { OnOk result ((m : ℕ) → self.old.oldest ≤ m → keep ≤ m → self.new.oldest ≤ m) }
    {
        let count = self.kept.len() as u64;
        if keep - self.oldest.min(keep) < count {
            self.step_copied(alloc, keep, request, number, moment)
        } else {
            self.step_in_place(alloc, request, number, moment)
        }
    }

    // The last tree is needed no more, and is changed in its place.
    fn step_in_place(
        &mut self,
        alloc: Global,
        request: Request,
        number: u32,
        moment: Stamp,
    ) -> Result<Outcome, NoMemory>
        requires fits { AsksFit request }
        requires there { 0 < length self.old.kept.items }
        requires small { self.old.oldest + length self.old.kept.items < 2 ^ 64 }
        ensures step { (trees : List APlainTree) → AreKept trees self.old
            → IfOk result (Changes trees request number moment self.new) }
        ensures oldest { OnOk result (self.new.oldest ≡ self.old.oldest + length self.old.kept.items) }
    {
        let last = self.kept.len() - 1;
        let outcome = Outcome::of(alloc, &mut self.kept[last], request, number, moment)?;
        drop_front(&mut self.kept, last);
        self.oldest += last as u64 + 1;
        Ok(outcome)
    }

    // The last tree is still needed, and a copy of it is changed.
    fn step_copied(
        &mut self,
        alloc: Global,
        keep: u64,
        request: Request,
        number: u32,
        moment: Stamp,
    ) -> Result<Outcome, NoMemory>
        requires fits { AsksFit request }
        requires there { 0 < length self.old.kept.items }
        requires keep { keep < self.old.oldest + length self.old.kept.items }
        ensures step { (trees : List APlainTree) → AreKept trees self.old
            → IfOk result (Changes trees request number moment self.new) }
        ensures oldest { OnOk result ((m : ℕ) → self.old.oldest ≤ m → keep ≤ m → self.new.oldest ≤ m) }
    {
        let mut tree = self.kept[self.kept.len() - 1].copy()?;
        let outcome = Outcome::of(alloc, &mut tree, request, number, moment)?;
        self.kept.push(tree)?;
        let passed = keep - self.oldest.min(keep);
        drop_front(&mut self.kept, passed as usize);
        self.oldest += passed;
        Ok(outcome)
    }
}

// Lets the first of some trees go.
fn drop_front(kept: &mut Vec<Tree>, count: usize)
    requires { count ≤ length kept.old.items }
    ensures { kept.new.items ≡ drop count kept.old.items }
{
    kept.drain(..count);
}
