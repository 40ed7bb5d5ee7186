ghost use Rattle.std.specs.Prelude.{◌≡◌, ℕ, ◌<◌, IfOk, OnOk, OnErr};
ghost use Rattle.nfs_proto.specs.Arguments.{IsFit};
ghost use Rattle.fs_rules.specs.Geometry.{IsWithinLimits};
ghost use Rattle.fs_rules.specs.Fresh.{fresh, fresh_root};
ghost use Rattle.fs_rules.specs.Good.{IsGood};
ghost use Rattle.fs_rules.specs.Numbers.{first_free};
ghost use Rattle.fs_rules.specs.Respond.{respond, IsPick, IsTold};
ghost use Rattle.fs_listing.specs.Listing.{listing};
ghost use Rattle.fs_tree.specs.Meets.{Meets};

use crate::call_bytes::call_bytes;
use crate::copy::copy_tree;
use crate::procedures::carry_out;
use crate::response::Response;
use fs_decisions::{GivenNumbers, first_free};
use fs_listing::{Listing, listing};
use fs_rules::{
    Answer, Call, Content, Cred, File, Files, Geometry, NoMemory, PlainTree, ROOT, Slots, Stamp,
};
use sfs_base::Table;
use std::alloc::Global;
use std::marker::Model;

/// A file system in memory. A contract sees the plain tree, which is good at every moment.
#[derive(Debug, Drop)]
pub struct Tree {
    plain: PlainTree,
    // So a free number is found without a look at each that is not.
    given: GivenNumbers,
    alloc: Global,
}

impl Model for Tree {
    ghost use Rattle.fs_rules.specs.declared.plain_tree.PlainTree.{PlainTree as Plain};
    ghost use Rattle.fs_rules.specs.Good.{IsGood};
    ghost use Rattle.fs_rules.specs.contracts.plain_tree.PlainTree.{the_row};
    ghost use Rattle.fs_decisions.specs.Given.{AllAreGiven};

    ghost Value = { Plain };

    ghost coded = { the_row.coded };

    ghost view = { λ t. t.plain };

    ghost invariant = { λ t. IsGood t.plain × AllAreGiven t.plain t.given.counts };
}

impl Tree {
    /// The tree with which a cluster of this size begins: the root alone.
    pub fn fresh(alloc: Global, geometry: Geometry) -> Result<Tree, NoMemory>
        requires { IsWithinLimits geometry }
        ensures fresh { IfOk result (λ t. t ≡ fresh geometry) }
        ensures good { IfOk result IsGood }
    {
        let mut files = Files::new(alloc);
        files.insert(ROOT, fresh_root(alloc))?;
        let mut given = GivenNumbers::none();
        given.count(ROOT);
        Ok(Tree {
            plain: PlainTree {
                geometry,
                files,
                freed: Table::new(alloc),
            },
            given,
            alloc,
        })
    }

    /// A tree of its own with the same files. [`NoMemory`]: there is no memory for it.
    pub fn copy(&self) -> Result<Tree, NoMemory>
        ensures { IfOk result (λ copy. copy ≡ self.now) }
    {
        Ok(Tree {
            plain: copy_tree(self.alloc, &self.plain)?,
            given: self.given,
            alloc: self.alloc,
        })
    }

    /// How large the cluster is.
    pub fn geometry(&self) -> Geometry
        ensures value { result ≡ self.now.geometry }
        ensures good { IsGood self.now }
    {
        self.plain.geometry
    }

    /// The number that a new file gets where the search begins at the memory node `start`: its lowest free
    /// one, else that of the next ones in a circle; `None` exactly where none is free. It takes no memory.
    pub fn free_number(&self, start: u32) -> Option<u32>
        requires { start < self.now.geometry.memories }
        ensures { result ≡ first_free self.now start }
    {
        first_free(&self.plain, &self.given, start)
    }

    /// The lines that tell all files, their names and their data (`docs/FORMATS.md`, "Listings").
    pub fn listing(&self) -> Result<Listing, NoMemory>
        ensures { IfOk result (λ lines. lines ≡ listing self.now) }
    {
        listing(self.alloc, &self.plain)
    }

    /// Carries out a call for the caller `cred` at the moment `now`, and answers it as the rules of the
    /// file system say (`docs/FORMATS.md`, "The rules of the file system"). Where the call makes a file,
    /// `pick` is its number, which is what [`Tree::free_number`] gives for a memory node. On [`NoMemory`]
    /// the tree is as before.
    pub fn apply(
        &mut self,
        call: &Call,
        cred: &Cred,
        now: Stamp,
        pick: Option<u32>,
    ) -> Result<Answer, NoMemory>
        requires fits { IsFit call.now }
        requires pick { (start : ℕ) × IsPick self.old call.now cred.now now start pick }
        ensures answer { (start : ℕ) → IsPick self.old call.now cred.now now start pick
            → IfOk result (λ answer. answer ≡ (respond self.old call.now cred.now now start).answer) }
        ensures tree { (start : ℕ) → IsPick self.old call.now cred.now now start pick
            → OnOk result (self.new ≡ (respond self.old call.now cred.now now start).tree) }
        ensures err { OnErr result (self.new ≡ self.old) }
        ensures good { IsGood self.new }
        ensures told { IfOk result IsTold }
    {
        Ok(self.respond(call, cred, now, pick)?.answer)
    }

    /// Does what [`Tree::apply`] does, and tells beside the answer whether the tree changed, and which file
    /// was made.
    pub fn respond(
        &mut self,
        call: &Call,
        cred: &Cred,
        now: Stamp,
        pick: Option<u32>,
    ) -> Result<Response, NoMemory>
        requires fits { IsFit call.now }
        requires pick { (start : ℕ) × IsPick self.old call.now cred.now now start pick }
        ensures meets { (start : ℕ) → IsPick self.old call.now cred.now now start pick
            → IfOk result (Meets self.old (respond self.old call.now cred.now now start) self.new) }
        ensures err { OnErr result (self.new ≡ self.old) }
        ensures good { IsGood self.new }
        ensures told { IfOk result (λ r. IsTold r.answer) }
    {
        call_bytes(call);
        let response = carry_out(self.alloc, &mut self.plain, call, cred, now, pick)?;
        if let Some((number, _)) = response.made() {
            self.given.count(number);
        }
        Ok(response)
    }
}

// The root alone: a directory of user and group 0 that all may read, write and search.
fn fresh_root(alloc: Global) -> File
    ensures { result ≡ fresh_root }
{
    File {
        content: Content::Directory {
            slots: Slots::new(alloc),
            parent: ROOT,
        },
        mode: 0o777,
        links: 2,
        uid: 0,
        gid: 0,
        size: 0,
        generation: 1,
        change: 1,
        atime: Stamp::ZERO,
        mtime: Stamp::ZERO,
        ctime: Stamp::ZERO,
    }
}
