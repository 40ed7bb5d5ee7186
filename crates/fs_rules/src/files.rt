ghost use Rattle.std.specs.Prelude.{◌≡◌, ◌%◌, ◌^◌, ℕ, IfOk, OnOk, OnErr, OnSome, IfNone};
ghost use Rattle.std.specs.Option.{option_copied};
ghost use Rattle.std.specs.FinMap as map;
ghost use Rattle.std.specs.Map.Iter.{ShowsInOrder, deref_pair};
ghost use Rattle.fs_rules.specs.Files.{used_by_files, used_by_one};

use crate::file::File;
use sfs_base::{NoMemory, Table};
use std::alloc::Global;
use std::collections::btree_map::Iter;
use std::marker::Model;

/// The live files by their numbers, and how many blocks they use together, which no call has to add up. A
/// contract sees the finite map.
#[derive(Debug, Drop)]
pub struct Files {
    table: Table<File>,
    // The blocks that all files use, modulo 2^64: those of a good tree fit into a cluster.
    used: u64,
}

impl Model for Files {
    ghost use Rattle.std.specs.Prelude.{◌≡◌, ◌%◌, ◌^◌};
    ghost use Rattle.std.specs.Ordering.{nat_cmp};
    ghost use Rattle.std.specs.Coded.{coded_ℕ};
    ghost use Rattle.std.specs.FinMap as map;
    ghost use Rattle.fs_rules.specs.declared.file.File.{File as AFile};
    ghost use Rattle.fs_rules.specs.contracts.file.File.{the_row};
    ghost use Rattle.fs_rules.specs.Files.{used_by_files};

    ghost Value = { map.FinMap nat_cmp AFile };

    ghost coded = { map.code coded_ℕ the_row.coded };

    ghost view = { λ f. f.table };

    ghost invariant = { λ f. f.used ≡ used_by_files f.table % 2 ^ 64 };
}

impl Files {
    /// No files. It takes no memory.
    pub fn new(alloc: Global) -> Files
        ensures { result ≡ map.empty }
    {
        Files {
            table: Table::new(alloc),
            used: 0,
        }
    }

    /// How many blocks of the cluster all files use together, modulo 2^64.
    pub fn used(&self) -> u64
        ensures { result ≡ used_by_files self.now % 2 ^ 64 }
    {
        self.used
    }

    /// The file with a number, if it lives.
    pub fn get(&self, number: u32) -> Option<&File>
        ensures { option_copied result ≡ map.get self.now number }
    {
        self.table.get(number)
    }

    /// How many files there are.
    pub fn len(&self) -> usize
        ensures { result ≡ map.len self.now }
    {
        self.table.len()
    }

    /// The files in ascending order of their numbers.
    pub fn iter(&self) -> Iter<'_, u32, File>
        ensures entries { result ≡ map.entries self.now }
        ensures runs { ShowsInOrder (deref_pair {K = ℕ} {X = File}) }
    {
        self.table.iter()
    }

    /// Puts a file at a number, and gives the one that stood there. On [`NoMemory`] the files are as before.
    pub fn insert(&mut self, number: u32, file: File) -> Result<Option<File>, NoMemory>
        ensures before { IfOk result (λ before. before ≡ map.get self.old number) }
        ensures ok { OnOk result (self.new ≡ map.insert self.old number file) }
        ensures err { OnErr result (self.new ≡ self.old) }
        ensures absent { OnErr result (map.get self.old number ≡ None) }
    {
        let gained = file.content.used() as u64;
        let before = self.table.insert(number, file)?;
        self.used = self
            .used
            .wrapping_sub(used_by(&before))
            .wrapping_add(gained);
        Ok(before)
    }

    /// Puts a file in the place of the one with a number, and gives that. It takes no memory.
    ///
    /// Where no file has the number the files are as before, and the answer is `None`.
    pub fn replace(&mut self, number: u32, file: File) -> Option<File>
        ensures before { result ≡ map.get self.old number }
        ensures some { OnSome result (self.new ≡ map.insert self.old number file) }
        ensures none { IfNone result (self.new ≡ self.old) }
    {
        let gained = file.content.used() as u64;
        let before = self.table.replace(number, file);
        if before.is_some() {
            self.used = self
                .used
                .wrapping_sub(used_by(&before))
                .wrapping_add(gained);
        }
        before
    }

    /// Takes the file with a number out, if it lives. It takes no memory.
    pub fn remove(&mut self, number: u32) -> Option<File>
        ensures before { result ≡ map.get self.old number }
        ensures removed { self.new ≡ map.remove self.old number }
    {
        let before = self.table.remove(number);
        self.used = self.used.wrapping_sub(used_by(&before));
        before
    }
}

// How many blocks a file uses, if there is one.
fn used_by(file: &Option<File>) -> u64
    ensures { result ≡ used_by_one file.now }
{
    match file {
        Some(file) => file.content.used() as u64,
        None => 0,
    }
}
