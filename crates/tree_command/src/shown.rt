ghost use Rattle.std.specs.Prelude.{◌≡◌, length, IfOk};
ghost use Rattle.fs_rules.specs.Geometry.{IsWithinLimits};
ghost use Rattle.tree_command.specs.Input.{ShowsAnswer};

use crate::answer::Answer;
use crate::input_fault::InputFault;
use fs_rules::Geometry;
use mini_tx::{Geometry4, Images, Parts};
use sfs_base::NoMemory;
use sfs_check::{TreeFault, tree_of};
use std::alloc::Global;

/// What all images of a cluster say.
pub(crate) fn shown(alloc: Global, geometry: Geometry, parts: Parts) -> Result<Answer, NoMemory>
    requires limits { IsWithinLimits geometry }
    requires memories { length parts ≡ geometry.memories }
    ensures { IfOk result (ShowsAnswer geometry parts) }
{
    let images = Images {
        blocks: geometry.blocks,
        inodes: geometry.inodes,
        parts,
    };
    let numbers = Geometry4 {
        nodes: geometry.nodes,
        memories: geometry.memories,
        blocks: geometry.blocks,
        inodes: geometry.inodes,
    };
    match tree_of(alloc, numbers, &images) {
        Ok(tree) => Ok(Answer::Listed(tree)),
        Err(TreeFault::NoTree) => Ok(Answer::Faulty(InputFault::Tree)),
        Err(TreeFault::NoMemory) => Err(NoMemory),
    }
}
