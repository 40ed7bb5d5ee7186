ghost use Rattle.std.specs.Prelude.{◌≤◌};

use fs_tree::Tree;

/// The plain world: one tree that all nodes export, and how many arrivals and changes there were. Every
/// change is that of an arrival.
#[derive(Debug, Drop)]
pub struct World {
    pub tree: Tree,
    pub arrivals: u32,
    pub points: u64,
    ghost few: { points ≤ arrivals },
}
