ghost use Rattle.std.specs.Prelude.{◌≡◌, ◌+◌, ◌*◌, ◌<◌, ◌≤◌, ℕ, ◌↔◌, IsTrue, IfSome, is_some, nat_lt};
ghost use Rattle.fs_image.specs.Stands.{IsBlock};
ghost use Rattle.plan_rules.specs.Fits.{IsFitRecord, most_bytes, most_chains};
ghost use Rattle.plan_rules.specs.Told.{dir_blocks, is_number};

use crate::lookup::dir_blocks;
use crate::place::{inode_of, memory_of};
use fs_layout::{Attrs, Reference};
use fs_rules::Geometry;

/// The most bytes of a regular file, of a directory and of a link.
const MAX_FILE_BYTES: u32 = 16_711_680;

const MAX_DIRECTORY_BYTES: u32 = 2_088_960;

const MAX_PATH_BYTES: u32 = 1_024;

/// The most chaining blocks of a file, and of a directory.
const MAX_CHAINS: u32 = 8;

const MAX_DIRECTORY_CHAINS: u32 = 1;

/// Whether a number is one of a file of this cluster.
pub fn is_number(geometry: &Geometry, number: u32) -> bool
    ensures { result ≡ is_number geometry.now number }
{
    number > 0 && memory_of(number) < geometry.memories && inode_of(number) < geometry.inodes
}

/// Whether a record is fit to be held (`docs/FORMATS.md`, "What a call wants").
pub fn is_fit_record(geometry: &Geometry, attrs: &Attrs) -> bool
    ensures { IsTrue result ↔ IsFitRecord geometry.now attrs.now }
{
    has_few(attrs)
        && (is_listed(geometry, attrs.first, attrs.chains > 0) && is_placed(geometry, attrs))
}

// Whether the size and the number of chaining blocks are within their limits.
fn has_few(attrs: &Attrs) -> bool
    ensures { IsTrue result ↔ ((attrs.now.size ≤ most_bytes attrs.now.kind) × (attrs.now.chains ≤ most_chains attrs.now.kind)) }
{
    attrs.size <= most_bytes(attrs.kind) && attrs.chains <= most_chains(attrs.kind)
}

// The most bytes of a file of a kind.
fn most_bytes(kind: u32) -> u32
    ensures { result ≡ most_bytes kind }
{
    if kind == Attrs::LINK {
        MAX_PATH_BYTES
    } else if kind == Attrs::DIRECTORY {
        MAX_DIRECTORY_BYTES
    } else {
        MAX_FILE_BYTES
    }
}

// The most chaining blocks of a file of a kind.
fn most_chains(kind: u32) -> u32
    ensures { result ≡ most_chains kind }
{
    if kind == Attrs::DIRECTORY {
        MAX_DIRECTORY_CHAINS
    } else {
        MAX_CHAINS
    }
}

// Whether a chaining block is one of this cluster, and is there just where one is due.
pub(crate) fn is_listed(geometry: &Geometry, next: Option<Reference>, is_due: bool) -> bool
    ensures { IsTrue result ↔ (IfSome next (IsBlock geometry.now) × (is_some next ≡ is_due)) }
{
    is_inside(geometry, next) && next.is_some() == is_due
}

/// Whether a reference, if it is one, is to a block of this cluster.
pub fn is_inside(geometry: &Geometry, reference: Option<Reference>) -> bool
    ensures { IsTrue result ↔ IfSome reference (IsBlock geometry.now) }
{
    match reference {
        Some(at) => is_block(geometry, at),
        None => true,
    }
}

// Whether this is a block of the cluster.
fn is_block(geometry: &Geometry, at: Reference) -> bool
    ensures { IsTrue result ↔ IsBlock geometry.now at }
{
    at.memory < geometry.memories && at.block < geometry.blocks
}

// Whether the parent of a directory is a file of this cluster, and a chaining block refers to its blocks.
fn is_placed(geometry: &Geometry, attrs: &Attrs) -> bool
    ensures { IsTrue result ↔ ((attrs.now.kind ≡ 2 → IsTrue (is_number geometry.now attrs.now.parent)) × (0 < dir_blocks attrs.now → 0 < attrs.now.chains)) }
{
    has_parent(geometry, attrs) && has_first(attrs)
}

// Whether the parent, of a directory, is a file of this cluster.
fn has_parent(geometry: &Geometry, attrs: &Attrs) -> bool
    ensures { IsTrue result ↔ (attrs.now.kind ≡ 2 → IsTrue (is_number geometry.now attrs.now.parent)) }
{
    attrs.kind != Attrs::DIRECTORY || is_number(geometry, attrs.parent)
}

// Whether there is a chaining block where a directory has blocks.
fn has_first(attrs: &Attrs) -> bool
    ensures { IsTrue result ↔ (0 < dir_blocks attrs.now → 0 < attrs.now.chains) }
{
    dir_blocks(attrs) == 0 || attrs.chains > 0
}
