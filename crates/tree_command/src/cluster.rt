ghost use Rattle.std.specs.Prelude.{◌≡◌, IfOk, IfSome};
ghost use Rattle.fs_rules.specs.Geometry.{IsWithinLimits};
ghost use Rattle.tree_command.specs.Input.{checked, cluster_in, cluster_of};

use event_text::{Event, read_line};
use fs_rules::Geometry;
use line_words::LineFault;
use sfs_base::NoMemory;
use std::alloc::Global;

/// The cluster that a line names, if it is a `cluster` line of one within the limits.
pub(crate) fn cluster_in(alloc: Global, line: &[u8]) -> Result<Option<Geometry>, NoMemory>
    ensures exact { IfOk result (λ geometry. geometry ≡ cluster_in line.now) }
    ensures limits { IfOk result (λ geometry. IfSome geometry IsWithinLimits) }
{
    match read_line(alloc, line) {
        Ok(event) => Ok(cluster_of(&event)),
        Err(LineFault::Bad) => Ok(None),
        Err(LineFault::NoMemory) => Err(NoMemory),
    }
}

// The cluster that an event names, if it is the first line of a schedule, and the cluster is within the limits.
fn cluster_of(event: &Event) -> Option<Geometry>
    ensures exact { result ≡ cluster_of event.now }
    ensures limits { IfSome result IsWithinLimits }
{
    match event {
        Event::Cluster {
            nodes,
            memories,
            blocks,
            inodes,
        } => checked(Geometry {
            nodes: *nodes,
            memories: *memories,
            blocks: *blocks,
            inodes: *inodes,
        }),
        _ => None,
    }
}

// A geometry within the limits.
fn checked(geometry: Geometry) -> Option<Geometry>
    ensures exact { result ≡ checked geometry }
    ensures limits { IfSome result IsWithinLimits }
{
    if geometry.is_within_limits() {
        Some(geometry)
    } else {
        None
    }
}
