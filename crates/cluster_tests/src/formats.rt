//! A format that is refused gives every disk back.
use crate::fixture::{GEOMETRY, bare, lay};
use disk_model::{Calls, PlanShelf};
use link_model::SimLink;
use mini_tx::NoMemory;
use sinfonia::Cluster;
use std::alloc::Global;
use std::test::*;

/// What becomes of a format.
#[derive(Clone, Copy, Debug, PartialEq, Eq)]
enum Format {
    /// It is not refused.
    Made,
    /// It is refused, and both disks lie on the shelf.
    Back,
    /// It is refused, and a disk is missing.
    Kept,
}

/// Formats a cluster on two disks, of which these calls fail.
fn format_with(alloc: Global, first: Calls, second: Calls) -> Result<Format, NoMemory> {
    let mut shelf = bare(alloc);
    lay(&mut shelf, alloc, first)?;
    lay(&mut shelf, alloc, second)?;
    match Cluster::format(alloc, &mut shelf, SimLink::new(alloc), GEOMETRY) {
        Ok(_cluster) => Ok(Format::Made),
        Err(_fault) => Ok(left_on(shelf)),
    }
}

fn left_on(shelf: PlanShelf) -> Format {
    let disks = shelf.into_disks();
    if disks.len() == 2 && disks.iter().all(|disk| disk.is_some()) {
        Format::Back
    } else {
        Format::Kept
    }
}

/// The number of the first call of a disk whose failure refuses no format; `None` where a disk was kept.
fn first_unheard(alloc: Global, of_second: bool) -> Result<Option<u64>, NoMemory> {
    for call in 1..1000 {
        let (named, none) = (Calls::from_slice(alloc, &[call])?, Calls::new(alloc));
        let made = if of_second {
            format_with(alloc, none, named)?
        } else {
            format_with(alloc, named, none)?
        };
        match made {
            Format::Made => return Ok(Some(call)),
            Format::Back => {}
            Format::Kept => return Ok(None),
        }
    }
    Ok(None)
}

#[test]
fn a_refused_format_gives_every_disk_back(rt: HostRuntime) -> Result<(), Fail> {
    let alloc = rt.alloc();
    let first = first_unheard(alloc, false)?;
    assert!(rt; first.is_some_and(|call| call > 1));
    assert_eq!(rt; first_unheard(alloc, true)?, first);
    Ok(())
}
