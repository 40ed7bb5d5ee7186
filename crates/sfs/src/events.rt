ghost use Rattle.std.specs.Prelude.{◌≡◌, ℕ, ◌<◌, List, slice_get, Some, IfOk};
ghost use Rattle.event_text.specs.declared.event.Event.TheVariants as event;
ghost use Rattle.line_words.specs.declared.limits.TheConstants.{MAX_LINES};
ghost use Rattle.sfs.specs.Schedule.{Schedule};
ghost use Rattle.arrival_outcome.specs.Outcome.{points_after};
ghost use Rattle.sfs.specs.World.{arrival_lines, closing};
ghost use Rattle.sfs.specs.Book.{Book};

use crate::step::Step;
use crate::world::World;
use arrival_outcome::Outcome;
use fs_tree::{Geometry, Stamp, Tree};
use nfs_service::Request;
use schedule_text::{DropWhy, Event, Line, Lines};
use sfs_base::{Bytes, NoMemory, Seq};
use std::alloc::Global;

impl World {
    ghost use Rattle.sfs.specs.World.{Stands, Steps, HasSpellings, Opens};

    /// The world of the cluster that the first event of a schedule names; `None` where it names none
    /// within the limits.
    pub fn open(alloc: Global, event: &Event) -> Result<Option<World>, NoMemory>
        ensures { IfOk result (Opens (Some event.now)) }
    {
        let Event::Cluster {
            nodes,
            memories,
            blocks,
            inodes,
        } = event
        else {
            return Ok(None);
        };
        let geometry = Geometry {
            nodes: *nodes,
            memories: *memories,
            blocks: *blocks,
            inodes: *inodes,
        };
        if !geometry.is_within_limits() {
            return Ok(None);
        }
        Ok(Some(World {
            tree: Tree::fresh(alloc, geometry)?,
            arrivals: 0,
            points: 0,
        }))
    }

    /// Handles the next event of a schedule.
    pub fn step(&mut self, alloc: Global, event: &Event) -> Result<Step, NoMemory>
        ensures step { (schedule : Schedule) (book : Book) → Stands schedule book self.old → book.lines < MAX_LINES
            → slice_get schedule book.lines ≡ Some (Some event.now) → Steps schedule book self.new result }
        ensures spelled { IfOk result HasSpellings }
    {
        match event {
            Event::Cluster { .. } => Ok(Step::Refused),
            Event::Deliver { .. } => Ok(Step::Refused),
            Event::Drain { .. } => Ok(Step::Refused),
            Event::Lose { .. } => Ok(Step::Refused),
            Event::GiveUp { .. } => Ok(Step::Refused),
            Event::Resend { .. } => Ok(Step::Refused),
            Event::Crash { .. } => Ok(Step::Refused),
            Event::Start { .. } => Ok(Step::Refused),
            Event::Sweep { .. } => Ok(Step::Refused),
            Event::Checkpoint { .. } => Ok(Step::Refused),
            Event::Backup => Ok(Step::Refused),
            Event::Show { .. } => Ok(Step::Refused),
            Event::Arrive {
                node,
                sec,
                usec,
                bytes,
            } => {
                let moment = Stamp {
                    sec: *sec,
                    usec: *usec,
                };
                self.arrive(alloc, *node, moment, bytes)
            }
            Event::End => Ok(Step::Ended),
        }
    }

    // Handles a datagram that comes to a node: its reply is made at once.
    fn arrive(
        &mut self,
        alloc: Global,
        node: u32,
        moment: Stamp,
        bytes: &Bytes,
    ) -> Result<Step, NoMemory>
        ensures step { (schedule : Schedule) (book : Book) → Stands schedule book self.old → book.lines < MAX_LINES
            → slice_get schedule book.lines ≡ Some (Some (event.Arrive node moment.sec moment.usec bytes.now)) → Steps schedule book self.new result }
        ensures spelled { IfOk result HasSpellings }
    {
        if node >= self.tree.geometry().nodes || self.arrivals == u32::MAX {
            return Ok(Step::Refused);
        }
        let request = Request::read(alloc, bytes.as_slice())?;
        let arrival = self.arrivals + 1;
        let outcome = Outcome::of(alloc, &mut self.tree, request, arrival, moment)?;
        self.arrivals = arrival;
        if outcome.change.is_some() {
            self.points += 1;
        }
        Ok(Step::On(lines_of(alloc, arrival, node, self.points, outcome)?))
    }
}

// The lines of an arrival at a node that came to this, after which there were so many changes: that it
// came, its change, if it made one, and how it ends.
fn lines_of(
    alloc: Global,
    arrival: u32,
    node: u32,
    points: u64,
    outcome: Outcome,
) -> Result<Lines, NoMemory>
    ensures { IfOk result (λ lines. lines ≡ arrival_lines arrival node points outcome) }
{
    let mut lines: Lines = Seq::new(alloc);
    lines.push(Line::DoArrive { arrival, node })?;
    if let Some(change) = outcome.change {
        lines.push(Line::Point {
            point: points,
            arrival,
            made: change.made,
        })?;
    }
    lines.push(closing(arrival, points, outcome.reply))?;
    Ok(lines)
}

// The line that ends an arrival: its reply, or that it gets none.
fn closing(arrival: u32, at: u64, reply: Option<Bytes>) -> Line
    ensures { result ≡ closing arrival at reply }
{
    match reply {
        Some(bytes) => Line::Reply { arrival, at, bytes },
        None => Line::Dropped {
            arrival,
            why: DropWhy::Silent,
        },
    }
}
