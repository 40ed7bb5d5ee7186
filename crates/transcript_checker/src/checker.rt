ghost use Rattle.std.specs.Prelude.{◌≡◌, ℕ, ◌+◌, ◌≤◌, ◌<◌, ◌^◌, List, false, length, IfOk, OnOk};
ghost use Rattle.event_text.specs.declared.event.Event.{Event as AnEvent};
ghost use Rattle.fs_rules.specs.Geometry.{IsWithinLimits};
ghost use Rattle.transcript_rules.specs.Opening.{Opening as AnOpening, fresh_opening};
ghost use Rattle.transcript_rules.specs.Book.{Book as ABook, opened};
ghost use Rattle.transcript_next.specs.Nexts.{scheduled};
ghost use Rattle.transcript_checker.specs.Standing.{Stands, Judges, HasRoom, IsNothing};

use event_text::Event;
use fs_rules::Geometry;
use fs_tree::Tree;
use line_text::Line;
use sfs_base::NoMemory;
use std::alloc::Global;
use transcript_book::{Arrivals, Mail, Said};
use transcript_facts::{Backups, Downs, Facts, Now, Owed};
use transcript_trees::{Cuts, Replies, Trees};

/// What the lines of a transcript so far tell, and the trees that later lines may name.
#[derive(Drop)]
pub struct Checker {
    pub geometry: Geometry,
    pub facts: Facts,
    pub trees: Trees,
    pub replies: Replies,
    pub cuts: Cuts,
}

impl Checker {
    /// Before the first line, where the cluster was just formatted. [`NoMemory`]: there is no memory for its tree.
    pub fn open(alloc: Global, geometry: Geometry) -> Result<Checker, NoMemory>
        requires { IsWithinLimits geometry }
        ensures { (events : List AnEvent) → 1 ≤ length events
            → IfOk result (Stands (fresh_opening geometry) (scheduled events) 0 (opened (fresh_opening geometry))) }
    {
        let tree = Tree::fresh(alloc, geometry)?;
        Ok(Checker {
            geometry,
            facts: no_facts(alloc),
            trees: Trees::new(alloc, tree)?,
            replies: Replies::new(alloc),
            cuts: Cuts::new(alloc),
        })
    }

    /// Judges the next line of a transcript for the schedule of these events, and takes it. [`NoMemory`], and where the
    /// line may not stand: what is told is not said. It takes a tree step for a change, and one for a reply.
    pub fn judge(&mut self, alloc: Global, events: &[Event], line: &Line) -> Result<bool, NoMemory>
        requires room { HasRoom self.old }
        requires taken { self.old.facts.taken ≤ length events.now }
        ensures { (o : AnOpening) (n : ℕ) (book : ABook) → Stands o (scheduled events.now) n book self.old
            → Judges o (scheduled events.now) n book line.now self.new result }
    {
        if self.facts.closed {
            return Ok(false);
        }
        self.take(alloc, events, line)
    }

    // Judges a line, where the last one does not stand yet.
    fn take(&mut self, alloc: Global, events: &[Event], line: &Line) -> Result<bool, NoMemory>
        requires room { HasRoom self.old }
        requires taken { self.old.facts.taken ≤ length events.now }
        ensures { (o : AnOpening) (n : ℕ) (book : ABook) → Stands o (scheduled events.now) n book self.old → book.closed ≡ false
            → Judges o (scheduled events.now) n book line.now self.new result }
    {
        match line {
            Line::DoArrive { arrival, node } => {
                self.arrive(alloc, events, u64::from(*arrival), *node)
            }
            Line::DoEvent(event) => self.begin_told(alloc, events, event),
            Line::Refused { line: number } => self.refuse(alloc, events, line, *number),
            Line::End => self.end(alloc, events, line),
            Line::Point {
                point,
                arrival,
                made,
            } => self.point(alloc, line, *point, *arrival, *made),
            Line::Reply { arrival, at, bytes } => self.reply(alloc, line, *arrival, *at, bytes),
            Line::Cut { number, at } => self.cut(line, *number, *at),
            Line::Mounted { number, lines } => self.mount(alloc, line, *number, *lines),
            Line::Listed(text) => self.list(line, text),
            _ => self.plain(alloc, line),
        }
    }
}

// Nothing is told.
fn no_facts(alloc: Global) -> Facts
    ensures { IsNothing result }
{
    Facts {
        taken: 1,
        drained: 0,
        event: Now::Nothing,
        under: 0,
        said: Said::new(alloc),
        arrivals: Arrivals::new(alloc),
        points: 0,
        mail: Mail::new(alloc),
        down: Downs::new(alloc),
        backups: Backups::new(alloc),
        owed: Owed::none(alloc),
        closed: false,
    }
}
