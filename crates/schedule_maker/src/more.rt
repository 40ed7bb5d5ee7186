ghost use Rattle.std.specs.Prelude.{◌≡◌, ◌+◌, ◌<◌, [], ◌++◌, OnErr, OnOk, IfOk};
ghost use Rattle.schedule_maker.specs.Left.{left_of};
ghost use Rattle.schedule_maker.specs.declared.stage.Stage.TheVariants as stages;

use crate::events::{push_last, push_turn};
use crate::stage::Stage;
use crate::turns::Turns;
use event_text::Event;
use sfs_base::NoMemory;
use std::alloc::Global;

impl Turns {
    /// Takes some of the events that are left, the first ones; none exactly where none is left.
    pub fn more(&mut self, alloc: Global) -> Result<Vec<Event>, NoMemory>
        ensures taken { IfOk result (λ events. left_of self.old ≡ events.items ++ left_of self.new) }
        ensures some { IfOk result (λ events. events.items ≡ [] → left_of self.new ≡ []) }
        ensures err { OnErr result (left_of self.new ≡ left_of self.old) }
    {
        match self.stage {
            Stage::Cluster => self.cluster(alloc),
            Stage::Turns if self.left == 0 => self.last(alloc),
            Stage::Turns => self.turn(alloc),
            Stage::Ended => Ok(Vec::new(alloc)),
        }
    }

    // Takes the cluster.
    fn cluster(&mut self, alloc: Global) -> Result<Vec<Event>, NoMemory>
        requires { self.old.stage ≡ stages.Cluster }
        ensures taken { IfOk result (λ events. left_of self.old ≡ events.items ++ left_of self.new) }
        ensures some { IfOk result (λ events. events.items ≡ [] → left_of self.new ≡ []) }
        ensures err { OnErr result (left_of self.new ≡ left_of self.old) }
    {
        let mut events = Vec::new(alloc);
        events.push(Event::Cluster {
            nodes: 4,
            memories: 4,
            blocks: 256,
            inodes: 256,
        })?;
        self.stage = Stage::Turns;
        Ok(events)
    }

    // Takes the events behind the turns.
    #[tactic(auto, unfolding(crate::specs::Making::turns))]
    fn last(&mut self, alloc: Global) -> Result<Vec<Event>, NoMemory>
        requires stage { self.old.stage ≡ stages.Turns }
        requires left { self.old.left ≡ 0 }
        ensures taken { IfOk result (λ events. left_of self.old ≡ events.items ++ left_of self.new) }
        ensures some { IfOk result (λ events. events.items ≡ [] → left_of self.new ≡ []) }
        ensures err { OnErr result (left_of self.new ≡ left_of self.old) }
    {
        let mut events = Vec::new(alloc);
        push_last(&mut events)?;
        self.stage = Stage::Ended;
        Ok(events)
    }

    // Takes the events of the next turn.
    #[tactic(auto, using(crate::proofs::MakingLemmas::turn_taken, crate::proofs::MakingLemmas::turn_some))]
    fn turn(&mut self, alloc: Global) -> Result<Vec<Event>, NoMemory>
        requires stage { self.old.stage ≡ stages.Turns }
        requires left { 0 < self.old.left }
        ensures taken { IfOk result (λ events. left_of self.old ≡ events.items ++ left_of self.new) }
        ensures some { IfOk result (λ events. events.items ≡ [] → left_of self.new ≡ []) }
        ensures err { OnErr result (left_of self.new ≡ left_of self.old) }
    {
        let mut events = Vec::new(alloc);
        let x = push_turn(alloc, &mut events, self.made + 1, self.x)?;
        self.advance(x);
        Ok(events)
    }

    // Goes on to the turn that begins with this number.
    fn advance(&mut self, x: u64)
        requires { 0 < self.old.left }
        ensures stage { self.new.stage ≡ self.old.stage }
        ensures made { self.new.made ≡ self.old.made + 1 }
        ensures left { self.new.left + 1 ≡ self.old.left }
        ensures number { self.new.x ≡ x }
    {
        self.left -= 1;
        self.made += 1;
        self.x = x;
    }
}
