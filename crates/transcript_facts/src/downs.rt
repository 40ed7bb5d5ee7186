ghost use Rattle.std.specs.Prelude.{◌≡◌, ◌∷◌, [], filter, not, OnOk};
ghost use Rattle.std.specs.List.{list_any};
ghost use Rattle.mini_tx.specs.declared.actor.Actor.{Actor as AnActor};
ghost use Rattle.transcript_rules.specs.Book.{is_actor};
ghost use Rattle.transcript_rules.specs.Next.{without};

use mini_tx::Actor;
use sfs_base::NoMemory;
use std::alloc::Global;
use std::marker::Model;
use transcript_checks::is_actor;

/// Who is down. A contract sees the list of them.
#[derive(Debug, Drop)]
pub struct Downs {
    actors: Vec<Actor>,
}

impl Model for Downs {
    ghost use Rattle.std.specs.Prelude.{List};
    ghost use Rattle.mini_tx.specs.declared.actor.Actor.{Actor as AnActor};

    ghost Value = { List AnActor };

    ghost view = { λ d. d.actors.items };
}

impl Downs {
    /// Nobody. It takes no memory.
    pub fn new(alloc: Global) -> Downs
        ensures { result ≡ [] }
    {
        Downs {
            actors: Vec::new(alloc),
        }
    }

    /// All of them.
    pub fn as_slice(&self) -> &[Actor]
        ensures { result.now ≡ self.now }
    {
        self.actors.as_slice()
    }

    /// Whether an actor is down.
    pub fn contains(&self, who: Actor) -> bool
        ensures { result ≡ list_any (is_actor who) self.now }
    {
        is_among(who, &self.actors)
    }

    /// An actor goes down. [`NoMemory`]: there is no memory for it, and who is down is not said.
    pub fn fall(&mut self, who: Actor) -> Result<(), NoMemory>
        ensures { OnOk result (self.new ≡ who ∷ without who self.old) }
    {
        take_out(&mut self.actors, who);
        self.actors.insert(0, who)?;
        Ok(())
    }

    /// An actor comes up.
    pub fn rise(&mut self, who: Actor)
        ensures { self.new ≡ without who self.old }
    {
        take_out(&mut self.actors, who);
    }
}

// Whether an actor is one of these.
fn is_among(who: Actor, actors: &[Actor]) -> bool
    ensures { result ≡ list_any (is_actor who) actors.now }
{
    actors.iter().any(|other| is_actor(who, *other))
}

fn take_out(actors: &mut Vec<Actor>, who: Actor)
    ensures { actors.new.items ≡ without who actors.old.items }
{
    keep_others(actors, who);
}

fn keep_others(actors: &mut Vec<Actor>, who: Actor)
    ensures { actors.new.items ≡ filter (λ (a : AnActor). not (is_actor who a)) actors.old.items }
{
    actors.retain(|other| !is_actor(who, *other));
}
