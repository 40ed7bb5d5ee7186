//! Who an actor is.
ghost use Rattle.std.specs.Prelude.{◌≡◌};
ghost use Rattle.transcript_rules.specs.Book.{is_actor};
ghost use Rattle.transcript_rules.specs.Next.{is_memory, is_there};

use fs_rules::Geometry;
use mini_tx::Actor;

/// Whether two actors are one.
pub fn is_actor(who: Actor, other: Actor) -> bool
    ensures { result ≡ is_actor who other }
{
    match who {
        Actor::Node(n) => match other {
            Actor::Node(k) => n == k,
            Actor::Memory(_) => false,
            Actor::Manager => false,
        },
        Actor::Memory(m) => match other {
            Actor::Node(_) => false,
            Actor::Memory(k) => m == k,
            Actor::Manager => false,
        },
        Actor::Manager => match other {
            Actor::Node(_) => false,
            Actor::Memory(_) => false,
            Actor::Manager => true,
        },
    }
}

/// Whether it is a memory node.
pub fn is_memory(who: Actor) -> bool
    ensures { result ≡ is_memory who }
{
    match who {
        Actor::Node(_) => false,
        Actor::Memory(_) => true,
        Actor::Manager => false,
    }
}

/// Whether it is an actor of the cluster.
pub fn is_there(geometry: Geometry, who: Actor) -> bool
    ensures { result ≡ is_there geometry who }
{
    match who {
        Actor::Node(n) => n < geometry.nodes,
        Actor::Memory(m) => m < geometry.memories,
        Actor::Manager => true,
    }
}
