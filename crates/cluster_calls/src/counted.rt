use link_model::Link;
use mini_tx::{Actor, Message, Posted};
use sfs_base::NoMemory;

/// A link that counts what is posted on it.
#[derive(Debug, Drop)]
pub struct Counted<L: Link> {
    pub(crate) link: L,
    pub(crate) posted: u64,
}

impl<L: Link> Counted<L> {
    ghost use Rattle.std.specs.Prelude.{◌≡◌, [], List, length};
    ghost use Rattle.mini_tx.specs.declared.posted.Posted.{Posted as PostedOn};
    ghost use Rattle.cluster_calls.specs.Counted.{count_of, counted_stands, link_below};

    /// A link on which nothing was posted yet. It takes no memory.
    pub fn new(link: L) -> Counted<L>
        ensures link { link_below result ≡ link }
        ensures count { count_of result ≡ 0 }
    {
        Counted { link, posted: 0 }
    }

    /// How many messages were posted. It takes no memory.
    pub fn posted(&self) -> u64
        ensures { (posted : List PostedOn) → counted_stands L.stands self.now posted → result ≡ length posted }
    {
        self.posted
    }
}

impl<L: Link> Link for Counted<L> {
    ghost use Rattle.cluster_calls.specs.Counted.{counted_shown, counted_stands};

    ghost shown = { counted_shown L.Link.shown };

    ghost stands = { counted_stands L.Link.stands };

    fn post(&mut self, from: Actor, to: Actor, message: Message) -> Result<u64, NoMemory> {
        let k = self.link.post(from, to, message)?;
        self.posted = k;
        Ok(k)
    }

    fn get(&mut self, k: u64) -> Result<Option<Posted>, NoMemory> {
        self.link.get(k)
    }

    fn peek(&self, k: u64) -> Option<&Posted> {
        self.link.peek(k)
    }

    fn lose(&mut self, k: u64) -> bool {
        self.link.lose(k)
    }

    fn lowest(&self) -> Option<u64> {
        self.link.lowest()
    }

    ghost sound = { λ l posted is. L.Link.sound l.link posted is.0 };
}
