ghost use Rattle.std.specs.Prelude.{◌≡◌, ◌<◌, ◌^◌, map, length, slice_get, Option, None, Some, IfSome, IfNone, List};
ghost use Rattle.mini_tx.specs.declared.posted.Posted.{Posted as PostedOn};
ghost use Rattle.link_model.specs.Places.{shown_by, posted_in};
ghost use Rattle.link_model.specs.Simulated.{places_in};
ghost use Rattle.link_model.specs.PlaceLaws.{places_are_of};

use crate::copied::copied;
use crate::link::Link;
use crate::place::Place;
use crate::sim_link::SimLink;
use mini_tx::{Actor, Message, Posted};
use sfs_base::NoMemory;

impl Link for SimLink {
    ghost shown = { λ l. shown_by (places_in l) };

    ghost stands = { λ l posted. posted ≡ posted_in (places_in l) };

    fn post(&mut self, from: Actor, to: Actor, message: Message) -> Result<u64, NoMemory> {
        let posted = Posted { from, to, message };
        self.places.push(Place {
            posted,
            waits: true,
        })?;
        Ok(self.places.len() as u64)
    }

    fn get(&mut self, k: u64) -> Result<Option<Posted>, NoMemory> {
        match self.peek(k) {
            Some(posted) => {
                let given = copied(posted)?;
                self.pass(k);
                Ok(Some(given))
            }
            None => {
                self.pass(k);
                Ok(None)
            }
        }
    }

    fn peek(&self, k: u64) -> Option<&Posted> {
        let index = k.checked_sub(1)?;
        let place = self.places.get(index as usize)?;
        Some(&place.posted)
    }

    fn lose(&mut self, k: u64) -> bool {
        self.pass(k);
        0 < k && k <= self.places.len() as u64
    }

    fn lowest(&self) -> Option<u64> {
        if self.first < self.places.len() {
            Some(self.first as u64 + 1)
        } else {
            None
        }
    }

    ghost sound = { λ l posted is. places_are_of (places_in l) posted is };
}
