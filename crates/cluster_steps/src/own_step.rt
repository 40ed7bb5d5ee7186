ghost use Rattle.std.specs.Prelude.{◌≡◌, ◌<◌, ◌^◌, ◌++◌, ℕ, List, map, None, length, slice_get, Some, OnOk, if◌then◌else◌};
ghost use Rattle.mini_tx.specs.Order.{is_same};
ghost use Rattle.mini_tx.specs.declared.tx_id.TxId.{TxId as Identifier};
ghost use Rattle.mini_tx.specs.declared.posted.Posted.{Posted};
ghost use Rattle.tx_coord.specs.Rules.{next_id, resent};
ghost use Rattle.tx_coord.specs.State.{Free, Machine};
ghost use Rattle.story_rules.specs.Story.{Story};
ghost use Rattle.story_rules.specs.Steps.{begun_by, sent_by};
ghost use Rattle.story_laws.specs.Acts.{IsTold};
ghost use Rattle.cluster_parts.specs.Books.{doubts_of, history_of};
ghost use Rattle.cluster_seats.specs.Seats.{nodes_in};
ghost use Rattle.cluster_steps.specs.Live.{IsBeside};

use crate::posting::post_all;
use crate::running::running;
use cluster_parts::{Book, is_change};
use cluster_seats::Seats;
use link_model::Link;
use mini_tx::{Mini, TxId};
use sfs_base::NoMemory;
use std::alloc::Global;

/// Enters what runs, where it changes something.
fn enter(
    book: &mut Book,
    id: Option<TxId>,
    change: bool,
    participants: &[u32],
) -> Result<(), NoMemory>
    requires { (own : Identifier) → id ≡ Some own → doubts_of book.old own ≡ None }
    ensures history { history_of book.new ≡ history_of book.old }
    ensures doubts { OnOk result ((own : Identifier) → id ≡ Some own → (other : Identifier) → doubts_of book.new other
        ≡ (if change then (if is_same own other then Some participants.now else doubts_of book.old other) else doubts_of book.old other)) }
{
    match id {
        Some(id) => {
            if change {
                book.begin(id, participants)
            } else {
                Ok(())
            }
        }
        None => Ok(()),
    }
}

/// A node that is idle begins a minitransaction. [`NoMemory`]: there is no memory.
pub fn begin<L: Link>(
    alloc: Global,
    seats: &mut Seats,
    book: &mut Book,
    link: &mut L,
    n: u32,
    mini: Mini,
) -> Result<(), NoMemory>
    requires there { n < length (nodes_in seats.old) }
    requires idle { (c : Machine) → slice_get (nodes_in seats.old) n ≡ Some c → c.state.phase ≡ Free }
    requires few { (c : Machine) → slice_get (nodes_in seats.old) n ≡ Some c → c.state.begun < 2 ^ 62 }
    requires unknown { (c : Machine) → slice_get (nodes_in seats.old) n ≡ Some c → doubts_of book.old (next_id c.state) ≡ None }
    requires life { (L.shown link.old).count < 2 ^ 62 }
    ensures { OnOk result ((size : ℕ) (story : Story) → IsTold size story → IsBeside (nodes_in seats.old) (L.stands link.old) book.old story
        → IsBeside (nodes_in seats.new) (L.stands link.new) book.new (begun_by story n mini) × ((begun_by story n mini).sites ≡ story.sites)) }
{
    let change = is_change(mini.items().as_slice());
    let participants = Vec::from_slice(alloc, mini.participants())?;
    let posts = seats.begin(n, mini)?;
    enter(
        book,
        running(seats.state(n)),
        change,
        participants.as_slice(),
    )?;
    post_all(link, n, posts)
}

/// What a node posts again is posted. [`NoMemory`]: there is no memory.
pub fn resend<L: Link>(seats: &Seats, link: &mut L, n: u32) -> Result<(), NoMemory>
    requires there { n < length (nodes_in seats.now) }
    requires life { (L.shown link.old).count < 2 ^ 62 }
    ensures { OnOk result ((c : Machine) → slice_get (nodes_in seats.now) n ≡ Some c
        → (posted : List Posted) → L.stands link.old posted → L.stands link.new (posted ++ map (sent_by n) (resent c.state))) }
{
    let posts = seats.resend(n)?;
    post_all(link, n, posts)
}
