ghost use Rattle.std.specs.Prelude.{◌≡◌};
ghost use Rattle.mem_rules.specs.Items.{any_write};
ghost use Rattle.mem_rules.specs.Rules.{is_logged};
ghost use Rattle.mini_tx.specs.EntryGrammar.{is_granted};
ghost use Rattle.mini_tx.specs.Minitransactions.{is_write as is_write_of};
ghost use Rattle.story_rules.specs.Steps.{has_write};
ghost use Rattle.cluster_laws.specs.Reactions.{grants as grants_of, is_grant, logged_in};

use mini_tx::{Item, Message, PlacedItem, TxId, Vote};

/// Whether an item writes.
fn is_write(item: &Item) -> bool
    ensures { result ≡ is_write_of item.now }
{
    match item {
        Item::Write { .. } => true,
        Item::Compare { .. } | Item::Read { .. } => false,
    }
}

/// Whether one of these items writes.
fn writes(items: &[PlacedItem]) -> bool
    ensures { result ≡ any_write items.now }
{
    for placed in items {
        if matches!(placed.item, Item::Write { .. }) {
            return true;
        }
    }
    false
}

/// Whether a minitransaction of these items changes something.
pub fn is_change(items: &[Item]) -> bool
    ensures { result ≡ has_write items.now }
{
    items.iter().any(|item| is_write(item))
}

/// The identifier of a message that asks for a vote which has an entry.
pub fn may_grant(message: &Message) -> Option<TxId>
    ensures { result ≡ logged_in message.now }
{
    match message {
        Message::Prepare {
            id,
            participants,
            items,
        } => {
            if participants.len() >= 2 || writes(items.as_slice()) {
                Some(*id)
            } else {
                None
            }
        }
        _ => None,
    }
}

/// Whether a vote is Granted.
fn is_granting(vote: &Vote) -> bool
    ensures { result ≡ is_granted vote.now }
{
    match vote {
        Vote::Granted(_) => true,
        Vote::Mismatch { .. } | Vote::Locked { .. } | Vote::Forced { .. } | Vote::Held { .. } =>
            false,
    }
}

/// Whether an answer is a Granted vote.
pub fn is_granted_vote(answer: &Option<Message>) -> bool
    ensures { result ≡ is_grant answer.now }
{
    match answer {
        Some(Message::Voted { vote, .. }) => is_granting(vote),
        _ => false,
    }
}

/// The identifier that an answer grants anew, of the one that it may grant.
pub fn grants(may: Option<TxId>, answer: &Option<Message>) -> Option<TxId>
    ensures { result ≡ grants_of may answer.now }
{
    if is_granted_vote(answer) { may } else { None }
}
