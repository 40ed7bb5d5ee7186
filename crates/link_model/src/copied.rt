ghost use Rattle.std.specs.Prelude.{◌≡◌, IfOk};

use mini_tx::{Item, KeptId, KeptIds, Message, Placed, PlacedItem, Posted};
use sfs_base::{NoMemory, Seq};

/// A copy of a message with its sender and receiver.
pub(crate) fn copied(posted: &Posted) -> Result<Posted, NoMemory>
    ensures { IfOk result (λ copy. copy ≡ posted.now) }
{
    Ok(Posted {
        from: posted.from,
        to: posted.to,
        message: copied_message(&posted.message)?,
    })
}

fn copied_message(message: &Message) -> Result<Message, NoMemory>
    ensures { IfOk result (λ copy. copy ≡ message.now) }
{
    match message {
        Message::Prepare {
            id,
            participants,
            items,
        } => Ok(Message::Prepare {
            id: *id,
            participants: participants.clone()?,
            items: copied_items(items)?,
        }),
        Message::Kept { ids, cut } => Ok(Message::Kept {
            ids: copied_ids(ids)?,
            cut: *cut,
        }),
        Message::Voted { id, vote } => Ok(Message::Voted {
            id: *id,
            vote: vote.clone()?,
        }),
        Message::Held { cut, answer } => Ok(Message::Held {
            cut: *cut,
            answer: answer.clone()?,
        }),
        Message::Piece { cut, place, bytes } => Ok(Message::Piece {
            cut: *cut,
            place: *place,
            bytes: bytes.clone()?,
        }),
        Message::Decide { id, commit } => Ok(Message::Decide {
            id: *id,
            commit: *commit,
        }),
        Message::Done { id } => Ok(Message::Done { id: *id }),
        Message::Forget { id } => Ok(Message::Forget { id: *id }),
        Message::List => Ok(Message::List),
        Message::Ask { id } => Ok(Message::Ask { id: *id }),
        Message::Answer { id, ok } => Ok(Message::Answer { id: *id, ok: *ok }),
        Message::Hold { cut } => Ok(Message::Hold { cut: *cut }),
        Message::Release { cut } => Ok(Message::Release { cut: *cut }),
        Message::Drop { cut } => Ok(Message::Drop { cut: *cut }),
        Message::ReadCut { cut, place } => Ok(Message::ReadCut {
            cut: *cut,
            place: *place,
        }),
    }
}

fn copied_items(items: &Placed) -> Result<Placed, NoMemory>
    ensures { IfOk result (λ copy. copy ≡ items.now) }
{
    Ok(items.clone()?)
}

fn copied_ids(ids: &KeptIds) -> Result<KeptIds, NoMemory>
    ensures { IfOk result (λ copy. copy ≡ ids.now) }
{
    Ok(ids.clone()?)
}
