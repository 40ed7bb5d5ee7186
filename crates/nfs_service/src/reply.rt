ghost use Rattle.std.specs.Prelude.{◌≡◌, IfOk};
ghost use Rattle.rpc_msg.specs.Messages.{accepted};
ghost use Rattle.nfs_proto.specs.Answers.{answer_spelling};
ghost use Rattle.fs_rules.specs.Respond.{IsTold};
ghost use Rattle.line_words.specs.Words.{HasDatagramLength};
ghost use Rattle.nfs_service.specs.Reply.{HasHandle};

use nfs_proto::{Answer, write_answer};
use rpc_msg::write_reply;
use sfs_base::{Bytes, NoMemory};
use std::alloc::Global;

/// The reply to the call with this xid: accepted, with the answer as RFC 1094 spells it.
pub fn reply_to(alloc: Global, xid: u32, answer: &Answer) -> Result<Bytes, NoMemory>
    requires told { IsTold answer.now }
    requires handle { HasHandle answer.now }
    ensures exact { IfOk result (λ reply. reply ≡ accepted xid (answer_spelling answer.now)) }
    ensures sized { IfOk result HasDatagramLength }
{
    let body = write_answer(alloc, answer)?;
    let reply = write_reply(alloc, xid, &body)?;
    Ok(Bytes::from(reply))
}
