//! What some bytes are heard as, and that a call which was written is heard again.
ghost use Rattle.std.specs.Prelude.{◌≡◌, ℕ, List};
ghost use Rattle.sfs_base.specs.Reading.{IsBytes};
ghost use Rattle.rpc_msg.specs.Heard.{Outcome, Heard};
ghost use Rattle.rpc_msg.specs.Hearing.{heard_of};
ghost use Rattle.rpc_msg.specs.Laws.{WrittenCallIsHeard};

use crate::arguments::Arguments;

/// By the ten cases all bytes are heard as one thing and no other, whatever the arguments of the
/// procedures are.
pub fn heard_is_one<A: Arguments>()
    ensures heard { (bytes : List ℕ) → IsBytes bytes → Heard A.begins bytes (heard_of A.read_of bytes) }
    ensures one { (bytes : List ℕ) → IsBytes bytes → (h : Outcome A) → Heard A.begins bytes h → h ≡ heard_of A.read_of bytes }
{}

/// A call that was written is heard as that call.
pub fn written_call_is_heard()
    ensures { WrittenCallIsHeard }
{}
