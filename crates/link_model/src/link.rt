ghost use Rattle.std.specs.Prelude.{◌≡◌, ◌<◌, ◌^◌, ◌↔◌, ℕ, List, [], ◌∷◌, ◌++◌, Option, Some, None, IsTrue, IsSome, IfSome, IfNone, IfOk, OnErr, false, suc};
ghost use Rattle.mini_tx.specs.declared.posted.Posted.{Posted as PostedOn};
ghost use Rattle.link_model.specs.Links.{Shown, IsOf, IsAlike, IsPosted, IsPassed, IsLeast};

use mini_tx::{Actor, Message, Posted};
use sfs_base::NoMemory;

/// Messages that were posted, each with a number from 1 on. A message *waits* until it was given or lost.
pub trait Link {
    /// What it shows of the messages.
    ghost shown: { Self → Shown };

    /// It stands for these messages: all that was ever posted on it, oldest first.
    ghost stands: { Self → List PostedOn → Type 0 };

    /// Posts a message, which waits from then on, and gives its number. [`NoMemory`]: nothing was posted.
    fn post(&mut self, from: Actor, to: Actor, message: Message) -> Result<u64, NoMemory>
        requires { (shown self.old).count < 2 ^ 63 }
        ensures ok { IfOk result (λ k. IsPosted (record { from = from; to = to; message = message }) k (shown self.old) (shown self.new)) }
        ensures stands { IfOk result (λ k. (posted : List PostedOn) → stands self.old posted
            → stands self.new (posted ++ record { from = from; to = to; message = message } ∷ [])) }
        ensures err { OnErr result (IsAlike (shown self.old) (shown self.new)) }
        ensures stands_err { OnErr result ((posted : List PostedOn) → stands self.old posted → stands self.new posted) };

    /// The message of this number, which waits no more; None exactly where there is none that can be given.
    /// [`NoMemory`]: nothing was given.
    fn get(&mut self, k: u64) -> Result<Option<Posted>, NoMemory>
        ensures given { IfOk result (λ given. given ≡ (shown self.old).there k) }
        ensures passed { IfOk result (λ given. IsPassed k (shown self.old) (shown self.new)) }
        ensures stands { (posted : List PostedOn) → stands self.old posted → stands self.new posted }
        ensures err { OnErr result (IsAlike (shown self.old) (shown self.new)) };

    /// What [`Link::get`] would give. It takes no memory.
    fn peek(&self, k: u64) -> Option<&Posted>
        ensures none { IfNone result ((shown self.now).there k ≡ None) }
        ensures some { IfSome result (λ posted. (shown self.now).there k ≡ Some posted.now) };

    /// Lets the message of this number wait no more, and tells whether it was posted. It can still be given.
    /// It takes no memory.
    fn lose(&mut self, k: u64) -> bool
        ensures posted { IsTrue result ↔ ((0 < k) × (k < suc (shown self.old).count)) }
        ensures passed { IsPassed k (shown self.old) (shown self.new) }
        ensures there { (shown self.new).there k ≡ (shown self.old).there k }
        ensures stands { (posted : List PostedOn) → stands self.old posted → stands self.new posted };

    /// The least number of a message that waits. It takes no memory.
    fn lowest(&self) -> Option<u64>
        ensures least { IfSome result (IsLeast (shown self.now)) }
        ensures none { IfNone result ((k : ℕ) → (shown self.now).waits k ≡ false) };

    /// What it stands for is what it shows.
    ghost sound: { (l : Self) (posted : List PostedOn) → stands l posted → IsOf posted (shown l) };
}
