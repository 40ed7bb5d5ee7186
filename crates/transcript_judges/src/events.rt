//! The event that runs.
ghost use Rattle.std.specs.Prelude.{◌≡◌, ◌==◌, ◌+◌, Some, None, if◌then◌else◌};
ghost use Rattle.transcript_facts.specs.Now.{delivered_in};
ghost use Rattle.transcript_judges.specs.Tests.{gives_up, handled, is_number, is_under, post_of, runs, shows, starts_one, words_between};

use line_text::{Line, SentKind};
use mini_tx::Actor;
use transcript_book::Mail;
use transcript_checks::{is_actor, rank};
use transcript_facts::{Facts, Now};
use transcript_rules::Post;

/// Whether what there may be is this number.
pub fn is_number(number: u64, other: Option<u64>) -> bool
    ensures { result ≡ is_number number other }
{
    match other {
        Some(other) => other == number,
        None => false,
    }
}

/// Whether a number is the next behind so many.
pub fn is_next(count: u64, number: u64) -> bool
    ensures { result ≡ (number == count + 1) }
{
    number > 0 && number - 1 == count
}

/// Whether a line may stand under the event that runs.
pub fn is_under(facts: &Facts, line: &Line) -> bool
    ensures { result ≡ is_under facts.now line.now }
{
    runs(facts.event) && facts.said.highest <= rank(line)
}

// Whether there was an event.
fn runs(now: Now) -> bool
    ensures { result ≡ runs now }
{
    !matches!(now, Now::Nothing)
}

/// Whether an actor is told to give up.
pub(crate) fn gives_up(now: Now, who: Actor) -> bool
    ensures { result ≡ gives_up now who }
{
    match now {
        Now::GiveUp { who: told } => is_actor(told, who),
        _ => false,
    }
}

/// Whether a memory node starts.
pub(crate) fn starts_one(now: Now) -> bool
    ensures { result ≡ starts_one now }
{
    matches!(now, Now::StartMemory { .. })
}

/// Whether the archive of this backup is mounted.
pub(crate) fn shows(now: Now, number: u32) -> bool
    ensures { result ≡ shows now number }
{
    match now {
        Now::Show { number: shown } => shown == number,
        _ => false,
    }
}

/// The message that is delivered.
pub(crate) fn delivered_in(now: Now) -> Option<u64>
    ensures { result ≡ delivered_in now }
{
    match now {
        Now::Deliver { k } => Some(k),
        _ => None,
    }
}

/// The message that the event hands on.
pub(crate) fn handled(facts: &Facts) -> Option<Post>
    ensures { result ≡ handled facts.now }
{
    post_of(&facts.mail, delivered_in(facts.event))
}

// The message with a number, if there is one.
fn post_of(mail: &Mail, k: Option<u64>) -> Option<Post>
    ensures { result ≡ post_of mail.now k }
{
    match k {
        Some(k) => mail.get(k).copied(),
        None => None,
    }
}

/// What a message says that goes from one actor to another.
pub(crate) fn words_between(from: Actor, to: Actor, handed: Option<Post>) -> Option<SentKind>
    ensures { result ≡ words_between from to handed }
{
    match handed {
        Some(post) => words_if(
            is_actor(post.from, from) && is_actor(post.to, to),
            post.words,
        ),
        None => None,
    }
}

fn words_if(between: bool, words: SentKind) -> Option<SentKind>
    ensures { result ≡ if between then Some words else None }
{
    if between { Some(words) } else { None }
}
