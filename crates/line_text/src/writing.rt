//! Writing a line of a transcript: its words, with one space between two.
ghost use Rattle.std.specs.Prelude.{◌≡◌, [], ◌∷◌, ◌++◌, codes, decimal, take, vec_len, OnOk, OnErr, IfOk};
ghost use Rattle.line_words.specs.Words.{words_of, text_of_words, HasDatagramLength};
ghost use Rattle.line_words.specs.Writing.{text_of, IsShort};
ghost use Rattle.event_text.specs.Grammar.{actor_words, event_words, IsTypedActor, IsTypedEvent};
ghost use Rattle.line_text.specs.declared.line.Line.TheVariants as lines;
ghost use Rattle.line_text.specs.Grammar.{down_words, locked_words, retry_words, backup_words, mark_word, kind_words, line_words, IsTypedLine, IsTypedId, IsTypedCut, IsTypedRetry, IsTypedBackup, IsWritableLine, IsWritableTold, HasLineSpelling, spelling_of_line};

use crate::backup_why::BackupWhy;
use crate::down_why::DownWhy;
use crate::drop_why::DropWhy;
use crate::line::Line;
use crate::names;
use crate::retry_why::RetryWhy;
use crate::sent_kind::SentKind;
use event_text::{Event, append_line};
use line_words::{Word, append_words};
use mini_tx::{Actor, CutId, TxId};
use sfs_base::NoMemory;
use std::alloc::Global;

/// Writes a line of a transcript at the end of `out`, without a newline. The bytes of a reply are 1 to
/// [`MAX_DATAGRAM_BYTES`](line_words::MAX_DATAGRAM_BYTES), its file is not the pair of two zeros, which stands for
/// none, an event is one that is told as it stands, and a line of a listing is one. [`NoMemory`]: there is no memory
/// for the line, and `out` holds what it held.
#[tactic(auto, unfolding(crate::specs::Grammar::spelling_of_line, crate::specs::Grammar::line_words))]
pub fn append_out(out: &mut Vec<u8>, line: &Line) -> Result<(), NoMemory>
    requires { IsWritableLine line.now }
    ensures spelled { HasLineSpelling line.now }
    ensures ok { OnOk result (out.new.items ≡ out.old.items ++ spelling_of_line line.now) }
    ensures err { OnErr result (out.new.items ≡ out.old.items) }
{
    match line {
        Line::DoArrive { arrival, node } => append_words(
            out,
            &[
                Word::Name(names::DO),
                Word::Name(names::ARRIVE),
                Word::Number(u64::from(*arrival)),
                Word::Number(u64::from(*node)),
            ],
        ),
        Line::DoEvent(event) => append_told(out, event),
        Line::Lost { k } => append_words(out, &[Word::Name(names::LOST), Word::Number(*k)]),
        Line::Down { who, why } => append_down(out, *who, *why),
        Line::Point {
            point,
            arrival,
            made,
        } => append_point(out, *point, *arrival, *made),
        Line::Sent { k, from, to, words } => append_sent(out, *k, *from, *to, *words),
        Line::Reply { arrival, at, bytes } => append_reply(out, *arrival, *at, bytes.as_slice()),
        Line::Retry { arrival, why } => append_retry(out, *arrival, *why),
        Line::Dropped { arrival, why } => append_dropped(out, *arrival, *why),
        Line::Cut { number, at } => append_words(
            out,
            &[
                Word::Name(names::CUT),
                Word::Number(u64::from(*number)),
                Word::Name(names::AT),
                Word::Number(*at),
            ],
        ),
        Line::BackupDone { number } => append_done(out, *number),
        Line::RetryBackup { number, why } => append_retry_backup(out, *number, *why),
        Line::Mounted { number, lines } => append_words(
            out,
            &[
                Word::Name(names::MOUNTED),
                Word::Number(u64::from(*number)),
                Word::Number(*lines),
            ],
        ),
        Line::Listed(text) => append_listed(out, text.as_slice()),
        Line::MountFailed { number } => append_mounting(out, *number, names::FAILED),
        Line::MountBad { number } => append_mounting(out, *number, names::BAD),
        Line::Refused { line } => {
            append_words(out, &[Word::Name(names::REFUSED), Word::Number(*line)])
        }
        Line::End => append_words(out, &[Word::Name(names::END)]),
    }
}

/// A line of a transcript, without a newline, as [`append_out`] writes it. [`NoMemory`]: there is no
/// memory for it.
pub fn write_out(alloc: Global, line: &Line) -> Result<Vec<u8>, NoMemory>
    requires { IsWritableLine line.now }
    ensures spelled { HasLineSpelling line.now }
    ensures text { IfOk result (λ text. text.items ≡ spelling_of_line line.now) }
{
    let mut text = Vec::new(alloc);
    append_out(&mut text, line)?;
    Ok(text)
}

// An event behind `do`.
fn append_told(out: &mut Vec<u8>, event: &Event) -> Result<(), NoMemory>
    requires { IsWritableTold event.now }
    ensures typed { IsTypedEvent event.now }
    ensures ok { OnOk result (out.new.items ≡ out.old.items ++ text_of_words (codes "do" ∷ event_words event.now)) }
    ensures err { OnErr result (out.new.items ≡ out.old.items) }
{
    let start = out.len();
    match push_told(out, event) {
        Ok(()) => Ok(()),
        Err(NoMemory) => {
            out.truncate(start);
            Err(NoMemory)
        }
    }
}

// Writes it as `append_told` does. On an error `out` begins with what it held.
fn push_told(out: &mut Vec<u8>, event: &Event) -> Result<(), NoMemory>
    requires { IsWritableTold event.now }
    ensures typed { IsTypedEvent event.now }
    ensures ok { OnOk result (out.new.items ≡ out.old.items ++ text_of_words (codes "do" ∷ event_words event.now)) }
    ensures err { OnErr result (take (vec_len out.old) out.new.items ≡ out.old.items) }
{
    let begun = append_words(out, &[Word::Name(names::DO), Word::Name(&[])]);
    let written = append_line(out, event);
    begun?;
    written
}

// A line of a listing, as it stands.
fn append_listed(out: &mut Vec<u8>, text: &[u8]) -> Result<(), NoMemory>
    ensures ok { OnOk result (out.new.items ≡ out.old.items ++ text_of_words (words_of text.now)) }
    ensures err { OnErr result (out.new.items ≡ out.old.items) }
{
    append_words(out, &[Word::Name(text)])
}

fn append_done(out: &mut Vec<u8>, number: u32) -> Result<(), NoMemory>
    ensures ok { OnOk result (out.new.items ≡ out.old.items ++ text_of_words (codes "backup" ∷ decimal number ∷ codes "done" ∷ [])) }
    ensures err { OnErr result (out.new.items ≡ out.old.items) }
{
    append_words(
        out,
        &[
            Word::Name(names::BACKUP),
            Word::Number(u64::from(number)),
            Word::Name(names::DONE),
        ],
    )
}

// What mounting the archive with this number came to, in one word.
fn append_mounting(out: &mut Vec<u8>, number: u32, came_to: &[u8]) -> Result<(), NoMemory>
    ensures ok { OnOk result (out.new.items ≡ out.old.items ++ text_of_words (codes "mounted" ∷ decimal number ∷ came_to.now ∷ [])) }
    ensures err { OnErr result (out.new.items ≡ out.old.items) }
{
    append_words(
        out,
        &[
            Word::Name(names::MOUNTED),
            Word::Number(u64::from(number)),
            Word::Name(came_to),
        ],
    )
}

fn append_down(out: &mut Vec<u8>, who: Actor, why: DownWhy) -> Result<(), NoMemory>
    ensures typed { IsTypedActor who }
    ensures ok { OnOk result (out.new.items ≡ out.old.items ++ text_of_words (codes "down" ∷ actor_words who ++ down_words why)) }
    ensures err { OnErr result (out.new.items ≡ out.old.items) }
{
    let name = Word::Name(names::DOWN);
    let why = Word::Name(why.name());
    match who {
        Actor::Node(n) => append_words(
            out,
            &[
                name,
                Word::Name(names::NODE),
                Word::Number(u64::from(n)),
                why,
            ],
        ),
        Actor::Memory(m) => append_words(
            out,
            &[
                name,
                Word::Name(names::MEMORY),
                Word::Number(u64::from(m)),
                why,
            ],
        ),
        Actor::Manager => append_words(out, &[name, Word::Name(names::MANAGER), why]),
    }
}

#[tactic(auto, unfolding(crate::specs::Grammar::line_words))]
fn append_point(
    out: &mut Vec<u8>,
    point: u64,
    arrival: u32,
    made: Option<(u32, u32)>,
) -> Result<(), NoMemory>
    ensures typed { IsTypedLine (lines.Point point arrival made) }
    ensures ok { OnOk result (out.new.items ≡ out.old.items ++ text_of_words (line_words (lines.Point point arrival made))) }
    ensures err { OnErr result (out.new.items ≡ out.old.items) }
{
    let (first, second) = made.unwrap_or((0, 0));
    append_words(
        out,
        &[
            Word::Name(names::POINT),
            Word::Number(point),
            Word::Name(names::ARRIVAL),
            Word::Number(u64::from(arrival)),
            Word::Name(names::MADE),
            Word::Number(u64::from(first)),
            Word::Number(u64::from(second)),
        ],
    )
}

fn append_sent(
    out: &mut Vec<u8>,
    k: u64,
    from: Actor,
    to: Actor,
    kind: SentKind,
) -> Result<(), NoMemory>
    ensures typed { IsTypedActor from × IsTypedActor to }
    ensures ok { OnOk result (out.new.items ≡ out.old.items ++ text_of_words (codes "sent" ∷ decimal k ∷ mark_word from ∷ mark_word to ∷ kind_words kind)) }
    ensures err { OnErr result (out.new.items ≡ out.old.items) }
{
    let name = Word::Name(names::SENT);
    let k = Word::Number(k);
    let from = mark(from);
    let to = mark(to);
    match kind.names() {
        (first, None) => append_words(out, &[name, k, from, to, Word::Name(first)]),
        (first, Some(second)) => append_words(
            out,
            &[name, k, from, to, Word::Name(first), Word::Name(second)],
        ),
    }
}

// The one word of an actor.
fn mark(who: Actor) -> Word<'static>
    ensures typed { IsTypedActor who }
    ensures word { text_of result ≡ mark_word who }
    ensures short { IsShort result }
{
    match who {
        Actor::Node(n) => Word::Mark(b'n', n),
        Actor::Memory(m) => Word::Mark(b'm', m),
        Actor::Manager => Word::Name(names::MGR),
    }
}

#[tactic(auto, unfolding(crate::specs::Grammar::line_words))]
fn append_reply(out: &mut Vec<u8>, arrival: u32, at: u64, bytes: &[u8]) -> Result<(), NoMemory>
    requires { HasDatagramLength bytes.now }
    ensures typed { IsTypedLine (lines.Reply arrival at bytes.now) }
    ensures ok { OnOk result (out.new.items ≡ out.old.items ++ text_of_words (line_words (lines.Reply arrival at bytes.now))) }
    ensures err { OnErr result (out.new.items ≡ out.old.items) }
{
    append_words(
        out,
        &[
            Word::Name(names::REPLY),
            Word::Number(u64::from(arrival)),
            Word::Name(names::AT),
            Word::Number(at),
            Word::Hex(bytes),
        ],
    )
}

#[tactic(auto, unfolding(crate::specs::Grammar::line_words))]
fn append_dropped(out: &mut Vec<u8>, arrival: u32, why: DropWhy) -> Result<(), NoMemory>
    ensures typed { IsTypedLine (lines.Dropped arrival why) }
    ensures ok { OnOk result (out.new.items ≡ out.old.items ++ text_of_words (line_words (lines.Dropped arrival why))) }
    ensures err { OnErr result (out.new.items ≡ out.old.items) }
{
    let name = Word::Name(names::DROPPED);
    let arrival = Word::Number(u64::from(arrival));
    match why {
        DropWhy::Down => append_words(out, &[name, arrival, Word::Name(names::DOWN)]),
        DropWhy::Silent => append_words(out, &[name, arrival, Word::Name(names::SILENT)]),
        DropWhy::Full => append_words(out, &[name, arrival, Word::Name(names::FULL)]),
        DropWhy::Damaged { memory, at } => append_words(
            out,
            &[
                name,
                arrival,
                Word::Name(names::DAMAGED),
                Word::Number(u64::from(memory)),
                Word::Number(u64::from(at)),
            ],
        ),
    }
}

fn append_retry(out: &mut Vec<u8>, arrival: u32, why: RetryWhy) -> Result<(), NoMemory>
    ensures typed { IsTypedRetry why }
    ensures ok { OnOk result (out.new.items ≡ out.old.items ++ text_of_words (codes "retry" ∷ decimal arrival ∷ retry_words why)) }
    ensures err { OnErr result (out.new.items ≡ out.old.items) }
{
    let name = Word::Name(names::RETRY);
    let of = Word::Number(u64::from(arrival));
    match why {
        RetryWhy::Mismatch { memory, at } => append_words(
            out,
            &[
                name,
                of,
                Word::Name(names::MISMATCH),
                Word::Number(u64::from(memory)),
                Word::Number(u64::from(at)),
            ],
        ),
        RetryWhy::Locked { memory, holder } => append_retry_locked(out, arrival, memory, holder),
        RetryWhy::Held { memory, cut } => append_retry_held(out, arrival, memory, cut),
        RetryWhy::Forced { memory } => append_words(
            out,
            &[
                name,
                of,
                Word::Name(names::FORCED),
                Word::Number(u64::from(memory)),
            ],
        ),
        RetryWhy::Unreached => append_words(out, &[name, of, Word::Name(names::UNREACHED)]),
    }
}

fn append_retry_locked(
    out: &mut Vec<u8>,
    arrival: u32,
    memory: u32,
    holder: TxId,
) -> Result<(), NoMemory>
    ensures typed { IsTypedId holder }
    ensures ok { OnOk result (out.new.items ≡ out.old.items ++ text_of_words (codes "retry" ∷ decimal arrival ∷ locked_words memory holder)) }
    ensures err { OnErr result (out.new.items ≡ out.old.items) }
{
    append_words(
        out,
        &[
            Word::Name(names::RETRY),
            Word::Number(u64::from(arrival)),
            Word::Name(names::LOCKED),
            Word::Number(u64::from(memory)),
            Word::Number(u64::from(holder.coord)),
            Word::Number(holder.boot),
            Word::Number(holder.seq),
        ],
    )
}

fn append_retry_held(
    out: &mut Vec<u8>,
    arrival: u32,
    memory: u32,
    cut: CutId,
) -> Result<(), NoMemory>
    ensures typed { IsTypedCut cut }
    ensures ok { OnOk result (out.new.items ≡ out.old.items ++ text_of_words (codes "retry" ∷ decimal arrival ∷ codes "held" ∷ decimal memory ∷ decimal cut.boot ∷ decimal cut.seq ∷ [])) }
    ensures err { OnErr result (out.new.items ≡ out.old.items) }
{
    append_words(
        out,
        &[
            Word::Name(names::RETRY),
            Word::Number(u64::from(arrival)),
            Word::Name(names::HELD),
            Word::Number(u64::from(memory)),
            Word::Number(cut.boot),
            Word::Number(cut.seq),
        ],
    )
}

fn append_retry_backup(out: &mut Vec<u8>, number: u32, why: BackupWhy) -> Result<(), NoMemory>
    ensures typed { IsTypedBackup why }
    ensures ok { OnOk result (out.new.items ≡ out.old.items ++ text_of_words (codes "retry" ∷ codes "backup" ∷ decimal number ∷ backup_words why)) }
    ensures err { OnErr result (out.new.items ≡ out.old.items) }
{
    let name = Word::Name(names::RETRY);
    let kind = Word::Name(names::BACKUP);
    let of = Word::Number(u64::from(number));
    match why {
        BackupWhy::Locked { memory, holder } => append_backup_locked(out, number, memory, holder),
        BackupWhy::Lost { memory } => append_words(
            out,
            &[
                name,
                kind,
                of,
                Word::Name(names::LOST),
                Word::Number(u64::from(memory)),
            ],
        ),
        BackupWhy::Vault => append_words(out, &[name, kind, of, Word::Name(names::VAULT)]),
        BackupWhy::Unreached => {
            append_words(out, &[name, kind, of, Word::Name(names::UNREACHED)])
        }
    }
}

fn append_backup_locked(
    out: &mut Vec<u8>,
    number: u32,
    memory: u32,
    holder: TxId,
) -> Result<(), NoMemory>
    ensures typed { IsTypedId holder }
    ensures ok { OnOk result (out.new.items ≡ out.old.items ++ text_of_words (codes "retry" ∷ codes "backup" ∷ decimal number ∷ locked_words memory holder)) }
    ensures err { OnErr result (out.new.items ≡ out.old.items) }
{
    append_words(
        out,
        &[
            Word::Name(names::RETRY),
            Word::Name(names::BACKUP),
            Word::Number(u64::from(number)),
            Word::Name(names::LOCKED),
            Word::Number(u64::from(memory)),
            Word::Number(u64::from(holder.coord)),
            Word::Number(holder.boot),
            Word::Number(holder.seq),
        ],
    )
}
