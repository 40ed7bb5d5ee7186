use crate::backup_why::BackupWhy;
use crate::down_why::DownWhy;
use crate::drop_why::DropWhy;
use crate::retry_why::RetryWhy;
use crate::sent_kind::SentKind;
use event_text::Event;
use mini_tx::Actor;
use sfs_base::Bytes;

/// A line of a transcript.
#[derive(Clone, Debug, PartialEq, Eq, Drop)]
pub enum Line {
    /// An arrival is handled: its number, and the node that it came to.
    DoArrive {
        arrival: u32,
        node: u32,
    },
    /// Another event is handled: none of [`Event::Cluster`], [`Event::Arrive`], [`Event::Drain`] and [`Event::End`].
    DoEvent(Event),
    /// The receiver of message `k` is down.
    Lost {
        k: u64,
    },
    /// An actor went down.
    Down {
        who: Actor,
        why: DownWhy,
    },
    /// The file system changed: the number of the change, the arrival that made it, and the number and
    /// generation of the file that it made, if it made one.
    Point {
        point: u64,
        arrival: u32,
        made: Option<(u32, u32)>,
    },
    /// Message `k` was posted.
    Sent {
        k: u64,
        from: Actor,
        to: Actor,
        words: SentKind,
    },
    /// An arrival is answered: the point at which the answer holds, and the reply.
    Reply {
        arrival: u32,
        at: u64,
        bytes: Bytes,
    },
    /// An arrival ended without a reply after it ran.
    Retry {
        arrival: u32,
        why: RetryWhy,
    },
    /// An arrival has no reply.
    Dropped {
        arrival: u32,
        why: DropWhy,
    },
    /// The cut of a backup, and how many points there were.
    Cut {
        number: u32,
        at: u64,
    },
    /// All of a backup is in the vault.
    BackupDone {
        number: u32,
    },
    /// A backup ended before it was done.
    RetryBackup {
        number: u32,
        why: BackupWhy,
    },
    /// The archive of a backup was mounted, and a listing of so many lines follows.
    Mounted {
        number: u32,
        lines: u64,
    },
    /// A line of a listing.
    Listed(Bytes),
    /// The vault failed while an archive was read.
    MountFailed {
        number: u32,
    },
    /// What was read is no archive of a file system.
    MountBad {
        number: u32,
    },
    /// The schedule is refused: the number of the line that is at fault.
    Refused {
        line: u64,
    },
    /// The schedule was read to its end.
    End,
}
