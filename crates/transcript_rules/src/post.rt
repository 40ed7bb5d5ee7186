use line_text::SentKind;
use mini_tx::Actor;

/// A message that was posted.
#[derive(Clone, Copy, Debug, PartialEq, Eq)]
pub struct Post {
    pub from: Actor,
    pub to: Actor,
    pub words: SentKind,
    /// The event in which it was posted.
    pub under: u64,
    /// That event posts messages again.
    pub again: bool,
    /// It was neither delivered nor left out of drains.
    pub waits: bool,
    /// The last event in which its receiver handled it; 0 where none did, since events count from 1.
    pub heard: u64,
}
