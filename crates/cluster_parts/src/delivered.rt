use mini_tx::Message;

/// How a delivery went.
#[derive(Clone, Copy, Debug, PartialEq, Eq)]
pub enum Delivered {
    /// The receiver is down.
    Lost,
    /// The receiver handled the message.
    Handled,
    /// The receiver, a memory node, went down in the call.
    WentDown(DownCause),
}

/// Why a memory node went down.
#[derive(Clone, Copy, Debug, PartialEq, Eq)]
pub enum DownCause {
    /// The stop of the call was reached.
    Stop,
    /// Its disk failed.
    Fault,
    /// Its log was full.
    Full,
}

/// What a memory node made of a message.
#[derive(Debug, Drop)]
pub enum Handled {
    /// It handled it, and this is its answer, where it has one.
    Answered(Option<Message>),
    /// It went down.
    Fell(DownCause),
}
