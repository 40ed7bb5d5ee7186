use crate::actor::Actor;
use crate::message::Message;

/// A message, with who sends and who receives it.
#[derive(Debug, Clone, PartialEq, Eq, Drop)]
pub struct Posted {
    pub from: Actor,
    pub to: Actor,
    pub message: Message,
}
