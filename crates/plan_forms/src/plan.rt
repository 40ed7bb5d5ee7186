use crate::form::AnswerForm;
use mini_tx::{Items, Mini, Numbers};
use node_cache::Want;

/// What a call does next.
#[derive(Debug, Drop)]
pub enum Plan {
    /// It reads this part.
    Need(Want),
    /// It lacks none: its final minitransaction, and what comes of it.
    Final {
        mini: Mini,
        /// How the answer is made of what was read.
        answer: AnswerForm,
        /// The number and the generation of the file that is made, if one is.
        made: Option<(u32, u32)>,
        /// The files that are changed, in ascending number.
        changed: Numbers,
    },
}

/// What a final reads behind its comparisons, and how its answer is made of that.
#[derive(Debug, Drop)]
pub struct Reading {
    pub items: Items,
    pub form: AnswerForm,
}
