use mini_tx::Numbers;
use node_cache::Want;
use plan_forms::AnswerForm;

/// What the minitransaction is for that a node began last.
#[derive(Debug, Drop)]
pub enum Attempt {
    /// It reads this part.
    Fetch(Want),
    /// It is the final one of its call.
    Final(Pending),
}

/// What a final minitransaction leaves to be done once it is granted.
#[derive(Debug, Drop)]
pub struct Pending {
    /// How the answer is made of what it read.
    pub answer: AnswerForm,
    /// The files that it changes.
    pub changed: Numbers,
    /// The memory nodes whose maps it writes, once for each write.
    pub written: Numbers,
}
