/// How an arrival ended.
#[derive(Clone, Copy, Debug, PartialEq, Eq)]
pub enum Ended {
    /// With a reply.
    Replied,
    /// It was dropped when it came.
    Dropped,
    /// It failed too often.
    Retried,
    /// Its node was told to give it up.
    GivenUp,
    /// Its node went down. No line tells it.
    Lost,
}
