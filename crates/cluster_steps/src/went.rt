use cluster_parts::Delivered;

/// What became of a message to a memory node.
#[derive(Clone, Copy, Debug, PartialEq, Eq)]
pub struct Went {
    /// How the delivery went.
    pub delivered: Delivered,
    /// The number of the message by which a Granted vote left, if one did.
    pub vote: Option<u64>,
}

impl Went {
    ghost use Rattle.std.specs.Prelude.{◌≡◌, None};

    /// No Granted vote left.
    pub fn without_vote(delivered: Delivered) -> Went
        ensures { result ≡ record { delivered = delivered; vote = None } }
    {
        Went {
            delivered,
            vote: None,
        }
    }
}
