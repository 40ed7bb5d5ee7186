ghost use Rattle.std.specs.Prelude.{◌≡◌};
ghost use Rattle.rpc_msg.specs.Hearing.{why_number};

/// Why a caller is not let in (RFC 1057, section 8).
#[derive(Clone, Copy, Debug, PartialEq, Eq)]
pub(crate) enum AuthWhy {
    /// The credential is out of form.
    BadCredential,
    /// The credential's flavor is none that is taken.
    RejectedCredential,
    /// The verifier is out of form.
    BadVerifier,
}

impl AuthWhy {
    /// The number that stands for it in a reply.
    pub(crate) fn number(self) -> u32
        ensures { result ≡ why_number self }
    {
        match self {
            AuthWhy::BadCredential => 1,
            AuthWhy::RejectedCredential => 2,
            AuthWhy::BadVerifier => 3,
        }
    }
}
