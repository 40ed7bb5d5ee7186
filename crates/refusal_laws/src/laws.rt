//! The law of refusals.
ghost use Rattle.refusal_laws.specs.Laws.{RefusalsAreTold};

/// The status with which the first check fails that fails is one of RFC 1094, section 2.3.1, and not OK.
pub fn refusals_are_told()
    ensures { RefusalsAreTold }
{}
