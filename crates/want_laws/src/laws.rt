//! The law of wants.
ghost use Rattle.want_laws.specs.Laws.{WantsAreTold};

/// The part that a call wants next is told by what is held, where its handles have numbers of the cluster.
pub fn wants_are_told()
    ensures { WantsAreTold }
{}
