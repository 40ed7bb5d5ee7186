ghost use Rattle.std.specs.Prelude.{ℕ, List, Option};
ghost use Rattle.rpc_msg.specs.Heard.{Grammar, IsGrammar};

/// The arguments of all procedures: a value is the arguments of one of them. It is for contracts alone,
/// since what arguments are is told by the layers above.
pub trait Arguments {
    /// Which bytes begin with the arguments of a procedure, and what these are.
    ghost begins: { Grammar Self };

    /// The arguments of a procedure that some bytes begin with.
    ghost read_of: { ℕ → ℕ → List ℕ → Option Self };

    ghost grammar: { IsGrammar begins read_of };
}
