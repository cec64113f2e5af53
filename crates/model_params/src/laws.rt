//! What holds of all parameters.
ghost use Rattle.std.specs.Prelude.{◌≡◌};
ghost use Rattle.model_params.specs.declared.params.Params.{Params};

/// Parameters are given by their numbers.
pub fn one_params()
    ensures { (p q : Params) → p.coulomb ≡ q.coulomb → p.eps ≡ q.eps → p.lam ≡ q.lam
        → p.depth ≡ q.depth → p.gap ≡ q.gap → p.base ≡ q.base → p ≡ q }
{}
