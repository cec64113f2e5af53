ghost use Rattle.std.specs.Prelude.{◌≡◌, ◌<◌, ◌≤◌, length, IfSome, is_none};
ghost use Rattle.charge_model.specs.Prefixes.{can_be};
ghost use Rattle.charge_model.specs.Tree.{is_open};
ghost use Rattle.prefix_extremes.specs.Closed.{keeps_open, IsFirstClosed};
ghost use Rattle.prefix_extremes.specs.Parts.{allows, allows_some};

use crate::extremes::{Extremes, potential_extremes};
use charge_state::{Charge, Charges};
use potential_problem::Problem;

/// Whether a site can have a charge where its potential is between these extremes.
pub fn allows(problem: &Problem, charge: Charge, extremes: Extremes) -> bool
    ensures { result
        ≡ allows problem.now charge extremes.least.value extremes.greatest.value }
{
    match charge {
        Charge::Neg => problem.mu_minus() <= extremes.greatest.value,
        Charge::Neutral => {
            problem.mu_plus() <= extremes.greatest.value
                && extremes.least.value <= problem.mu_minus()
        }
        Charge::Pos => problem.base() == 3 && extremes.least.value <= problem.mu_plus(),
    }
}

/// Whether a site can have some charge where its potential is between these extremes.
pub fn allows_some(problem: &Problem, extremes: Extremes) -> bool
    ensures { result
        ≡ allows_some problem.now extremes.least.value extremes.greatest.value }
{
    allows(problem, Charge::Neg, extremes)
        || allows(problem, Charge::Neutral, extremes)
        || allows(problem, Charge::Pos, extremes)
}

/// Whether site k can have this charge.
#[tactic(auto, using(crate::proofs::Opening::can_allows))]
pub fn can(problem: &Problem, prefix: &Charges, k: usize, charge: Charge) -> bool
    requires site { k < problem.now.sites }
    requires short { length prefix.now ≤ problem.now.sites }
    ensures { result ≡ can_be problem.now prefix.now k charge }
{
    allows(problem, charge, potential_extremes(problem, prefix, k))
}

/// Whether site k can have its charge, or any charge where it has none yet.
#[tactic(auto, using(crate::proofs::Opening::some_allows))]
fn keeps_open(problem: &Problem, prefix: &Charges, k: usize) -> bool
    requires site { k < problem.now.sites }
    requires short { length prefix.now ≤ problem.now.sites }
    ensures { result ≡ keeps_open problem.now prefix.now k }
{
    if k < prefix.len() {
        can(problem, prefix, k, prefix.at(k))
    } else {
        allows_some(problem, potential_extremes(problem, prefix, k))
    }
}

/// The first site that keeps the prefix from being open.
pub fn closed_at(problem: &Problem, prefix: &Charges) -> Option<usize>
    requires short { length prefix.now ≤ problem.now.sites }
    ensures found { IfSome result (IsFirstClosed problem.now prefix.now) }
    ensures none { is_none result ≡ is_open problem.now prefix.now }
{
    for k in 0..problem.sites() {
        let open = keeps_open(problem, prefix, k);
        if !open {
            return Some(k);
        }
    }
    None
}
