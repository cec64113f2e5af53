//! The laws of pruning, and how closed sites stand to open prefixes.
ghost use Rattle.std.specs.Prelude.{◌≡◌, ◌<◌, ◌≤◌, ◌↔◌, ℕ, List, length, true, false};
ghost use Rattle.charge_model.specs.declared.charge.Charge.{Charge};
ghost use Rattle.charge_model.specs.Problem.{Problem, IsProblem};
ghost use Rattle.charge_model.specs.Prefixes.{IsOpen};
ghost use Rattle.charge_model.specs.Tree.{is_open};
ghost use Rattle.prefix_extremes.specs.Closed.{keeps_open, IsFirstClosed};

pub use prefix_laws::laws::{
    bounds_lie_below, listed_lists_are_in_the_tree, nodes_are_counted, nodes_are_tested,
    one_least_certain, potentials_lie_between, prefixes_are_open, refused_charges_close,
};

/// A prefix is open exactly where each site keeps it open.
#[tactic(auto, using(crate::proofs::ClosedSites::open_is_kept))]
pub fn sites_keep_prefixes_open()
    ensures { (p : Problem) (prefix : List Charge) → length prefix ≤ p.sites
        → IsOpen p prefix ↔ ((k : ℕ) → k < p.sites → keeps_open p prefix k ≡ true) }
{}

/// A prefix that has a first closed site is not open, and has no other first closed site.
pub fn closed_sites_close()
    ensures closed { (p : Problem) (prefix : List Charge) (k : ℕ) → length prefix ≤ p.sites
        → IsFirstClosed p prefix k → IsOpen p prefix → ⊥ }
    ensures first { (p : Problem) (prefix : List Charge) (j k : ℕ)
        → IsFirstClosed p prefix j → IsFirstClosed p prefix k → j ≡ k }
{}

/// In base 3 an unassigned site keeps each prefix open: its least potential is at most its
/// greatest, and mu_plus at most mu_minus.
#[tactic(auto, using(crate::proofs::Ordered::three_keep))]
pub fn unassigned_sites_stay_open()
    ensures { (p : Problem) (prefix : List Charge) (k : ℕ) → IsProblem p → p.base ≡ 3
        → length prefix ≤ k → keeps_open p prefix k ≡ true }
{}

/// A prefix is open where each site keeps it open, and closed where one does not.
pub fn sites_decide()
    ensures opens { (p : Problem) (prefix : List Charge)
        → ((k : ℕ) → k < p.sites → keeps_open p prefix k ≡ true) → is_open p prefix ≡ true }
    ensures closes { (p : Problem) (prefix : List Charge) (k : ℕ) → k < p.sites
        → keeps_open p prefix k ≡ false → is_open p prefix ≡ false }
{}
