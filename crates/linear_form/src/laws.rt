ghost use Rattle.std.specs.Prelude.{◌≡◌, ◌<◌, ◌-ℤ◌, ◌≤ℤ◌, ◌<ℤ◌, ℕ, ℤ, pos, List, length};
ghost use Rattle.charge_model.specs.declared.charge.Charge.{Charge};
ghost use Rattle.charge_model.specs.Charges.{charge_at, rank_of};
ghost use Rattle.charge_model.specs.Problem.{Problem, Table, class_of, IsLeast, IsGreatest, UnderEveryTable, UnderSomeTable};
ghost use Rattle.charge_model.specs.Rules.{potential_at, hop_slack};

/// A hop raises the energy by the potential of the site that gains less that of the site that
/// loses, less the potential of their pair.
#[tactic(auto, using(crate::proofs::Hops::hop_law))]
pub fn hops_cost_potentials()
    ensures { (p : Problem) (t : Table) (cs : List Charge) (i j : ℕ) → length cs ≡ p.sites
        → i < p.sites → j < p.sites → rank_of (charge_at cs i) < rank_of (charge_at cs j)
        → hop_slack p cs i j t
        ≡ potential_at p t cs i -ℤ potential_at p t cs j -ℤ t.potential (class_of p i j) }
{}

/// By its least value at scale 1 a quantity is at least 0 under every table, or below 0 under one.
#[tactic(auto, using(crate::proofs::Signs::by_least))]
pub fn least_values_decide()
    ensures { (p : Problem) (quantity : Table → ℤ) (least : ℤ) → IsLeast p quantity least
        → (pos 0 ≤ℤ least → UnderEveryTable p (λ t. pos 0 ≤ℤ quantity t))
        × (least <ℤ pos 0 → UnderSomeTable p (λ t. quantity t <ℤ pos 0)) }
{}

/// By its greatest value at scale 1 a quantity is at least 0 under some table, or below 0
/// under each.
#[tactic(auto, using(crate::proofs::Signs::by_greatest))]
pub fn greatest_values_decide()
    ensures { (p : Problem) (quantity : Table → ℤ) (greatest : ℤ) → IsGreatest p quantity greatest
        → (pos 0 ≤ℤ greatest → UnderSomeTable p (λ t. pos 0 ≤ℤ quantity t))
        × (greatest <ℤ pos 0 → UnderEveryTable p (λ t. quantity t <ℤ pos 0)) }
{}

/// Two quantities that are the same under every table have the same least value.
#[tactic(auto, using(crate::proofs::Signs::same_least))]
pub fn same_least_values()
    ensures { (p : Problem) (q r : Table → ℤ) (least : ℤ) → ((t : Table) → q t ≡ r t)
        → IsLeast p q least → IsLeast p r least }
{}

/// Two quantities that are the same under every table have the same greatest value.
#[tactic(auto, using(crate::proofs::Signs::same_greatest))]
pub fn same_greatest_values()
    ensures { (p : Problem) (q r : Table → ℤ) (greatest : ℤ) → ((t : Table) → q t ≡ r t)
        → IsGreatest p q greatest → IsGreatest p r greatest }
{}
