ghost use Rattle.std.specs.Prelude.{◌≡◌, ◌<◌, ◌≤◌, ◌-◌, ◌++◌, ◌⊎◌, ◌↔◌, [], length, replicate, IfSome, IsNone};
ghost use Rattle.charge_model.specs.declared.charge.Charge.TheVariants.{Neg};
ghost use Rattle.charge_model.specs.declared.TheConstants.{MAX_SITES};
ghost use Rattle.charge_model.specs.Charges.{IsOfBase, IsBefore, IsNext, IsLast, rank_of};
ghost use Rattle.charge_state.specs.Order.{successor_of};
ghost use Rattle.std.specs.declared.cmp.Ordering.TheVariants.{Less, Equal, Greater};

use crate::charges::Charges;
use charge_model::Charge;
use std::cmp::Ordering;

/// The charge one higher, where the base has one.
fn successor(charge: Charge, base: u64) -> Option<Charge>
    ensures { result ≡ successor_of base charge }
{
    match charge {
        Charge::Neg => Some(Charge::Neutral),
        Charge::Neutral => { if base == 2 { None } else { Some(Charge::Pos) } }
        Charge::Pos => None,
    }
}

/// Adds `Neg` until there are n charges.
fn fill(charges: &mut Charges, n: usize)
    requires short { length charges.old ≤ n }
    requires few { n ≤ MAX_SITES }
    ensures { charges.new ≡ charges.old ++ replicate (n - length charges.old) Neg }
{
    for _k in charges.len()..n {
        charges.push(Charge::Neg);
    }
}

/// The first list of n charges: n times `Neg`.
pub fn first_charges(n: usize) -> Charges
    requires { n ≤ MAX_SITES }
    ensures { result ≡ replicate n Neg }
{
    let mut charges = Charges::empty();
    fill(&mut charges, n);
    charges
}

/// The next list of this length and base.
pub fn next_charges(charges: &Charges, base: u64) -> Option<Charges>
    requires base { (base ≡ 2) ⊎ (base ≡ 3) }
    requires of_base { IsOfBase base charges.now }
    ensures next { IfSome result (IsNext base charges.now) }
    ensures none { IsNone result ↔ IsLast base charges.now }
{
    let mut next = charges.copy();
    while let Some(charge) = next.pop() {
        if let Some(higher) = successor(charge, base) {
            next.push(higher);
            fill(&mut next, charges.len());
            return Some(next);
        }
    }
    None
}

/// The place of a charge in the order from `Neg` to `Pos`.
fn rank(charge: Charge) -> u8
    ensures { result ≡ rank_of charge }
{
    match charge {
        Charge::Neg => 0,
        Charge::Neutral => 1,
        Charge::Pos => 2,
    }
}

/// Which of two lists of one length comes before the other.
pub fn cmp_charges(a: &Charges, b: &Charges) -> Ordering
    requires { length a.now ≡ length b.now }
    ensures less { (result ≡ Less) ↔ IsBefore a.now b.now }
    ensures equal { (result ≡ Equal) ↔ (a.now ≡ b.now) }
    ensures greater { (result ≡ Greater) ↔ IsBefore b.now a.now }
{
    for i in 0..a.len() {
        match rank(a.at(i)).cmp(&rank(b.at(i))) {
            Ordering::Equal => {}
            apart => return apart,
        }
    }
    Ordering::Equal
}
