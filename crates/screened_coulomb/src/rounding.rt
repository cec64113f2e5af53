// The steps of the rounding rule, from the root of a squared distance to the span.
ghost use Rattle.std.specs.Prelude.{◌≡◌, ℕ, pos, ◌*◌, ◌^◌, unsigned_abs, ◌<◌, ◌≤◌, ◌≤ℤ◌, ◌↔◌, IsTrue};
ghost use Rattle.root_exp.specs.Root.{IsRoot};
ghost use Rattle.root_exp.specs.Series.{AreSized};
ghost use Rattle.screened_coulomb.specs.Potential.{HoldsDistance};
ghost use Rattle.screened_coulomb.specs.Rounding.{argument_down_of, argument_up_of, far_from, far_ends, rounded_hi, rounded_lo, near_ends, quotient_down_of, quotient_up_of, rounded_ends};

use crate::{Params, Span};
use charge_model::MAX_POTENTIAL;
use fixed_enclosure::{mul_div_down, mul_div_up, span_between};
use root_exp::{Sums, UNIT, exp_sums};

/// The least root of a squared distance, 225·2^40.
const MIN_ROOT: u128 = 0xe100_0000_0000;

/// From this argument on a pair is far.
const FAR: u128 = 24 * UNIT;

/// The units of an argument at one unit of the root, and those of a quotient and of its end.
const STEP: u128 = 0x10_0000;

const POINT: u128 = 0x8000_0000_0000_0000;

const END: u128 = 0x80_0000;

/// One volt, in 10^-12 V.
const VOLT: u128 = 1_000_000_000_000;

/// No end is above this, in 10^-12 V.
const MAX_END: u128 = 6_666_666_666_667;

/// The argument of the exponential, in units of 2^-60, rounded down.
fn argument_down(p: &Params, root: u128) -> u128
    requires small { root < 2 ^ 64 }
    ensures value { result ≡ argument_down_of p.now root }
{
    10 * root * STEP / whole(p.lam)
}

/// The argument of the exponential, in units of 2^-60, rounded up.
fn argument_up(p: &Params, root: u128) -> u128
    requires small { root < 2 ^ 64 }
    ensures value { result ≡ argument_up_of p.now root }
{
    10 * (root + 1) * STEP / whole(p.lam) + 1
}

/// The potential without its screening, in units of 2^-23, rounded down.
fn quotient_down(p: &Params, root: u128) -> u128
    requires small { root < 2 ^ 64 }
    ensures value { result ≡ quotient_down_of p.now root }
{
    mul_div_down(whole(p.coulomb) * VOLT, POINT, whole(p.eps) * (root + 1))
}

/// The potential without its screening, in units of 2^-23, rounded up.
fn quotient_up(p: &Params, root: u128) -> u128
    requires least { MIN_ROOT ≤ root }
    requires small { root < 2 ^ 64 }
    ensures value { result ≡ quotient_up_of p.now root }
{
    mul_div_up(whole(p.coulomb) * VOLT, POINT, whole(p.eps) * root)
}

/// A parameter without its sign.
fn whole(parameter: i64) -> u128
    ensures { result ≡ unsigned_abs parameter }
{
    u128::from(parameter.unsigned_abs())
}

/// A quotient divided by the upper sum, rounded down.
fn lower_end(quotient: u128, sums: Sums) -> u128
    requires quotient { quotient ≤ MAX_END * 2 ^ 23 }
    requires sums { AreSized sums.f sums.down sums.up }
    ensures value { result ≡ rounded_lo quotient sums.f sums.up }
    ensures within { result ≤ MAX_END }
{
    mul_div_down(quotient, 2u128.pow(sums.f), sums.up * END)
}

/// A quotient divided by the lower sum, rounded up.
fn upper_end(quotient: u128, sums: Sums) -> u128
    requires quotient { quotient ≤ MAX_END * 2 ^ 23 }
    requires sums { AreSized sums.f sums.down sums.up }
    ensures value { result ≡ rounded_hi quotient sums.f sums.down }
    ensures within { result ≤ MAX_END }
{
    mul_div_up(quotient, 2u128.pow(sums.f), sums.down * END)
}

/// Whether the exponential of the argument is summed.
fn is_near(p: &Params, root: u128) -> bool
    requires small { root < 2 ^ 64 }
    ensures { IsTrue result ↔ (argument_down_of p.now root < far_from) }
{
    argument_down(p, root) < FAR
}

/// The span of a near pair.
fn near_span(p: &Params, root: u128) -> Span
    requires least { MIN_ROOT ≤ root }
    requires small { root < 2 ^ 64 }
    requires near { argument_down_of p.now root < far_from }
    ensures lo { result.lo ≡ pos (near_ends p.now root).lo }
    ensures hi { result.hi ≡ pos (near_ends p.now root).hi }
    ensures holds { (d : ℕ) → IsRoot (d * 4 ^ 40) root
        → HoldsDistance p.now d result.lo result.hi }
    ensures within { result.hi ≤ℤ MAX_POTENTIAL }
{
    let sums = exp_sums(argument_down(p, root), argument_up(p, root));
    let lo = lower_end(quotient_down(p, root), sums);
    let hi = upper_end(quotient_up(p, root), sums);
    span_between(lo as i64, hi as i64)
}

/// The span of a far pair.
fn far_span(p: &Params, root: u128) -> Span
    requires least { MIN_ROOT ≤ root }
    requires small { root < 2 ^ 64 }
    requires far { far_from ≤ argument_down_of p.now root }
    ensures lo { result.lo ≡ pos (far_ends p.now root).lo }
    ensures hi { result.hi ≡ pos (far_ends p.now root).hi }
    ensures holds { (d : ℕ) → IsRoot (d * 4 ^ 40) root
        → HoldsDistance p.now d result.lo result.hi }
    ensures within { result.hi ≤ℤ MAX_POTENTIAL }
{
    let sums = exp_sums(FAR, FAR);
    let hi = upper_end(quotient_up(p, root), sums);
    span_between(0, hi as i64)
}

/// The span at a root of 40 bits.
pub fn rounded_span(p: &Params, root: u128) -> Span
    requires least { MIN_ROOT ≤ root }
    requires small { root < 2 ^ 64 }
    ensures lo { result.lo ≡ pos (rounded_ends p.now root).lo }
    ensures hi { result.hi ≡ pos (rounded_ends p.now root).hi }
    ensures holds { (d : ℕ) → IsRoot (d * 4 ^ 40) root
        → HoldsDistance p.now d result.lo result.hi }
    ensures within { result.hi ≤ℤ MAX_POTENTIAL }
{
    if is_near(p, root) {
        near_span(p, root)
    } else {
        far_span(p, root)
    }
}
