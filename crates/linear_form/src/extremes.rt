ghost use Rattle.std.specs.Prelude.{◌≡◌, ◌<◌, ◌≤◌, ◌+◌, ◌*◌, ◌^◌, pos, ◌≤ℤ◌, ◌*ℤ◌, length, unsigned_abs};
ghost use Rattle.charge_model.specs.Problem.{IsLeast, IsGreatest, IsProblem, AreSpans, lo_in, hi_in};
ghost use Rattle.linear_form.specs.Forms.{weight_of, value_of, max_constant};
ghost use Rattle.linear_form.specs.Parts.{pick, picked_below};

use crate::form::Form;
use charge_model::{MAX_POTENTIAL, MAX_WEIGHT, Span, span_between};
use potential_problem::Problem;

/// A coefficient times the one of two ends that it picks.
fn picked(coefficient: i64, x: i64, y: i64) -> i64
    requires weight { unsigned_abs coefficient ≤ 2 * MAX_WEIGHT }
    requires x { unsigned_abs x ≤ unsigned_abs MAX_POTENTIAL }
    requires y { unsigned_abs y ≤ unsigned_abs MAX_POTENTIAL }
    ensures value { result ≡ coefficient *ℤ pick coefficient x y }
    ensures within { unsigned_abs result ≤ unsigned_abs coefficient * unsigned_abs MAX_POTENTIAL }
{
    if coefficient >= 0 {
        coefficient * x
    } else {
        coefficient * y
    }
}

/// The sum of the least products, class by class.
fn least_sum(spans: &[Span], coefficients: &[i64]) -> i64
    requires same { length coefficients.now ≡ length spans.now }
    requires spans { AreSpans spans.now }
    requires weight { weight_of coefficients.now ≤ 2 * MAX_WEIGHT }
    ensures value { result
        ≡ picked_below (length spans.now) coefficients.now (lo_in spans.now) (hi_in spans.now) }
    ensures within { unsigned_abs result
        ≤ weight_of coefficients.now * unsigned_abs MAX_POTENTIAL }
{
    let mut total = 0;
    for c in 0..coefficients.len() {
        let span = spans[c];
        total += picked(coefficients[c], span.lo, span.hi);
    }
    total
}

/// The sum of the greatest products, class by class.
fn greatest_sum(spans: &[Span], coefficients: &[i64]) -> i64
    requires same { length coefficients.now ≡ length spans.now }
    requires spans { AreSpans spans.now }
    requires weight { weight_of coefficients.now ≤ 2 * MAX_WEIGHT }
    ensures value { result
        ≡ picked_below (length spans.now) coefficients.now (hi_in spans.now) (lo_in spans.now) }
    ensures within { unsigned_abs result
        ≤ weight_of coefficients.now * unsigned_abs MAX_POTENTIAL }
{
    let mut total = 0;
    for c in 0..coefficients.len() {
        let span = spans[c];
        total += picked(coefficients[c], span.hi, span.lo);
    }
    total
}

/// The least value of a form over all tables at scale 1, in 10^-12 V.
pub fn least(problem: &Problem, form: &Form) -> i64
    requires classes { length form.now.coefficients ≡ length problem.now.spans }
    requires constant { unsigned_abs form.now.constant ≤ 2 * max_constant }
    requires weight { weight_of form.now.coefficients ≤ 2 * MAX_WEIGHT }
    ensures least { IsLeast problem.now (value_of form.now) result }
    ensures within { unsigned_abs result ≤ unsigned_abs form.now.constant
        + weight_of form.now.coefficients * unsigned_abs MAX_POTENTIAL }
{
    let _known = problem.sites();
    form.constant() + least_sum(problem.spans(), form.coefficients())
}

/// The greatest value of a form over all tables at scale 1, in 10^-12 V.
pub fn greatest(problem: &Problem, form: &Form) -> i64
    requires classes { length form.now.coefficients ≡ length problem.now.spans }
    requires constant { unsigned_abs form.now.constant ≤ 2 * max_constant }
    requires weight { weight_of form.now.coefficients ≤ 2 * MAX_WEIGHT }
    ensures greatest { IsGreatest problem.now (value_of form.now) result }
    ensures within { unsigned_abs result ≤ unsigned_abs form.now.constant
        + weight_of form.now.coefficients * unsigned_abs MAX_POTENTIAL }
{
    let _known = problem.sites();
    form.constant() + greatest_sum(problem.spans(), form.coefficients())
}

/// The least and the greatest value of a form over all tables at scale 1, in 10^-12 V.
pub fn form_span(problem: &Problem, form: &Form) -> Span
    requires classes { length form.now.coefficients ≡ length problem.now.spans }
    requires constant { unsigned_abs form.now.constant ≤ 2 * max_constant }
    requires weight { weight_of form.now.coefficients ≤ 2 * MAX_WEIGHT }
    ensures least { IsLeast problem.now (value_of form.now) result.lo }
    ensures greatest { IsGreatest problem.now (value_of form.now) result.hi }
    ensures least_within { unsigned_abs result.lo ≤ unsigned_abs form.now.constant
        + weight_of form.now.coefficients * unsigned_abs MAX_POTENTIAL }
    ensures greatest_within { unsigned_abs result.hi ≤ unsigned_abs form.now.constant
        + weight_of form.now.coefficients * unsigned_abs MAX_POTENTIAL }
{
    span_between(least(problem, form), greatest(problem, form))
}
