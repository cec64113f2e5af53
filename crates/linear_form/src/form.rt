ghost use Rattle.std.specs.Prelude.{◌≡◌, ◌<◌, ◌≤◌, ◌+◌, ◌*◌, ◌^◌, ℕ, ℤ, pos, ◌+ℤ◌, ◌-ℤ◌, ◌*ℤ◌, length, take, unsigned_abs, IfOk};
ghost use Rattle.charge_model.specs.Problem.{Table};
ghost use Rattle.linear_form.specs.Forms.{Linear, weighed, weight_of, value_of, max_constant};

use charge_model::MAX_WEIGHT;
use potential_problem::Problem;
use sidb_units::Memory;
use std::alloc::Global;
use std::marker::Model;

/// A constant, in 10^-12 V, and one whole coefficient for each class.
#[derive(Drop)]
pub struct Form {
    constant: i64,
    coefficients: Vec<i64>,
}

impl Model for Form {
    ghost use Rattle.linear_form.specs.Forms.{Linear};

    ghost Value = { Linear };

    ghost view = { λ f. record { constant = f.constant; coefficients = f.coefficients.items } };
}

impl Form {
    /// The form of a constant and coefficients.
    pub(crate) fn new(constant: i64, coefficients: Vec<i64>) -> Form
        ensures { result ≡ record { constant = constant; coefficients = coefficients.items } }
    {
        Form {
            constant,
            coefficients,
        }
    }

    /// The constant.
    pub(crate) fn constant(&self) -> i64
        ensures { result ≡ self.now.constant }
    {
        self.constant
    }

    /// The coefficients, by class.
    pub(crate) fn coefficients(&self) -> &[i64]
        ensures { result.now ≡ self.now.coefficients }
    {
        self.coefficients.as_slice()
    }
}

/// A coefficient of 0 for each class of a problem.
pub(crate) fn no_terms(alloc: Global, problem: &Problem) -> Result<Vec<i64>, Memory>
    ensures classes { IfOk result (λ v. length v.items ≡ length problem.now.spans) }
    ensures weight { IfOk result (λ v. weight_of v.items ≡ 0) }
    ensures value { IfOk result (λ v. (u : ℕ → ℤ) → weighed v.items u ≡ pos 0) }
{
    let coefficients = vec![in alloc; 0i64; problem.classes()]?;
    Ok(coefficients)
}

/// Adds a number to the coefficient of a class.
pub(crate) fn add_term(coefficients: &mut [i64], class: usize, term: i64)
    requires class { class < length coefficients.old }
    requires small { unsigned_abs term ≤ MAX_WEIGHT }
    requires room { weight_of coefficients.old ≤ 2 * MAX_WEIGHT }
    ensures value { (u : ℕ → ℤ)
        → weighed coefficients.new u ≡ weighed coefficients.old u +ℤ term *ℤ u class }
    ensures weight { weight_of coefficients.new ≤ weight_of coefficients.old + unsigned_abs term }
{
    coefficients[class] += term;
}

/// Takes other coefficients away, class by class.
fn subtract(coefficients: &mut [i64], others: &[i64])
    requires same { length coefficients.old ≡ length others.now }
    requires room { weight_of coefficients.old ≤ MAX_WEIGHT }
    requires others { weight_of others.now ≤ MAX_WEIGHT }
    ensures value { (u : ℕ → ℤ)
        → weighed coefficients.new u ≡ weighed coefficients.old u -ℤ weighed others.now u }
    ensures weight { weight_of coefficients.new
        ≤ weight_of coefficients.old + weight_of others.now }
{
    for c in 0..others.len() {
        add_term(coefficients, c, -others[c]);
    }
}

/// The difference of two forms.
pub fn minus(alloc: Global, a: &Form, b: &Form) -> Result<Form, Memory>
    requires classes { length a.now.coefficients ≡ length b.now.coefficients }
    requires constant { unsigned_abs a.now.constant ≤ max_constant }
    requires constant_too { unsigned_abs b.now.constant ≤ max_constant }
    requires weight { weight_of a.now.coefficients ≤ MAX_WEIGHT }
    requires weight_too { weight_of b.now.coefficients ≤ MAX_WEIGHT }
    ensures value { IfOk result
        (λ f. (t : Table) → value_of f t ≡ value_of a.now t -ℤ value_of b.now t) }
    ensures classes { IfOk result
        (λ f. length f.coefficients ≡ length a.now.coefficients) }
    ensures constant { IfOk result
        (λ f. unsigned_abs f.constant ≤ unsigned_abs a.now.constant + unsigned_abs b.now.constant) }
    ensures weight { IfOk result (λ f. weight_of f.coefficients
        ≤ weight_of a.now.coefficients + weight_of b.now.coefficients) }
{
    let mut coefficients = Vec::from_slice(alloc, a.coefficients())?;
    subtract(&mut coefficients, b.coefficients());
    Ok(Form::new(a.constant() - b.constant(), coefficients))
}
