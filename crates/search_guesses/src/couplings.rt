ghost use Rattle.std.specs.Prelude.{◌≡◌, ◌<◌, ◌↔◌, IfOk, IsTrue};

use crate::row::SiteNumbers;
use charge_model::Span;
use potential_problem::Problem;
use sidb_units::Memory;
use std::alloc::Global;

/// What the search for a good list reads of a problem: one potential for each pair of sites, that
/// of the fixed charges at each site, and the levels, all in 10^-12 V.
#[derive(Drop)]
pub struct Couplings {
    pub sites: usize,
    pub positive: bool,
    pub minus: i64,
    pub plus: i64,
    pub fixed: SiteNumbers,
    rows: Vec<SiteNumbers>,
}

impl Couplings {
    /// The potentials of site i with each site, zero with itself.
    pub fn row(&self, i: usize) -> &SiteNumbers {
        match self.rows.get(i) {
            Some(row) => row,
            None => &self.fixed,
        }
    }
}

/// The middle of a span.
fn middle(span: Span) -> i64 {
    span.lo.wrapping_add(span.hi.wrapping_sub(span.lo) / 2)
}

/// The potential of the fixed charges at a site.
fn fixed_potential(problem: &Problem, i: usize) -> i64
    requires { i < problem.now.sites }
{
    let mut sum: i64 = 0;
    for a in 0..problem.fixes() {
        let potential = middle(problem.span(problem.near(i, a)));
        sum = sum.wrapping_add(problem.fix_charge(a).wrapping_mul(potential));
    }
    sum
}

/// The potentials of a site with each other site.
fn site_row(problem: &Problem, i: usize) -> SiteNumbers
    requires { i < problem.now.sites }
{
    let mut row = SiteNumbers::zero();
    for j in 0..problem.sites() {
        if j != i {
            row.add(j, middle(problem.span(problem.class(i, j))));
        }
    }
    row
}

/// The couplings of a problem, in the middle of each span.
pub fn couplings_of(alloc: Global, problem: &Problem) -> Result<Couplings, Memory>
    ensures sites { IfOk result (λ c. c.sites ≡ problem.now.sites) }
    ensures base { IfOk result (λ c. IsTrue c.positive ↔ (problem.now.base ≡ 3)) }
    ensures minus { IfOk result (λ c. c.minus ≡ problem.now.mu_minus) }
    ensures plus { IfOk result (λ c. c.plus ≡ problem.now.mu_plus) }
{
    let mut fixed = SiteNumbers::zero();
    let mut rows = Vec::new(alloc);
    for i in 0..problem.sites() {
        fixed.add(i, fixed_potential(problem, i));
        rows.push(site_row(problem, i))?;
    }
    Ok(Couplings {
        sites: problem.sites(),
        positive: problem.base() == 3,
        minus: problem.mu_minus(),
        plus: problem.mu_plus(),
        fixed,
        rows,
    })
}
