ghost use Rattle.std.specs.Prelude.{◌≡◌, ◌≢◌, ◌<◌, ◌≤◌, ◌≤ℤ◌, ◌+◌, ◌-◌, ◌*◌, ◌⊎◌, pos, suc, length, unsigned_abs, IfOk, []};
ghost use Rattle.charge_model.specs.Problem.{IsProblem, class_of, near_class_of, pairs_before, fixed_count, fixed_at, lo_in, hi_in};
ghost use Rattle.potential_problem.specs.Made.{problem_from};

use crate::levels::Levels;
use charge_model::{MAX_FIXED, MAX_FIXED_CHARGE, MAX_LEVEL, MAX_POTENTIAL, MAX_SITES, Span};
use sidb_units::Memory;
use std::alloc::Global;
use std::marker::Model;

/// A problem. Its pairs of sites stand in the order (0,1), (0,2) and on, and its pairs of a site
/// and a fixed charge by site.
#[derive(Drop)]
pub struct Problem {
    sites: usize,
    levels: Levels,
    fixed_charges: Vec<i64>,
    pair_classes: Vec<usize>,
    near_classes: Vec<usize>,
    spans: Vec<Span>,
}

impl Model for Problem {
    ghost use Rattle.charge_model.specs.Problem.{Problem as ProblemData, IsProblem};

    ghost Value = { ProblemData };

    ghost use Rattle.potential_problem.specs.Seen.{seen};

    ghost view = { seen };

    ghost invariant = { λ s. IsProblem (seen s) };
}

impl Problem {
    /// How many sites there are.
    pub fn sites(&self) -> usize
        ensures value { result ≡ self.now.sites }
        ensures within { result ≤ MAX_SITES }
        ensures valid { IsProblem self.now }
    {
        self.sites
    }

    /// How many charges a site may have: 2, negative and neutral, or 3, positive too.
    pub fn base(&self) -> u64
        ensures value { result ≡ self.now.base }
        ensures within { (result ≡ 2) ⊎ (result ≡ 3) }
    {
        self.levels.base
    }

    /// The level that a negative site's potential must reach, in 10^-12 V.
    pub fn mu_minus(&self) -> i64
        ensures value { result ≡ self.now.mu_minus }
        ensures within { unsigned_abs result ≤ unsigned_abs MAX_LEVEL }
    {
        self.levels.mu_minus
    }

    /// The level that a positive site's potential must not exceed, in 10^-12 V.
    pub fn mu_plus(&self) -> i64
        ensures value { result ≡ self.now.mu_plus }
        ensures within { unsigned_abs result ≤ unsigned_abs MAX_LEVEL }
    {
        self.levels.mu_plus
    }

    /// How many classes there are.
    pub fn classes(&self) -> usize
        ensures value { result ≡ length self.now.spans }
        ensures within { result ≤ length self.now.pair_classes + length self.now.near_classes }
    {
        self.spans.len()
    }

    /// The least and the greatest potential of a class, in 10^-12 V.
    pub fn span(&self, class: usize) -> Span
        requires { class < length self.now.spans }
        ensures lo { result.lo ≡ lo_in self.now.spans class }
        ensures hi { result.hi ≡ hi_in self.now.spans class }
        ensures least { pos 0 ≤ℤ result.lo }
        ensures greatest { result.hi ≤ℤ MAX_POTENTIAL }
    {
        self.spans[class]
    }

    /// The class of a pair of sites, in either order.
    pub fn class(&self, i: usize, j: usize) -> usize
        requires distinct { i ≢ j }
        requires i { i < self.now.sites }
        requires j { j < self.now.sites }
        ensures value { result ≡ class_of self.now i j }
        ensures within { result < length self.now.spans }
    {
        let place = if i < j {
            pair_place(self.sites, i, j)
        } else {
            pair_place(self.sites, j, i)
        };
        self.pair_classes[place]
    }

    /// How many fixed charges there are.
    pub fn fixes(&self) -> usize
        ensures value { result ≡ fixed_count self.now }
        ensures within { result ≤ MAX_FIXED }
    {
        self.fixed_charges.len()
    }

    /// The number of fixed charge `a`.
    pub fn fix_charge(&self, a: usize) -> i64
        requires { a < fixed_count self.now }
        ensures value { result ≡ fixed_at self.now a }
        ensures within { unsigned_abs result ≤ unsigned_abs MAX_FIXED_CHARGE }
        ensures charged { result ≢ pos 0 }
    {
        self.fixed_charges[a]
    }

    /// The class of site `i` with fixed charge `a`.
    pub fn near(&self, i: usize, a: usize) -> usize
        requires i { i < self.now.sites }
        requires a { a < fixed_count self.now }
        ensures value { result ≡ near_class_of self.now i a }
        ensures within { result < length self.now.spans }
    {
        self.near_classes[i * self.fixes() + a]
    }

    /// The span of each class, in 10^-12 V.
    pub fn spans(&self) -> &[Span]
        ensures value { result.now ≡ self.now.spans }
    {
        self.spans.as_slice()
    }

    /// The class of each pair of sites, in the order (0,1), (0,2) and on.
    pub fn pair_classes(&self) -> &[usize]
        ensures value { result.now ≡ self.now.pair_classes }
    {
        self.pair_classes.as_slice()
    }

    /// The class of each site with each fixed charge, by site.
    pub fn near_classes(&self) -> &[usize]
        ensures value { result.now ≡ self.now.near_classes }
    {
        self.near_classes.as_slice()
    }

    /// The number of each fixed charge.
    pub fn fixed_charges(&self) -> &[i64]
        ensures value { result.now ≡ self.now.fixed_charges }
    {
        self.fixed_charges.as_slice()
    }

    /// The same problem.
    pub fn copy(&self, alloc: Global) -> Result<Problem, Memory>
        ensures { IfOk result (λ p. p ≡ self.now) }
    {
        problem_with(
            alloc,
            self.sites,
            self.pair_classes.as_slice(),
            self.fixed_charges.as_slice(),
            self.near_classes.as_slice(),
            self.spans.as_slice(),
            &self.levels,
        )
    }
}

/// The place of a pair in the order (0,1), (0,2) and on.
fn pair_place(sites: usize, first: usize, second: usize) -> usize
    requires few { sites ≤ MAX_SITES }
    requires order { first < second }
    requires second { second < sites }
    ensures value { result ≡ pairs_before sites first + (second - suc first) }
    ensures within { result < pairs_before sites sites }
{
    first * sites - first * (first + 1) / 2 + (second - first - 1)
}

/// The problem of these sites without fixed charges.
///
/// `pair_classes` is in the order (0,1), (0,2) and on.
pub fn problem_of(
    alloc: Global,
    sites: usize,
    pair_classes: &[usize],
    spans: &[Span],
    levels: &Levels,
) -> Result<Problem, Memory>
    requires { IsProblem (problem_from sites pair_classes.now [] [] spans.now levels.now) }
    ensures { IfOk result
        (λ p. p ≡ problem_from sites pair_classes.now [] [] spans.now levels.now) }
{
    problem_with(alloc, sites, pair_classes, &[], &[], spans, levels)
}

/// The problem of these sites and fixed charges.
///
/// `pair_classes` is in the order (0,1), (0,2) and on, `near_classes` by site and then by
/// fixed charge.
pub fn problem_with(
    alloc: Global,
    sites: usize,
    pair_classes: &[usize],
    charges: &[i64],
    near_classes: &[usize],
    spans: &[Span],
    levels: &Levels,
) -> Result<Problem, Memory>
    requires { IsProblem
        (problem_from sites pair_classes.now charges.now near_classes.now spans.now levels.now) }
    ensures { IfOk result (λ p. p
        ≡ problem_from sites pair_classes.now charges.now near_classes.now spans.now levels.now) }
{
    Ok(Problem {
        sites,
        levels: *levels,
        fixed_charges: Vec::from_slice(alloc, charges)?,
        pair_classes: Vec::from_slice(alloc, pair_classes)?,
        near_classes: Vec::from_slice(alloc, near_classes)?,
        spans: Vec::from_slice(alloc, spans)?,
    })
}
