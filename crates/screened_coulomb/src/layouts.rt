// The problem of a layout.
ghost use Rattle.std.specs.Prelude.{◌≡◌, ◌+◌, ◌<◌, ◌≤◌, ◌-ℤ◌, neg_ℤ, map, length, IfOk};
ghost use Rattle.sidb_lattice.specs.Classes.{IsClassing};
ghost use Rattle.screened_coulomb.specs.Layouts.{AreClassSpans, HoldsDistances, IsProblemOf};

use crate::{Params, Span, span_of};
use potential_problem::{Levels, Problem, problem_with};
use sidb_lattice::{Classes, Layout, classes_of};
use sidb_units::Memory;
use std::alloc::Global;

/// The problem of a layout: its sites and fixed charges in row order, one class for each squared
/// distance of two sites or of a site and a fixed charge, by rising distance, and the span of each.
pub fn problem(alloc: Global, layout: &Layout, p: &Params) -> Result<Problem, Memory>
    ensures value { IfOk result (IsProblemOf layout.now p.now) }
    ensures holds { IfOk result (HoldsDistances layout.now p.now) }
{
    let classes = classes_of(alloc, layout)?;
    let charges = fixed_charges(alloc, layout)?;
    let spans = class_spans(alloc, &classes, p)?;
    problem_with(
        alloc,
        layout.len(),
        classes.pair_classes(),
        charges.as_slice(),
        classes.near_classes(),
        spans.as_slice(),
        &levels_of(p),
    )
}

/// The two levels and the base of the parameters.
fn levels_of(p: &Params) -> Levels
    ensures base { result.base ≡ p.now.base }
    ensures mu_minus { result.mu_minus ≡ neg_ℤ p.now.depth }
    ensures mu_plus { result.mu_plus ≡ neg_ℤ p.now.depth -ℤ p.now.gap }
{
    Levels {
        base: p.base,
        mu_minus: -p.depth,
        mu_plus: -p.depth - p.gap,
    }
}

/// The fixed charges of a layout, without their places.
fn fixed_charges(alloc: Global, layout: &Layout) -> Result<Vec<i64>, Memory>
    ensures { IfOk result (λ charges. charges.items ≡ map (λ f. f.charge) layout.now.fixes) }
{
    let mut charges = Vec::new(alloc);
    for a in 0..layout.fixes() {
        charges.push(layout.fix(a).charge)?;
    }
    Ok(charges)
}

/// The span of each class.
fn class_spans(alloc: Global, classes: &Classes, p: &Params) -> Result<Vec<Span>, Memory>
    ensures { IfOk result (λ spans. AreClassSpans p.now classes.now.distances spans.items) }
{
    let mut spans = Vec::new(alloc);
    for class in 0..classes.len() {
        spans.push(span_of(classes.distance(class), p))?;
    }
    Ok(spans)
}
