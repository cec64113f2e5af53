ghost use Rattle.std.specs.Prelude.{◌≡◌, ◌↔◌, ◌<◌, IsTrue, IfOk};
ghost use Rattle.charge_model.specs.Rules.{IsChargeList};
ghost use Rattle.population_rule.specs.Verdict.{OneNeverHolds};

use charge_state::Charges;
use charge_validity::has_table;
use leaf_rules::{BoundVerdict, tests_verdict};
use population_rule::{PopulationVerdict, population};
use potential_problem::Problem;
use prefix_bound::Track;
use sidb_units::Memory;
use std::alloc::Global;

/// Whether the verdict on a site is that one of its tests holds under no table.
fn is_never(verdict: PopulationVerdict) -> bool
    ensures { IsTrue result ↔ (verdict ≡ PopulationVerdict.Never) }
{
    match verdict {
        PopulationVerdict::Never => true,
        PopulationVerdict::Always => false,
        PopulationVerdict::Depends(_, _) => false,
    }
}

/// Whether a test of a site holds under no table, by sums over the classes.
fn summed_never(
    alloc: Global,
    problem: &Problem,
    charges: &Charges,
    i: usize,
) -> Result<bool, Memory>
    requires list { IsChargeList problem.now charges.now }
    requires site { i < problem.now.sites }
    ensures { IfOk result (λ b. IsTrue b ↔ OneNeverHolds problem.now charges.now i) }
{
    let verdict = population(alloc, problem, charges, i)?;
    Ok(is_never(verdict))
}

/// Whether a test of site i of a full prefix holds under no table.
pub fn never_passes(
    alloc: Global,
    problem: &Problem,
    track: &Track,
    i: usize,
) -> Result<bool, Memory>
    requires problem { track.now.problem ≡ problem.now }
    requires full { IsChargeList problem.now track.now.prefix }
    requires site { i < problem.now.sites }
    ensures { IfOk result (λ b. IsTrue b ↔ OneNeverHolds problem.now track.now.prefix i) }
{
    has_table(problem);
    match tests_verdict(problem, track, i) {
        BoundVerdict::Never => Ok(true),
        BoundVerdict::Always => Ok(false),
        BoundVerdict::Doubt => summed_never(alloc, problem, track.charges(), i),
    }
}
