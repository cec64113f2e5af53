ghost use Rattle.std.specs.Prelude.{◌≡◌, ◌↔◌, ◌<◌, IsTrue, IfOk};
ghost use Rattle.charge_model.specs.Charges.{charge_at, rank_of};
ghost use Rattle.charge_model.specs.Rules.{IsChargeList};
ghost use Rattle.hop_rule.specs.Verdict.{NeverHolds};

use charge_state::Charges;
use charge_validity::has_table;
use hop_rule::{HopVerdict, hop};
use leaf_rules::{BoundVerdict, hop_verdict};
use potential_problem::Problem;
use prefix_bound::Track;
use sidb_units::Memory;
use std::alloc::Global;

/// Whether the verdict on a hop is that it holds under no table.
fn is_never(verdict: HopVerdict) -> bool
    ensures { IsTrue result ↔ (verdict ≡ HopVerdict.Never) }
{
    match verdict {
        HopVerdict::Never => true,
        HopVerdict::Always => false,
        HopVerdict::Depends(_) => false,
    }
}

/// Whether a hop holds under no table, by sums over the classes.
fn summed_never(
    alloc: Global,
    problem: &Problem,
    charges: &Charges,
    i: usize,
    j: usize,
) -> Result<bool, Memory>
    requires list { IsChargeList problem.now charges.now }
    requires i { i < problem.now.sites }
    requires j { j < problem.now.sites }
    requires hop { rank_of (charge_at charges.now i) < rank_of (charge_at charges.now j) }
    ensures { IfOk result (λ b. IsTrue b ↔ NeverHolds problem.now charges.now i j) }
{
    let verdict = hop(alloc, problem, charges, i, j)?;
    Ok(is_never(verdict))
}

/// Whether the hop of a full prefix from site j to site i holds under no table.
pub fn never_hops(
    alloc: Global,
    problem: &Problem,
    track: &Track,
    i: usize,
    j: usize,
) -> Result<bool, Memory>
    requires problem { track.now.problem ≡ problem.now }
    requires full { IsChargeList problem.now track.now.prefix }
    requires i { i < problem.now.sites }
    requires j { j < problem.now.sites }
    requires hop { rank_of (charge_at track.now.prefix i) < rank_of (charge_at track.now.prefix j) }
    ensures { IfOk result (λ b. IsTrue b ↔ NeverHolds problem.now track.now.prefix i j) }
{
    has_table(problem);
    match hop_verdict(problem, track, i, j) {
        BoundVerdict::Never => Ok(true),
        BoundVerdict::Always => Ok(false),
        BoundVerdict::Doubt => summed_never(alloc, problem, track.charges(), i, j),
    }
}
