ghost use Rattle.std.specs.Prelude.{◌≡◌, ◌<◌, ◌≤◌, length};

use crate::histogram::EnergyHistogram;
use charge_state::{Charge, Charges};
use potential_problem::Problem;
use prefix_bound::laws::pops_undo_pushes;
use prefix_bound::{Track, low};
use sidb_units::Memory;
use std::alloc::Global;

/// How often the thresholds are told apart at most with the whole limit; mostly once suffices.
const PASSES: usize = 12;

/// How many passes are made before with lesser limits.
const GROWING_PASSES: usize = 5;

/// Counts the prefixes of the tree that begin with the prefix and one more charge.
#[cycle(counts)]
fn count_child(
    problem: &Problem,
    track: &mut Track,
    charge: Charge,
    highest: i64,
    histogram: &mut EnergyHistogram,
)
    requires problem { track.old.problem ≡ problem.now }
    requires room { length track.old.prefix < problem.now.sites }
    ensures kept { track.new ≡ track.old }
{
    pops_undo_pushes();
    if !track.takes(problem, charge) {
        return;
    }
    track.push(problem, charge);
    count_prefix(problem, track, highest, histogram);
    track.pop(problem);
}

/// Counts the prefixes of the tree that begin with the prefix, each at the highest bound of its
/// own prefixes.
#[cycle(counts)]
fn count_prefix(problem: &Problem, track: &mut Track, highest: i64, histogram: &mut EnergyHistogram)
    requires problem { track.old.problem ≡ problem.now }
    requires short { length track.old.prefix ≤ problem.now.sites }
    ensures kept { track.new ≡ track.old }
{
    if track.closed_at(problem).is_some() {
        return;
    }
    let highest = highest.max(track.low(problem));
    if !histogram.holds(highest) {
        return;
    }
    histogram.count(highest);
    if track.len() == problem.sites() {
        return;
    }
    count_child(problem, track, Charge::Neg, highest, histogram);
    count_child(problem, track, Charge::Neutral, highest, histogram);
    count_child(problem, track, Charge::Pos, highest, histogram);
}

/// A threshold with few enough nodes, and a higher one with too many, as far as is known.
#[derive(Clone, Copy)]
struct Gap {
    above: i64,
    over: i64,
}

/// What a pass tells: a threshold with a few more nodes than the limit, or none, and the part of
/// the gap in which the limit is passed.
#[derive(Clone, Copy)]
struct Told {
    passing: Option<i64>,
    gap: Gap,
}

/// One pass over the thresholds of a gap up to `end`, which counts up to a quarter more nodes than
/// the limit.
fn narrower(
    alloc: Global,
    problem: &Problem,
    limit: u64,
    gap: Gap,
    end: i64,
) -> Result<Told, Memory> {
    let size = end.saturating_sub(gap.above).unsigned_abs();
    let mut track = Track::new(alloc, problem)?;
    let room = limit.saturating_add(limit / 4);
    let mut histogram = EnergyHistogram::new(alloc, gap.above, size, room)?;
    count_prefix(problem, &mut track, gap.above, &mut histogram);
    let passing = histogram.passing(limit);
    let gap = if histogram.is_whole() {
        Gap {
            above: end,
            over: gap.over,
        }
    } else {
        Gap {
            above: histogram.end(),
            over: histogram.next_end(),
        }
    };
    Ok(Told { passing, gap })
}

/// Where the next pass begins, and how far the last one got.
#[derive(Clone, Copy)]
struct NextPass {
    gap: Gap,
    step: i64,
}

impl NextPass {
    /// The threshold up to which the next pass is made: the count of nodes grows mostly as fast from
    /// one pass to the next as from there on.
    fn end(&self) -> i64 {
        let NextPass { gap, step } = self;
        if *step <= 0 {
            return gap.over;
        }
        gap.above
            .saturating_add(step.saturating_mul(2))
            .min(gap.over)
    }

    /// The same after a pass that left this gap.
    fn after(&self, gap: Gap) -> NextPass {
        let step = gap.above.saturating_sub(self.gap.above);
        NextPass { gap, step }
    }
}

/// Told by passes whose limits grow eightfold, so that each one knows from the one before how far it
/// will get, and all of them together enter few nodes beside the last.
fn first_reach(
    alloc: Global,
    problem: &Problem,
    limit: u64,
    over: i64,
) -> Result<NextPass, Memory> {
    let above = low(problem, &Charges::empty()).saturating_sub(1);
    let step = over.saturating_sub(above);
    let mut reach = NextPass {
        gap: Gap { above, over },
        step,
    };
    let mut tried = limit / 32768;
    for _pass in 0..GROWING_PASSES {
        let told = narrower(alloc, problem, tried, reach.gap, reach.end())?;
        let gap = Gap {
            above: told.gap.above,
            over,
        };
        reach = reach.after(gap);
        tried = tried.saturating_mul(8);
    }
    Ok(reach)
}

/// A threshold, in 10^-12 V, below this one, under which the tree has a few more nodes than the
/// limit; or, where the count passes the limit in one step, the threshold before that step.
///
/// Nothing is promised of it: who asks makes a round there, and one at the next threshold.
pub fn guessed_threshold(
    alloc: Global,
    problem: &Problem,
    limit: u64,
    over: i64,
) -> Result<i64, Memory> {
    let mut reach = first_reach(alloc, problem, limit, over)?;
    for _pass in 0..PASSES {
        let gap = reach.gap;
        if gap.over.saturating_sub(gap.above) <= 1 {
            return Ok(gap.above);
        }
        let told = narrower(alloc, problem, limit, gap, reach.end())?;
        if let Some(threshold) = told.passing {
            return Ok(threshold.min(over.saturating_sub(1)));
        }
        reach = reach.after(told.gap);
    }
    Ok(reach.gap.above)
}
