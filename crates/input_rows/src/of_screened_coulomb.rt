ghost use Rattle.std.specs.Prelude.{pos, ◌^◌, ◌≤◌, ◌≤ℤ◌, ◌<ℤ◌};

use screened_coulomb::{params_of, span_of};
use sidb_lattice::LEAST_SQUARED_DISTANCE;
use std::test::Fail;

/// The squared distance of (0, 0, 0) and (n, 0, 0).
fn along_row(n: u64) -> i64
    requires one { 1 ≤ n }
    requires few { n ≤ 40 }
    ensures near { pos LEAST_SQUARED_DISTANCE ≤ℤ result }
    ensures far { result <ℤ pos (2 ^ 47) }
{
    (384 * n * (384 * n)) as i64
}

/// No span of a pair along a row is wider than 1,000 units, at the strongest potential.
#[test]
fn spans_are_narrow(rt: HostRuntime) -> Result<(), Fail> {
    for lam in [1_000, 10_000, 50_000, 10_000_000] {
        let p = params_of(15_000_000, 10_000, lam, 0, 0, 2).ok_or("range")?;
        for n in 1..41u64 {
            let span = span_of(along_row(n), &p);
            assert!(rt; span.hi <= span.lo + 1_000, "{n} at {lam}");
        }
    }
    Ok(())
}
