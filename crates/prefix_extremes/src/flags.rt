ghost use Rattle.std.specs.Prelude.{◌≡◌, ◌<◌, length};
ghost use Rattle.charge_model.specs.declared.TheConstants.{MAX_SITES};
ghost use Rattle.prefix_extremes.specs.Flags.{flag_at, AreFlags};

use crate::extremes::may_be_positive;
use potential_problem::Problem;
use sidb_units::MAX_SITES;

/// Whether each site may be positive.
#[derive(Clone, Copy)]
pub struct Flags {
    pub may: [bool; MAX_SITES],
}

/// The flag of site k.
pub fn flag(flags: &Flags, k: usize) -> bool
    requires { k < MAX_SITES }
    ensures { result ≡ flag_at flags.now k }
{
    flags.may[k]
}

/// No site may be positive.
fn no_flags() -> Flags
    ensures full { length result.may ≡ MAX_SITES }
{
    Flags {
        may: [false; MAX_SITES],
    }
}

/// Whether each site of the problem may be positive.
pub fn flags_of(problem: &Problem) -> Flags
    ensures { AreFlags problem.now problem.now.sites result }
{
    let mut flags = no_flags();
    for k in 0..problem.sites() {
        flags.may[k] = may_be_positive(problem, k);
    }
    flags
}
