ghost use Rattle.std.specs.Prelude.{◌≡◌, ◌≢◌, ◌≤◌, ◌≤ℤ◌, ◌↔◌, IsTrue, unsigned_abs};
ghost use Rattle.std.specs.Cmp.{partial_order_from_own_ties};
ghost use Rattle.std.specs.Cmp.Rules.{comparing};
ghost use Rattle.std.specs.Ordering.{as_partial_cmp, int_cmp, on, then_cmp};
ghost use Rattle.std.proofs.Common.{rules};
ghost use Rattle.charge_model.specs.Problem.{IsFixedCharge};
ghost use Rattle.sidb_layout.specs.Site.{IsInRange, IsFixInRange, row_cmp};

use crate::MAX_PLACE;
use sidb_units::MAX_FIXED_CHARGE;
use std::cmp::Ordering;

/// A place of a lattice: column `n` along a row, row `m`, and atom `l` of the dimer there, 0 or 1.
/// Places compare in row order: by row, then by atom, then by column.
#[derive(Clone, Copy, PartialEq, Eq, Debug)]
pub struct Site {
    pub n: i64,
    pub m: i64,
    pub l: i64,
}

/// A fixed point charge: its place, and its charge in units of the elementary charge.
#[derive(Clone, Copy, PartialEq, Eq, Debug)]
pub struct Fix {
    pub site: Site,
    pub charge: i64,
}

impl Site {
    /// Whether the numbers of the place are in range.
    pub fn is_in_range(self) -> bool
        ensures { IsTrue result ↔ IsInRange self }
    {
        let is_atom = self.l == 0 || self.l == 1;
        is_atom && self.n.unsigned_abs() <= MAX_PLACE && self.m.unsigned_abs() <= MAX_PLACE
    }
}

impl Fix {
    /// Whether the place and the charge are in range.
    pub fn is_in_range(self) -> bool
        ensures { IsTrue result ↔ IsFixInRange self }
    {
        self.site.is_in_range() && is_fixed_charge(self.charge)
    }
}

/// Whether a fixed charge may be so large.
fn is_fixed_charge(charge: i64) -> bool
    ensures { IsTrue result ↔ IsFixedCharge charge }
{
    -MAX_FIXED_CHARGE <= charge && charge <= MAX_FIXED_CHARGE && charge != 0
}

impl Ord for Site {
    ghost cmp = { row_cmp };

    ghost total = { Prim.search (comparing, rules) };

    ghost matches_partial_cmp = { Prim.search (comparing, rules) };

    ghost matches_eq = { Prim.search (comparing, rules) };

    fn cmp(&self, other: &Site) -> Ordering {
        let by_column = self.n.cmp(&other.n);
        let by_atom = self.l.cmp(&other.l);
        self.m.cmp(&other.m).then(by_atom.then(by_column))
    }
}

impl PartialOrd for Site {
    ghost partial_cmp = { as_partial_cmp row_cmp };

    ghost laws = { partial_order_from_own_ties (Prim.search (comparing, rules))
        (Prim.search (comparing, rules)) };

    fn partial_cmp(&self, other: &Site) -> Option<Ordering> {
        Some(self.cmp(other))
    }
}
