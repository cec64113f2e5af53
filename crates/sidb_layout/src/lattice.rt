ghost use Rattle.std.specs.Prelude.{◌+◌, ◌≤◌, unsigned_abs};
ghost use Rattle.sidb_layout.specs.declared.TheConstants.{MAX_STEPS, MAX_OFFSET};

/// The vectors of a lattice, in hundredths of an ångström: `a` is the step from column to column,
/// `b` that from row to row, and `c` the offset of a second atom.
#[derive(Clone, Copy, PartialEq, Eq, Debug)]
pub struct Lattice {
    pub ax: i64,
    pub ay: i64,
    pub bx: i64,
    pub by: i64,
    pub cx: i64,
    pub cy: i64,
    ghost x_steps: { unsigned_abs ax + unsigned_abs bx ≤ MAX_STEPS },
    ghost y_steps: { unsigned_abs ay + unsigned_abs by ≤ MAX_STEPS },
    ghost x_offset: { unsigned_abs cx ≤ MAX_OFFSET },
    ghost y_offset: { unsigned_abs cy ≤ MAX_OFFSET },
}
