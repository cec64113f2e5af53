ghost use Rattle.std.specs.Prelude.{◌≡◌, ◌<◌, length};
ghost use Rattle.charge_model.specs.declared.TheConstants.{MAX_SITES};
ghost use Rattle.prefix_rows.specs.Rows.{IsRowWritten, extremes_at, row_at};

use prefix_extremes::{Amount, Extremes};
use sidb_units::MAX_SITES;

/// The extremes of each site: the least ones, and the greatest ones.
#[derive(Clone, Copy)]
pub struct Row {
    pub least: [Amount; MAX_SITES],
    pub greatest: [Amount; MAX_SITES],
}

/// No extremes yet.
pub fn empty_row() -> Row {
    Row {
        least: [Amount::zero(); MAX_SITES],
        greatest: [Amount::zero(); MAX_SITES],
    }
}

/// The extremes of site k.
pub fn row_extremes(row: &Row, k: usize) -> Extremes
    requires { k < MAX_SITES }
    ensures { result ≡ extremes_at row.now k }
{
    Extremes {
        least: row.least[k],
        greatest: row.greatest[k],
    }
}

/// Writes the extremes of site k.
#[tactic(auto, using(crate::proofs::Written::written))]
pub fn write(row: &mut Row, k: usize, extremes: Extremes)
    requires { k < MAX_SITES }
    ensures { IsRowWritten row.old k extremes row.new }
{
    row.least[k] = extremes.least;
    row.greatest[k] = extremes.greatest;
}

/// The row at a depth.
pub fn row_in(rows: &[Row], depth: usize) -> &Row
    requires { depth < length rows.now }
    ensures { result.now ≡ row_at rows.now depth }
{
    &rows[depth]
}
