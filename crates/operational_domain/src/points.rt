// The points of a grid.
ghost use Rattle.std.specs.Prelude.{◌≡◌, ◌<◌, ◌*◌, IfOk};
ghost use Rattle.operational_domain.specs.Points.{ArePoints, IsPoint};

use bdl_pairs::Grid;
use screened_coulomb::Params;
use sidb_units::Memory;
use std::alloc::Global;

/// The parameters of point k.
fn point(params: &Params, grid: &Grid, k: u64) -> Params
    requires { k < grid.now.eps.count * grid.now.lam.count }
    ensures { IsPoint params.now grid.now k result }
{
    let inner = grid.lam().count;
    Params {
        eps: grid.eps_at(k / inner),
        lam: grid.lam_at(k % inner),
        coulomb: params.coulomb,
        depth: params.depth,
        gap: params.gap,
        base: params.base,
    }
}

/// The parameters of each point, permittivity outer and screening length inner.
pub(crate) fn points_of(alloc: Global, params: &Params, grid: &Grid) -> Result<Vec<Params>, Memory>
    ensures { IfOk result (λ points. ArePoints params.now grid.now
        (grid.now.eps.count * grid.now.lam.count) points.items) }
{
    let mut points = Vec::new(alloc);
    for k in 0..grid.eps().count * grid.lam().count {
        points.push(point(params, grid, k))?;
    }
    Ok(points)
}
