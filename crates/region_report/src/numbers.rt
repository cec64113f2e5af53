// The numbers of tiles.
ghost use Rattle.std.specs.Prelude.{◌≡◌, ◌<◌, length, string_bytes, IfOk, Some, slice_get};
ghost use Rattle.sidb_units.specs.Decimal.{decimal_text};
ghost use Rattle.screened_coulomb.specs.Potential.{eps_of, lam_of};

use model_params::Params;
use region_tiles::Tile;
use sidb_units::{Memory, print_dec};
use std::alloc::Global;

/// A permittivity with four decimals.
pub fn eps_word(alloc: Global, params: &Params) -> Result<String, Memory>
    ensures { IfOk result (λ text. string_bytes text ≡ decimal_text 4 (eps_of params.now)) }
{
    print_dec(alloc, params.eps, 4)
}

/// A screening length in nm with four decimals.
pub fn lam_word(alloc: Global, params: &Params) -> Result<String, Memory>
    ensures { IfOk result (λ text. string_bytes text ≡ decimal_text 4 (lam_of params.now)) }
{
    print_dec(alloc, params.lam, 4)
}

/// Tile k.
pub fn tile_in(tiles: &[Tile], k: usize) -> Tile
    requires { k < length tiles.now }
    ensures { slice_get tiles.now k ≡ Some result }
{
    tiles[k]
}
