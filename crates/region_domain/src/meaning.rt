ghost use Rattle.region_domain.specs.Tiles.{IsTileAnswer};

use operational_domain::PlacedGate;
use region_tiles::Meaning;

/// What answers to rectangles mean for a gate on a layout: a word of the laws, which no code makes.
#[derive(Drop)]
pub struct GateMeaning {
    pub placed: PlacedGate,
}

impl Meaning for GateMeaning {
    ghost says = { λ gate r answer. IsTileAnswer gate.placed r answer };
}
