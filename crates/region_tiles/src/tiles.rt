use bdl_pairs::CellAnswer;
use parameter_regions::Rectangle;

/// A rectangle of permittivities and screening lengths, and what a gate does on the whole of it.
#[derive(Clone, Copy, PartialEq, Eq, Debug)]
pub struct Tile {
    pub rectangle: Rectangle,
    pub answer: CellAnswer,
}
