/// Why a layout is refused. Places are counted from 0, through the sites and then the fixed
/// charges.
#[derive(Clone, Copy, PartialEq, Eq, Debug)]
pub enum LayoutFault {
    /// This place, or the charge there, is the first out of range.
    OutOfRange(usize),
    /// There are more than 64 sites.
    TooMany,
    /// There are more than 8 fixed charges.
    TooManyFixes,
    /// The second place is the first whose site stands earlier too, at the first place earliest.
    Duplicate(usize, usize),
    /// The second place is the first that lies less than 2.25 Å from an earlier one, and the
    /// first is the earliest such.
    TooClose(usize, usize),
    /// Memory ran out.
    Memory,
}
