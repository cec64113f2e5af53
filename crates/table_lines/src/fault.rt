ghost use Rattle.std.specs.Prelude.{◌≡◌};
ghost use Rattle.table_lines.specs.declared.fault.TableFault.TheVariants.{Memory as OutOfMemory};

use sidb_units::Memory;
use std::alloc::AllocFailed;

/// What is wrong with a line: its words, or its numbers.
#[derive(Clone, Copy, Debug, PartialEq, Eq)]
pub enum LineWhy {
    Form,
    Range,
}

/// The first fault of a table text. Lines are counted from 1, and classes, sites and fixed charges
/// from 0.
#[derive(Clone, Copy, Debug, PartialEq, Eq)]
pub enum TableFault {
    /// A line that no table text has there, or with a number out of its range.
    Line(u64, LineWhy),
    /// More sites than a problem may have.
    TooMany,
    /// More fixed charges than a problem may have.
    TooManyFixed,
    /// A class whose least potential is above its greatest.
    BadSpan(usize),
    /// A pair of sites with a second line.
    TwicePair(usize, usize),
    /// A site and a fixed charge with a second line.
    TwiceNear(usize, usize),
    /// The least pair of sites without a line.
    MissingPair(usize, usize),
    /// The least site and fixed charge without a line.
    MissingNear(usize, usize),
    /// Want of memory.
    Memory,
}

impl From<Memory> for TableFault {
    ghost from_gives = { λ _ e. e ≡ OutOfMemory };

    fn from(_: Memory) -> Self {
        TableFault::Memory
    }
}

impl<T: Drop> From<AllocFailed<T>> for TableFault {
    ghost from_gives = { λ _ e. e ≡ OutOfMemory };

    fn from(_: AllocFailed<T>) -> Self {
        TableFault::Memory
    }
}
