ghost use Rattle.std.specs.Prelude.{◌≡◌};
ghost use Rattle.sqd_scan.specs.declared.fault.SqdFault.TheVariants.{Memory as OutOfMemory};

use sidb_units::Memory;
use std::alloc::{AllocError, AllocFailed};

/// Why a text gives no layout. Bytes are counted from 0, lines from 1.
#[derive(Clone, Copy, Debug, PartialEq, Eq)]
pub enum SqdFault {
    /// The byte at this place continues nothing that may stand there.
    BadMark(usize),
    /// What begins at this byte does not end.
    NotClosed(usize),
    /// The end mark at this byte closes another element than the innermost open one.
    WrongClose(usize),
    /// A document type begins at this byte.
    Doctype(usize),
    /// A character data section begins at this byte.
    Cdata(usize),
    /// The root element is no `siqad`, or there is none.
    NotSiqad,
    /// The dot at this byte has no place, or more than one.
    BadSite(usize),
    /// This line is the first that is no line of a sites text, or is its second `lattice` line.
    BadLine(u64),
    /// This line, or the dot at this byte, is the first with a number out of range.
    OutOfRange(u64),
    /// There are more than 64 sites.
    TooMany,
    /// There are more than 8 fixed charges.
    TooManyFixes,
    /// The second is the first line, or dot, whose place stands earlier, and the first is the
    /// earliest with this place.
    Duplicate(u64, u64),
    /// The second is the first line whose place lies less than 2.25 Å from an earlier one, and the
    /// first is the earliest such.
    TooClose(u64, u64),
    /// Memory ran out.
    Memory,
}

impl From<Memory> for SqdFault {
    ghost from_gives = { λ _ e. e ≡ OutOfMemory };

    fn from(_: Memory) -> Self {
        SqdFault::Memory
    }
}

impl From<AllocError> for SqdFault {
    ghost from_gives = { λ _ e. e ≡ OutOfMemory };

    fn from(_: AllocError) -> Self {
        SqdFault::Memory
    }
}

impl<T: Drop> From<AllocFailed<T>> for SqdFault {
    ghost from_gives = { λ _ e. e ≡ OutOfMemory };

    fn from(_: AllocFailed<T>) -> Self {
        SqdFault::Memory
    }
}
