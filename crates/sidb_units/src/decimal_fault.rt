use thiserror::Error;

/// Why a text is no decimal. Bytes count from 0.
#[derive(Clone, Copy, Debug, PartialEq, Eq, Error)]
pub enum DecFault {
    /// There is no byte.
    #[error("an empty text")]
    Empty,
    /// The first byte after which nothing in the grammar goes on, or the length of a text that
    /// ends too early.
    #[error("a wrong byte at place {0}")]
    BadByte(usize),
    /// A decimal with more digits after the point than are asked for.
    #[error("too many digits after the point")]
    TooManyPlaces,
    /// A decimal outside the range.
    #[error("a number out of range")]
    OutOfRange,
}
