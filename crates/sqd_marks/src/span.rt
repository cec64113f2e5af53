ghost use Rattle.std.specs.Prelude.{◌≡◌, ◌≤◌, ◌<◌, ◌+◌, ◌++◌, ◌∷◌, ℕ, List, take, drop, length};
ghost use Rattle.sqd_marks.specs.Bytes.{Each, Stops, IsSpan, is_of};

use crate::bytes::{is_blank, is_in_name};

/// A kind of bytes: blanks, those of names, those of values between such quotes.
#[derive(Clone, Copy)]
pub enum ByteKind {
    Blank,
    InName,
    InValue(u8),
}

impl ByteKind {
    fn has(self, b: u8) -> bool
        ensures { result ≡ is_of self b }
    {
        match self {
            ByteKind::Blank => is_blank(b),
            ByteKind::InName => is_in_name(b),
            ByteKind::InValue(quote) => b != quote && b != b'<',
        }
    }
}

/// Bytes, and what is behind them.
#[derive(Clone, Copy)]
pub struct SplitBytes<'a> {
    pub front: &'a [u8],
    pub behind: &'a [u8],
}

// How many bytes of a kind stand in front.
fn span_len(bytes: &[u8], kind: ByteKind) -> usize
    ensures within { result ≤ length bytes.now }
    ensures each { Each (is_of kind) (take result bytes.now) }
    ensures stops { Stops (is_of kind) (drop result bytes.now) }
{
    for (i, b) in bytes.iter().enumerate() {
        if !kind.has(*b) {
            return i;
        }
    }
    bytes.len()
}

/// The bytes of a kind in front, all of them, and what is behind them.
pub fn cut_span(bytes: &[u8], kind: ByteKind) -> SplitBytes
    ensures cut { IsSpan (is_of kind) bytes.now result.front.now result.behind.now }
{
    let len = span_len(bytes, kind);
    SplitBytes {
        front: &bytes[..len],
        behind: &bytes[len..],
    }
}
