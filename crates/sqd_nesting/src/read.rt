ghost use Rattle.std.specs.Prelude.{◌≡◌, ◌≤◌, ◌<◌, ◌+◌, ◌^◌, take, drop, length, IfOk, IfErr};
ghost use Rattle.sqd_nesting.specs.Views.{nest_of, IsMarkAhead, IsItemOrEnd, IsPassed, IsFaultOrMemory};

use crate::SqdFault;
use crate::ahead::{Ahead, next_mark};
use crate::nest::{Nesting, turn, unclosed};
use sqd_marks::Kind;

/// A mark of a text: the place of its `<`, its form and its bytes.
#[derive(Clone, Copy)]
pub struct PlacedMark<'a> {
    /// Counted in bytes from 0.
    pub at: usize,
    pub kind: Kind,
    /// From `<` to `>`.
    pub bytes: &'a [u8],
}

/// What is left of a text, from a place on, and what is open there.
#[derive(Drop)]
pub struct MarksReader<'a> {
    pub at: usize,
    pub left: &'a [u8],
    pub nesting: Nesting<'a>,
}

/// A mark, and what is left behind it.
#[derive(Drop)]
pub struct Passed<'a> {
    pub found: PlacedMark<'a>,
    pub behind: MarksReader<'a>,
}

// A mark, and the bytes behind it.
#[derive(Clone, Copy)]
struct Cut<'a> {
    bytes: &'a [u8],
    behind: &'a [u8],
}

fn cut_at(left: &[u8], gap: usize, len: usize) -> Cut
    requires { gap + len ≤ length left.now }
    ensures bytes { result.bytes.now ≡ take len (drop gap left.now) }
    ensures behind { result.behind.now ≡ drop len (drop gap left.now) }
{
    let rest = &left[gap..];
    Cut {
        bytes: &rest[..len],
        behind: &rest[len..],
    }
}

// Passes the mark that is ahead.
fn pass<'a>(reader: MarksReader<'a>, ahead: Ahead) -> Result<Passed<'a>, SqdFault>
    requires room { reader.at + length reader.left.now < 2 ^ 64 }
    requires next { IsMarkAhead (nest_of reader.nesting) reader.left.now ahead }
    ensures ok { IfOk result (IsPassed reader.entry.at (nest_of reader.entry.nesting)
        reader.entry.left.now) }
    ensures err { IfErr result (IsFaultOrMemory reader.entry.at (nest_of reader.entry.nesting)
        reader.entry.left.now) }
{
    let cut = cut_at(reader.left, ahead.gap, ahead.whole.len);
    let here = reader.at + ahead.gap;
    let nesting = turn(reader.nesting, here, ahead.whole.kind, cut.bytes)?;
    Ok(Passed {
        found: PlacedMark {
            at: here,
            kind: ahead.whole.kind,
            bytes: cut.bytes,
        },
        behind: MarksReader {
            at: here + ahead.whole.len,
            left: cut.behind,
            nesting,
        },
    })
}

/// The next mark, or that the text is whole, or its fault.
pub fn next_item<'a>(reader: MarksReader<'a>) -> Result<Option<Passed<'a>>, SqdFault>
    requires { reader.at + length reader.left.now < 2 ^ 64 }
    ensures ok { IfOk result (IsItemOrEnd reader.entry.at (nest_of reader.entry.nesting)
        reader.entry.left.now) }
    ensures err { IfErr result (IsFaultOrMemory reader.entry.at (nest_of reader.entry.nesting)
        reader.entry.left.now) }
{
    match next_mark(reader.left, reader.at, &reader.nesting)? {
        None => match unclosed(reader.nesting) {
            None => Ok(None),
            Some(open) => Err(SqdFault::NotClosed(open)),
        },
        Some(ahead) => Ok(Some(pass(reader, ahead)?)),
    }
}
