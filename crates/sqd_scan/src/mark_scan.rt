ghost use Rattle.std.specs.Prelude.{◌≡◌, ◌≤◌, ◌<◌, ◌+◌, ◌^◌, take, length, IfOk, IfErr, Some, None};
ghost use Rattle.sqd_scan.specs.Fronts.{IsOf, IsFaultOf};

use crate::SqdFault;
use crate::stage::{Stage, kind_done, step};
use sqd_marks::Kind;

/// A mark at the front of bytes: its form, and how many bytes it has.
#[derive(Clone, Copy, Debug, PartialEq, Eq)]
pub struct Whole {
    pub kind: Kind,
    pub len: usize,
}

/// The mark that the bytes from a place of a text on begin with. Each byte is read once.
///
/// **Errors**: `NotClosed` of the place where they end inside a mark, `BadMark` of the first byte
/// with which no mark goes on.
pub fn scan(bytes: &[u8], at: usize) -> Result<Whole, SqdFault>
    requires { at + length bytes.now < 2 ^ 64 }
    ensures within { IfOk result (λ whole. whole.len ≤ length bytes.now) }
    ensures some { IfOk result (λ whole. 0 < whole.len) }
    ensures whole { IfOk result (λ whole. IsOf whole.kind (take whole.len bytes.now)) }
    ensures fault { IfErr result (IsFaultOf at bytes.now) }
{
    let mut stage = Stage::Begin;
    for (i, b) in bytes.iter().enumerate() {
        let Some(next) = step(stage, *b) else {
            return Err(SqdFault::BadMark(at + i));
        };
        if let Some(kind) = kind_done(next) {
            return Ok(Whole { kind, len: i + 1 });
        }
        stage = next;
    }
    Err(SqdFault::NotClosed(at))
}
