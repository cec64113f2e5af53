ghost use Rattle.std.specs.Prelude.{◌≡◌, ◌≤◌, ◌<◌, ◌+◌, ◌↔◌, ◌-◌, ◌^◌, take, drop, length, IfOk, IfErr, IfSome, IfNone, IsTrue, false, slice_index};
ghost use Rattle.sqd_marks.specs.Bytes;
ghost use Rattle.sqd_marks.specs.Bytes.{Each};
ghost use Rattle.sqd_nesting.specs.Texts.{IsOutsideRoot, IsQuiet};
ghost use Rattle.sqd_nesting.specs.Faults.{IsStray, IsFaultIn};
ghost use Rattle.sqd_nesting.specs.Views.{nest_of, IsAhead};

use crate::SqdFault;
use crate::between::{first_not_blank, text_len};
use crate::nest::Nesting;
use sqd_marks::begins_name;
use sqd_scan::{Whole, scan};

/// The next mark: how many bytes of text stand before it, and the mark.
#[derive(Clone, Copy)]
pub struct Ahead {
    pub gap: usize,
    pub whole: Whole,
}

// Where text outside the root isn't blank.
fn loud_at(between: &[u8], nesting: &Nesting) -> Option<usize>
    ensures none { IfNone result (IsQuiet (nest_of nesting.now) between.now) }
    ensures outside { IfSome result (λ at. IsOutsideRoot (nest_of nesting.now)) }
    ensures within { IfSome result (λ at. at < length between.now) }
    ensures before { IfSome result (λ at. Each Bytes.is_blank (take at between.now)) }
    ensures found { IfSome result (λ at. Bytes.is_blank (slice_index between.now at) ≡ false) }
{
    if nesting.is_outside() {
        first_not_blank(between)
    } else {
        None
    }
}

// An element's begin or end, where none may stand.
fn is_stray(rest: &[u8], nesting: &Nesting) -> bool
    ensures { IsTrue result ↔ IsStray (nest_of nesting.now) rest.now }
{
    let outside = nesting.is_outside();
    match rest {
        [b'<', b, ..] => outside && (*b == b'/' || nesting.rooted && begins_name(*b)),
        _ => false,
    }
}

/// The next mark in what is left from this place on.
pub fn next_mark(left: &[u8], at: usize, nesting: &Nesting) -> Result<Option<Ahead>, SqdFault>
    requires { at + length left.now < 2 ^ 64 }
    ensures ahead { IfOk result (IsAhead (nest_of nesting.now) left.now) }
    ensures fault { IfErr result (IsFaultIn at (nest_of nesting.now) left.now) }
{
    let gap = text_len(left);
    if let Some(k) = loud_at(&left[..gap], nesting) {
        return Err(SqdFault::BadMark(at + k));
    }
    let rest = &left[gap..];
    if rest.is_empty() {
        return Ok(None);
    }
    if is_stray(rest, nesting) {
        return Err(SqdFault::BadMark(at + gap));
    }
    let whole = scan(rest, at + gap)?;
    Ok(Some(Ahead { gap, whole }))
}
