ghost use Rattle.std.specs.Prelude.{◌≡◌, ◌⊎◌, ◌++◌, ℕ, List, map, IfOk, IfErr, IfNone, IfSome, IsTrue, ◌↔◌};
ghost use Rattle.sqd_marks.specs.Marks.{TextMark, IsWellFormedMark, kind_of_mark, mark_bytes};
ghost use Rattle.sqd_nesting.specs.Texts.{Turns, IsOutsideRoot, HasBegun, HasEnded};
ghost use Rattle.sqd_nesting.specs.Faults.{IsFaultAt, IsStray, EndsOther, HasInnermost};
ghost use Rattle.sqd_nesting.specs.Views.{nest_of};
ghost use Rattle.sqd_scan.specs.declared.fault.SqdFault.TheVariants.{Memory, WrongClose};

use crate::SqdFault;
use sqd_marks::{Kind, end_name, tag_name};
use std::alloc::Global;

/// An element that isn't closed: the place of its `<`, and its name.
#[derive(Clone, Copy)]
pub struct Open<'a> {
    pub at: usize,
    pub name: &'a [u8],
}

/// The elements that aren't closed, the innermost last, and whether the root has begun.
#[derive(Drop)]
pub struct Nesting<'a> {
    pub opened: Vec<Open<'a>>,
    pub rooted: bool,
}

impl<'a> Nesting<'a> {
    /// Whether nothing is open.
    pub fn is_outside(&self) -> bool
        ensures { IsTrue result ↔ IsOutsideRoot (nest_of self.now) }
    {
        self.opened.is_empty()
    }
}

// What is open after a start mark.
fn begin<'a>(nesting: Nesting<'a>, at: usize, name: &'a [u8]) -> Result<Nesting<'a>, SqdFault>
    ensures ok { IfOk result (λ new. HasBegun at name.now (nest_of nesting.entry) (nest_of new)) }
    ensures err { IfErr result (λ fault. fault ≡ Memory) }
{
    let mut opened = nesting.opened;
    opened.push(Open { at, name })?;
    Ok(Nesting {
        opened,
        rooted: true,
    })
}

// What is open after an end mark.
fn end<'a>(nesting: Nesting<'a>, at: usize, name: &[u8]) -> Result<Nesting<'a>, SqdFault>
    ensures ok { IfOk result (λ new. HasEnded name.now (nest_of nesting.entry) (nest_of new)) }
    ensures err { IfErr result (λ fault. (fault ≡ WrongClose at)
        × EndsOther name.now (nest_of nesting.entry)) }
{
    let mut opened = nesting.opened;
    let rooted = nesting.rooted;
    match opened.pop() {
        None => Err(SqdFault::WrongClose(at)),
        Some(open) => {
            if open.name == name {
                Ok(Nesting { opened, rooted })
            } else {
                Err(SqdFault::WrongClose(at))
            }
        }
    }
}

/// What is open after a mark that isn't stray, or its fault.
pub fn turn<'a>(
    nesting: Nesting<'a>,
    at: usize,
    kind: Kind,
    mark: &'a [u8],
) -> Result<Nesting<'a>, SqdFault>
    ensures ok { IfOk result (λ new. (m : TextMark) (more : List ℕ)
        → IsWellFormedMark m → kind_of_mark m ≡ kind → mark_bytes m ≡ mark.now
        → (IsStray (nest_of nesting.entry) (mark.now ++ more) → ⊥)
        → Turns at m (nest_of nesting.entry) (nest_of new)) }
    ensures err { IfErr result (λ fault. (fault ≡ Memory) ⊎ ((m : TextMark) (more : List ℕ)
        → IsWellFormedMark m → kind_of_mark m ≡ kind → mark_bytes m ≡ mark.now
        → (IsStray (nest_of nesting.entry) (mark.now ++ more) → ⊥)
        → IsFaultAt at (nest_of nesting.entry) (mark.now ++ more) fault)) }
{
    match kind {
        Kind::Start => begin(nesting, at, tag_name(mark)),
        Kind::Empty => {
            let opened = nesting.opened;
            Ok(Nesting {
                opened,
                rooted: true,
            })
        }
        Kind::End => end(nesting, at, end_name(mark)),
        Kind::Comment => Ok(nesting),
        Kind::Declaration => Ok(nesting),
        Kind::Doctype => Err(SqdFault::Doctype(at)),
        Kind::Cdata => Err(SqdFault::Cdata(at)),
    }
}

/// Where the innermost element that isn't closed begins.
pub fn unclosed(nesting: Nesting) -> Option<usize>
    ensures none { IfNone result (IsOutsideRoot (nest_of nesting.entry)) }
    ensures some { IfSome result (λ at. HasInnermost at (nest_of nesting.entry)) }
{
    let mut opened = nesting.opened;
    match opened.pop() {
        None => None,
        Some(open) => Some(open.at),
    }
}
