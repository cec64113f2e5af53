// The drawing of a text.
ghost use Rattle.std.specs.Prelude.{◌≡◌, ◌⊎◌, ℕ, List, IfOk, IfErr};
ghost use Rattle.sqd_scan.specs.declared.fault.SqdFault.TheVariants.{Memory as OutOfMemory};
ghost use Rattle.sqd_elements.specs.Elements.{Element};
ghost use Rattle.sqd_dots.specs.Drawings.{HasElements, IsDrawing, IsDrawingFault};
ghost use Rattle.sqd_dots.specs.States.{IsTally};

use crate::reader::tally_of;
use crate::tally::Tally;
use crate::{Drawing, SqdFault};
use sqd_nesting::read_marks;
use std::alloc::Global;

/// What a tally of a whole text says.
fn drawing_of(tally: Tally) -> Result<Drawing, SqdFault>
    ensures drawing { (text : List ℕ) (es : List Element) → HasElements text es → IsTally tally es
        → IfOk result (λ d. IsDrawing text d.dots.items d.skipped) }
    ensures fault { (text : List ℕ) (es : List Element) → HasElements text es → IsTally tally es
        → IfErr result (IsDrawingFault text) }
{
    if !tally.siqad {
        return Err(SqdFault::NotSiqad);
    }
    if let Some(at) = tally.bad {
        return Err(SqdFault::BadSite(at));
    }
    let mut dots = tally.dots;
    dots.reverse();
    Ok(Drawing {
        dots,
        skipped: tally.skipped,
    })
}

/// The dots that a text draws, each with its site, and how many items are skipped.
///
/// **Errors**: the first fault of its marks, or else `NotSiqad`, or else `BadSite` of the first dot
/// without a site; or `Memory`.
pub fn read_drawing(alloc: Global, text: &[u8]) -> Result<Drawing, SqdFault>
    ensures drawing { IfOk result (λ d. IsDrawing text.now d.dots.items d.skipped) }
    ensures fault { IfErr result (λ fault. (fault ≡ OutOfMemory) ⊎ IsDrawingFault text.now fault) }
{
    let marks = read_marks(alloc, text)?;
    let tally = tally_of(alloc, &marks)?;
    drawing_of(tally)
}
