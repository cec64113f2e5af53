//! Texts in the manner of SiQAD: elements, some of which are dots.
ghost use Rattle.std.specs.Prelude.{◌≡◌, ◌≢◌, ◌⊎◌, ◌<◌, ℕ, List, [], length, IfOk, IfErr};
ghost use Rattle.sidb_layout.specs.Lattice.{silicon};
ghost use Rattle.sidb_layout.specs.Refusal.{IsMadeOf, IsLayoutRefusal};
ghost use Rattle.sqd_scan.specs.declared.fault.SqdFault.TheVariants.{Memory as OutOfMemory};
ghost use Rattle.sqd_layout.specs.DotsFaults.{sites_in, BeginsAt, IsDotsFault, IsSqdText, IsSqdFault};

use crate::{Found, SqdFault};
use sidb_layout::{Layout, LayoutFault, Site, layout_of};
use sqd_dots::{Dot, read_drawing};
use std::alloc::{AllocError, Global};

/// The sites of dots.
fn sites_of(alloc: Global, dots: &[Dot]) -> Result<Vec<Site>, AllocError>
    ensures { IfOk result (λ sites. sites.items ≡ sites_in dots.now) }
{
    dots.iter().map(|dot| dot.site).collect(alloc)
}

/// Where the dot of this number begins.
fn place_of(dots: &[Dot], i: usize) -> u64
    requires { i < length (sites_in dots.now) }
    ensures { BeginsAt dots.now i result }
{
    dots[i].at as u64
}

/// The fault of dots whose sites make no layout.
fn dots_fault(dots: &[Dot], refusal: LayoutFault) -> SqdFault
    requires refused { refusal ≢ LayoutFault.Memory
        → IsLayoutRefusal silicon (sites_in dots.now) [] refusal }
    requires apart { (i j : ℕ) → refusal ≢ LayoutFault.TooClose i j }
    ensures { (result ≡ OutOfMemory) ⊎ IsDotsFault dots.now result }
{
    match refusal {
        LayoutFault::OutOfRange(i) => SqdFault::OutOfRange(place_of(dots, i)),
        LayoutFault::TooMany => SqdFault::TooMany,
        LayoutFault::Duplicate(i, j) => SqdFault::Duplicate(place_of(dots, i), place_of(dots, j)),
        LayoutFault::Memory => SqdFault::Memory,
        LayoutFault::TooManyFixes => unreachable!(),
        LayoutFault::TooClose(_, _) => unreachable!(),
    }
}

/// The layout of dots on the default lattice.
fn layout_of_dots(alloc: Global, dots: &[Dot]) -> Result<Layout, SqdFault>
    ensures made { IfOk result (IsMadeOf silicon (sites_in dots.now) []) }
    ensures fault { IfErr result (λ fault. (fault ≡ OutOfMemory) ⊎ IsDotsFault dots.now fault) }
{
    let sites = sites_of(alloc, dots)?;
    layout_of(alloc, &sites).map_err(|refusal| dots_fault(dots, refusal))
}

/// The layout that a text draws, on the default lattice, and how many items of it are skipped.
/// Bytes are counted from 0, those of a byte order mark too.
///
/// **Errors**: the first fault of the text's marks (`BadMark`, `NotClosed`, `WrongClose`,
/// `Doctype`, `Cdata`), or else the first in the order `NotSiqad`, `BadSite`, `OutOfRange`,
/// `TooMany`, `Duplicate`; or `Memory`.
pub fn read_sqd(alloc: Global, text: &[u8]) -> Result<Found, SqdFault>
    ensures found { IfOk result (λ found. IsSqdText text.now found.layout found.skipped) }
    ensures fault { IfErr result (λ fault. (fault ≡ OutOfMemory) ⊎ IsSqdFault text.now fault) }
{
    let drawing = read_drawing(alloc, text)?;
    let layout = layout_of_dots(alloc, &drawing.dots)?;
    Ok(Found {
        layout,
        skipped: drawing.skipped,
    })
}
