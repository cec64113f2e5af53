// The layout of a sites text.
ghost use Rattle.std.specs.Prelude.{◌≡◌, ◌⊎◌, length, MatchOption, IfOk, IfErr};
ghost use Rattle.sidb_layout.specs.declared.fault.LayoutFault.{LayoutFault as LayoutRefusal};
ghost use Rattle.sidb_layout.specs.Refusal.{IsMadeOf, IsLayoutRefusal};
ghost use Rattle.sqd_scan.specs.declared.fault.SqdFault.TheVariants.{Memory as OutOfMemory};
ghost use Rattle.sites_layout.specs.SitesLines.{site_on_line, fix_in, sites_in_lines, fixes_of};
ghost use Rattle.sites_layout.specs.SitesFaults.{AreLinesInRange, IsLatticeOf, IsClear, IsLinesFault, IsLayoutOf, IsSitesText, IsSitesFault};

use crate::clashes::{LineClash, first_clash};
use crate::laws::clear_lines_make_a_layout;
use crate::line::SitesLine;
use crate::lines::read_lines;
use crate::ranges::{first_out, lattice_in};
use crate::{Found, SqdFault};
use layout_laws::laws::a_layout_is_not_refused;
use sidb_layout::{Fix, Lattice, Layout, LayoutFault, Site, layout_on};
use sidb_units::{MAX_FIXED, MAX_SITES};
use std::alloc::{AllocError, Global};

/// The site of the line.
fn site_of(line: &SitesLine) -> Option<Site>
    ensures { result ≡ site_on_line line.now }
{
    match line {
        SitesLine::Place(site) => Some(*site),
        _ => None,
    }
}

/// The fixed charge of the line.
fn fix_of(line: &SitesLine) -> Option<Fix>
    ensures { result ≡ fix_in line.now }
{
    match line {
        SitesLine::Charge(fix) => Some(*fix),
        _ => None,
    }
}

/// The sites of the lines.
fn sites_in(alloc: Global, lines: &[SitesLine]) -> Result<Vec<Site>, AllocError>
    ensures { IfOk result (λ sites. sites.items ≡ sites_in_lines lines.now) }
{
    lines.iter().filter_map(|line| site_of(line)).collect(alloc)
}

/// The fixed charges of the lines.
fn fixes_in(alloc: Global, lines: &[SitesLine]) -> Result<Vec<Fix>, AllocError>
    ensures { IfOk result (λ fixes. fixes.items ≡ fixes_of lines.now) }
{
    lines.iter().filter_map(|line| fix_of(line)).collect(alloc)
}

/// The first fault of lines whose numbers are in range.
fn fault_of(lattice: Lattice, lines: &[SitesLine], sites: usize, fixes: usize) -> Option<SqdFault>
    requires in_range { AreLinesInRange lines.now }
    requires lattice { IsLatticeOf lines.now lattice }
    requires sites { sites ≡ length (sites_in_lines lines.now) }
    requires fixes { fixes ≡ length (fixes_of lines.now) }
    ensures { MatchOption result (IsClear lattice lines.now) (IsLinesFault lines.now) }
{
    if sites > MAX_SITES {
        return Some(SqdFault::TooMany);
    }
    if fixes > MAX_FIXED {
        return Some(SqdFault::TooManyFixes);
    }
    if let Some((i, j)) = first_clash(LineClash::Same, lines) {
        return Some(SqdFault::Duplicate(i as u64 + 1, j as u64 + 1));
    }
    match first_clash(LineClash::Close(lattice), lines) {
        None => None,
        Some((i, j)) => Some(SqdFault::TooClose(i as u64 + 1, j as u64 + 1)),
    }
}

/// The layout of sites and fixed charges that are not refused.
fn unrefused_layout(
    alloc: Global,
    lattice: Lattice,
    sites: &[Site],
    fixes: &[Fix],
) -> Result<Layout, SqdFault>
    requires { (refusal : LayoutRefusal) → ¬ IsLayoutRefusal lattice sites.now fixes.now refusal }
    ensures layout { IfOk result (IsMadeOf lattice sites.now fixes.now) }
    ensures only_memory { IfErr result (λ fault. fault ≡ OutOfMemory) }
{
    match layout_on(alloc, lattice, sites, fixes) {
        Ok(layout) => Ok(layout),
        Err(LayoutFault::Memory) => Err(SqdFault::Memory),
        Err(LayoutFault::OutOfRange(_)) => unreachable!(),
        Err(LayoutFault::TooMany) => unreachable!(),
        Err(LayoutFault::TooManyFixes) => unreachable!(),
        Err(LayoutFault::Duplicate(_, _)) => unreachable!(),
        Err(LayoutFault::TooClose(_, _)) => unreachable!(),
    }
}

/// The layout of these lines.
fn layout_of_lines(alloc: Global, lines: &[SitesLine]) -> Result<Layout, SqdFault>
    ensures layout { IfOk result (IsLayoutOf lines.now) }
    ensures fault { IfErr result (λ fault. (fault ≡ OutOfMemory) ⊎ IsLinesFault lines.now fault) }
{
    if let Some(i) = first_out(lines) {
        return Err(SqdFault::OutOfRange(i as u64 + 1));
    }
    let lattice = lattice_in(lines);
    let sites = sites_in(alloc, lines)?;
    let fixes = fixes_in(alloc, lines)?;
    if let Some(fault) = fault_of(lattice, lines, sites.len(), fixes.len()) {
        return Err(fault);
    }
    clear_lines_make_a_layout();
    a_layout_is_not_refused();
    unrefused_layout(alloc, lattice, &sites, &fixes)
}

/// The layout of a sites text. Nothing is skipped.
///
/// **Errors**: the first fault of the text in the order `BadLine`, `OutOfRange`, `TooMany`,
/// `TooManyFixes`, `Duplicate`, `TooClose`, or `Memory`.
pub fn read_sites(alloc: Global, text: &[u8]) -> Result<Found, SqdFault>
    ensures found { IfOk result (λ found. IsSitesText text.now found.layout) }
    ensures skipped { IfOk result (λ found. found.skipped ≡ 0) }
    ensures fault { IfErr result (λ fault. (fault ≡ OutOfMemory) ⊎ IsSitesFault text.now fault) }
{
    let lines = read_lines(alloc, text)?;
    let layout = layout_of_lines(alloc, &lines)?;
    Ok(Found { layout, skipped: 0 })
}
