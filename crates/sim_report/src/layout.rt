// The lines of a layout.
ghost use Rattle.std.specs.Prelude.{◌≡◌, map, string_bytes, IfOk, Some};
ghost use Rattle.std.specs.List.{enumerate_from, join_with_byte};
ghost use Rattle.text_rows.specs.Rows.{text_of};
ghost use Rattle.sim_report.specs.GroundText.{fix_row, lattice_row, lattice_rows, layout_rows, site_row};

use crate::rows::push_row;
use ground_report::is_silicon;
use sidb_layout::{Fix, Lattice, Layout, Site};
use sidb_units::Memory;
use std::alloc::Global;

/// The lines of a layout: its lattice, its sites and its fixed charges.
pub fn layout_lines(alloc: Global, layout: &Layout) -> Result<String, Memory>
    ensures { IfOk result (λ text. string_bytes text ≡ text_of (layout_rows (Some layout.now))) }
{
    let mut text = lattice_lines(alloc, layout.lattice())?;
    let sites = site_lines(alloc, layout)?;
    let fixes = fix_lines(alloc, layout)?;
    text.push_str(&sites)?;
    text.push_str(&fixes)?;
    Ok(text)
}

/// The line of a lattice, where it is another one than that of silicon.
fn lattice_lines(alloc: Global, lattice: Lattice) -> Result<String, Memory>
    ensures { IfOk result (λ text. string_bytes text ≡ text_of (lattice_rows lattice)) }
{
    let mut text = String::new(alloc);
    if !is_silicon(lattice) {
        let line = lattice_line(alloc, lattice)?;
        push_row(&mut text, &line)?;
    }
    Ok(text)
}

/// The line of a lattice, without a line feed.
fn lattice_line(alloc: Global, lattice: Lattice) -> Result<String, Memory>
    ensures { IfOk result (λ line. string_bytes line ≡ join_with_byte 32 (lattice_row lattice)) }
{
    let (ax, ay) = (lattice.ax, lattice.ay);
    let (bx, by) = (lattice.bx, lattice.by);
    let (cx, cy) = (lattice.cx, lattice.cy);
    Ok(format!(in alloc; "lattice {ax} {ay} {bx} {by} {cx} {cy}")?)
}

/// The lines of the sites.
fn site_lines(alloc: Global, layout: &Layout) -> Result<String, Memory>
    ensures { IfOk result (λ text. string_bytes text
        ≡ text_of (map site_row (enumerate_from 0 layout.now.sites))) }
{
    let mut text = String::new(alloc);
    for i in 0..layout.len() {
        let line = site_line(alloc, i, layout.site(i))?;
        push_row(&mut text, &line)?;
    }
    Ok(text)
}

/// The line of a site, without a line feed.
fn site_line(alloc: Global, i: usize, site: Site) -> Result<String, Memory>
    ensures { IfOk result (λ line. string_bytes line ≡ join_with_byte 32 (site_row (i, site))) }
{
    let (n, m, l) = (site.n, site.m, site.l);
    Ok(format!(in alloc; "site {i} {n} {m} {l}")?)
}

/// The lines of the fixed charges.
fn fix_lines(alloc: Global, layout: &Layout) -> Result<String, Memory>
    ensures { IfOk result (λ text. string_bytes text
        ≡ text_of (map fix_row (enumerate_from 0 layout.now.fixes))) }
{
    let mut text = String::new(alloc);
    for a in 0..layout.fixes() {
        let line = fix_line(alloc, a, layout.fix(a))?;
        push_row(&mut text, &line)?;
    }
    Ok(text)
}

/// The line of a fixed charge, without a line feed.
fn fix_line(alloc: Global, a: usize, fix: Fix) -> Result<String, Memory>
    ensures { IfOk result (λ line. string_bytes line ≡ join_with_byte 32 (fix_row (a, fix))) }
{
    let (n, m, l) = (fix.site.n, fix.site.m, fix.site.l);
    let charge = fix.charge;
    Ok(format!(in alloc; "fix {a} {n} {m} {l} {charge}")?)
}
