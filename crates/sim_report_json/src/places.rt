// Layouts as JSON.
ghost use Rattle.std.specs.Prelude.{◌≡◌, if◌then◌else◌, map, option_map, IfOk, None, Some};
ghost use Rattle.serde_json.specs.View.{view};
ghost use Rattle.ground_report.specs.Subject.{is_silicon};
ghost use Rattle.sim_report_json.specs.Parts.{fix_data, fixed_data, fixes_data, lattice_data, other_lattice_data, site_data, sites_data};

use ground_report::is_silicon;
use serde_json::{Value, json};
use sidb_layout::{Fix, Lattice, Layout, Site};
use sidb_units::Memory;
use std::alloc::Global;

/// The sites of the layout, and none where there is no layout.
pub fn sites_value(alloc: Global, layout: &Option<Layout>) -> Result<Value, Memory>
    ensures { IfOk result (λ value. view value ≡ sites_data layout.now) }
{
    match layout {
        Some(layout) => Ok(Value::Array(site_values(alloc, layout)?)),
        None => Ok(Value::Array(Vec::new(alloc))),
    }
}

/// The fixed charges of the layout, where there are any.
pub fn fixed_value(alloc: Global, layout: &Option<Layout>) -> Result<Option<Value>, Memory>
    ensures { IfOk result (λ value. option_map view value ≡ fixed_data layout.now) }
{
    match layout {
        Some(layout) => fixes_value(alloc, layout),
        None => Ok(None),
    }
}

/// The lattice of the layout, where it is another one than that of silicon.
pub fn lattice_value(alloc: Global, layout: &Option<Layout>) -> Result<Option<Value>, Memory>
    ensures { IfOk result (λ value. option_map view value ≡ other_lattice_data layout.now) }
{
    match layout {
        Some(layout) => other_value(alloc, layout.lattice()),
        None => Ok(None),
    }
}

/// The lattice, where it is another one than that of silicon.
fn other_value(alloc: Global, lattice: Lattice) -> Result<Option<Value>, Memory>
    ensures { IfOk result (λ value. option_map view value
        ≡ if is_silicon lattice then None else Some (lattice_data lattice)) }
{
    if is_silicon(lattice) {
        return Ok(None);
    }
    let value = vectors_value(alloc, lattice)?;
    Ok(Some(value))
}

/// The vectors of a lattice.
fn vectors_value(alloc: Global, lattice: Lattice) -> Result<Value, Memory>
    ensures { IfOk result (λ value. view value ≡ lattice_data lattice) }
{
    Ok(json!(in alloc; [
        lattice.ax, lattice.ay, lattice.bx, lattice.by, lattice.cx, lattice.cy
    ])?)
}

/// The places of the sites of a layout.
fn site_values(alloc: Global, layout: &Layout) -> Result<Vec<Value>, Memory>
    ensures { IfOk result (λ values. map view values.items ≡ map site_data layout.now.sites) }
{
    let mut values = Vec::with_capacity(alloc, layout.len())?;
    for i in 0..layout.len() {
        values.push(site_value(alloc, layout.site(i))?)?;
    }
    Ok(values)
}

/// The place of a site.
fn site_value(alloc: Global, site: Site) -> Result<Value, Memory>
    ensures { IfOk result (λ value. view value ≡ site_data site) }
{
    Ok(json!(in alloc; [site.n, site.m, site.l])?)
}

/// The fixed charges of a layout, where it has any.
fn fixes_value(alloc: Global, layout: &Layout) -> Result<Option<Value>, Memory>
    ensures { IfOk result (λ value. option_map view value ≡ fixes_data layout.now.fixes) }
{
    if layout.fixes() == 0 {
        return Ok(None);
    }
    let values = fix_values(alloc, layout)?;
    Ok(Some(Value::Array(values)))
}

/// Each fixed charge of a layout.
fn fix_values(alloc: Global, layout: &Layout) -> Result<Vec<Value>, Memory>
    ensures { IfOk result (λ values. map view values.items ≡ map fix_data layout.now.fixes) }
{
    let mut values = Vec::with_capacity(alloc, layout.fixes())?;
    for a in 0..layout.fixes() {
        values.push(fix_value(alloc, layout.fix(a))?)?;
    }
    Ok(values)
}

/// A fixed charge.
fn fix_value(alloc: Global, fix: Fix) -> Result<Value, Memory>
    ensures { IfOk result (λ value. view value ≡ fix_data fix) }
{
    Ok(json!(in alloc; [fix.site.n, fix.site.m, fix.site.l, fix.charge])?)
}
