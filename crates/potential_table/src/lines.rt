// The lines of a problem's table text.
ghost use Rattle.std.specs.Prelude.{◌≡◌, ◌++◌, ◌<◌, IfOk, OnOk};
ghost use Rattle.charge_model.specs.Problem.{IsProblem, fixed_count};
ghost use Rattle.potential_table.specs.TableRows.{head_lines, charge_lines, class_lines, pair_line, near_line, pairs_from, near_at, pair_lines, near_lines, problem_lines};

use potential_problem::Problem;
use sidb_units::Memory;
use std::alloc::Global;
use table_reading::TableLine;

// The version, the counts and the levels.
fn head_of(alloc: Global, problem: &Problem) -> Result<Vec<TableLine>, Memory>
    ensures { IfOk result (λ lines. lines.items ≡ head_lines problem.now) }
{
    let sites = TableLine::Sites(problem.sites() as i64);
    let base = TableLine::Base(problem.base() as i64);
    let levels = TableLine::Levels(problem.mu_minus(), problem.mu_plus());
    let count = problem.fixes();
    if count == 0 {
        let head = [TableLine::FirstVersion, sites, base, levels];
        return Ok(Vec::from_slice(alloc, &head)?);
    }
    let fixed = TableLine::Fixed(count as i64);
    let head = [TableLine::SecondVersion, sites, fixed, base, levels];
    Ok(Vec::from_slice(alloc, &head)?)
}

// Adds a line for each fixed charge.
fn push_charges(lines: &mut Vec<TableLine>, problem: &Problem) -> Result<(), Memory>
    ensures { OnOk result (lines.new.items ≡ lines.old.items ++ charge_lines problem.now) }
{
    for a in 0..problem.fixes() {
        lines.push(TableLine::Charge(problem.fix_charge(a)))?;
    }
    Ok(())
}

// Adds a line for each class.
fn push_classes(lines: &mut Vec<TableLine>, problem: &Problem) -> Result<(), Memory>
    ensures { OnOk result (lines.new.items ≡ lines.old.items ++ class_lines problem.now) }
{
    for class in 0..problem.classes() {
        let span = problem.span(class);
        lines.push(TableLine::Class(span.lo, span.hi))?;
    }
    Ok(())
}

// The line of a pair of sites.
fn pair_of(problem: &Problem, i: usize, j: usize) -> TableLine
    requires valid { IsProblem problem.now }
    requires order { i < j }
    requires second { j < problem.now.sites }
    ensures { result ≡ pair_line problem.now i j }
{
    TableLine::Pair(i as i64, j as i64, problem.class(i, j) as i64)
}

// The line of a site and a fixed charge.
fn near_of(problem: &Problem, i: usize, a: usize) -> TableLine
    requires valid { IsProblem problem.now }
    requires site { i < problem.now.sites }
    requires charge { a < fixed_count problem.now }
    ensures { result ≡ near_line problem.now i a }
{
    TableLine::Near(i as i64, a as i64, problem.near(i, a) as i64)
}

// Adds the lines of site `i` with each later site.
fn push_pairs_from(lines: &mut Vec<TableLine>, problem: &Problem, i: usize) -> Result<(), Memory>
    requires { i < problem.now.sites }
    ensures { OnOk result (lines.new.items ≡ lines.old.items ++ pairs_from problem.now i) }
{
    let sites = problem.sites();
    for j in i + 1..sites {
        lines.push(pair_of(problem, i, j))?;
    }
    Ok(())
}

// Adds the lines of all pairs of sites.
fn push_pairs(lines: &mut Vec<TableLine>, problem: &Problem) -> Result<(), Memory>
    ensures { OnOk result (lines.new.items ≡ lines.old.items ++ pair_lines problem.now) }
{
    for i in 0..problem.sites() {
        push_pairs_from(lines, problem, i)?;
    }
    Ok(())
}

// Adds the lines of site `i` with each fixed charge.
fn push_near_at(lines: &mut Vec<TableLine>, problem: &Problem, i: usize) -> Result<(), Memory>
    requires valid { IsProblem problem.now }
    requires site { i < problem.now.sites }
    ensures { OnOk result (lines.new.items ≡ lines.old.items ++ near_at problem.now i) }
{
    for a in 0..problem.fixes() {
        lines.push(near_of(problem, i, a))?;
    }
    Ok(())
}

// Adds the lines of all sites with all fixed charges.
fn push_near(lines: &mut Vec<TableLine>, problem: &Problem) -> Result<(), Memory>
    ensures { OnOk result (lines.new.items ≡ lines.old.items ++ near_lines problem.now) }
{
    for i in 0..problem.sites() {
        push_near_at(lines, problem, i)?;
    }
    Ok(())
}

/// The lines of the problem's table text, in order.
pub fn table_lines(alloc: Global, problem: &Problem) -> Result<Vec<TableLine>, Memory>
    ensures { IfOk result (λ lines. lines.items ≡ problem_lines problem.now) }
{
    let mut lines = head_of(alloc, problem)?;
    push_charges(&mut lines, problem)?;
    push_classes(&mut lines, problem)?;
    push_pairs(&mut lines, problem)?;
    push_near(&mut lines, problem)?;
    lines.push(TableLine::End)?;
    Ok(lines)
}
