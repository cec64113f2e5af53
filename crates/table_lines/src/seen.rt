// The lines so far, with what they give kept beside them.
ghost use Rattle.std.specs.Prelude.{◌≡◌, ◌+◌, ◌*◌, ◌<◌, ◌≤◌, ℕ, pos, ◌≤ℤ◌, ◌<ℤ◌, [], length, unsigned_abs, replicate, IfOk};
ghost use Rattle.table_lines.specs.Kinds.{pair_class as class_of_pair, near_class as class_of_near, is_table_ended as ended};

use crate::TableLine;
use charge_model::{MAX_FIXED, MAX_SITES};
use potential_problem::Span;
use sidb_units::Memory;
use std::alloc::Global;

/// The lines so far, the numbers that they give, and the class of each pair that has a line.
#[derive(Drop)]
pub struct Seen {
    pub lines: Vec<TableLine>,
    pub second: bool,
    pub sites: i64,
    pub fixed: i64,
    pub base: i64,
    pub mu_minus: i64,
    pub mu_plus: i64,
    pub charges: Vec<i64>,
    pub spans: Vec<Span>,
    pub pairs: Vec<Option<i64>>,
    pub near: Vec<Option<i64>>,
}

// The place of a cell in a table of rows of this width.
pub fn cell(first: i64, second: i64, width: usize) -> usize
    requires narrow { width ≤ MAX_SITES }
    requires first_low { pos 0 ≤ℤ first }
    requires first_high { first <ℤ pos MAX_SITES }
    requires second_low { pos 0 ≤ℤ second }
    requires second_high { second <ℤ pos width }
    ensures value { result ≡ unsigned_abs first * width + unsigned_abs second }
    ensures within { result < MAX_SITES * width }
{
    first.unsigned_abs() as usize * width + second.unsigned_abs() as usize
}

// A table of this many cells with nothing in them.
fn blank(alloc: Global, cells: usize) -> Result<Vec<Option<i64>>, Memory>
    ensures { IfOk result (λ table. table.items ≡ replicate cells None) }
{
    Ok(vec![in alloc; None; cells]?)
}

impl Seen {
    ghost use Rattle.table_lines.specs.Seen.{IsCounted};

    /// No line yet.
    pub fn new(alloc: Global) -> Result<Seen, Memory>
        ensures counted { IfOk result IsCounted }
        ensures empty { IfOk result (λ seen. seen.lines.items ≡ []) }
    {
        Ok(Seen {
            lines: Vec::new(alloc),
            second: false,
            sites: 0,
            fixed: 0,
            base: 2,
            mu_minus: 0,
            mu_plus: 0,
            charges: Vec::new(alloc),
            spans: Vec::new(alloc),
            pairs: blank(alloc, MAX_SITES * MAX_SITES)?,
            near: blank(alloc, MAX_SITES * MAX_FIXED)?,
        })
    }

    /// Whether the line `end` came.
    pub fn is_ended(&self) -> bool
        ensures { result ≡ ended self.now.lines.items }
    {
        matches!(self.lines.last(), Some(TableLine::End))
    }

    /// The class of a pair of sites that has a line.
    pub fn pair_class(&self, i: i64, j: i64) -> Option<i64>
        requires counted { IsCounted self.now }
        requires i_low { pos 0 ≤ℤ i }
        requires i_high { i <ℤ pos MAX_SITES }
        requires j_low { pos 0 ≤ℤ j }
        requires j_high { j <ℤ pos MAX_SITES }
        ensures { result ≡ class_of_pair self.now.lines.items i j }
    {
        self.pairs[cell(i, j, MAX_SITES)]
    }

    /// The class of a site with a fixed charge that have a line.
    pub fn near_class(&self, i: i64, a: i64) -> Option<i64>
        requires counted { IsCounted self.now }
        requires i_low { pos 0 ≤ℤ i }
        requires i_high { i <ℤ pos MAX_SITES }
        requires a_low { pos 0 ≤ℤ a }
        requires a_high { a <ℤ pos MAX_FIXED }
        ensures { result ≡ class_of_near self.now.lines.items i a }
    {
        self.near[cell(i, a, MAX_FIXED)]
    }
}
