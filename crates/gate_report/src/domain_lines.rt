ghost use Rattle.std.specs.Prelude.{◌≡◌, ◌<◌, ◌≤ℤ◌, pos, All, length, map, string_bytes, IfOk, Some, slice_get};
ghost use Rattle.std.specs.List.{join_with_byte};
ghost use Rattle.text_rows.specs.Rows.{text_of};
ghost use Rattle.gate_report.specs.DomainText.{IsPrintable, cell_row, domain_text};

use crate::answers::answer_text;
use bdl_pairs::Cell;
use sidb_units::{Memory, print_dec};
use std::alloc::Global;

/// The domain text: what it is; for each cell its permittivity, its screening length in nm and
/// what the gate does there; and the end.
pub fn domain_text(alloc: Global, cells: &[Cell]) -> Result<String, Memory>
    requires { All IsPrintable cells.now }
    ensures { IfOk result (λ text. string_bytes text ≡ domain_text cells.now) }
{
    let mut text = "sidb-domain 1\n".to_string(alloc)?;
    let lines = cell_lines(alloc, cells)?;
    text.push_str(&lines)?;
    text.push_str("end\n")?;
    Ok(text)
}

/// The lines of cells.
fn cell_lines(alloc: Global, cells: &[Cell]) -> Result<String, Memory>
    requires { All IsPrintable cells.now }
    ensures { IfOk result (λ text. string_bytes text ≡ text_of (map cell_row cells.now)) }
{
    let mut text = String::new(alloc);
    for k in 0..cells.len() {
        let line = cell_line(alloc, &cell_in(cells, k))?;
        text.push_str(&line)?;
        text.push_str("\n")?;
    }
    Ok(text)
}

/// Cell k.
pub(crate) fn cell_in(cells: &[Cell], k: usize) -> Cell
    requires within { k < length cells.now }
    requires printable { All IsPrintable cells.now }
    ensures value { slice_get cells.now k ≡ Some result }
    ensures printable { IsPrintable result }
{
    cells[k]
}

/// The line of a cell, without a line feed.
fn cell_line(alloc: Global, cell: &Cell) -> Result<String, Memory>
    requires { IsPrintable cell.now }
    ensures { IfOk result (λ line. string_bytes line ≡ join_with_byte 32 (cell_row cell.now)) }
{
    let eps = print_dec(alloc, cell.eps, 4)?;
    let lam = print_dec(alloc, cell.lam, 4)?;
    let answer = answer_text(alloc, cell.answer)?;
    Ok(format!(in alloc; "cell {eps} {lam} {answer}")?)
}
