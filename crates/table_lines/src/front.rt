// The lines of a table text, from the front of a text to the line `end`.
ghost use Rattle.std.specs.Prelude.{◌≡◌, ◌⊎◌, ◌+◌, ◌≤◌, ◌++◌, [], false, length, map, take, drop, IfOk, IfErr};
ghost use Rattle.text_rows.specs.Rows.{rows, words};
ghost use Rattle.table_lines.specs.declared.fault.TableFault.TheVariants.{Memory as OutOfMemory};
ghost use Rattle.table_lines.specs.Lines.{table_line_words};
ghost use Rattle.table_lines.specs.Kinds.{is_table_ended};
ghost use Rattle.table_lines.specs.FineLines.{AreFineTableLines, AreTableLinesIn, IsFineTableLine, IsRowFault, IsWrongTableRow};
ghost use Rattle.table_lines.specs.Seen.{IsCounted};

use crate::line_reader::line_of;
use crate::note::push_line;
use crate::order::may_follow;
use crate::range::fault_in;
use crate::seen::Seen;
use crate::{LineWhy, TableFault, TableLine};
use std::alloc::Global;
use text_rows::{cut, words_in};

/// The greatest number of a text's first line.
pub const MAX_FIRST_LINE: u64 = 1_000_000;

/// The lines of a table text, and how many bytes they take.
#[derive(Drop)]
pub struct Front {
    pub seen: Seen,
    pub bytes: usize,
}

// The line with this number, after the lines so far.
fn checked_line(
    alloc: Global,
    seen: &Seen,
    number: u64,
    line: &[u8],
) -> Result<TableLine, TableFault>
    requires counted { IsCounted seen.now }
    requires fine { AreFineTableLines [] seen.now.lines.items }
    ensures words { IfOk result (λ found. words line.now ≡ table_line_words found) }
    ensures fine { IfOk result (λ found. IsFineTableLine seen.now.lines.items found) }
    ensures fault { IfErr result (λ fault. (fault ≡ OutOfMemory)
        ⊎ IsWrongTableRow number seen.now.lines.items (words line.now) fault) }
{
    let row = words_in(alloc, line)?;
    let Some(found) = line_of(alloc, &row)? else {
        return Err(TableFault::Line(number, LineWhy::Form));
    };
    if !may_follow(seen, &found) {
        return Err(TableFault::Line(number, LineWhy::Form));
    }
    match fault_in(seen, number, &found) {
        Some(fault) => Err(fault),
        None => Ok(found),
    }
}

/// The lines at the front of the text, through `end`, which are numbered from `first_line` on.
pub fn read_front(alloc: Global, text: &[u8], first_line: u64) -> Result<Front, TableFault>
    requires { first_line ≤ MAX_FIRST_LINE }
    ensures lines { IfOk result
        (λ front. AreTableLinesIn (take front.bytes text.now) front.seen.lines.items) }
    ensures rest { IfOk result (λ front. rows text.now
        ≡ map table_line_words front.seen.lines.items ++ rows (drop front.bytes text.now)) }
    ensures within { IfOk result (λ front. front.bytes ≤ length text.now) }
    ensures counted { IfOk result (λ front. IsCounted front.seen) }
    ensures fault { IfErr result (λ fault. (fault ≡ OutOfMemory)
        ⊎ ((wrong : IsRowFault first_line text.now fault)
        × (is_table_ended wrong.before ≡ false))) }
{
    let mut seen = Seen::new(alloc)?;
    let mut rest = text;
    'lines: while !seen.is_ended() {
        let number = first_line + seen.lines.len() as u64;
        let Some((line, behind)) = cut(rest, b'\n') else {
            return Err(TableFault::Line(number, LineWhy::Form));
        };
        let found = checked_line(alloc, &seen, number, line)?;
        push_line(&mut seen, found)?;
        rest = behind;
    }
    Ok(Front {
        seen,
        bytes: text.len() - rest.len(),
    })
}
