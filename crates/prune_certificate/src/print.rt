// The text of a certificate through the line `tokens`.
ghost use Rattle.std.specs.Prelude.{◌≡◌, ◌++◌, ◌∷◌, [], pos, length, map, not, ◌==◌, string_bytes, IfOk, OnOk};
ghost use Rattle.certificate_lines.specs.declared.line.CertLine.TheVariants.{Entries};
ghost use Rattle.charge_model.specs.Problem.{fixed_count};
ghost use Rattle.text_rows.specs.Rows.{text_of};
ghost use Rattle.ground_entries.specs.Seen.{seen};
ghost use Rattle.certificate_lines.specs.Lines.{certificate_line_words, entry_line as line_of_entry};
ghost use Rattle.certificate_reading.specs.Texts.{head_words};
ghost use Rattle.prune_certificate.specs.Printed.{entry_part, head_text};

use entry_lines::entry_line;
use ground_entries::{Entry, GroundList};
use potential_problem::Problem;
use potential_table::print_table;
use sidb_units::Memory;
use std::alloc::Global;
use text_rows::push_bytes;

// The first line: version 1 exactly where the problem has no fixed charge.
fn first_line(problem: &Problem) -> &'static [u8]
    ensures { result.now ≡ text_of (head_words (not (fixed_count problem.now == 0)) ∷ []) }
{
    if problem.fixes() == 0 {
        b"sidb-certificate 1\n"
    } else {
        b"sidb-certificate 2\n"
    }
}

// The line that names the number of entries.
fn count_line(alloc: Global, list: &GroundList) -> Result<String, Memory>
    ensures { IfOk result (λ line. string_bytes line
        ≡ text_of (certificate_line_words (Entries (pos (length list.now))) ∷ [])) }
{
    let count = list.len();
    Ok(format!(in alloc; "entries {count}\n")?)
}

// Adds the line of an entry.
fn push_entry(alloc: Global, text: &mut Vec<u8>, entry: &Entry) -> Result<(), Memory>
    ensures { OnOk result (text.new.items
        ≡ text.old.items ++ text_of (certificate_line_words (line_of_entry (seen entry.now))
        ∷ [])) }
{
    let line = entry_line(alloc, entry)?;
    push_bytes(text, line.as_bytes())?;
    push_bytes(text, b"\n")
}

// Adds the lines of the entries.
fn push_entries(alloc: Global, text: &mut Vec<u8>, list: &GroundList) -> Result<(), Memory>
    ensures { OnOk result (text.new.items
        ≡ text.old.items ++ text_of (map certificate_line_words (map line_of_entry list.now))) }
{
    for j in 0..list.len() {
        push_entry(alloc, text, list.entry(j))?;
    }
    Ok(())
}

/// The text of a certificate through the line `tokens`.
pub fn print_head(alloc: Global, problem: &Problem, list: &GroundList) -> Result<Vec<u8>, Memory>
    ensures { IfOk result (λ text. text.items ≡ head_text problem.now list.now) }
{
    let mut text = Vec::from_slice(alloc, first_line(problem))?;
    let table = print_table(alloc, problem)?;
    push_bytes(&mut text, table.as_slice())?;
    let count = count_line(alloc, list)?;
    push_bytes(&mut text, count.as_bytes())?;
    push_entries(alloc, &mut text, list)?;
    push_bytes(&mut text, b"tokens\n")?;
    Ok(text)
}
