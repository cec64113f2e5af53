// The lines where a table text is refused.
ghost use Rattle.std.specs.Prelude.{◌≡◌, ◌∷◌, [], codes, decimal, string_bytes, IfOk};
ghost use Rattle.fault_lines.specs.FaultLines.{IsNamed, fault_line, input_line, why_word};

use crate::InputFault;
use sidb_units::Memory;
use std::alloc::Global;
use table_lines::{LineWhy, TableFault};

/// The line where a table text is refused.
pub fn table_line(alloc: Global, fault: TableFault) -> Result<String, Memory>
    ensures text { IfOk result (λ line. string_bytes line ≡ input_line (InputFault.Table fault)) }
    ensures named { IfOk result (λ line. IsNamed (InputFault.Table fault)) }
{
    match fault {
        TableFault::Line(k, why) => numbered_line(alloc, k, why),
        TableFault::TooMany => Ok("fault input table too-many\n".to_string(alloc)?),
        TableFault::TooManyFixed => Ok("fault input table too-many-fixed\n".to_string(alloc)?),
        TableFault::BadSpan(class) => Ok(format!(in alloc; "fault input table span {class}\n")?),
        TableFault::TwicePair(i, j) => pair_line(alloc, "twice", i, j),
        TableFault::TwiceNear(i, a) => pair_line(alloc, "twice-near", i, a),
        TableFault::MissingPair(i, j) => pair_line(alloc, "missing", i, j),
        TableFault::MissingNear(i, a) => pair_line(alloc, "missing-near", i, a),
        TableFault::Memory => Err(Memory),
    }
}

// The line of a fault in a numbered line of the table text.
fn numbered_line(alloc: Global, k: u64, why: LineWhy) -> Result<String, Memory>
    ensures { IfOk result (λ line. string_bytes line ≡ fault_line
        (codes "input" ∷ codes "table" ∷ codes "line" ∷ decimal k ∷ why_word why ∷ [])) }
{
    let word = why_word(why);
    Ok(format!(in alloc; "fault input table line {k} {word}\n")?)
}

// The line of a fault of a pair.
fn pair_line(alloc: Global, word: &str, first: usize, second: usize) -> Result<String, Memory>
    ensures { IfOk result (λ line. string_bytes line ≡ fault_line
        (codes "input" ∷ codes "table" ∷ word.now ∷ decimal first ∷ decimal second ∷ [])) }
{
    Ok(format!(in alloc; "fault input table {word} {first} {second}\n")?)
}

/// The word of what is wrong with a line.
pub fn why_word(why: LineWhy) -> &'static str
    ensures { result.now ≡ why_word why }
{
    match why {
        LineWhy::Form => "form",
        LineWhy::Range => "range",
    }
}
