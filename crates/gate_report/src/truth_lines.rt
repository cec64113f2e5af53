ghost use Rattle.std.specs.Prelude.{◌≡◌, string_bytes, IfOk};
ghost use Rattle.text_rows.specs.Rows.{text_of};
ghost use Rattle.gate_report.specs.TruthText.{pattern_rows, truth_title_rows, truth_text, verdict_rows};

use crate::answers::{answer_text, overall};
use crate::patterns::push_pattern;
use bdl_pairs::{LogicSpec, Truth};
use sidb_units::Memory;
use std::alloc::Global;

/// The truth text: what it is, the name of the function, the number of inputs and of outputs; each
/// pattern, the bit that it wants, its verdict and its entries; what the gate does, and the end.
pub fn truth_text(
    alloc: Global,
    name: &str,
    gate: &LogicSpec,
    truth: &Truth,
) -> Result<String, Memory>
    ensures { IfOk result (λ text. string_bytes text ≡ truth_text name.now gate.now truth.now) }
{
    let mut text = title(alloc, name, gate)?;
    let patterns = pattern_lines(alloc, truth)?;
    let verdict = verdict_lines(alloc, truth)?;
    text.push_str(&patterns)?;
    text.push_str(&verdict)?;
    Ok(text)
}

/// The lines before the patterns.
fn title(alloc: Global, name: &str, gate: &LogicSpec) -> Result<String, Memory>
    ensures { IfOk result (λ text. string_bytes text
        ≡ text_of (truth_title_rows name.now gate.now)) }
{
    let (inputs, outputs) = (gate.inputs(), gate.outputs());
    Ok(format!(in alloc; "sidb-truth 1\nfunction {name}\ninputs {inputs}\noutputs {outputs}\n")?)
}

/// The lines of the patterns.
fn pattern_lines(alloc: Global, truth: &Truth) -> Result<String, Memory>
    ensures { IfOk result (λ text. string_bytes text ≡ text_of (pattern_rows 0 truth.now)) }
{
    let mut text = String::new(alloc);
    for k in 0..truth.len() {
        push_pattern(&mut text, alloc, k, truth.at(k))?;
    }
    Ok(text)
}

/// The lines behind the patterns.
fn verdict_lines(alloc: Global, truth: &Truth) -> Result<String, Memory>
    ensures { IfOk result (λ text. string_bytes text ≡ text_of (verdict_rows truth.now)) }
{
    let answer = answer_text(alloc, overall(truth))?;
    Ok(format!(in alloc; "verdict {answer}\nend\n")?)
}
