// The words of verdicts.
ghost use Rattle.std.specs.Prelude.{◌≡◌, string_bytes, IfOk};
ghost use Rattle.gate_report.specs.Answers.{answer_text, bit_word, overall, verdict_word};

use bdl_pairs::{CellAnswer, PatternVerdict, Truth};
use sidb_units::Memory;
use std::alloc::Global;

/// The word of a verdict.
pub fn verdict_word(verdict: PatternVerdict) -> &'static str
    ensures { result.now ≡ verdict_word verdict }
{
    match verdict {
        PatternVerdict::Works => "works",
        PatternVerdict::Fails => "fails",
        PatternVerdict::Undecided => "undecided",
    }
}

/// The word of a bit.
pub fn bit_word(bit: bool) -> &'static str
    ensures { result.now ≡ bit_word bit }
{
    if bit { "1" } else { "0" }
}

/// The first pattern that does not work, and why.
pub fn overall(truth: &Truth) -> CellAnswer
    ensures { result ≡ overall 0 truth.now }
{
    for k in 0..truth.len() {
        match truth.at(k).verdict {
            PatternVerdict::Works => {}
            PatternVerdict::Fails => return CellAnswer::Fails(k as u64),
            PatternVerdict::Undecided => return CellAnswer::Undecided(k as u64),
        }
    }
    CellAnswer::Works
}

/// The text of what a gate does.
pub fn answer_text(alloc: Global, answer: CellAnswer) -> Result<String, Memory>
    ensures { IfOk result (λ text. string_bytes text ≡ answer_text answer) }
{
    match answer {
        CellAnswer::Works => Ok("works".to_string(alloc)?),
        CellAnswer::Fails(k) => Ok(format!(in alloc; "fails {k}")?),
        CellAnswer::Undecided(k) => Ok(format!(in alloc; "undecided {k}")?),
        CellAnswer::Budget(k) => Ok(format!(in alloc; "budget {k}")?),
        CellAnswer::Long(k) => Ok(format!(in alloc; "long {k}")?),
    }
}
