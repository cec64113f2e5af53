// The lines where a certificate text, or the certificate that it holds, is refused.
ghost use Rattle.std.specs.Prelude.{◌≡◌, ◌≢◌, ◌∷◌, [], codes, decimal, string_bytes, IfOk};
ghost use Rattle.fault_lines.specs.FaultLines.{IsNamed, fault_line, input_line, why_word};
ghost use Rattle.fault_lines.specs.CertificateLines.{certificate_fault_line, close_word, entry_word};

use crate::InputFault;
use crate::table_faults::{table_line, why_word};
use certificate_model::{CertRefusal, CloseWhy, EntryWhy};
use certificate_reading::CertText;
use sidb_units::Memory;
use std::alloc::Global;
use table_lines::LineWhy;

/// The line where a certificate text is refused.
pub fn text_line(alloc: Global, fault: CertText) -> Result<String, Memory>
    ensures text { IfOk result (λ line. string_bytes line ≡ input_line (InputFault.Text fault)) }
    ensures named { IfOk result (λ line. IsNamed (InputFault.Text fault)) }
{
    match fault {
        CertText::Table(fault) => table_line(alloc, fault),
        CertText::Line(k, why) => numbered_line(alloc, k, why),
        CertText::Memory => Err(Memory),
    }
}

// The line of a fault in a numbered line of a certificate text.
fn numbered_line(alloc: Global, k: u64, why: LineWhy) -> Result<String, Memory>
    ensures { IfOk result (λ line. string_bytes line ≡ fault_line
        (codes "input" ∷ codes "certificate" ∷ codes "line" ∷ decimal k ∷ why_word why ∷ [])) }
{
    let word = why_word(why);
    Ok(format!(in alloc; "fault input certificate line {k} {word}\n")?)
}

/// The line where a certificate is refused, by the first test that it fails. Want of memory in the
/// refusal is want of memory here.
pub fn certificate_fault_line(alloc: Global, refusal: CertRefusal) -> Result<String, Memory>
    ensures text { IfOk result (λ line. string_bytes line ≡ certificate_fault_line refusal) }
    ensures named { IfOk result (λ line. refusal ≢ CertRefusal.Memory) }
{
    match refusal {
        CertRefusal::Entry(j, why) => entry_line(alloc, j, why),
        CertRefusal::Close(k, why) => token_line(alloc, k, why),
        CertRefusal::Short => Ok("fault certificate short\n".to_string(alloc)?),
        CertRefusal::Long => Ok("fault certificate long\n".to_string(alloc)?),
        CertRefusal::Memory => Err(Memory),
    }
}

// The line of a refused entry.
fn entry_line(alloc: Global, j: usize, why: EntryWhy) -> Result<String, Memory>
    ensures { IfOk result (λ line. string_bytes line ≡ fault_line
        (codes "certificate" ∷ codes "entry" ∷ decimal j ∷ entry_word why ∷ [])) }
{
    let word = entry_word(why);
    Ok(format!(in alloc; "fault certificate entry {j} {word}\n")?)
}

// The line of a refused token.
fn token_line(alloc: Global, k: u64, why: CloseWhy) -> Result<String, Memory>
    ensures { IfOk result (λ line. string_bytes line ≡ fault_line
        (codes "certificate" ∷ codes "token" ∷ decimal k ∷ close_word why ∷ [])) }
{
    let word = close_word(why);
    Ok(format!(in alloc; "fault certificate token {k} {word}\n")?)
}

// The word of the test that an entry fails.
fn entry_word(why: EntryWhy) -> &'static str
    ensures { result.now ≡ entry_word why }
{
    match why {
        EntryWhy::Order => "order",
        EntryWhy::NotPossible => "not-possible",
        EntryWhy::Beaten => "beaten",
        EntryWhy::Mark => "mark",
    }
}

// The word of the test that a token fails.
fn close_word(why: CloseWhy) -> &'static str
    ensures { result.now ≡ close_word why }
{
    match why {
        CloseWhy::Shape => "shape",
        CloseWhy::Number => "number",
        CloseWhy::SiteCan => "site-can",
        CloseWhy::NotCertain => "not-certain",
        CloseWhy::NotAbove => "not-above",
        CloseWhy::OtherList => "other-list",
        CloseWhy::PopulationHolds => "population-holds",
        CloseWhy::HopHolds => "hop-holds",
        CloseWhy::NotBeaten => "not-beaten",
    }
}
