// The lines where the text of a layout is refused.
ghost use Rattle.std.specs.Prelude.{◌≡◌, ◌∷◌, [], codes, decimal, string_bytes, IfOk};
ghost use Rattle.fault_lines.specs.FaultLines.{IsNamed, fault_line, input_line};

use crate::InputFault;
use sidb_units::Memory;
use sqd_scan::SqdFault;
use std::alloc::Global;

/// The line where the text of a layout is refused.
pub fn layout_line(alloc: Global, fault: SqdFault) -> Result<String, Memory>
    ensures text { IfOk result (λ line. string_bytes line ≡ input_line (InputFault.Layout fault)) }
    ensures named { IfOk result (λ line. IsNamed (InputFault.Layout fault)) }
{
    match fault {
        SqdFault::BadMark(at) => byte_line(alloc, "bad-mark", at),
        SqdFault::NotClosed(at) => byte_line(alloc, "not-closed", at),
        SqdFault::WrongClose(at) => byte_line(alloc, "wrong-close", at),
        SqdFault::Doctype(at) => byte_line(alloc, "doctype", at),
        SqdFault::Cdata(at) => byte_line(alloc, "cdata", at),
        SqdFault::NotSiqad => Ok("fault input not-siqad\n".to_string(alloc)?),
        SqdFault::BadSite(at) => byte_line(alloc, "bad-site", at),
        SqdFault::BadLine(k) => place_line(alloc, "bad-line", k),
        SqdFault::OutOfRange(k) => place_line(alloc, "out-of-range", k),
        SqdFault::TooMany => Ok("fault input too-many\n".to_string(alloc)?),
        SqdFault::TooManyFixes => Ok("fault input too-many-fixes\n".to_string(alloc)?),
        SqdFault::Duplicate(a, b) => places_line(alloc, "duplicate", a, b),
        SqdFault::TooClose(a, b) => places_line(alloc, "too-close", a, b),
        SqdFault::Memory => Err(Memory),
    }
}

// The line of a fault with the byte where it stands.
fn byte_line(alloc: Global, word: &str, at: usize) -> Result<String, Memory>
    ensures { IfOk result (λ line. string_bytes line
        ≡ fault_line (codes "input" ∷ word.now ∷ decimal at ∷ [])) }
{
    Ok(format!(in alloc; "fault input {word} {at}\n")?)
}

// The line of a fault with the line, or the byte, where it stands.
fn place_line(alloc: Global, word: &str, at: u64) -> Result<String, Memory>
    ensures { IfOk result (λ line. string_bytes line
        ≡ fault_line (codes "input" ∷ word.now ∷ decimal at ∷ [])) }
{
    Ok(format!(in alloc; "fault input {word} {at}\n")?)
}

// The line of a fault with the two lines, or bytes, that it is about.
fn places_line(alloc: Global, word: &str, first: u64, second: u64) -> Result<String, Memory>
    ensures { IfOk result (λ line. string_bytes line
        ≡ fault_line (codes "input" ∷ word.now ∷ decimal first ∷ decimal second ∷ [])) }
{
    Ok(format!(in alloc; "fault input {word} {first} {second}\n")?)
}
