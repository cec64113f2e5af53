ghost use Rattle.std.specs.Prelude.{◌≡◌, string_bytes, IfOk};
ghost use Rattle.fault_lines.specs.FaultLines.{IsNamed, budget_line, input_line, list_too_long_line, words_line};

use crate::InputFault;
use crate::certificate_faults::text_line;
use crate::layout_lines::layout_line;
use crate::table_faults::table_line;
use sidb_units::Memory;
use std::alloc::Global;

/// The line where the words are refused.
pub fn words_line() -> &'static str
    ensures { result.now ≡ words_line }
{
    "fault words\n"
}

/// The line where the ground list has too many entries.
pub fn list_too_long_line() -> &'static str
    ensures { result.now ≡ list_too_long_line }
{
    "fault list-too-long\n"
}

/// The line where the search tree has more nodes than this limit.
pub fn budget_line(alloc: Global, limit: u64) -> Result<String, Memory>
    ensures { IfOk result (λ line. string_bytes line ≡ budget_line limit) }
{
    Ok(format!(in alloc; "fault budget {limit}\n")?)
}

/// The line where the input is refused. Want of memory in the fault is want of memory here.
pub fn input_line(alloc: Global, fault: InputFault) -> Result<String, Memory>
    ensures text { IfOk result (λ line. string_bytes line ≡ input_line fault) }
    ensures named { IfOk result (λ line. IsNamed fault) }
{
    match fault {
        InputFault::TooLong => Ok("fault input too-long\n".to_string(alloc)?),
        InputFault::Layout(fault) => layout_line(alloc, fault),
        InputFault::Table(fault) => table_line(alloc, fault),
        InputFault::Text(fault) => text_line(alloc, fault),
        InputFault::GateSite(place) => Ok(format!(in alloc; "fault input gate-site {place}\n")?),
    }
}
