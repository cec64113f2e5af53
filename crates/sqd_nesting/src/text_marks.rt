ghost use Rattle.std.specs.Prelude.{◌≡◌, ◌⊎◌, ◌<◌, ◌+◌, ◌^◌, length, IfOk, IfErr};
ghost use Rattle.sqd_scan.specs.declared.fault.SqdFault.TheVariants.{Memory as OutOfMemory};
ghost use Rattle.sqd_nesting.specs.Faults.{IsFirstFault};
ghost use Rattle.sqd_nesting.specs.Views.{IsRead};

use crate::SqdFault;
use crate::between::bom_len;
use crate::nest::Nesting;
use crate::read::{MarksReader, PlacedMark, next_item};
use std::alloc::Global;

/// The marks of the text in their order, where they nest, or its first fault, or `Memory`. Each byte is read a
/// few times, however deep elements lie in each other.
pub fn read_marks(alloc: Global, text: &[u8]) -> Result<Vec<PlacedMark>, SqdFault>
    ensures whole { IfOk result (λ found. IsRead text.now found.items) }
    ensures refused { IfErr result (λ fault. (fault ≡ OutOfMemory) ⊎ IsFirstFault text.now fault) }
{
    let at = bom_len(text);
    let nesting = Nesting {
        opened: Vec::new(alloc),
        rooted: false,
    };
    let mut reader = MarksReader {
        at,
        left: &text[at..],
        nesting,
    };
    let mut found = Vec::new(alloc);
    'marks: while let Some(passed) = next_item(reader)? {
        found.push(passed.found)?;
        reader = passed.behind;
    }
    Ok(found)
}
