// Whole inputs.
ghost use Rattle.std.specs.Prelude.{◌<◌, ◌≤◌, ℕ, List, length, IfOk, IsErrOf};
ghost use Rattle.sidb_io.specs.Outside.{HasFault, Gave, GaveAll};
ghost use Rattle.sidb_io.specs.Whole.{IsCountAfterAll};

use crate::Source;
use std::alloc::Global;

/// The most bytes of one call.
const BLOCK: usize = 4096;

/// Why a source was not read whole.
#[derive(Clone, Copy, Debug, PartialEq, Eq)]
pub enum ReadAllFault {
    /// A read failed.
    ReadFault,
    /// There were more bytes than the limit.
    TooLong,
    /// Want of memory.
    Memory,
}

/// All that is left. After a fault what was taken is gone.
pub fn read_all<S: Source>(
    alloc: Global,
    source: &mut S,
    limit: usize,
) -> Result<Vec<u8>, ReadAllFault>
    requires { limit ≤ 268435456 }
    ensures ok { IfOk result
        (λ bytes. GaveAll (S.left source.old) bytes.items (S.left source.new)) }
    ensures within { IfOk result (λ bytes. length bytes.items ≤ limit) }
    ensures read_fault { IsErrOf result ReadAllFault.ReadFault
        → HasFault (S.faults source.old) (S.faults source.new) }
    ensures too_long { IsErrOf result ReadAllFault.TooLong → ((bytes : List ℕ)
        × (limit < length bytes) × Gave (S.left source.old) bytes (S.left source.new)) }
    ensures gone { (bytes : List ℕ) × Gave (S.left source.old) bytes (S.left source.new) }
    ensures counts { IsCountAfterAll (S.faults source.old) (S.faults source.new) result }
{
    let mut bytes = Vec::new(alloc);
    while bytes.len() <= limit {
        let mut block = [0u8; BLOCK];
        let room = BLOCK.min(limit + 1 - bytes.len());
        let Ok(given) = source.read(&mut block[..room]) else {
            return Err(ReadAllFault::ReadFault);
        };
        if given == 0 {
            return Ok(bytes);
        }
        if bytes.extend_from_slice(&block[..given]).is_err() {
            return Err(ReadAllFault::Memory);
        }
    }
    Err(ReadAllFault::TooLong)
}
