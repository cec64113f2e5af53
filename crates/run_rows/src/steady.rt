ghost use Rattle.std.specs.Prelude.{◌≢◌};

use sidb_io::{Gate, SteadySink, SteadySource};
use sidb_units::WordList;
use sim_cli::{Status, run};
use std::alloc::Global;
use std::thread::Threads;

/// A run over a source and a sink that never fail: neither fault of the outside comes.
pub fn steady_run<R: Threads + Sync, G: Gate>(
    rt: &R,
    alloc: Global,
    words: &WordList,
    source: &mut SteadySource,
    sink: &mut SteadySink,
    gate: &G,
) -> Status
    ensures read { result ≢ Status.ReadFault }
    ensures write { result ≢ Status.WriteFault }
{
    run(rt, alloc, words, source, sink, gate)
}
