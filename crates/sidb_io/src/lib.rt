//! Sources and sinks of bytes that count their faults, and gates.
#![tactic(auto)]

mod failed;
mod fill;
mod gate;
mod mem_sink;
mod mem_source;
mod read_whole;
mod real_sink;
mod real_source;
mod sink;
mod source;
mod steady_sink;
mod steady_source;
mod write_whole;

pub use failed::Failed;
pub use gate::{Event, Gate, NoGate};
pub use mem_sink::MemSink;
pub use mem_source::MemSource;
pub use read_whole::{ReadAllFault, read_all};
pub use real_sink::RealSink;
pub use real_source::RealSource;
pub use sink::Sink;
pub use source::Source;
pub use steady_sink::SteadySink;
pub use steady_source::SteadySource;
pub use write_whole::write_all;
