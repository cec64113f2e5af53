//! Want of memory, lists of words, decimal texts, and the limits that every layer shares.
#![tactic(auto)]

mod decimal_fault;
mod decimal_printing;
mod decimal_reading;
pub mod laws;
mod memory;
mod word_list;

pub use charge_model::{
    MAX_FIXED, MAX_FIXED_CHARGE, MAX_LEVEL, MAX_POTENTIAL, MAX_SITES, MAX_WEIGHT,
};
pub use decimal_fault::DecFault;
pub use decimal_printing::print_dec;
pub use decimal_reading::read_dec;
pub use memory::Memory;
pub use word_list::WordList;

/// The most bytes of an input, whatever its form.
pub const MAX_INPUT_BYTES: usize = 1_048_576;

/// The most entries of a ground list.
pub const MAX_ENTRIES: usize = 4_096;

/// The most bytes of a certificate.
pub const MAX_CERTIFICATE_BYTES: usize = 268_435_456;

/// The most tokens of a certificate: three a node, and one.
pub const MAX_TOKENS: u64 = 30_000_001;

/// The greatest node limit.
pub const MAX_NODES: u64 = 10_000_000;
/// The node limit where none is given.
pub const DEFAULT_NODES: u64 = 1_000_000;

/// The most workers of a run.
pub const MAX_WORKERS: u64 = 16;
/// The workers of a run where no number is given.
pub const DEFAULT_WORKERS: u64 = 4;

/// The most points of a grid, in each of its two directions.
pub const MAX_GRID: usize = 64;
