//! Lists of charges of a fixed capacity, which take no memory, and their order.
#![tactic(auto)]

mod charges;
pub mod laws;
mod order;
mod test_order;
mod text;

pub use charge_model::{Charge, Test, number};
pub use charges::Charges;
pub use order::{cmp_charges, first_charges, next_charges};
pub use test_order::test_at;
pub use text::{ChargeFault, print_charges, read_charges};

/// The byte of a negative charge.
pub const MINUS: u8 = b'-';

/// The byte of a neutral charge.
pub const ZERO: u8 = b'0';

/// The byte of a positive charge.
pub const PLUS: u8 = b'+';

/// The only byte of the text of the empty list.
pub const POINT: u8 = b'.';
