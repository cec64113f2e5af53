//! The tables of a track: for each number of assigned sites the parts of the extremes of each
//! site's potential, and the parts of the lower bound; how one more charge adds to them, and what
//! they tell of a prefix.
#![tactic(auto)]

pub mod laws;
mod limits;
mod parts;
mod row;
mod rows;
mod tables;
mod verdicts;

pub use limits::add_limit;
pub use parts::{add_part, part_in};
pub use row::{Row, empty_row, row_in};
pub use rows::{advance, row_whole};
pub use tables::{first_parts, first_rows, pair_parts, span_rows, unassigned_rows};
pub use verdicts::{refused_at, rows_closed_at, rows_low, rows_open};
