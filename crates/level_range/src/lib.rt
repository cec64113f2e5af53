//! The ground list at every level of an interval: the parts of the interval with equal answers.
#![tactic(auto)]

mod answers;
mod changes;
mod entries;
mod guessing;
mod parts;
mod parts_list;
mod range;
mod range_answer;

pub use answers::answer_at;
pub use changes::next_change;
pub use entries::{PartEntry, PrintedPart, same_entries};
pub use level_candidates::Interval;
pub use parts::{MAX_PARTS, parts_of};
pub use parts_list::Parts;
pub use range::level_range;
pub use range_answer::RangeAnswer;
