ghost use Rattle.std.specs.Prelude.{◌≡◌, ◌<◌, ◌↔◌, length, IsTrue, IsNone, slice_get, Some};
ghost use Rattle.level_range_laws.specs.Parts.{printed_at};
ghost use Rattle.level_range.specs.Seen.{outcome_of, entries_in};

use crate::entries::{PartEntry, PrintedPart};
use std::marker::Model;

/// The printed parts of an interval of levels.
#[derive(Drop)]
pub struct Parts {
    pub(crate) parts: Vec<PrintedPart>,
}

impl Model for Parts {
    ghost use Rattle.std.specs.Prelude.{List, map};
    ghost use Rattle.level_range_laws.specs.Parts.{Printed};

    ghost Value = { List Printed };

    ghost use Rattle.level_range.specs.PartsSeen.{seen};

    ghost view = { seen };
}

impl Parts {
    /// How many parts there are.
    pub fn len(&self) -> usize
        ensures { result ≡ length self.now }
    {
        self.parts.len()
    }

    /// The first level of part k, in 10^-12 V.
    pub fn first(&self, k: usize) -> i64
        requires { k < length self.now }
        ensures { result ≡ (printed_at self.now k).first }
    {
        self.parts[k].first.value
    }

    /// The last level of part k, in 10^-12 V.
    pub fn last(&self, k: usize) -> i64
        requires { k < length self.now }
        ensures { result ≡ (printed_at self.now k).last }
    {
        self.parts[k].last.value
    }

    /// Whether part k is split: its levels have several answers.
    pub fn split(&self, k: usize) -> bool
        requires { k < length self.now }
        ensures { IsTrue result ↔ IsNone (printed_at self.now k).answer }
    {
        self.parts[k].split
    }

    /// How many entries the answer of part k has; none where it is split.
    pub fn entries(&self, k: usize) -> usize
        requires { k < length self.now }
        ensures { result ≡ length (entries_in (printed_at self.now k)) }
    {
        if self.parts[k].split {
            0
        } else {
            self.parts[k].entries.len()
        }
    }

    /// Entry j of the answer of part k.
    pub fn entry(&self, k: usize, j: usize) -> PartEntry
        requires part { k < length self.now }
        requires entry { j < length (entries_in (printed_at self.now k)) }
        ensures { slice_get (entries_in (printed_at self.now k)) j ≡ Some (outcome_of result) }
    {
        let entry = &self.parts[k].entries[j];
        PartEntry {
            charges: entry.charges.copy(),
            certain: entry.certain,
        }
    }
}
