ghost use Rattle.std.specs.Prelude.{◌≡◌, ◌<◌, ◌≤◌, length, map, slice_get, Some, IfOk};
ghost use Rattle.ground_entries.specs.Seen.{seen};
ghost use Rattle.sidb_units.specs.declared.TheConstants.{MAX_ENTRIES};

use charge_model::Mark;
use charge_state::Charges;
use sidb_units::{MAX_ENTRIES, Memory};
use std::alloc::Global;
use std::marker::Model;

/// A charge list and its mark.
#[derive(Drop)]
pub struct Entry {
    pub charges: Charges,
    pub mark: Mark,
}

/// A list of at most 4,096 entries.
#[derive(Drop)]
pub struct GroundList {
    entries: Vec<Entry>,
}

impl Model for GroundList {
    ghost use Rattle.std.specs.Prelude.{List, length, map, ◌≤◌};
    ghost use Rattle.charge_model.specs.GroundList.{Entry as Marked};
    ghost use Rattle.ground_entries.specs.Seen.{seen};
    ghost use Rattle.sidb_units.specs.declared.TheConstants.{MAX_ENTRIES};

    ghost Value = { List Marked };

    ghost view = { λ list. map seen list.entries.items };

    ghost invariant = { λ list. length list.entries.items ≤ MAX_ENTRIES };
}

/// What a search answers: the ground list, the least certain energy in 10^-12 V, where there is
/// one, and how many nodes the search tree under it has.
#[derive(Drop)]
pub struct Solved {
    pub list: GroundList,
    pub bound: Option<i64>,
    pub nodes: u64,
}

impl Entry {
    /// The same entry.
    pub fn copy(&self) -> Entry
        ensures { seen result ≡ seen self.now }
    {
        Entry {
            charges: self.charges.copy(),
            mark: self.mark,
        }
    }
}

impl GroundList {
    /// How many entries there are.
    pub fn len(&self) -> usize
        ensures value { result ≡ length self.now }
        ensures within { result ≤ MAX_ENTRIES }
    {
        self.entries.len()
    }

    /// Entry j.
    pub fn entry(&self, j: usize) -> &Entry
        requires { j < length self.now }
        ensures { slice_get self.now j ≡ Some (seen result.now) }
    {
        &self.entries[j]
    }

    /// The same list.
    pub fn copy(&self, alloc: Global) -> Result<GroundList, Memory>
        ensures { IfOk result (λ list. list ≡ self.now) }
    {
        let mut entries = Vec::with_capacity(alloc, self.len())?;
        for entry in &self.entries {
            entries.push(entry.copy())?;
        }
        Ok(list_of(entries))
    }
}

/// The list of these entries.
pub fn list_of(entries: Vec<Entry>) -> GroundList
    requires { length entries.items ≤ MAX_ENTRIES }
    ensures { result ≡ map seen entries.items }
{
    GroundList { entries }
}
