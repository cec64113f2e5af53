// Members of an object that may be missing.
ghost use Rattle.std.specs.Prelude.{◌≡◌, option_map, OnOk};
ghost use Rattle.serde_json.specs.View.{members_view, view};
ghost use Rattle.sim_report_json.specs.Parts.{put_optional};

use serde_json::{Map, Value, put};
use sidb_units::Memory;
use std::alloc::Global;

/// Adds the member, where it is given.
pub fn put_optional(
    members: &mut Map<String, Value>,
    alloc: Global,
    key: &str,
    value: Option<Value>,
) -> Result<(), Memory>
    ensures { OnOk result (members_view members.new.entries
        ≡ put_optional key.now (option_map view value) (members_view members.old.entries)) }
{
    if let Some(value) = value {
        put(members, alloc, key, value)?;
    }
    Ok(())
}
