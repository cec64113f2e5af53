// Places of a gate's pairs that are no sites.
ghost use Rattle.std.specs.Prelude.{◌<◌, ◌++◌, All, IfNone, IfSome, MatchOption};
ghost use Rattle.gate_model.specs.Logic.{places_in};
ghost use Rattle.bdl_pairs.specs.Remaining.{IsOn};
ghost use Rattle.task_gate.specs.GateSite.{ArePlacesBelow, IsFirstFrom, IsGateSite};

use bdl_pairs::{LogicSpec, PairOf};
use sidb_layout::Layout;

/// The first place of these pairs that is not below the number.
fn outside_in(pairs: &[PairOf], sites: usize) -> Option<usize>
    ensures { MatchOption result (All (ArePlacesBelow sites) pairs.now)
        (IsFirstFrom sites (places_in pairs.now)) }
{
    for k in 0..pairs.len() {
        let pair = pairs[k];
        if sites <= pair.a {
            return Some(pair.a);
        }
        if sites <= pair.b {
            return Some(pair.b);
        }
    }
    None
}

/// The first place that a gate's pairs name and that is no site of the layout: input pairs before
/// output pairs, and in a pair a before b.
pub fn gate_site(gate: &LogicSpec, layout: &Layout) -> Option<usize>
    ensures on { IfNone result (IsOn gate.now layout.now.sites) }
    ensures site { IfSome result (IsGateSite gate.now layout.now.sites) }
{
    let sites = layout.len();
    match outside_in(gate.input_pairs(), sites) {
        Some(place) => Some(place),
        None => outside_in(gate.output_pairs(), sites),
    }
}
