ghost use Rattle.std.specs.Prelude.{◌≡◌, ◌≤◌, length, string_bytes, IfOk};
ghost use Rattle.charge_model.specs.GroundList.{is_certain};
ghost use Rattle.gate_report.specs.GenText.{count_certain, gen_text};

use charge_model::Mark;
use ground_entries::{GroundList, Solved};
use sidb_units::Memory;
use std::alloc::Global;

/// Whether the mark is `Certain`.
fn is_certain(mark: Mark) -> bool
    ensures { result ≡ is_certain mark }
{
    match mark {
        Mark::Certain => true,
        Mark::Unresolved(_) => false,
    }
}

/// How many entries are certain.
fn count_certain(list: &GroundList) -> usize
    ensures { result ≡ count_certain list.now }
{
    let mut count = 0;
    for j in 0..list.len() {
        if is_certain(list.entry(j).mark) {
            count += 1;
        }
    }
    count
}

/// The summary of a generated layout: its number, its sites, the nodes of the search tree, the
/// entries of the ground list and how many of them are certain.
pub fn gen_text(alloc: Global, number: u64, sites: usize, solved: &Solved) -> Result<String, Memory>
    ensures { IfOk result (λ text. string_bytes text ≡ gen_text number sites solved.now) }
{
    let nodes = solved.nodes;
    let entries = solved.list.len();
    let certain = count_certain(&solved.list);
    Ok(format!(in alloc;
        "sidb-gen 1\nnumber {number}\nsites {sites}\nnodes {nodes}\nentries {entries}\ncertain {certain}\nend\n"
    )?)
}
