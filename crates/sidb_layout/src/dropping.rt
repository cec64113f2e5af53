// Sites without some of them.
ghost use Rattle.std.specs.Prelude.{◌≡◌, ◌==◌, not, IfOk};
ghost use Rattle.std.specs.List.{list_any};
ghost use Rattle.sidb_layout.specs.Dropping.{sites_but};

use crate::Site;
use sidb_units::Memory;
use std::alloc::Global;

/// Whether the site at this place stays.
fn stays(gone: &[usize], k: usize) -> bool
    ensures { result ≡ not (list_any (λ g. g == k) gone.now) }
{
    !gone.contains(&k)
}

/// The sites whose places in the list are not among these.
pub(crate) fn kept_sites(alloc: Global, sites: &[Site], gone: &[usize]) -> Result<Vec<Site>, Memory>
    ensures { IfOk result (λ kept. kept.items ≡ sites_but gone.now sites.now) }
{
    let mut kept = Vec::new(alloc);
    for (k, site) in sites.iter().enumerate() {
        if stays(gone, k) {
            kept.push(*site)?;
        }
    }
    Ok(kept)
}
