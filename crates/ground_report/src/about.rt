ghost use Rattle.std.specs.Prelude.{◌≡◌};
ghost use Rattle.ground_report.specs.Subject.{is_silicon, skipped_in, version_of};

use sidb_layout::{Lattice, Layout, default_lattice};

/// What a report is about: the layout, where there is one, and how many items of the layout's text
/// were skipped.
#[derive(Drop)]
pub struct About {
    pub layout: Option<Layout>,
    pub skipped: u64,
}

impl About {
    /// The version of the report: 1, and 2 where the layout has fixed charges, or another lattice
    /// than that of silicon.
    pub fn version(&self) -> u64
        ensures { result ≡ version_of self.now.layout }
    {
        match &self.layout {
            Some(layout) => layout_version(layout),
            None => 1,
        }
    }

    /// How many items were skipped, and 0 where there is no layout.
    pub fn skipped_items(&self) -> u64
        ensures { result ≡ skipped_in self.now }
    {
        match &self.layout {
            Some(_) => self.skipped,
            None => 0,
        }
    }
}

/// The version of a report about a layout.
fn layout_version(layout: &Layout) -> u64
    ensures { result ≡ version_of (Some layout.now) }
{
    if is_silicon(layout.lattice()) && layout.fixes() == 0 {
        1
    } else {
        2
    }
}

/// Whether the lattice is that of H-Si(100)-2x1 (docs/MODEL.md, "Lattice").
pub fn is_silicon(lattice: Lattice) -> bool
    ensures { result ≡ is_silicon lattice }
{
    lattice == default_lattice()
}
