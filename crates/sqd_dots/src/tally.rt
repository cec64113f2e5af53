// What was seen of the elements.
ghost use Rattle.std.specs.Prelude.{◌≡◌, ◌+◌, ◌<◌, ◌≤◌, ◌^◌, List, [], ◌∷◌, OnOk};
ghost use Rattle.sqd_elements.specs.Elements.{Element};
ghost use Rattle.sqd_dots.specs.Dots.{is_layer};
ghost use Rattle.sqd_elements.specs.Kept.{sort_in, inside_of};
ghost use Rattle.sqd_dots.specs.States.{IsTally};

use crate::Dot;
use sidb_units::Memory;
use sqd_elements::laws::kept_site;
use sqd_elements::{Inside, Sort};
use std::alloc::Global;

/// What was seen of the elements from a place on: the dots, the last one first; the first dot that
/// has no site; how many elements were skipped; whether the first element is named `siqad`.
#[derive(Drop)]
pub struct Tally {
    pub dots: Vec<Dot>,
    pub bad: Option<usize>,
    pub skipped: u64,
    pub siqad: bool,
}

impl Tally {
    /// No element was seen.
    pub fn nothing(alloc: Global) -> Tally
        ensures seen { IsTally result [] }
        ensures none { result.skipped ≡ 0 }
    {
        Tally {
            dots: Vec::new(alloc),
            bad: None,
            skipped: 0,
            siqad: false,
        }
    }

    /// Sees the element before.
    pub fn see(
        &mut self,
        at: usize,
        sort: Sort,
        inside: Inside,
        in_layer: bool,
    ) -> Result<(), Memory>
        requires { self.old.skipped + 1 < 2 ^ 64 }
        ensures seen { (e : Element) (es : List Element) → IsTally self.old es → e.at ≡ at
            → sort_in e.tag ≡ sort → inside_of e.inside ≡ inside → is_layer e.around ≡ in_layer
            → OnOk result (IsTally self.new (e ∷ es)) }
        ensures few { self.new.skipped ≤ self.old.skipped + 1 }
    {
        self.siqad = matches!(sort, Sort::Siqad);
        if !matches!(sort, Sort::Dot) {
            if in_layer && !inside.has_dot {
                self.skipped += 1;
            }
            return Ok(());
        }
        kept_site();
        match inside.site() {
            Some(site) => self.dots.push(Dot { at, site })?,
            None => self.bad = Some(at),
        }
        Ok(())
    }
}
