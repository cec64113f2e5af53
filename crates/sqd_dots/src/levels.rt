// The elements around a place.
ghost use Rattle.std.specs.Prelude.{◌≡◌, ℕ, List, [], ◌∷◌, ◌++◌, OnOk};
ghost use Rattle.sqd_dots.specs.Dots.{is_layer as is_design_layer};
ghost use Rattle.sqd_elements.specs.Kept.{inside_of, both};
ghost use Rattle.sqd_dots.specs.Levels.{Tier, tier_named, tiers_of, tier_names};

use sidb_units::Memory;
use sqd_elements::Inside;
use std::alloc::Global;

/// An element around a place: the name of its end mark, and what is inside it behind the place.
#[derive(Clone, Copy)]
pub struct OpenElement<'a> {
    pub name: &'a [u8],
    pub inside: Inside,
}

/// The elements around a place: the nearest, and the others, the root's surroundings first.
#[derive(Drop)]
pub struct OpenElements<'a> {
    pub inner: OpenElement<'a>,
    pub outer: Vec<OpenElement<'a>>,
}

impl<'a> OpenElements<'a> {
    /// Outside the root.
    pub fn outside(alloc: Global) -> OpenElements<'a>
        ensures { tiers_of result ≡ tier_named [] (inside_of []) ∷ [] }
    {
        OpenElements {
            inner: OpenElement {
                name: b"",
                inside: Inside::nothing(),
            },
            outer: Vec::new(alloc),
        }
    }

    /// Goes before an end mark.
    pub fn enter(&mut self, name: &'a [u8]) -> Result<(), Memory>
        ensures { OnOk result
            (tiers_of self.new ≡ tier_named name.now (inside_of []) ∷ tiers_of self.old) }
    {
        self.outer.push(self.inner)?;
        self.inner = OpenElement {
            name,
            inside: Inside::nothing(),
        };
        Ok(())
    }

    /// Goes before the start mark of the nearest element, and gives what is inside that.
    pub fn leave(&mut self) -> Inside
        ensures { (inner outer : Tier) (more : List Tier) → tiers_of self.old ≡ inner ∷ outer ∷ more
            → (result ≡ inner.inside) × (tiers_of self.new ≡ outer ∷ more) }
    {
        let inside = self.inner.inside;
        if let Some(level) = self.outer.pop() {
            self.inner = level;
        }
        inside
    }

    /// Goes before elements inside the nearest one.
    pub fn add(&mut self, inside: Inside)
        ensures { (inner : Tier) (more : List Tier) → tiers_of self.old ≡ inner ∷ more
            → tiers_of self.new ≡ tier_named inner.name (both inside inner.inside) ∷ more }
    {
        self.inner.inside = inside.with(self.inner.inside);
    }

    /// Whether the nearest element is a design layer.
    pub fn is_layer(&self) -> bool
        ensures { (around : List (List ℕ)) → tier_names (tiers_of self.now) ≡ around ++ [] ∷ []
            → result ≡ is_design_layer around }
    {
        if self.outer.len() != 3 {
            return false;
        }
        let is_layer = self.inner.name == b"layer".as_slice();
        let in_design = self.outer[2].name == b"design".as_slice();
        is_layer && in_design
    }
}
