ghost use Rattle.std.specs.Prelude.{◌≡◌, ◌<◌, ◌≤◌, ◌↔◌, ◌++◌, [], ◌∷◌, length, IsNone, option_to_list};
ghost use Rattle.charge_model.specs.Charges.{charge_at};
ghost use Rattle.charge_model.specs.declared.TheConstants.{MAX_SITES};

use arrayvec::ArrayVec;
use charge_model::{Charge, MAX_SITES};
use std::marker::Model;

/// One place of a list; one that is not in use is neutral.
#[derive(Clone, Copy)]
struct Place {
    charge: Charge,
}

impl Default for Place {
    fn default() -> Place {
        Place {
            charge: Charge::Neutral,
        }
    }
}

/// The charges of at most 64 sites, site 0 first.
#[derive(Drop)]
pub struct Charges {
    places: ArrayVec<Place, MAX_SITES>,
}

impl Model for Charges {
    ghost use Rattle.std.specs.Prelude.{List, length, map, ◌≤◌};
    ghost use Rattle.charge_model.specs.declared.charge.Charge.{Charge};
    ghost use Rattle.charge_model.specs.declared.TheConstants.{MAX_SITES};

    ghost Value = { List Charge };

    ghost view = { λ list. map (λ place. place.charge) list.places.items };

    ghost invariant = { λ list. length list.places.items ≤ MAX_SITES };
}

impl Charges {
    /// The list of no charges.
    pub fn empty() -> Charges
        ensures { result ≡ [] }
    {
        Charges {
            places: ArrayVec::new(),
        }
    }

    /// How many charges there are.
    pub fn len(&self) -> usize
        ensures value { result ≡ length self.now }
        ensures within { result ≤ MAX_SITES }
    {
        self.places.len()
    }

    /// The same list.
    pub fn copy(&self) -> Charges
        ensures { result ≡ self.now }
    {
        let mut copy = Charges::empty();
        let _fits = copy.places.try_extend_from_slice(self.places.as_slice());
        copy
    }

    /// The charge of site i.
    pub fn at(&self, i: usize) -> Charge
        requires { i < length self.now }
        ensures { result ≡ charge_at self.now i }
    {
        self.places[i].charge
    }

    /// Adds a charge at the end.
    pub fn push(&mut self, charge: Charge)
        requires { length self.old < MAX_SITES }
        ensures { self.new ≡ self.old ++ charge ∷ [] }
    {
        self.places.push(Place { charge });
    }

    /// Takes the last charge off.
    pub fn pop(&mut self) -> Option<Charge>
        ensures taken { self.old ≡ self.new ++ option_to_list result }
        ensures none { IsNone result ↔ (self.old ≡ []) }
    {
        self.places.pop().map(|place| place.charge)
    }
}
