use crate::couplings::Couplings;
use crate::row::SiteNumbers;

/// A charge list that may be a good one: the number of each site, the potentials, and the energy.
#[derive(Clone, Copy)]
pub struct Guess {
    numbers: SiteNumbers,
    potentials: SiteNumbers,
    pub energy: i64,
}

impl Guess {
    /// Each site is neutral.
    pub fn neutral(couplings: &Couplings) -> Guess {
        Guess {
            numbers: SiteNumbers::zero(),
            potentials: couplings.fixed,
            energy: 0,
        }
    }

    /// The number of a site: -1, 0 or 1.
    pub fn number(&self, i: usize) -> i64 {
        self.numbers.get(i)
    }

    /// The potential of a site.
    pub fn potential(&self, i: usize) -> i64 {
        self.potentials.get(i)
    }

    /// Changes the number of a site, and the potentials and the energy with it.
    pub fn change(&mut self, couplings: &Couplings, i: usize, by: i64) {
        let gained = by.wrapping_mul(self.potentials.get(i));
        self.energy = self.energy.wrapping_add(gained);
        self.numbers.add(i, by);
        let row = couplings.row(i);
        for k in 0..couplings.sites {
            self.potentials.add(k, by.wrapping_mul(row.get(k)));
        }
    }

    /// Gives a site a number.
    pub fn set(&mut self, couplings: &Couplings, i: usize, number: i64) {
        let by = number.wrapping_sub(self.numbers.get(i));
        if by != 0 {
            self.change(couplings, i, by);
        }
    }
}
