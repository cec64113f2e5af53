use charge_model::MAX_SITES;

/// A whole number for each site.
#[derive(Clone, Copy)]
pub struct SiteNumbers {
    at: [i64; MAX_SITES],
}

impl SiteNumbers {
    /// Zero for each site.
    pub fn zero() -> SiteNumbers {
        SiteNumbers { at: [0; MAX_SITES] }
    }

    /// The number of site k; zero past the last.
    pub fn get(&self, k: usize) -> i64 {
        if k < MAX_SITES { self.at[k] } else { 0 }
    }

    /// Adds to the number of site k.
    pub fn add(&mut self, k: usize, more: i64) {
        if k < MAX_SITES {
            self.at[k] = self.at[k].wrapping_add(more);
        }
    }
}
