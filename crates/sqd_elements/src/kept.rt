// What is kept of the elements inside another.
ghost use Rattle.std.specs.Prelude.{◌≡◌, []};
ghost use Rattle.sqd_elements.specs.Kept.{inside_of, inside_from, both_latcoords, both as both_insides, site_from_inside};

use sidb_layout::Site;

/// The sort of an element, as far as dots go.
#[derive(Clone, Copy)]
pub enum Sort {
    /// A dot.
    Dot,
    /// Lattice coordinates, with the site that they give.
    Latcoord(Option<Site>),
    /// An element that may be the root.
    Siqad,
    /// Any other.
    Other,
}

/// How many `latcoord`s there are, with the site that the only one gives.
#[derive(Clone, Copy)]
pub enum Latcoords {
    Nowhere,
    Once(Option<Site>),
    Twice,
}

/// What is kept of the elements inside another.
#[derive(Clone, Copy)]
pub struct Inside {
    pub has_dot: bool,
    pub latcoords: Latcoords,
}

/// The `latcoord`s of both.
fn both(few: Latcoords, more: Latcoords) -> Latcoords
    ensures { result ≡ both_latcoords few more }
{
    match few {
        Latcoords::Nowhere => more,
        _ => match more {
            Latcoords::Nowhere => few,
            _ => Latcoords::Twice,
        },
    }
}

impl Inside {
    /// Nothing is inside.
    pub fn nothing() -> Inside
        ensures { result ≡ inside_of [] }
    {
        Inside {
            has_dot: false,
            latcoords: Latcoords::Nowhere,
        }
    }

    /// One element of this sort.
    pub fn of_sort(sort: Sort) -> Inside
        ensures { result ≡ inside_from sort }
    {
        match sort {
            Sort::Dot => Inside {
                has_dot: true,
                latcoords: Latcoords::Nowhere,
            },
            Sort::Latcoord(site) => Inside {
                has_dot: false,
                latcoords: Latcoords::Once(site),
            },
            _ => Inside::nothing(),
        }
    }

    /// What is inside either.
    pub fn with(self, more: Inside) -> Inside
        ensures { result ≡ both_insides self more }
    {
        Inside {
            has_dot: self.has_dot || more.has_dot,
            latcoords: both(self.latcoords, more.latcoords),
        }
    }

    /// The site of a dot with so much inside.
    pub fn site(self) -> Option<Site>
        ensures { result ≡ site_from_inside self }
    {
        if self.has_dot {
            return None;
        }
        match self.latcoords {
            Latcoords::Once(site) => site,
            _ => None,
        }
    }
}
