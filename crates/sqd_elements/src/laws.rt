//! What is kept of the tags inside an element says enough of them, and is kept tag by tag.
ghost use Rattle.std.specs.Prelude.{◌≡◌, List, [], ◌∷◌, ◌++◌};
ghost use Rattle.sqd_marks.specs.Marks.{Tag};
ghost use Rattle.sqd_elements.specs.Sites.{site_inside};
ghost use Rattle.sqd_elements.specs.Kept.{sort_in, inside_of, inside_from, both, site_from_inside};

/// What is kept of one tag is told by its sort.
pub fn kept_of_one()
    ensures { (tag : Tag) → inside_of (tag ∷ []) ≡ inside_from (sort_in tag) }
{}

/// What is kept of tags and of those behind them is both.
pub fn kept_of_both()
    ensures { (a b : List Tag) → inside_of (a ++ b) ≡ both (inside_of a) (inside_of b) }
{}

/// The site of a dot is that of what is kept of the tags inside it.
pub fn kept_site()
    ensures { (tags : List Tag) → site_inside tags ≡ site_from_inside (inside_of tags) }
{}
