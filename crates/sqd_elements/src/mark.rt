// What marks begin.
ghost use Rattle.std.specs.Prelude.{◌≡◌};
ghost use Rattle.sqd_marks.specs.Marks.{Tag};
ghost use Rattle.sqd_marks.specs.Tags.{IsTagOf};
ghost use Rattle.sqd_elements.specs.Sites.{coordinate_in, site_in};
ghost use Rattle.sqd_elements.specs.Kept.{sort_in};

use crate::kept::Sort;
use crate::number::number_of;
use sidb_layout::Site;
use sqd_marks::{attribute, tag_name};

/// The whole number that a mark gives under this name.
fn coordinate_of(mark: &[u8], name: &[u8]) -> Option<i64>
    ensures { (tag : Tag) → IsTagOf tag mark.now → result ≡ coordinate_in name.now tag }
{
    match attribute(mark, name) {
        None => None,
        Some(value) => number_of(value),
    }
}

/// The site that a mark gives.
fn site_of(mark: &[u8]) -> Option<Site>
    ensures { (tag : Tag) → IsTagOf tag mark.now → result ≡ site_in tag }
{
    let n = coordinate_of(mark, b"n")?;
    let m = coordinate_of(mark, b"m")?;
    let l = coordinate_of(mark, b"l")?;
    Some(Site { n, m, l })
}

/// The sort of the element that a start mark or an empty mark begins.
pub fn sort_of(mark: &[u8]) -> Sort
    ensures { (tag : Tag) → IsTagOf tag mark.now → result ≡ sort_in tag }
{
    let name = tag_name(mark);
    if name == b"dbdot".as_slice() {
        return Sort::Dot;
    }
    if name == b"latcoord".as_slice() {
        return Sort::Latcoord(site_of(mark));
    }
    if name == b"siqad".as_slice() {
        return Sort::Siqad;
    }
    Sort::Other
}
