// The ranges of a line's numbers, and the first fault of a line.
ghost use Rattle.std.specs.Prelude.{◌≡◌, ◌&&◌, [], ◌≤ℤ◌, pos, length, IsTrue};
ghost use Rattle.table_lines.specs.Kinds.{most_classes as class_limit, site_count_in, fixed_of, spans_of};
ghost use Rattle.table_lines.specs.Ranges.{fault_in as fault_there, is_table_line_in_range as in_range, is_reversed as reversed, twice_in as twice, is_below as below, is_from_to as from_to, has_room as room, is_pair as pair};
ghost use Rattle.table_lines.specs.FineLines.{AreFineTableLines};
ghost use Rattle.table_lines.specs.Seen.{IsCounted};

use crate::seen::Seen;
use crate::{LineWhy, TableFault, TableLine};
use charge_model::{MAX_FIXED, MAX_FIXED_CHARGE, MAX_LEVEL, MAX_POTENTIAL, MAX_SITES};

// The most classes that these sites and fixed charges may have.
fn most_classes(sites: i64, fixed: i64) -> usize
    requires sites_low { pos 0 ≤ℤ sites }
    requires sites_high { sites ≤ℤ pos MAX_SITES }
    requires fixed_low { pos 0 ≤ℤ fixed }
    requires fixed_high { fixed ≤ℤ pos MAX_FIXED }
    ensures { result ≡ class_limit sites fixed }
{
    let sites = sites.unsigned_abs() as usize;
    let fixed = fixed.unsigned_abs() as usize;
    (sites * sites - sites) / 2 + sites * fixed
}

// Whether a number is from 0 up to below the end.
fn is_below(end: i64, number: i64) -> bool
    ensures { result ≡ below end number }
{
    0 <= number && number < end
}

// Whether a number is from the first to the last.
fn is_from_to(first: i64, last: i64, number: i64) -> bool
    ensures { result ≡ from_to first last number }
{
    first <= number && number <= last
}

// Whether these are two of the sites, the lesser one first.
fn is_pair(seen: &Seen, i: i64, j: i64) -> bool
    requires { IsCounted seen.now }
    ensures { result ≡ pair (site_count_in seen.now.lines.items) i j }
{
    0 <= i && i < j && j < seen.sites
}

// Whether these are one of the sites and one of the fixed charges.
fn is_near(seen: &Seen, i: i64, a: i64) -> bool
    requires { IsCounted seen.now }
    ensures { result ≡ (below (site_count_in seen.now.lines.items) i
        && below (fixed_of seen.now.lines.items) a) }
{
    is_below(seen.sites, i) && is_below(seen.fixed, a)
}

// Whether it is one of the classes.
fn is_class(seen: &Seen, class: i64) -> bool
    requires { IsCounted seen.now }
    ensures { result ≡ below (pos (length (spans_of seen.now.lines.items))) class }
{
    is_below(seen.spans.len() as i64, class)
}

// Whether there may be one more class.
fn has_room(seen: &Seen) -> bool
    requires counted { IsCounted seen.now }
    requires fine { AreFineTableLines [] seen.now.lines.items }
    ensures { result ≡ room seen.now.lines.items }
{
    seen.spans.len() < most_classes(seen.sites, seen.fixed)
}

// Whether the line's numbers are in their ranges, and a class line is not one too many.
fn is_in_range(seen: &Seen, line: &TableLine) -> bool
    requires counted { IsCounted seen.now }
    requires fine { AreFineTableLines [] seen.now.lines.items }
    ensures { result ≡ in_range seen.now.lines.items line.now }
{
    match *line {
        TableLine::FirstVersion | TableLine::SecondVersion | TableLine::End => true,
        TableLine::Sites(n) => n >= 0,
        TableLine::Fixed(f) => f >= 0,
        TableLine::Base(b) => is_from_to(2, 3, b),
        TableLine::Levels(m, p) => -MAX_LEVEL <= p && p <= m && m <= MAX_LEVEL,
        TableLine::Charge(q) => is_from_to(-MAX_FIXED_CHARGE, MAX_FIXED_CHARGE, q) && q != 0,
        TableLine::Class(lo, hi) => {
            is_from_to(0, MAX_POTENTIAL, lo) && is_from_to(0, MAX_POTENTIAL, hi) && has_room(seen)
        }
        TableLine::Pair(i, j, c) => is_pair(seen, i, j) && is_class(seen, c),
        TableLine::Near(i, a, c) => is_near(seen, i, a) && is_class(seen, c),
    }
}

// The fault of a line that came before.
fn twice_in(seen: &Seen, line: &TableLine) -> Option<TableFault>
    requires counted { IsCounted seen.now }
    requires fine { AreFineTableLines [] seen.now.lines.items }
    requires in_range { IsTrue (in_range seen.now.lines.items line.now) }
    ensures { result ≡ twice seen.now.lines.items line.now }
{
    match *line {
        TableLine::Pair(i, j, _) => {
            let _ = seen.pair_class(i, j)?;
            Some(TableFault::TwicePair(i.unsigned_abs() as usize, j.unsigned_abs() as usize))
        }
        TableLine::Near(i, a, _) => {
            let _ = seen.near_class(i, a)?;
            Some(TableFault::TwiceNear(i.unsigned_abs() as usize, a.unsigned_abs() as usize))
        }
        _ => None,
    }
}

// Whether a class's least potential is above its greatest.
fn is_reversed(line: &TableLine) -> bool
    ensures { result ≡ reversed line.now }
{
    match *line {
        TableLine::Class(lo, hi) => hi < lo,
        _ => false,
    }
}

/// The first fault of a line with this number.
pub fn fault_in(seen: &Seen, number: u64, line: &TableLine) -> Option<TableFault>
    requires counted { IsCounted seen.now }
    requires fine { AreFineTableLines [] seen.now.lines.items }
    ensures { result ≡ fault_there seen.now.lines.items number line.now }
{
    match *line {
        TableLine::Sites(n) if n > MAX_SITES as i64 => return Some(TableFault::TooMany),
        TableLine::Fixed(f) if f > MAX_FIXED as i64 => return Some(TableFault::TooManyFixed),
        _ => {}
    }
    if !is_in_range(seen, line) {
        return Some(TableFault::Line(number, LineWhy::Range));
    }
    if is_reversed(line) {
        return Some(TableFault::BadSpan(seen.spans.len()));
    }
    twice_in(seen, line)
}
